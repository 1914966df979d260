//! Compares and cuts texts.

ghost use Rattle.std.specs.Prelude.{◌≡◌, ◌≢◌, ◌↔◌, ◌++◌, ◌∷◌, ℕ, List, IsTrue, MatchOption, codes};
ghost use Rattle.parse_options.specs.Names.{no};
ghost use Rattle.parse_options.specs.Line.{IsCut, slice_of};

/// Returns what follows a front of a text; `None` if the text does not begin with it.
pub(crate) fn after_front<'a>(text: &'a [u8], front: &[u8]) -> Option<&'a [u8]>
    ensures { MatchOption result ((rest : List ℕ) → text.now ≢ front.now ++ rest)
        (λ x. text.now ≡ front.now ++ x.now) }
{
    text.strip_prefix(front)
}

/// Tells whether a text begins with a front.
pub(crate) fn begins(text: &[u8], front: &[u8]) -> bool
    ensures { IsTrue result ↔ ((rest : List ℕ) × (text.now ≡ front.now ++ rest)) }
{
    after_front(text, front).is_some()
}

/// Tells whether a name is `no-` and a long name.
pub(crate) fn is_negated(name: &[u8], long: &[u8]) -> bool
    ensures { IsTrue result ↔ (no ++ long.now ≡ name.now) }
{
    match after_front(name, b"no-") {
        Some(rest) => rest == long,
        None => false,
    }
}

/// Tells whether `no-` and a long name begin with a name.
pub(crate) fn begins_negated(name: &[u8], long: &[u8]) -> bool
    ensures { IsTrue result ↔ ((rest : List ℕ) × (no ++ long.now ≡ name.now ++ rest)) }
{
    match after_front(name, b"no-") {
        Some(rest) => begins(long, rest),
        None => begins(b"no-", name),
    }
}

/// Returns what is before the first `=` of a text, and what is behind it.
pub(crate) fn cut_value(text: &[u8]) -> (&[u8], Option<&[u8]>)
    ensures { IsCut text.now result.0.now (slice_of result.1) }
{
    match text.iter().position(|b| *b == b'=') {
        Some(place) => (
            text.get(..place).unwrap_or(text),
            text.get(place.saturating_add(1)..),
        ),
        None => (text, None),
    }
}
