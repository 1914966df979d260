//! Reads the name of a revision.

ghost use Rattle.std.specs.Prelude.{◌≡◌, option_map, ◌≤◌, length};
ghost use Rattle.gix_spec.specs.Names.{attempt_of, named};
ghost use Rattle.gix_spec.specs.Found.{attempt_found, part_of};

use super::describe_text::{describe_attempt, prefix_with};
use super::part::{Attempt, Found, Part, Piece};

/// Returns the prefix call that is tried first for a name, if any.
#[tactic(auto, unfolding(crate::specs::Names::attempt_of))]
fn attempt(name: &[u8]) -> Option<Attempt<'_>>
    ensures { option_map attempt_found result ≡ attempt_of name.now }
{
    match prefix_with(name, None) {
        Some(attempt) => Some(attempt),
        None => describe_attempt(name),
    }
}

/// Returns the part that is the first `len` bytes of a text, as a name.
pub(crate) fn named(text: &[u8], len: usize) -> Found<'_>
    requires { len ≤ length text.now }
    ensures { part_of result ≡ named text.now len }
{
    let (name, rest) = text.split_at(len);
    let piece = Piece::Name {
        text: name,
        whole: text,
        attempt: attempt(name),
    };
    Part::piece(piece, rest)
}
