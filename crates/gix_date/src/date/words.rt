//! Splits a text into words at spaces and dots.

ghost use Rattle.gix_date.specs.DateWords.{is_gap, word_length, words_from, words_of, words_left};
ghost use Rattle.std.specs.Option.{option_copied};
ghost use Rattle.std.specs.Prelude.{◌≡◌, ◌<◌, ◌≤◌, ◌∷◌, length, true, IfSome};

/// Tests whether a byte separates words.
fn is_parting(byte: u8) -> bool
    ensures { result ≡ is_gap byte }
{
    byte == b' ' || byte == b'.'
}

/// Returns the number of bytes in the first word of a text.
fn word_len(text: &[u8]) -> usize
    ensures value { result ≡ word_length text.now }
    ensures bound { result ≤ length text.now }
{
    let mut len = 0;
    let mut rest = text;
    while let [byte, after @ ..] = rest {
        if is_parting(*byte) {
            return len;
        }
        len += 1;
        rest = after;
    }
    len
}

/// Removes the spaces and dots at the beginning of a text.
#[tactic(auto, unfolding(crate::specs::DateWords::words_from))]
fn without_gap(text: &[u8]) -> &[u8]
    ensures words { words_of result.now ≡ words_from true text.now }
    ensures bound { length result.now ≤ length text.now }
{
    let mut rest = text;
    while let [byte, after @ ..] = rest {
        if !is_parting(*byte) {
            return rest;
        }
        rest = after;
    }
    rest
}

/// Returns the first word of a text, and the text after the gap, if there is a gap.
pub fn first_word(text: &[u8]) -> (&[u8], Option<&[u8]>)
    ensures words { words_of text.now ≡ result.0.now ∷ words_left (option_copied result.1) }
    ensures shorter { IfSome result.1 (λ rest. length rest.now < length text.now) }
{
    let (word, rest) = text.split_at(word_len(text));
    match rest {
        [] => (word, None),
        [_, after @ ..] => (word, Some(without_gap(after))),
    }
}
