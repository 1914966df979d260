//! Reads the number in the date of a commit or a tag, as C's `strtoumax` does.

ghost use Rattle.std.specs.Prelude.{◌≡◌, ◌+◌, ◌-◌, ◌*◌, ◌^◌, ◌<◌, SomeIff};
ghost use Rattle.std.specs.List.{prefix_len};
ghost use Rattle.gix_object.specs.CommitTime.{is_space, without_space, number_of, negated, capped, signed_at, date_at};

use crate::bytes::after;

/// Returns whether a byte is white space.
fn is_space(byte: u8) -> bool
    ensures { result ≡ is_space byte }
{
    byte == b' ' || (9 <= byte && byte <= 13)
}

/// Returns how many bytes of white space `text` begins with.
fn space_length(text: &[u8]) -> usize
    ensures { result ≡ prefix_len is_space text.now }
{
    for (place, byte) in text.iter().enumerate() {
        if !is_space(*byte) {
            return place;
        }
    }
    text.len()
}

/// Returns `text` without the white space at its front.
#[tactic(auto, unfolding(crate::specs::CommitTime::without_space))]
fn without_space(text: &[u8]) -> &[u8]
    ensures { result.now ≡ without_space text.now }
{
    let count = space_length(text);
    if count < text.len() {
        &text[count..]
    } else {
        &[]
    }
}

/// Returns `number` with one more digit, if it fits into 64 bits.
fn with_digit(number: u64, byte: u8) -> Option<u64>
    ensures { SomeIff result (number * 10 + (byte - 48) < 2 ^ 64) (number * 10 + (byte - 48)) }
{
    let digit = u64::from(byte.saturating_sub(b'0'));
    number.checked_mul(10)?.checked_add(digit)
}

/// Returns the number that the digits at the front of `text` write, if it fits into 64 bits.
///
/// Without digits it is 0.
#[tactic(auto, unfolding(crate::specs::CommitTime::number_after))]
pub(crate) fn number(text: &[u8]) -> Option<u64>
    ensures { SomeIff result (number_of text.now < 2 ^ 64) (number_of text.now) }
{
    let mut number = 0u64;
    let mut rest = text;
    while let [byte, after @ ..] = rest {
        if !byte.is_ascii_digit() {
            return Some(number);
        }
        number = with_digit(number, *byte)?;
        rest = after;
    }
    Some(number)
}

/// Returns that number, or the greatest `u64` if it is greater.
fn capped(text: &[u8]) -> u64
    ensures { result ≡ capped (number_of text.now) }
{
    number(text).unwrap_or(u64::MAX)
}

/// Returns 2^64 less that number, modulo 2^64, or the greatest `u64` if it is greater.
fn negated(text: &[u8]) -> u64
    ensures { result ≡ negated (number_of text.now) }
{
    match number(text) {
        Some(number) => number.wrapping_neg(),
        None => u64::MAX,
    }
}

/// Returns the number that `text` begins with, which may have a sign.
#[tactic(auto, unfolding(crate::specs::CommitTime::signed_at))]
fn signed(text: &[u8]) -> u64
    ensures { result ≡ signed_at text.now }
{
    match text {
        [b'-', digits @ ..] => negated(digits),
        [b'+', digits @ ..] => capped(digits),
        _ => capped(text),
    }
}

/// Returns the number at the front of a date, or 0 if the date's line is not followed by anything.
#[tactic(auto, unfolding(crate::specs::CommitTime::date_at))]
pub(crate) fn date(text: &[u8]) -> u64
    ensures { result ≡ date_at text.now }
{
    if after(text, b'\n').is_empty() {
        0
    } else {
        signed(without_space(text))
    }
}
