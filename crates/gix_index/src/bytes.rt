//! Reads short numbers, and finds bytes.

ghost use Rattle.std.specs.Prelude.{◌≡◌, ◌+◌, ◌<◌, ◌≤◌, ◌==◌, length, take, MatchOption};
ghost use Rattle.gix_index.specs.IndexBytes.{half, place_of_nul, HasNul, name_at_front};

use memchr::memchr;

/// Reads the big-endian number in the 2 bytes at offset `at`.
#[tactic(auto, unfolding(crate::specs::IndexBytes::half))]
pub(crate) fn half_at(bytes: &[u8], at: usize) -> u16
    requires { at + 2 ≤ length bytes.now }
    ensures { result ≡ half bytes.now at }
{
    u16::from_be_bytes([bytes[at], bytes[at + 1]])
}

/// Returns the place of the first byte that is 0, or the length of `text` if it has none.
#[tactic(auto, using(crate::proofs::Places::first_place, crate::proofs::Places::no_place))]
fn place_of_nul(text: &[u8]) -> usize
    ensures value { result ≡ place_of_nul text.now }
    ensures within { result ≤ length text.now }
{
    match memchr(0, text) {
        Some(place) => place,
        None => text.len(),
    }
}

/// Returns the bytes before the first one that is 0; `None` if there is none.
pub(crate) fn before_nul(text: &[u8]) -> Option<&[u8]>
    ensures { MatchOption result (¬ HasNul text.now)
        (λ name. HasNul text.now × (name.now ≡ name_at_front text.now) × (length name.now < length text.now)) }
{
    let place = place_of_nul(text);
    if place < text.len() {
        Some(&text[..place])
    } else {
        None
    }
}

/// Returns the bytes before the first one of this value, and those after it; `None` if there is none.
pub(crate) fn split(text: &[u8], at: u8) -> Option<(&[u8], &[u8])> {
    let len = memchr(at, text)?;
    Some((text.get(..len)?, text.get(len.saturating_add(1)..)?))
}
