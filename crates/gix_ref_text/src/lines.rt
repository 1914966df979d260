//! Cuts the lines of a file, and reads the ids in them.

ghost use Rattle.std.specs.Prelude.{◌≡◌, ◌+◌, ◌<◌, ◌≤◌, ◌==◌, ◌∷◌, drop, length, IfSome};
ghost use Rattle.std.specs.Option.{option_map};
ghost use Rattle.std.specs.List.{position_or_len};
ghost use Rattle.gix_ref_text.specs.Lines.{parts, parts_after, tail, id_of};

use gix_base::hash::ObjectId;
use memchr::memchr;

/// Returns how many bytes come before a byte; all if it is not there.
fn len_before(bytes: &[u8], at: u8) -> usize
    ensures value { result ≡ position_or_len (λ b. b == at) bytes.now }
    ensures within { result ≤ length bytes.now }
{
    match memchr(at, bytes) {
        Some(len) => len,
        None => bytes.len(),
    }
}

/// Returns what comes after the first byte.
fn tail(bytes: &[u8]) -> Option<&[u8]>
    ensures value { option_map (λ r. r.now) result ≡ tail bytes.now }
    ensures shorter { IfSome result (λ rest. length rest.now < length bytes.now) }
{
    match bytes.split_first() {
        Some((_, rest)) => Some(rest),
        None => None,
    }
}

/// Returns what comes before a byte, and what comes after it if it is there.
pub fn cut(bytes: &[u8], at: u8) -> (&[u8], Option<&[u8]>)
    // The first text is the first part of the bytes between bytes `at`. The other parts are those
    // of the second text; there are none if there is no second text.
    ensures parts { parts at bytes.now ≡ result.0.now ∷ parts_after at (option_map (λ r. r.now) result.1) }

    // The second text is shorter than the bytes.
    ensures shorter { IfSome result.1 (λ rest. length rest.now < length bytes.now) }

    // The second text is the end of the bytes, from one byte past the length of the first text on.
    ensures behind { IfSome result.1 (λ rest. rest.now ≡ drop (length result.0.now + 1) bytes.now) }
{
    let (front, rest) = bytes.split_at(len_before(bytes, at));
    (front, tail(rest))
}

/// Returns the bytes from a place on. There are none if the bytes end before it.
pub(crate) fn bytes_from(bytes: &[u8], place: usize) -> &[u8]
    ensures { result.now ≡ drop place bytes.now }
{
    match bytes.split_at_checked(place) {
        Some((_, rest)) => rest,
        None => &[],
    }
}

/// Returns the id whose 40 hex digits a text is.
pub(crate) fn id_of(text: &[u8]) -> Option<ObjectId>
    ensures { option_map (λ id. id.0) result ≡ id_of text.now }
{
    match ObjectId::from_hex(text) {
        Ok(id) => Some(id),
        Err(_) => None,
    }
}
