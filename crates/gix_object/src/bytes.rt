//! Finds places and lines in the bytes of an object.

ghost use Rattle.std.specs.Prelude.{◌≡◌, ◌↔◌, ◌+◌, ◌<◌, ◌≤◌, length, drop, IsTrue, MatchOption};
ghost use Rattle.gix_object.specs.Lines.{place_of, Occurs, before, after, begins, IsIdLine, id_at};

use gix_base::hash::ObjectId;
use memchr::memchr;

/// Returns whether `text` begins with `word` and is longer.
#[tactic(auto, unfolding(crate::specs::Lines::begins))]
pub(crate) fn begins(text: &[u8], word: &[u8]) -> bool
    ensures value { result ≡ begins word.now text.now }
    ensures longer { IsTrue result → length word.now < length text.now }
{
    word.len() < text.len() && text.starts_with(word)
}

/// Returns the place of the first `byte`, or the length of `text` if it has none.
#[tactic(auto, using(crate::proofs::Places::first_place, crate::proofs::Places::no_place))]
pub(crate) fn place_of(text: &[u8], byte: u8) -> usize
    ensures value { result ≡ place_of byte text.now }
    ensures within { result ≤ length text.now }
{
    match memchr(byte, text) {
        Some(place) => place,
        None => text.len(),
    }
}

/// Returns the bytes after the first `byte`, or no bytes if there is none.
pub(crate) fn after(text: &[u8], byte: u8) -> &[u8]
    ensures { result.now ≡ after byte text.now }
{
    let place = place_of(text, byte);
    if place < text.len() {
        &text[place + 1..]
    } else {
        &[]
    }
}

/// Returns the bytes before the first `byte`, or `None` if there is none.
pub(crate) fn before(text: &[u8], byte: u8) -> Option<&[u8]>
    ensures { MatchOption result (¬ Occurs byte text.now)
        (λ part. Occurs byte text.now × (part.now ≡ before byte text.now)) }
{
    let place = place_of(text, byte);
    if place < text.len() {
        Some(&text[..place])
    } else {
        None
    }
}

/// Returns the id in the line at the front of `text`, if that line is `word` and an id.
#[tactic(auto, unfolding(crate::specs::Lines::id_at))]
pub(crate) fn line_id(text: &[u8], word: &[u8]) -> Option<ObjectId>
    requires { length word.now < 16 }
    ensures { MatchOption result (¬ IsIdLine word.now text.now)
        (λ id. IsIdLine word.now text.now × (id ≡ id_at text.now (length word.now))) }
{
    let at = word.len();
    if text.len() <= at + 41 {
        return None;
    }
    if !begins(text, word) {
        return None;
    }
    if text[at + 40] != b'\n' {
        return None;
    }
    match ObjectId::from_hex(&text[at..at + 40]) {
        Ok(id) => Some(id),
        Err(_) => None,
    }
}

/// Returns the bytes after a line of `len` bytes.
pub(crate) fn after_line(text: &[u8], len: usize) -> &[u8]
    requires { len ≤ length text.now }
    ensures rest { result.now ≡ drop len text.now }
    ensures shorter { length result.now + len ≡ length text.now }
{
    let (_, rest) = text.split_at(len);
    rest
}
