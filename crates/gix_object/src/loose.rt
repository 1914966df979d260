//! Reads loose objects (gitformat-loose).

ghost use Rattle.std.specs.Prelude.{◌≡◌, ◌≢◌, ◌↔◌, ◌<◌, ◌≤◌, ◌^◌, ◌∷◌, ◌++◌, List, ℕ, decimal, IsTrue, IfSome, MatchOption};
ghost use Rattle.gix_base.specs.declared.object.Kind.{Kind};
ghost use Rattle.gix_object.specs.ObjectForm.{kind_and_size, HasHeader, IsHeader, IsLoose};

use crate::bytes::{after, after_line, before};
use crate::digits::number;
use crate::kinds::kind_of_name;
use gix_base::object::Kind;
use itoa::Buffer;

/// How many bytes a header has at most.
pub const MOST_HEADER: usize = 28;

/// The header of a loose object.
#[derive(Clone, Copy)]
pub struct Header {
    pub kind: Kind,
    /// Counts the bytes of the content, as the header says.
    pub size: u64,
    /// Counts the bytes of the header, with the byte 0 at its end.
    pub len: usize,
}

/// Returns whether `text` is `number` as git writes it.
fn is_number(text: &[u8], number: u64) -> bool
    ensures { IsTrue result ↔ (text.now ≡ decimal number) }
{
    text == Buffer::new().format(number).as_bytes()
}

/// Returns the number that `text` is, as git writes it.
fn size(text: &[u8]) -> Option<u64>
    ensures { MatchOption result ((n : ℕ) → n < 2 ^ 64 → text.now ≢ decimal n)
        (λ n. (n < 2 ^ 64) × (text.now ≡ decimal n)) }
{
    let Some(number) = number(text) else {
        return None;
    };
    if is_number(text, number) {
        Some(number)
    } else {
        None
    }
}

/// Returns the kind and the size that `text` is, as a header has them.
fn kind_and_size(text: &[u8]) -> Option<(Kind, u64)>
    ensures { MatchOption result
        ((kind : Kind) → (n : ℕ) → n < 2 ^ 64 → text.now ≢ kind_and_size kind n)
        (λ p. (p.1 < 2 ^ 64) × (text.now ≡ kind_and_size p.0 p.1)) }
{
    let Some(name) = before(text, b' ') else {
        return None;
    };
    let Some(kind) = kind_of_name(name) else {
        return None;
    };
    match size(after(text, b' ')) {
        Some(size) => Some((kind, size)),
        None => None,
    }
}

/// Returns the header at the front of `bytes`, or `None` if they do not begin with a header.
///
/// A header has the name of the kind, a space, the size in decimal digits without needless zeros,
/// and a byte 0 (gitformat-loose). It has at most [`MOST_HEADER`] bytes, so that so many bytes of an
/// object are enough. Sizes of 2^64 and more are refused.
pub fn parse_header(bytes: &[u8]) -> Option<Header>
    // The bytes begin with a header of this kind, size and length. `None` exactly if they begin
    // with no header of a size below 2^64.
    ensures header { MatchOption result
        ((kind : Kind) → (size : ℕ) → (rest : List ℕ) → size < 2 ^ 64
        → ¬ HasHeader bytes.now kind size rest)
        (λ h. IsHeader bytes.now h.kind h.size h.len) }

    // A header has at most 28 bytes.
    ensures short { IfSome result (λ h. h.len ≤ 28) }
{
    let Some(text) = before(bytes, 0) else {
        return None;
    };
    match kind_and_size(text) {
        Some((kind, size)) => Some(Header {
            kind,
            size,
            len: text.len() + 1,
        }),
        None => None,
    }
}

/// Returns the kind and the content of a loose object, from its inflated bytes.
///
/// Returns `None` if `bytes` do not begin with a header ([`parse_header`]), or if the content has
/// another size than the header says.
pub fn parse(bytes: &[u8]) -> Option<(Kind, &[u8])>
    // The bytes are the loose object of this kind and content. `None` exactly if the bytes are no
    // loose object.
    ensures { MatchOption result
        ((kind : Kind) → (content : List ℕ) → ¬ IsLoose bytes.now kind content)
        (λ p. IsLoose bytes.now p.0 p.1.now) }
{
    let Some(header) = parse_header(bytes) else {
        return None;
    };
    let content = after_line(bytes, header.len);
    if content.len() as u64 == header.size {
        Some((header.kind, content))
    } else {
        None
    }
}
