//! Reads the header of an entry of a pack (gitformat-pack, "Object types").

ghost use Rattle.std.specs.Prelude.{◌≡◌, ◌+◌, ◌-◌, SomeIff, ◌*◌, ◌/◌, ◌%◌, ◌<◌, ◌≤◌, ℕ, length, take, MatchOption, IfSome};
ghost use Rattle.gix_pack.specs.declared.entry.Body.{Body};
ghost use Rattle.gix_pack.specs.PackNumbers.{HasNumber, number_length, number_bytes, behind_number, high_first};
ghost use Rattle.gix_pack.specs.EntryForm.{low_size, type_of, HasBody, IsHeader};

use crate::numbers;
use gix_base::hash::ObjectId;
use gix_base::object::Kind;

/// How an entry has its object.
#[derive(Clone, Copy)]
pub enum Body {
    /// The entry has the content of an object of this kind.
    Whole(Kind),
    /// The entry has a delta to the object whose entry begins so many bytes before its own.
    OffsetDelta(u64),
    /// The entry has a delta to the object with this id.
    IdDelta(ObjectId),
}

/// The header of an entry. A zlib stream follows it in the pack.
#[derive(Clone, Copy)]
pub struct Entry {
    pub body: Body,
    /// The number of bytes to which the stream inflates, as the header says: the content, or the
    /// delta.
    pub size: u64,
    /// The number of bytes of the header.
    pub len: usize,
}

/// Reads the distance of the base of a delta, and its length in bytes.
fn offset_delta(rest: &[u8]) -> Option<(Body, usize)>
    ensures { MatchOption result ((body : Body) → (n : ℕ) → ¬ HasBody 6 rest.now body n) (λ p. HasBody 6 rest.now p.0 p.1 × (p.1 ≤ length rest.now)) }
{
    let (distance, n) = numbers::distance(rest)?;
    Some((Body::OffsetDelta(distance), n))
}

/// Reads the id of the base of a delta, and its length in bytes.
fn id_delta(rest: &[u8]) -> Option<(Body, usize)>
    ensures { MatchOption result ((body : Body) → (n : ℕ) → ¬ HasBody 7 rest.now body n) (λ p. HasBody 7 rest.now p.0 p.1 × (p.1 ≤ length rest.now)) }
{
    if rest.len() < 20 {
        return None;
    }
    let mut id = [0; 20];
    id.copy_from_slice(&rest[..20]);
    Some((Body::IdDelta(ObjectId(id)), 20))
}

/// Reads the body of an entry of type `kind`, and the number of bytes of `rest` that it uses.
fn read_body(kind: u8, rest: &[u8]) -> Option<(Body, usize)>
    ensures { MatchOption result ((body : Body) → (n : ℕ) → ¬ HasBody kind rest.now body n) (λ p. HasBody kind rest.now p.0 p.1 × (p.1 ≤ length rest.now)) }
{
    match kind {
        1 => Some((Body::Whole(Kind::Commit), 0)),
        2 => Some((Body::Whole(Kind::Tree), 0)),
        3 => Some((Body::Whole(Kind::Blob), 0)),
        4 => Some((Body::Whole(Kind::Tag), 0)),
        6 => offset_delta(rest),
        7 => id_delta(rest),
        _ => None,
    }
}

/// Reads the size that the bytes of type and size say.
fn size(bytes: &[u8]) -> u64
    requires some { 0 < length bytes.now }
    requires few { length bytes.now ≤ 9 }
    ensures { result ≡ low_size bytes.now }
{
    let (_, rest) = bytes.split_at(1);
    u64::from(bytes[0] % 16) + 16 * numbers::low_first(rest)
}

/// Reads the header of the entry at the beginning of `text`, or returns `None` if there is none.
///
/// There is none if the text ends within it, if the type is 0 or 5, or if a number has more than 9
/// bytes. A header has at most 29 bytes; those after it do not matter. See gitformat-pack, "Object
/// types" and "Size encoding".
pub fn header(text: &[u8]) -> Option<Entry>
    // The answer is the header with which the text begins. It is `None` exactly if the text begins
    // with none.
    ensures { MatchOption result ((body : Body) → (size : ℕ) → (len : ℕ) → ¬ IsHeader text.now body size len) (λ h. IsHeader text.now h.body h.size h.len) }
{
    let Some(n) = numbers::number_length(text) else {
        return None;
    };
    let (number, rest) = text.split_at(n);
    match read_body(text[0] / 16 % 8, rest) {
        Some((body, more)) => Some(Entry {
            body,
            size: size(number),
            len: n + more,
        }),
        None => None,
    }
}

/// Returns the offset of a base that begins `distance` bytes before the entry at `offset`.
///
/// Returns `None` if the distance is 0, or if the base would begin at or before the start of the
/// pack.
pub fn base_offset(offset: u64, distance: u64) -> Option<u64>
    // The answer is `offset - distance`. It is `None` exactly if `distance` is 0, or is not less
    // than `offset`.
    ensures { SomeIff result ((0 < distance) × (distance < offset)) (offset - distance) }
{
    if distance == 0 || offset <= distance {
        None
    } else {
        Some(offset - distance)
    }
}
