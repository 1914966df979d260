//! Reads the name of an entry, and says which paths an index may have (gitformat-index, "Index
//! entry").

ghost use Rattle.std.specs.Prelude.{◌≡◌, ◌+◌, ◌-◌, ◌≤◌, length, IfSome};
ghost use Rattle.gix_index.specs.IndexEntry.{plain_rest, plain_length, short_rest, short_length, dropped};
ghost use Rattle.gix_index.specs.IndexPaths.{is_part, is_inside};

use crate::bytes::before_nul;
use gix_pack::numbers::distance;

/// The name of an entry, as the bytes of the entry have it.
#[derive(Clone, Copy)]
pub(crate) struct Name<'t> {
    /// How many bytes of the path of the entry before begin this path, too.
    pub(crate) kept: usize,
    /// The rest of the path.
    pub(crate) rest: &'t [u8],
    /// How many bytes the whole entry has.
    pub(crate) len: usize,
}

/// Reads a name that is whole. The entry is filled up to a multiple of 8 bytes.
pub(crate) fn plain_name(head: usize, bytes: &[u8]) -> Option<Name<'_>>
    requires within { head ≤ length bytes.now }
    requires few { head ≤ 64 }
    ensures kept { IfSome result (λ n. n.kept ≡ 0) }
    ensures rest { IfSome result (λ n. n.rest.now ≡ plain_rest head bytes.now) }
    ensures len { IfSome result (λ n. n.len ≡ plain_length head bytes.now) }
    ensures within { IfSome result (λ n. n.len ≤ length bytes.now) }
{
    let Some(rest) = before_nul(&bytes[head..]) else {
        return None;
    };
    let len = (head + rest.len() + 8) / 8 * 8;
    if len <= bytes.len() {
        Some(Name { kept: 0, rest, len })
    } else {
        None
    }
}

/// Reads a name that says how many bytes to drop from the end of the path before it, of so many
/// bytes, and what comes in their place.
pub(crate) fn short_name(before: usize, head: usize, bytes: &[u8]) -> Option<Name<'_>>
    requires within { head ≤ length bytes.now }
    requires few { head ≤ 64 }
    ensures kept { IfSome result (λ n. n.kept ≡ before - dropped head bytes.now) }
    ensures rest { IfSome result (λ n. n.rest.now ≡ short_rest head bytes.now) }
    ensures len { IfSome result (λ n. n.len ≡ short_length head bytes.now) }
    ensures within { IfSome result (λ n. n.len ≤ length bytes.now) }
{
    let text = &bytes[head..];
    let Some((dropped, digits)) = distance(text) else {
        return None;
    };
    if dropped > before as u64 {
        return None;
    }
    let Some(rest) = before_nul(&text[digits..]) else {
        return None;
    };
    Some(Name {
        kept: before - dropped as usize,
        rest,
        len: head + digits + rest.len() + 1,
    })
}

/// Tests whether a part of a path, between its slashes, may be in an index.
fn is_part(part: &[u8]) -> bool
    ensures { result ≡ is_part part.now }
{
    !part.is_empty()
        && part != b".".as_slice()
        && part != b"..".as_slice()
        && !part.eq_ignore_ascii_case(b".git")
}

/// Tests whether an index may have a path. Such a path leads neither out of the working tree nor into
/// the git folder.
#[tactic(auto, unfolding(crate::specs::IndexPaths::is_inside))]
pub(crate) fn is_inside(path: &[u8]) -> bool
    ensures { result ≡ is_inside path.now }
{
    path.split(|b| *b == b'/').all(is_part)
}
