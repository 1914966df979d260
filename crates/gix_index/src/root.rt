//! Reads the tree of the whole index from the cached trees (gitformat-index, "Cache tree").

use crate::bytes::split;
use gix_base::hash::ObjectId;

/// Returns the number that decimal digits say; `None` if they say none that fits 32 bits.
fn number(digits: &[u8]) -> Option<u32> {
    if digits.is_empty() || digits.len() > 10 {
        return None;
    }
    let mut value = 0u64;
    for digit in digits {
        if !digit.is_ascii_digit() {
            return None;
        }
        value = value
            .saturating_mul(10)
            .saturating_add(u64::from(*digit - b'0'));
    }
    u32::try_from(value).ok()
}

/// Returns the tree of an index with so many entries, from the extension `TREE`; `None` if the
/// index has changed since its tree was noted.
pub(crate) fn root(data: &[u8], count: u32) -> Option<ObjectId> {
    let (path, rest) = split(data, 0)?;
    let (covered, rest) = split(rest, b' ')?;
    let (_, rest) = split(rest, b'\n')?;
    if !path.is_empty() || number(covered)? != count {
        return None;
    }
    let mut id = [0u8; 20];
    id.copy_from_slice(rest.get(..20)?);
    Some(ObjectId(id))
}
