//! Decides what is a name of a reference (git-check-ref-format, `--allow-onelevel`).

ghost use Rattle.std.specs.Prelude.{◌≡◌};
ghost use Rattle.std.specs.List.{list_all};
ghost use Rattle.gix_ref_text.specs.Lines.{parts};
ghost use Rattle.gix_ref_text.specs.Names.{is_plain, has_pair, is_part, is_name};

use crate::lines::cut;

/// Tests whether a byte may be in a name: no control character, no blank, none of `*:?[\^~`.
fn is_plain(byte: u8) -> bool
    ensures { result ≡ is_plain byte }
{
    32 < byte
        && byte != 127
        && byte != b'*'
        && byte != b':'
        && byte != b'?'
        && byte != b'['
        && byte != b'\\'
        && byte != b'^'
        && byte != b'~'
}

/// Tests whether all bytes may be in a name.
fn are_plain(name: &[u8]) -> bool
    ensures { result ≡ list_all is_plain name.now }
{
    for byte in name {
        if !is_plain(*byte) {
            return false;
        }
    }
    true
}

/// Tests whether two bytes are beside each other somewhere.
fn has_pair(name: &[u8], first: u8, second: u8) -> bool
    ensures { result ≡ has_pair first second 0 name.now }
{
    let mut last = 0u8;
    for byte in name {
        if last == first && *byte == second {
            return true;
        }
        last = *byte;
    }
    false
}

/// Tests whether a part between slashes has a good beginning and end.
fn is_part(part: &[u8]) -> bool
    ensures { result ≡ is_part part.now }
{
    !part.is_empty() && !part.starts_with(b".") && !part.ends_with(b".lock")
}

/// Tests whether all parts between slashes have a good beginning and end.
fn are_parts(name: &[u8]) -> bool
    ensures { result ≡ list_all is_part (parts 47 name.now) }
{
    let mut rest = name;
    for _ in 0..name.len() {
        let (part, after) = cut(rest, b'/');
        if !is_part(part) {
            return false;
        }
        match after {
            Some(after) => rest = after,
            None => return true,
        }
    }
    is_part(rest)
}

/// Tests whether bytes are the name of a reference, which may have one level, such as `HEAD`.
///
/// See git-check-ref-format, `--allow-onelevel`.
pub fn is_full_name(name: &[u8]) -> bool
    // `true` exactly for a name that git-check-ref-format accepts with `--allow-onelevel`
    // (`is_name`).
    ensures { result ≡ is_name name.now }
{
    are_plain(name)
        && !has_pair(name, b'.', b'.')
        && !has_pair(name, b'@', b'{')
        && are_parts(name)
        && !name.ends_with(b".")
        && name != b"@".as_slice()
}
