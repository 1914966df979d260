//! Reads the paths in `info/alternates` (gitrepository-layout, "objects/info/alternates").
//!
//! A path in quotes has the escapes of C, as git writes pathnames (git-config, `core.quotePath`).

ghost use Rattle.std.specs.Prelude.{◌<◌, IfSome};

use std::alloc::{AllocError, Allocator};

/// Returns the byte that a letter, a quote or a backslash after a backslash stands for.
fn named(byte: u8) -> Option<u8> {
    match byte {
        b'a' => Some(7),
        b'b' => Some(8),
        b't' => Some(9),
        b'n' => Some(10),
        b'v' => Some(11),
        b'f' => Some(12),
        b'r' => Some(13),
        b'"' | b'\\' => Some(byte),
        _ => None,
    }
}

/// Returns the value of an octal digit.
fn octal(byte: u8) -> Option<u8>
    ensures { IfSome result (λ n. n < 8) }
{
    if b'0' <= byte && byte < b'8' {
        Some(byte - b'0')
    } else {
        None
    }
}

/// Returns the byte that three octal digits say, if it is less than 256.
fn octal_byte(text: &[u8]) -> Option<(u8, &[u8])> {
    let [high, middle, low, rest @ ..] = text else {
        return None;
    };
    let high = octal(*high)?;
    let middle = octal(*middle)?;
    let low = octal(*low)?;
    if high < 4 {
        Some((64 * high + 8 * middle + low, rest))
    } else {
        None
    }
}

/// Returns the byte that the escape after a backslash says, and what follows the escape.
fn escaped(text: &[u8]) -> Option<(u8, &[u8])> {
    let [first, rest @ ..] = text else {
        return None;
    };
    match named(*first) {
        Some(byte) => Some((byte, rest)),
        None => octal_byte(text),
    }
}

/// Reads a path in quotes, from after its first quote on. Returns it with what follows the last
/// quote; `None` if it does not end, or has a malformed escape.
fn unquoted<A: Allocator + Copy>(
    alloc: A,
    text: &[u8],
) -> Result<Option<(Vec<u8, A>, &[u8])>, AllocError> {
    let mut path = Vec::new(alloc);
    let mut rest = text;
    for _ in 0..text.len() {
        let [byte, after @ ..] = rest else {
            break;
        };
        if *byte == b'"' {
            return Ok(Some((path, after)));
        }
        let next = if *byte == b'\\' {
            escaped(after)
        } else {
            Some((*byte, after))
        };
        let Some((byte, after)) = next else {
            break;
        };
        path.push(byte)?;
        rest = after;
    }
    Ok(None)
}

/// Returns the bytes before the first line feed, and those after it.
fn line(text: &[u8]) -> (&[u8], &[u8]) {
    let len = text.iter().position(|b| *b == b'\n').unwrap_or(text.len());
    let (line, rest) = text.split_at(len.min(text.len()));
    (line, rest.get(1..).unwrap_or(&[]))
}

/// Returns the path at the front of a text, and what follows it. A comment is an empty path.
///
/// Git leaves out one byte after a quoted path, whatever it is. If the quotes are malformed, the
/// line is the path as it stands.
pub(crate) fn next_path<A: Allocator + Copy>(
    alloc: A,
    text: &[u8],
) -> Result<(Vec<u8, A>, &[u8]), AllocError> {
    if let [b'"', quoted @ ..] = text {
        if let Some((path, rest)) = unquoted(alloc, quoted)? {
            return Ok((path, rest.get(1..).unwrap_or(&[])));
        }
    }
    let (line, rest) = line(text);
    if line.starts_with(b"#") {
        Ok((Vec::new(alloc), rest))
    } else {
        Ok((line.to_vec(alloc)?, rest))
    }
}
