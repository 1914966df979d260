//! Reads the value of a setting.

use crate::name::is_blank;
use crate::text::{Bad, Line};
use std::alloc::{AllocError, Allocator};

/// Is what a value has next, and what follows it.
enum Piece<'a> {
    /// The value ends.
    End(&'a [u8]),
    /// A blank outside of quotes.
    Blank(&'a [u8]),
    /// A byte of the value.
    Byte(u8, &'a [u8]),
    /// A quote.
    Quote(&'a [u8]),
    /// The value continues on the next line.
    Continued(&'a [u8]),
    /// The line is malformed.
    Malformed(&'a [u8]),
    /// The text ends after a backslash in quotes.
    CutOff,
}

/// Returns what follows the first line feed.
fn after_line(text: &[u8]) -> &[u8] {
    match text.iter().position(|b| *b == b'\n') {
        Some(len) => text.get(len.saturating_add(1)..).unwrap_or(&[]),
        None => &[],
    }
}

/// Returns the piece that a backslash begins.
fn escaped(text: &[u8]) -> Piece<'_> {
    match text {
        [] => Piece::Continued(text),
        [b'\n', after @ ..] => Piece::Continued(after),
        [b't', after @ ..] => Piece::Byte(b'\t', after),
        [b'b', after @ ..] => Piece::Byte(8, after),
        [b'n', after @ ..] => Piece::Byte(b'\n', after),
        [byte, after @ ..] if *byte == b'\\' || *byte == b'"' => Piece::Byte(*byte, after),
        [_, after @ ..] => Piece::Malformed(after),
    }
}

/// Returns the next piece of a value outside of quotes.
fn plain_piece(text: &[u8]) -> Piece<'_> {
    match text {
        [] => Piece::End(text),
        [b'\n', after @ ..] => Piece::End(after),
        [b';' | b'#', after @ ..] => Piece::End(after_line(after)),
        [b'\\', after @ ..] => escaped(after),
        [b'"', after @ ..] => Piece::Quote(after),
        [byte, after @ ..] if is_blank(*byte) => Piece::Blank(after),
        [byte, after @ ..] => Piece::Byte(*byte, after),
    }
}

/// Returns the next piece of a value in quotes.
fn quoted_piece(text: &[u8]) -> Piece<'_> {
    match text {
        [b'\\'] => Piece::CutOff,
        [] | [b'\n', ..] => Piece::Malformed(text),
        [b'\\', after @ ..] => escaped(after),
        [b'"', after @ ..] => Piece::Quote(after),
        [byte, after @ ..] => Piece::Byte(*byte, after),
    }
}

/// Adds spaces.
fn add_spaces<A: Allocator>(value: &mut Vec<u8, A>, count: usize) -> Result<(), AllocError> {
    for _ in 0..count {
        value.push(b' ')?;
    }
    Ok(())
}

/// Reads a value after its sign, and adds it to `value`. Returns what follows its last line.
///
/// Blanks around the value are left out, and a blank in it becomes a space.
pub(crate) fn read_value<'a, A: Allocator>(
    text: &'a [u8],
    value: &mut Vec<u8, A>,
) -> Result<Line<'a>, AllocError> {
    let mut rest = text;
    let mut quoted = false;
    let mut spaces = 0usize;
    for _ in 0..=text.len() {
        let piece = if quoted {
            quoted_piece(rest)
        } else {
            plain_piece(rest)
        };
        rest = match piece {
            Piece::End(after) => return Ok(Ok(after)),
            Piece::Malformed(after) => return Ok(Err(Bad::at(after))),
            Piece::CutOff => return Ok(Err(Bad::past_end())),
            Piece::Blank(after) => {
                if !value.is_empty() {
                    spaces = spaces.saturating_add(1);
                }
                after
            }
            Piece::Byte(byte, after) => {
                add_spaces(value, spaces)?;
                spaces = 0;
                value.push(byte)?;
                after
            }
            Piece::Quote(after) => {
                add_spaces(value, spaces)?;
                spaces = 0;
                quoted = !quoted;
                after
            }
            Piece::Continued(after) => {
                add_spaces(value, spaces)?;
                spaces = 0;
                after
            }
        };
    }
    Ok(Err(Bad::at(rest)))
}
