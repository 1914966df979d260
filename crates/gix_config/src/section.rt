//! Reads the header of a section.

ghost use Rattle.std.specs.Prelude.{◌≤◌, length};

use crate::name::{add_lower, is_blank, is_name_byte};
use crate::text::{Bad, Line};
use std::alloc::{AllocError, Allocator};

/// Returns how many bytes at the front of a text are in a section.
fn section_len(text: &[u8]) -> usize
    ensures { result ≤ length text.now }
{
    match text.iter().position(|b| !is_name_byte(*b) && *b != b'.') {
        Some(len) => len,
        None => text.len(),
    }
}

/// Returns what follows blanks of one line.
fn after_blanks(text: &[u8]) -> &[u8] {
    match text.iter().position(|b| !is_blank(*b) || *b == b'\n') {
        Some(len) => text.get(len..).unwrap_or(&[]),
        None => &[],
    }
}

/// Reads a subsection after its first quote, and adds it. Returns what follows the last quote.
fn add_subsection<'a, A: Allocator>(
    text: &'a [u8],
    name: &mut Vec<u8, A>,
) -> Result<Line<'a>, AllocError> {
    let mut rest = text;
    for _ in 0..text.len() {
        match rest {
            [b'"', after @ ..] => return Ok(Ok(after)),
            [] | [b'\n', ..] | [b'\\'] => break,
            [b'\\', b'\n', ..] => {
                rest = rest.get(1..).unwrap_or(rest);
                break;
            }
            [b'\\', byte, after @ ..] | [byte, after @ ..] => {
                name.push(*byte)?;
                rest = after;
            }
        }
    }
    Ok(Err(Bad::at(rest)))
}

/// Returns what follows the last bracket of a header.
fn after_bracket(text: &[u8]) -> Line<'_> {
    match text {
        [b']', after @ ..] => Ok(after),
        [] => Err(Bad::past_end()),
        [_, after @ ..] => Err(Bad::at(after)),
    }
}

/// Reads what follows the section in a header, and adds the subsection.
fn add_rest<'a, A: Allocator>(
    text: &'a [u8],
    name: &mut Vec<u8, A>,
) -> Result<Line<'a>, AllocError> {
    match after_blanks(text) {
        [b'"', after @ ..] => {
            name.push(b'.')?;
            match add_subsection(after, name)? {
                Ok(rest) => Ok(after_bracket(rest)),
                Err(bad) => Ok(Err(bad)),
            }
        }
        rest => Ok(Err(Bad::at(rest))),
    }
}

/// Reads a header after its first bracket. `name` becomes its section and subsection, and a dot.
pub(crate) fn read_header<'a, A: Allocator>(
    text: &'a [u8],
    name: &mut Vec<u8, A>,
) -> Result<Line<'a>, AllocError> {
    let (section, rest) = text.split_at(section_len(text));
    name.clear();
    add_lower(name, section)?;
    let line = match rest {
        [b']', after @ ..] if !section.is_empty() => Ok(after),
        [] => Err(Bad::past_end()),
        [byte, ..] if is_blank(*byte) => add_rest(rest, name)?,
        _ => Err(Bad::at(rest)),
    };
    name.push(b'.')?;
    Ok(line)
}
