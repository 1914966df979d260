//! Reads the settings of a config file, one after the other.

use crate::name::{add_lower, is_blank, name_len};
use crate::section::read_header;
use crate::value::read_value;
use std::alloc::{AllocError, AllocFailed, Allocator, Global};

/// Is a setting with its name, such as `core.abbrev`. It has no value if there is no `=`.
#[derive(Drop)]
pub struct Entry<A: Allocator = Global> {
    pub name: Vec<u8, A>,
    pub value: Option<Vec<u8, A>>,
}

/// Says why the text of a config file is not read.
#[derive(Clone, Copy)]
pub enum ParseError {
    /// The line with this number is malformed.
    BadLine(u64),
    /// An allocation failed.
    OutOfMemory,
}

impl From<AllocError> for ParseError {
    fn from(_e: AllocError) -> ParseError {
        ParseError::OutOfMemory
    }
}

impl<T: Drop> From<AllocFailed<T>> for ParseError {
    fn from(_e: AllocFailed<T>) -> ParseError {
        ParseError::OutOfMemory
    }
}

/// Is the place of a malformed line: what follows it, and whether git has read past the end.
#[derive(Clone, Copy)]
pub(crate) struct Bad<'a> {
    rest: &'a [u8],
    past_end: bool,
}

/// Is what follows a part of a config file, or the place where it is malformed.
pub(crate) type Line<'a> = Result<&'a [u8], Bad<'a>>;

impl<'a> Bad<'a> {
    /// Returns the place before this rest of the text.
    pub(crate) fn at(rest: &'a [u8]) -> Bad<'a> {
        Bad {
            rest,
            past_end: false,
        }
    }

    /// Returns the place past the end of the text.
    pub(crate) fn past_end() -> Bad<'a> {
        Bad {
            rest: &[],
            past_end: true,
        }
    }

    /// Returns the number of the line in a text, counted from 1.
    fn line(&self, text: &[u8]) -> u64 {
        let read = text.len().saturating_sub(self.rest.len());
        let before = text.get(..read).unwrap_or(text);
        let mut line = if self.past_end { 2u64 } else { 1u64 };
        for byte in before {
            if *byte == b'\n' {
                line = line.saturating_add(1);
            }
        }
        line
    }
}

/// Returns a text without each carriage return before a line feed.
fn unix_lines<A: Allocator>(alloc: A, text: &[u8]) -> Result<Vec<u8, A>, AllocError> {
    let mut lines = Vec::new(alloc);
    let mut rest = text;
    for _ in 0..text.len() {
        match rest {
            [] => break,
            [b'\r', b'\n', ..] => rest = rest.get(1..).unwrap_or(&[]),
            [byte, after @ ..] => {
                lines.push(*byte)?;
                rest = after;
            }
        }
    }
    Ok(lines)
}

/// Returns what follows blanks and comments.
fn after_comments(text: &[u8]) -> &[u8] {
    let mut rest = text;
    let mut is_comment = false;
    for _ in 0..text.len() {
        match rest.split_first() {
            Some((b'\n', after)) => {
                is_comment = false;
                rest = after;
            }
            Some((byte, after)) if is_comment || is_blank(*byte) => rest = after,
            Some((b'#' | b';', after)) => {
                is_comment = true;
                rest = after;
            }
            _ => break,
        }
    }
    rest
}

/// Returns what follows spaces and tabs.
fn after_spaces(text: &[u8]) -> &[u8] {
    match text.iter().position(|b| *b != b' ' && *b != b'\t') {
        Some(len) => text.get(len..).unwrap_or(&[]),
        None => &[],
    }
}

/// Returns the bytes before the first zero byte, as C reads a text.
pub fn before_zero(text: &[u8]) -> &[u8] {
    match text.iter().position(|b| *b == 0) {
        Some(at) => text.get(..at).unwrap_or(text),
        None => text,
    }
}

/// Returns the setting with a name and a value, which end before a zero byte.
fn make_entry<A: Allocator + Copy>(
    alloc: A,
    section: &[u8],
    key: &[u8],
    value: Option<&[u8]>,
) -> Result<Entry<A>, AllocError> {
    let mut name = section.to_vec(alloc)?;
    add_lower(&mut name, key)?;
    let name = before_zero(&name).to_vec(alloc)?;
    let value = match value {
        Some(value) => Some(before_zero(value).to_vec(alloc)?),
        None => None,
    };
    Ok(Entry { name, value })
}

/// Reads a setting, and adds it. Returns what follows it.
fn add_entry<'a, A: Allocator + Copy>(
    alloc: A,
    text: &'a [u8],
    section: &[u8],
    list: &mut Vec<Entry<A>, A>,
) -> Result<Line<'a>, AllocError> {
    let (key, rest) = text.split_at(name_len(text));
    match after_spaces(rest) {
        [b'=', after @ ..] => {
            let mut value = Vec::new(alloc);
            let line = read_value(after, &mut value)?;
            if line.is_ok() {
                list.push(make_entry(alloc, section, key, Some(&value))?)?;
            }
            Ok(line)
        }
        [] => {
            list.push(make_entry(alloc, section, key, None)?)?;
            Ok(Ok(&[]))
        }
        [b'\n', after @ ..] => {
            list.push(make_entry(alloc, section, key, None)?)?;
            Ok(Ok(after))
        }
        rest => Ok(Err(Bad::at(rest))),
    }
}

/// Reads a header or a setting. Returns what follows it.
fn read_item<'a, A: Allocator + Copy>(
    alloc: A,
    text: &'a [u8],
    section: &mut Vec<u8, A>,
    list: &mut Vec<Entry<A>, A>,
) -> Result<Line<'a>, AllocError> {
    match text {
        [b'[', after @ ..] => read_header(after, section),
        [byte, ..] if byte.is_ascii_alphabetic() => add_entry(alloc, text, section, list),
        _ => Ok(Err(Bad::at(text))),
    }
}

/// Reads all settings of a text, and adds them. Returns the place of a malformed line.
fn add_entries<'a, A: Allocator + Copy>(
    alloc: A,
    text: &'a [u8],
    list: &mut Vec<Entry<A>, A>,
) -> Result<Line<'a>, AllocError> {
    let mut section = Vec::new(alloc);
    let mut rest = after_comments(text);
    for _ in 0..text.len() {
        if rest.is_empty() {
            break;
        }
        match read_item(alloc, rest, &mut section, list)? {
            Ok(after) => rest = after_comments(after),
            Err(bad) => return Ok(Err(bad)),
        }
    }
    Ok(Ok(rest))
}

/// Returns the settings of a config file, in their order.
///
/// A byte order mark at the beginning is passed over.
///
/// # Errors
///
/// - `BadLine` if git refuses the file, with the number that git reports.
/// - `OutOfMemory` if an allocation failed.
pub fn entries<A: Allocator + Copy>(alloc: A, text: &[u8]) -> Result<Vec<Entry<A>, A>, ParseError> {
    let text = unix_lines(alloc, text)?;
    let body = text.strip_prefix(b"\xef\xbb\xbf").unwrap_or(&text);
    let mut list = Vec::new(alloc);
    match add_entries(alloc, body, &mut list)? {
        Ok(_) => Ok(list),
        Err(bad) => Err(ParseError::BadLine(bad.line(body))),
    }
}
