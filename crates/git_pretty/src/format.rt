//! Reads formats (git-rev-list, "PRETTY FORMATS").

use git_fields::dates::Style;
use git_fields::persons::{What, Who};
use git_session::stop::{Stop, not_supported};
use std::alloc::{AllocError, Global};

/// Says how an id is printed.
#[derive(Clone, Copy, PartialEq, Eq)]
pub(crate) enum Digits {
    All,
    /// As few as are unique.
    Few,
}

/// A part of a format.
#[derive(Drop)]
pub(crate) enum Part {
    /// A text that stands for itself.
    Text(Vec<u8>),
    Id(Digits),
    Tree(Digits),
    Parents(Digits),
    Person(Who, What),
    Subject,
    /// The message behind the subject.
    Body,
    /// The message, with the empty lines before it.
    Message,
}

/// Says what is printed of a commit besides its id.
#[derive(Drop)]
pub enum Pretty {
    Nothing,
    /// The subject, on the line of the id.
    Oneline,
    /// A text by a format, below a line with the id.
    Format(Format),
}

/// A format.
#[derive(Drop)]
pub struct Format {
    pub(crate) parts: Vec<Part>,
}

/// Returns the part of a person's line that a letter means.
fn what_of(letter: u8) -> Option<What> {
    match letter {
        b'n' => Some(What::Name),
        b'e' => Some(What::Address),
        b'l' => Some(What::LocalPart),
        b't' => Some(What::Date(Style::Unix)),
        b'i' => Some(What::Date(Style::Iso)),
        b'I' => Some(What::Date(Style::IsoStrict)),
        b'D' => Some(What::Date(Style::Rfc)),
        b'r' => Some(What::Date(Style::Relative)),
        b's' => Some(What::Date(Style::Short)),
        b'd' => Some(What::Date(Style::Usual)),
        _ => None,
    }
}

/// Returns the part that a letter means.
fn letter_part(letter: u8) -> Option<Part> {
    match letter {
        b'H' => Some(Part::Id(Digits::All)),
        b'h' => Some(Part::Id(Digits::Few)),
        b'T' => Some(Part::Tree(Digits::All)),
        b't' => Some(Part::Tree(Digits::Few)),
        b'P' => Some(Part::Parents(Digits::All)),
        b'p' => Some(Part::Parents(Digits::Few)),
        b's' => Some(Part::Subject),
        b'b' => Some(Part::Body),
        b'B' => Some(Part::Message),
        _ => None,
    }
}

/// Returns the byte that a letter behind `%` stands for, or two hex digits behind `%x`, and what
/// follows.
fn byte_part(text: &[u8]) -> Option<(u8, &[u8])> {
    match text {
        [b'%', rest @ ..] => Some((b'%', rest)),
        [b'n', rest @ ..] => Some((b'\n', rest)),
        [b'x', high, low, rest @ ..] => {
            let high = char::from(*high).to_digit(16)?;
            let low = char::from(*low).to_digit(16)?;
            Some((u8::try_from(high * 16 + low).ok()?, rest))
        }
        _ => None,
    }
}

/// Returns the part that begins behind a `%`, and what follows.
fn part_of(text: &[u8]) -> Option<(Part, &[u8])> {
    match text {
        [b'a', letter, rest @ ..] => Some((Part::Person(Who::Author, what_of(*letter)?), rest)),
        [b'c', letter, rest @ ..] => {
            Some((Part::Person(Who::Committer, what_of(*letter)?), rest))
        }
        [letter, rest @ ..] => Some((letter_part(*letter)?, rest)),
        [] => None,
    }
}

/// Adds a byte to the text at the end of a format.
fn add_byte(alloc: Global, parts: &mut Vec<Part>, byte: u8) -> Result<(), AllocError> {
    if let Some(Part::Text(text)) = parts.last_mut() {
        text.push(byte)?;
        return Ok(());
    }
    let mut text = Vec::new(alloc);
    text.push(byte)?;
    parts.push(Part::Text(text))?;
    Ok(())
}

/// Adds what a format begins with. Returns what follows; `None` if it is not supported.
fn add_part<'t>(
    alloc: Global,
    parts: &mut Vec<Part>,
    text: &'t [u8],
) -> Result<Option<&'t [u8]>, AllocError> {
    let Some((first, behind)) = text.split_first() else {
        return Ok(None);
    };
    if *first != b'%' {
        add_byte(alloc, parts, *first)?;
        return Ok(Some(behind));
    }
    if let Some((byte, rest)) = byte_part(behind) {
        add_byte(alloc, parts, byte)?;
        return Ok(Some(rest));
    }
    match part_of(behind) {
        Some((part, rest)) => {
            parts.push(part)?;
            Ok(Some(rest))
        }
        None => Ok(None),
    }
}

/// Returns the end for a format that is not supported.
fn unsupported(alloc: Global, text: &[u8]) -> Stop {
    not_supported(alloc, &[b"the format '", text, b"' is not supported"])
}

/// Reads a format.
fn read_format(alloc: Global, text: &[u8]) -> Result<Format, Stop> {
    let mut parts = Vec::new(alloc);
    let mut rest = text;
    for _ in 0..text.len() {
        if rest.is_empty() {
            break;
        }
        match add_part(alloc, &mut parts, rest)? {
            Some(behind) => rest = behind,
            None => return Err(unsupported(alloc, text)),
        }
    }
    Ok(Format { parts })
}

/// Reads the value of `--pretty` or `--format`.
///
/// # Errors
///
/// `NotSupported` for a format with another name than `oneline`, and for one with other parts.
pub fn read_pretty(alloc: Global, text: &[u8]) -> Result<Pretty, Stop> {
    if text == b"oneline".as_slice() {
        return Ok(Pretty::Oneline);
    }
    let named = match text.strip_prefix(b"format:") {
        Some(format) => Some(format),
        None => text.strip_prefix(b"tformat:"),
    };
    match named {
        Some(format) => Ok(Pretty::Format(read_format(alloc, format)?)),
        None if text.is_empty() || text.contains(&b'%') => {
            Ok(Pretty::Format(read_format(alloc, text)?))
        }
        None => Err(unsupported(alloc, text)),
    }
}
