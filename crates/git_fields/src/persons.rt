//! Reads the lines of authors, committers and taggers.

use crate::dates::{Date, Style, date_in, date_text, style_of};
use crate::read::{Read, line_of};
use git_session::session::Session;
use git_session::stop::{Stop, not_supported};
use gix_base::object::Kind;
use std::alloc::Global;

/// Names a person of a commit or of a tag.
#[derive(Clone, Copy, PartialEq, Eq)]
pub enum Who {
    Author,
    Committer,
    Tagger,
    /// The tagger of a tag, and the committer of a commit.
    Creator,
}

/// Names a part of the line of a person.
#[derive(Clone, Copy)]
pub enum What {
    /// All of it.
    Line,
    Name,
    /// The address in its angle brackets.
    Email,
    /// The address alone.
    Address,
    /// The address up to its `@`.
    LocalPart,
    Date(Style),
}

/// Returns the part of a line that the end of a field's name means.
pub fn what_of(rest: &[u8]) -> Option<What> {
    if rest.is_empty() {
        return Some(What::Line);
    }
    if rest == b"name".as_slice() {
        return Some(What::Name);
    }
    if rest == b"email".as_slice() {
        return Some(What::Email);
    }
    if rest == b"email:trim".as_slice() {
        return Some(What::Address);
    }
    if rest == b"email:localpart".as_slice() {
        return Some(What::LocalPart);
    }
    if rest == b"date".as_slice() {
        return Some(What::Date(Style::Usual));
    }
    match style_of(rest.strip_prefix(b"date:")?) {
        Some(style) => Some(What::Date(style)),
        None => None,
    }
}

/// Returns the line of a person; `None` if the object has none.
pub fn person_line(read: &Read, who: Who) -> Option<&[u8]> {
    let word = match (read.kind, who) {
        (Kind::Commit, Who::Author) => b"author".as_slice(),
        (Kind::Commit, Who::Committer | Who::Creator) => b"committer",
        (Kind::Tag, Who::Tagger | Who::Creator) => b"tagger",
        _ => return None,
    };
    line_of(&read.content, word)
}

/// Returns the end for a line of a person that is malformed.
fn malformed(alloc: Global) -> Stop {
    not_supported(
        alloc,
        &[b"a malformed line of an author, committer or tagger is not supported"],
    )
}

/// Returns the date of a person; `None` if the object has no line of the person.
pub fn date_of(alloc: Global, read: &Read, who: Who) -> Result<Option<Date>, Stop> {
    let Some(line) = person_line(read, who) else {
        return Ok(None);
    };
    match date_in(line) {
        Some(date) => Ok(Some(date)),
        None => Err(malformed(alloc)),
    }
}

/// Returns the name in a line of a person: what is before ` <`.
fn name_in(line: &[u8]) -> &[u8] {
    match line.windows(2).position(|two| two == b" <".as_slice()) {
        Some(end) => line.get(..end).unwrap_or(&[]),
        None => &[],
    }
}

/// Returns the address in a line of a person, without its angle brackets.
fn address_in(line: &[u8]) -> Option<&[u8]> {
    let begin = line.iter().position(|byte| *byte == b'<')?;
    let rest = line.get(begin.checked_add(1)?..)?;
    rest.get(..rest.iter().position(|byte| *byte == b'>')?)
}

/// Returns an address up to its `@`.
fn local_part(address: &[u8]) -> Option<&[u8]> {
    address.get(..address.iter().position(|byte| *byte == b'@')?)
}

/// Returns the address in a line of a person, or the part of it that is asked for.
fn email(alloc: Global, line: &[u8], what: What) -> Result<Vec<u8>, Stop> {
    let Some(address) = address_in(line) else {
        return Err(malformed(alloc));
    };
    let mut text = Vec::new(alloc);
    match what {
        What::Address => text.extend_from_slice(address)?,
        What::LocalPart => match local_part(address) {
            Some(part) => text.extend_from_slice(part)?,
            None => return Err(malformed(alloc)),
        },
        _ => {
            text.push(b'<')?;
            text.extend_from_slice(address)?;
            text.push(b'>')?;
        }
    }
    Ok(text)
}

/// Returns a part of the line of a person; an empty text if the object has none.
///
/// # Errors
///
/// `NotSupported` if the line is empty, or its part is malformed: git then reads the lines behind it.
pub fn person_text(
    session: &Session<'_>,
    read: &Read,
    who: Who,
    what: What,
) -> Result<Vec<u8>, Stop> {
    let alloc = session.alloc;
    let Some(line) = person_line(read, who) else {
        return Ok(Vec::new(alloc));
    };
    if line.is_empty() {
        return Err(malformed(alloc));
    }
    match what {
        What::Line => Ok(line.to_vec(alloc)?),
        What::Name => Ok(name_in(line).to_vec(alloc)?),
        What::Email | What::Address | What::LocalPart => email(alloc, line, what),
        What::Date(style) => match date_of(alloc, read, who)? {
            Some(date) => date_text(session, style, date),
            None => Ok(Vec::new(alloc)),
        },
    }
}
