//! Prints commits by formats.

use crate::format::{Digits, Format, Part};
use crate::messages::{add_subject, body, is_space, whole_message};
use git_fields::dates::date_in;
use git_fields::persons::{What, Who, person_line, person_text};
use git_fields::read::{Extent, Read, line_of, message, read_object};
use git_session::session::Session;
use git_session::stop::{Stop, missing, not_supported};
use gix_base::hash::ObjectId;

/// Ends if a setting says in which encoding messages are printed.
pub fn refuse_encodings(session: &Session<'_>) -> Result<(), Stop> {
    let settings = session.repository.settings();
    for key in [b"logoutputencoding".as_slice(), b"commitencoding"] {
        if settings.value(b"i18n", None, key).is_some() {
            return Err(not_supported(
                session.alloc,
                &[
                    b"the setting i18n.",
                    key,
                    b" is not supported with a format",
                ],
            ));
        }
    }
    Ok(())
}

/// Tells whether all readers of a person's line find the same in it.
fn is_regular(line: &[u8]) -> bool {
    let Some(begin) = line.windows(2).position(|two| two == b" <".as_slice()) else {
        return false;
    };
    let name = line.get(..begin).unwrap_or(&[]);
    let is_one = |mark: u8| line.iter().filter(|byte| **byte == mark).count() == 1;
    let is_padded = line.windows(4).any(|four| {
        four.starts_with(b"> 0") && four.last().is_some_and(|byte| byte.is_ascii_digit())
    });
    is_one(b'<')
        && is_one(b'>')
        && !is_padded
        && name.first().is_some_and(|byte| !is_space(*byte))
        && name.last().is_some_and(|byte| !is_space(*byte))
        && date_in(line).is_some()
}

/// Prints an id with as few digits as are unique, but at least this number; without one, at least
/// that of the setting `core.abbrev`.
pub fn print_few(
    session: &mut Session<'_>,
    least: Option<usize>,
    id: ObjectId,
) -> Result<(), Stop> {
    let least = match least {
        Some(least) => least,
        None => session.repository.least_digits()?,
    };
    let digits = session.repository.unique_digits(id, least)?;
    session.print_digits(id, digits)?;
    Ok(())
}

/// Prints an id with all its digits, or with few.
fn print_id(
    session: &mut Session<'_>,
    least: Option<usize>,
    id: ObjectId,
    digits: Digits,
) -> Result<(), Stop> {
    match digits {
        Digits::All => Ok(session.print_id(id)?),
        Digits::Few => print_few(session, least, id),
    }
}

/// Prints the parents of a commit, with blanks between them.
fn print_parents(
    session: &mut Session<'_>,
    least: Option<usize>,
    id: ObjectId,
    digits: Digits,
) -> Result<(), Stop> {
    let entry = session.repository.entry(id)?;
    for (place, parent) in entry.parents.iter().enumerate() {
        if place > 0 {
            session.print(b" ")?;
        }
        print_id(session, least, *parent, digits)?;
    }
    Ok(())
}

/// Prints a part of the line of a person.
///
/// # Errors
///
/// `NotSupported` if the line is not regular.
fn print_person(session: &mut Session<'_>, read: &Read, who: Who, what: What) -> Result<(), Stop> {
    if !person_line(read, who).is_some_and(is_regular) {
        return Err(not_supported(
            session.alloc,
            &[b"a malformed line of an author or committer is not supported"],
        ));
    }
    let text = person_text(session, read, who, what)?;
    session.print(&text)?;
    Ok(())
}

/// Prints a part of a format.
fn print_part(
    session: &mut Session<'_>,
    least: Option<usize>,
    part: &Part,
    read: &Read,
) -> Result<(), Stop> {
    match part {
        Part::Text(text) => session.print(text)?,
        Part::Id(digits) => print_id(session, least, read.id, *digits)?,
        Part::Tree(digits) => {
            let tree = session.repository.tree(read.id)?;
            print_id(session, least, tree, *digits)?;
        }
        Part::Parents(digits) => print_parents(session, least, read.id, *digits)?,
        Part::Person(who, what) => print_person(session, read, *who, *what)?,
        Part::Subject => {
            add_subject(message(&read.content), &mut session.output)?;
        }
        Part::Body => {
            let text = body(session.alloc, &read.content)?;
            session.print(text)?;
        }
        Part::Message => session.print(whole_message(&read.content))?,
    }
    Ok(())
}

/// Tells whether the header of a commit has more than one line that begins with a word.
fn is_repeated(content: &[u8], word: &[u8]) -> bool {
    let header = content
        .split(|byte| *byte == b'\n')
        .take_while(|line| !line.is_empty());
    header.filter(|line| line.starts_with(word)).count() > 1
}

/// Reads a commit.
///
/// # Errors
///
/// - `NotSupported` if it names an encoding, or two authors or committers.
/// - `Refused` if it is damaged or missing.
fn read_commit(session: &mut Session<'_>, id: ObjectId) -> Result<Read, Stop> {
    let Some(read) = read_object(session, id, Extent::Whole)? else {
        return Err(missing(id));
    };
    if line_of(&read.content, b"encoding").is_some() {
        return Err(not_supported(
            session.alloc,
            &[b"a commit with an encoding is not supported with a format"],
        ));
    }
    if is_repeated(&read.content, b"author ") || is_repeated(&read.content, b"committer ") {
        return Err(not_supported(
            session.alloc,
            &[b"a commit with two authors or committers is not supported"],
        ));
    }
    Ok(read)
}

/// Prints the subject of a commit.
pub fn print_subject(session: &mut Session<'_>, id: ObjectId) -> Result<(), Stop> {
    let read = read_commit(session, id)?;
    add_subject(message(&read.content), &mut session.output)?;
    Ok(())
}

impl Format {
    /// Prints the text of a commit, and ends the line unless the text is empty.
    pub fn print(
        &self,
        session: &mut Session<'_>,
        least: Option<usize>,
        id: ObjectId,
    ) -> Result<(), Stop> {
        let read = read_commit(session, id)?;
        let begin = session.output.len();
        for part in self.parts.iter() {
            print_part(session, least, part, &read)?;
        }
        if session.output.len() > begin {
            session.print(b"\n")?;
        }
        Ok(())
    }
}
