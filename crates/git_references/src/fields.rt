//! Names the fields of objects (git-for-each-ref, "FIELD NAMES").
//!
//! A field that an object does not have is empty.

use crate::messages::{divided, joined_lines, refuse_signature, rest_of, without_ends};
use git_fields::persons::{What, Who, person_text, what_of};
use git_fields::read::{Extent, Read, line_of, message};
use git_session::session::Session;
use git_session::stop::Stop;
use gix_base::hash::ObjectId;
use gix_base::object::Kind;
use gix_repository::kind_name;
use std::alloc::{AllocError, Global};
use std::io::Write;

/// Names a field of an object.
#[derive(Clone, Copy)]
pub(crate) enum Field {
    Id,
    Kind,
    /// How many bytes the content has.
    Size,
    /// The lines of the message up to the first empty one, as one line.
    Subject,
    /// The message behind the subject. Its end may be a signature.
    Rest,
    /// The message behind the subject, without a signature.
    Body,
    /// The message.
    Message,
    /// How many bytes the message has.
    MessageSize,
    /// The rest of the first line of the header of commits or tags that begins with a word.
    Line(Kind, &'static str),
    Person(Who, What),
}

impl Field {
    /// Returns how much of an object has the field.
    pub(crate) fn extent(self) -> Extent {
        match self {
            Field::Subject => Extent::Subject,
            Field::Rest | Field::Body | Field::Message | Field::MessageSize => Extent::Whole,
            _ => Extent::Header,
        }
    }
}

/// Returns the field about a person with this name.
fn person(name: &[u8]) -> Option<Field> {
    for (word, who) in [
        (b"author".as_slice(), Who::Author),
        (b"committer", Who::Committer),
        (b"tagger", Who::Tagger),
        (b"creator", Who::Creator),
    ] {
        let Some(rest) = name.strip_prefix(word) else {
            continue;
        };
        let what = what_of(rest)?;
        let is_whole = matches!(what, What::Line | What::Date(_));
        if who != Who::Creator || is_whole {
            return Some(Field::Person(who, what));
        }
    }
    None
}

/// Returns the field with this name; `None` if it is not supported.
pub(crate) fn field_of(name: &[u8]) -> Option<Field> {
    for (word, field) in [
        (b"objectname".as_slice(), Field::Id),
        (b"objecttype", Field::Kind),
        (b"objectsize", Field::Size),
        (b"subject", Field::Subject),
        (b"contents:subject", Field::Subject),
        (b"body", Field::Rest),
        (b"contents:body", Field::Body),
        (b"contents", Field::Message),
        (b"contents:size", Field::MessageSize),
        (b"tree", Field::Line(Kind::Commit, "tree")),
        (b"tag", Field::Line(Kind::Tag, "tag")),
        (b"type", Field::Line(Kind::Tag, "type")),
        (b"object", Field::Line(Kind::Tag, "object")),
    ] {
        if name == word {
            return Some(field);
        }
    }
    person(name)
}

/// Returns a field of a message.
///
/// # Errors
///
/// `NotSupported` if the field depends on where a signature begins.
fn message_text(alloc: Global, message: &[u8], field: Field) -> Result<Vec<u8>, Stop> {
    if matches!(field, Field::Message) {
        return Ok(message.to_vec(alloc)?);
    }
    let (subject, _) = divided(message);
    refuse_signature(alloc, subject)?;
    match field {
        Field::Subject => Ok(joined_lines(alloc, without_ends(subject))?),
        Field::Body => {
            refuse_signature(alloc, message)?;
            Ok(rest_of(message).to_vec(alloc)?)
        }
        _ => Ok(rest_of(message).to_vec(alloc)?),
    }
}

/// Returns the text of a number.
fn number_text(alloc: Global, number: usize) -> Result<Vec<u8>, Stop> {
    let mut text = Vec::new(alloc);
    match write!(text, "{number}") {
        Ok(()) => Ok(text),
        Err(_) => Err(Stop::OutOfMemory),
    }
}

/// Returns the digits of an id.
fn id_text(alloc: Global, id: ObjectId) -> Result<Vec<u8>, AllocError> {
    let mut digits = [0u8; 40];
    let written = id.write_hex(40, &mut digits);
    digits[..written].to_vec(alloc)
}

/// Returns the text of a line of the header; that of an id has small letters.
fn line_text(alloc: Global, read: &Read, word: &str) -> Result<Vec<u8>, Stop> {
    let line = line_of(&read.content, word.as_bytes()).unwrap_or(&[]);
    let is_id = word.as_bytes() == b"tree".as_slice() || word.as_bytes() == b"object".as_slice();
    match ObjectId::from_hex(line) {
        Ok(id) if is_id => Ok(id_text(alloc, id)?),
        _ => Ok(line.to_vec(alloc)?),
    }
}

/// Returns the text of a field.
///
/// # Errors
///
/// - `NotSupported` if a line of the object is malformed, or if the field depends on where a
///   signature begins.
/// - `Refused` if the object is damaged.
pub(crate) fn field_text(
    session: &Session<'_>,
    read: &Read,
    field: Field,
) -> Result<Vec<u8>, Stop> {
    let alloc = session.alloc;
    let has_message = matches!(read.kind, Kind::Commit | Kind::Tag);
    match field {
        Field::Id => Ok(id_text(alloc, read.id)?),
        Field::Kind => Ok(kind_name(read.kind).to_vec(alloc)?),
        Field::Size => number_text(alloc, read.size),
        Field::Line(kind, _) if read.kind != kind => Ok(Vec::new(alloc)),
        Field::Line(_, word) => line_text(alloc, read, word),
        Field::Person(who, what) => person_text(session, read, who, what),
        Field::MessageSize if has_message => number_text(alloc, message(&read.content).len()),
        field if has_message => message_text(alloc, message(&read.content), field),
        _ => Ok(Vec::new(alloc)),
    }
}
