//! Reads objects, and finds lines of their headers.

use git_session::session::Session;
use git_session::stop::{Stop, not_supported};
use gix_base::hash::ObjectId;
use gix_base::object::Kind;
use gix_odb::Object;
use gix_repository::Refusal;
use std::alloc::{AllocError, Global};

/// Says how much of an object is wanted.
#[derive(Clone, Copy, PartialEq, Eq, PartialOrd, Ord)]
pub enum Extent {
    Header,
    /// The header, and the message up to the first empty line.
    Subject,
    Whole,
}

/// An object that was read.
#[derive(Drop)]
pub struct Read {
    pub id: ObjectId,
    pub kind: Kind,
    /// How many bytes its content has.
    pub size: usize,
    /// The part of the content in which fields are looked for.
    pub content: Vec<u8>,
}

impl Read {
    /// Returns a copy.
    pub fn copied(&self, alloc: Global) -> Result<Read, AllocError> {
        Ok(Read {
            id: self.id,
            kind: self.kind,
            size: self.size,
            content: self.content.to_vec(alloc)?,
        })
    }
}

/// Returns the rest of the first line of the header that begins with a word and a blank.
pub fn line_of<'c>(content: &'c [u8], word: &[u8]) -> Option<&'c [u8]> {
    for line in content.split(|byte| *byte == b'\n') {
        if line.is_empty() {
            break;
        }
        if let Some([b' ', rest @ ..]) = line.strip_prefix(word) {
            return Some(rest);
        }
    }
    None
}

/// Returns what follows the header of an object, without the empty lines before it.
pub fn message(content: &[u8]) -> &[u8] {
    let Some(end) = content.windows(2).position(|two| two == b"\n\n".as_slice()) else {
        return &[];
    };
    let rest = content.get(end..).unwrap_or(&[]);
    let begin = rest.iter().position(|byte| *byte != b'\n');
    match begin {
        Some(begin) => rest.get(begin..).unwrap_or(&[]),
        None => &[],
    }
}

/// Ends if an object is not well formed, or if git reads less of it than there is.
fn ensure_whole(session: &mut Session<'_>, id: ObjectId, object: &Object) -> Result<(), Stop> {
    match object.kind {
        Kind::Commit => session.repository.check(id)?,
        Kind::Tag => {
            let _tag = session.repository.tag(id)?;
        }
        Kind::Tree | Kind::Blob => return Ok(()),
    }
    if object.content.contains(&0) {
        return Err(not_supported(
            session.alloc,
            &[b"a message with a zero byte is not supported"],
        ));
    }
    Ok(())
}

/// Returns the part of a content in which fields are looked for: the header of a commit or a tag,
/// and as much of its message as is wanted.
fn front(object: &Object, extent: Extent) -> &[u8] {
    if !matches!(object.kind, Kind::Commit | Kind::Tag) {
        return &[];
    }
    let content = object.content.as_slice();
    let message = message(content);
    let begin = content.len().saturating_sub(message.len());
    match extent {
        Extent::Header => return content.get(..begin).unwrap_or(content),
        Extent::Subject => {}
        Extent::Whole => return content,
    }
    match message.windows(2).position(|two| two == b"\n\n".as_slice()) {
        Some(end) => content
            .get(..begin.saturating_add(end).saturating_add(2))
            .unwrap_or(content),
        None => content,
    }
}

/// Reads an object, and keeps the part in which fields are looked for; `None` if the object is
/// missing.
///
/// # Errors
///
/// - `NotSupported` if it has a zero byte.
/// - `Refused` if it is damaged, or if a remote has promised it.
pub fn read_object(
    session: &mut Session<'_>,
    id: ObjectId,
    extent: Extent,
) -> Result<Option<Read>, Stop> {
    match session.repository.read_object(id) {
        Ok(object) => {
            ensure_whole(session, id, &object)?;
            Ok(Some(Read {
                id,
                kind: object.kind,
                size: object.content.len(),
                content: front(&object, extent).to_vec(session.alloc)?,
            }))
        }
        Err(Refusal::Object(gix_odb::Error::Missing(_))) if !session.repository.is_partial() => {
            Ok(None)
        }
        Err(refusal) => Err(Stop::from(refusal)),
    }
}
