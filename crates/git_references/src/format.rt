//! Reads formats (git-for-each-ref, "FIELD NAMES").

use crate::blocks::{Mark, mark_of};
use crate::fields::{Field, field_of};
use crate::names::{Form, form_of};
use crate::siblings::{Shown, sibling_of};
use git_session::commits::commit_of;
use git_session::integer::integer;
use git_session::session::Session;
use git_session::stop::{Stop, fatal, not_supported};
use gix_base::hash::ObjectId;
use gix_repository::Refusal;
use gix_spec::spec::parse::delegate::SiblingBranch;
use std::alloc::{AllocError, Global};

/// A part of a format.
#[derive(Drop)]
pub(crate) enum Part {
    /// A text that stands for itself.
    Text(Vec<u8>),
    /// The name.
    Name(Form),
    /// The name of the reference to which a symbolic one leads; nothing for another.
    Symref(Form),
    /// The branch that belongs to a branch.
    Sibling(SiblingBranch, Shown),
    /// The id.
    Id,
    /// The abbreviated id, with this many digits at least, or as many as the setting says.
    ShortId(Option<usize>),
    /// The kind of the object.
    Type,
    /// A star for the current branch, of which this is the full name, and a blank for all others.
    Head(Option<Vec<u8>>),
    /// What the object says.
    Own(Field),
    /// What the object says that is tagged.
    Target(Field),
    /// How many commits only the reference reaches, and how many only this commit reaches.
    AheadBehind(ObjectId),
    /// Begins a block, divides it, or ends it.
    Mark(Mark),
}

/// Returns the place of the next field: of the next `%(`, unless a `%` before it quotes the `%`.
fn next_field(text: &[u8]) -> Option<usize> {
    let mut is_quoted = false;
    for (at, two) in text.windows(2).enumerate() {
        if is_quoted {
            is_quoted = false;
        } else if two == b"%(".as_slice() {
            return Some(at);
        } else {
            is_quoted = two == b"%%".as_slice();
        }
    }
    None
}

/// Returns the byte that two hex digits name.
fn byte_of(high: u8, low: u8) -> Option<u8> {
    let high = char::from(high).to_digit(16)?;
    let low = char::from(low).to_digit(16)?;
    u8::try_from(high.checked_mul(16)?.checked_add(low)?).ok()
}

/// Returns the first byte for which a text stands, and what follows it.
fn first_byte(text: &[u8]) -> Option<(u8, &[u8])> {
    match text {
        [] => None,
        [b'%', b'%', rest @ ..] => Some((b'%', rest)),
        [b'%', high, low, rest @ ..] => match byte_of(*high, *low) {
            Some(byte) => Some((byte, rest)),
            None => Some((b'%', text.get(1..).unwrap_or(&[]))),
        },
        [byte, rest @ ..] => Some((*byte, rest)),
    }
}

/// Returns the bytes for which a text stands: `%%` for `%`, and `%xx` for the byte of hex digits.
fn unquoted(alloc: Global, text: &[u8]) -> Result<Vec<u8>, AllocError> {
    let mut bytes = Vec::new(alloc);
    let mut rest = text;
    for _ in 0..text.len() {
        let Some((byte, after)) = first_byte(rest) else {
            break;
        };
        bytes.push(byte)?;
        rest = after;
    }
    Ok(bytes)
}

/// Adds a text, unless it is empty.
fn add_text(alloc: Global, text: &[u8], parts: &mut Vec<Part>) -> Result<(), AllocError> {
    if !text.is_empty() {
        parts.push(Part::Text(unquoted(alloc, text)?))?;
    }
    Ok(())
}

/// Returns the commit of `ahead-behind`.
fn base(session: &mut Session<'_>, text: &[u8]) -> Result<ObjectId, Stop> {
    let found = match session.repository.committish(text) {
        Ok(id) => commit_of(session, id)?,
        Err(Refusal::Unknown | Refusal::Ambiguous) => None,
        Err(refusal) => return Err(Stop::from(refusal)),
    };
    match found {
        Some(commit) => Ok(commit),
        None => Err(fatal(session.alloc, &[b"failed to find '", text, b"'"])),
    }
}

/// Returns the part of a field that is a name of a reference, or says something of its siblings.
fn name_part(field: &[u8]) -> Option<Part> {
    if let Some(words) = field.strip_prefix(b"refname") {
        Some(Part::Name(form_of(words)?))
    } else if let Some(words) = field.strip_prefix(b"symref") {
        Some(Part::Symref(form_of(words)?))
    } else {
        let (kind, shown) = sibling_of(field)?;
        Some(Part::Sibling(kind, shown))
    }
}

/// Returns the part of a field that is an abbreviated id of some digits.
fn short_id(name: &[u8]) -> Option<Part> {
    let count = integer(name.strip_prefix(b"objectname:short=")?)?;
    match usize::try_from(count) {
        Ok(0) | Err(_) => None,
        Ok(count) => Some(Part::ShortId(Some(count.clamp(4, 40)))),
    }
}

/// Returns the part of a field of an object.
fn object_field(name: &[u8]) -> Option<Part> {
    match name.strip_prefix(b"*") {
        Some(name) => Some(Part::Target(field_of(name)?)),
        None => Some(Part::Own(field_of(name)?)),
    }
}

/// Returns the part of a field.
fn part_of(session: &mut Session<'_>, name: &[u8]) -> Result<Part, Stop> {
    if name == b"objectname".as_slice() {
        Ok(Part::Id)
    } else if name == b"objectname:short".as_slice() {
        Ok(Part::ShortId(None))
    } else if name == b"objecttype".as_slice() {
        Ok(Part::Type)
    } else if let Some(text) = name.strip_prefix(b"ahead-behind:") {
        Ok(Part::AheadBehind(base(session, text)?))
    } else if name == b"HEAD".as_slice() {
        Ok(Part::Head(session.repository.branch()?))
    } else if let Some(mark) = mark_of(session.alloc, name)? {
        Ok(Part::Mark(mark))
    } else {
        match name_part(name).or(short_id(name)).or(object_field(name)) {
            Some(part) => Ok(part),
            None => Err(not_supported(
                session.alloc,
                &[b"the field '", name, b"' is not supported"],
            )),
        }
    }
}

/// Returns the name of the field with which a text begins, and what follows the field.
fn cut_field(text: &[u8]) -> Option<(&[u8], &[u8])> {
    let rest = text.strip_prefix(b"%(")?;
    let end = rest.iter().position(|b| *b == b')')?;
    Some((rest.get(..end)?, rest.get(end.checked_add(1)?..)?))
}

/// A format, which [`read_format`] has read.
#[derive(Drop)]
pub struct Format {
    pub(crate) parts: Vec<Part>,
}

/// Reads a format.
///
/// # Errors
///
/// - `Fatal` if the commit of `ahead-behind` is not found.
/// - `NotSupported` if the format has another field, or one that is not closed.
pub fn read_format(session: &mut Session<'_>, format: &[u8]) -> Result<Format, Stop> {
    let mut parts = Vec::new(session.alloc);
    let mut rest = format;
    for _ in 0..format.len() {
        let Some(at) = next_field(rest) else {
            break;
        };
        let (text, begin) = rest.split_at(at.min(rest.len()));
        add_text(session.alloc, text, &mut parts)?;
        let Some((name, after)) = cut_field(begin) else {
            return Err(not_supported(
                session.alloc,
                &[b"the format '", begin, b"' is not supported"],
            ));
        };
        parts.push(part_of(session, name)?)?;
        rest = after;
    }
    add_text(session.alloc, rest, &mut parts)?;
    Ok(Format { parts })
}
