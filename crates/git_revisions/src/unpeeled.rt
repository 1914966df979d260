//! Says, as git does, at which step of a revision an object is of another kind than the step wants.

use git_session::session::Session;
use git_session::stop::{Stop, joined};
use gix_base::hash::ObjectId;
use gix_base::object::Kind;
use gix_repository::kind_name;
use std::alloc::Global;

/// Says that an object is no commit.
pub fn say_no_commit(session: &mut Session<'_>, id: ObjectId, kind: Kind) -> Result<(), Stop> {
    let mut digits = [0u8; 40];
    let written = id.write_hex(40, &mut digits);
    let kind = kind_name(kind);
    session.say(&[
        b"error: object ",
        &digits[..written],
        b" is a ",
        kind,
        b", not a commit",
    ])?;
    Ok(())
}

/// Says that the tag before a `^{}` at the end of a text leads to an object that is missing.
pub fn say_lost(session: &mut Session<'_>, text: &[u8], missing: ObjectId) -> Result<(), Stop> {
    let Some(name) = text.strip_suffix(b"^{}") else {
        return Ok(());
    };
    // What there is to say of the name was said already.
    session.repository.set_silent(true);
    let named = session.repository.object(name);
    session.repository.set_silent(false);
    match named {
        Ok(id) if id != missing => {
            session.say(&[b"error: missing object referenced by '", name, b"'"])?;
        }
        _ => {}
    }
    Ok(())
}

/// Returns where the first step of a text begins, from a place on: its `^` or `~` outside braces.
fn step_from(text: &[u8], from: usize) -> Option<usize> {
    let mut depth = 0usize;
    for (place, byte) in text.iter().enumerate().skip(from) {
        match *byte {
            b'{' => depth = depth.saturating_add(1),
            b'}' => depth = depth.saturating_sub(1),
            b'^' | b'~' if depth == 0 => return Some(place),
            _ => {}
        }
    }
    None
}

/// Returns the kind that a step wants; `None` if it takes any.
fn wanted(step: &[u8]) -> Option<Kind> {
    let Some(rest) = step.strip_prefix(b"^{") else {
        return Some(Kind::Commit);
    };
    if rest.starts_with(b"commit}") || rest.starts_with(b"/") {
        Some(Kind::Commit)
    } else if rest.starts_with(b"tree}") {
        Some(Kind::Tree)
    } else if rest.starts_with(b"blob}") {
        Some(Kind::Blob)
    } else if rest.starts_with(b"tag}") {
        Some(Kind::Tag)
    } else {
        None
    }
}

/// An object that a step does not take.
#[derive(Clone, Copy)]
struct Mismatch {
    /// The object to which tags lead.
    id: ObjectId,
    kind: Kind,
    wanted: Kind,
}

/// Returns why an object has none of a kind; `None` if it has one, or if it is not read.
fn mismatch_of(session: &mut Session<'_>, id: ObjectId, wanted: Kind) -> Option<Mismatch> {
    if wanted == Kind::Tag && session.repository.kind(id).ok()? == Kind::Tag {
        return None;
    }
    let (id, kind) = session.repository.peeled(id).ok()?;
    if kind == wanted || kind == Kind::Commit && wanted == Kind::Tree {
        return None;
    }
    Some(Mismatch { id, kind, wanted })
}

/// Says that the object before a step is of another kind. `text` ends with the step.
fn say_mismatch(
    session: &mut Session<'_>,
    text: &[u8],
    step: &[u8],
    found: &Mismatch,
) -> Result<(), Stop> {
    if !step.starts_with(b"^{") {
        return say_no_commit(session, found.id, found.kind);
    }
    // git goes on from a commit to its tree.
    let kind = match found.kind {
        Kind::Commit => Kind::Tree,
        kind => kind,
    };
    let mut line = joined(session.alloc, &[b"error: ", text, b": expected "])?;
    line.extend_from_slice(kind_name(found.wanted))?;
    line.extend_from_slice(b" type, but the object dereferences to ")?;
    line.extend_from_slice(kind_name(kind))?;
    session.say(&[&line, b" type"])?;
    Ok(())
}

/// Returns the text of a step from an object.
fn step_text(alloc: Global, id: ObjectId, step: &[u8]) -> Result<Vec<u8>, Stop> {
    let mut digits = [0u8; 40];
    let written = id.write_hex(40, &mut digits);
    Ok(joined(alloc, &[&digits[..written], step])?)
}

/// Says at which step of a text an object is of another kind than the step wants. `id` is the
/// object before the step that begins at `from`.
fn say_from(session: &mut Session<'_>, text: &[u8], from: usize, id: ObjectId) -> Result<(), Stop> {
    let (mut from, mut id) = (from, id);
    for _ in 0..text.len() {
        let end = step_from(text, from.saturating_add(1)).unwrap_or(text.len());
        let step = text.get(from..end).unwrap_or(&[]);
        let found = match wanted(step) {
            Some(wanted) => mismatch_of(session, id, wanted),
            None => None,
        };
        if let Some(found) = found {
            return say_mismatch(session, text.get(..end).unwrap_or(text), step, &found);
        }
        let next = step_text(session.alloc, id, step)?;
        match session.repository.object(&next) {
            Ok(next) => id = next,
            Err(_) => return Ok(()),
        }
        from = end;
        if from >= text.len() {
            return Ok(());
        }
    }
    Ok(())
}

/// Returns the first object of a text that there is, and where the step behind it begins: that of
/// the name, or of the name and its first step, if this tells what ambiguous digits mean.
fn begun(session: &mut Session<'_>, text: &[u8]) -> Option<(ObjectId, usize)> {
    let mut from = step_from(text, 0)?;
    for _ in 0..2u8 {
        if let Ok(id) = session.repository.object(text.get(..from)?) {
            return Some((id, from));
        }
        from = step_from(text, from.saturating_add(1))?;
    }
    None
}

/// Says at which step of a text that names nothing an object is of another kind than the step
/// wants, if that is why.
///
/// # Errors
///
/// Fails if an allocation failed.
pub fn say_unpeeled(session: &mut Session<'_>, text: &[u8]) -> Result<(), Stop> {
    // What there is to say of the name was said already.
    session.repository.set_silent(true);
    let said = match begun(session, text) {
        Some((id, from)) => say_from(session, text, from, id),
        None => Ok(()),
    };
    session.repository.set_silent(false);
    said
}
