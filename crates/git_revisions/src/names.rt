//! Looks up the commits that words name.

use crate::ranges::{commit_reference, revision};
use git_session::session::Session;
use git_session::stop::{Stop, fatal};
use gix_base::hash::ObjectId;

/// Returns the commit that a revision names, of a word that takes commits alone.
///
/// # Errors
///
/// `Fatal`, with git's message, if it names no object or no commit; those of [`revision`] and
/// [`commit_reference`].
pub fn commit(session: &mut Session<'_>, text: &[u8]) -> Result<ObjectId, Stop> {
    let Some(id) = revision(session, text)? else {
        return Err(fatal(session.alloc, &[b"Not a valid object name ", text]));
    };
    match commit_reference(session, id)? {
        Some(id) => Ok(id),
        None => Err(fatal(session.alloc, &[b"Not a valid commit name ", text])),
    }
}

/// Returns the commits that revisions name, in their order.
///
/// # Errors
///
/// Those of [`commit`], of the first that has one.
pub fn commits(session: &mut Session<'_>, texts: &[&[u8]]) -> Result<Vec<ObjectId>, Stop> {
    let mut ids = Vec::new(session.alloc);
    for text in texts {
        ids.push(commit(session, text)?)?;
    }
    Ok(ids)
}

/// Returns the commits that revisions name, in their order. As git does there, it looks the last
/// one up first.
///
/// # Errors
///
/// Those of [`commit`], of the last that has one.
pub fn commits_last_first(
    session: &mut Session<'_>,
    texts: &[&[u8]],
) -> Result<Vec<ObjectId>, Stop> {
    let mut ids = Vec::new(session.alloc);
    for text in texts.iter().rev() {
        ids.push(commit(session, text)?)?;
    }
    ids.reverse();
    Ok(ids)
}
