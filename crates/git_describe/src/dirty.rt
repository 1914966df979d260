//! Tells whether the working tree is dirty (git-describe, "--dirty").
//!
//! As `git diff-index HEAD` does, it compares the files of the commit with those of the working
//! tree. A file that is as its entry of the index has noted has the content of that entry.

use crate::head::{files_of, head_tree};
use crate::work_tree::{open_tree, read_index, top_of};
use git_session::session::Session;
use git_session::stop::{Stop, failed, not_supported, unread};
use gix_base::hash::ObjectId;
use gix_files::{FileError, System};
use gix_index::{
    Difference, Entry, FileKind, Index, Look, Looked, WorkTree, are_sorted, first_difference,
};

/// Returns the end for what only git decides about a path.
fn undecided(session: &Session<'_>, path: &[u8]) -> Stop {
    not_supported(
        session.alloc,
        &[b"--dirty is not supported for the state of '", path, b"'"],
    )
}

/// Returns what was found, or the end for a file that is not read.
fn looked<T: Drop>(
    session: &Session<'_>,
    path: &[u8],
    found: Result<T, FileError>,
) -> Result<T, Stop> {
    match found {
        Ok(found) => Ok(found),
        Err(error) => Err(unread(session.alloc, path, error)),
    }
}

/// Expects any conversion if git reads attributes from the index.
fn note_attributes(
    session: &Session<'_>,
    index: &Index,
    tree: &mut WorkTree<System<'_>>,
) -> Result<(), Stop> {
    for entry in index.entries.iter() {
        if looked(session, &entry.path, tree.lacks_attributes(entry))? {
            tree.expect_any_conversion();
        }
    }
    Ok(())
}

/// Compares an entry with its file, unless the entry says not to look at it.
fn look(
    session: &Session<'_>,
    entry: &Entry,
    tree: &mut WorkTree<System<'_>>,
    is_sparse: bool,
) -> Result<Look, Stop> {
    let is_left = entry.is_skipped() || entry.is_assumed_valid();
    if is_left && entry.stage() != 0 {
        return Err(undecided(session, &entry.path));
    }
    if !is_left {
        return looked(session, &entry.path, tree.look(entry));
    }
    // git looks at a file that is there although it is left out of a sparse checkout.
    if entry.is_skipped() && is_sparse && looked(session, &entry.path, tree.is_there(entry))? {
        return Err(undecided(session, &entry.path));
    }
    Ok(Look::Kept)
}

/// Compares all entries with their files.
fn look_all<'i>(
    session: &Session<'_>,
    index: &'i Index,
    tree: &mut WorkTree<System<'_>>,
    is_sparse: bool,
) -> Result<Vec<Looked<'i>>, Stop> {
    let mut looked = Vec::new(session.alloc);
    for entry in index.entries.iter() {
        let look = look(session, entry, tree, is_sparse)?;
        if look == Look::Undecided {
            return Err(undecided(session, &entry.path));
        }
        looked.push(Looked { entry, look })?;
    }
    Ok(looked)
}

/// Compares all entries of the index with the files of the working tree in a folder.
fn look_at_tree<'i>(
    session: &mut Session<'_>,
    index: &'i Index,
    top: &[u8],
    written: u32,
) -> Result<Vec<Looked<'i>>, Stop> {
    let (mut tree, is_sparse) = open_tree(session, top, written)?;
    note_attributes(session, index, &mut tree)?;
    look_all(session, index, &mut tree, is_sparse)
}

/// Returns whether the files of a tree differ from those of the working tree, as `looked` says them.
fn differs(
    session: &mut Session<'_>,
    index: &Index,
    looked: &[Looked<'_>],
    head: ObjectId,
) -> Result<bool, Stop> {
    let files = files_of(session, head)?;
    if !are_sorted(&index.entries, &files) {
        return Err(failed(
            session.alloc,
            &[b"the index or a tree of HEAD is not sorted"],
        ));
    }
    match first_difference(looked, &files) {
        Some(difference) => counts(session, difference),
        None => Ok(false),
    }
}

/// Returns whether a difference counts. Settings say whether that of a submodule does.
fn counts(session: &Session<'_>, difference: Difference<'_>) -> Result<bool, Stop> {
    match FileKind::of(difference.mode) {
        FileKind::Submodule => Err(not_supported(
            session.alloc,
            &[
                b"--dirty: submodules are not supported ('",
                difference.path,
                b"')",
            ],
        )),
        _ => Ok(true),
    }
}

/// Returns whether the working tree differs from the commit of `HEAD`, as git says it.
///
/// # Errors
///
/// - `Fatal` if there is no working tree or no commit.
/// - `NotSupported` if git decides by what is not read here.
/// - `OutOfMemory` if an allocation failed.
pub(crate) fn is_dirty(session: &mut Session<'_>) -> Result<bool, Stop> {
    let top = top_of(session)?;
    let (index, written) = read_index(session, &top)?;
    let head = head_tree(session)?;
    let looked = look_at_tree(session, &index, &top, written)?;
    if index.root == Some(head) && index.is_merged() {
        return Ok(looked.iter().any(|one| one.look != Look::Kept));
    }
    differs(session, &index, &looked, head)
}
