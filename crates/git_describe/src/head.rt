//! Lists the files of the commit of `HEAD`.

use git_revisions::ranges::revision;
use git_session::commits::commit_of;
use git_session::session::Session;
use git_session::stop::{Stop, failed, fatal, not_supported};
use gix_base::hash::ObjectId;
use gix_base::object::Kind;
use gix_index::tree::{Listed, TREE, TreeEntry, first};

/// Fails if a tree is replaced: git then takes the other tree in some places only.
fn expect_own(session: &Session<'_>, tree: ObjectId) -> Result<(), Stop> {
    if session.repository.is_replaced(tree) {
        return Err(not_supported(
            session.alloc,
            &[b"a replaced tree of HEAD is not supported"],
        ));
    }
    Ok(())
}

/// Returns the tree of the commit of `HEAD`.
///
/// # Errors
///
/// - `Fatal`, with git's message, if there is none.
/// - `NotSupported` if it is replaced.
pub(crate) fn head_tree(session: &mut Session<'_>) -> Result<ObjectId, Stop> {
    let Some(id) = revision(session, b"HEAD")? else {
        return Err(fatal(session.alloc, &[b"bad revision 'HEAD'"]));
    };
    match commit_of(session, id)? {
        Some(commit) => {
            let tree = session.repository.tree(commit)?;
            expect_own(session, tree)?;
            Ok(tree)
        }
        None => Err(not_supported(session.alloc, &[b"'HEAD' names no commit"])),
    }
}

/// Returns an entry of a tree with its path. Fails for a tree that is replaced (git-replace).
fn with_path(session: &Session<'_>, folder: &[u8], entry: &TreeEntry<'_>) -> Result<Listed, Stop> {
    if entry.is_tree() {
        expect_own(session, entry.id)?;
    }
    let mut path = folder.to_vec(session.alloc)?;
    path.extend_from_slice(entry.name)?;
    if entry.is_tree() {
        path.push(b'/')?;
    }
    Ok(Listed {
        path,
        mode: entry.mode,
        id: entry.id,
    })
}

/// Returns the entries of a tree, the last one first.
fn entries_of(session: &mut Session<'_>, tree: &Listed) -> Result<Vec<Listed>, Stop> {
    let object = session.repository.read_object(tree.id)?;
    let mut entries = Vec::new(session.alloc);
    let mut rest = object.content.as_slice();
    for _ in 0..object.content.len() {
        let Some((entry, after)) = first(rest) else {
            break;
        };
        entries.push(with_path(session, &tree.path, &entry)?)?;
        rest = after;
    }
    if object.kind != Kind::Tree || !rest.is_empty() {
        return Err(failed(session.alloc, &[b"a tree of HEAD is malformed"]));
    }
    entries.reverse();
    Ok(entries)
}

/// Returns all files below a tree, in the order of their paths.
pub(crate) fn files_of(session: &mut Session<'_>, tree: ObjectId) -> Result<Vec<Listed>, Stop> {
    let mut waiting = Vec::new(session.alloc);
    waiting.push(Listed {
        path: Vec::new(session.alloc),
        mode: TREE,
        id: tree,
    })?;
    let mut files = Vec::new(session.alloc);
    for _ in 0..u64::MAX {
        let Some(one) = waiting.pop() else {
            break;
        };
        if one.mode == TREE {
            for entry in entries_of(session, &one)? {
                waiting.push(entry)?;
            }
        } else {
            files.push(one)?;
        }
    }
    Ok(files)
}
