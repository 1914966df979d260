//! Prints where the repository is, and what it is (git-rev-parse, "Options for Files").
//!
//! git goes to the top of the work tree before it answers, and writes some paths from there. A path
//! is printed as git has it then: as it was given, or without symbolic links.

use crate::asked::{Asked, Fact};
use git_session::session::Session;
use git_session::stop::{Stop, failed, fatal, joined, not_supported, unread};
use gix_discover::{Places, Variable};
use gix_files::Folders;
use std::alloc::AllocError;

/// Returns the way from the top of the work tree to the current folder, with a slash at its end. At
/// the top, and outside of the work tree, it is empty.
fn way<'l>(session: &'l Session<'_>) -> &'l [u8] {
    match &session.repository.layout().prefix {
        Some(prefix) => prefix,
        None => b"",
    }
}

/// Returns a path without symbolic links. The empty path is the current folder.
fn real(session: &Session<'_>, path: &[u8]) -> Result<Vec<u8>, Stop> {
    let mut text = Vec::new(session.alloc);
    let path = if path.is_empty() { b"." } else { path };
    match session.files.real_path(path, &mut text) {
        Ok(true) => Ok(text),
        Ok(false) => Err(failed(session.alloc, &[b"the folder '", path, b"' is gone"])),
        Err(error) => Err(unread(session.alloc, path, error)),
    }
}

/// Tells whether a variable or a setting names a work tree.
fn names_work_tree(session: &Session<'_>) -> bool {
    let setting = session
        .repository
        .settings()
        .value(b"core", None, b"worktree");
    session.environment.get(Variable::WorkTree).is_some() || setting.is_some()
}

/// Tells whether a git folder is `.git` in a top folder; empty is the current one.
fn is_dot_git(git_dir: &[u8], top: &[u8]) -> bool {
    if top.is_empty() {
        return git_dir == b".git".as_slice();
    }
    match git_dir.strip_prefix(top) {
        Some(rest) => rest == b"/.git".as_slice(),
        None => false,
    }
}

/// Tells whether git has the path of the git folder as it was given or found, and not without
/// symbolic links.
fn is_as_given(session: &Session<'_>) -> bool {
    let git_dir = session.repository.layout().git_dir.as_slice();
    if !way(session).is_empty() {
        return false;
    }
    match session.environment.get(Variable::GitDir) {
        Some(named) => git_dir == named,
        None => git_dir == b".git".as_slice() || git_dir == b".".as_slice(),
    }
}

/// Returns the path of the git folder as git has it at the top of the work tree.
///
/// # Errors
///
/// `Failure` if the folder is gone, or is not read.
fn git_folder(session: &Session<'_>) -> Result<Vec<u8>, Stop> {
    let layout = session.repository.layout();
    if is_as_given(session) {
        return Ok(layout.git_dir.as_slice().to_vec(session.alloc)?);
    }
    let is_named = session.environment.get(Variable::GitDir).is_some() || names_work_tree(session);
    match &layout.work_tree {
        Some(top) if !is_named && is_dot_git(&layout.git_dir, top) => {
            Ok(b".git".to_vec(session.alloc)?)
        }
        _ => real(session, &layout.git_dir),
    }
}

/// Returns the folder that `--git-dir` prints. Below the top of a work tree it is absolute.
fn shown_git_dir(session: &Session<'_>) -> Result<Vec<u8>, Stop> {
    if way(session).is_empty() {
        return git_folder(session);
    }
    real(session, &session.repository.layout().git_dir)
}

/// Returns a path at the top of the work tree as it is from the current folder.
fn from_here(session: &Session<'_>, path: &[u8]) -> Result<Vec<u8>, AllocError> {
    let mut text = Vec::new(session.alloc);
    if !path.starts_with(b"/") {
        for _ in way(session).iter().filter(|byte| **byte == b'/') {
            text.extend_from_slice(b"../")?;
        }
    }
    text.extend_from_slice(path)?;
    Ok(text)
}

/// Tells whether worktrees share a folder that is not the git folder.
fn is_shared(session: &Session<'_>) -> bool {
    let layout = session.repository.layout();
    layout.common_dir.as_slice() != layout.git_dir.as_slice()
}

/// Returns the folder that all worktrees share, as git has it at the top of the work tree.
///
/// # Errors
///
/// `NotSupported` if a variable names the folder.
fn common_folder(session: &Session<'_>) -> Result<Vec<u8>, Stop> {
    if session.environment.get(Variable::CommonDir).is_some() {
        return Err(not_supported(session.alloc, &[b"GIT_COMMON_DIR is not supported here"]));
    }
    if is_shared(session) {
        real(session, &session.repository.layout().common_dir)
    } else {
        git_folder(session)
    }
}

/// Tells whether a variable or a setting may lead a path of the git folder elsewhere.
fn is_moved(session: &Session<'_>, path: &[u8]) -> bool {
    let hooks = session
        .repository
        .settings()
        .value(b"core", None, b"hookspath");
    is_shared(session)
        || path.is_empty()
        || path.starts_with(b"/")
        || path.starts_with(b"index") && session.environment.get(Variable::IndexFile).is_some()
        || path.starts_with(b"info") && session.environment.get(Variable::GraftFile).is_some()
        || path.starts_with(b"objects")
            && session.environment.get(Variable::ObjectDirectory).is_some()
        || path.starts_with(b"hooks") && hooks.is_some()
}

/// Returns the path of a file of the git folder, as git has it at the top of the work tree.
fn git_path(session: &Session<'_>, path: &[u8]) -> Result<Vec<u8>, Stop> {
    let alloc = session.alloc;
    if is_moved(session, path) {
        return Err(not_supported(alloc, &[b"--git-path '", path, b"' is not supported here"]));
    }
    let folder = git_folder(session)?;
    if folder.as_slice() == b".".as_slice() {
        return Ok(path.to_vec(alloc)?);
    }
    let between = if folder.ends_with(b"/") {
        b"".as_slice()
    } else {
        b"/"
    };
    Ok(joined(alloc, &[&folder, between, path])?)
}

/// Returns the absolute path of a file of the git folder, which may be missing.
fn absolute_git_path(session: &Session<'_>, path: &[u8]) -> Result<Vec<u8>, Stop> {
    let alloc = session.alloc;
    let git_dir = real(session, &session.repository.layout().git_dir)?;
    let whole = joined(alloc, &[&git_dir, b"/", path])?;
    match session.files.link_place(&whole) {
        Ok(Some(_)) => real(session, &whole),
        Ok(None) if !path.contains(&b'/') => Ok(whole),
        Ok(None) => Err(not_supported(
            alloc,
            &[b"'", path, b"': this missing path is not supported"],
        )),
        Err(error) => Err(unread(alloc, &whole, error)),
    }
}

/// Prints a path of the git folder.
fn show_git_path(session: &mut Session<'_>, asked: &mut Asked<'_>) -> Result<(), Stop> {
    let Some(path) = asked.take() else {
        return Err(fatal(session.alloc, &[b"--git-path requires an argument"]));
    };
    let whole = git_path(session, path)?;
    let text = if asked.is_absolute {
        absolute_git_path(session, path)?
    } else {
        from_here(session, &whole)?
    };
    session.print_line(&text)?;
    Ok(())
}

/// Prints the way from the current folder up to the top of the work tree. Outside of it prints the
/// top, and nothing if there is no work tree.
fn show_way_up(session: &mut Session<'_>) -> Result<(), Stop> {
    let layout = session.repository.layout();
    let text = match (&layout.prefix, &layout.work_tree) {
        (Some(_), _) => from_here(session, b"")?,
        (None, Some(top)) => real(session, top)?,
        (None, None) => return Ok(()),
    };
    session.print_line(&text)?;
    Ok(())
}

/// Returns the top of the work tree.
fn top_level(session: &Session<'_>) -> Result<Vec<u8>, Stop> {
    match &session.repository.layout().work_tree {
        Some(top) => real(session, top),
        None => Err(fatal(
            session.alloc,
            &[b"this operation must be run in a work tree"],
        )),
    }
}

/// Tells whether a path is that of a folder, or of something below it.
fn is_below(path: &[u8], folder: &[u8]) -> bool {
    match path.strip_prefix(folder) {
        Some(rest) => rest.is_empty() || rest.starts_with(b"/") || folder.ends_with(b"/"),
        None => false,
    }
}

/// Tells whether the current folder is in the git folder, as git says it. A folder that is a bare
/// repository, or is below one, is.
fn is_inside_git_dir(session: &Session<'_>) -> Result<bool, Stop> {
    let layout = session.repository.layout();
    if layout.prefix.is_some() {
        return Ok(layout.is_in_git_dir);
    }
    let is_named = session.environment.get(Variable::GitDir).is_some();
    if !is_named && layout.work_tree.is_none() && layout.git_dir.ends_with(b".") {
        return Ok(true);
    }
    let folder = git_folder(session)?;
    let here = real(session, b"")?;
    Ok(is_below(&here, &folder))
}

/// Tells whether the repository is shallow: its file `shallow` is there.
fn is_shallow(session: &Session<'_>) -> Result<bool, Stop> {
    let path = session.repository.layout().shallow.as_slice();
    match session.files.place(path) {
        Ok(place) => Ok(place.is_some()),
        Err(error) => Err(unread(session.alloc, path, error)),
    }
}

/// Prints `true` or `false`.
fn show_whether(session: &mut Session<'_>, is_so: bool) -> Result<(), Stop> {
    session.print_line(if is_so { b"true" } else { b"false" })?;
    Ok(())
}

/// Prints a folder, without symbolic links if paths are to be absolute.
fn show_folder(session: &mut Session<'_>, asked: &Asked<'_>, path: Vec<u8>) -> Result<(), Stop> {
    let text = if asked.is_absolute {
        real(session, &path)?
    } else {
        path
    };
    session.print_line(&text)?;
    Ok(())
}

/// Prints a fact about the repository.
///
/// # Errors
///
/// - `Fatal` with git's message if there is no work tree, or if a word is missing.
/// - `NotSupported` if variables or settings decide what git prints, in a way that is not known.
/// - `Failure` if a folder is gone, or is not read.
pub(super) fn show_fact(
    session: &mut Session<'_>,
    asked: &mut Asked<'_>,
    fact: Fact,
) -> Result<(), Stop> {
    match fact {
        Fact::GitDir => {
            let path = shown_git_dir(session)?;
            show_folder(session, asked, path)
        }
        Fact::AbsoluteGitDir => {
            let path = real(session, &session.repository.layout().git_dir)?;
            show_folder(session, asked, path)
        }
        Fact::CommonDir => {
            let path = common_folder(session)?;
            let path = from_here(session, &path)?;
            show_folder(session, asked, path)
        }
        Fact::TopLevel => {
            let path = top_level(session)?;
            show_folder(session, asked, path)
        }
        Fact::GitPath => show_git_path(session, asked),
        Fact::WayUp => show_way_up(session),
        Fact::Prefix => {
            let prefix = way(session).to_vec(session.alloc)?;
            session.print_line(&prefix)?;
            Ok(())
        }
        Fact::IsInsideWorkTree => {
            let is_inside = session.repository.layout().prefix.is_some();
            show_whether(session, is_inside)
        }
        Fact::IsInsideGitDir => {
            let is_inside = is_inside_git_dir(session)?;
            show_whether(session, is_inside)
        }
        Fact::IsBare => {
            let is_bare = session.repository.layout().is_bare;
            show_whether(session, is_bare)
        }
        Fact::IsShallow => {
            let is_shallow = is_shallow(session)?;
            show_whether(session, is_shallow)
        }
        Fact::ObjectFormat => {
            session.print_line(b"sha1")?;
            Ok(())
        }
    }
}
