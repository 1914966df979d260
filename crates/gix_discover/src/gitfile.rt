//! Reads the files that lead to a repository: `.git` and `commondir` (gitrepository-layout).

use crate::environment::{Environment, Variable};
use crate::error::{DiscoverError, Reason, about};
use crate::head::{is_head, read_link};
use crate::paths::{resolved, within, without_line_end};
use crate::places::{PathKind, Places};
use crate::source::{is_folder, is_known, is_there, place, read_file, read_front};
use gix_config::before_zero;
use std::alloc::Allocator;
use std::io::ErrorKind;

/// How many bytes a file `.git` has at most, as in git.
const MOST_BYTES: u64 = 1 << 20;

/// Returns the path in the text of a file `.git` (gitglossary, "gitfile").
///
/// # Errors
///
/// - `GitfileFormat` if the text does not begin with `gitdir: `.
/// - `GitfileNoPath` if no path follows.
pub(crate) fn linked(text: &[u8]) -> Result<&[u8], Reason> {
    match text.strip_prefix(b"gitdir: ") {
        Some(rest) => match without_line_end(rest) {
            [] => Err(Reason::GitfileNoPath),
            path => Ok(before_zero(path)),
        },
        None => Err(Reason::GitfileFormat),
    }
}

/// Returns the path to which a file `.git` in a folder leads. Its path is in that folder.
pub(crate) fn read_gitfile<F: Places, A: Allocator + Copy>(
    alloc: A,
    files: &F,
    folder: &[u8],
    path: &[u8],
) -> Result<Vec<u8, A>, DiscoverError<A>> {
    let mut text = Vec::new(alloc);
    if !read_front(alloc, files, path, MOST_BYTES + 1, &mut text)? {
        return Err(about(alloc, Reason::GitfileFormat, path));
    }
    if text.len() as u64 > MOST_BYTES {
        return Err(about(alloc, Reason::GitfileTooLarge, path));
    }
    match linked(&text) {
        Ok(target) => Ok(resolved(alloc, folder, target)?),
        Err(reason) => Err(about(alloc, reason, path)),
    }
}

/// Is the folder that the worktrees of a repository share, and whether it is another one.
#[derive(Drop)]
pub(crate) struct Common<A: Allocator> {
    pub(crate) path: Vec<u8, A>,
    /// Says whether a file `commondir` or `GIT_COMMON_DIR` names the folder.
    pub(crate) is_named: bool,
}

/// Returns the folder that the file `commondir` of a git folder names; `None` if there is no file.
///
/// Of its path only the last name may be missing.
fn named_dir<F: Places, A: Allocator + Copy>(
    alloc: A,
    files: &F,
    git_dir: &[u8],
) -> Result<Option<Vec<u8, A>>, DiscoverError<A>> {
    let file = within(alloc, git_dir, b"commondir")?;
    let mut text = Vec::new(alloc);
    if !read_file(alloc, files, &file, &mut text)? && !is_there(alloc, files, &file)? {
        return Ok(None);
    }
    if text.is_empty() {
        return Err(about(alloc, Reason::EmptyCommonDir, &file));
    }
    let path = resolved(alloc, git_dir, before_zero(without_line_end(&text)))?;
    if is_known(alloc, files, &path)? {
        Ok(Some(path))
    } else {
        Err(about(alloc, Reason::Failed(ErrorKind::NotFound), &path))
    }
}

/// Returns the folder that the worktrees of a repository share, as the repository itself names it.
fn own_common_dir<F: Places, A: Allocator + Copy>(
    alloc: A,
    files: &F,
    git_dir: &[u8],
) -> Result<Common<A>, DiscoverError<A>> {
    match named_dir(alloc, files, git_dir)? {
        Some(path) => Ok(Common {
            path,
            is_named: true,
        }),
        None => Ok(Common {
            path: git_dir.to_vec(alloc)?,
            is_named: false,
        }),
    }
}

/// Returns the folder that the worktrees of a repository share.
///
/// `GIT_COMMON_DIR` may only name the folder that the repository itself names.
pub(crate) fn common_dir<F: Places, A: Allocator + Copy>(
    alloc: A,
    files: &F,
    environment: &Environment<A>,
    git_dir: &[u8],
) -> Result<Common<A>, DiscoverError<A>> {
    let mut common = own_common_dir(alloc, files, git_dir)?;
    if let Some(path) = environment.get(Variable::CommonDir) {
        if path != common.path.as_slice() {
            return Err(about(alloc, Reason::OtherCommonDir, path));
        }
        common.is_named = true;
    }
    Ok(common)
}

/// Tells whether a folder has a valid `HEAD`: a file, or a symbolic link to a name below `refs/`.
fn has_head<F: Places, A: Allocator + Copy>(
    alloc: A,
    files: &F,
    path: &[u8],
) -> Result<bool, DiscoverError<A>> {
    let head = within(alloc, path, b"HEAD")?;
    let mut text = Vec::new(alloc);
    if read_link(alloc, files, &head, &mut text)? {
        return Ok(text.starts_with(b"refs/"));
    }
    match place(alloc, files, &head)? {
        Some(place) if place.kind == PathKind::File => {}
        _ => return Ok(false),
    }
    Ok(read_front(alloc, files, &head, 256, &mut text)? && is_head(&text))
}

/// Tells whether a folder is the git folder of a repository.
///
/// It has a valid `HEAD`, and the folders `objects` and `refs`, which may be in the folder that
/// worktrees share.
pub(crate) fn is_git_dir<F: Places, A: Allocator + Copy>(
    alloc: A,
    files: &F,
    environment: &Environment<A>,
    path: &[u8],
) -> Result<bool, DiscoverError<A>> {
    if !has_head(alloc, files, path)? {
        return Ok(false);
    }
    let common = common_dir(alloc, files, environment, path)?;
    let objects = match environment.get(Variable::ObjectDirectory) {
        Some(objects) => objects.to_vec(alloc)?,
        None => within(alloc, &common.path, b"objects")?,
    };
    let refs = within(alloc, &common.path, b"refs")?;
    Ok(is_folder(alloc, files, &objects)? && is_folder(alloc, files, &refs)?)
}
