//! Reads `HEAD` (gitrepository-layout, "HEAD").

use crate::error::{DiscoverError, about};
use crate::paths::within;
use crate::source::{read_front, reason_of};
use gix_base::hash::ObjectId;
use gix_config::is_blank;
use gix_files::{FileError, Folders};
use std::alloc::Allocator;
use std::io::ErrorKind;

/// How many symbolic refs are followed, as in git.
const MOST_STEPS: u32 = 5;

/// How many bytes of a ref are read at most.
const MOST_BYTES: u64 = 4096;

/// Returns what follows blanks at the front of a text.
pub(crate) fn after_blanks(text: &[u8]) -> &[u8] {
    match text.iter().position(|b| !is_blank(*b)) {
        Some(len) => text.get(len..).unwrap_or(&[]),
        None => &[],
    }
}

/// Returns the name in a symbolic ref; `None` if the text is of another form.
fn symbolic(text: &[u8]) -> Option<&[u8]> {
    let name = after_blanks(text.strip_prefix(b"ref:")?);
    match name.iter().rposition(|b| !is_blank(*b)) {
        Some(last) => name.get(..=last),
        None => Some(&[]),
    }
}

/// Tells whether a text is the content of a `HEAD`: a symbolic ref below `refs/`, or an id.
pub(crate) fn is_head(text: &[u8]) -> bool {
    match symbolic(text) {
        Some(name) => name.starts_with(b"refs/"),
        None => match text.get(..40) {
            Some(digits) => ObjectId::from_hex(digits).is_ok(),
            None => false,
        },
    }
}

/// Tells whether git follows a symbolic ref to this name.
fn is_followed(name: &[u8]) -> bool {
    name.starts_with(b"refs/") && !name.windows(2).any(|two| two == b"..".as_slice())
}

/// Adds the text of a symbolic link to `text`. Returns `false` if there is no link.
pub(crate) fn read_link<F: Folders, A: Allocator + Copy>(
    alloc: A,
    files: &F,
    path: &[u8],
    text: &mut Vec<u8, A>,
) -> Result<bool, DiscoverError<A>> {
    match files.link(path, text) {
        Ok(found) => Ok(found),
        Err(FileError::Failed(ErrorKind::NotADirectory)) => Ok(false),
        Err(error) => Err(about(alloc, reason_of(error), path)),
    }
}

/// Reads a ref, and puts the name that it leads to into `name`. Returns `false` if it has none.
fn step<F: Folders, A: Allocator + Copy>(
    alloc: A,
    files: &F,
    path: &[u8],
    name: &mut Vec<u8, A>,
) -> Result<bool, DiscoverError<A>> {
    let mut text = Vec::new(alloc);
    if read_link(alloc, files, path, &mut text)? && is_followed(&text) {
        name.clear();
        name.extend_from_slice(&text)?;
        return Ok(true);
    }
    text.clear();
    if !read_front(alloc, files, path, MOST_BYTES, &mut text)? {
        return Ok(false);
    }
    match symbolic(&text) {
        Some(next) => {
            name.clear();
            name.extend_from_slice(next)?;
            Ok(true)
        }
        None => Ok(false),
    }
}

/// Returns the name of the current branch, without `refs/heads/`; `None` if there is none.
pub(crate) fn branch<F: Folders, A: Allocator + Copy>(
    alloc: A,
    files: &F,
    git_dir: &[u8],
    common_dir: &[u8],
) -> Result<Option<Vec<u8, A>>, DiscoverError<A>> {
    let mut name = Vec::new(alloc);
    let mut path = within(alloc, git_dir, b"HEAD")?;
    for _ in 0..MOST_STEPS {
        if !step(alloc, files, &path, &mut name)? || !is_followed(&name) {
            break;
        }
        path = within(alloc, common_dir, &name)?;
    }
    match name.strip_prefix(b"refs/heads/") {
        Some(short) => Ok(Some(short.to_vec(alloc)?)),
        None => Ok(None),
    }
}
