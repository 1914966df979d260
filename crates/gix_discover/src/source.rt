//! Reads files, and names the path in each error.

use crate::error::{DiscoverError, Reason, about};
use crate::paths::folder_of;
use crate::places::{PathKind, Place, Places};
use gix_files::{FileError, Folders, Limit};
use std::alloc::Allocator;

/// Returns the reason for a failed call on a file.
pub(crate) fn reason_of(error: FileError) -> Reason {
    match error {
        FileError::Failed(kind) => Reason::Failed(kind),
        FileError::NotUtf8 => Reason::NotUtf8,
        FileError::OutOfMemory => Reason::OutOfMemory,
    }
}

/// Puts the first bytes of a file into `bytes`: all, or at least `enough`.
///
/// Returns `false` if there is no such file.
pub(crate) fn read_front<F: Folders, A: Allocator + Copy>(
    alloc: A,
    files: &F,
    path: &[u8],
    enough: u64,
    bytes: &mut Vec<u8, A>,
) -> Result<bool, DiscoverError<A>> {
    match gix_files::read_front(files, path, enough, bytes) {
        Ok(found) => Ok(found),
        Err(error) => Err(about(alloc, reason_of(error), path)),
    }
}

/// Puts the bytes of a file into `bytes`. Returns `false` if there is no such file.
pub(crate) fn read_file<F: Folders, A: Allocator + Copy>(
    alloc: A,
    files: &F,
    path: &[u8],
    bytes: &mut Vec<u8, A>,
) -> Result<bool, DiscoverError<A>> {
    match gix_files::read_file(files, path, Limit::Text, bytes) {
        Ok(found) => Ok(found),
        Err(error) => Err(about(alloc, reason_of(error), path)),
    }
}

/// Returns what is at a path; `None` if there is nothing.
pub(crate) fn place<F: Places, A: Allocator + Copy>(
    alloc: A,
    files: &F,
    path: &[u8],
) -> Result<Option<Place>, DiscoverError<A>> {
    match files.place(path) {
        Ok(place) => Ok(place),
        Err(error) => Err(about(alloc, reason_of(error), path)),
    }
}

/// Tells whether something is at a path, which may be a symbolic link that leads nowhere.
pub(crate) fn is_there<F: Places, A: Allocator + Copy>(
    alloc: A,
    files: &F,
    path: &[u8],
) -> Result<bool, DiscoverError<A>> {
    match files.link_place(path) {
        Ok(place) => Ok(place.is_some()),
        Err(error) => Err(about(alloc, reason_of(error), path)),
    }
}

/// Tells whether something is at a path, or only its last name is missing, as git wants of paths.
///
/// A symbolic link that leads nowhere does not count.
pub(crate) fn is_known<F: Places, A: Allocator + Copy>(
    alloc: A,
    files: &F,
    path: &[u8],
) -> Result<bool, DiscoverError<A>> {
    if place(alloc, files, path)?.is_some() {
        return Ok(true);
    }
    if is_there(alloc, files, path)? {
        return Ok(false);
    }
    match folder_of(path) {
        [] => Ok(!path.is_empty()),
        folder => is_folder(alloc, files, folder),
    }
}

/// Tells whether there is a folder at a path.
pub(crate) fn is_folder<F: Places, A: Allocator + Copy>(
    alloc: A,
    files: &F,
    path: &[u8],
) -> Result<bool, DiscoverError<A>> {
    match place(alloc, files, path)? {
        Some(place) => Ok(place.kind == PathKind::Folder),
        None => Ok(false),
    }
}
