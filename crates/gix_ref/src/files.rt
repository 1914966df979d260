//! Reads files, and names them in faults.

use crate::error::{ErrorName, Fault};
use gix_files::{FileError, Folders, Limit, read_file};
use gix_ref_text::lines::cut;
use memchr::memrchr;
use std::alloc::Allocator;
use std::io::ErrorKind;

/// Returns the fault of a file for one of the traits.
pub(crate) fn fault_of(name: &[u8], error: FileError) -> Fault {
    match error {
        FileError::Failed(kind) => Fault::Failed(ErrorName::new(name), kind),
        FileError::NotUtf8 => Fault::NotUtf8(ErrorName::new(name)),
        FileError::OutOfMemory => Fault::OutOfMemory,
    }
}

/// Tests whether an error says that there is no file of this name.
///
/// This is also so for a folder, for a name below a file, and for one that is too long for the
/// system.
fn is_no_file(error: FileError) -> bool {
    matches!(
        error,
        FileError::Failed(
            ErrorKind::IsADirectory | ErrorKind::NotADirectory | ErrorKind::InvalidFilename
        )
    )
}

/// Returns the folder and the name of the first part of a path that is not UTF-8.
fn first_odd(path: &[u8], valid: usize) -> (&[u8], &[u8]) {
    let front = path.get(..valid).unwrap_or(&[]);
    let begin = match memrchr(b'/', front) {
        Some(slash) => slash.saturating_add(1),
        None => 0,
    };
    let folder = path.get(..begin).unwrap_or(&[]);
    let rest = path.get(begin..).unwrap_or(&[]);
    (folder, cut(rest, b'/').0)
}

/// Tests whether a folder has an entry of this name. The current folder has an empty path.
fn has_entry<F: Folders, A: Allocator>(
    alloc: A,
    files: &F,
    folder: &[u8],
    entry: &[u8],
) -> Result<bool, FileError> {
    let mut names = Vec::new(alloc);
    let folder = if folder.is_empty() {
        b".".as_slice()
    } else {
        folder
    };
    files.names(folder, &mut names)?;
    Ok(names.split(|b| *b == 0).any(|name| name == entry))
}

/// Tests whether there may be a file of this path, which is not UTF-8 and was not opened.
///
/// There is none if the folder before the first name that is not UTF-8 does not list that name.
fn may_be_there<F: Folders, A: Allocator>(
    alloc: A,
    files: &F,
    path: &[u8],
) -> Result<bool, FileError> {
    let valid = match str::from_utf8(path) {
        Ok(_) => return Ok(true),
        Err(error) => error.valid_up_to(),
    };
    let (folder, entry) = first_odd(path, valid);
    match has_entry(alloc, files, folder, entry) {
        Err(error) if is_no_file(error) => Ok(false),
        found => found,
    }
}

/// Fails if there may be a file of this path, which is not UTF-8 and was not opened.
pub(crate) fn ensure_missing<F: Folders, A: Allocator>(
    alloc: A,
    files: &F,
    path: &[u8],
    name: &[u8],
) -> Result<(), Fault> {
    match may_be_there(alloc, files, path) {
        Ok(true) => Err(fault_of(name, FileError::NotUtf8)),
        Ok(false) => Ok(()),
        Err(error) => Err(fault_of(name, error)),
    }
}

/// Returns the bytes of a file, as [`read`] does, but fails if the path is not UTF-8.
pub(crate) fn read_listed<F: Folders, A: Allocator + Copy>(
    alloc: A,
    files: &F,
    path: &[u8],
) -> Result<Option<Vec<u8, A>>, FileError> {
    let mut bytes = Vec::new(alloc);
    match read_file(files, path, Limit::Text, &mut bytes) {
        Ok(true) => Ok(Some(bytes)),
        Ok(false) => Ok(None),
        Err(error) if is_no_file(error) => Ok(None),
        Err(error) => Err(error),
    }
}

/// Returns the bytes of a file; `None` if there is no such file. Errors have this name.
pub(crate) fn read<F: Folders, A: Allocator + Copy>(
    alloc: A,
    files: &F,
    path: &[u8],
    name: &[u8],
) -> Result<Option<Vec<u8, A>>, Fault> {
    match read_listed(alloc, files, path) {
        Ok(read) => Ok(read),
        Err(FileError::NotUtf8) => {
            ensure_missing(alloc, files, path, name)?;
            Ok(None)
        }
        Err(error) => Err(fault_of(name, error)),
    }
}
