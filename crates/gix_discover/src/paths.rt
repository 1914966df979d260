//! Joins and takes apart paths.

use memchr::memrchr;
use std::alloc::{AllocError, Allocator};

/// Tells whether a path is absolute.
pub(crate) fn is_absolute(path: &[u8]) -> bool {
    path.first() == Some(&b'/')
}

/// Joins a folder, text to put between, and a name.
pub(crate) fn joined<A: Allocator>(
    alloc: A,
    folder: &[u8],
    between: &[u8],
    name: &[u8],
) -> Result<Vec<u8, A>, AllocError> {
    let mut path = Vec::new(alloc);
    path.extend_from_slice(folder)?;
    path.extend_from_slice(between)?;
    path.extend_from_slice(name)?;
    Ok(path)
}

/// Returns the path of a name in a folder. A folder without a name is the current one.
pub(crate) fn within<A: Allocator>(
    alloc: A,
    folder: &[u8],
    name: &[u8],
) -> Result<Vec<u8, A>, AllocError> {
    match folder.last() {
        None | Some(b'/') => joined(alloc, folder, b"", name),
        Some(_) => joined(alloc, folder, b"/", name),
    }
}

/// Returns the path that a text in a folder means: the text if it is absolute.
pub(crate) fn resolved<A: Allocator>(
    alloc: A,
    folder: &[u8],
    path: &[u8],
) -> Result<Vec<u8, A>, AllocError> {
    if is_absolute(path) {
        path.to_vec(alloc)
    } else {
        within(alloc, folder, path)
    }
}

/// Returns the bytes before the last slash of a path, and the slash; empty if there is none.
pub(crate) fn folder_of(path: &[u8]) -> &[u8] {
    match memrchr(b'/', path) {
        Some(at) => path.get(..at.saturating_add(1)).unwrap_or(path),
        None => b"",
    }
}

/// Returns a text without the line feeds and carriage returns at its end.
pub(crate) fn without_line_end(text: &[u8]) -> &[u8] {
    let mut rest = text;
    for _ in 0..text.len() {
        match rest.split_last() {
            Some((b'\n' | b'\r', before)) => rest = before,
            _ => break,
        }
    }
    rest
}

/// Returns the absolute path of a path, by the path of the current folder, without `.` and `..`.
pub(crate) fn absolute<A: Allocator>(
    alloc: A,
    current: &[u8],
    path: &[u8],
) -> Result<Vec<u8, A>, AllocError> {
    let mut whole = Vec::new(alloc);
    if !is_absolute(path) {
        whole.extend_from_slice(current)?;
    }
    for name in path.split(|b| *b == b'/') {
        if name == b"..".as_slice() {
            let len = folder_of(&whole).len().saturating_sub(1);
            whole.truncate(len);
        } else if !name.is_empty() && name != b".".as_slice() {
            if !whole.ends_with(b"/") {
                whole.push(b'/')?;
            }
            whole.extend_from_slice(name)?;
        }
    }
    if whole.is_empty() {
        whole.push(b'/')?;
    }
    Ok(whole)
}
