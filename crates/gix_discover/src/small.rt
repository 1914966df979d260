//! Reads the small files `shallow` and `info/grafts` (gitrepository-layout).

use gix_base::hash::ObjectId;
use gix_config::{before_zero, is_blank};
use memchr::memchr;
use std::alloc::{AllocError, AllocFailed, Allocator, Global};

/// Says why a small file is not read.
#[derive(Clone, Copy)]
pub enum SmallFileError {
    /// The line with this number, counted from 1, does not begin with an id.
    BadLine(u64),
    /// An allocation failed.
    OutOfMemory,
}

impl From<AllocError> for SmallFileError {
    fn from(_e: AllocError) -> SmallFileError {
        SmallFileError::OutOfMemory
    }
}

impl<T: Drop> From<AllocFailed<T>> for SmallFileError {
    fn from(_e: AllocFailed<T>) -> SmallFileError {
        SmallFileError::OutOfMemory
    }
}

/// Is a line of `info/grafts`: a commit, and the parents that it is given.
#[derive(Drop)]
pub struct Graft<A: Allocator = Global> {
    pub id: ObjectId,
    pub parents: Vec<ObjectId, A>,
}

/// Splits a text after its first line. The line feed is in neither part.
fn split_line(text: &[u8]) -> (&[u8], &[u8]) {
    match memchr(b'\n', text) {
        Some(len) => {
            let (line, rest) = text.split_at(len.min(text.len()));
            (line, rest.get(1..).unwrap_or(&[]))
        }
        None => (text, &[]),
    }
}

/// Returns the id with whose digits a text begins.
fn front_id(text: &[u8]) -> Option<ObjectId> {
    let digits = text.get(..40)?;
    match ObjectId::from_hex(digits) {
        Ok(id) => Some(id),
        Err(_) => None,
    }
}

/// Returns the ids of a file `shallow`, in their order.
///
/// Each line begins with the 40 digits of an id. What follows them on the line is passed over, as
/// in git.
///
/// # Errors
///
/// - `BadLine` if a line begins with no id. An empty line is such a line.
/// - `OutOfMemory` if an allocation failed.
pub fn shallow<A: Allocator>(alloc: A, text: &[u8]) -> Result<Vec<ObjectId, A>, SmallFileError> {
    let mut ids = Vec::new(alloc);
    let mut rest = text;
    for number in 1..u64::MAX {
        if rest.is_empty() {
            break;
        }
        let (line, after) = split_line(rest);
        match front_id(line) {
            Some(id) => ids.push(id)?,
            None => return Err(SmallFileError::BadLine(number)),
        }
        rest = after;
    }
    Ok(ids)
}

/// Reads ids, each after a blank, and adds them. Returns `false` if there is something else.
fn add_ids<A: Allocator>(text: &[u8], ids: &mut Vec<ObjectId, A>) -> Result<bool, AllocError> {
    let mut rest = text;
    for _ in 0..text.len() {
        let Some((byte, after)) = rest.split_first() else {
            break;
        };
        match front_id(after) {
            Some(id) if is_blank(*byte) => ids.push(id)?,
            _ => return Ok(false),
        }
        rest = after.get(40..).unwrap_or(&[]);
    }
    Ok(true)
}

/// Reads a line of `info/grafts`; `None` if git does not take it.
fn read_graft<A: Allocator>(alloc: A, line: &[u8]) -> Result<Option<Graft<A>>, AllocError> {
    let Some(id) = front_id(line) else {
        return Ok(None);
    };
    let mut parents = Vec::new(alloc);
    if add_ids(line.get(40..).unwrap_or(&[]), &mut parents)? {
        Ok(Some(Graft { id, parents }))
    } else {
        Ok(None)
    }
}

/// Returns a line without blanks at its end.
fn without_blanks(line: &[u8]) -> &[u8] {
    let mut rest = line;
    for _ in 0..line.len() {
        match rest.split_last() {
            Some((byte, before)) if is_blank(*byte) => rest = before,
            _ => break,
        }
    }
    rest
}

/// Returns the lines of a file `info/grafts`, in their order.
///
/// Comments, empty lines and malformed lines are passed over, as in git. If two lines are about one
/// commit, git takes the first.
///
/// # Errors
///
/// Fails if an allocation failed.
pub fn grafts<A: Allocator + Copy>(alloc: A, text: &[u8]) -> Result<Vec<Graft<A>, A>, AllocError> {
    let mut list = Vec::new(alloc);
    let mut rest = text;
    for _ in 0..text.len() {
        if rest.is_empty() {
            break;
        }
        let (line, after) = split_line(rest);
        // git ends a line at its first zero byte, once it has dropped the blanks at its end.
        if let Some(graft) = read_graft(alloc, before_zero(without_blanks(line)))? {
            list.push(graft)?;
        }
        rest = after;
    }
    Ok(list)
}
