//! Says why a word ends without its answer.

use gix_base::hash::ObjectId;
use gix_discover::{DiscoverError, Reason};
use gix_files::FileError;
use gix_repository::Refusal;
use std::alloc::{AllocError, AllocFailed, Global};
use std::io::Write;

/// The status of git if it is asked for what is not there.
pub const FATAL: u8 = 128;

/// Says why the program ends by itself, where git has no such end.
#[derive(Clone, Copy, PartialEq, Eq)]
pub enum Cause {
    /// The question is not supported. git may answer it.
    NotSupported,
    /// There is no question that git could answer.
    NoQuestion,
    /// Something is damaged or has changed, or the program itself failed.
    Failure,
}

impl Cause {
    /// Returns the status of the program.
    pub fn status(self) -> u8 {
        match self {
            Cause::NotSupported | Cause::NoQuestion => 129,
            Cause::Failure => 125,
        }
    }
}

/// Says why a word ends without its answer.
#[derive(Drop)]
pub enum Stop {
    /// git ends with these lines and the status 128.
    Fatal(Vec<u8>),
    /// git ends with this status, and what it says is among the messages already.
    Said(u8),
    /// The program ends by itself, with this message.
    Ended(Cause, Vec<u8>),
    /// The repository does not read something that the answer needs.
    Refused(Refusal),
    /// An allocation failed.
    OutOfMemory,
}

impl From<AllocError> for Stop {
    fn from(_e: AllocError) -> Stop {
        Stop::OutOfMemory
    }
}

impl<T: Drop> From<AllocFailed<T>> for Stop {
    fn from(_e: AllocFailed<T>) -> Stop {
        Stop::OutOfMemory
    }
}

/// Returns the bytes of all parts, one after another.
pub fn joined(alloc: Global, parts: &[&[u8]]) -> Result<Vec<u8>, AllocError> {
    let mut text = Vec::new(alloc);
    for part in parts {
        text.extend_from_slice(part)?;
    }
    Ok(text)
}

/// Returns git's end with a message of these parts: `fatal: ..`.
pub fn fatal(alloc: Global, parts: &[&[u8]]) -> Stop {
    match joined(alloc, parts) {
        Ok(text) => Stop::Fatal(text),
        Err(_) => Stop::OutOfMemory,
    }
}

/// Returns the program's own end with a message of these parts.
fn ended(alloc: Global, cause: Cause, parts: &[&[u8]]) -> Stop {
    match joined(alloc, parts) {
        Ok(text) => Stop::Ended(cause, text),
        Err(_) => Stop::OutOfMemory,
    }
}

/// Returns the end for what is not supported. The message of these parts names it.
pub fn not_supported(alloc: Global, parts: &[&[u8]]) -> Stop {
    ended(alloc, Cause::NotSupported, parts)
}

/// Returns the end for words that are no question.
pub fn no_question(alloc: Global, parts: &[&[u8]]) -> Stop {
    ended(alloc, Cause::NoQuestion, parts)
}

/// Returns the end for what is damaged or has changed, or for a failure of the program.
pub fn failed(alloc: Global, parts: &[&[u8]]) -> Stop {
    ended(alloc, Cause::Failure, parts)
}

/// Returns the end for an object that is missing.
pub fn missing(id: ObjectId) -> Stop {
    Stop::Refused(Refusal::Object(gix_odb::Error::Missing(id)))
}

/// Returns the end for a file or folder that was not read.
pub fn unread(alloc: Global, path: &[u8], error: FileError) -> Stop {
    let kind = match error {
        FileError::Failed(kind) => kind,
        FileError::NotUtf8 => {
            return not_supported(
                alloc,
                &[b"'", path, b"': paths that are not UTF-8 are not supported"],
            );
        }
        FileError::OutOfMemory => return Stop::OutOfMemory,
    };
    let mut reason = Vec::new(alloc);
    match write!(reason, "{kind}") {
        Ok(()) => failed(alloc, &[b"cannot read '", path, b"': ", &reason]),
        Err(_) => Stop::OutOfMemory,
    }
}

/// Returns the end for a repository, or for settings, that are refused.
pub fn refused(alloc: Global, error: &DiscoverError) -> Stop {
    let cause = if error.reason.is_not_supported() {
        Cause::NotSupported
    } else {
        Cause::Failure
    };
    let mut text = Vec::new(alloc);
    match write!(text, "{error}") {
        Ok(()) if !matches!(error.reason, Reason::OutOfMemory) => Stop::Ended(cause, text),
        _ => Stop::OutOfMemory,
    }
}

impl From<Refusal> for Stop {
    /// Returns the end for a refusal after which no other text is tried.
    fn from(refusal: Refusal) -> Stop {
        match refusal {
            Refusal::OutOfMemory => Stop::OutOfMemory,
            Refusal::Fatal => Stop::Said(FATAL),
            refusal => Stop::Refused(refusal),
        }
    }
}
