//! The reasons why a reference is not read.

ghost use Rattle.gix_ref.specs.Errors.{IsFileError};

use std::alloc::{AllocError, AllocFailed};
use std::fmt;
use std::io::ErrorKind;
use thiserror::Error as StdError;

/// How many bytes of a name an error keeps.
const KEPT: usize = 200;

/// Names a reference, a file or a folder in an error: its first 200 bytes, if it is longer.
#[derive(Clone, Copy, Debug)]
pub struct ErrorName {
    bytes: [u8; KEPT],
    len: usize,
}

impl ErrorName {
    /// Returns the name with these bytes.
    pub(crate) fn new(name: &[u8]) -> ErrorName {
        let mut bytes = [0u8; KEPT];
        for (to, from) in bytes.iter_mut().zip(name.iter()) {
            *to = *from;
        }
        ErrorName {
            bytes,
            len: name.len().min(KEPT),
        }
    }

    /// Returns the bytes of the name.
    pub fn as_bytes(&self) -> &[u8] {
        self.bytes.get(..self.len).unwrap_or(&[])
    }

    /// Returns the name as text; `?` if it is not UTF-8.
    fn as_str(&self) -> &str {
        match str::from_utf8(self.as_bytes()) {
            Ok(text) => text,
            Err(_) => "?",
        }
    }
}

/// Why a reference or a reflog is not read.
#[derive(Clone, Copy, Debug, Drop, StdError)]
pub enum Error {
    /// The system failed to open, list or read the file or folder with this name.
    Failed(ErrorName, ErrorKind),
    /// The path of the reference is not UTF-8, and `std` opens no such path.
    NotUtf8(ErrorName),
    /// The file with this name is not as git writes it: `packed-refs` has a name twice, or there is
    /// another `commondir`.
    Damaged(ErrorName),
    /// A line of `packed-refs` has another form than git writes: the path, a colon, and the line.
    Unexpected(ErrorName),
    /// The file of this reference says neither an id nor the name of a reference.
    Broken(ErrorName),
    /// The reference is symbolic, and no id is found among the first five references.
    TooDeep(ErrorName),
    /// An allocation failed.
    OutOfMemory,
}

impl fmt::Display for Error {
    fn fmt<W: fmt::Write>(&self, f: &mut fmt::Formatter<W>) -> fmt::Result {
        match self {
            Error::Failed(name, kind) => write!(f, "cannot read '{}': {kind}", name.as_str()),
            Error::NotUtf8(name) => {
                write!(f, "unsupported: name '{}' is not UTF-8", name.as_str())
            }
            Error::Damaged(name) => write!(f, "'{}' is damaged", name.as_str()),
            Error::Unexpected(name) => write!(f, "unexpected line in {}", name.as_str()),
            Error::Broken(name) => write!(f, "broken reference '{}'", name.as_str()),
            Error::TooDeep(name) => {
                write!(
                    f,
                    "more than five symbolic references from '{}'",
                    name.as_str()
                )
            }
            Error::OutOfMemory => f.write_str("out of memory"),
        }
    }
}

/// Why a file was not read, or memory not allocated. It is an error for the caller.
#[derive(Clone, Copy)]
pub(crate) enum Fault {
    Failed(ErrorName, ErrorKind),
    NotUtf8(ErrorName),
    Damaged(ErrorName),
    Unexpected(ErrorName),
    OutOfMemory,
}

impl From<AllocError> for Fault {
    fn from(_e: AllocError) -> Fault {
        Fault::OutOfMemory
    }
}

impl<T: Drop> From<AllocFailed<T>> for Fault {
    fn from(_e: AllocFailed<T>) -> Fault {
        Fault::OutOfMemory
    }
}

impl Fault {
    /// Returns the error for a fault.
    pub(crate) fn error(self) -> Error
        ensures { IsFileError result }
    {
        match self {
            Fault::Failed(name, kind) => Error::Failed(name, kind),
            Fault::NotUtf8(name) => Error::NotUtf8(name),
            Fault::Damaged(name) => Error::Damaged(name),
            Fault::Unexpected(name) => Error::Unexpected(name),
            Fault::OutOfMemory => Error::OutOfMemory,
        }
    }
}
