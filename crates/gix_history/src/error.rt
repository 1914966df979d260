//! The errors of reading commits.

use gix_base::hash::ObjectId;
use std::alloc::{AllocError, AllocFailed};
use std::fmt;
use thiserror::Error as StdError;

/// Says why a commit that an answer needs was not read.
///
/// What was read until then stays, and the call can be repeated. The reader may know more about the
/// cause.
#[derive(Clone, Copy, Debug, PartialEq, Eq, Drop, StdError)]
pub enum ReadError {
    /// There is no commit with this id.
    Missing(ObjectId),
    /// The content that was found under this id has another id.
    Altered(ObjectId),
    /// The content of this id is not that of a commit.
    Malformed(ObjectId),
    /// The commit could not be read.
    Failed(ObjectId),
    /// In authentic mode, the commit did not come from the content of its id.
    NotAuthentic(ObjectId),
    /// In authentic mode, a chain of 2^32 - 2 parents leads from the commit.
    TooDeep(ObjectId),
    /// An allocation failed.
    OutOfMemory,
}

impl fmt::Display for ReadError {
    ghost use Rattle.std.specs.Prelude.{None};

    ghost output = { λ _. None };

    fn fmt<W: fmt::Write>(&self, f: &mut fmt::Formatter<W>) -> fmt::Result {
        match self {
            ReadError::Missing(id) => write!(f, "commit {id} is missing"),
            ReadError::Altered(id) => write!(f, "the content of commit {id} has another id"),
            ReadError::Malformed(id) => write!(f, "object {id} is not a well-formed commit"),
            ReadError::Failed(id) => write!(f, "commit {id} could not be read"),
            ReadError::NotAuthentic(id) => write!(f, "commit {id} is not authentic"),
            ReadError::TooDeep(id) => write!(f, "commit {id} has too many ancestors in a chain"),
            ReadError::OutOfMemory => f.write_str("out of memory"),
        }
    }
}

impl From<AllocError> for ReadError {
    fn from(_error: AllocError) -> ReadError {
        ReadError::OutOfMemory
    }
}

impl<T: Drop> From<AllocFailed<T>> for ReadError {
    fn from(_refused: AllocFailed<T>) -> ReadError {
        ReadError::OutOfMemory
    }
}
