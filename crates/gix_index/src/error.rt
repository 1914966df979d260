//! Says why an index is not read.

use std::alloc::{AllocError, AllocFailed};
use std::fmt;
use thiserror::Error as StdError;

/// Why the bytes of an index file are not read.
#[derive(Clone, Copy, Debug, Drop, StdError)]
pub enum Error {
    /// The file is shorter than a header and a checksum.
    TooShort,
    /// The file does not begin with `DIRC`.
    Signature,
    /// The version is not 2, 3 or 4.
    Version(u32),
    /// The checksum at the end is neither that of the bytes before it nor zero.
    Checksum,
    /// The entry with this number, counted from 0, is malformed or cut off.
    Entry(u32),
    /// The entry with this number, counted from 0, has a path that an index may not have, such as
    /// `../file`.
    Path(usize),
    /// The extension at this place is cut off.
    CutOff(usize),
    /// The index has this extension, which must be understood, and is not supported.
    Extension([u8; 4]),
    /// An allocation failed.
    OutOfMemory,
}

impl Error {
    /// Returns whether the file has what is not supported. Otherwise it is damaged, or an allocation
    /// failed.
    pub fn is_not_supported(&self) -> bool {
        matches!(self, Error::Version(_) | Error::Extension(_))
    }
}

impl From<AllocError> for Error {
    fn from(_e: AllocError) -> Error {
        Error::OutOfMemory
    }
}

impl<T: Drop> From<AllocFailed<T>> for Error {
    fn from(_e: AllocFailed<T>) -> Error {
        Error::OutOfMemory
    }
}

impl fmt::Display for Error {
    fn fmt<W: fmt::Write>(&self, f: &mut fmt::Formatter<W>) -> fmt::Result {
        match self {
            Error::TooShort => f.write_str("index file is too short"),
            Error::Signature => f.write_str("index file has a bad signature"),
            Error::Version(version) => write!(
                f,
                "version {version} of index files is not supported"
            ),
            Error::Checksum => f.write_str("index file has a bad checksum"),
            Error::Entry(number) => write!(f, "entry {number} of the index is malformed"),
            Error::Path(number) => write!(f, "entry {number} of the index has an invalid path"),
            Error::CutOff(at) => write!(f, "index file has an extension at {at} that is cut off"),
            Error::Extension(name) => write!(
                f,
                "extension '{}' of index files is not supported",
                str::from_utf8(name.as_slice()).unwrap_or("?"),
            ),
            Error::OutOfMemory => f.write_str("out of memory"),
        }
    }
}
