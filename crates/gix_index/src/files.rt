//! The trait by which an index is compared with files, implemented over the file system.

ghost use Rattle.std.specs.Prelude.{◌≡◌, ◌%◌, ◌^◌};

use crate::status::Status;
use gix_files::{FileError, Folders, System};
use std::fs::{Files, Metadata};
use std::io::{self, ErrorKind};
use std::os::unix::fs::MetadataExt;

/// Looks at files. Nothing is promised of what is there.
pub trait Statuses: Folders {
    /// Returns what the system says of a path, which may be a symbolic link; `None` if there is
    /// nothing.
    fn status(&self, path: &[u8]) -> Result<Option<Status>, FileError>;
}

/// Returns a number modulo 2^32.
fn low(number: u64) -> u32
    ensures { result ≡ number % 2 ^ 32 }
{
    (number % 0x1_0000_0000) as u32
}

/// Returns the status for what the system says.
fn status_of(metadata: &Metadata) -> Status {
    Status {
        mode: metadata.mode(),
        size: low(metadata.size()),
        mtime: low(metadata.mtime().cast_unsigned()),
        mtime_nanos: low(metadata.mtime_nsec().cast_unsigned()),
        ctime: low(metadata.ctime().cast_unsigned()),
        ctime_nanos: low(metadata.ctime_nsec().cast_unsigned()),
        ino: low(metadata.ino()),
        uid: metadata.uid(),
        gid: metadata.gid(),
    }
}

/// Returns the error of a file for one of the system.
fn file_error(error: io::Error) -> FileError {
    match error.kind() {
        ErrorKind::OutOfMemory => FileError::OutOfMemory,
        kind => FileError::Failed(kind),
    }
}

impl<'a> Statuses for System<'a> {
    fn status(&self, path: &[u8]) -> Result<Option<Status>, FileError> {
        let Ok(path) = str::from_utf8(path) else {
            return Err(FileError::NotUtf8);
        };
        match self.0.symlink_metadata(path) {
            Ok(metadata) => Ok(Some(status_of(&metadata))),
            Err(error) => match error.kind() {
                ErrorKind::NotFound | ErrorKind::NotADirectory => Ok(None),
                _ => Err(file_error(error)),
            },
        }
    }
}
