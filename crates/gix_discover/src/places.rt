//! Has the trait by which discovery looks at paths, and implements it over the file system.

use gix_files::{FileError, Folders, System};
use std::fs::{Files, Metadata};
use std::io::{self, ErrorKind};
use std::os::unix::fs::MetadataExt;

/// Says what is at a path.
#[derive(Clone, Copy, PartialEq, Eq)]
pub enum PathKind {
    File,
    Folder,
    Other,
}

/// Is what the system knows of a path.
#[derive(Clone, Copy)]
pub struct Place {
    pub kind: PathKind,
    /// The number of the user to whom it belongs.
    pub owner: u32,
    /// The number of the file system on which it is.
    pub device: u64,
}

/// Looks at paths. Nothing is promised of what is there.
pub trait Places: Folders {
    /// Returns what is at a path, after symbolic links; `None` if there is nothing.
    fn place(&self, path: &[u8]) -> Result<Option<Place>, FileError>;

    /// Returns what is at a path, which may be a symbolic link; `None` if there is nothing.
    fn link_place(&self, path: &[u8]) -> Result<Option<Place>, FileError>;

    /// Returns the number of the user as whom the program runs.
    fn own_user(&self) -> Result<u32, FileError>;
}

/// Returns what the system says of a path.
fn place_of(metadata: &Metadata) -> Place {
    let kind = if metadata.is_dir() {
        PathKind::Folder
    } else if metadata.is_file() {
        PathKind::File
    } else {
        PathKind::Other
    };
    Place {
        kind,
        owner: metadata.uid(),
        device: metadata.dev(),
    }
}

/// Returns the place for an answer of the system; `None` if there is nothing at the path.
fn answered(answer: io::Result<Metadata>) -> Result<Option<Place>, FileError> {
    match answer {
        Ok(metadata) => Ok(Some(place_of(&metadata))),
        Err(error) => match error.kind() {
            ErrorKind::NotFound | ErrorKind::NotADirectory => Ok(None),
            ErrorKind::OutOfMemory => Err(FileError::OutOfMemory),
            kind => Err(FileError::Failed(kind)),
        },
    }
}

impl<'a> Places for System<'a> {
    fn place(&self, path: &[u8]) -> Result<Option<Place>, FileError> {
        match str::from_utf8(path) {
            Ok(path) => answered(self.0.metadata(path)),
            Err(_) => Err(FileError::NotUtf8),
        }
    }

    fn link_place(&self, path: &[u8]) -> Result<Option<Place>, FileError> {
        match str::from_utf8(path) {
            Ok(path) => answered(self.0.symlink_metadata(path)),
            Err(_) => Err(FileError::NotUtf8),
        }
    }

    fn own_user(&self) -> Result<u32, FileError> {
        match self.place(b"/proc/self")? {
            Some(place) => Ok(place.owner),
            None => Err(FileError::Failed(ErrorKind::NotFound)),
        }
    }
}
