//! Reaches folders and files of the system, by `std::fs`.

ghost use Rattle.std.specs.Prelude.{◌≡◌, ◌<◌, ◌≤◌, ℕ, [], None, length, take, IfOk};
ghost use Rattle.gix_files.specs.Known.{IsPart};

use crate::{FileError, Folders, Opened};
use std::alloc::Allocator;
use std::fs::{File, Files, Metadata, OpenFile};
use std::io::{self, ErrorKind, Read};
use std::os::unix::fs::{FileExt, FileTypeExt, MetadataExt};

/// The file system. It opens only paths that are UTF-8.
#[derive(Clone, Copy, Drop)]
pub struct System<'a>(pub &'a HostRuntime);

/// Tells whether an error says that there is no such file or folder.
fn is_missing(kind: ErrorKind) -> bool {
    matches!(kind, ErrorKind::NotFound | ErrorKind::NotADirectory)
}

/// The number of the device `/dev/null` (null(4)).
const NULL_DEVICE: u64 = 0x103;

/// Fails unless something is a file, a folder or `/dev/null` (inode(7), "The file type and mode").
fn ensure_file(metadata: &Metadata) -> Result<(), FileError> {
    let is_null = metadata.file_type().is_char_device() && metadata.rdev() == NULL_DEVICE;
    if metadata.is_file() || metadata.is_dir() || is_null {
        Ok(())
    } else {
        Err(FileError::Failed(ErrorKind::NotSeekable))
    }
}

/// Returns an open file, unless something else was put in its place before it was opened.
fn opened(file: File) -> Result<Option<File>, FileError> {
    match file.metadata() {
        Ok(metadata) => ensure_file(&metadata)?,
        Err(error) => return Err(file_error(error)),
    }
    Ok(Some(file))
}

/// Returns the error of a file for one of the system.
fn file_error(error: io::Error) -> FileError {
    match error.kind() {
        ErrorKind::OutOfMemory => FileError::OutOfMemory,
        kind => FileError::Failed(kind),
    }
}

impl Opened for File {
    ghost keeps = { ⊥ };

    ghost content = { λ _. [] };

    fn size(&self) -> Result<u64, FileError> {
        match self.metadata() {
            Ok(metadata) => Ok(metadata.len()),
            Err(error) => Err(file_error(error)),
        }
    }

    fn read_part(&self, at: u64, buf: &mut [u8]) -> Result<usize, FileError>
        ensures bound { IfOk result (λ n. n ≤ length buf.new) }
        ensures bytes { ⊥ → IfOk result (λ n. IsPart [] at (take n buf.new)) }
        ensures none { ⊥ → IfOk result (λ n. n ≡ 0 → 0 < length buf.new → length {A = ℕ} [] ≤ at) }
    {
        for _ in 0..u64::MAX {
            match self.read_at(buf, at) {
                Ok(n) => return Ok(n),
                Err(error) if error.kind() == ErrorKind::Interrupted => {}
                Err(error) => return Err(file_error(error)),
            }
        }
        Ok(0)
    }
}

impl<'a> Folders for System<'a> {
    type Opened = File;

    ghost file = { λ _ _. None };

    fn open(&self, path: &[u8]) -> Result<Option<File>, FileError> {
        let Ok(path) = str::from_utf8(path) else {
            return Err(FileError::NotUtf8);
        };
        match self.0.metadata(path) {
            Ok(metadata) => ensure_file(&metadata)?,
            Err(error) if is_missing(error.kind()) => return Ok(None),
            Err(error) => return Err(file_error(error)),
        }
        match File::open(self.0, path) {
            Ok(file) => opened(file),
            Err(error) if is_missing(error.kind()) => Ok(None),
            Err(error) => Err(file_error(error)),
        }
    }

    fn link<A: Allocator>(&self, path: &[u8], text: &mut Vec<u8, A>) -> Result<bool, FileError> {
        let Ok(path) = str::from_utf8(path) else {
            return Err(FileError::NotUtf8);
        };
        match self.0.read_link(self.0.alloc(), path) {
            Ok(found) => {
                text.extend_from_slice(found.as_str().as_bytes())?;
                Ok(true)
            }
            Err(error) => match error.kind() {
                ErrorKind::NotFound | ErrorKind::InvalidInput => Ok(false),
                // Either the path is too long, or there is a link whose text is not UTF-8.
                ErrorKind::InvalidFilename => match self.0.symlink_metadata(path) {
                    Ok(_) => Err(FileError::NotUtf8),
                    Err(error) => Err(file_error(error)),
                },
                _ => Err(file_error(error)),
            },
        }
    }

    fn names<A: Allocator>(&self, path: &[u8], names: &mut Vec<u8, A>) -> Result<(), FileError> {
        let Ok(path) = str::from_utf8(path) else {
            return Err(FileError::NotUtf8);
        };
        match self.0.open_dir(path) {
            Ok(mut folder) => read_names(&mut folder, names),
            Err(error) if error.kind() == ErrorKind::NotFound => Ok(()),
            Err(error) => Err(file_error(error)),
        }
    }

    fn real_path<A: Allocator>(
        &self,
        path: &[u8],
        real: &mut Vec<u8, A>,
    ) -> Result<bool, FileError> {
        let Ok(path) = str::from_utf8(path) else {
            return Err(FileError::NotUtf8);
        };
        match self.0.canonicalize(self.0.alloc(), path) {
            Ok(found) => {
                real.extend_from_slice(found.as_str().as_bytes())?;
                Ok(true)
            }
            Err(error) if is_missing(error.kind()) => Ok(false),
            Err(error) => Err(file_error(error)),
        }
    }
}

/// Adds all names of a folder to `names`.
fn read_names<R: Read, A: Allocator>(
    folder: &mut R,
    names: &mut Vec<u8, A>,
) -> Result<(), FileError> {
    let mut buf = [0u8; 4096];
    for _ in 0..u64::MAX {
        match folder.read(&mut buf) {
            Ok(0) => break,
            Ok(n) => names.extend_from_slice(&buf[..n])?,
            Err(error) => return Err(file_error(error)),
        }
    }
    Ok(())
}
