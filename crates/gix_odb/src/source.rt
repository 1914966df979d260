//! Reads open files, and names the file in each fault.

ghost use Rattle.std.specs.Prelude.{◌≤◌, length, IfOk};

use crate::error::{Damage, Feature, FileName};
use crate::failure::Fault;
use gix_files::{FileError, Folders, Opened};
use std::alloc::Allocator;
use std::io::ErrorKind;

/// An open file with its name.
#[derive(Drop)]
pub(crate) struct Source<O: Opened> {
    file: O,
    name: FileName,
}

/// Returns the fault of a file.
pub(crate) fn fault_of(name: FileName, error: FileError) -> Fault {
    match error {
        FileError::Failed(kind) => Fault::Failed(name, kind),
        FileError::NotUtf8 => Fault::Unsupported(name, Feature::NotUtf8),
        FileError::OutOfMemory => Fault::OutOfMemory,
    }
}

/// Opens a file; `None` if there is no such file.
pub(crate) fn open<F: Folders>(
    files: &F,
    path: &[u8],
    name: FileName,
) -> Result<Option<Source<F::Opened>>, Fault> {
    match files.open(path) {
        Ok(Some(file)) => Ok(Some(Source { file, name })),
        Ok(None) => Ok(None),
        Err(error) => Err(fault_of(name, error)),
    }
}

/// Opens a file of a pack that was listed. Fails with `NotFound` if it is gone since then.
pub(crate) fn open_listed<F: Folders>(
    files: &F,
    path: &[u8],
    name: FileName,
) -> Result<Source<F::Opened>, Fault> {
    match open(files, path, name)? {
        Some(source) => Ok(source),
        None => Err(Fault::Failed(name, ErrorKind::NotFound)),
    }
}

impl<O: Opened> Source<O> {
    /// Returns the fault that the file is damaged at a place.
    pub(crate) fn damaged(&self, at: u64, damage: Damage) -> Fault {
        Fault::Damaged(self.name, at, damage)
    }

    /// Returns the fault that the file needs a feature which is not supported.
    pub(crate) fn unsupported(&self, feature: Feature) -> Fault {
        Fault::Unsupported(self.name, feature)
    }

    /// Returns the length of the file in bytes.
    pub(crate) fn size(&self) -> Result<u64, Fault> {
        match self.file.size() {
            Ok(size) => Ok(size),
            Err(error) => Err(fault_of(self.name, error)),
        }
    }

    /// Reads bytes from `at` on into `buf`, and returns how many. Reads none only at the end.
    fn read_part(&self, at: u64, buf: &mut [u8]) -> Result<usize, Fault>
        ensures { IfOk result (λ n. n ≤ length buf.new) }
    {
        match self.file.read_part(at, buf) {
            Ok(n) => Ok(n),
            Err(error) => Err(fault_of(self.name, error)),
        }
    }

    /// Reads from `at` on until `buf` is full or the file ends, and returns how many bytes.
    pub(crate) fn fill(&self, at: u64, buf: &mut [u8]) -> Result<usize, Fault> {
        let mut done = 0usize;
        for _ in 0..u64::MAX {
            let Some(rest) = buf.get_mut(done..) else {
                break;
            };
            if rest.is_empty() {
                break;
            }
            let n = self.read_part(at.saturating_add(done as u64), rest)?;
            if n == 0 {
                break;
            }
            done = done.saturating_add(n);
        }
        Ok(done)
    }

    /// Reads up to `len` bytes from `at` on into `bytes`, in place of what is there.
    ///
    /// If the call fails, `bytes` is empty.
    pub(crate) fn read_into<A: Allocator>(
        &self,
        at: u64,
        len: usize,
        bytes: &mut Vec<u8, A>,
    ) -> Result<(), Fault> {
        bytes.resize(len, 0)?;
        let got = self.fill(at, bytes.as_mut_slice());
        bytes.truncate(got.unwrap_or(0));
        match got {
            Ok(_) => Ok(()),
            Err(fault) => Err(fault),
        }
    }
}
