//! Reads open files, and names the file in each error.

ghost use Rattle.std.specs.Prelude.{◌≡◌, ◌≤◌, length, take, IfOk};
ghost use Rattle.gix_files.specs.Known.{IsPart};

use crate::error::{Damage, Error, Feature, GraphFile, error_of};
use gix_files::{Folders, Opened};
use std::alloc::Allocator;

/// Is an open file with its name.
#[derive(Drop)]
pub(crate) struct Source<O: Opened> {
    file: O,
    name: GraphFile,
}

/// Opens a file; `None` if there is no such file.
pub(crate) fn open<F: Folders>(
    files: &F,
    path: &[u8],
    name: GraphFile,
) -> Result<Option<Source<F::Opened>>, Error> {
    match files.open(path) {
        Ok(Some(file)) => Ok(Some(Source { file, name })),
        Ok(None) => Ok(None),
        Err(error) => Err(error_of(name, error)),
    }
}

impl<O: Opened> Source<O> {
    /// Returns the name of the file.
    pub(crate) fn name(&self) -> GraphFile {
        self.name
    }

    /// Returns the error that the file is damaged at a place.
    pub(crate) fn damaged(&self, at: u64, damage: Damage) -> Error {
        Error::Damaged(self.name, at, damage)
    }

    /// Returns the error that the file needs a feature which is not supported.
    pub(crate) fn unsupported(&self, feature: Feature) -> Error {
        Error::Unsupported(self.name, feature)
    }

    /// Returns the length of the file in bytes.
    pub(crate) fn size(&self) -> Result<u64, Error>
        ensures { O.keeps → IfOk result (λ n. n ≡ length (O.content self.now.file)) }
    {
        match self.file.size() {
            Ok(size) => Ok(size),
            Err(error) => Err(error_of(self.name, error)),
        }
    }

    /// Reads bytes from `at` on into `buf`, and returns how many. Reads none only at the end.
    fn read_part(&self, at: u64, buf: &mut [u8]) -> Result<usize, Error>
        ensures bound { IfOk result (λ n. n ≤ length buf.new) }
        ensures bytes { O.keeps → IfOk result
            (λ n. IsPart (O.content self.now.file) at (take n buf.new)) }
    {
        match self.file.read_part(at, buf) {
            Ok(n) => Ok(n),
            Err(error) => Err(error_of(self.name, error)),
        }
    }

    /// Reads from `at` on until `buf` is full or the file ends, and returns how many bytes.
    fn fill(&self, at: u64, buf: &mut [u8]) -> Result<usize, Error>
        ensures bound { IfOk result (λ n. n ≤ length buf.new) }
        ensures bytes { O.keeps → IfOk result
            (λ n. IsPart (O.content self.now.file) at (take n buf.new)) }
    {
        let mut done = 0usize;
        for _ in 0..u64::MAX {
            if done == buf.len() {
                break;
            }
            let Some(place) = at.checked_add(done as u64) else {
                break;
            };
            let n = self.read_part(place, &mut buf[done..])?;
            if n == 0 {
                break;
            }
            done += n;
        }
        Ok(done)
    }

    /// Reads up to `len` bytes from `at` on into `bytes`, in place of what is there.
    ///
    /// If the call fails, `bytes` is empty.
    pub(crate) fn read_into<A: Allocator>(
        &self,
        at: u64,
        len: usize,
        bytes: &mut Vec<u8, A>,
    ) -> Result<(), Error>
        ensures most { length bytes.new.items ≤ len }
        ensures part { O.keeps → IsPart (O.content self.now.file) at bytes.new.items }
    {
        bytes.clear();
        bytes.resize(len, 0)?;
        let got = self.fill(at, bytes.as_mut_slice());
        bytes.truncate(got.unwrap_or(0));
        match got {
            Ok(_) => Ok(()),
            Err(error) => Err(error),
        }
    }
}
