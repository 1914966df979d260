//! Reaches folders and files.
//!
//! - [`Folders`] and [`Opened`] are the traits by which the crates above read files, so that a test
//!   can stand in for the file system.
//! - [`System`] implements them over the file system, [`Memory`] and [`One`] over bytes in memory.
//! - [`read_file`] is the one way by which crates read a file whole, up to a [`Limit`].
#![tactic(auto)]

ghost use Rattle.std.specs.Prelude.{◌≡◌, ◌<◌, ◌≤◌, ℕ, List, length, take, IfOk, Option};
ghost use Rattle.gix_files.specs.Known.{IsPart};
ghost use Rattle.std.specs.Option.{option_map};

mod memory;
mod system;
mod whole;

pub use memory::{Memory, One};
use std::alloc::{AllocError, AllocFailed, Allocator};
use std::io::ErrorKind;
pub use system::System;
pub use whole::{Limit, read_file, read_front};

/// Says why a file was not opened, listed or read.
#[derive(Clone, Copy)]
pub enum FileError {
    /// The system failed.
    Failed(ErrorKind),
    /// The path is not UTF-8, and `std` opens no such path; or the text of a symbolic link is not.
    NotUtf8,
    /// An allocation failed.
    OutOfMemory,
}

impl From<AllocError> for FileError {
    fn from(_e: AllocError) -> FileError {
        FileError::OutOfMemory
    }
}

impl<T: Drop> From<AllocFailed<T>> for FileError {
    fn from(_e: AllocFailed<T>) -> FileError {
        FileError::OutOfMemory
    }
}

/// An open file.
///
/// What a clause says of the bytes of a file has the premise `keeps`. In memory it holds. Of the file
/// system no proof can say so: another program may change a file while it is read.
pub trait Opened: Drop {
    // The premise: files of this kind have the bytes of `content`, and nothing changes these.
    ghost keeps: { Type 0 };

    // The bytes of a file.
    ghost content: { Self → List ℕ };

    /// Returns the length of the file in bytes.
    fn size(&self) -> Result<u64, FileError>
        // If the file keeps its content, the answer is the length of the content.
        ensures { keeps → IfOk result (λ n. n ≡ length (content self.now)) };

    /// Reads bytes from `at` on into `buf`, and returns how many. It may read fewer than there are.
    ///
    /// It should read none only if `buf` is empty or the file ends there.
    fn read_part(&self, at: u64, buf: &mut [u8]) -> Result<usize, FileError>
        // The answer is at most the length of `buf`.
        ensures bound { IfOk result (λ n. n ≤ length buf.new) }

        // If the file keeps its content, the bytes that were read are those of the content from `at`
        // on.
        ensures bytes { keeps → IfOk result (λ n. IsPart (content self.now) at (take n buf.new)) }

        // If the file keeps its content, nothing is read only if `buf` is empty or the content ends
        // at `at` or before.
        ensures none { keeps → IfOk result
            (λ n. n ≡ 0 → 0 < length buf.new → length (content self.now) ≤ at) };
}

/// Opens files and lists folders.
pub trait Folders {
    /// An open file of one of these folders.
    type Opened: Opened;

    // The bytes of the file to which a path leads; `None` if there is no such file.
    ghost file: { Self → List ℕ → Option (List ℕ) };

    /// Opens a file for reading. Returns `None` if there is no such file.
    ///
    /// Fails with `NotSeekable` if the path leads to a pipe, a socket or a device. A program may wait on
    /// these, or read them without end. `/dev/null` is opened, and has no bytes.
    fn open(&self, path: &[u8]) -> Result<Option<Self::Opened>, FileError>
        // If files keep their content, an open file has the content of the file at the path, and
        // there is none exactly if there is no file.
        ensures { Self.Opened.keeps → IfOk result
            (λ found. option_map Self.Opened.content found ≡ file self.now path.now) };

    /// Adds the text of a symbolic link to `text`.
    ///
    /// Returns `false`, and adds nothing, if there is no link at the path. Fails with `NotADirectory`
    /// if a part of the path before the last one is a file. A file system without links and without
    /// such paths needs no body of its own.
    fn link<A: Allocator>(&self, _path: &[u8], _text: &mut Vec<u8, A>) -> Result<bool, FileError> {
        Ok(false)
    }

    /// Adds the names of all entries of a folder to `names`, each ended by a zero byte.
    ///
    /// Adds none if there is no such folder. The names `.` and `..` may be among them. Fails with
    /// `NotADirectory` if there is a file in its place.
    fn names<A: Allocator>(&self, path: &[u8], names: &mut Vec<u8, A>) -> Result<(), FileError>;

    /// Adds the path of a folder to `real`, without symbolic links, so that a folder has one path.
    ///
    /// Returns `false`, and adds nothing, if there is no such folder.
    fn real_path<A: Allocator>(
        &self,
        path: &[u8],
        real: &mut Vec<u8, A>,
    ) -> Result<bool, FileError>;
}
