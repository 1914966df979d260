//! Reads files whole, up to a limit.

ghost use Rattle.std.specs.Prelude.{◌≡◌, ◌<◌, ◌≤◌, ◌^◌, ◌⊎◌, [], length, cond, Some, None, IfOk, OnOk};
ghost use Rattle.gix_files.specs.Known.{IsPart};

use crate::{FileError, Folders, Opened};
use std::alloc::Allocator;
use std::io::ErrorKind;

/// Says how long a file may be that is read whole.
#[derive(Clone, Copy)]
pub enum Limit {
    /// 64 MiB, for texts such as config files, refs and reflogs.
    Text,
    /// 1 GiB, for `packed-refs`, an index and files of the working tree.
    Table,
}

impl Limit {
    /// Returns how many bytes a file has at most.
    fn bytes(self) -> u64
        ensures { result < 2 ^ 32 }
    {
        match self {
            Limit::Text => 1 << 26,
            Limit::Table => 1 << 30,
        }
    }
}

/// Reads an open file into `bytes`, until it ends or `enough` bytes were read.
fn fill<O: Opened, A: Allocator>(
    file: &O,
    enough: u64,
    bytes: &mut Vec<u8, A>,
) -> Result<(), FileError>
    requires { bytes.old.items ≡ [] }
    ensures { O.keeps → OnOk result
        ((enough ≤ length bytes.new.items) ⊎ (bytes.new.items ≡ O.content file.now)) }
{
    let mut part = [0u8; 8192];
    for _ in 0..u64::MAX {
        let at = bytes.len() as u64;
        if at >= enough {
            break;
        }
        let count = file.read_part(at, part.as_mut_slice())?;
        if count == 0 {
            break;
        }
        bytes.extend_from_slice(&part[..count])?;
    }
    Ok(())
}

/// Reads an open file into `bytes`, unless it is longer than `most` bytes.
fn read_all<O: Opened, A: Allocator>(
    file: &O,
    most: u64,
    bytes: &mut Vec<u8, A>,
) -> Result<(), FileError>
    requires small { most < 2 ^ 32 }
    requires empty { bytes.old.items ≡ [] }
    ensures { O.keeps → OnOk result (bytes.new.items ≡ O.content file.now) }
{
    if file.size()? <= most {
        fill(file, most + 1, bytes)?;
        if bytes.len() as u64 <= most {
            return Ok(());
        }
    }
    Err(FileError::Failed(ErrorKind::FileTooLarge))
}

/// Puts the bytes of a file into `bytes`, in place of what is there.
///
/// Returns `false` if there is no such file. Fails with `FileTooLarge` if it is longer than the limit,
/// and with `IsADirectory` if it is a folder.
pub fn read_file<F: Folders, A: Allocator>(
    files: &F,
    path: &[u8],
    limit: Limit,
    bytes: &mut Vec<u8, A>,
) -> Result<bool, FileError>
    // If files keep their content, `bytes` has the content of the file at the path, and the answer
    // is `false` exactly if there is no such file.
    ensures { F.Opened.keeps → IfOk result
        (λ found. F.file files.now path.now ≡ cond found (Some bytes.new.items) None) }
{
    bytes.clear();
    match files.open(path)? {
        Some(file) => {
            read_all(&file, limit.bytes(), bytes)?;
            Ok(true)
        }
        None => Ok(false),
    }
}

/// Puts the first bytes of a file into `bytes`, in place of what is there: all, or at least `enough`.
///
/// Returns `false` if there is no such file. Fails with `IsADirectory` if it is a folder.
pub fn read_front<F: Folders, A: Allocator>(
    files: &F,
    path: &[u8],
    enough: u64,
    bytes: &mut Vec<u8, A>,
) -> Result<bool, FileError> {
    bytes.clear();
    match files.open(path)? {
        Some(file) => {
            fill(&file, enough, bytes)?;
            Ok(true)
        }
        None => Ok(false),
    }
}
