//! Has the bytes of files in memory.

ghost use Rattle.std.specs.Prelude.{Some, None, cond, nat_eq, ⊤};
ghost use Rattle.std.specs.List.{ends_with};

use crate::{FileError, Folders, Opened};
use std::alloc::Allocator;

/// An open file whose bytes are in memory, and do not change.
#[derive(Clone, Copy, Drop)]
pub struct Memory<'a> {
    pub bytes: &'a [u8],
    /// How many bytes one reading returns at most. 0 counts as 1.
    pub most: usize,
}

impl<'a> Opened for Memory<'a> {
    ghost keeps = { ⊤ };

    ghost content = { λ f. f.bytes.now };

    fn size(&self) -> Result<u64, FileError> {
        Ok(self.bytes.len() as u64)
    }

    fn read_part(&self, at: u64, buf: &mut [u8]) -> Result<usize, FileError> {
        let rest = self.bytes.get(at as usize..).unwrap_or(&[]);
        let n = rest.len().min(buf.len()).min(self.most.max(1));
        buf[..n].copy_from_slice(&rest[..n]);
        Ok(n)
    }
}

/// A folder with one file: each path that ends in its name leads to it.
#[derive(Clone, Copy, Drop)]
pub struct One<'a> {
    pub name: &'a [u8],
    pub file: Memory<'a>,
}

impl<'a> Folders for One<'a> {
    type Opened = Memory<'a>;

    ghost file = { λ f path. cond (ends_with nat_eq path f.name.now) (Some f.file.bytes.now) None };

    fn open(&self, path: &[u8]) -> Result<Option<Memory<'a>>, FileError> {
        Ok(path.ends_with(self.name).then_some(self.file))
    }

    fn names<A: Allocator>(&self, _path: &[u8], _names: &mut Vec<u8, A>) -> Result<(), FileError> {
        Ok(())
    }

    fn real_path<A: Allocator>(
        &self,
        _path: &[u8],
        _real: &mut Vec<u8, A>,
    ) -> Result<bool, FileError> {
        Ok(false)
    }
}
