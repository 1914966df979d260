//! Finds the `objects` folders of a store (gitrepository-layout, "objects/info/alternates").

mod text;

use crate::error::{FileKind, FileName};
use crate::failure::Fault;
use crate::paths::joined;
use crate::source::fault_of;
use gix_files::{Folders, Limit, read_file};
use std::alloc::Allocator;
use std::collections::BTreeSet;
use text::next_path;

/// How many times an alternate's own alternates are followed, as in git.
const MOST_LEVELS: u32 = 5;

/// The path of an `objects` folder, and how many alternates lead to it from the first one.
#[derive(Drop)]
pub(crate) struct Folder<A: Allocator> {
    pub(crate) path: Vec<u8, A>,
    level: u32,
    /// Tells whether the system reaches the folder.
    pub(crate) is_reached: bool,
}

/// The `objects` folders of a store, and the first fault of those that could not be read.
#[derive(Drop)]
pub(crate) struct Found<A: Allocator> {
    pub(crate) folders: Vec<Folder<A>, A>,
    /// The paths of the alternates that are reached.
    pub(crate) paths: BTreeSet<Vec<u8, A>, A>,
    pub(crate) fault: Option<Fault>,
}

/// Remembers the first fault, and goes on. Memory is not passed over.
pub(crate) fn pass_over(first: &mut Option<Fault>, done: Result<(), Fault>) -> Result<(), Fault> {
    match done {
        Ok(()) => Ok(()),
        Err(Fault::OutOfMemory) => Err(Fault::OutOfMemory),
        Err(fault) => {
            if first.is_none() {
                *first = Some(fault);
            }
            Ok(())
        }
    }
}

impl<A: Allocator + Copy> Found<A> {
    /// Adds a folder.
    fn push(&mut self, path: Vec<u8, A>, level: u32, is_reached: bool) -> Result<(), Fault> {
        self.folders.push(Folder {
            path,
            level,
            is_reached,
        })?;
        Ok(())
    }

    /// Tells whether a path is new, and notes it.
    fn note(&mut self, alloc: A, path: &[u8]) -> Result<bool, Fault> {
        Ok(self.paths.insert(path.to_vec(alloc)?)?)
    }

    /// Returns the name of the folder that is added next.
    fn next_name(&self) -> FileName {
        FileName {
            folder: self.folders.len(),
            kind: FileKind::Objects,
        }
    }

    /// Adds the folder on which the store is opened, even if it does not exist.
    fn add_first<F: Folders>(&mut self, alloc: A, files: &F, path: &[u8]) -> Result<(), Fault> {
        let mut real = Vec::new(alloc);
        match files.real_path(path, &mut real) {
            Ok(true) => {
                self.note(alloc, &real)?;
                self.push(real, 0, true)
            }
            Ok(false) => self.push(path.to_vec(alloc)?, 0, true),
            Err(error) => Err(fault_of(self.next_name(), error)),
        }
    }

    /// Adds the alternate with this path, unless it is there or does not exist.
    ///
    /// One that the system does not reach is added as such, and its fault is remembered.
    fn add<F: Folders>(
        &mut self,
        alloc: A,
        files: &F,
        path: &[u8],
        level: u32,
    ) -> Result<(), Fault> {
        let mut real = Vec::new(alloc);
        match files.real_path(path, &mut real) {
            Ok(true) => {
                if self.note(alloc, &real)? {
                    self.push(real, level, true)?;
                }
                Ok(())
            }
            Ok(false) => Ok(()),
            Err(error) => {
                let fault = fault_of(self.next_name(), error);
                pass_over(&mut self.fault, Err(fault))?;
                self.push(path.to_vec(alloc)?, level, false)
            }
        }
    }

    /// Adds the alternate that a path in `info/alternates` of a folder names. An empty path names
    /// none.
    fn add_named<F: Folders>(
        &mut self,
        alloc: A,
        files: &F,
        from: usize,
        path: &[u8],
    ) -> Result<(), Fault> {
        let Some(folder) = self.folders.get(from) else {
            return Ok(());
        };
        let level = folder.level.saturating_add(1);
        let path = match path {
            [] => return Ok(()),
            [b'/', ..] => path.to_vec(alloc)?,
            _ => joined(alloc, &folder.path, b"/", path, b"")?,
        };
        self.add(alloc, files, &path, level)
    }

    /// Adds the alternates that a folder names. Remembers the fault if they cannot be read.
    fn add_alternates<F: Folders>(
        &mut self,
        alloc: A,
        files: &F,
        from: usize,
    ) -> Result<(), Fault> {
        let mut text = Vec::new(alloc);
        let read = read_alternates(alloc, files, &self.folders, from, &mut text);
        pass_over(&mut self.fault, read)?;
        let mut rest = text.as_slice();
        for _ in 0..text.len() {
            if rest.is_empty() {
                break;
            }
            let (path, after) = next_path(alloc, rest)?;
            self.add_named(alloc, files, from, &path)?;
            rest = after;
        }
        Ok(())
    }
}

/// Reads `info/alternates` of a folder into `text`, up to a byte 0; none if there is no such file.
fn read_alternates<F: Folders, A: Allocator + Copy>(
    alloc: A,
    files: &F,
    folders: &[Folder<A>],
    from: usize,
    text: &mut Vec<u8, A>,
) -> Result<(), Fault> {
    let Some(folder) = folders.get(from) else {
        return Ok(());
    };
    if folder.level > MOST_LEVELS || !folder.is_reached {
        return Ok(());
    }
    let name = FileName {
        folder: from,
        kind: FileKind::Alternates,
    };
    let path = joined(alloc, &folder.path, b"/info/alternates", b"", b"")?;
    if let Err(error) = read_file(files, &path, Limit::Text, text) {
        text.clear();
        return Err(fault_of(name, error));
    }
    let len = text.iter().position(|b| *b == 0).unwrap_or(text.len());
    text.truncate(len);
    Ok(())
}

/// Returns the folder with this path, then those with the paths of `more`, then their alternates.
///
/// Each folder is there once. The alternates that a folder names come before those that these name.
/// An alternate that does not exist is left out.
pub(crate) fn folders<F: Folders, A: Allocator + Copy>(
    alloc: A,
    files: &F,
    path: &[u8],
    more: &[&[u8]],
) -> Result<Found<A>, Fault> {
    let mut found = Found {
        folders: Vec::new(alloc),
        paths: BTreeSet::new(alloc),
        fault: None,
    };
    found.add_first(alloc, files, path)?;
    for path in more {
        found.add(alloc, files, path, 1)?;
    }
    for from in 0..usize::MAX {
        if from >= found.folders.len() {
            break;
        }
        found.add_alternates(alloc, files, from)?;
    }
    Ok(found)
}
