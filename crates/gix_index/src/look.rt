//! Compares entries of an index with the files of a working tree.

use crate::attributes::{Conversion, add_conversion};
use crate::compare::{Change, Checks};
use crate::entry::Entry;
use crate::files::Statuses;
use crate::mode::FileKind;
use crate::status::Status;
use gix_base::hash::ObjectId;
use gix_base::object::Kind;
use gix_files::{FileError, Limit, read_file};
use gix_object::object_id;
use memchr::memrchr;
use std::alloc::{AllocError, Allocator, Global};

/// The name of a file of attributes.
const ATTRIBUTES: &[u8] = b".gitattributes";

/// Says how a file and its entry compare.
#[derive(Clone, Copy, PartialEq, Eq)]
pub enum Look {
    /// The file is that of the entry.
    Kept,
    /// It is another one.
    Changed,
    /// There is no such file.
    Missing,
    /// Only git decides.
    Undecided,
}

/// A working tree whose files are compared with an index.
#[derive(Drop)]
pub struct WorkTree<F: Statuses + Copy + Drop, A: Allocator + Copy = Global> {
    alloc: A,
    files: F,
    /// The top folder, with a slash at its end; empty if it is the current one.
    top: Vec<u8, A>,
    checks: Checks,
    /// Whether symbolic links are links there (git-config, "core.symlinks").
    has_links: bool,
    /// When the index was written, in seconds.
    written: u32,
    /// What may be done to any file.
    conversion: Conversion,
    /// The last folder that was looked at. It is no symbolic link, nor is any above it.
    real: Vec<u8, A>,
    /// The folder of the file that was read last, and what may be done to its files.
    known: Option<(Vec<u8, A>, Conversion)>,
}

/// Returns the path before the last slash; `None` if there is none.
fn folder_of(path: &[u8]) -> Option<&[u8]> {
    let at = memrchr(b'/', path)?;
    path.get(..at)
}

/// Returns the path behind the last slash.
fn name_of(path: &[u8]) -> &[u8] {
    match memrchr(b'/', path) {
        Some(at) => path.get(at.saturating_add(1)..).unwrap_or(&[]),
        None => path,
    }
}

/// Tests whether a folder is another one, or above it.
fn is_above(folder: &[u8], other: &[u8]) -> bool {
    match other.strip_prefix(folder) {
        Some(rest) => rest.is_empty() || rest.starts_with(b"/"),
        None => false,
    }
}

/// Tests whether git reads a file although all is as noted: it was changed when the index was
/// written, or later (git-update-index, "Notes").
fn is_racy<A: Allocator>(entry: &Entry<A>, written: u32) -> bool {
    written != 0 && written <= entry.stat.mtime
}

/// Tests whether the parts of seconds are as noted.
fn has_same_nanos<A: Allocator>(entry: &Entry<A>, status: &Status, checks: Checks) -> bool {
    entry.stat.mtime_nanos == status.mtime_nanos
        && (!checks.owner || !checks.ctime || entry.stat.ctime_nanos == status.ctime_nanos)
}

/// Returns how an entry and its file compare, by the id of its content.
fn by_content(wanted: ObjectId, found: Option<ObjectId>) -> Look {
    match found {
        Some(id) if id == wanted => Look::Kept,
        Some(_) => Look::Changed,
        None => Look::Undecided,
    }
}

impl<F: Statuses + Copy + Drop, A: Allocator + Copy> WorkTree<F, A> {
    /// Returns the working tree below a folder; empty is the current one.
    ///
    /// `written` is when the index was written, in seconds since the Unix epoch modulo 2^32, and 0 if
    /// there is no index file. `conversion` is what git may do to any file by its settings.
    ///
    /// # Errors
    ///
    /// [`AllocError`]: an allocation failed.
    pub fn new(
        alloc: A,
        files: F,
        top: &[u8],
        checks: Checks,
        has_links: bool,
        written: u32,
        conversion: Conversion,
    ) -> Result<WorkTree<F, A>, AllocError> {
        let mut path = top.to_vec(alloc)?;
        if !top.is_empty() && !top.ends_with(b"/") {
            path.push(b'/')?;
        }
        Ok(WorkTree {
            alloc,
            files,
            top: path,
            checks,
            has_links,
            written,
            conversion,
            real: Vec::new(alloc),
            known: None,
        })
    }

    /// Returns the path at which a file is opened.
    fn path(&self, folder: &[u8], name: &[u8]) -> Result<Vec<u8, A>, AllocError> {
        let mut path = self.top.as_slice().to_vec(self.alloc)?;
        path.extend_from_slice(folder)?;
        path.extend_from_slice(name)?;
        Ok(path)
    }

    /// Returns what the system says of a path.
    fn status(&self, path: &[u8]) -> Result<Option<Status>, FileError> {
        let path = self.path(path, b"")?;
        self.files.status(&path)
    }

    /// Returns whether a path is a folder, and no symbolic link.
    fn is_folder(&self, path: &[u8]) -> Result<bool, FileError> {
        match self.status(path)? {
            Some(status) => Ok(FileKind::of(status.mode) == FileKind::Folder),
            None => Ok(false),
        }
    }

    /// Returns whether all folders above a path are there, and none is a symbolic link.
    fn is_reached(&mut self, path: &[u8]) -> Result<bool, FileError> {
        for at in 0..path.len() {
            let folder = path.get(..at).unwrap_or(&[]);
            if path.get(at) != Some(&b'/') || is_above(folder, &self.real) {
                continue;
            }
            if !self.is_folder(folder)? {
                return Ok(false);
            }
        }
        self.real.clear();
        self.real.extend_from_slice(folder_of(path).unwrap_or(&[]))?;
        Ok(true)
    }

    /// Returns what the system says of the file of an entry; `None` if it is not there.
    fn file(&mut self, path: &[u8]) -> Result<Option<Status>, FileError> {
        if !self.is_reached(path)? {
            return Ok(None);
        }
        self.status(path)
    }

    /// Returns what may be done to the files in a folder, by the attributes in it and above it.
    fn read_attributes(&self, folder: Option<&[u8]>) -> Result<Conversion, FileError> {
        let path = self.path(b"", ATTRIBUTES)?;
        let mut conversion = add_conversion(self.alloc, &self.files, &path, self.conversion)?;
        let Some(folder) = folder else {
            return Ok(conversion);
        };
        for at in 1..folder.len().saturating_add(1) {
            if at != folder.len() && folder.get(at) != Some(&b'/') {
                continue;
            }
            let mut path = self.path(folder.get(..at).unwrap_or(&[]), b"/")?;
            path.extend_from_slice(ATTRIBUTES)?;
            conversion = add_conversion(self.alloc, &self.files, &path, conversion)?;
        }
        Ok(conversion)
    }

    /// Returns what may be done to a file.
    fn conversion_of(&mut self, path: &[u8]) -> Result<Conversion, FileError> {
        if self.conversion == Conversion::Any {
            return Ok(Conversion::Any);
        }
        let folder = folder_of(path);
        let own = folder.unwrap_or(&[]);
        if let Some((known, conversion)) = &self.known {
            if known.as_slice() == own {
                return Ok(*conversion);
            }
        }
        let conversion = self.read_attributes(folder)?;
        self.known = Some((own.to_vec(self.alloc)?, conversion));
        Ok(conversion)
    }

    /// Returns the id that git gives the content of a file; `None` if git might convert it.
    fn file_id(&mut self, path: &[u8]) -> Result<Option<ObjectId>, FileError> {
        let conversion = self.conversion_of(path)?;
        if conversion == Conversion::Any {
            return Ok(None);
        }
        let opened = self.path(path, b"")?;
        let mut content = Vec::new(self.alloc);
        let is_there = read_file(&self.files, &opened, Limit::Table, &mut content)?;
        if is_there && conversion.keeps(&content) {
            Ok(Some(object_id(Kind::Blob, &content)))
        } else {
            Ok(None)
        }
    }

    /// Returns the id of the path to which a symbolic link leads; `None` if there is none any more.
    fn link_id(&self, path: &[u8]) -> Result<Option<ObjectId>, FileError> {
        let opened = self.path(path, b"")?;
        let mut target = Vec::new(self.alloc);
        if self.files.link(&opened, &mut target)? {
            Ok(Some(object_id(Kind::Blob, &target)))
        } else {
            Ok(None)
        }
    }

    /// Compares an entry with the content of its file.
    fn look_inside(&mut self, entry: &Entry<A>) -> Result<Look, FileError> {
        let found = if FileKind::of(entry.mode) == FileKind::Link {
            self.link_id(&entry.path)?
        } else {
            self.file_id(&entry.path)?
        };
        Ok(by_content(entry.id, found))
    }

    /// Compares an entry with a file that is there.
    fn look_at(&mut self, entry: &Entry<A>, status: &Status) -> Result<Look, FileError> {
        match Change::of(entry, status, self.checks) {
            Change::Changed => Ok(Look::Changed),
            Change::Unsure => self.look_inside(entry),
            Change::Kept if is_racy(entry, self.written) => self.look_inside(entry),
            Change::Kept if has_same_nanos(entry, status, self.checks) => Ok(Look::Kept),
            // Some builds of git compare these parts, and others do not.
            Change::Kept => match self.look_inside(entry)? {
                Look::Kept => Ok(Look::Kept),
                _ => Ok(Look::Undecided),
            },
        }
    }

    /// Compares the entry of a submodule with its folder. A submodule that is not there has an empty
    /// folder, and is never changed.
    fn look_at_submodule(&self, path: &[u8], status: &Status) -> Result<Look, FileError> {
        if FileKind::of(status.mode) != FileKind::Folder {
            return Ok(Look::Undecided);
        }
        let inside = self.path(path, b"/.git")?;
        match self.files.status(&inside)? {
            Some(_) => Ok(Look::Undecided),
            None => Ok(Look::Kept),
        }
    }

    /// Compares an entry with a folder in the place of its file.
    fn look_at_folder(&self, path: &[u8]) -> Result<Look, FileError> {
        let inside = self.path(path, b"/.git")?;
        match self.files.status(&inside)? {
            Some(_) => Ok(Look::Undecided),
            None => Ok(Look::Missing),
        }
    }

    /// Compares an entry that is not merged with its file. git does not read the file.
    fn look_at_unmerged(&self, entry: &Entry<A>, status: &Status) -> Look {
        match Change::of(entry, status, self.checks) {
            Change::Kept => Look::Undecided,
            _ => Look::Changed,
        }
    }

    /// Compares an entry with its file, as git does after it has refreshed the index
    /// (git-update-index, "--refresh").
    ///
    /// Flags that say not to look at the file are not considered. The file is read only if what the
    /// system says of it does not decide. `Undecided` is the answer if only git decides, such as if
    /// git might convert the content, for a submodule that is checked out, and for a symbolic link
    /// if there are none in the working tree.
    ///
    /// # Errors
    ///
    /// - `Failed` if the system failed.
    /// - `NotUtf8` if the path is not UTF-8.
    /// - `OutOfMemory` if an allocation failed.
    pub fn look(&mut self, entry: &Entry<A>) -> Result<Look, FileError> {
        let kind = FileKind::of(entry.mode);
        let Some(status) = self.file(&entry.path)? else {
            return Ok(if kind == FileKind::Submodule {
                Look::Undecided
            } else {
                Look::Missing
            });
        };
        if kind == FileKind::Submodule {
            return self.look_at_submodule(&entry.path, &status);
        }
        if FileKind::of(status.mode) == FileKind::Folder {
            return self.look_at_folder(&entry.path);
        }
        if entry.is_intended() {
            return Ok(Look::Changed);
        }
        if kind != FileKind::File && (kind != FileKind::Link || !self.has_links) {
            return Ok(Look::Undecided);
        }
        if entry.stage() != 0 {
            return Ok(self.look_at_unmerged(entry, &status));
        }
        self.look_at(entry, &status)
    }

    /// Returns whether there is a file, a folder or a symbolic link at the path of an entry.
    ///
    /// # Errors
    ///
    /// Those of [`WorkTree::look`].
    pub fn is_there(&mut self, entry: &Entry<A>) -> Result<bool, FileError> {
        Ok(self.file(&entry.path)?.is_some())
    }

    /// Returns whether the entry is a file of attributes, and its file is not there. git reads the
    /// attributes from the index then.
    ///
    /// # Errors
    ///
    /// Those of [`WorkTree::look`].
    pub fn lacks_attributes(&mut self, entry: &Entry<A>) -> Result<bool, FileError> {
        if name_of(&entry.path) != ATTRIBUTES {
            return Ok(false);
        }
        match self.file(&entry.path)? {
            Some(status) => Ok(FileKind::of(status.mode) != FileKind::File),
            None => Ok(true),
        }
    }

    /// Expects that git may convert any file.
    pub fn expect_any_conversion(&mut self) {
        self.conversion = Conversion::Any;
    }
}
