//! Reads the files of reflogs (gitrepository-layout, "logs").

use crate::error::{Error, Fault};
use crate::files::read;
use crate::store::{Link, References};
use gix_files::Folders;
use gix_ref_text::log::Reflog;
use std::alloc::Allocator;

impl<F: Folders + Drop, A: Allocator + Copy> References<F, A> {
    /// Returns the reflog of the reference with this full name; `None` if there is none.
    ///
    /// Lines that git refuses are passed over.
    ///
    /// # Errors
    ///
    /// - `Failed` if the file cannot be read, and `NotUtf8` if the name is not UTF-8.
    /// - `OutOfMemory` if an allocation failed.
    pub fn reflog(&mut self, name: &[u8]) -> Result<Option<Reflog<A>>, Error> {
        match self.read_log(name) {
            Ok(log) => Ok(log),
            Err(fault) => Err(fault.error()),
        }
    }

    /// Reads a reflog.
    pub(crate) fn read_log(&self, name: &[u8]) -> Result<Option<Reflog<A>>, Fault> {
        let path = self.path(b"logs/", name)?;
        match read(self.alloc, &self.files, &path, name)? {
            Some(bytes) => Ok(Some(Reflog::parse(self.alloc, &bytes)?)),
            None => Ok(None),
        }
    }

    /// Reads a reflog by which a name is looked up. As in git, a symbolic link is none.
    pub(crate) fn read_own_log(&self, name: &[u8]) -> Result<Option<Reflog<A>>, Fault> {
        let path = self.path(b"logs/", name)?;
        match self.link_at(&path, name)? {
            Link::None => self.read_log(name),
            Link::Text(_) | Link::Below(_) => Ok(None),
        }
    }
}
