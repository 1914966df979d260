//! Reads objects from a pack (gitformat-pack).

ghost use Rattle.std.specs.Prelude.{IfOk, IfErr};
ghost use Rattle.gix_odb.specs.Refusals.{IsFailure};
ghost use Rattle.gix_odb.specs.Stores.{IsObject};

use crate::chain::{Body, Chains};
use crate::completions::Completions;
use crate::error::{FileKind, FileName, PackName};
use crate::failure::{Failure, Fault};
use crate::index::Index;
use crate::object::{Object, accepted};
use crate::paths::joined;
use crate::source::open_listed;
use gix_base::hash::ObjectId;
use gix_base::object::Kind;
use gix_files::Folders;
use std::alloc::Allocator;

/// A pack of an `objects` folder. Its index and the pack itself are opened when they are needed.
#[derive(Drop)]
pub(crate) struct Pack<F: Folders, A: Allocator + Copy> {
    /// The number of the `objects` folder.
    pub(crate) folder: usize,
    /// The name in the folder `pack`, without the extension.
    pub(crate) name: Vec<u8, A>,
    index: Option<Index<F::Opened, A>>,
    body: Option<Body<F::Opened, A>>,
}

impl<F: Folders, A: Allocator + Copy> Pack<F, A> {
    /// Returns a pack that is not opened yet.
    pub(crate) fn new(folder: usize, name: Vec<u8, A>) -> Pack<F, A> {
        Pack {
            folder,
            name,
            index: None,
            body: None,
        }
    }

    /// Closes the files of the pack.
    pub(crate) fn close(&mut self) {
        self.index = None;
        self.body = None;
    }

    /// Opens the index, unless it is open. Fails if it is gone since it was listed.
    fn open_index(&mut self, alloc: A, files: &F, folder: &[u8]) -> Result<(), Fault> {
        if self.index.is_some() {
            return Ok(());
        }
        let name = FileName {
            folder: self.folder,
            kind: FileKind::Index(PackName::new(&self.name)),
        };
        let path = joined(alloc, folder, b"/pack/", &self.name, b".idx")?;
        let source = open_listed(files, &path, name)?;
        self.index = Some(Index::new(alloc, source)?);
        Ok(())
    }

    /// Opens the pack itself, unless it is open. Fails if it is gone since it was listed, or is not that
    /// of the index.
    fn open_body(
        &mut self,
        alloc: A,
        files: &F,
        folder: &[u8],
        chains: &mut Chains<A>,
    ) -> Result<(), Fault> {
        if self.body.is_some() {
            return Ok(());
        }
        let name = FileName {
            folder: self.folder,
            kind: FileKind::Pack(PackName::new(&self.name)),
        };
        let path = joined(alloc, folder, b"/pack/", &self.name, b".pack")?;
        let source = open_listed(files, &path, name)?;
        if let Some(index) = &self.index {
            index.check_pack(&source)?;
        }
        self.body = Some(Body::new(alloc, source, chains.next_number()));
        Ok(())
    }

    /// Returns where the object with this id begins; `None` if it is not there.
    fn find(
        &mut self,
        alloc: A,
        files: &F,
        folder: &[u8],
        id: ObjectId,
        chains: &mut Chains<A>,
    ) -> Result<Option<u64>, Fault> {
        self.open_index(alloc, files, folder)?;
        let Some(index) = &mut self.index else {
            return Ok(None);
        };
        let at = index.find(alloc, id)?;
        if at.is_some() {
            self.open_body(alloc, files, folder, chains)?;
        }
        Ok(at)
    }

    /// Reads the object that begins at an offset, and takes it if it has this id.
    fn take(
        &mut self,
        alloc: A,
        id: ObjectId,
        at: u64,
        chains: &mut Chains<A>,
    ) -> Result<Object<A>, Failure>
        ensures found { IfOk result (λ o. IsObject id o.kind o.content.items) }
        ensures failed { IfErr result (IsFailure id) }
    {
        let (Some(index), Some(body)) = (&mut self.index, &mut self.body) else {
            return Err(Failure::Missing);
        };
        let (kind, content) = chains.content(alloc, index, body, at)?;
        accepted(id, kind, content)
    }

    /// Reads the object with this id. Fails with `Missing` if the pack does not have it.
    pub(crate) fn read(
        &mut self,
        alloc: A,
        files: &F,
        folder: &[u8],
        id: ObjectId,
        chains: &mut Chains<A>,
    ) -> Result<Object<A>, Failure>
        ensures found { IfOk result (λ o. IsObject id o.kind o.content.items) }
        ensures failed { IfErr result (IsFailure id) }
    {
        match self.find(alloc, files, folder, id, chains)? {
            Some(at) => self.take(alloc, id, at, chains),
            None => Err(Failure::Missing),
        }
    }

    /// Returns the kind that the pack says of the object with this id. Fails with `Missing` if the pack
    /// does not have it.
    pub(crate) fn kind(
        &mut self,
        alloc: A,
        files: &F,
        folder: &[u8],
        id: ObjectId,
        chains: &mut Chains<A>,
    ) -> Result<Kind, Failure> {
        let Some(at) = self.find(alloc, files, folder, id, chains)? else {
            return Err(Failure::Missing);
        };
        match (&mut self.index, &mut self.body) {
            (Some(index), Some(body)) => Ok(chains.kind(alloc, index, body, at)?),
            _ => Err(Failure::Missing),
        }
    }

    /// Returns how many objects the pack has.
    pub(crate) fn len(&mut self, alloc: A, files: &F, folder: &[u8]) -> Result<usize, Failure> {
        self.open_index(alloc, files, folder)?;
        match &self.index {
            Some(index) => Ok(index.count()),
            None => Err(Failure::Missing),
        }
    }

    /// Succeeds if the pack has the object with this id. Fails with `Missing` if not.
    pub(crate) fn has(
        &mut self,
        alloc: A,
        files: &F,
        folder: &[u8],
        id: ObjectId,
        chains: &mut Chains<A>,
    ) -> Result<(), Failure> {
        match self.find(alloc, files, folder, id, chains)? {
            Some(_) => Ok(()),
            None => Err(Failure::Missing),
        }
    }

    /// Adds the ids of the pack that begin with the prefix to those that were found.
    pub(crate) fn complete(
        &mut self,
        alloc: A,
        files: &F,
        folder: &[u8],
        found: &mut Completions<A>,
    ) -> Result<(), Failure> {
        self.open_index(alloc, files, folder)?;
        match &mut self.index {
            Some(index) => Ok(index.complete(alloc, found)?),
            None => Err(Failure::Missing),
        }
    }
}
