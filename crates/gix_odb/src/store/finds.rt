//! Finds ids without reading objects.

use crate::completions::Completions;
use crate::failure::{Failure, Fault};
use crate::loose;
use crate::store::Store;
use crate::store::copies::{MOST_LISTINGS, UNSETTLED};
use gix_base::hash::ObjectId;
use gix_files::Folders;
use std::alloc::{AllocError, Allocator};

/// Returns what a look-up found. Remembers its failure if it is another one than `Missing`.
pub(super) fn taken<T: Drop>(
    failure: &mut Failure,
    looked: Result<T, Failure>,
) -> Result<Option<T>, Fault> {
    match looked {
        Ok(found) => Ok(Some(found)),
        Err(Failure::InFile(Fault::OutOfMemory)) => Err(Fault::OutOfMemory),
        Err(next) => {
            *failure = failure.or(next);
            Ok(None)
        }
    }
}

impl<F: Folders + Drop, A: Allocator + Copy> Store<F, A> {
    /// Succeeds if the pack at a place among the packs has the object.
    fn has_in_pack(&mut self, alloc: A, place: usize, id: ObjectId) -> Result<(), Failure> {
        let Some(pack) = self.packs.get_mut(place) else {
            return Err(Failure::Missing);
        };
        let Some(folder) = self.folders.get(pack.folder) else {
            return Err(Failure::Missing);
        };
        pack.has(alloc, &self.files, &folder.path, id, &mut self.chains)
    }

    /// Succeeds if the folder with a number has a loose file of the object.
    fn has_loose_in(&self, alloc: A, number: usize, id: ObjectId) -> Result<(), Failure> {
        match self.folders.get(number) {
            Some(folder) if folder.is_reached => {
                loose::has(alloc, &self.files, number, &folder.path, id)
            }
            _ => Err(Failure::Missing),
        }
    }

    /// Succeeds if a pack that is listed, or a loose file, has the object.
    pub(super) fn has_once(&mut self, alloc: A, id: ObjectId) -> Result<(), Failure> {
        let mut failure = Failure::Missing;
        for place in 0..self.packs.len() {
            let looked = self.has_in_pack(alloc, place, id);
            if taken(&mut failure, looked)?.is_some() {
                return Ok(());
            }
        }
        for number in 0..self.folders.len() {
            let looked = self.has_loose_in(alloc, number, id);
            if taken(&mut failure, looked)?.is_some() {
                return Ok(());
            }
        }
        Err(failure)
    }

    /// Succeeds if there is a copy of the object. If none was found, lists the packs again and looks
    /// again, until the same packs are listed twice.
    pub(super) fn has_settled(&mut self, alloc: A, id: ObjectId) -> Result<(), Failure> {
        for listings in 0..MOST_LISTINGS {
            match self.has_once(alloc, id) {
                Ok(()) => return Ok(()),
                Err(failure) => {
                    if failure.is_out_of_memory() || self.is_settled(alloc, failure, listings)? {
                        return Err(failure);
                    }
                }
            }
        }
        Err(Failure::InFile(UNSETTLED))
    }

    /// Adds the ids in the pack at a place among the packs to those that were found.
    fn complete_in_pack(
        &mut self,
        alloc: A,
        place: usize,
        found: &mut Completions<A>,
    ) -> Result<(), Failure> {
        let Some(pack) = self.packs.get_mut(place) else {
            return Err(Failure::Missing);
        };
        let Some(folder) = self.folders.get(pack.folder) else {
            return Err(Failure::Missing);
        };
        pack.complete(alloc, &self.files, &folder.path, found)
    }

    /// Adds the ids of loose files in the folder with a number to those that were found.
    fn complete_loose_in(
        &self,
        alloc: A,
        number: usize,
        found: &mut Completions<A>,
    ) -> Result<(), Failure> {
        match self.folders.get(number) {
            Some(folder) if folder.is_reached => {
                Ok(loose::complete(alloc, &self.files, number, &folder.path, found)?)
            }
            _ => Ok(()),
        }
    }

    /// Adds the ids in all packs and folders to those that were found. Returns the first failure, or
    /// `Missing`.
    fn complete_once(&mut self, alloc: A, found: &mut Completions<A>) -> Result<Failure, Fault> {
        let mut failure = Failure::Missing;
        for place in 0..self.packs.len() {
            let looked = self.complete_in_pack(alloc, place, found);
            taken(&mut failure, looked)?;
        }
        for number in 0..self.folders.len() {
            let looked = self.complete_loose_in(alloc, number, found);
            taken(&mut failure, looked)?;
        }
        Ok(failure)
    }

    /// Adds the ids in all packs and folders to those that were found.
    ///
    /// If none was found, or a pack was not read, lists the packs again and looks again, until the same
    /// packs are listed twice. Fails if a pack or a folder was not read, unless as many ids were found
    /// as are wanted.
    pub(super) fn complete(&mut self, alloc: A, found: &mut Completions<A>) -> Result<(), Fault> {
        for listings in 0..MOST_LISTINGS {
            let failure = self.complete_once(alloc, found)?;
            let is_enough = found.is_full() || (found.len() > 0 && failure.is_missing());
            if is_enough || self.is_settled(alloc, failure, listings)? {
                return match self.unfound(failure) {
                    Some(fault) if !found.is_full() => Err(fault),
                    _ => Ok(()),
                };
            }
        }
        Err(UNSETTLED)
    }

    /// Returns the fault for which an id may not have been found.
    pub(super) fn unfound(&self, failure: Failure) -> Option<Fault> {
        match failure {
            Failure::InFile(fault) => Some(fault),
            _ => self.fault(),
        }
    }

    /// Returns how many objects the pack at a place among the packs has.
    fn pack_len(&mut self, alloc: A, place: usize) -> Result<usize, AllocError> {
        let Some(pack) = self.packs.get_mut(place) else {
            return Ok(0);
        };
        let Some(folder) = self.folders.get(pack.folder) else {
            return Ok(0);
        };
        match pack.len(alloc, &self.files, &folder.path) {
            Ok(count) => Ok(count),
            Err(failure) if failure.is_out_of_memory() => Err(AllocError),
            Err(_) => Ok(0),
        }
    }

    /// Returns how many objects the largest pack has, and how many all packs have together.
    pub(super) fn packed(&mut self, alloc: A) -> Result<(u64, u64), AllocError> {
        let mut largest = 0u64;
        let mut all = 0u64;
        for place in 0..self.packs.len() {
            let len = self.pack_len(alloc, place)? as u64;
            largest = largest.max(len);
            all = all.saturating_add(len);
        }
        Ok((largest, all))
    }
}
