//! Tries the copies of an object, one after the other.

ghost use Rattle.std.specs.Prelude.{IfOk, IfErr};
ghost use Rattle.gix_odb.specs.Refusals.{IsFailure, IsRefused};
ghost use Rattle.gix_odb.specs.Stores.{IsObject};

use crate::error::{Error, FileKind, FileName};
use crate::failure::{Failure, Fault};
use crate::loose;
use crate::object::Object;
use crate::packs::{Listing, listed};
use crate::store::Store;
use gix_base::hash::ObjectId;
use gix_files::Folders;
use std::alloc::Allocator;
use std::io::ErrorKind;

/// How many times copies are looked for, if other packs are there each time.
pub(super) const MOST_LISTINGS: u32 = 10;

/// The fault if other packs are there each time.
pub(super) const UNSETTLED: Fault = Fault::Failed(
    FileName {
        folder: 0,
        kind: FileKind::Packs,
    },
    ErrorKind::ResourceBusy,
);

impl<F: Folders + Drop, A: Allocator + Copy> Store<F, A> {
    /// Lists the packs once more. Returns whether others are there than before.
    pub(super) fn list_packs(&mut self, alloc: A) -> Result<bool, Fault> {
        let Listing {
            packs,
            fault,
            has_multi_pack_index,
            has_changed,
        } = listed(alloc, &self.files, &self.folders, &mut self.packs)?;
        self.packs = packs;
        self.packs_fault = fault;
        self.has_multi_pack_index |= has_multi_pack_index;
        Ok(has_changed)
    }

    /// Reads the object from the pack at a place among the packs.
    fn read_pack(&mut self, alloc: A, place: usize, id: ObjectId) -> Result<Object<A>, Failure>
        ensures found { IfOk result (λ o. IsObject id o.kind o.content.items) }
        ensures failed { IfErr result (IsFailure id) }
    {
        let Some(pack) = self.packs.get_mut(place) else {
            return Err(Failure::Missing);
        };
        let Some(folder) = self.folders.get(pack.folder) else {
            return Err(Failure::Missing);
        };
        pack.read(alloc, &self.files, &folder.path, id, &mut self.chains)
    }

    /// Moves a pack to the front, since the next object is likely to be in it.
    pub(super) fn move_to_front(&mut self, place: usize) {
        if place < self.packs.len() {
            self.packs.swap(0, place);
        }
    }

    /// Closes a pack whose copy failed, so that the next try opens it anew. One that does not have the
    /// object stays open.
    pub(super) fn close_failed(&mut self, place: usize, failure: Failure) {
        match (failure, self.packs.get_mut(place)) {
            (Failure::Missing, _) | (_, None) => {}
            (_, Some(pack)) => pack.close(),
        }
    }

    /// Reads the object from the first pack with an authentic copy.
    fn read_packed(&mut self, alloc: A, id: ObjectId) -> Result<Object<A>, Failure>
        ensures found { IfOk result (λ o. IsObject id o.kind o.content.items) }
        ensures failed { IfErr result (IsFailure id) }
    {
        let mut failure = Failure::Missing;
        for place in 0..self.packs.len() {
            match self.read_pack(alloc, place, id) {
                Ok(object) => {
                    self.move_to_front(place);
                    return Ok(object);
                }
                Err(next) if next.is_out_of_memory() => return Err(next),
                Err(next) => {
                    self.close_failed(place, next);
                    failure = failure.or(next);
                }
            }
        }
        Err(failure)
    }

    /// Reads the object from its loose file in the folder with a number.
    fn read_loose_in(&self, alloc: A, number: usize, id: ObjectId) -> Result<Object<A>, Failure>
        ensures found { IfOk result (λ o. IsObject id o.kind o.content.items) }
        ensures failed { IfErr result (IsFailure id) }
    {
        match self.folders.get(number) {
            Some(folder) if folder.is_reached => {
                let limit = self.chains.limit();
                loose::read(alloc, &self.files, number, &folder.path, id, limit)
            }
            _ => Err(Failure::Missing),
        }
    }

    /// Reads the object from the first folder with an authentic loose copy.
    fn read_loose(&self, alloc: A, id: ObjectId) -> Result<Object<A>, Failure>
        ensures found { IfOk result (λ o. IsObject id o.kind o.content.items) }
        ensures failed { IfErr result (IsFailure id) }
    {
        let mut failure = Failure::Missing;
        for number in 0..self.folders.len() {
            match self.read_loose_in(alloc, number, id) {
                Ok(object) => return Ok(object),
                Err(next) if next.is_out_of_memory() => return Err(next),
                Err(next) => failure = failure.or(next),
            }
        }
        Err(failure)
    }

    /// Reads the object from the packs that are listed, or else from a loose file.
    fn read_once(&mut self, alloc: A, id: ObjectId) -> Result<Object<A>, Failure>
        ensures found { IfOk result (λ o. IsObject id o.kind o.content.items) }
        ensures failed { IfErr result (IsFailure id) }
    {
        match self.read_packed(alloc, id) {
            Ok(object) => Ok(object),
            Err(first) if first.is_out_of_memory() => Err(first),
            Err(first) => match self.read_loose(alloc, id) {
                Ok(object) => Ok(object),
                Err(next) if next.is_out_of_memory() => Err(next),
                Err(next) => Err(first.or(next)),
            },
        }
    }

    /// Reads the object. If there is no authentic copy, lists the packs again and tries all copies, until
    /// the same packs are listed twice.
    pub(super) fn read_settled(&mut self, alloc: A, id: ObjectId) -> Result<Object<A>, Failure>
        ensures found { IfOk result (λ o. IsObject id o.kind o.content.items) }
        ensures failed { IfErr result (IsFailure id) }
    {
        for listings in 0..MOST_LISTINGS {
            match self.read_once(alloc, id) {
                Ok(object) => return Ok(object),
                Err(failure) => {
                    if failure.is_out_of_memory() || self.is_settled(alloc, failure, listings)? {
                        return Err(failure);
                    }
                }
            }
        }
        Err(Failure::InFile(UNSETTLED))
    }

    /// Lists the packs once more. Returns whether a failure stands, after so many listings before.
    ///
    /// It does not if other packs are there now. A copy that failed is tried a second time, since its
    /// file may be another one of the same name.
    pub(super) fn is_settled(
        &mut self,
        alloc: A,
        failure: Failure,
        listings: u32,
    ) -> Result<bool, Fault> {
        let has_changed = self.list_packs(alloc)?;
        Ok(!has_changed && (listings > 0 || failure.is_missing()))
    }

    /// Returns the error for the object with this id. A missing one may be in a folder that could not
    /// be read.
    pub(super) fn refusal(&self, failure: Failure, id: ObjectId) -> Error
        requires { IsFailure id failure }
        ensures { IsRefused id result }
    {
        match (failure, self.fault()) {
            (Failure::Missing, Some(fault)) => fault.error(),
            (failure, _) => failure.error(id),
        }
    }

    /// Returns the fault of a folder, or of a list of packs, that could not be read.
    pub(super) fn fault(&self) -> Option<Fault> {
        match self.packs_fault {
            Some(fault) => Some(fault),
            None => self.folders_fault,
        }
    }
}
