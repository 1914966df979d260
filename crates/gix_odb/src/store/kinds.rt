//! Finds the kinds of objects by their headers, without their contents.

use crate::failure::Failure;
use crate::loose;
use crate::store::Store;
use crate::store::copies::{MOST_LISTINGS, UNSETTLED};
use crate::store::finds::taken;
use gix_base::hash::ObjectId;
use gix_base::object::Kind;
use gix_files::Folders;
use std::alloc::Allocator;

impl<F: Folders + Drop, A: Allocator + Copy> Store<F, A> {
    /// Returns the kind that the pack at a place among the packs says of the object.
    fn kind_in_pack(&mut self, alloc: A, place: usize, id: ObjectId) -> Result<Kind, Failure> {
        let Some(pack) = self.packs.get_mut(place) else {
            return Err(Failure::Missing);
        };
        let Some(folder) = self.folders.get(pack.folder) else {
            return Err(Failure::Missing);
        };
        pack.kind(alloc, &self.files, &folder.path, id, &mut self.chains)
    }

    /// Returns the kind that a pack says of the object, the first that has it.
    fn packed_kind(&mut self, alloc: A, id: ObjectId) -> Result<Kind, Failure> {
        let mut failure = Failure::Missing;
        for place in 0..self.packs.len() {
            match self.kind_in_pack(alloc, place, id) {
                Ok(kind) => {
                    self.move_to_front(place);
                    return Ok(kind);
                }
                Err(next) => {
                    self.close_failed(place, next);
                    taken::<Kind>(&mut failure, Err(next))?;
                }
            }
        }
        Err(failure)
    }

    /// Returns the kind that a loose file says of the object, in the first folder that has one.
    fn loose_kind(&self, alloc: A, id: ObjectId) -> Result<Kind, Failure> {
        let mut failure = Failure::Missing;
        for (number, folder) in self.folders.iter().enumerate() {
            if folder.is_reached {
                let looked = loose::kind(alloc, &self.files, number, &folder.path, id);
                if let Some(kind) = taken(&mut failure, looked)? {
                    return Ok(kind);
                }
            }
        }
        Err(failure)
    }

    /// Returns the kind that a pack that is listed says of the object, or else a loose file.
    fn kind_once(&mut self, alloc: A, id: ObjectId) -> Result<Kind, Failure> {
        let mut failure = Failure::Missing;
        let looked = self.packed_kind(alloc, id);
        if let Some(kind) = taken(&mut failure, looked)? {
            return Ok(kind);
        }
        match self.loose_kind(alloc, id) {
            Ok(kind) => Ok(kind),
            Err(next) => Err(failure.or(next)),
        }
    }

    /// Returns the kind that a copy of the object says. If there is none, lists the packs again and
    /// looks again, until the same packs are listed twice.
    pub(super) fn kind_settled(&mut self, alloc: A, id: ObjectId) -> Result<Kind, Failure> {
        for listings in 0..MOST_LISTINGS {
            match self.kind_once(alloc, id) {
                Ok(kind) => return Ok(kind),
                Err(failure) => {
                    if failure.is_out_of_memory() || self.is_settled(alloc, failure, listings)? {
                        return Err(failure);
                    }
                }
            }
        }
        Err(Failure::InFile(UNSETTLED))
    }
}
