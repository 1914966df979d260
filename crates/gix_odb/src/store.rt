//! The store, which reads objects by their ids.
//!
//! # Algorithm
//!
//! 1. Look the id up in the index of each pack, the pack that had the last object first
//!    (`index.rt`). The fanout is read when an index is opened. Of the ids with the same first
//!    byte, 256 are read around the place that the next bytes of the id suggest. If the id may be
//!    elsewhere, all ids with this first byte are read and kept, with their offsets. The same
//!    happens if many ids with this first byte were looked up.
//! 2. Follow the deltas from the object down to one that is whole, or that is kept since it was
//!    just made (`chain.rt`). If there are more links than objects, they lead in a circle.
//! 3. From there up, inflate one delta at a time, and apply it. Keep each object that is made. If
//!    all have 64 MiB together, drop them (`cache.rt`).
//! 4. Inflate a stream from a window of the pack (`windows.rt`). Only if it does not end there,
//!    read four times as many bytes, and so on (`stream.rt`).
//! 5. If no pack has the object, read its loose file in each folder (`loose.rt`).
//! 6. Compare the SHA-1 with the id (`object.rt`). If it differs, go on with the next copy.
//! 7. If there is no authentic copy, list the packs again, since git may just have repacked, and
//!    begin again. If the same packs are listed twice, return the first failure. If other packs are
//!    listed ten times, fail: a pack that is gone since it was listed may have the object.
//!
//! The `objects` folders are found when the store is opened (`alternates.rt`). One that cannot be
//! read is passed over, as in git, and its failure is returned in place of `Missing`. `Store::has`
//! and `Store::completions` read indexes and names of loose files alone (`store/finds.rt`); the
//! completions are collected in an ordered set (`completions.rt`). `Store::told_kind` reads headers
//! (`store/kinds.rt`): the first bytes of a loose file, or the entries of a pack down a chain of
//! deltas.
//!
//! A size that a file only claims takes no memory. The store writes content as it inflates it, and
//! requests at most four times as many bytes as the file has given. After a failed call the store
//! can be used again, and it opens a pack whose copy failed anew.

ghost use Rattle.std.specs.Prelude.{◌≤◌, ℕ, List, length, IfOk, IfErr, All};
ghost use Rattle.std.specs.List.Sorted.{IsStrictlySortedBy};
ghost use Rattle.gix_base.specs.Hash.{id_order};
ghost use Rattle.gix_base.specs.Prefix.{BeginsWith};
ghost use Rattle.gix_revwalk.specs.Held.{entry_of};
ghost use Rattle.gix_odb.specs.Stores.{IsObject, IsCommitOf, IsTagOf};
ghost use Rattle.gix_odb.specs.Refusals.{IsRefused, IsNoCommit, IsNoTag};

mod copies;
mod finds;
mod kinds;

use crate::alternates::{Folder, Found, folders};
use crate::chain::Chains;
use crate::completions::Completions;
use crate::error::Error;
use crate::failure::{Failure, Fault};
use crate::object::Object;
use crate::pack::Pack;
use crate::tag::{Tag, tagged};
use gix_base::hash::{ObjectId, Prefix};
use gix_base::object::Kind;
use gix_files::Folders;
use gix_object::commit::{ParseError, parse};
use gix_revwalk::graph::SourceCommit;
use std::alloc::{AllocError, Allocator, Global};

/// How many bytes an object has at most, unless [`Store::set_limit`] says another limit.
const LIMIT: usize = 1 << 30;

/// Reads the objects of an `objects` folder and its alternates.
#[derive(Drop)]
pub struct Store<F: Folders + Drop, A: Allocator + Copy = Global> {
    files: F,
    folders: Vec<Folder<A>, A>,
    /// The first fault of an alternate that was passed over.
    folders_fault: Option<Fault>,
    packs: Vec<Pack<F, A>, A>,
    /// The first fault of a folder whose packs were not listed.
    packs_fault: Option<Fault>,
    /// Whether a folder had a multi-pack-index when its packs were listed.
    has_multi_pack_index: bool,
    chains: Chains<A>,
}

/// Returns the commit that an object says.
fn parsed<A: Allocator + Copy>(
    alloc: A,
    id: ObjectId,
    object: &Object<A>,
) -> Result<SourceCommit<A>, Error>
    requires { IsObject id object.now.kind object.now.content.items }
    ensures found { IfOk result (λ c. IsCommitOf id (entry_of c)) }
    ensures refused { IfErr result (IsNoCommit id) }
{
    if object.kind != Kind::Commit {
        return Err(Error::NotACommit(id, object.kind));
    }
    match parse(alloc, &object.content) {
        Ok(commit) => Ok(commit.into_source()),
        Err(ParseError::OutOfMemory) => Err(Error::OutOfMemory),
        Err(error) => Err(Error::Malformed(id, error)),
    }
}

impl<F: Folders + Drop, A: Allocator + Copy> Store<F, A> {
    /// Opens the store of an `objects` folder, and lists its alternates and packs.
    ///
    /// An alternate that does not exist is passed over. If the `objects` folder does not exist, all
    /// objects are missing, unless an alternate has them.
    ///
    /// An alternate that cannot be read is passed over as well, as in git. So are a folder whose packs
    /// cannot be listed, and an `info/alternates` that cannot be read. The store remembers the first
    /// of these failures, and returns it in place of `Missing`.
    ///
    /// # Errors
    ///
    /// - `Failed` if the system does not reach the `objects` folder.
    /// - `Unsupported` if its path is not UTF-8.
    /// - `OutOfMemory` if an allocation failed.
    pub fn open(alloc: A, files: F, path: &[u8]) -> Result<Store<F, A>, Error> {
        Store::open_with(alloc, files, path, &[])
    }

    /// Opens the store of an `objects` folder and further ones, as [`Store::open`] does.
    ///
    /// The paths of `more` are those of `GIT_ALTERNATE_OBJECT_DIRECTORIES` (git, "ENVIRONMENT
    /// VARIABLES"). A relative one begins at the current folder. These folders are tried before those
    /// that `info/alternates` names.
    ///
    /// # Errors
    ///
    /// Those of [`Store::open`].
    pub fn open_with(
        alloc: A,
        files: F,
        path: &[u8],
        more: &[&[u8]],
    ) -> Result<Store<F, A>, Error> {
        match folders(alloc, &files, path, more) {
            Ok(
                Found {
                    folders,
                    paths: _,
                    fault,
                },
            ) => Store {
                files,
                folders,
                folders_fault: fault,
                packs: Vec::new(alloc),
                packs_fault: None,
                has_multi_pack_index: false,
                chains: Chains::new(alloc, LIMIT),
            }
            .with_packs(alloc),
            Err(fault) => Err(fault.error()),
        }
    }

    /// Returns the store with its packs listed.
    fn with_packs(mut self, alloc: A) -> Result<Store<F, A>, Error> {
        match self.list_packs(alloc) {
            Ok(_) => Ok(self),
            Err(fault) => Err(fault.error()),
        }
    }

    /// Sets how many bytes an object has at most. The limit is 1 GiB at first.
    pub fn set_limit(&mut self, limit: usize) {
        self.chains.set_limit(limit);
    }

    /// Returns the path of the `objects` folder with a number.
    ///
    /// A [`FileName`](crate::error::FileName) has this number.
    pub fn folder(&self, number: usize) -> Option<&[u8]> {
        match self.folders.get(number) {
            Some(folder) => Some(folder.path.as_slice()),
            None => None,
        }
    }

    /// Returns the object with this id.
    ///
    /// Packs are tried first, the one that had the last object before the others, then loose files.
    /// A copy that is not authentic is passed over. If there is no authentic copy, the packs are listed
    /// again, since git may just have repacked, and all copies are tried again. This ends if the same
    /// packs are listed twice, or fails after ten listings.
    ///
    /// # Errors
    ///
    /// - `Missing` if no copy was found, and all folders were read.
    /// - `Altered`, `Damaged`, `Unsupported` or `Failed`, for the first copy that failed, or for a
    ///   folder that was not read.
    /// - `OutOfMemory` if an allocation failed.
    pub fn read(&mut self, alloc: A, id: ObjectId) -> Result<Object<A>, Error>
        // The object has this id.
        ensures found { IfOk result (λ o. IsObject id o.kind o.content.items) }

        // `Missing` and `Altered` name this id, and `Altered` also another id, which an object has.
        // None is about what the object says.
        ensures refused { IfErr result (IsRefused id) }
    {
        match self.read_settled(alloc, id) {
            Ok(object) => Ok(object),
            Err(failure) => Err(self.refusal(failure, id)),
        }
    }

    /// Returns the parents and the commit date of the commit with this id.
    ///
    /// # Errors
    ///
    /// - Those of [`Store::read`].
    /// - `NotACommit` if the object is authentic, and of another kind.
    /// - `Malformed` if the object is authentic, and git refuses it as a commit, or its date does
    ///   not fit.
    #[tactic(auto, using(crate::proofs::Refused::refused_commit))]
    pub fn commit(&mut self, alloc: A, id: ObjectId) -> Result<SourceCommit<A>, Error>
        // A content with this id says the parents and the date.
        ensures found { IfOk result (λ c. IsCommitOf id (entry_of c)) }

        // `NotACommit` and `Malformed` have their cause. The other errors are those of `read`.
        ensures refused { IfErr result (IsNoCommit id) }
    {
        match self.read(alloc, id) {
            Ok(object) => parsed(alloc, id, &object),
            Err(error) => Err(error),
        }
    }
    /// Returns what the annotated tag with this id says.
    ///
    /// # Errors
    ///
    /// - Those of [`Store::read`].
    /// - `NotATag` if the object is authentic, and of another kind.
    /// - `MalformedTag` if the object is authentic, and git refuses it as a tag.
    #[tactic(auto, using(crate::proofs::Refused::refused_tag))]
    pub fn tag(&mut self, alloc: A, id: ObjectId) -> Result<Tag<A>, Error>
        // A content with this id says the target, its kind, the name and the date.
        ensures found { IfOk result (λ t. IsTagOf id t.target t.kind t.name.items t.date) }

        // `NotATag` and `MalformedTag` have their cause. The other errors are those of `read`.
        ensures refused { IfErr result (IsNoTag id) }
    {
        match self.read(alloc, id) {
            Ok(object) => tagged(alloc, id, &object),
            Err(error) => Err(error),
        }
    }

    /// Returns the kind of the object with this id. It reads the object whole.
    ///
    /// # Errors
    ///
    /// Those of [`Store::read`].
    pub fn kind(&mut self, alloc: A, id: ObjectId) -> Result<Kind, Error>
        // A content of this kind has this id.
        ensures found { IfOk result (λ kind. (content : List ℕ) × IsObject id kind content) }

        // `Missing` and `Altered` name this id, and `Altered` also another id, which an object has.
        // None is about what the object says.
        ensures refused { IfErr result (IsRefused id) }
    {
        match self.read(alloc, id) {
            Ok(object) => Ok(object.kind),
            Err(error) => Err(error),
        }
    }

    /// Returns the kind of the object with this id, as the header of a copy says it.
    ///
    /// The content is not read, so the copy may be damaged, or that of another object.
    ///
    /// # Errors
    ///
    /// Those of [`Store::read`], except `Altered`.
    pub fn told_kind(&mut self, alloc: A, id: ObjectId) -> Result<Kind, Error>
        // `Missing` names this id. None is about what the object says.
        ensures refused { IfErr result (IsRefused id) }
    {
        match self.kind_settled(alloc, id) {
            Ok(kind) => Ok(kind),
            Err(failure) => match self.unfound(failure) {
                Some(fault) => Err(fault.error()),
                None => Err(Error::Missing(id)),
            },
        }
    }

    /// Returns whether a pack has the object with this id, by its index, or a loose file is there.
    ///
    /// The object is not read. If there is no copy, the packs are listed again, as in [`Store::read`].
    ///
    /// # Errors
    ///
    /// - `Damaged`, `Unsupported` or `Failed` if no copy was found, and a file or folder was not read.
    /// - `OutOfMemory` if an allocation failed.
    pub fn has(&mut self, alloc: A, id: ObjectId) -> Result<bool, Error>
        // `Missing` and `Altered` name this id, and `Altered` also another id, which an object has.
        // None is about what the object says.
        ensures refused { IfErr result (IsRefused id) }
    {
        match self.has_settled(alloc, id) {
            Ok(()) => Ok(true),
            Err(failure) => match self.unfound(failure) {
                Some(fault) => Err(fault.error()),
                None => Ok(false),
            },
        }
    }

    /// Returns the ids that begin with a prefix, by the indexes of packs and the names of loose files.
    ///
    /// The answer has the least of these ids, in order, and `most` of them if there are more. So two
    /// are enough to tell whether the prefix is ambiguous. If there are none, or a pack is gone, the packs
    /// are listed again, as in [`Store::read`].
    ///
    /// # Errors
    ///
    /// - `Damaged`, `Unsupported` or `Failed` if fewer than `most` were found, and a file or folder was
    ///   not read.
    /// - `OutOfMemory` if an allocation failed.
    pub fn completions(
        &mut self,
        alloc: A,
        prefix: Prefix,
        most: usize,
    ) -> Result<Vec<ObjectId, A>, Error>
        // Each id begins with the prefix.
        ensures begin { IfOk result (λ ids. All (λ id. BeginsWith id prefix) ids.items) }

        // The ids rise, so each is there once.
        ensures rising { IfOk result (λ ids. IsStrictlySortedBy id_order ids.items) }

        // There are `most` of them at most.
        ensures few { IfOk result (λ ids. length ids.items ≤ most) }
    {
        let mut found = Completions::new(alloc, prefix, most);
        match self.complete(alloc, &mut found) {
            Ok(()) => Ok(found.sorted(alloc, prefix, most)?),
            Err(fault) => Err(fault.error()),
        }
    }

    /// Returns the least and the greatest number of objects that git may count in the packs.
    ///
    /// An object of several packs counts for each. A pack whose index is not read counts for nothing,
    /// as in git. With a multi-pack-index git counts the objects in it once, and those of its packs
    /// again once it has opened them: no fewer than the largest pack has, and no more than twice as
    /// many as all packs have. If packs of a multi-pack-index are gone, git may count more.
    ///
    /// # Errors
    ///
    /// [`AllocError`]: an allocation failed.
    pub fn packed_len(&mut self, alloc: A) -> Result<(u64, u64), AllocError> {
        let (largest, all) = self.packed(alloc)?;
        if self.has_multi_pack_index {
            Ok((largest, all.saturating_add(all)))
        } else {
            Ok((all, all))
        }
    }
}
