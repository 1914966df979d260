//! The commits that are known of a history, and where they are from.

ghost use Rattle.std.specs.Prelude.{◌≡◌, ◌++◌, IfOk, IfSome, IsTrue, OnOk, Some, None, cond, is_some};
ghost use Rattle.gix_base.specs.declared.hash.ObjectId.{ObjectId};
ghost use Rattle.gix_revwalk.specs.Held.{entry_of};
ghost use Rattle.gix_revwalk.specs.History.{Entry, Has, entry_at, same_id};
ghost use Rattle.gix_history.specs.Origins.{AreFromObjects, IsFrom, IsFromObject};
ghost use Rattle.gix_history.specs.Grown.{AreSourced, Grows, origin_at};
ghost use Rattle.gix_history.specs.Tries.{IsTried};

use crate::beyond::Beyond;
use crate::error::ReadError;
use crate::partial::Partial;
use crate::question::{Question, Refused};
use crate::reader::{Origin, Read};
use gix_base::hash::ObjectId;
use gix_object::authentic;
use gix_object::commit::ParseError;
use gix_revwalk::Seed;
use gix_revwalk::graph::{Insert, InsertError, MemorySource};
use std::alloc::{AllocError, Allocator, Global};
use std::collections::HashMap;
use std::marker::Model;

/// What a try to answer a question gives.
#[derive(Drop)]
pub enum Tried<T: Drop> {
    /// The answer, whatever lies beyond the commits that are known.
    Answered(T),
    /// The question needs this commit, which is not known.
    Wants(ObjectId),
}

/// The commits that are known of a history, and where each is from.
#[derive(Drop)]
pub struct Known<A: Allocator = Global> {
    commits: MemorySource<A>,
    origins: HashMap<ObjectId, Origin, Seed, A>,
    /// One of the commits that are not from objects; `None` if each one is.
    foreign: Option<ObjectId>,
    seed: Seed,
}

impl<A: Allocator> Model for Known<A> {
    ghost use Rattle.std.specs.Prelude.{◌≡◌, None};
    ghost use Rattle.gix_history.specs.Grown.{AreSourced, Sourced};
    ghost use Rattle.gix_history.specs.Origins.{AreFromObjects};

    ghost Value = { Sourced };

    ghost view = { λ k. record { commits = k.commits; origins = k.origins.entries } };

    ghost invariant = { λ k. AreSourced (record { commits = k.commits; origins = k.origins.entries })
        × (k.foreign ≡ None → AreFromObjects k.commits) };
}

/// Returns `id` if the commit that was read under it is not from an object, and otherwise `foreign`.
fn foreign_after<A: Allocator>(
    foreign: Option<ObjectId>,
    id: ObjectId,
    read: &Read<A>,
) -> Option<ObjectId>
    requires { IsFrom read.now.origin id (entry_of read.now.commit) }
    ensures foreign { result ≡ None → foreign ≡ None }
    ensures object { result ≡ None → IsFromObject id (entry_of read.now.commit) }
{
    match read.origin {
        Origin::Authentic if read.commit.generation.is_none() => foreign,
        _ => Some(id),
    }
}

impl<A: Allocator + Copy> Known<A> {
    /// Creates a history of which nothing is known.
    ///
    /// Its hash maps are seeded with `seed`. A program that reads ids of strangers takes a random
    /// one.
    pub fn new(alloc: A, seed: Seed) -> Self
        // No commit is known.
        ensures empty { (id : ObjectId) → entry_at result.commits id ≡ None }
    {
        Known {
            commits: MemorySource::with_seed(alloc, seed),
            origins: HashMap::with_hasher(alloc, seed),
            foreign: None,
            seed,
        }
    }

    /// Returns a history of which nothing is known, with the same seed.
    pub(crate) fn emptied(&self, alloc: A) -> Self {
        Known::new(alloc, self.seed)
    }

    /// Returns the seed of the hash maps.
    pub(crate) fn seed(&self) -> Seed {
        self.seed
    }

    /// Returns the commits.
    pub fn commits(&self) -> &MemorySource<A>
        // The result is the history of the known commits.
        ensures { result.now ≡ self.now.commits }
    {
        &self.commits
    }

    /// Guarantees that each commit is from where it was noted to be. Does nothing else.
    ///
    /// A commit that is noted as authentic is what a content says whose hash is its id.
    pub fn sourced(&self)
        // For each known commit an origin is noted. If it is `Authentic`, a content whose hash is
        // the id says the parents and the commit date.
        ensures { AreSourced self.now }
    {
        let _ = &self.commits;
    }

    /// Returns how many commits are known.
    pub fn len(&self) -> usize {
        self.origins.len()
    }

    /// Returns `true` only if no commit is known.
    pub(crate) fn is_empty(&self) -> bool
        ensures { IsTrue result → (id : ObjectId) → entry_at self.now.commits id ≡ None }
    {
        self.origins.is_empty()
    }

    /// Returns whether the commit `id` is known.
    ///
    /// # Errors
    ///
    /// [`AllocError`]: an allocation failed.
    pub fn has(&self, alloc: A, id: ObjectId) -> Result<bool, AllocError>
        // The answer is true exactly if the commit `id` is known.
        ensures { IfOk result (λ b. b ≡ is_some (entry_at self.now.commits id)) }
    {
        Ok(self.commits.get(alloc, id)?.is_some())
    }

    /// Returns where the commit `id` is from; `None` if this was not noted.
    pub fn origin(&self, id: ObjectId) -> Option<Origin>
        // The result is the origin that is noted for `id`, if there is one.
        ensures value { result ≡ origin_at self.now id }

        // If the commit `id` is known and the result is `Authentic`, a content whose hash is `id`
        // says the parents and the commit date.
        ensures from { IfSome result (λ origin. (commit : Entry)
            → entry_at self.now.commits id ≡ Some commit → IsFrom origin id commit) }
    {
        self.origins.get(&id).copied()
    }

    /// Returns a known commit that is not what a content says whose hash is its id, or has a
    /// generation number; `None` if there is none.
    pub fn foreign(&self) -> Option<ObjectId>
        // If the result is `None`, each known commit is what a content says whose hash is its id,
        // and has no generation number.
        ensures { result ≡ None → AreFromObjects self.now.commits }
    {
        self.foreign
    }

    /// Adds a commit that was read, unless one is known under this id.
    ///
    /// # Errors
    ///
    /// [`AllocError`]: an allocation failed. No commit is then added.
    pub(crate) fn add(&mut self, alloc: A, id: ObjectId, read: Read<A>) -> Result<(), AllocError>
        requires { IsFrom read.origin id (entry_of read.commit) }
        ensures grown { Grows self.old self.new }
        ensures there { OnOk result (Has self.new.commits id) }
    {
        if self.has(alloc, id)? {
            return Ok(());
        }
        self.put(id, read)
    }

    /// Adds a commit that was read, under an id that is not known.
    ///
    /// # Errors
    ///
    /// [`AllocError`]: an allocation failed. No commit is then added.
    pub(crate) fn put(&mut self, id: ObjectId, read: Read<A>) -> Result<(), AllocError>
        requires from { IsFrom read.origin id (entry_of read.commit) }
        requires new { entry_at self.old.commits id ≡ None }
        ensures grown { Grows self.old self.new }
        ensures there { OnOk result (Has self.new.commits id) }
        ensures put { OnOk result ((q : ObjectId) → entry_at self.new.commits q
            ≡ cond (same_id id q) (Some (entry_of read.commit)) (entry_at self.old.commits q)) }
    {
        self.foreign = foreign_after(self.foreign, id, &read);
        let Read { commit, origin } = read;
        self.origins.insert(id, origin)?;
        match self.commits.insert(id, commit) {
            Ok(()) => {}
            Err(_) => return Err(AllocError),
        }
        Ok(())
    }

    /// Adds the commit whose content is passed, if `id` is the hash of the content.
    ///
    /// # Errors
    ///
    /// - [`ReadError::Altered`]: the content has another id.
    /// - [`ReadError::Malformed`]: the content is not that of a commit, or git refuses it.
    /// - [`ReadError::OutOfMemory`]: an allocation failed.
    pub fn give(&mut self, alloc: A, id: ObjectId, content: &[u8]) -> Result<(), ReadError>
        // Also after an error, each known commit is still known, unchanged, with the same origin.
        ensures grown { Grows self.old self.new }

        // After a success the commit `id` is known.
        ensures there { OnOk result (Has self.new.commits id) }
    {
        match authentic::read(alloc, id, content) {
            Ok(commit) => {
                let read = Read {
                    commit,
                    origin: Origin::Authentic,
                };
                self.add(alloc, id, read)?;
                Ok(())
            }
            Err(authentic::ReadError::WrongId) => Err(ReadError::Altered(id)),
            Err(authentic::ReadError::Parse(ParseError::OutOfMemory)) => Err(
                ReadError::OutOfMemory,
            ),
            Err(authentic::ReadError::Parse(_)) => Err(ReadError::Malformed(id)),
        }
    }

    /// Tries to answer a question over the commits that are known.
    ///
    /// An answer is right for every history that has these commits, whatever `K` has beyond them.
    ///
    /// # Errors
    ///
    /// [`AllocError`]: an allocation failed.
    pub fn try_ask<K: Beyond, Q: Question>(
        &self,
        question: &Q,
    ) -> Result<Tried<Q::Answer>, AllocError>
        // An answer has the meaning that the question names, in the history of the known commits,
        // followed by those of `K`.
        ensures { IfOk result (IsTried (Q.means question.now (self.now.commits ++ K.beyond))) }
    {
        let mut source = Partial::<&MemorySource<A>, K>::new(&self.commits);
        match question.ask(self.seed, &mut source) {
            Ok(answer) => Ok(Tried::Answered(answer)),
            Err(Refused::OutOfMemory) => Err(AllocError),
            Err(Refused::Source) => match source.wanted {
                Some(id) => Ok(Tried::Wants(id)),
                None => Err(AllocError),
            },
        }
    }
}
