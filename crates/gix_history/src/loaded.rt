//! All that some tips reach, each commit the content of its id, with levels.
//!
//! # Algorithm
//!
//! 1. Put a tip on a path, a stack of commits that wait for their parents.
//! 2. Take the last commit of the path, and go on over its parents that are loaded. The level grows
//!    to one more than each of theirs. Levels are in a map beside the commits, so no commit is
//!    copied.
//! 3. If a parent is not loaded, read it, and put both on the path. Refuse a commit that is not
//!    authentic.
//! 4. If all are loaded, the commit is loaded with this level.
//!
//! The loaded commits are closed, and each has a greater level than its parents, at each moment.
//! The type keeps this as its invariant. So of the premises of questions about them only *older
//! parents* is left, for the depth of a description (`Loaded::premises`).

ghost use Rattle.std.specs.Prelude.{◌≡◌, ◌++◌, IfOk, IfSome, OnOk, List, None, Some, length};
ghost use Rattle.std.specs.List.{All};
ghost use Rattle.gix_base.specs.declared.hash.ObjectId.{ObjectId};
ghost use Rattle.gix_revwalk.specs.History.{Entry, Has, History, entry_at};
ghost use Rattle.gix_merge_base.specs.Premises.{IsAcyclicFrom, GenerationsNeverRiseFrom};
ghost use Rattle.gix_object.specs.Authentic.{IsClosed};
ghost use Rattle.gix_history.specs.Origins.{IsCommitOf};
ghost use Rattle.gix_history.specs.Levels.{IsLevelOf, Keeps};
ghost use Rattle.gix_history.specs.Waiting.{IsPending, IsSame};
ghost use Rattle.gix_history.specs.Tries.{IsTried};

use crate::beyond::Beyond;
use crate::error::ReadError;
use crate::known::Tried;
use crate::partial::Partial;
use crate::question::{Question, Refused};
use crate::reader::{Origin, Read, Reader};
use gix_base::hash::ObjectId;
use gix_revwalk::Seed;
use gix_revwalk::graph::{Insert, MemorySource, SourceCommit};
use std::alloc::{AllocError, Allocator, Global};
use std::collections::HashMap;
use std::marker::Model;

/// A commit that waits for its parents.
#[derive(Drop)]
struct Pending<A: Allocator> {
    id: ObjectId,
    commit: SourceCommit<A>,
    /// How many of the parents are loaded.
    settled: usize,
    /// A level that is greater than the levels of these.
    level: u32,
}

/// The commits that some tips reach, each authentic, with levels.
///
/// The level of a commit is one more than the greatest of its parents' (git's
/// technical/commit-graph, "topological level"). It is computed here. Whatever the reader answers,
/// no chain of parents leads in a circle, and no level rises.
#[derive(Drop)]
pub struct Loaded<A: Allocator = Global> {
    commits: MemorySource<A>,
    levels: HashMap<ObjectId, u32, Seed, A>,
    seed: Seed,
}

/// Reads a commit, and refuses it unless it is authentic.
fn open<R: Reader, A: Allocator + Copy>(
    alloc: A,
    id: ObjectId,
    reader: &mut R,
) -> Result<Pending<A>, ReadError>
    ensures pending { IfOk result (λ p. (h : History) → IsPending h p) }
{
    let Some(read) = reader.read(alloc, id)? else {
        return Err(ReadError::Missing(id));
    };
    let Read { commit, origin } = read;
    match origin {
        Origin::Authentic => Ok(Pending {
            id,
            commit,
            settled: 0,
            level: 1,
        }),
        _ => Err(ReadError::NotAuthentic(id)),
    }
}

/// Reads the commit that is wanted, and puts both on the path.
fn descend<R: Reader, A: Allocator + Copy>(
    alloc: A,
    last: Pending<A>,
    wanted: ObjectId,
    path: &mut Vec<Pending<A>, A>,
    reader: &mut R,
) -> Result<(), ReadError>
    ensures { (h : History) → IsPending h last → All (IsPending h) path.old.items
        → All (IsPending h) path.new.items }
{
    let next = open(alloc, wanted, reader)?;
    path.push(last)?;
    path.push(next)?;
    Ok(())
}

/// Makes a path of one commit.
fn path_of<R: Reader, A: Allocator + Copy>(
    alloc: A,
    tip: ObjectId,
    reader: &mut R,
) -> Result<Vec<Pending<A>, A>, ReadError>
    ensures { IfOk result (λ path. (h : History) → All (IsPending h) path.items) }
{
    let mut path = Vec::new(alloc);
    path.push(open(alloc, tip, reader)?)?;
    Ok(path)
}

impl<A: Allocator> Model for Loaded<A> {
    ghost use Rattle.gix_revwalk.specs.History.{History};
    ghost use Rattle.gix_history.specs.Levels.{AreLoaded};

    ghost Value = { History };

    ghost view = { λ l. l.commits };

    ghost invariant = { λ l. AreLoaded l.commits l.levels.entries };
}

impl<A: Allocator + Copy> Loaded<A> {
    /// Creates a history of which nothing is loaded.
    ///
    /// Its hash maps are seeded with `seed`. A program that reads ids of strangers takes a random
    /// one.
    pub fn new(alloc: A, seed: Seed) -> Self
        // No commit is loaded.
        ensures empty { (id : ObjectId) → entry_at result id ≡ None }
    {
        Loaded {
            commits: MemorySource::with_seed(alloc, seed),
            levels: HashMap::with_hasher(alloc, seed),
            seed,
        }
    }

    /// Returns the commits. Each has its level as its generation number.
    pub fn commits(&self) -> &MemorySource<A>
        // The result is the history of the loaded commits.
        ensures { result.now ≡ self.now }
    {
        &self.commits
    }

    /// Returns how many commits are loaded.
    pub fn len(&self) -> usize {
        self.levels.len()
    }

    /// Guarantees that the loaded commits are acyclic, with ordered generations. Does nothing else.
    ///
    /// Each parent is loaded, and each commit is what a content says whose hash is its id. So the
    /// commits that are loaded reach nothing else, whatever lies beyond. Of the premises of questions
    /// about them only *older parents* is left, for the depth of a description.
    pub fn premises(&self)
        // The history of the loaded commits is acyclic from any ids.
        ensures acyclic { (ids : List ObjectId) → IsAcyclicFrom self.now ids }

        // The history of the loaded commits has ordered generations from any ids.
        ensures ordered { (ids : List ObjectId) → GenerationsNeverRiseFrom self.now ids }

        // From ids that are all loaded, the history is acyclic, whatever commits lie beyond.
        ensures acyclic_on { (beyond : History) (ids : List ObjectId) → All (Has self.now) ids
            → IsAcyclicFrom (self.now ++ beyond) ids }

        // From ids that are all loaded, generations are ordered, whatever commits lie beyond.
        ensures ordered_on { (beyond : History) (ids : List ObjectId) → All (Has self.now) ids
            → GenerationsNeverRiseFrom (self.now ++ beyond) ids }

        // Each parent of a loaded commit is loaded.
        ensures closed { IsClosed self.now }

        // For each loaded commit, a content whose hash is the id says the parents and the commit
        // date.
        ensures authentic { (id : ObjectId) (commit : Entry) → entry_at self.now id ≡ Some commit
            → IsCommitOf id commit }
    {
        let _ = &self.commits;
    }

    /// Returns the level of the commit `id`; `None` if it is not loaded.
    ///
    /// If memory ran out before the level of a commit was noted, the commit counts as not loaded.
    pub fn level(&self, id: ObjectId) -> Option<u32>
        // If there is a level, the commit `id` is loaded, and the level is its generation number
        // and less than infinity (2^32 - 1).
        ensures { IfSome result (IsLevelOf self.now id) }
    {
        self.levels.get(&id).copied()
    }

    /// Goes over parents that are loaded, up to the first that is not, which it returns.
    fn settle(&self, pending: &mut Pending<A>) -> Option<ObjectId>
        requires { IsPending self.now pending.old }
        ensures same { IsSame pending.old pending.new }
        ensures pending { IsPending self.now pending.new }
        ensures all { result ≡ None → pending.new.settled ≡ length pending.new.commit.parents.items }
    {
        for i in pending.settled..pending.commit.parents.len() {
            let id = pending.commit.parents[i];
            let Some(level) = self.level(id) else {
                return Some(id);
            };
            pending.level = pending.level.max(level.saturating_add(1));
            pending.settled = i + 1;
        }
        None
    }

    /// Adds a commit whose parents are loaded.
    fn put(&mut self, pending: Pending<A>) -> Result<(), ReadError>
        requires pending { IsPending self.old pending }
        requires all { pending.settled ≡ length pending.commit.parents.items }
        ensures { Keeps self.old self.new }
    {
        let Pending {
            id,
            mut commit,
            settled: _,
            level,
        } = pending;
        if level == u32::MAX {
            return Err(ReadError::TooDeep(id));
        }
        commit.generation = Some(level);
        self.levels.reserve(1)?;
        match self.commits.insert(id, commit) {
            Ok(()) => {}
            Err(_) => return Err(ReadError::OutOfMemory),
        }
        self.levels.insert(id, level)?;
        Ok(())
    }

    /// Goes on with the last commit of a path.
    fn advance<R: Reader>(
        &mut self,
        alloc: A,
        mut last: Pending<A>,
        path: &mut Vec<Pending<A>, A>,
        reader: &mut R,
    ) -> Result<(), ReadError>
        requires last { IsPending self.old last }
        requires path { All (IsPending self.old) path.old.items }
        ensures kept { Keeps self.old self.new }
        ensures path { All (IsPending self.new) path.new.items }
    {
        match self.settle(&mut last) {
            None => self.put(last),
            Some(wanted) => descend(alloc, last, wanted, path, reader),
        }
    }

    /// Goes on until no commit waits.
    fn walk<R: Reader>(
        &mut self,
        alloc: A,
        path: &mut Vec<Pending<A>, A>,
        reader: &mut R,
    ) -> Result<(), ReadError>
        requires { All (IsPending self.old) path.old.items }
        ensures { Keeps self.old self.new }
    {
        for _ in 0..u64::MAX {
            let Some(last) = path.pop() else {
                return Ok(());
            };
            self.advance(alloc, last, path, reader)?;
        }
        Ok(())
    }

    /// Loads a commit and all that it reaches.
    fn load_tip<R: Reader>(
        &mut self,
        alloc: A,
        tip: ObjectId,
        reader: &mut R,
    ) -> Result<(), ReadError>
        ensures kept { Keeps self.old self.new }
        ensures there { OnOk result (Has self.new tip) }
    {
        if self.level(tip).is_some() {
            return Ok(());
        }
        let mut path = path_of(alloc, tip, reader)?;
        self.walk(alloc, &mut path, reader)?;
        match self.level(tip) {
            Some(_) => Ok(()),
            None => Err(ReadError::Failed(tip)),
        }
    }

    /// Loads all that `tips` reach, parents first.
    ///
    /// # Errors
    ///
    /// Any [`ReadError`]. What was loaded stays, and the call can be repeated.
    pub fn load<R: Reader>(
        &mut self,
        alloc: A,
        tips: &[ObjectId],
        reader: &mut R,
    ) -> Result<(), ReadError>
        // Also after an error, each loaded commit is still loaded, unchanged.
        ensures kept { Keeps self.old self.new }

        // After a success all tips are loaded.
        ensures there { OnOk result (All (Has self.new) tips.now) }
    {
        for tip in tips {
            self.load_tip(alloc, *tip, reader)?;
        }
        Ok(())
    }

    /// Tries to answer a question over the loaded commits.
    ///
    /// An answer is right for every history that has these commits, whatever `K` has beyond them. A
    /// commit that is not loaded is wanted, and never counts as missing.
    ///
    /// # Errors
    ///
    /// [`AllocError`]: an allocation failed.
    pub fn try_ask<K: Beyond, Q: Question>(
        &self,
        question: &Q,
    ) -> Result<Tried<Q::Answer>, AllocError>
        // An answer has the meaning that the question names, in the history of the loaded commits,
        // followed by those of `K`.
        ensures { IfOk result (IsTried (Q.means question.now (self.now ++ K.beyond))) }
    {
        let mut source = Partial::<&MemorySource<A>, K>::new(&self.commits);
        match question.ask(self.seed, &mut source) {
            Ok(answer) => Ok(Tried::Answered(answer)),
            Err(Refused::OutOfMemory) => Err(AllocError),
            Err(Refused::Source) => match source.wanted {
                Some(id) => Ok(Tried::Wants(id)),
                None => Err(AllocError),
            },
        }
    }

    /// Answers a question, and loads what it names, and then each commit that it wants.
    ///
    /// # Errors
    ///
    /// Any [`ReadError`]. What was loaded stays, and the call can be repeated.
    pub fn ask<K: Beyond, Q: Question, R: Reader>(
        &mut self,
        alloc: A,
        question: &Q,
        reader: &mut R,
    ) -> Result<Q::Answer, ReadError>
        // Also after an error, each loaded commit is still loaded, unchanged.
        ensures kept { Keeps self.old self.new }

        // The answer has the meaning that the question names, in the history of the loaded commits,
        // followed by those of `K`.
        ensures means { IfOk result (Q.means question.now (self.new ++ K.beyond)) }
    {
        for _ in 0..u64::MAX {
            match self.try_ask::<K, Q>(question)? {
                Tried::Answered(answer) => return Ok(answer),
                Tried::Wants(id) => self.load(alloc, &[id], reader)?,
            }
        }
        Err(ReadError::OutOfMemory)
    }
}
