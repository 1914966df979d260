//! Reads commits ahead of a question, the newest first.
//!
//! # Algorithm
//!
//! 1. If a commit that the question names is not known, read all commits that it names, and 64 of
//!    their ancestors. Ancestors are read by their commit dates, the newest first. Of two with the
//!    same date the one met first is read first, as in git's walks.
//! 2. Ask over `Partial`, a source over the commits that were read (`partial.rt`). A look-up of any
//!    other commit fails, and notes that this commit is wanted.
//! 3. If the question has an answer, return it. The history of `Partial` is the commits that were
//!    read, and then those of a type parameter `K`. Nothing is assumed of `K`. So the contract of
//!    the walk says that the answer is right for every history that has the commits that were read.
//! 4. Otherwise read the wanted commit, and then ancestors of all that this call has met. Read as
//!    many of them as the call has read so far, and at least 64. A commit that is read ahead and
//!    fails is left unread. A count or list of all that some commits reach needs all of these
//!    (`Question::needs_all`), so steps 1 and 4 then read them at once.
//! 5. Commits that earlier calls have read are passed over on the way. They count as read, except
//!    those newer than the wanted commit: a walk that takes the newest first has visited them as
//!    well.
//! 6. Ask again, with a new graph.
//!
//! What a call has read doubles from try to try, so there are few tries. A question is a type with
//! the trait `Question`. Its ghost member `means` says what an answer means in a history.
//! `gix_history` has the trait, and `gix_questions` the questions.
//!
//! `Known` is the part without a reader, for callers that cannot pass one. `try_ask` answers or
//! names the wanted commit, and `give` adds a commit whose content the caller has read.

ghost use Rattle.std.specs.Prelude.{◌≡◌, None};
ghost use Rattle.gix_revwalk.specs.History.{entry_at};
ghost use Rattle.gix_history.specs.Grown.{Grows};

use crate::error::ReadError;
use crate::history::{History, LEAST};
use crate::known::Known;
use crate::question::Question;
use crate::reader::Reader;
use gix_base::hash::ObjectId;
use gix_revwalk::Seed;
use gix_revwalk::graph::SourceCommit;
use std::alloc::Allocator;
use std::collections::{BinaryHeap, HashSet};

/// Is a commit that is known, and whose parents are to be read: the newest is the greatest.
#[derive(Clone, Copy, PartialEq, Eq, PartialOrd, Ord)]
struct Waiting {
    time: i64,
    /// The less, the more parents were noted before its own.
    turn: usize,
    /// Whether it was known before the call.
    was_known: bool,
    /// Where its parents begin among those that the call has noted.
    start: usize,
    /// Where they end.
    end: usize,
}

/// Notes what one call has met of the history, and where to read on.
#[derive(Drop)]
pub(crate) struct Ahead<A: Allocator> {
    waiting: BinaryHeap<Waiting, A>,
    /// The parents of what waits or waited.
    parents: Vec<ObjectId, A>,
    /// What waits or waited, and what failed. If nothing was known before the call, what failed
    /// alone: all that waits or waited is known then, and nothing else is.
    met: HashSet<ObjectId, Seed, A>,
    /// Whether all is to be read.
    needs_all: bool,
    /// How many commits were known before the call.
    before: usize,
    /// How many commits that were known before the call count as read.
    passed: usize,
}

impl<A: Allocator + Copy> Ahead<A> {
    /// Makes the notes of a call that has met nothing.
    pub(crate) fn new(alloc: A, known: &Known<A>, needs_all: bool) -> Self {
        Ahead {
            waiting: BinaryHeap::new(alloc),
            parents: Vec::new(alloc),
            needs_all,
            met: HashSet::with_hasher(alloc, known.seed()),
            before: known.len(),
            passed: 0,
        }
    }

    /// Returns how many commits were read in the call, or count as read.
    fn effort(&self, known: &Known<A>) -> usize {
        known
            .len()
            .saturating_sub(self.before)
            .saturating_add(self.passed)
    }

    /// Returns how many commits are to be read next, if so many are enough for what was read.
    fn step(&self, enough: usize) -> usize {
        if self.needs_all { usize::MAX } else { enough }
    }

    /// Lets a commit wait, and returns its time.
    fn wait(&mut self, commit: &SourceCommit<A>, was_known: bool) -> Result<i64, ReadError> {
        let start = self.parents.len();
        self.parents.extend_from_slice(&commit.parents)?;
        self.waiting.push(Waiting {
            time: commit.time,
            turn: usize::MAX - start,
            was_known,
            start,
            end: self.parents.len(),
        })?;
        Ok(commit.time)
    }

    /// Returns whether a commit failed, in a call before which nothing was known.
    fn has_failed(&self, id: ObjectId) -> bool {
        !self.met.is_empty() && self.met.contains(&id)
    }

    /// Removes and returns the newest commit. If it was known before the call, it counts as read
    /// unless it is newer than `wanted`.
    fn pop(&mut self, wanted: i64) -> Option<Waiting> {
        let next = self.waiting.pop()?;
        if next.was_known && next.time <= wanted {
            self.passed = self.passed.saturating_add(1);
        }
        Some(next)
    }
}

impl<R: Reader + Drop, A: Allocator + Copy> History<R, A> {
    /// Reads a commit, unless it is known.
    pub(crate) fn read_one(&mut self, alloc: A, id: ObjectId) -> Result<(), ReadError>
        ensures { Grows self.old.known self.new.known }
    {
        if self.known.has(alloc, id)? {
            return Ok(());
        }
        let Some(read) = self.reader.read(alloc, id)? else {
            return Err(ReadError::Missing(id));
        };
        self.known.add(alloc, id, read)?;
        Ok(())
    }

    /// Reads a commit that is not known, lets it wait, and returns its time.
    fn read_new(&mut self, alloc: A, id: ObjectId, ahead: &mut Ahead<A>) -> Result<i64, ReadError>
        requires { entry_at self.old.known.commits id ≡ None }
        ensures { Grows self.old.known self.new.known }
    {
        let Some(read) = self.reader.read(alloc, id)? else {
            return Err(ReadError::Missing(id));
        };
        let time = ahead.wait(&read.commit, false)?;
        self.known.put(id, read)?;
        Ok(time)
    }

    /// Reads a commit, unless it is known, lets it wait, and returns its time.
    fn read_waiting(
        &mut self,
        alloc: A,
        id: ObjectId,
        ahead: &mut Ahead<A>,
    ) -> Result<i64, ReadError>
        ensures { Grows self.old.known self.new.known }
    {
        match self.known.commits().get(alloc, id)? {
            Some(commit) => ahead.wait(&commit, true),
            None => self.read_new(alloc, id, ahead),
        }
    }

    /// Reads a commit that was not met, and lets it wait, in a call before which nothing was known.
    /// One that fails is left unread.
    fn meet_new(&mut self, alloc: A, id: ObjectId, ahead: &mut Ahead<A>) -> Result<(), ReadError>
        ensures { Grows self.old.known self.new.known }
    {
        if self.known.has(alloc, id)? {
            return Ok(());
        }
        if ahead.has_failed(id) {
            return Ok(());
        }
        match self.read_new(alloc, id, ahead) {
            Ok(_) => Ok(()),
            Err(ReadError::OutOfMemory) => Err(ReadError::OutOfMemory),
            Err(_) => {
                ahead.met.insert(id)?;
                Ok(())
            }
        }
    }

    /// Reads a commit that was not met, and lets it wait. One that fails is left unread.
    fn meet(&mut self, alloc: A, id: ObjectId, ahead: &mut Ahead<A>) -> Result<(), ReadError>
        ensures { Grows self.old.known self.new.known }
    {
        if ahead.before == 0 {
            return self.meet_new(alloc, id, ahead);
        }
        if !ahead.met.insert(id)? {
            return Ok(());
        }
        match self.read_waiting(alloc, id, ahead) {
            Err(ReadError::OutOfMemory) => Err(ReadError::OutOfMemory),
            _ => Ok(()),
        }
    }

    /// Reads the parents of a commit that waited, and lets them wait.
    fn meet_parents(&mut self, alloc: A, of: Waiting, ahead: &mut Ahead<A>) -> Result<(), ReadError>
        ensures { Grows self.old.known self.new.known }
    {
        for place in of.start..of.end {
            let Some(id) = ahead.parents.get(place).copied() else {
                return Ok(());
            };
            self.meet(alloc, id, ahead)?;
        }
        Ok(())
    }

    /// Reads the parents of the commits that wait, the newest first, until `count` more were read or
    /// count as read.
    ///
    /// Known commits that are newer than `wanted` do not count: a walk that takes the newest commit
    /// first has visited them as well.
    fn read_ahead(
        &mut self,
        alloc: A,
        count: usize,
        wanted: i64,
        ahead: &mut Ahead<A>,
    ) -> Result<(), ReadError>
        ensures { Grows self.old.known self.new.known }
    {
        let enough = ahead.effort(&self.known).saturating_add(count);
        for _ in 0..u64::MAX {
            if ahead.effort(&self.known) >= enough {
                return Ok(());
            }
            let Some(next) = ahead.pop(wanted) else {
                return Ok(());
            };
            self.meet_parents(alloc, next, ahead)?;
        }
        Ok(())
    }

    /// Reads the ids that a question names, and lets them wait.
    fn meet_named<Q: Question>(
        &mut self,
        alloc: A,
        question: &Q,
        ahead: &mut Ahead<A>,
    ) -> Result<(), ReadError>
        ensures { Grows self.old.known self.new.known }
    {
        for number in 0..usize::MAX {
            let Some(id) = question.named(number) else {
                return Ok(());
            };
            self.meet(alloc, id, ahead)?;
        }
        Ok(())
    }

    /// Reads the ids that a question names, and then their ancestors, the newest first.
    ///
    /// If all of the ids are known, it reads nothing.
    pub(crate) fn read_named<Q: Question>(
        &mut self,
        alloc: A,
        question: &Q,
        ahead: &mut Ahead<A>,
    ) -> Result<(), ReadError>
        ensures { Grows self.old.known self.new.known }
    {
        self.meet_named(alloc, question, ahead)?;
        if ahead.effort(&self.known) == 0 {
            return Ok(());
        }
        self.read_ahead(alloc, ahead.step(LEAST), i64::MAX, ahead)
    }

    /// Reads the commit `id`, and then ancestors of all that the call has met, the newest first: as
    /// many as were read so far or count as read, and at least 64.
    pub(crate) fn read_from(
        &mut self,
        alloc: A,
        id: ObjectId,
        ahead: &mut Ahead<A>,
    ) -> Result<(), ReadError>
        ensures { Grows self.old.known self.new.known }
    {
        let count = ahead.step(ahead.effort(&self.known).max(LEAST));
        let wanted = self.read_waiting(alloc, id, ahead)?;
        if ahead.before != 0 {
            ahead.met.insert(id)?;
        }
        self.read_ahead(alloc, count, wanted, ahead)
    }
}
