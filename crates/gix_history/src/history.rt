//! A history that is read as questions ask for it.

ghost use Rattle.std.specs.Prelude.{◌≡◌, ◌++◌, IfOk, None};
ghost use Rattle.gix_base.specs.declared.hash.ObjectId.{ObjectId};
ghost use Rattle.gix_revwalk.specs.History.{entry_at};
ghost use Rattle.gix_history.specs.Grown.{Grows};

use crate::ahead::Ahead;
use crate::beyond::Beyond;
use crate::error::ReadError;
use crate::known::{Known, Tried};
use crate::question::Question;
use crate::reader::Reader;
use gix_base::hash::ObjectId;
use gix_revwalk::Seed;
use gix_revwalk::graph::SourceCommit;
use std::alloc::{Allocator, Global};

/// The least number of commits that are read at once, if there are as many.
pub(crate) const LEAST: usize = 64;

/// A history: the commits that were read, and a reader for the others.
#[derive(Drop)]
pub struct History<R: Reader + Drop, A: Allocator = Global> {
    /// The commits that were read, kept for the next question.
    pub known: Known<A>,
    /// The reader, which may know more about an error.
    pub reader: R,
}

impl<R: Reader + Drop, A: Allocator + Copy> History<R, A> {
    /// Creates a history of which nothing was read.
    ///
    /// Its hash maps are seeded with `seed`. A program that reads ids of strangers takes a random
    /// one.
    pub fn new(alloc: A, seed: Seed, reader: R) -> Self
        // No commit is known.
        ensures empty { (id : ObjectId) → entry_at result.known.commits id ≡ None }

        // The reader is the one that was passed.
        ensures reader { result.reader ≡ reader }
    {
        History {
            known: Known::new(alloc, seed),
            reader,
        }
    }

    /// Answers a question, and reads the commits that the answer needs.
    ///
    /// If the question names a commit that was not read, all that it names are read, and 64 of their
    /// ancestors. Then it is tried over the commits that were read. If it wants another one, that
    /// commit is read, and ancestors of all that the call has met: as many as the call has read so
    /// far, and at least 64. Then the question is tried again. For a question that needs all
    /// ([`Question::needs_all`]) all of these ancestors are read.
    ///
    /// Ancestors are read by their commit dates, the newest first. Those that earlier calls have read
    /// are passed over. They count as read, except those newer than the wanted commit.
    ///
    /// If no commit is known, and the answer is how many commits some of them reach
    /// ([`Question::counts`]), all of these are read at once, and counted as they are read.
    ///
    /// # Errors
    ///
    /// Any [`ReadError`] for a commit that the answer needs. A commit that is read ahead and fails
    /// is left unread. What was read stays.
    pub fn ask<K: Beyond, Q: Question>(
        &mut self,
        alloc: A,
        question: &Q,
    ) -> Result<Q::Answer, ReadError>
        // Also after an error, each known commit is still known, unchanged, with the same origin.
        ensures grown { Grows self.old.known self.new.known }

        // The answer has the meaning that the question names, in the history of the known commits,
        // followed by those of `K`.
        ensures means { IfOk result (Q.means question.now (self.new.known.commits ++ K.beyond)) }
    {
        if let Some(answer) = self.ask_count::<K, Q>(alloc, question)? {
            return Ok(answer);
        }
        let mut ahead = Ahead::new(alloc, &self.known, question.needs_all());
        self.read_named(alloc, question, &mut ahead)?;
        self.ask_over::<K, Q>(alloc, question, &mut ahead)
    }

    /// Tries a question, and reads the commit that it wants and others, until it has an answer.
    fn ask_over<K: Beyond, Q: Question>(
        &mut self,
        alloc: A,
        question: &Q,
        ahead: &mut Ahead<A>,
    ) -> Result<Q::Answer, ReadError>
        ensures grown { Grows self.old.known self.new.known }
        ensures means { IfOk result (Q.means question.now (self.new.known.commits ++ K.beyond)) }
    {
        for _ in 0..u64::MAX {
            match self.known.try_ask::<K, Q>(question)? {
                Tried::Answered(answer) => return Ok(answer),
                Tried::Wants(id) => self.read_from(alloc, id, ahead)?,
            }
        }
        Err(ReadError::OutOfMemory)
    }

    /// Returns the commit `id`, and reads it if it is not known.
    ///
    /// # Errors
    ///
    /// Any [`ReadError`].
    pub fn commit(&mut self, alloc: A, id: ObjectId) -> Result<SourceCommit<A>, ReadError> {
        self.read_one(alloc, id)?;
        match self.known.commits().get(alloc, id)? {
            Some(commit) => Ok(commit),
            None => Err(ReadError::Missing(id)),
        }
    }

    /// Forgets all commits that were read.
    pub fn forget(&mut self, alloc: A) {
        self.known = self.known.emptied(alloc);
    }
}
