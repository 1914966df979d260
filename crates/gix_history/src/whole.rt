//! Reads all that some commits reach, and counts it.
//!
//! # Algorithm
//!
//! A count of all that some commits reach (`Question::counts`) needs no walk if nothing was read
//! before. One list has these commits, and then the parents of each commit that was read. Each
//! commit of the list is read and counted unless it is known. At the end of the list, the commits
//! that are known are exactly those that are reached. If a commit fails, the steps of `ahead.rt`
//! follow.

ghost use Rattle.std.specs.Prelude.{◌≡◌, ◌++◌, ◌+◌, ℕ, List, IfOk, IfSome, IsTrue, Some, None};
ghost use Rattle.gix_base.specs.declared.hash.ObjectId.{ObjectId};
ghost use Rattle.gix_revwalk.specs.History.{IsAncestorOfOne, entry_at};
ghost use Rattle.gix_revwalk.specs.Numbers.{item_at};
ghost use Rattle.gix_revwalk.specs.Sizes.{HasSize};
ghost use Rattle.gix_history.specs.Grown.{Grows};
ghost use Rattle.gix_history.specs.Whole.{IsListed, Reads};

use crate::beyond::Beyond;
use crate::error::ReadError;
use crate::history::History;
use crate::question::Question;
use crate::reader::Reader;
use gix_base::hash::ObjectId;
use std::alloc::Allocator;

/// Returns the id at a place of a list; `None` past its end.
fn listed_at(list: &[ObjectId], place: usize) -> Option<ObjectId>
    ensures { result ≡ item_at list.now place }
{
    list.get(place).copied()
}

/// Returns the next number; `None` if there is none.
fn next(count: usize) -> Option<usize>
    ensures { IfSome result (λ n. n ≡ count + 1) }
{
    count.checked_add(1)
}

impl<R: Reader + Drop, A: Allocator + Copy> History<R, A> {
    /// Reads a commit that is not known, and lists its parents. Returns `false` if it fails.
    fn read_listed(
        &mut self,
        alloc: A,
        id: ObjectId,
        list: &mut Vec<ObjectId, A>,
    ) -> Result<bool, ReadError>
        requires { entry_at self.old.known.commits id ≡ None }
        ensures grown { Grows self.old.known self.new.known }
        ensures read { IfOk result (λ b. IsTrue b
            → Reads self.old.known.commits list.old.items id self.new.known.commits list.new.items) }
    {
        let read = match self.reader.read(alloc, id) {
            Ok(Some(read)) => read,
            Err(ReadError::OutOfMemory) => return Err(ReadError::OutOfMemory),
            _ => return Ok(false),
        };
        list.extend_from_slice(&read.commit.parents)?;
        self.known.put(id, read)?;
        Ok(true)
    }

    /// Reads a listed commit, unless it is known, and returns how many are known. Returns `None` if
    /// it fails.
    fn count_listed(
        &mut self,
        alloc: A,
        id: ObjectId,
        list: &mut Vec<ObjectId, A>,
        count: usize,
    ) -> Result<Option<usize>, ReadError>
        ensures grown { Grows self.old.known self.new.known }
        ensures counted { (tips : List ObjectId) (place : ℕ)
            → IsListed tips self.old.known.commits list.old.items place count
            → item_at list.old.items place ≡ Some id
            → IfOk result (λ found. IfSome found
            (λ n. IsListed tips self.new.known.commits list.new.items (place + 1) n)) }
    {
        if self.known.has(alloc, id)? {
            return Ok(Some(count));
        }
        if self.read_listed(alloc, id, list)? {
            return Ok(next(count));
        }
        Ok(None)
    }

    /// Reads what is listed, and all that it reaches, and counts it. Returns `None` if a commit
    /// fails.
    fn count_list<K: Beyond>(
        &mut self,
        alloc: A,
        list: &mut Vec<ObjectId, A>,
    ) -> Result<Option<usize>, ReadError>
        requires { (id : ObjectId) → entry_at self.old.known.commits id ≡ None }
        ensures grown { Grows self.old.known self.new.known }
        ensures counted { IfOk result (λ found. IfSome found (λ n.
            HasSize (IsAncestorOfOne (self.new.known.commits ++ K.beyond) list.old.items) n)) }
    {
        let mut count = 0usize;
        for place in 0..usize::MAX {
            let Some(id) = listed_at(list, place) else {
                return Ok(Some(count));
            };
            match self.count_listed(alloc, id, list, count)? {
                Some(more) => count = more,
                None => return Ok(None),
            }
        }
        Ok(None)
    }

    /// Answers a question whose answer is how many commits some of them reach. Returns `None` if it
    /// is another question, if a commit is known already, or if a commit fails.
    pub(crate) fn ask_count<K: Beyond, Q: Question>(
        &mut self,
        alloc: A,
        question: &Q,
    ) -> Result<Option<Q::Answer>, ReadError>
        ensures grown { Grows self.old.known self.new.known }
        ensures means { IfOk result (λ found. IfSome found
            (λ answer. Q.means question.now (self.new.known.commits ++ K.beyond) answer)) }
    {
        let Some(tips) = question.counts() else {
            return Ok(None);
        };
        if !self.known.is_empty() {
            return Ok(None);
        }
        let mut list = tips.to_vec(alloc)?;
        match self.count_list::<K>(alloc, &mut list)? {
            Some(count) => Ok(question.counted(tips, count)),
            None => Ok(None),
        }
    }
}
