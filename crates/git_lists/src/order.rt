//! Puts commits into git's order: of the commits that were met, the newest comes next, and of those
//! with one date the one that was met first. A commit that comes next lets its parents be met.

use git_session::queue::Queue;
use git_session::session::Session;
use git_session::stop::Stop;
use gix_base::hash::ObjectId;
use gix_revwalk::Seed;
use std::alloc::{AllocError, Global};
use std::collections::HashMap;

/// A commit that came.
#[derive(Clone, Copy, PartialEq, Eq)]
pub(crate) struct Come {
    pub(crate) id: ObjectId,
    /// Its date, in seconds since 1970.
    pub(crate) time: i64,
    /// The number of its parents.
    pub(crate) parents: usize,
}

/// A set of commits.
pub(crate) type Ids = HashMap<ObjectId, (), Seed, Global>;

/// Returns a set of commits.
pub(crate) fn set_of(session: &Session<'_>, ids: &[ObjectId]) -> Result<Ids, AllocError> {
    let mut set = HashMap::with_hasher(session.alloc, session.repository.seed());
    for id in ids {
        set.insert(*id, ())?;
    }
    Ok(set)
}

/// Lets commits come one after another.
#[derive(Drop)]
pub(crate) struct Walk {
    /// The commits that may come; `None` if all may.
    within: Option<Ids>,
    /// The date of the oldest commit whose parents are met, if it is limited.
    since: Option<i64>,
    is_first_parent: bool,
    met: Ids,
    /// The commits that were met and did not come yet.
    waiting: Queue<ObjectId>,
}

impl Walk {
    /// Begins a walk at commits, of which a newer one comes first.
    ///
    /// Only commits of `within` come, if it is a set.
    ///
    /// # Errors
    ///
    /// Those of [`Walk::next`].
    pub(crate) fn new(
        session: &mut Session<'_>,
        within: Option<Ids>,
        is_first_parent: bool,
        starts: &[ObjectId],
    ) -> Result<Walk, Stop> {
        let mut walk = Walk {
            within,
            since: None,
            is_first_parent,
            met: HashMap::with_hasher(session.alloc, session.repository.seed()),
            waiting: Queue::new(session.alloc),
        };
        walk.meet(session, starts)?;
        Ok(walk)
    }

    /// Lets no parents of commits before a date be met, as git does if nothing is excluded.
    pub(crate) fn limited(mut self, since: Option<i64>) -> Walk {
        self.since = since;
        self
    }

    /// Returns whether a commit may come that was not met yet.
    fn is_new(&self, id: &ObjectId) -> bool {
        let is_within = match &self.within {
            Some(within) => within.contains_key(id),
            None => true,
        };
        is_within && !self.met.contains_key(id)
    }

    /// Meets commits.
    fn meet(&mut self, session: &mut Session<'_>, ids: &[ObjectId]) -> Result<(), Stop> {
        for id in ids {
            if self.is_new(id) {
                let time = session.repository.entry(*id)?.time;
                self.met.insert(*id, ())?;
                self.waiting.push(time, *id)?;
            }
        }
        Ok(())
    }

    /// Meets the parents of a commit. Returns how many it has.
    fn meet_parents(&mut self, session: &mut Session<'_>, id: ObjectId) -> Result<usize, Stop> {
        let entry = session.repository.entry(id)?;
        let is_old = self.since.is_some_and(|since| entry.time < since);
        let count = if is_old {
            0
        } else if self.is_first_parent {
            1
        } else {
            entry.parents.len()
        };
        self.meet(session, entry.parents.get(..count).unwrap_or(&[]))?;
        Ok(entry.parents.len())
    }

    /// Returns whether a commit was met.
    pub(crate) fn has_met(&self, id: &ObjectId) -> bool {
        self.met.contains_key(id)
    }

    /// Returns whether the commit that comes next is newer than a date.
    fn is_newer(&self, time: i64) -> bool {
        match self.waiting.next_time() {
            Some(next) => next > time,
            None => false,
        }
    }

    /// Lets commits come, as long as the next one is newer than a date.
    ///
    /// # Errors
    ///
    /// Those of [`Walk::next`].
    pub(crate) fn pass_newer(&mut self, session: &mut Session<'_>, time: i64) -> Result<(), Stop> {
        for _ in 0..usize::MAX {
            if !self.is_newer(time) {
                break;
            }
            self.next(session)?;
        }
        Ok(())
    }

    /// Returns the commit that comes next; `None` after the last.
    ///
    /// # Errors
    ///
    /// `Refused` if the commit or a parent of it is not read. git ends there, too.
    pub(crate) fn next(&mut self, session: &mut Session<'_>) -> Result<Option<Come>, Stop> {
        let Some((time, id)) = self.waiting.pop() else {
            return Ok(None);
        };
        let parents = self.meet_parents(session, id)?;
        Ok(Some(Come { id, time, parents }))
    }
}

/// Returns all commits of a walk, in their order.
pub(crate) fn all_of(session: &mut Session<'_>, walk: &mut Walk) -> Result<Vec<Come>, Stop> {
    let mut all = Vec::new(session.alloc);
    for _ in 0..usize::MAX {
        let Some(come) = walk.next(session)? else {
            break;
        };
        all.push(come)?;
    }
    Ok(all)
}
