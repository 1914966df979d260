//! Goes through a history as git does for merge bases (git's `paint_down_to_common`), to learn in
//! which order it meets the common ancestors of two sides.

use git_session::queue::Queue;
use git_session::session::Session;
use git_session::stop::{Stop, not_supported};
use gix_base::hash::ObjectId;
use gix_revwalk::Seed;
use std::alloc::Global;
use std::collections::HashMap;

/// Says from where a commit was reached.
#[derive(Clone, Copy)]
struct Paint {
    from_first: bool,
    from_others: bool,
    /// Tells whether it was reached from a common ancestor.
    is_stale: bool,
}

/// The paint of a commit that was not reached.
const NOWHERE: Paint = Paint {
    from_first: false,
    from_others: false,
    is_stale: false,
};

/// The paint of the commit on one side.
const FIRST: Paint = Paint {
    from_first: true,
    from_others: false,
    is_stale: false,
};

/// The paint of the commits on the other side.
const OTHERS: Paint = Paint {
    from_first: false,
    from_others: true,
    is_stale: false,
};

impl Paint {
    /// Tells whether there is nothing in another paint that this one lacks.
    fn has_all_of(self, other: Paint) -> bool {
        (self.from_first || !other.from_first)
            && (self.from_others || !other.from_others)
            && (self.is_stale || !other.is_stale)
    }

    /// Returns both paints together.
    fn with(self, other: Paint) -> Paint {
        Paint {
            from_first: self.from_first || other.from_first,
            from_others: self.from_others || other.from_others,
            is_stale: self.is_stale || other.is_stale,
        }
    }
}

/// A commit that was reached.
#[derive(Clone, Copy)]
struct Reached {
    paint: Paint,
    /// Tells how often it waits.
    waits: usize,
    /// Tells whether it was met as a common ancestor.
    is_met: bool,
}

/// Goes through a history.
#[derive(Drop)]
struct Walk {
    reached: HashMap<ObjectId, Reached, Seed, Global>,
    waiting: Queue<ObjectId>,
    /// Tells how many wait that are not stale.
    fresh: usize,
    /// The common ancestors that were met.
    met: Vec<ObjectId>,
}

/// Returns the date of a commit by which git goes through a history.
///
/// # Errors
///
/// `NotSupported` if the commit is from a commit-graph: git may follow the corrected dates of that,
/// which are not read.
fn date_of(session: &mut Session<'_>, id: ObjectId) -> Result<i64, Stop> {
    let entry = session.repository.entry(id)?;
    if entry.generation.is_some() {
        return Err(not_supported(
            session.alloc,
            &[b"the order of merge bases with one date is not supported"],
        ));
    }
    Ok(entry.time)
}

impl Walk {
    /// Returns what is known of a commit.
    fn known(&self, id: ObjectId) -> Reached {
        match self.reached.get(&id) {
            Some(reached) => *reached,
            None => Reached {
                paint: NOWHERE,
                waits: 0,
                is_met: false,
            },
        }
    }

    /// Notes what is known of a commit.
    fn note(&mut self, id: ObjectId, new: Reached) -> Result<(), Stop> {
        let old = self.known(id);
        if !old.paint.is_stale {
            self.fresh = self.fresh.saturating_sub(old.waits);
        }
        if !new.paint.is_stale {
            self.fresh = self.fresh.saturating_add(new.waits);
        }
        self.reached.insert(id, new)?;
        Ok(())
    }

    /// Paints a commit, and lets it wait.
    fn put(&mut self, session: &mut Session<'_>, id: ObjectId, paint: Paint) -> Result<(), Stop> {
        let time = date_of(session, id)?;
        let old = self.known(id);
        self.note(
            id,
            Reached {
                paint: old.paint.with(paint),
                waits: old.waits.saturating_add(1),
                is_met: old.is_met,
            },
        )?;
        self.waiting.push(time, id)?;
        Ok(())
    }

    /// Meets a commit that no longer waits. Returns the paint that its parents get.
    fn meet(&mut self, id: ObjectId) -> Result<Paint, Stop> {
        let old = self.known(id);
        let is_common = old.paint.from_first && old.paint.from_others && !old.paint.is_stale;
        if is_common && !old.is_met {
            self.met.push(id)?;
        }
        self.note(
            id,
            Reached {
                paint: old.paint,
                waits: old.waits.saturating_sub(1),
                is_met: old.is_met || is_common,
            },
        )?;
        Ok(Paint {
            from_first: old.paint.from_first,
            from_others: old.paint.from_others,
            is_stale: old.paint.is_stale || is_common,
        })
    }

    /// Paints the parents of a commit that lack a part of the paint.
    fn paint_parents(
        &mut self,
        session: &mut Session<'_>,
        id: ObjectId,
        paint: Paint,
    ) -> Result<(), Stop> {
        let parents = session.repository.entry(id)?.parents;
        for parent in parents.iter() {
            if !self.known(*parent).paint.has_all_of(paint) {
                self.put(session, *parent, paint)?;
            }
        }
        Ok(())
    }

    /// Goes on, until all that waits is stale.
    fn finish(&mut self, session: &mut Session<'_>) -> Result<(), Stop> {
        for _ in 0..u64::MAX {
            if self.fresh == 0 {
                break;
            }
            let Some((_, id)) = self.waiting.pop() else {
                break;
            };
            let paint = self.meet(id)?;
            self.paint_parents(session, id, paint)?;
        }
        Ok(())
    }
}

/// Returns common ancestors of `first` and a merge of `others`, in the order in which git meets
/// them. All merge bases are among them.
///
/// # Errors
///
/// - `NotSupported` if a commit is from a commit-graph.
/// - `Refused` if a commit is not read.
pub(crate) fn met(
    session: &mut Session<'_>,
    first: ObjectId,
    others: &[ObjectId],
) -> Result<Vec<ObjectId>, Stop> {
    let mut walk = Walk {
        reached: HashMap::with_hasher(session.alloc, session.repository.seed()),
        waiting: Queue::new(session.alloc),
        fresh: 0,
        met: Vec::new(session.alloc),
    };
    walk.put(session, first, FIRST)?;
    for other in others {
        walk.put(session, *other, OTHERS)?;
    }
    walk.finish(session)?;
    Ok(walk.met)
}
