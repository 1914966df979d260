//! Says which commits are wanted, and in which order.

use crate::order::Come;

/// Says in which order commits are printed (git-rev-list, "Commit Ordering").
#[derive(Clone, Copy, PartialEq, Eq)]
pub enum Order {
    /// Of the commits that were met, the newest comes next.
    Met,
    /// No commit comes before all of its children, and lines of history stay together.
    Topological,
    /// No commit comes before all of its children, and else the newest comes next.
    Dated,
}

/// Says which commits are wanted.
#[derive(Clone, Copy)]
pub struct Wishes {
    pub order: Order,
    /// The greatest number of commits to print.
    pub most: Option<usize>,
    /// The number of commits to leave out before the first one.
    pub skip: usize,
    /// The date, in seconds since 1970, of the oldest commit that is wanted.
    pub since: Option<i64>,
    /// That of the newest one.
    pub until: Option<i64>,
    pub least_parents: usize,
    pub most_parents: usize,
    /// Tells whether the commits are counted.
    pub counts: bool,
    /// Tells whether the sides of `A...B` are marked.
    pub has_sides: bool,
    /// Tells whether parents are followed.
    pub is_walked: bool,
    /// Tells whether revisions are sorted before the first one is printed.
    pub is_sorted: bool,
    /// Tells whether only commits are wanted that reach an excluded one which was named.
    pub is_on_path: bool,
    /// Tells whether only first parents are followed.
    pub is_first_parent: bool,
    /// Tells whether the commits behind the last ones are printed.
    pub has_boundary: bool,
}

impl Wishes {
    /// Asks for all commits.
    pub fn new() -> Wishes {
        Wishes {
            order: Order::Met,
            most: None,
            skip: 0,
            since: None,
            until: None,
            least_parents: 0,
            most_parents: usize::MAX,
            counts: false,
            has_sides: false,
            is_walked: true,
            is_sorted: true,
            is_on_path: false,
            is_first_parent: false,
            has_boundary: false,
        }
    }

    /// Returns whether a commit of a date is older than is wanted.
    pub(crate) fn is_old(&self, time: i64) -> bool {
        match self.since {
            Some(since) => time < since,
            None => false,
        }
    }

    /// Returns whether a commit of a date is newer than is wanted.
    pub(crate) fn is_new(&self, time: i64) -> bool {
        match self.until {
            Some(until) => time > until,
            None => false,
        }
    }

    /// Returns whether a commit is wanted.
    pub(crate) fn wants(&self, come: Come) -> bool {
        !self.is_old(come.time)
            && !self.is_new(come.time)
            && self.least_parents <= come.parents
            && come.parents <= self.most_parents
    }

    /// Returns whether each commit of the set is wanted.
    pub(crate) fn wants_all(&self) -> bool {
        self.most.is_none()
            && self.skip == 0
            && self.since.is_none()
            && self.until.is_none()
            && self.least_parents == 0
            && self.most_parents == usize::MAX
            && self.is_walked
            && !self.is_on_path
            && !self.is_first_parent
            && !self.has_boundary
    }
}
