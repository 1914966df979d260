//! Meets the commits of a list and their parents, and shows one commit after another.

ghost use Rattle.std.specs.Prelude.{◌≡◌, ◌<◌, [], ◌∷◌, slice_index, IfOk, OnOk, MatchBool};
ghost use Rattle.gix_order.specs.Orders.{listed, places};

use crate::commits::{Commits, Order};
use crate::counts::{meetings, take_one};
use crate::front::{Free, Front};
use std::alloc::{AllocError, Global};
use std::cmp::Reverse;

/// Shows the commits of a list.
#[derive(Drop)]
pub(crate) struct Walk {
    /// How often each commit is still to be met.
    pub(crate) left: Vec<usize>,
    pub(crate) front: Front,
    /// The number of commits that were met.
    pub(crate) met: u64,
    /// The commits that were shown.
    pub(crate) shown: Vec<usize>,
}

impl Walk {
    ghost use Rattle.gix_order.specs.declared.commits.Order.{Order};
    ghost use Rattle.gix_order.specs.Walks.{IsBetween, Meets, ShowsNext, ShowsNone};

    /// Meets a commit, which waits from now on if it is in the list and not met again.
    fn meet(&mut self, commits: &Commits, place: usize) -> Result<(), AllocError>
        ensures { OnOk result (Meets (listed commits.now) (place ∷ []) self.old self.new) }
    {
        let since = self.met;
        self.met = since.checked_add(1).ok_or(AllocError)?;
        if !take_one(&mut self.left, place) {
            return Ok(());
        }
        let free = Free {
            time: commits.time(place),
            since: Reverse(since),
            place,
        };
        self.front.push(free)?;
        Ok(())
    }

    /// Meets the parents of a commit, in their order.
    fn meet_parents(&mut self, commits: &Commits, parents: &[usize]) -> Result<(), AllocError>
        ensures { OnOk result (Meets (listed commits.now) parents.now self.old self.new) }
    {
        for parent in parents {
            self.meet(commits, *parent)?;
        }
        Ok(())
    }

    /// Meets all commits of the list.
    fn meet_list(&mut self, commits: &Commits, order: Order) -> Result<(), AllocError>
        ensures { OnOk result (Meets (listed commits.now) (places order (listed commits.now).count)
            self.old self.new) }
    {
        for k in 0..commits.len() {
            self.meet(commits, place_at(order, commits.len(), k))?;
        }
        Ok(())
    }

    /// Begins with all commits of a list, none of which was shown.
    pub(crate) fn new(alloc: Global, commits: &Commits, order: Order) -> Result<Walk, AllocError>
        ensures { IfOk result (IsBetween order (listed commits.now)) }
    {
        let mut walk = Walk {
            left: meetings(alloc, commits)?,
            front: Front::new(alloc, order),
            met: 0,
            shown: Vec::new(alloc),
        };
        walk.meet_list(commits, order)?;
        Ok(walk)
    }

    /// Shows the commit that comes next. Returns whether there was one.
    pub(crate) fn show_next(&mut self, commits: &Commits) -> Result<bool, AllocError>
        ensures { IfOk result (λ b. (order : Order) → IsBetween order (listed commits.now) self.old
            → MatchBool b (ShowsNext order (listed commits.now) self.old self.new)
            (ShowsNone order (listed commits.now) self.old self.new)) }
    {
        let Some(free) = self.front.pop() else {
            return Ok(false);
        };
        self.shown.push(free.place)?;
        self.meet_parents(commits, commits.parents(free.place))?;
        Ok(true)
    }
}

/// Returns the commit of a list that is met after a number of others.
fn place_at(order: Order, count: usize, number: usize) -> usize
    requires { number < count }
    ensures { result ≡ slice_index (places order count) number }
{
    match order {
        Order::Dated => number,
        Order::Topological => count - 1 - number,
    }
}
