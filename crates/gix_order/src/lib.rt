//! Sorts a list of commits so that no commit comes before one of its children (git-rev-list,
//! "Commit Ordering").
//!
//! # Algorithm
//!
//! A walk meets each commit of the list once, and then the parents of each commit that it shows
//! (`walk.rt`). It counts how often each commit is still to be met (`counts.rt`). If that is not to
//! happen again, all children of the commit were shown, and it waits in the front (`front.rt`): by
//! date in a heap, and otherwise on a stack. This is Kahn's algorithm.
#![tactic(auto)]

ghost use Rattle.std.specs.Prelude.{IfOk};
ghost use Rattle.gix_order.specs.Orders.{listed, IsInOrder};

mod commits;
mod counts;
mod front;
pub mod laws;
mod walk;

pub use commits::{Commits, Order};
use std::alloc::{AllocError, Global};
use walk::Walk;

/// Returns the commits of a list in an order, by their places in the list.
///
/// There is only one such answer (law [`laws::order_is_unique`]). A commit is left out if it is its
/// own ancestor in the list, or if such a commit leads to it (law [`laws::none_lost`]). A parent
/// past the end of the list is passed over. The walk takes a step for each commit and for each
/// parent. By date, a step takes the logarithm of the number of commits that wait.
///
/// # Errors
///
/// `AllocError` if an allocation fails, or if commits and parents are together 2^64 or more.
pub fn in_order(alloc: Global, commits: &Commits, order: Order) -> Result<Vec<usize>, AllocError>
    // The answer has the commits of the list in this order.
    ensures { IfOk result (λ found. IsInOrder order (listed commits.now) found.items) }
{
    let mut walk = Walk::new(alloc, commits, order)?;
    'show: while walk.show_next(commits)? {}
    Ok(walk.shown)
}
