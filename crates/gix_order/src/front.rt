//! Has the commits that wait, of which the one that comes next leaves first.

ghost use Rattle.std.specs.Prelude.{◌≡◌, ◌≤◌, [], ◌∷◌, IfSome, IfNone, OnOk};
ghost use Rattle.std.specs.List.{AllByRecursion};
ghost use Rattle.std.specs.List.Sorted.{IsPermutation};

use crate::commits::Order;
use std::alloc::{AllocError, Global};
use std::cmp::Reverse;
use std::collections::BinaryHeap;

/// A commit that waits. By date, the greatest comes next.
#[derive(Clone, Copy, PartialEq, Eq, PartialOrd, Ord)]
pub(crate) struct Free {
    pub(crate) time: i64,
    /// The number of commits that were met before it became free.
    pub(crate) since: Reverse<u64>,
    pub(crate) place: usize,
}

/// Has the commits that wait.
#[derive(Drop)]
pub(crate) enum Front {
    /// By date.
    Heap(BinaryHeap<Free, Global>),
    /// In topological order.
    Stack(Vec<Free>),
}

impl Front {
    ghost use Rattle.gix_order.specs.Fronts.{entries, order_of, IsSound, IsAhead};

    /// Returns a front without commits.
    pub(crate) fn new(alloc: Global, order: Order) -> Front
        ensures empty { entries result ≡ [] }
        ensures kept { order_of result ≡ order }
        ensures sound { IsSound result }
    {
        match order {
            Order::Dated => Front::Heap(BinaryHeap::new(alloc)),
            Order::Topological => Front::Stack(Vec::new(alloc)),
        }
    }

    /// Adds a commit.
    pub(crate) fn push(&mut self, free: Free) -> Result<(), AllocError>
        ensures added { OnOk result (IsPermutation (free ∷ entries self.old) (entries self.new)) }
        ensures kept { order_of self.new ≡ order_of self.old }
        ensures sound { OnOk result (IsSound self.old
            → AllByRecursion (λ e. e.since.0 ≤ free.since.0) (entries self.old)
            → IsSound self.new) }
    {
        match self {
            Front::Heap(heap) => heap.push(free)?,
            Front::Stack(stack) => stack.push(free)?,
        }
        Ok(())
    }

    /// Takes the commit that comes next; `None` if there is none.
    pub(crate) fn pop(&mut self) -> Option<Free>
        ensures taken { IfSome result
            (λ f. IsPermutation (entries self.old) (f ∷ entries self.new)) }
        ensures ahead { IfSome result (λ f. IsSound self.old
            → AllByRecursion (IsAhead (order_of self.old) f) (entries self.old)) }
        ensures none { IfNone result (entries self.old ≡ []) }
        ensures kept { order_of self.new ≡ order_of self.old }
        ensures sound { IsSound self.old → IsSound self.new }
    {
        match self {
            Front::Heap(heap) => heap.pop(),
            Front::Stack(stack) => stack.pop(),
        }
    }
}
