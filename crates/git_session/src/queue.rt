//! Has the order in which git comes by commits: of those that wait the newest comes next, and of
//! those with one date the one that began to wait first.

use std::alloc::{AllocError, Global};
use std::collections::BinaryHeap;

/// Something that waits. The greatest comes next.
#[derive(Clone, Copy, PartialEq, Eq, PartialOrd, Ord)]
struct Waiting<T> {
    time: i64,
    /// A number that is smaller the later it began to wait.
    before: u64,
    item: T,
}

/// Has what waits.
#[derive(Drop)]
pub struct Queue<T: Copy + Ord> {
    waiting: BinaryHeap<Waiting<T>, Global>,
    /// Tells how much began to wait.
    count: u64,
}

impl<T: Copy + Ord> Queue<T> {
    /// Has nothing that waits.
    pub fn new(alloc: Global) -> Queue<T> {
        Queue {
            waiting: BinaryHeap::new(alloc),
            count: 0,
        }
    }

    /// Lets an item with a date wait.
    pub fn push(&mut self, time: i64, item: T) -> Result<(), AllocError> {
        let before = u64::MAX.saturating_sub(self.count);
        self.waiting.push(Waiting { time, before, item })?;
        self.count = self.count.saturating_add(1);
        Ok(())
    }

    /// Returns what comes next, with its date; `None` if nothing waits.
    pub fn pop(&mut self) -> Option<(i64, T)> {
        let next = self.waiting.pop()?;
        Some((next.time, next.item))
    }

    /// Returns the date of what comes next.
    pub fn next_time(&self) -> Option<i64> {
        match self.waiting.peek() {
            Some(next) => Some(next.time),
            None => None,
        }
    }
}
