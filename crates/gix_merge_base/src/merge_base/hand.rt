//! Hands marks to commits, by their numbers, and counts the queue entries that are not stale.
//!
//! The reduction hands on `STALE` alone. There the count is that of the ids that are not stale:
//! each of them counts as queued once, without an entry.
//!
//! # What a function says
//!
//! Painting, the reduction and `is_ancestor` share `hand.rt`: a `Walk` has a `Front` (the queue
//! with its count) and room for the numbers of parents. A function that changes it states what it
//! did (`HandsOn`, `Pops`) and what stayed right (`Keeps`, `IsRight`). It also states what became
//! of the graph: `HoldsSame` if only marks changed, else `Meets`. All of these are in
//! `specs/Front.antt`.

ghost use Rattle.std.specs.Prelude.{◌≡◌, ◌<◌, ◌-◌, ◌^◌, ◌∷◌, [], OnOk, IfOk, IfSome, IsNone, IsTrue, cond};
ghost use Rattle.gix_base.specs.declared.hash.ObjectId.{ObjectId};
ghost use Rattle.gix_revwalk.specs.Graph.{held_len};
ghost use Rattle.gix_revwalk.specs.History.{Has, is_one_of};
ghost use Rattle.gix_revwalk.specs.Faults.{is_source_fault};
ghost use Rattle.gix_merge_base.specs.PaintSteps.{Notes, results_after};
ghost use Rattle.gix_merge_base.specs.Marks.{marks_of, handed_on};
ghost use Rattle.gix_merge_base.specs.Counting.{open_then, unstale};
ghost use Rattle.gix_merge_base.specs.PaintQueue.{marks_at, queued_at, queued_ids, id_of, ids_at, parents_at, mark_or, IsIn, AreIn};
ghost use Rattle.gix_merge_base.specs.Front.{IsQueued, IsRight, Enters, HandsOn, StepsOn, Keeps, Pops, HoldsSame, Meets};

use crate::merge_base::flags::Flags;
use crate::merge_base::gen_then_time::GenThenTime;
use bitflags::Flags as BitFlags;
use gix_base::hash::ObjectId;
use gix_revwalk::graph::{self, Commit, Find, Graph};
use gix_revwalk::numbers::{self, Mark, Number};
use gix_revwalk::queue::PriorityQueue;
use std::alloc::{AllocError, Allocator};

/// Returns the mark that the walk gave a commit; no marks if it gave none.
pub(crate) fn mark_of<S: Find, A: Allocator + Copy>(
    graph: &Graph<S, Commit<Flags, A>, A>,
    number: Number,
) -> Mark<Flags>
    requires { IsIn graph.now number }
    ensures { result ≡ mark_or graph.now (id_of graph.now number) }
{
    match numbers::mark_of(graph, number) {
        Some(mark) => mark,
        None => Mark {
            marks: Flags::empty(),
            queued: 0,
        },
    }
}

/// Returns the count of entries that are not stale, after one more entry is queued for a commit
/// that had `old` and now has the marks `new`.
fn open_after(open_entries: usize, old: Mark<Flags>, new: Flags) -> usize
    requires { open_entries < 2 ^ 64 - 1 }
    ensures { result ≡ open_then open_entries old new }
{
    if !new.is_stale() {
        open_entries + 1
    } else if old.marks.is_stale() {
        open_entries
    } else {
        open_entries.saturating_sub(old.queued as usize)
    }
}

/// Returns the count of entries that are not stale, after an entry of a commit that had `old` has
/// left.
fn open_without(open_entries: usize, old: Mark<Flags>) -> usize
    ensures { result ≡ cond (marks_of old.marks).stale open_entries (open_entries - 1) }
{
    if old.marks.is_stale() {
        open_entries
    } else {
        open_entries.saturating_sub(1)
    }
}

/// Holds the queue of a walk, and counts its open entries.
#[derive(Drop)]
pub(crate) struct Front<A: Allocator> {
    /// The numbers of the queued commits, each as often as it is queued, by generation number, then
    /// time.
    pub(crate) queue: PriorityQueue<GenThenTime, Number, A>,
    /// The number of entries whose commit is not stale; in the reduction, of ids that are not
    /// stale.
    pub(crate) open_entries: usize,
}

impl<A: Allocator + Copy> Front<A> {
    /// Queues a commit once more, and adds marks to those that it has.
    pub(crate) fn enter<S: Find>(
        &mut self,
        number: Number,
        old: Mark<Flags>,
        marks: Flags,
        graph: &mut Graph<S, Commit<Flags, A>, A>,
    ) -> Result<(), AllocError>
        requires number { IsIn graph.old number }
        requires had { old ≡ mark_or graph.old (id_of graph.old number) }
        ensures enters { OnOk result (Enters (marks_of marks) (id_of graph.old number)
            graph.old self.old graph.new self.new) }
        ensures keeps { OnOk result (Keeps (S.history graph.old.source) (marks_of marks)
            graph.old self.old graph.new self.new) }
        ensures same { HoldsSame graph.old graph.new }
    {
        // Memory runs out before either count is full.
        let Some(queued) = old.queued.checked_add(1) else {
            return Err(AllocError);
        };
        if self.open_entries == usize::MAX {
            return Err(AllocError);
        }
        let key = GenThenTime::from(numbers::value(graph, number));
        match self.queue.insert(key, number) {
            Ok(()) => {}
            Err(_) => return Err(AllocError),
        }
        let new = marks.joined(old.marks);
        self.open_entries = open_after(self.open_entries, old, new);
        numbers::set_mark(graph, number, Mark { marks: new, queued });
        Ok(())
    }

    /// Hands marks to a commit, and queues it if it lacked one of them.
    pub(crate) fn hand<S: Find>(
        &mut self,
        number: Number,
        marks: Flags,
        graph: &mut Graph<S, Commit<Flags, A>, A>,
    ) -> Result<(), AllocError>
        requires { IsIn graph.old number }
        ensures hands { OnOk result (Has (S.history graph.old.source) (id_of graph.old number)
            → HandsOn (S.history graph.old.source) (marks_of marks) (id_of graph.old number ∷ [])
            graph.old self.old graph.new self.new) }
        ensures keeps { OnOk result (Keeps (S.history graph.old.source) (marks_of marks)
            graph.old self.old graph.new self.new) }
        ensures same { HoldsSame graph.old graph.new }
    {
        let old = mark_of(graph, number);
        if old.marks.has(marks) {
            return Ok(());
        }
        self.enter(number, old, marks, graph)?;
        Ok(())
    }

    /// Hands marks to each of the commits, and queues those that lacked one of them.
    fn hand_all<S: Find>(
        &mut self,
        numbers: &[Number],
        marks: Flags,
        graph: &mut Graph<S, Commit<Flags, A>, A>,
    ) -> Result<(), AllocError>
        requires { AreIn graph.old numbers.now }
        ensures hands { OnOk result (((c : ObjectId)
            → IsTrue (is_one_of (ids_at graph.old numbers.now) c) → Has (S.history graph.old.source) c)
            → HandsOn (S.history graph.old.source) (marks_of marks) (ids_at graph.old numbers.now)
            graph.old self.old graph.new self.new) }
        ensures keeps { OnOk result (Keeps (S.history graph.old.source) (marks_of marks)
            graph.old self.old graph.new self.new) }
        ensures same { HoldsSame graph.old graph.new }
    {
        for number in numbers {
            self.hand(*number, marks, graph)?;
        }
        Ok(())
    }

    /// Removes a commit with a greatest key from the queue, unless every queued commit is stale.
    pub(crate) fn pop_open<S: Find>(
        &mut self,
        graph: &mut Graph<S, Commit<Flags, A>, A>,
    ) -> Option<Number>
        requires { IsRight (S.history graph.old.source) graph.old self.old }
        ensures none { IsNone result
            → unstale (marks_at graph.old) (queued_ids graph.old self.old.queue) ≡ 0 }
        ensures pops { IfSome result (λ n. Pops (S.history graph.old.source) n
            graph.old self.old graph.new self.new) }
        ensures stays { IsNone result → (graph.new ≡ graph.old) × (self.new ≡ self.old) }
        ensures same { HoldsSame graph.old graph.new }
    {
        if self.open_entries == 0 {
            return None;
        }
        let (_, number) = self.queue.pop()?;
        let old = mark_of(graph, number);
        self.open_entries = open_without(self.open_entries, old);
        numbers::set_mark(
            graph,
            number,
            Mark {
                marks: old.marks,
                queued: old.queued.saturating_sub(1),
            },
        );
        Some(number)
    }
}

/// Makes a commit a result if its marks say so, and returns the marks that it hands on.
fn note<S: Find, A: Allocator + Copy>(
    number: Number,
    results: &mut Vec<ObjectId, A>,
    graph: &mut Graph<S, Commit<Flags, A>, A>,
) -> Result<Flags, AllocError>
    requires { IsIn graph.old number }
    ensures hands_on { IfOk result (λ w. marks_of w ≡ handed_on (marks_at graph.old (id_of graph.old number))) }
    ensures results { OnOk result (results.new.items
        ≡ results_after (marks_at graph.old) (id_of graph.old number) results.old.items) }
    ensures notes { OnOk result (Notes (marks_at graph.old) (id_of graph.old number) (marks_at graph.new)) }
    ensures queued { (c : ObjectId) → queued_at graph.new c ≡ queued_at graph.old c }
    ensures same { HoldsSame graph.old graph.new }
{
    let old = mark_of(graph, number);
    if !old.marks.becomes_result() {
        return Ok(old.marks.handed_on());
    }
    match results.push(numbers::id_of(graph, number)) {
        Ok(()) => {}
        Err(_) => return Err(AllocError),
    }
    numbers::set_mark(
        graph,
        number,
        Mark {
            marks: old.marks.noted(),
            queued: old.queued,
        },
    );
    Ok(old.marks.handed_on())
}

/// Holds what a walk needs besides the marks in its graph.
#[derive(Drop)]
pub(crate) struct Walk<A: Allocator> {
    pub(crate) front: Front<A>,
    /// Room for the numbers of the parents of one commit.
    parents: Vec<Number, A>,
}

impl<A: Allocator + Copy> Walk<A> {
    /// Creates a walk with an empty queue and the count `open_entries`. It takes no memory.
    pub(crate) fn new(alloc: A, open_entries: usize) -> Walk<A>
        ensures queue { result.front.queue ≡ [] }
        ensures count { result.front.open_entries ≡ open_entries }
    {
        Walk {
            front: Front {
                queue: PriorityQueue::new(alloc),
                open_entries,
            },
            parents: Vec::new(alloc),
        }
    }

    /// Hands marks to those parents of a commit that the source has.
    pub(crate) fn hand_parents<S: Find>(
        &mut self,
        alloc: A,
        number: Number,
        marks: Flags,
        graph: &mut Graph<S, Commit<Flags, A>, A>,
    ) -> Result<(), graph::Error>
        requires number { IsIn graph.old number }
        requires queued { IsQueued (S.history graph.old.source) graph.old self.old.front }
        ensures hands { OnOk result (HandsOn (S.history graph.old.source) (marks_of marks)
            (parents_at (S.history graph.old.source) (id_of graph.old number))
            graph.old self.old.front graph.new self.new.front) }
        ensures keeps { OnOk result (Keeps (S.history graph.old.source) (marks_of marks)
            graph.old self.old.front graph.new self.new.front) }
        ensures meets { Meets S.history S.fault_count is_source_fault
            (parents_at (S.history graph.old.source) (id_of graph.old number)) graph.old graph.new result }
    {
        numbers::known_parents(graph, alloc, number, Flags::empty(), &mut self.parents)?;
        match self.front.hand_all(&self.parents, marks, graph) {
            Ok(()) => Ok(()),
            Err(AllocError) => Err(graph::Error::OutOfMemory),
        }
    }

    /// Notes a popped commit as a result if it is one, and hands its marks on to its parents.
    pub(crate) fn step<S: Find>(
        &mut self,
        alloc: A,
        number: Number,
        results: &mut Vec<ObjectId, A>,
        graph: &mut Graph<S, Commit<Flags, A>, A>,
    ) -> Result<(), graph::Error>
        requires number { IsIn graph.old number }
        requires right { IsRight (S.history graph.old.source) graph.old self.old.front }
        ensures steps { OnOk result (StepsOn (S.history graph.old.source) (id_of graph.old number)
            graph.old self.old.front results.old.items graph.new self.new.front results.new.items) }
        ensures right { OnOk result (IsRight (S.history graph.old.source) graph.new self.new.front) }
        ensures meets { Meets S.history S.fault_count is_source_fault
            (parents_at (S.history graph.old.source) (id_of graph.old number)) graph.old graph.new result }
        ensures room { OnOk result (held_len graph.new < 2 ^ 64) }
    {
        let marks = match note(number, results, graph) {
            Ok(marks) => marks,
            Err(AllocError) => return Err(graph::Error::OutOfMemory),
        };
        self.hand_parents(alloc, number, marks, graph)?;
        // A graph holds fewer than 2^64 ids, so a `u128` can count the pops.
        let _held = graph.len();
        Ok(())
    }
}
