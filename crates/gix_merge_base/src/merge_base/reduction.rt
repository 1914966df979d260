//! Reduces ids to those that no other one of them reaches.
//!
//! # Algorithm
//!
//! 1. Give each id a number. Each counts as queued once, so that `open_entries` counts the ids not
//!    met.
//! 2. Sort the ids by generation number, mark all their parents as met, and queue these.
//! 3. Pop a commit, and skip it if its generation number is less than the least one of the ids not
//!    met.
//! 4. Otherwise mark its parents as met, and queue the new ones. In the sorted list, the place of
//!    the first id that is not met only moves forward.
//! 5. Stop when one id is left or the queue is empty, and drop the ids that were met.
//!
//! That is `reduce`. `merge_base` reduces the candidates of painting, and goes on with its queue
//! and marks (`reduce_painted`). There stale means met. A stale commit is an ancestor of a
//! candidate's parent. All parents of candidates are stale, and so are those of a stale commit that
//! is not queued. The candidates get numbers and are sorted, `open_entries` becomes the number of
//! those that are not stale, and the walk goes on at step 3.
//!
//! Without generation numbers nothing is skipped. Afterwards `in_order` sorts what is left.

ghost use Rattle.std.specs.Prelude.{◌≡◌, ◌+◌, ◌++◌, ◌∷◌, [], length, is_some, ◌⊎◌, ◌↔◌, IsTrue, OnOk, IfOk, IfErr};
ghost use Rattle.std.specs.List.Sorted.{IsPermutation};
ghost use Rattle.std.specs.List.{filter, IsDistinct};
ghost use Rattle.gix_base.specs.declared.hash.ObjectId.{ObjectId};
ghost use Rattle.gix_revwalk.specs.Graph.{KeepsHeld};
ghost use Rattle.gix_revwalk.specs.History.{Has, is_one_of, same_id, entry_at};
ghost use Rattle.gix_merge_base.specs.Premises.{IsAcyclicFrom, GenerationsNeverRiseFrom};
ghost use Rattle.gix_revwalk.specs.Walks.{parents_of_all, HoldsMore};
ghost use Rattle.gix_revwalk.specs.Faults.{count_after};
ghost use Rattle.gix_merge_base.specs.AfterCall.{AfterCall, LoadsFrom};
ghost use Rattle.gix_merge_base.specs.Painting.{MayBeMetFrom};
ghost use Rattle.gix_merge_base.specs.Front.{IsQueued, IsRight, CountsLeft, ReducingOn, KeepsNumbers};
ghost use Rattle.gix_merge_base.specs.Marks.{met};
ghost use Rattle.gix_merge_base.specs.PaintQueue.{marks_at, queued_at, queued_ids, ids_at, AreIn, IsHeld};
ghost use Rattle.gix_merge_base.specs.Counting.{times, unstale, CountsUnmet};
ghost use Rattle.gix_merge_base.specs.PaintSteps.{Hands};
ghost use Rattle.gix_merge_base.specs.Reducing.{firsts, IsIndependent, SomeOf};
ghost use Rattle.gix_merge_base.specs.ReduceSteps.{Unmarked, IsOrder, AreMetBefore, IsLeft, Reducing, Reduced};
ghost use Rattle.gix_merge_base.specs.Refusals.{HasInsertText, is_source_fault};

use crate::merge_base::error::{Error, commit_refused, parent_refused};
use crate::merge_base::flags::Flags;
use crate::merge_base::gen_then_time::GenThenTime;
use crate::merge_base::hand::{Walk, mark_of};
use bitflags::Flags as BitFlags;
use gix_base::hash::ObjectId;
use gix_revwalk::Seed;
use gix_revwalk::graph::{Commit, Find, Graph};
use gix_revwalk::numbers::{self, Mark, Number};
use gix_revwalk::seen::Seen;
use std::alloc::{AllocError, Allocator};

/// Marks what the reduction has met.
const MET: Flags = Flags::STALE;

/// Returns each id once, in the order of first places.
fn gather<A: Allocator + Copy>(
    alloc: A,
    seed: Seed,
    ids: &[ObjectId],
) -> Result<Vec<ObjectId, A>, AllocError>
    ensures { IfOk result (λ v. v.items ≡ firsts ids.now) }
{
    let mut seen = Seen::new(alloc, seed);
    seen.add_all(ids)?;
    Ok(seen.into_vec())
}

/// Appends the number of an id if the source has it, and counts it as queued once more.
fn list_one<S: Find, A: Allocator + Copy>(
    alloc: A,
    id: ObjectId,
    numbers: &mut Vec<Number, A>,
    graph: &mut Graph<S, Commit<Flags, A>, A>,
) -> Result<(), Error>
    ensures listed { OnOk result (AreIn graph.old numbers.old.items
        → AreIn graph.new numbers.new.items × (ids_at graph.new numbers.new.items
        ≡ ids_at graph.old numbers.old.items
        ++ filter (λ p. is_some (entry_at (S.history graph.old.source) p)) (id ∷ []))) }
    ensures marks { OnOk result ((c : ObjectId) → marks_at graph.new c ≡ marks_at graph.old c) }
    ensures counted { OnOk result ((c : ObjectId) → queued_at graph.new c ≡ queued_at graph.old c
        + times c (filter (λ p. is_some (entry_at (S.history graph.old.source) p)) (id ∷ []))) }
    ensures numbers { OnOk result (KeepsNumbers graph.old graph.new) }
    ensures holds { HoldsMore (S.history graph.old.source) (id ∷ []) graph.old graph.new }
    ensures after { AfterCall S.history S.fault_count graph.old graph.new result }
{
    let number = match numbers::take(graph, alloc, id, Flags::empty()) {
        Ok(Some(number)) => number,
        Ok(None) => return Ok(()),
        Err(error) => return Err(commit_refused(error)),
    };
    match numbers.push(number) {
        Ok(()) => {}
        Err(_) => return Err(Error::OutOfMemory),
    }
    let old = mark_of(graph, number);
    // Memory runs out before the count is full.
    let Some(queued) = old.queued.checked_add(1) else {
        return Err(Error::OutOfMemory);
    };
    numbers::set_mark(graph, number, Mark { queued, ..old });
    Ok(())
}

/// Returns the numbers of the ids that the source has, in order. Each counts as queued once more,
/// so that handing marks on also counts the ids that were not met.
fn numbers_of<S: Find, A: Allocator + Copy>(
    alloc: A,
    ids: &[ObjectId],
    graph: &mut Graph<S, Commit<Flags, A>, A>,
) -> Result<Vec<Number, A>, Error>
    ensures inside { IfOk result (λ ns. AreIn graph.new ns.items) }
    ensures ids { IfOk result (λ ns. ids_at graph.new ns.items
        ≡ filter (λ p. is_some (entry_at (S.history graph.old.source) p)) ids.now) }
    ensures marks { OnOk result ((c : ObjectId) → marks_at graph.new c ≡ marks_at graph.old c) }
    ensures counted { OnOk result ((c : ObjectId) → queued_at graph.new c ≡ queued_at graph.old c
        + times c (filter (λ p. is_some (entry_at (S.history graph.old.source) p)) ids.now)) }
    ensures numbers { OnOk result (KeepsNumbers graph.old graph.new) }
    ensures loads { LoadsFrom (S.history graph.old.source) ids.now graph.old graph.new }
    ensures after { AfterCall S.history S.fault_count graph.old graph.new result }
{
    let mut numbers = Vec::new(alloc);
    for id in ids {
        list_one(alloc, *id, &mut numbers, graph)?;
    }
    Ok(numbers)
}

/// Begins a walk, and returns the numbers of the ids that the source has, in order, each of which
/// counts as queued once.
fn list<S: Find, A: Allocator + Copy>(
    alloc: A,
    ids: &[ObjectId],
    graph: &mut Graph<S, Commit<Flags, A>, A>,
) -> Result<Vec<Number, A>, Error>
    ensures inside { IfOk result (λ ns. AreIn graph.new ns.items) }
    ensures ids { IfOk result (λ ns. ids_at graph.new ns.items
        ≡ filter (λ p. is_some (entry_at (S.history graph.old.source) p)) ids.now) }
    ensures unmarked { OnOk result (Unmarked (marks_at graph.new)) }
    ensures unmet { IfOk result (λ ns. CountsUnmet (marks_at graph.new) (queued_at graph.new)
        (ids_at graph.new ns.items) (length ns.items)) }
    ensures loads { LoadsFrom (S.history graph.old.source) ids.now graph.old graph.new }
    ensures after { AfterCall S.history S.fault_count graph.old graph.new result }
{
    numbers::begin_walk(graph);
    numbers_of(alloc, ids, graph)
}

/// Meets the parents of each of the commits.
fn meet_parents<S: Find, A: Allocator + Copy>(
    alloc: A,
    numbers: &[Number],
    walk: &mut Walk<A>,
    graph: &mut Graph<S, Commit<Flags, A>, A>,
) -> Result<(), Error>
    requires inside { AreIn graph.old numbers.now }
    requires empty { walk.old.front.queue ≡ [] }
    requires left { CountsLeft (ids_at graph.old numbers.now) graph.old walk.old.front }
    ensures handed { OnOk result (Hands (S.history graph.old.source) met
        (parents_of_all (S.history graph.old.source) (ids_at graph.old numbers.now))
        (marks_at graph.old) [] (marks_at graph.new) (queued_ids graph.new walk.new.front.queue)) }
    ensures same { OnOk result (AreIn graph.new numbers.now
        × (ids_at graph.new numbers.now ≡ ids_at graph.old numbers.now)) }
    ensures left { OnOk result (CountsLeft (ids_at graph.old numbers.now) graph.new walk.new.front) }
    ensures queued { OnOk result (IsQueued (S.history graph.old.source) graph.new walk.new.front) }
    ensures loads { LoadsFrom (S.history graph.old.source) (ids_at graph.old numbers.now)
        graph.old graph.new }
    ensures after { AfterCall S.history S.fault_count graph.old graph.new result }
{
    for number in numbers {
        if let Err(error) = walk.hand_parents(alloc, *number, MET, graph) {
            return Err(parent_refused(error));
        }
    }
    Ok(())
}

/// Returns the numbers by rising generation number, each after that of its commit.
fn by_generation<S: Find, A: Allocator + Copy>(
    alloc: A,
    numbers: &[Number],
    graph: &Graph<S, Commit<Flags, A>, A>,
) -> Result<Vec<(u32, Number), A>, AllocError>
    requires { AreIn graph.now numbers.now }
    ensures order { IfOk result
        (λ order. IsOrder (S.history graph.now.source) graph.now order.items) }
    ensures ids { IfOk result (λ order. IsPermutation (ids_at graph.now numbers.now)
        (queued_ids graph.now order.items)) }
{
    let mut order = Vec::new(alloc);
    for number in numbers {
        let generation = GenThenTime::from(numbers::value(graph, *number)).generation;
        order.push((generation, *number))?;
    }
    order.sort_unstable_by_key(|pair| pair.0);
    Ok(order)
}

/// Locates the first id, by generation number, that was not met.
#[derive(Clone, Copy)]
struct Left {
    /// Its place; past the end if all ids were met.
    place: usize,
    /// Its generation number; `u32::MAX` if all ids were met.
    least: u32,
}

/// Finds the first id that was not met, from `place` on. All ids before `place` were met.
fn left_from<S: Find, A: Allocator + Copy>(
    place: usize,
    order: &[(u32, Number)],
    graph: &Graph<S, Commit<Flags, A>, A>,
) -> Left
    requires order { IsOrder (S.history graph.now.source) graph.now order.now }
    requires before { AreMetBefore (marks_at graph.now) (queued_ids graph.now order.now) place }
    ensures { IsLeft (S.history graph.now.source) (marks_at graph.now)
        (queued_ids graph.now order.now) result.place result.least }
{
    for i in place..order.len() {
        let (generation, number) = order[i];
        if !mark_of(graph, number).marks.is_stale() {
            return Left {
                place: i,
                least: generation,
            };
        }
    }
    Left {
        place: order.len(),
        least: u32::MAX,
    }
}

/// Meets what the queued commits reach, but nothing below the least generation number of the ids
/// that were not met. Stops once at most one of these is left. The place of the first only moves
/// forward.
fn meet<S: Find, A: Allocator + Copy>(
    alloc: A,
    numbers: &[Number],
    walk: &mut Walk<A>,
    graph: &mut Graph<S, Commit<Flags, A>, A>,
) -> Result<(), Error>
    requires inside { AreIn graph.old numbers.now }
    requires begun { Reducing (S.history graph.old.source) (ids_at graph.old numbers.now)
        (marks_at graph.old) (queued_ids graph.old walk.old.front.queue) }
    requires left { CountsLeft (ids_at graph.old numbers.now) graph.old walk.old.front }
    requires queued { IsQueued (S.history graph.old.source) graph.old walk.old.front }
    ensures met { OnOk result (Reduced (S.history graph.old.source) (ids_at graph.old numbers.now)
        (marks_at graph.new)) }
    ensures loads { LoadsFrom (S.history graph.old.source) (ids_at graph.old numbers.now)
        graph.old graph.new }
    ensures after { AfterCall S.history S.fault_count graph.old graph.new result }
{
    let order = by_generation(alloc, numbers, graph)?;
    let mut place = 0usize;
    while let Some((key, number)) = walk.front.queue.pop() {
        if walk.front.open_entries <= 1 {
            return Ok(());
        }
        let left = left_from(place, &order, graph);
        place = left.place;
        if key.generation < left.least {
            continue;
        }
        if let Err(error) = walk.hand_parents(alloc, number, MET, graph) {
            return Err(parent_refused(error));
        }
    }
    Ok(())
}

/// Counts the commits that were not met.
fn count_unmet<S: Find, A: Allocator + Copy>(
    numbers: &[Number],
    graph: &Graph<S, Commit<Flags, A>, A>,
) -> usize
    requires { AreIn graph.now numbers.now }
    ensures { result ≡ unstale (marks_at graph.now) (ids_at graph.now numbers.now) }
{
    let mut unmet = 0usize;
    for number in numbers {
        if !mark_of(graph, *number).marks.is_stale() {
            unmet += 1;
        }
    }
    unmet
}

/// Tests whether an id was met.
fn is_met<S: Find, A: Allocator + Copy>(
    id: &ObjectId,
    graph: &Graph<S, Commit<Flags, A>, A>,
) -> bool
    ensures { result ≡ (marks_at graph.now id.now).stale }
{
    match numbers::number_of(graph, id) {
        Some(number) => mark_of(graph, number).marks.is_stale(),
        None => false,
    }
}

/// Returns those of the results of painting that no other one of them reaches, under the premises
/// of [`reduce`].
///
/// The call goes on with painting's walk. Stale commits count as met, and the queued ones are
/// followed next.
pub(crate) fn reduce_painted<S: Find, A: Allocator + Copy>(
    alloc: A,
    mut painted: Vec<ObjectId, A>,
    walk: &mut Walk<A>,
    graph: &mut Graph<S, Commit<Flags, A>, A>,
) -> Result<Vec<ObjectId, A>, Error>
    requires once { IsDistinct same_id painted.items }
    requires has { (c : ObjectId) → IsTrue (is_one_of painted.items c)
        → Has (S.history graph.old.source) c }
    requires reducing { ReducingOn (S.history graph.old.source) painted.items
        graph.old walk.old.front }
    requires right { IsRight (S.history graph.old.source) graph.old walk.old.front }
    ensures independent { IsAcyclicFrom (S.history graph.old.source) painted.items
        → GenerationsNeverRiseFrom (S.history graph.old.source) painted.items
        → IfOk result (λ left. (c : ObjectId) → IsTrue (is_one_of left.items c)
        ↔ IsIndependent (S.history graph.old.source) painted.items c) }
    ensures kept { IsAcyclicFrom (S.history graph.old.source) painted.items
        → IfOk result (λ left. (c : ObjectId)
        → IsIndependent (S.history graph.old.source) painted.items c
        → IsTrue (is_one_of left.items c)) }
    ensures some { IfOk result (λ left. SomeOf painted.items left.items) }
    ensures loads { LoadsFrom (S.history graph.old.source) painted.items graph.old graph.new }
    ensures after { AfterCall S.history S.fault_count graph.old graph.new result }
{
    let numbers = numbers_of(alloc, &painted, graph)?;
    walk.front.open_entries = count_unmet(&numbers, graph);
    meet(alloc, &numbers, walk, graph)?;
    painted.retain(|id| !is_met(id, graph));
    Ok(painted)
}

/// Returns those of `ids` that no other one of them reaches.
///
/// This is `git merge-base --independent`. Each such id is returned once, in the order of first
/// places. An id that the source does not have reaches nothing, and nothing reaches it.
///
/// # Premises
///
/// [Acyclic and ordered generations](crate#premises), for what `ids` reach. Without ordered
/// generations every such id is still returned, and perhaps others of `ids`. With a cycle the call
/// returns some of `ids`, each once.
///
/// # Graph
///
/// [The graph keeps every commit that it holds](crate#graph), also on an error. Data may change. A
/// commit that it newly holds is an argument, or reachable from one.
///
/// # Errors
///
/// - [`Error::Source`]: the source failed. Its [fault count](crate#fault-count) has grown by one,
///   or is `u64::MAX`.
/// - [`Error::OutOfMemory`]: an allocation failed.
///
/// The graph can be used again after either.
pub fn reduce<S: Find, A: Allocator + Copy>(
    alloc: A,
    ids: &[ObjectId],
    graph: &mut Graph<S, Commit<Flags, A>, A>,
) -> Result<Vec<ObjectId, A>, Error>
    // Premises: acyclic, ordered generations. The answer has exactly those of `ids` that no other
    // of `ids` reaches.
    ensures independent { IsAcyclicFrom (S.history graph.old.source) ids.now
        → GenerationsNeverRiseFrom (S.history graph.old.source) ids.now
        → IfOk result (λ left. (c : ObjectId) → IsTrue (is_one_of left.items c)
        ↔ IsIndependent (S.history graph.old.source) ids.now c) }

    // Premise: acyclic. The answer has each of `ids` that no other of `ids` reaches.
    ensures kept { IsAcyclicFrom (S.history graph.old.source) ids.now
        → IfOk result (λ left. (c : ObjectId) → IsIndependent (S.history graph.old.source) ids.now c
        → IsTrue (is_one_of left.items c)) }

    // The answer has some of `ids`, each once, in the order of their first places.
    ensures some { IfOk result (λ left. SomeOf ids.now left.items) }

    // Also after an error, each commit that the call loads is one of `ids`, or an ancestor of one.
    ensures reached { (q : ObjectId) → IsHeld graph.new q
        → IsHeld graph.old q ⊎ MayBeMetFrom (S.history graph.old.source) ids.now q }

    // The history of the source is unchanged, also after an error.
    ensures history { S.history graph.new.source ≡ S.history graph.old.source }

    // A source error has one of two texts: a commit, or a parent commit, could not be inserted.
    ensures cause { IfErr result HasInsertText }

    // If the call returns the source error, the fault count grows by one, or stays at `u64::MAX`.
    // Otherwise the fault count is unchanged.
    ensures count { S.fault_count graph.new.source
        ≡ count_after (is_source_fault result) (S.fault_count graph.old.source) }

    // The graph keeps every commit that it holds, also after an error.
    ensures held { KeepsHeld graph.old graph.new }
{
    let mut left = gather(alloc, graph.seed(), ids)?;
    let numbers = list(alloc, &left, graph)?;
    let mut walk = Walk::new(alloc, numbers.len());
    meet_parents(alloc, &numbers, &mut walk, graph)?;
    meet(alloc, &numbers, &mut walk, graph)?;
    left.retain(|id| !is_met(id, graph));
    Ok(left)
}
