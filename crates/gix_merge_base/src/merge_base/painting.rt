//! Painting: finds common ancestors, and counts its pops.
//!
//! # Algorithm
//!
//! 1. Mark `first` with `COMMIT1` and each of `others` with `COMMIT2`, and queue them.
//! 2. Pop the commit with the greatest generation number, then the latest time.
//! 3. If it has both marks, and is neither stale nor a result yet, it becomes a result. A commit
//!    with both marks hands on `STALE` as well.
//! 4. Hand its marks to its parents, and queue each parent that lacked one of them, again if need
//!    be.
//! 5. Stop when every queued commit is stale, which the count of the others (`open_entries`) shows.
//!
//! `paint` drops its walk then. `merge_base` keeps it (`paint_with`), for the reduction.
//!
//! With generation numbers the walk visits the commits between the ids and the bases, and enough
//! below the bases to be sure. Without, it visits all commits that are newer than the oldest commit
//! between the ids and the bases. After wrong clocks it then visits all that the ids reach.

ghost use Rattle.std.specs.Prelude.{◌≡◌, ◌≤◌, ◌+◌, ◌*◌, ◌∷◌, [], ◌⊎◌, ℕ, length, IsTrue, IfErr, IfOk, OnOk};
ghost use Rattle.std.specs.List.{IsDistinct};
ghost use Rattle.gix_base.specs.declared.hash.ObjectId.{ObjectId};
ghost use Rattle.gix_revwalk.specs.History.{Has, same_id, is_one_of};
ghost use Rattle.gix_revwalk.specs.Sizes.{AtMost, HasSize};
ghost use Rattle.gix_revwalk.specs.Graph.{KeepsHeld};
ghost use Rattle.gix_revwalk.specs.GraphAfter.{GraphAfter};
ghost use Rattle.gix_revwalk.specs.Faults.{count_after, is_source_fault as is_graph_fault};
ghost use Rattle.gix_merge_base.specs.Bases.{IsCommon, IsMaximal};
ghost use Rattle.gix_merge_base.specs.AfterCall.{AfterCall};
ghost use Rattle.gix_merge_base.specs.Front.{IsRight, BeginsOn, BegunOn, ReducingOn, Meets};
ghost use Rattle.gix_merge_base.specs.Keys.{InFallingOrder};
ghost use Rattle.gix_merge_base.specs.Premises.{IsAcyclicFrom, KeysFallFrom, NoneRisesFrom};
ghost use Rattle.gix_merge_base.specs.Marks.{marks_of};
ghost use Rattle.gix_merge_base.specs.Painted.{IsPainted};
ghost use Rattle.gix_merge_base.specs.Painting.{IsUnreached, IsHandedIn, MayBeMet, MayBeTaken};
ghost use Rattle.gix_merge_base.specs.PaintQueue.{IsHeld};
ghost use Rattle.gix_merge_base.specs.Refusals.{HasInsertText, is_source_fault};

use crate::merge_base::error::{Error, commit_refused, parent_refused};
use crate::merge_base::flags::Flags;
use crate::merge_base::hand::{Front, Walk, mark_of};
use bitflags::Flags as BitFlags;
use gix_base::hash::ObjectId;
use gix_revwalk::graph::{self, Commit, Find, Graph};
use gix_revwalk::numbers;
use std::alloc::{AllocError, Allocator};

/// Marks and queues an argument if the source has it.
fn begin<S: Find, A: Allocator + Copy>(
    alloc: A,
    id: ObjectId,
    marks: Flags,
    front: &mut Front<A>,
    graph: &mut Graph<S, Commit<Flags, A>, A>,
) -> Result<(), graph::Error>
    requires { IsRight (S.history graph.old.source) graph.old front.old }
    ensures begins { OnOk result (BeginsOn (S.history graph.old.source) (marks_of marks) id
        graph.old front.old graph.new front.new) }
    ensures right { OnOk result (IsRight (S.history graph.old.source) graph.new front.new) }
    ensures meets { Meets S.history S.fault_count is_graph_fault (id ∷ []) graph.old graph.new result }
{
    let Some(number) = numbers::take(graph, alloc, id, Flags::empty())? else {
        return Ok(());
    };
    let old = mark_of(graph, number);
    match front.enter(number, old, marks, graph) {
        Ok(()) => Ok(()),
        Err(AllocError) => Err(graph::Error::OutOfMemory),
    }
}

/// Begins a walk, and queues the arguments.
pub(crate) fn start<S: Find, A: Allocator + Copy>(
    alloc: A,
    first: ObjectId,
    others: &[ObjectId],
    front: &mut Front<A>,
    graph: &mut Graph<S, Commit<Flags, A>, A>,
) -> Result<(), graph::Error>
    requires empty { front.old.queue ≡ [] }
    requires none { front.old.open_entries ≡ 0 }
    ensures begun { OnOk result (BegunOn (S.history graph.old.source) first others.now
        graph.new front.new) }
    ensures right { OnOk result (IsRight (S.history graph.old.source) graph.new front.new) }
    ensures holds { (q : ObjectId) → IsHeld graph.new q
        → IsHeld graph.old q ⊎ IsHandedIn first others.now q }
    ensures after { GraphAfter S.history S.fault_count is_graph_fault graph.old graph.new result }
{
    numbers::begin_walk(graph);
    begin(alloc, first, Flags::COMMIT1, front, graph)?;
    for other in others {
        begin(alloc, *other, Flags::COMMIT2, front, graph)?;
    }
    Ok(())
}

/// Finds common ancestors and counts the pops, as [`paint`] does. `walk` has an empty queue, and is
/// left as painting ends, so that the reduction of the results can go on with it.
pub(crate) fn paint_with<S: Find, A: Allocator + Copy>(
    alloc: A,
    first: ObjectId,
    others: &[ObjectId],
    walk: &mut Walk<A>,
    graph: &mut Graph<S, Commit<Flags, A>, A>,
) -> Result<(Vec<ObjectId, A>, u128), Error>
    requires empty { walk.old.front.queue ≡ [] }
    requires none { walk.old.front.open_entries ≡ 0 }
    ensures painted { IfOk result
        (λ r. IsPainted (S.history graph.old.source) first others.now r.0.items r.1) }
    ensures reducing { IfOk result (λ r. ReducingOn (S.history graph.old.source) r.0.items
        graph.new walk.new.front) }
    ensures right { OnOk result (IsRight (S.history graph.old.source) graph.new walk.new.front) }
    ensures reached { (q : ObjectId) → IsHeld graph.new q
        → IsHeld graph.old q ⊎ MayBeMet (S.history graph.old.source) first others.now q }
    ensures taken { KeysFallFrom (S.history graph.old.source) (first ∷ others.now)
        → (q : ObjectId) → IsHeld graph.new q
        → IsHeld graph.old q ⊎ MayBeTaken (S.history graph.old.source) first others.now q }
    ensures after { AfterCall S.history S.fault_count graph.old graph.new result }
{
    if let Err(error) = start(alloc, first, others, &mut walk.front, graph) {
        return Err(commit_refused(error));
    }
    let mut results = Vec::new(alloc);
    let mut pops = 0u128;
    while let Some(number) = walk.front.pop_open(graph) {
        if let Err(error) = walk.step(alloc, number, &mut results, graph) {
            return Err(parent_refused(error));
        }
        pops += 1;
    }
    Ok((results, pops))
}

/// Finds common ancestors of `first` and a hypothetical merge of `others`, and counts the pops.
///
/// A common ancestor is a commit that is reachable from `first` and from at least one of `others`.
/// The call returns only common ancestors, each once, and among them every one that no other common
/// ancestor reaches.
///
/// The walk pops commits by falling generation number, then time, and ends once every queued commit
/// is reachable from a common ancestor. The call returns the number of pops, too. With `n` commits
/// in the source and `m` others it is
///
/// - at most `3 * n + 1 + m`;
/// - at least the number of commits that the ids reach and that no other common ancestor reaches.
///
/// An id that the source does not have has no ancestors.
///
/// # Premises
///
/// For what `first` and `others` reach:
///
/// - [Acyclic](crate#premises), for every maximal common ancestor to be returned, and for the least
///   number of pops. With a cycle the call returns.
/// - [Falling keys](crate#premises): only maximal common ancestors are returned.
/// - [Never-rising keys](crate#premises): the answers are sorted by falling generation number, then
///   falling time.
///
/// # Graph
///
/// [The graph keeps every commit that it holds](crate#graph), also on an error. Data may change. A
/// commit that it newly holds is an argument, or reachable from one.
///
/// # Errors
///
/// - [`Error::Source`]: the source failed. Its [fault count](crate#fault-count) has grown by one,
///   or is `u64::MAX`.
/// - [`Error::OutOfMemory`]: an allocation failed.
///
/// The graph can be used again after either.
pub fn paint<S: Find, A: Allocator + Copy>(
    alloc: A,
    first: ObjectId,
    others: &[ObjectId],
    graph: &mut Graph<S, Commit<Flags, A>, A>,
) -> Result<(Vec<ObjectId, A>, u128), Error>
    // Each id of the answer is a common ancestor of `first` and one of `others`.
    ensures common { IfOk result (λ r. (c : ObjectId) → IsTrue (is_one_of r.0.items c)
        → IsCommon (S.history graph.old.source) first others.now c) }

    // Premise: acyclic. The answer has every common ancestor that no other common ancestor reaches.
    ensures best { IsAcyclicFrom (S.history graph.old.source) (first ∷ others.now)
        → IfOk result (λ r. (c : ObjectId) → IsMaximal (S.history graph.old.source)
        (IsCommon (S.history graph.old.source) first others.now) c
        → IsTrue (is_one_of r.0.items c)) }

    // Each id of the answer occurs once.
    ensures once { IfOk result (λ r. IsDistinct same_id r.0.items) }

    // If the source has `n` commits and there are `m` others, the returned number of pops is at
    // most `3 * n + 1 + m`.
    ensures most { (n : ℕ) → HasSize (Has (S.history graph.old.source)) n
        → IfOk result (λ r. r.1 ≤ 3 * n + 1 + length others.now) }

    // Premise: acyclic. The returned number of pops is at least the number of commits that the
    // arguments reach and that no other common ancestor reaches.
    ensures least { IsAcyclicFrom (S.history graph.old.source) (first ∷ others.now)
        → IfOk result (λ r. AtMost r.1
        (IsUnreached (S.history graph.old.source) first others.now)) }

    // Also after an error, each commit that the call loads is an argument, or an ancestor of one.
    ensures reached { (q : ObjectId) → IsHeld graph.new q
        → IsHeld graph.old q ⊎ MayBeMet (S.history graph.old.source) first others.now q }

    // Premise: falling keys. Also after an error, each commit that the call loads is an argument,
    // or a parent of a reached commit whose key is at least that of some outside commit of the
    // history (`MayBeTaken`).
    ensures taken { KeysFallFrom (S.history graph.old.source) (first ∷ others.now)
        → (q : ObjectId) → IsHeld graph.new q
        → IsHeld graph.old q ⊎ MayBeTaken (S.history graph.old.source) first others.now q }

    // Premise: falling keys. Each id of the answer is a common ancestor that no other common
    // ancestor reaches.
    ensures strict { KeysFallFrom (S.history graph.old.source) (first ∷ others.now)
        → IfOk result (λ r. (c : ObjectId) → IsTrue (is_one_of r.0.items c)
        → IsMaximal (S.history graph.old.source)
        (IsCommon (S.history graph.old.source) first others.now) c) }

    // Premise: never-rising keys. No id of the answer has a greater key than an earlier id.
    ensures falling { NoneRisesFrom (S.history graph.old.source) (first ∷ others.now)
        → IfOk result (λ r. InFallingOrder (S.history graph.old.source) r.0.items) }

    // The history of the source is unchanged, also after an error.
    ensures history { S.history graph.new.source ≡ S.history graph.old.source }

    // A source error has one of two texts: a commit, or a parent commit, could not be inserted.
    ensures cause { IfErr result HasInsertText }

    // If the call returns the source error, the fault count grows by one, or stays at `u64::MAX`.
    // Otherwise the fault count is unchanged.
    ensures count { S.fault_count graph.new.source
        ≡ count_after (is_source_fault result) (S.fault_count graph.old.source) }

    // The graph keeps every commit that it holds, also after an error.
    ensures held { KeepsHeld graph.old graph.new }
{
    let mut walk = Walk::new(alloc, 0);
    paint_with(alloc, first, others, &mut walk, graph)
}
