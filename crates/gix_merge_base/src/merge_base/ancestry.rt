//! Tests whether one commit is reachable from another.
//!
//! # Algorithm
//!
//! 1. If both ids are equal, look up that id only.
//! 2. Otherwise look up both; if one is missing, the answer is no.
//! 3. Mark the second commit with the reduction's mark, and queue it.
//! 4. Pop by generation number, then time, and mark the parents.
//! 5. Answer yes when the first commit is marked. Answer no when the popped commit has a smaller
//!    generation number than the first, or when the queue is empty.

ghost use Rattle.std.specs.Prelude.{◌≡◌, ◌<◌, ◌∷◌, [], ◌⊎◌, ◌↔◌, IfOk, IfErr, OnOk, IsTrue, is_some};
ghost use Rattle.std.specs.Option.{option_map};
ghost use Rattle.gix_base.specs.declared.hash.ObjectId.{ObjectId};
ghost use Rattle.gix_revwalk.specs.History.{Has, IsAncestor, entry_at, same_id};
ghost use Rattle.gix_revwalk.specs.Data.{mark_at};
ghost use Rattle.gix_revwalk.specs.Faults.{count_after};
ghost use Rattle.gix_revwalk.specs.Graph.{held_len, KeepsHeld};
ghost use Rattle.gix_revwalk.specs.Number.{place_in};
ghost use Rattle.gix_revwalk.specs.Numbers.{number_at, Grows};
ghost use Rattle.gix_revwalk.specs.Walks.{HoldsMore};
ghost use Rattle.gix_merge_base.specs.AfterCall.{AfterCall};
ghost use Rattle.gix_merge_base.specs.PaintQueue.{id_at, marks_at, IsHeld};
ghost use Rattle.gix_merge_base.specs.Premises.{GenerationsNeverRiseFrom};
ghost use Rattle.gix_merge_base.specs.ReduceSteps.{Unmarked};
ghost use Rattle.gix_merge_base.specs.Refusals.{HasInsertText, is_source_fault};

use crate::merge_base::error::{Error, commit_refused, parent_refused};
use crate::merge_base::flags::Flags;
use crate::merge_base::gen_then_time::GenThenTime;
use crate::merge_base::hand::{Walk, mark_of};
use bitflags::Flags as BitFlags;
use gix_base::hash::ObjectId;
use gix_revwalk::graph::{Commit, Find, Graph};
use gix_revwalk::numbers::{self, Number};
use std::alloc::Allocator;

/// Marks what the walk has met.
const MET: Flags = Flags::STALE;

/// Returns the number of a commit, and loads it unless it is held; `None` if the source does not
/// have it.
fn look_up<S: Find, A: Allocator + Copy>(
    alloc: A,
    id: ObjectId,
    graph: &mut Graph<S, Commit<Flags, A>, A>,
) -> Result<Option<Number>, Error>
    ensures has { IfOk result
        (λ n. is_some n ≡ is_some (entry_at (S.history graph.old.source) id)) }
    ensures number { IfOk result (λ n. option_map place_in n ≡ number_at graph.new id) }
    ensures grows { OnOk result (Grows graph.old graph.new) }
    ensures marks { OnOk result ((q : ObjectId) → mark_at graph.new q ≡ mark_at graph.old q) }
    ensures holds { HoldsMore (S.history graph.old.source) (id ∷ []) graph.old graph.new }
    ensures after { AfterCall S.history S.fault_count graph.old graph.new result }
{
    match numbers::take(graph, alloc, id, Flags::empty()) {
        Ok(found) => Ok(found),
        Err(error) => Err(commit_refused(error)),
    }
}

/// Tests whether the source has a commit, and loads it unless it is held.
fn is_there<S: Find, A: Allocator + Copy>(
    alloc: A,
    id: ObjectId,
    graph: &mut Graph<S, Commit<Flags, A>, A>,
) -> Result<bool, Error>
    ensures has { IfOk result (λ b. b ≡ is_some (entry_at (S.history graph.old.source) id)) }
    ensures holds { HoldsMore (S.history graph.old.source) (id ∷ []) graph.old graph.new }
    ensures after { AfterCall S.history S.fault_count graph.old graph.new result }
{
    Ok(look_up(alloc, id, graph)?.is_some())
}

/// Tests whether a walk from one commit meets another. Pops commits by falling generation number,
/// then time, and ends once everything queued has a smaller generation number than `target`.
fn meets<S: Find, A: Allocator + Copy>(
    alloc: A,
    from: Number,
    target: Number,
    graph: &mut Graph<S, Commit<Flags, A>, A>,
) -> Result<bool, Error>
    requires from { place_in from < held_len graph.old }
    requires target { place_in target < held_len graph.old }
    requires has { Has (S.history graph.old.source) (id_at graph.old (place_in from)) }
    requires unmarked { Unmarked (marks_at graph.old) }
    ensures exact { GenerationsNeverRiseFrom (S.history graph.old.source)
        (id_at graph.old (place_in from) ∷ [])
        → IfOk result (λ yes. IsTrue yes ↔ IsAncestor (S.history graph.old.source)
        (id_at graph.old (place_in from)) (id_at graph.old (place_in target))) }
    ensures reached { IfOk result (λ yes. IsTrue yes → IsAncestor (S.history graph.old.source)
        (id_at graph.old (place_in from)) (id_at graph.old (place_in target))) }
    ensures taken { (q : ObjectId) → IsHeld graph.new q → IsHeld graph.old q
        ⊎ IsAncestor (S.history graph.old.source) (id_at graph.old (place_in from)) q }
    ensures after { AfterCall S.history S.fault_count graph.old graph.new result }
{
    let least = GenThenTime::from(numbers::value(graph, target)).generation;
    // Everything that the walk meets is stale, so no entry counts as open.
    let mut walk = Walk::new(alloc, 0);
    walk.front.hand(from, MET, graph)?;
    while !mark_of(graph, target).marks.is_stale() {
        let Some((key, number)) = walk.front.queue.pop() else {
            return Ok(false);
        };
        if key.generation < least {
            return Ok(false);
        }
        if let Err(error) = walk.hand_parents(alloc, number, MET, graph) {
            return Err(parent_refused(error));
        }
    }
    Ok(true)
}

/// Begins a walk, and tests whether `of` reaches `ancestor`.
fn reaches<S: Find, A: Allocator + Copy>(
    alloc: A,
    ancestor: ObjectId,
    of: ObjectId,
    graph: &mut Graph<S, Commit<Flags, A>, A>,
) -> Result<bool, Error>
    ensures exact { GenerationsNeverRiseFrom (S.history graph.old.source) (of ∷ [])
        → IfOk result (λ yes. IsTrue yes
        ↔ IsAncestor (S.history graph.old.source) of ancestor) }
    ensures reached { IfOk result (λ yes. IsTrue yes
        → IsAncestor (S.history graph.old.source) of ancestor) }
    ensures taken { (q : ObjectId) → IsHeld graph.new q → IsHeld graph.old q
        ⊎ ((q ≡ ancestor) ⊎ IsAncestor (S.history graph.old.source) of q) }
    ensures after { AfterCall S.history S.fault_count graph.old graph.new result }
{
    numbers::begin_walk(graph);
    let Some(target) = look_up(alloc, ancestor, graph)? else {
        return Ok(false);
    };
    let Some(from) = look_up(alloc, of, graph)? else {
        return Ok(false);
    };
    meets(alloc, from, target, graph)
}

/// Tests whether `ancestor` is reachable from `of`, like `git merge-base --is-ancestor`.
///
/// - A commit is reachable from itself.
/// - An id that the source does not have is not reachable from anything, not even from itself, and
///   nothing is reachable from it.
/// - If both ids are equal, only that id is looked up.
///
/// The walk starts at `of`, and does not go on from a commit whose generation number is at most
/// that of `ancestor`.
///
/// # Premises
///
/// [Ordered generations](crate#premises), for what `of` reaches (git's technical/commit-graph,
/// "generation number"). Without them `true` is still right, but `false` may be wrong. Cycles,
/// times, and the rest of the history do not matter.
///
/// # Graph
///
/// [The graph keeps every commit that it holds](crate#graph), also on an error. Data may change. A
/// commit that it newly holds is `ancestor`, or reachable from `of`.
///
/// # Errors
///
/// - [`Error::Source`]: the source failed. Its [fault count](crate#fault-count) has grown by one,
///   or is `u64::MAX`.
/// - [`Error::OutOfMemory`]: an allocation failed.
///
/// The graph can be used again after either.
pub fn is_ancestor<S: Find, A: Allocator + Copy>(
    alloc: A,
    ancestor: ObjectId,
    of: ObjectId,
    graph: &mut Graph<S, Commit<Flags, A>, A>,
) -> Result<bool, Error>
    // Premise: ordered generations, for what `of` reaches. The answer is `true` exactly if
    // `ancestor` is an ancestor of `of`.
    ensures ancestor { GenerationsNeverRiseFrom (S.history graph.old.source) (of ∷ [])
        → IfOk result (λ yes. IsTrue yes ↔ IsAncestor (S.history graph.old.source) of ancestor) }

    // The answer is `true` only if `ancestor` is an ancestor of `of`.
    ensures reached { IfOk result (λ yes. IsTrue yes
        → IsAncestor (S.history graph.old.source) of ancestor) }

    // If both ids are equal, the answer is `true` exactly if the source has this commit.
    ensures same { IsTrue (same_id ancestor of)
        → IfOk result (λ yes. yes ≡ is_some (entry_at (S.history graph.old.source) of)) }

    // If both ids are equal, the call loads at most this commit, also after an error.
    ensures same_taken { IsTrue (same_id ancestor of)
        → HoldsMore (S.history graph.old.source) (of ∷ []) graph.old graph.new }

    // Also after an error, each commit that the call loads is `ancestor`, or an ancestor of `of`.
    ensures taken { (q : ObjectId) → IsHeld graph.new q → IsHeld graph.old q
        ⊎ ((q ≡ ancestor) ⊎ IsAncestor (S.history graph.old.source) of q) }

    // The history of the source is unchanged, also after an error.
    ensures history { S.history graph.new.source ≡ S.history graph.old.source }

    // A source error has one of two texts: a commit, or a parent commit, could not be inserted.
    ensures cause { IfErr result HasInsertText }

    // If the call returns the source error, the fault count grows by one, or stays at `u64::MAX`.
    // Otherwise the fault count is unchanged.
    ensures count { S.fault_count graph.new.source
        ≡ count_after (is_source_fault result) (S.fault_count graph.old.source) }

    // The graph keeps every commit that it holds, also after an error.
    ensures held { KeepsHeld graph.old graph.new }
{
    if ancestor == of {
        return is_there(alloc, of, graph);
    }
    reaches(alloc, ancestor, of, graph)
}
