//! The octopus bases of several heads.
//!
//! # Algorithm
//!
//! 1. If all heads are equal, answer that id.
//! 2. Look up each distinct head; if one is missing, nothing is common.
//! 3. Sort the heads, the newest first: along a chain each walk then goes on where the last one
//!    ended. The newest is the only base so far.
//! 4. For each head: if it is a base, it becomes the only one. Otherwise painting and reduction
//!    find the best common ancestors of the head and a merge of the bases, which are the new bases.
//! 5. `octopus_bases` answers the bases in order, `octopus` the first of them.

ghost use Rattle.std.specs.Prelude.{◌≡◌, ◌∷◌, [], ◌⊎◌, Some, IfOk, Ok, IfErr, IsTrue, false};
ghost use Rattle.std.specs.List.{list_all};
ghost use Rattle.gix_base.specs.declared.hash.ObjectId.{ObjectId};
ghost use Rattle.gix_revwalk.specs.History.{same_id, is_one_of, Has};
ghost use Rattle.gix_merge_base.specs.Premises.{IsAcyclicFrom, GenerationsNeverRiseFrom};
ghost use Rattle.gix_revwalk.specs.Faults.{count_after};
ghost use Rattle.gix_revwalk.specs.Graph.{KeepsHeld};
ghost use Rattle.gix_merge_base.specs.Keys.{IsInOrder};
ghost use Rattle.gix_merge_base.specs.Octopus.{IsOctopusBase, IsFirstOctopusBase, IsCommonToAll, AreOctopusBases};
ghost use Rattle.gix_merge_base.specs.OctopusSteps.{IsStep};
ghost use Rattle.gix_merge_base.specs.Reducing.{firsts};
ghost use Rattle.gix_merge_base.specs.Refusals.{HasInsertText, is_source_fault};
ghost use Rattle.gix_merge_base.specs.AfterCall.{AfterCall, LoadsFrom};
ghost use Rattle.gix_merge_base.specs.Painting.{MayBeMet, AreFrom};
ghost use Rattle.gix_merge_base.specs.PaintQueue.{IsHeld};

use crate::merge_base::bases::{best, stands_in};
use crate::merge_base::error::Error;
use crate::merge_base::flags::Flags;
use crate::merge_base::order::in_order;
use gix_base::hash::ObjectId;
use gix_revwalk::Seed;
use gix_revwalk::graph::{Commit, Find, Graph};
use gix_revwalk::seen::Seen;
use std::alloc::{AllocError, Allocator};

/// Tests whether each of `ids` is `id`.
fn all_are(ids: &[ObjectId], id: ObjectId) -> bool
    ensures { result ≡ list_all (same_id id) ids.now }
{
    ids.iter().all(|other| id == *other)
}

/// Returns each of `first` and `others` once, in the order of first places.
fn distinct<A: Allocator + Copy>(
    alloc: A,
    seed: Seed,
    first: ObjectId,
    others: &[ObjectId],
) -> Result<Vec<ObjectId, A>, AllocError>
    ensures { IfOk result (λ heads. heads.items ≡ firsts (first ∷ others.now)) }
{
    let mut heads = Seen::new(alloc, seed);
    heads.add(first)?;
    heads.add_all(others)?;
    Ok(heads.into_vec())
}

/// Returns what remains of `bases` with one more head, which the source has: the best of the
/// ancestors of `head` that one of `bases` reaches.
fn step<S: Find, A: Allocator + Copy>(
    alloc: A,
    bases: &[ObjectId],
    head: ObjectId,
    graph: &mut Graph<S, Commit<Flags, A>, A>,
) -> Result<Vec<ObjectId, A>, Error>
    ensures step { IsAcyclicFrom (S.history graph.old.source) (head ∷ bases.now)
        → Has (S.history graph.old.source) head
        → IfOk result (λ left. IsStep (S.history graph.old.source) bases.now head left.items) }
    ensures order { IfOk result (λ left. IsInOrder (S.history graph.old.source) left.items) }
    ensures below { IfOk result (λ left.
        AreFrom (S.history graph.old.source) (head ∷ []) left.items) }
    ensures loads { LoadsFrom (S.history graph.old.source) (head ∷ bases.now) graph.old graph.new }
    ensures after { AfterCall S.history S.fault_count graph.old graph.new result }
{
    if bases.is_empty() {
        return Ok(Vec::new(alloc));
    }
    if stands_in(bases, head) {
        let alone = [head].to_vec(alloc)?;
        return Ok(alone);
    }
    let (left, _pops) = best(alloc, head, bases, graph)?;
    Ok(left)
}

/// Returns the octopus bases of heads that the source has, and follows them in the order given.
fn steps<S: Find, A: Allocator + Copy>(
    alloc: A,
    first: ObjectId,
    others: &[ObjectId],
    graph: &mut Graph<S, Commit<Flags, A>, A>,
) -> Result<Vec<ObjectId, A>, Error>
    ensures bases { IsAcyclicFrom (S.history graph.old.source) (first ∷ others.now)
        → ((c : ObjectId) → IsTrue (is_one_of (first ∷ others.now) c)
        → Has (S.history graph.old.source) c)
        → IfOk result (λ left.
        AreOctopusBases (S.history graph.old.source) first others.now left.items) }
    ensures order { IfOk result (λ left. IsInOrder (S.history graph.old.source) left.items) }
    ensures loads { LoadsFrom (S.history graph.old.source) (first ∷ others.now) graph.old graph.new }
    ensures after { AfterCall S.history S.fault_count graph.old graph.new result }
{
    let mut left = [first].to_vec(alloc)?;
    for other in others {
        left = step(alloc, &left, *other, graph)?;
    }
    Ok(left)
}

/// Returns common ancestors of `first` and all of `others`, every maximal one among them, if these
/// ids are acyclic. With ordered generations as well they are exactly the maximal ones.
///
/// Each head is looked up, and then followed at most once, the newest first. Along a chain each
/// walk goes on where the one before it ended.
fn bases_of_heads<S: Find, A: Allocator + Copy>(
    alloc: A,
    first: ObjectId,
    others: &[ObjectId],
    graph: &mut Graph<S, Commit<Flags, A>, A>,
) -> Result<Vec<ObjectId, A>, Error>
    ensures bases { IsAcyclicFrom (S.history graph.old.source) (first ∷ others.now)
        → IfOk result (λ left.
        AreOctopusBases (S.history graph.old.source) first others.now left.items) }
    ensures order { IfOk result (λ left. IsInOrder (S.history graph.old.source) left.items) }
    ensures loads { LoadsFrom (S.history graph.old.source) (first ∷ others.now) graph.old graph.new }
    ensures after { AfterCall S.history S.fault_count graph.old graph.new result }
{
    let heads = distinct(alloc, graph.seed(), first, others)?;
    let known = in_order(alloc, &heads, graph)?;
    if known.len() < heads.len() {
        return Ok(Vec::new(alloc));
    }
    // The step of the newest head costs no walk: the head is then the only base.
    let newest = known[0];
    steps(alloc, newest, &known, graph)
}

/// Returns all octopus bases of `first` and `others` together.
///
/// An octopus base is an ancestor of all the ids that no other such ancestor reaches
/// (git-merge-base, "--octopus" with "--all"). Each is returned once. They are sorted by falling
/// generation number, then falling time, then rising id: the first is what [`octopus`] returns. The
/// list is empty if the ids have no common ancestor.
///
/// - If all ids are equal, also with no `others`, the answer is that id. The source is then asked
///   nothing, and the graph is left as it was.
/// - An id that the source does not have has no ancestors.
///
/// # Premises
///
/// [Acyclic and ordered generations](crate#premises), for what the ids reach. Without ordered
/// generations the answer to different ids still contains only ancestors of all of them, and for
/// each such ancestor one that reaches it. With a cycle the call returns, but which commits it
/// answers is unspecified.
///
/// # Graph
///
/// [The graph keeps every commit that it holds](crate#graph), also on an error. Data may change. A
/// commit that it newly holds is an argument, or reachable from one.
///
/// # Errors
///
/// - [`Error::Source`]: the source failed. Its [fault count](crate#fault-count) has grown by one,
///   or is `u64::MAX`.
/// - [`Error::OutOfMemory`]: an allocation failed.
///
/// The graph can be used again after either.
pub fn octopus_bases<S: Find, A: Allocator + Copy>(
    alloc: A,
    first: ObjectId,
    others: &[ObjectId],
    graph: &mut Graph<S, Commit<Flags, A>, A>,
) -> Result<Vec<ObjectId, A>, Error>
    // Premise: acyclic. Unless all ids are equal, the answer has only ancestors of all the ids, and
    // each such ancestor is an ancestor of an id of the answer. With ordered generations as well,
    // the answer has exactly those that no other such ancestor reaches.
    ensures bases { IsAcyclicFrom (S.history graph.old.source) (first ∷ others.now)
        → list_all (same_id first) others.now ≡ false
        → IfOk result (λ bases.
        AreOctopusBases (S.history graph.old.source) first others.now bases.items) }

    // The answer is sorted by falling generation number, then falling time, then rising id.
    ensures order { IfOk result (λ bases. IsInOrder (S.history graph.old.source) bases.items) }

    // If all ids are equal, the graph is unchanged, also after an error.
    ensures trivial { IsTrue (list_all (same_id first) others.now) → graph.new ≡ graph.old }

    // If all ids are equal, the only id of the answer is `first`.
    ensures trivial_answer { IsTrue (list_all (same_id first) others.now)
        → IfOk result (λ bases. bases.items ≡ first ∷ []) }

    // Also after an error, each commit that the call loads is an argument, or an ancestor of one.
    ensures reached { (q : ObjectId) → IsHeld graph.new q
        → IsHeld graph.old q ⊎ MayBeMet (S.history graph.old.source) first others.now q }

    // The history of the source is unchanged, also after an error.
    ensures history { S.history graph.new.source ≡ S.history graph.old.source }

    // A source error has one of two texts: a commit, or a parent commit, could not be inserted.
    ensures cause { IfErr result HasInsertText }

    // If the call returns the source error, the fault count grows by one, or stays at `u64::MAX`.
    // Otherwise the fault count is unchanged.
    ensures count { S.fault_count graph.new.source
        ≡ count_after (is_source_fault result) (S.fault_count graph.old.source) }

    // The graph keeps every commit that it holds, also after an error.
    ensures held { KeepsHeld graph.old graph.new }
{
    if all_are(others, first) {
        let alone = [first].to_vec(alloc)?;
        return Ok(alone);
    }
    bases_of_heads(alloc, first, others, graph)
}

/// Returns the first octopus base of `first` and `others` together.
///
/// An octopus base is an ancestor of all the ids that no other such ancestor reaches
/// (git-merge-base, "--octopus"). Of several, the answer is the one with the greatest generation
/// number, then the greatest time, then the smallest id: the first of [`octopus_bases`]. The answer
/// is `None` if the ids have no common ancestor.
///
/// - If all ids are equal, also with no `others`, the answer is that id. The call then succeeds,
///   also where no memory is left, and the graph and its source stay as they were.
/// - An id that the source does not have has no ancestors.
///
/// # Premises
///
/// [Acyclic and ordered generations](crate#premises), for what the ids reach. Without ordered
/// generations the answer to different ids is still an ancestor of all of them, and `None` only if
/// there is none. With a cycle the call returns, but which commit it answers is unspecified.
///
/// # Graph
///
/// [The graph keeps every commit that it holds](crate#graph), also on an error. Data may change. A
/// commit that it newly holds is an argument, or reachable from one.
///
/// # Errors
///
/// - [`Error::Source`]: the source failed. Its [fault count](crate#fault-count) has grown by one,
///   or is `u64::MAX`.
/// - [`Error::OutOfMemory`]: an allocation failed.
///
/// The graph can be used again after either.
pub fn octopus<S: Find, A: Allocator + Copy>(
    alloc: A,
    first: ObjectId,
    others: &[ObjectId],
    graph: &mut Graph<S, Commit<Flags, A>, A>,
) -> Result<Option<ObjectId>, Error>
    // Premises: acyclic, ordered generations. The answer is the octopus base, and `None` exactly if
    // there is none.
    ensures base { IsAcyclicFrom (S.history graph.old.source) (first ∷ others.now)
        → GenerationsNeverRiseFrom (S.history graph.old.source) (first ∷ others.now)
        → IfOk result (IsOctopusBase (S.history graph.old.source) first others.now) }

    // Premise: acyclic. Unless all ids are equal, the answer is an ancestor of all the ids, and
    // `None` exactly if there is no such ancestor.
    ensures common { IsAcyclicFrom (S.history graph.old.source) (first ∷ others.now)
        → list_all (same_id first) others.now ≡ false
        → IfOk result (IsCommonToAll (S.history graph.old.source) first others.now) }

    // The answer is the first id of some list that keeps what `octopus_bases` promises of an answer
    // (`AnswersOctopusBases`), and `None` exactly if that list is empty.
    ensures first { IfOk result
        (IsFirstOctopusBase (S.history graph.old.source) first others.now) }

    // If all ids are equal, the call succeeds with `first`, and the graph is unchanged.
    ensures trivial { IsTrue (list_all (same_id first) others.now)
        → (result ≡ Ok (Some first)) × (graph.new ≡ graph.old) }

    // Also after an error, each commit that the call loads is an argument, or an ancestor of one.
    ensures reached { (q : ObjectId) → IsHeld graph.new q
        → IsHeld graph.old q ⊎ MayBeMet (S.history graph.old.source) first others.now q }

    // The history of the source is unchanged, also after an error.
    ensures history { S.history graph.new.source ≡ S.history graph.old.source }

    // A source error has one of two texts: a commit, or a parent commit, could not be inserted.
    ensures cause { IfErr result HasInsertText }

    // If the call returns the source error, the fault count grows by one, or stays at `u64::MAX`.
    // Otherwise the fault count is unchanged.
    ensures count { S.fault_count graph.new.source
        ≡ count_after (is_source_fault result) (S.fault_count graph.old.source) }

    // The graph keeps every commit that it holds, also after an error.
    ensures held { KeepsHeld graph.old graph.new }
{
    if all_are(others, first) {
        return Ok(Some(first));
    }
    let bases = bases_of_heads(alloc, first, others, graph)?;
    Ok(bases.first().copied())
}
