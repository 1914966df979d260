//! The merge bases of a commit and others.

ghost use Rattle.std.specs.Prelude.{◌≡◌, [], ◌∷◌, ◌⊎◌, IsOk, IfOk, IfErr, IsTrue, false};
ghost use Rattle.std.specs.List.{IsDistinct};
ghost use Rattle.gix_revwalk.specs.History.{same_id};
ghost use Rattle.gix_base.specs.declared.hash.ObjectId.{ObjectId};
ghost use Rattle.gix_merge_base.specs.Bases.{IsBase, AreBases, CoverBases, ids_of, is_trivial};
ghost use Rattle.gix_merge_base.specs.Keys.{IsInOrder};
ghost use Rattle.gix_merge_base.specs.Premises.{IsAcyclicFrom, GenerationsNeverRiseFrom, KeysFallFrom};
ghost use Rattle.gix_merge_base.specs.Painting.{MayBeMet, MayBeTaken};
ghost use Rattle.gix_merge_base.specs.PaintQueue.{IsHeld};
ghost use Rattle.gix_merge_base.specs.Refusals.{HasInsertText, is_source_fault};
ghost use Rattle.gix_revwalk.specs.Faults.{count_after};
ghost use Rattle.gix_revwalk.specs.Graph.{KeepsHeld};

use crate::merge_base::bases::counted;
use crate::merge_base::error::Error;
use crate::merge_base::flags::Flags;
use gix_base::error::NonEmpty;
use gix_base::hash::ObjectId;
use gix_revwalk::graph::{Commit, Find, Graph};
use std::alloc::Allocator;

/// Returns the merge bases of `first` and a hypothetical merge of `others`.
///
/// This is `git merge-base --all` (git-merge-base, "Discussion"). A common ancestor is a commit
/// that is reachable from `first` and from at least one of `others`. A merge base is a common
/// ancestor that no other common ancestor reaches.
///
/// Each merge base is returned once. They are sorted by falling generation number, then falling
/// time, then rising id. The answer is `None` if there is no merge base.
///
/// - If `others` is empty or contains `first`, the answer is `first`. The call then succeeds, also
///   where no memory is left, and the graph and its source stay as they were.
/// - An id that the source does not have has no ancestors.
///
/// # Premises
///
/// [Acyclic and ordered generations](crate#premises), for what `first` and `others` reach. Without
/// ordered generations the answer still contains every merge base, and only common ancestors. With
/// a cycle the call returns, but which commits it answers is unspecified.
///
/// # Graph
///
/// [The graph keeps every commit that it holds](crate#graph), also on an error. Data may change. A
/// commit that it newly holds is an argument, or reachable from one.
///
/// # Errors
///
/// - [`Error::Source`]: the source failed. Its [fault count](crate#fault-count) has grown by one,
///   or is `u64::MAX`.
/// - [`Error::OutOfMemory`]: an allocation failed.
///
/// The graph can be used again after either.
pub fn merge_base<S: Find, A: Allocator + Copy>(
    alloc: A,
    first: ObjectId,
    others: &[ObjectId],
    graph: &mut Graph<S, Commit<Flags, A>, A>,
) -> Result<Option<NonEmpty<ObjectId, A>>, Error>
    // Premises: acyclic, ordered generations. The ids of the answer are exactly the merge bases.
    // `None` has no ids.
    ensures bases { IsAcyclicFrom (S.history graph.old.source) (first ∷ others.now)
        → GenerationsNeverRiseFrom (S.history graph.old.source) (first ∷ others.now)
        → IfOk result (λ found.
        AreBases (S.history graph.old.source) first others.now (ids_of found)) }

    // Premise: acyclic. If `others` is not empty and does not contain `first`, the answer has every
    // merge base, and only common ancestors.
    ensures without_generations { IsAcyclicFrom (S.history graph.old.source) (first ∷ others.now)
        → is_trivial first others.now ≡ false
        → IfOk result (λ found.
        CoverBases (S.history graph.old.source) first others.now (ids_of found)) }

    // Each id of the answer occurs once.
    ensures once { IfOk result (λ found. IsDistinct same_id (ids_of found)) }

    // The answer is sorted by falling generation number, then falling time, then rising id.
    ensures order { IfOk result (λ found.
        IsInOrder (S.history graph.old.source) (ids_of found)) }

    // If `others` is empty or contains `first`, the call succeeds, and the graph is unchanged.
    ensures trivial { IsTrue (is_trivial first others.now) → IsOk result × (graph.new ≡ graph.old) }

    // If `others` is empty or contains `first`, the only id of the answer is `first`.
    ensures trivial_answer { IsTrue (is_trivial first others.now)
        → IfOk result (λ found. ids_of found ≡ first ∷ []) }

    // Also after an error, each commit that the call loads is an argument, or an ancestor of one.
    ensures reached { (q : ObjectId) → IsHeld graph.new q
        → IsHeld graph.old q ⊎ MayBeMet (S.history graph.old.source) first others.now q }

    // Premise: falling keys. Also after an error, if there is at most one merge base, each commit
    // that the call loads is an argument, or a parent of a reached commit whose key is at least
    // that of some outside commit of the history (`MayBeTaken`).
    ensures taken { KeysFallFrom (S.history graph.old.source) (first ∷ others.now)
        → ((a b : ObjectId) → IsBase (S.history graph.old.source) first others.now a
        → IsBase (S.history graph.old.source) first others.now b → a ≡ b)
        → (q : ObjectId) → IsHeld graph.new q
        → IsHeld graph.old q ⊎ MayBeTaken (S.history graph.old.source) first others.now q }

    // The history of the source is unchanged, also after an error.
    ensures history { S.history graph.new.source ≡ S.history graph.old.source }

    // A source error has one of two texts: a commit, or a parent commit, could not be inserted.
    ensures cause { IfErr result HasInsertText }

    // If the call returns the source error, the fault count grows by one, or stays at `u64::MAX`.
    // Otherwise the fault count is unchanged.
    ensures count { S.fault_count graph.new.source
        ≡ count_after (is_source_fault result) (S.fault_count graph.old.source) }

    // The graph keeps every commit that it holds, also after an error.
    ensures held { KeepsHeld graph.old graph.new }
{
    let (bases, _pops) = counted(alloc, first, others, graph)?;
    Ok(bases)
}
