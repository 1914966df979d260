//! Tests whether commits reach another one, and ends early also if they do not.

ghost use Rattle.std.specs.Prelude.{◌≡◌, ◌↔◌, IfOk, IsTrue};
ghost use Rattle.gix_base.specs.declared.hash.ObjectId.{ObjectId};
ghost use Rattle.gix_revwalk.specs.History.{IsAncestorOfOne, is_one_of};
ghost use Rattle.gix_merge_base.specs.AfterCall.{AfterCall};
ghost use Rattle.gix_merge_base.specs.Premises.{IsAcyclicFrom};

use gix_base::hash::ObjectId;
use gix_merge_base::merge_base::{Error, Flags, paint};
use gix_revwalk::graph::{Commit, Find, Graph};
use std::alloc::Allocator;

/// Tests whether an id is in a list.
fn is_in(ids: &[ObjectId], id: ObjectId) -> bool
    ensures { result ≡ is_one_of ids.now id }
{
    ids.contains(&id)
}

/// Tests whether one of `by` reaches `id` (git-merge-base, "--is-ancestor").
///
/// - A commit reaches itself.
/// - An id that the source does not have is reached by nothing, not even by itself, and reaches
///   nothing.
///
/// # Premises
///
/// [Acyclic](gix_merge_base#premises), for what `by` reaches, for the answer `false`. The answer
/// `true` needs no premise.
///
/// # Graph
///
/// [The graph keeps every commit that it holds](gix_merge_base#graph), also on an error. Data may
/// change.
///
/// # Errors
///
/// - [`Error::Source`]: the source failed.
/// - [`Error::OutOfMemory`]: an allocation failed.
///
/// The graph can be used again after either.
pub fn is_reached<S: Find, A: Allocator + Copy>(
    alloc: A,
    id: ObjectId,
    by: &[ObjectId],
    graph: &mut Graph<S, Commit<Flags, A>, A>,
) -> Result<bool, Error>
    // Premise: acyclic. The answer is `true` exactly if `id` is an ancestor of one of `by`.
    ensures exact { IsAcyclicFrom (S.history graph.old.source) by.now
        → IfOk result (λ did. IsTrue did
        ↔ IsAncestorOfOne (S.history graph.old.source) by.now id) }

    // If the answer is `true`, `id` is an ancestor of one of `by`.
    ensures reached { IfOk result (λ did. IsTrue did
        → IsAncestorOfOne (S.history graph.old.source) by.now id) }

    // Also after an error, the history is unchanged, and the graph keeps each commit that it holds.
    // After a source error, which has one of two texts, the fault count is one more, up to
    // `u64::MAX`. Otherwise it is unchanged.
    ensures after { AfterCall S.history S.fault_count graph.old graph.new result }
{
    let (bases, _pops) = paint(alloc, id, by, graph)?;
    Ok(is_in(&bases, id))
}
