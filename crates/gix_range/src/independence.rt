//! Finds those of some commits that no other one reaches, and merge bases, and ends early also
//! without generation numbers.

ghost use Rattle.std.specs.Prelude.{◌≡◌, ◌==◌, length, ◌↔◌, ◌∷◌, ◌++◌, [], List, IfOk, OnOk, IsTrue, cond, not};
ghost use Rattle.std.specs.List.{filter};
ghost use Rattle.gix_base.specs.declared.hash.ObjectId.{ObjectId};
ghost use Rattle.gix_revwalk.specs.History.{is_one_of, same_id};
ghost use Rattle.gix_merge_base.specs.AfterCall.{AfterCall};
ghost use Rattle.gix_merge_base.specs.Bases.{IsCommon, IsMaximal};
ghost use Rattle.gix_merge_base.specs.Premises.{IsAcyclicFrom};
ghost use Rattle.gix_merge_base.specs.Reducing.{IsIndependent};
ghost use Rattle.gix_range.specs.Independent.{Frees};

use crate::reached::is_reached;
use gix_base::hash::ObjectId;
use gix_merge_base::merge_base::{Error, Flags, paint};
use gix_revwalk::graph::{Commit, Find, Graph};
use std::alloc::{AllocError, Allocator};

/// Tests whether two ids are the same.
fn are_same(first: ObjectId, second: ObjectId) -> bool
    ensures { result ≡ same_id first second }
{
    first == second
}

/// Returns the ids without one of them.
fn without<A: Allocator + Copy>(
    alloc: A,
    ids: &[ObjectId],
    id: ObjectId,
) -> Result<Vec<ObjectId, A>, AllocError>
    ensures { IfOk result (λ others. others.items ≡ filter (λ x. not (same_id id x)) ids.now) }
{
    ids.iter()
        .copied()
        .filter(|other| !are_same(id, *other))
        .collect(alloc)
}

/// Tests whether there is no id.
fn has_none(ids: &[ObjectId]) -> bool
    ensures { result ≡ (length ids.now == 0) }
{
    ids.is_empty()
}

/// Tests whether no other one of `ids` reaches `id`.
fn is_independent<S: Find, A: Allocator + Copy>(
    alloc: A,
    id: ObjectId,
    ids: &[ObjectId],
    graph: &mut Graph<S, Commit<Flags, A>, A>,
) -> Result<bool, Error>
    requires { IsTrue (is_one_of ids.now id) }
    ensures exact { IsAcyclicFrom (S.history graph.old.source) ids.now
        → IfOk result (λ free. IsTrue free
        ↔ IsIndependent (S.history graph.old.source) ids.now id) }
    ensures after { AfterCall S.history S.fault_count graph.old graph.new result }
{
    let others = without(alloc, ids, id)?;
    let rest = others.as_slice();
    if has_none(rest) {
        return Ok(true);
    }
    let reached = is_reached(alloc, id, rest, graph)?;
    Ok(!reached)
}

/// Appends an id if a test was passed.
fn push_if<A: Allocator>(
    test: bool,
    id: ObjectId,
    kept: &mut Vec<ObjectId, A>,
) -> Result<(), AllocError>
    ensures { OnOk result (kept.new.items ≡ cond test (kept.old.items ++ id ∷ []) kept.old.items) }
{
    if test {
        kept.push(id)?;
        return Ok(());
    }
    Ok(())
}

/// Appends an id if no other one of `ids` reaches it.
fn keep_if_free<S: Find, A: Allocator + Copy>(
    alloc: A,
    id: ObjectId,
    ids: &[ObjectId],
    kept: &mut Vec<ObjectId, A>,
    graph: &mut Graph<S, Commit<Flags, A>, A>,
) -> Result<(), Error>
    requires { IsTrue (is_one_of ids.now id) }
    ensures frees { OnOk result ((xs : List ObjectId)
        → Frees (S.history graph.old.source) ids.now xs kept.old.items
        → Frees (S.history graph.old.source) ids.now (xs ++ id ∷ []) kept.new.items) }
    ensures after { AfterCall S.history S.fault_count graph.old graph.new result }
{
    let free = is_independent(alloc, id, ids, graph)?;
    push_if(free, id, kept)?;
    Ok(())
}

/// Returns those of `ids` that no other one reaches (git-merge-base, "--independent").
///
/// They have the order of `ids`. An id that occurs twice there also occurs twice in the answer.
///
/// # Premises
///
/// [Acyclic](gix_merge_base#premises), for what `ids` reach.
///
/// # Graph
///
/// [The graph keeps every commit that it holds](gix_merge_base#graph), also on an error. Data may
/// change.
///
/// # Errors
///
/// - [`Error::Source`]: the source failed.
/// - [`Error::OutOfMemory`]: an allocation failed.
///
/// The graph can be used again after either.
pub fn independent<S: Find, A: Allocator + Copy>(
    alloc: A,
    ids: &[ObjectId],
    graph: &mut Graph<S, Commit<Flags, A>, A>,
) -> Result<Vec<ObjectId, A>, Error>
    // Premise: acyclic. The answer has exactly those of `ids` that no other one of them reaches.
    ensures exact { IsAcyclicFrom (S.history graph.old.source) ids.now
        → IfOk result (λ kept. (c : ObjectId) → IsTrue (is_one_of kept.items c)
        ↔ IsIndependent (S.history graph.old.source) ids.now c) }

    // Also after an error, the history is unchanged, and the graph keeps each commit that it holds.
    // After a source error, which has one of two texts, the fault count is one more, up to
    // `u64::MAX`. Otherwise it is unchanged.
    ensures after { AfterCall S.history S.fault_count graph.old graph.new result }
{
    let mut kept = Vec::new(alloc);
    for id in ids {
        keep_if_free(alloc, *id, ids, &mut kept, graph)?;
    }
    Ok(kept)
}

/// Returns the merge bases of `first` and a hypothetical merge of `others`, in no certain order
/// (git-merge-base, "--all").
///
/// # Premises
///
/// [Acyclic](gix_merge_base#premises), for what `first` and `others` reach.
///
/// # Graph
///
/// [The graph keeps every commit that it holds](gix_merge_base#graph), also on an error. Data may
/// change.
///
/// # Errors
///
/// - [`Error::Source`]: the source failed.
/// - [`Error::OutOfMemory`]: an allocation failed.
///
/// The graph can be used again after either.
pub fn bases<S: Find, A: Allocator + Copy>(
    alloc: A,
    first: ObjectId,
    others: &[ObjectId],
    graph: &mut Graph<S, Commit<Flags, A>, A>,
) -> Result<Vec<ObjectId, A>, Error>
    // Premise: acyclic. The answer has exactly the common ancestors of `first` and one of `others`
    // that no other common ancestor reaches.
    ensures exact { IsAcyclicFrom (S.history graph.old.source) (first ∷ others.now)
        → IfOk result (λ bases. (c : ObjectId) → IsTrue (is_one_of bases.items c)
        ↔ IsMaximal (S.history graph.old.source)
        (IsCommon (S.history graph.old.source) first others.now) c) }

    // Also after an error, the history is unchanged, and the graph keeps each commit that it holds.
    // After a source error, which has one of two texts, the fault count is one more, up to
    // `u64::MAX`. Otherwise it is unchanged.
    ensures after { AfterCall S.history S.fault_count graph.old graph.new result }
{
    let (found, _pops) = paint(alloc, first, others, graph)?;
    independent(alloc, &found, graph)
}
