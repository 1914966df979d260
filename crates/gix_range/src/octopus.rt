//! Finds the merge bases of many commits, and ends early also without generation numbers.

ghost use Rattle.std.specs.Prelude.{◌↔◌, ◌∷◌, ◌++◌, [], List, IfOk, OnOk, IsTrue};
ghost use Rattle.gix_base.specs.declared.hash.ObjectId.{ObjectId};
ghost use Rattle.gix_revwalk.specs.History.{is_one_of, IsAncestorOfAll};
ghost use Rattle.gix_merge_base.specs.AfterCall.{AfterCall};
ghost use Rattle.gix_merge_base.specs.Bases.{IsMaximal};
ghost use Rattle.gix_merge_base.specs.Premises.{IsAcyclicFrom};
ghost use Rattle.gix_range.specs.Octopus.{Meets};

use crate::independence::bases;
use gix_base::hash::ObjectId;
use gix_merge_base::merge_base::{Error, Flags};
use gix_revwalk::graph::{Commit, Find, Graph};
use std::alloc::Allocator;

/// Puts the best common ancestors of some commits and `other` in the place of those of these
/// commits.
fn meet<S: Find, A: Allocator + Copy>(
    alloc: A,
    other: ObjectId,
    common: &mut Vec<ObjectId, A>,
    graph: &mut Graph<S, Commit<Flags, A>, A>,
) -> Result<(), Error>
    ensures meets { OnOk result ((all ids : List ObjectId)
        → IsAcyclicFrom (S.history graph.old.source) all → IsTrue (is_one_of all other)
        → Meets (S.history graph.old.source) all ids common.old.items
        → Meets (S.history graph.old.source) all (ids ++ other ∷ []) common.new.items) }
    ensures after { AfterCall S.history S.fault_count graph.old graph.new result }
{
    let found = bases(alloc, other, common.as_slice(), graph)?;
    *common = found;
    Ok(())
}

/// Returns the best common ancestors of `first` and all of `others`, in no certain order
/// (git-merge-base, "--octopus" with "--all").
///
/// # Premises
///
/// [Acyclic](gix_merge_base#premises), for what `first` and `others` reach.
///
/// # Graph
///
/// [The graph keeps every commit that it holds](gix_merge_base#graph), also on an error. Data may
/// change.
///
/// # Errors
///
/// - [`Error::Source`]: the source failed.
/// - [`Error::OutOfMemory`]: an allocation failed.
///
/// The graph can be used again after either.
pub fn octopus_bases<S: Find, A: Allocator + Copy>(
    alloc: A,
    first: ObjectId,
    others: &[ObjectId],
    graph: &mut Graph<S, Commit<Flags, A>, A>,
) -> Result<Vec<ObjectId, A>, Error>
    // Premise: acyclic. The answer has exactly the common ancestors of `first` and all of `others`
    // that no other such ancestor reaches.
    ensures exact { IsAcyclicFrom (S.history graph.old.source) (first ∷ others.now)
        → IfOk result (λ bases. (c : ObjectId) → IsTrue (is_one_of bases.items c)
        ↔ IsMaximal (S.history graph.old.source)
        (IsAncestorOfAll (S.history graph.old.source) (first ∷ others.now)) c) }

    // Also after an error, the history is unchanged, and the graph keeps each commit that it holds.
    // After a source error, which has one of two texts, the fault count is one more, up to
    // `u64::MAX`. Otherwise it is unchanged.
    ensures after { AfterCall S.history S.fault_count graph.old graph.new result }
{
    let mut common = bases(alloc, first, &[first], graph)?;
    for other in others {
        meet(alloc, *other, &mut common, graph)?;
    }
    Ok(common)
}
