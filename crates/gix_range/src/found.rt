//! Finds candidates for what some commits reach and others do not.

ghost use Rattle.std.specs.Prelude.{◌∷◌, ◌++◌, [], List, IfOk, OnOk};
ghost use Rattle.gix_base.specs.declared.hash.ObjectId.{ObjectId};
ghost use Rattle.gix_merge_base.specs.AfterCall.{AfterCall};
ghost use Rattle.gix_merge_base.specs.Sides.{CoversSide};

use gix_base::hash::ObjectId;
use gix_merge_base::merge_base::{Error, Flags, paint_sides};
use gix_revwalk::graph::{Commit, Find, Graph};
use gix_revwalk::seen::Seen;
use std::alloc::Allocator;

/// Adds all that `id` reaches to what others reach.
fn add_reached<S: Find, A: Allocator + Copy>(
    alloc: A,
    id: ObjectId,
    all: &mut Seen<A>,
    graph: &mut Graph<S, Commit<Flags, A>, A>,
) -> Result<(), Error>
    ensures more { OnOk result ((ids : List ObjectId)
        → CoversSide (S.history graph.old.source) ids [] all.old
        → CoversSide (S.history graph.old.source) (ids ++ id ∷ []) [] all.new) }
    ensures after { AfterCall S.history S.fault_count graph.old graph.new result }
{
    let found = paint_sides(alloc, id, &[], graph)?;
    all.add_all(&found.firsts)?;
    Ok(())
}

/// Lists all that `ids` reach.
fn reached_by<S: Find, A: Allocator + Copy>(
    alloc: A,
    ids: &[ObjectId],
    graph: &mut Graph<S, Commit<Flags, A>, A>,
) -> Result<Vec<ObjectId, A>, Error>
    ensures covers { IfOk result
        (λ all. CoversSide (S.history graph.old.source) ids.now [] all.items) }
    ensures after { AfterCall S.history S.fault_count graph.old graph.new result }
{
    let mut all = Seen::new(alloc, graph.seed());
    for id in ids {
        add_reached(alloc, *id, &mut all, graph)?;
    }
    Ok(all.into_vec())
}

/// Finds candidates for what `include` reaches and `exclude` does not.
///
/// Painting has one commit on one side. If that is the included one, the other side has all that are
/// excluded. Otherwise it is the first that is excluded.
pub(crate) fn find_candidates<S: Find, A: Allocator + Copy>(
    alloc: A,
    include: &[ObjectId],
    exclude: &[ObjectId],
    graph: &mut Graph<S, Commit<Flags, A>, A>,
) -> Result<Vec<ObjectId, A>, Error>
    ensures covers { IfOk result (λ ids.
        CoversSide (S.history graph.old.source) include.now exclude.now ids.items) }
    ensures after { AfterCall S.history S.fault_count graph.old graph.new result }
{
    match (include, exclude) {
        ([one], _) => Ok(paint_sides(alloc, *one, exclude, graph)?.firsts),
        (_, [first, ..]) => Ok(paint_sides(alloc, *first, include, graph)?.seconds),
        _ => reached_by(alloc, include, graph),
    }
}
