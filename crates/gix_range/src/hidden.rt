//! Finds out which of some candidates other commits reach.

ghost use Rattle.std.specs.Prelude.{◌∷◌, [], IfOk};
ghost use Rattle.gix_merge_base.specs.AfterCall.{AfterCall};
ghost use Rattle.gix_merge_base.specs.Sides.{CoversSide};
ghost use Rattle.gix_range.specs.Ranges.{Hides};

use crate::below::commit_below;
use crate::whole::all_reached;
use gix_base::hash::ObjectId;
use gix_merge_base::merge_base::{Error, Flags, paint_sides};
use gix_revwalk::graph::{Commit, Find, Graph};
use gix_revwalk::seen::Seen;
use std::alloc::Allocator;

/// Lists what `exclude` reaches and `below` does not.
fn above<S: Find, A: Allocator + Copy>(
    alloc: A,
    below: ObjectId,
    exclude: &[ObjectId],
    graph: &mut Graph<S, Commit<Flags, A>, A>,
) -> Result<Seen<A>, Error>
    ensures covers { IfOk result
        (CoversSide (S.history graph.old.source) exclude.now (below ∷ [])) }
    ensures after { AfterCall S.history S.fault_count graph.old graph.new result }
{
    let found = paint_sides(alloc, below, exclude, graph)?;
    let mut hidden = Seen::new(alloc, graph.seed());
    hidden.add_all(&found.seconds)?;
    Ok(hidden)
}

/// Lists commits that `exclude` reaches, among them each of the candidates that it reaches.
///
/// # Premises
///
/// [Acyclic](gix_merge_base#premises), for what `exclude` reaches. Without it the list may lack
/// candidates.
///
/// # Errors
///
/// Those of [`commit_below`].
pub(crate) fn hidden_of<S: Find, A: Allocator + Copy>(
    alloc: A,
    candidates: &[ObjectId],
    exclude: &[ObjectId],
    graph: &mut Graph<S, Commit<Flags, A>, A>,
) -> Result<Seen<A>, Error>
    ensures hides { IfOk result (Hides (S.history graph.old.source) candidates.now exclude.now) }
    ensures after { AfterCall S.history S.fault_count graph.old graph.new result }
{
    match (candidates, exclude) {
        ([], _) | (_, []) => Ok(Seen::new(alloc, graph.seed())),
        _ => match commit_below(alloc, candidates, graph)? {
            Some(below) => above(alloc, below, exclude, graph),
            None => all_reached(alloc, exclude, graph),
        },
    }
}
