//! Lists what only the first side of a walk reaches, newest first.

ghost use Rattle.std.specs.Prelude.{◌++◌, IfOk};
ghost use Rattle.gix_revwalk.specs.Faults.{is_source_fault};
ghost use Rattle.gix_revwalk.specs.GraphAfter.{GraphAfter};
ghost use Rattle.gix_revwalk.specs.History.{IsAncestorOfOne};
ghost use Rattle.gix_merge_base.specs.Keys.{IsInOrder};
ghost use Rattle.gix_resolve.specs.ReachSides.{ListsFirst};
ghost use Rattle.gix_resolve.specs.Taken.{TakesOnly};

use crate::list::newest_of;
use crate::reach::shown::firsts;
use gix_revision::graph::{Commit, Error, Find, Graph};
use gix_revision::hash::ObjectId;
use gix_revision::merge_base::Flags;
use std::alloc::Allocator;

/// Lists the commits that `first` reaches and `second` does not, each once, newest first.
///
/// If a generation number rises the list may have more of what `first` reaches.
pub(crate) fn newest_listed<S: Find, A: Allocator + Copy>(
    alloc: A,
    first: &[ObjectId],
    second: &[ObjectId],
    graph: &mut Graph<S, Commit<Flags, A>, A>,
) -> Result<Vec<ObjectId, A>, Error>
    ensures listed { IfOk result
        (λ ids. ListsFirst (S.history graph.old.source) first.now second.now ids.items) }
    ensures order { IfOk result (λ ids. IsInOrder (S.history graph.old.source) ids.items) }
    ensures taken { TakesOnly (IsAncestorOfOne (S.history graph.old.source)
        (first.now ++ second.now)) graph.old graph.new }
    ensures after { GraphAfter S.history S.fault_count is_source_fault graph.old graph.new result }
{
    let numbers = firsts(alloc, first, second, graph)?;
    Ok(newest_of(alloc, &numbers, graph)?)
}
