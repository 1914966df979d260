//! Lists all that some commits reach.

ghost use Rattle.std.specs.Prelude.{◌≡◌, ◌∷◌, ◌++◌, [], List, IfOk, OnOk, is_some};
ghost use Rattle.gix_base.specs.declared.hash.ObjectId.{ObjectId};
ghost use Rattle.gix_revwalk.specs.Faults.{is_source_fault as is_graph_fault};
ghost use Rattle.gix_revwalk.specs.Graph.{held_at};
ghost use Rattle.gix_revwalk.specs.History.{entry_at, parents_in};
ghost use Rattle.gix_revwalk.specs.Walks.{all_added};
ghost use Rattle.gix_merge_base.specs.AfterCall.{AfterCall};
ghost use Rattle.gix_merge_base.specs.Refusals.{HasInsertText, is_source_fault};
ghost use Rattle.gix_range.specs.Ranges.{AreAll, Keeps};
ghost use Rattle.std.specs.Prelude.{Err};

use gix_base::hash::ObjectId;
use gix_merge_base::merge_base::{Error, Flags, Simple};
use gix_revwalk::graph::{self, Commit, Find, Graph};
use gix_revwalk::numbers;
use gix_revwalk::seen::Seen;
use std::alloc::{AllocError, Allocator};

/// Returns the error for a commit that could not be loaded.
fn refused(error: graph::Error) -> Error
    ensures cause { HasInsertText result }
    ensures same { is_source_fault {T = Unit {0}} (Err result)
        ≡ is_graph_fault {T = Unit {0}} (Err error) }
{
    match error {
        graph::Error::Source => Error::Source(Simple("could not insert commit into graph")),
        graph::Error::OutOfMemory => Error::OutOfMemory,
    }
}

/// Loads a commit, unless the graph holds it, and returns whether the source has it.
pub(crate) fn load<S: Find, A: Allocator + Copy>(
    alloc: A,
    id: ObjectId,
    graph: &mut Graph<S, Commit<Flags, A>, A>,
) -> Result<bool, Error>
    ensures has { IfOk result (λ has. has ≡ is_some (entry_at (S.history graph.old.source) id)) }
    ensures held { OnOk result (is_some (held_at graph.new id)
        ≡ is_some (entry_at (S.history graph.old.source) id)) }
    ensures after { AfterCall S.history S.fault_count graph.old graph.new result }
{
    match numbers::take(graph, alloc, id, Flags::default()) {
        Ok(number) => Ok(number.is_some()),
        Err(error) => Err(refused(error)),
    }
}

/// Adds the parents of a commit to the list, if the graph holds the commit.
fn gather<S: Find, A: Allocator + Copy>(
    id: ObjectId,
    seen: &mut Seen<A>,
    graph: &Graph<S, Commit<Flags, A>, A>,
) -> Result<(), AllocError>
    requires { is_some (held_at graph.now id) ≡ is_some (entry_at (S.history graph.now.source) id) }
    ensures { OnOk result (seen.new
        ≡ all_added seen.old (parents_in (entry_at (S.history graph.now.source) id))) }
{
    match graph.get(&id) {
        Some(commit) => {
            seen.add_all(commit.parents())?;
            Ok(())
        }
        None => Ok(()),
    }
}

/// Adds the parents of a commit to the list, and loads the commit for this.
fn load_parents<S: Find, A: Allocator + Copy>(
    alloc: A,
    id: ObjectId,
    seen: &mut Seen<A>,
    graph: &mut Graph<S, Commit<Flags, A>, A>,
) -> Result<(), Error>
    ensures added { OnOk result (seen.new
        ≡ all_added seen.old (parents_in (entry_at (S.history graph.old.source) id))) }
    ensures after { AfterCall S.history S.fault_count graph.old graph.new result }
{
    let _has = load(alloc, id, graph)?;
    gather(id, seen, graph)?;
    Ok(())
}

/// Lists all that `ids` reach. Ids that the source does not have may be in the list.
///
/// # Errors
///
/// - [`Error::Source`]: the source failed.
/// - [`Error::OutOfMemory`]: an allocation failed.
pub(crate) fn all_reached<S: Find, A: Allocator + Copy>(
    alloc: A,
    ids: &[ObjectId],
    graph: &mut Graph<S, Commit<Flags, A>, A>,
) -> Result<Seen<A>, Error>
    ensures all { IfOk result (λ all. AreAll (S.history graph.old.source) ids.now all) }
    ensures after { AfterCall S.history S.fault_count graph.old graph.new result }
{
    let mut seen = Seen::new(alloc, graph.seed());
    seen.add_all(ids)?;
    for place in 0..usize::MAX {
        let Some(id) = seen.get(place) else {
            return Ok(seen);
        };
        load_parents(alloc, id, &mut seen, graph)?;
    }
    // Memory runs out before.
    Err(Error::OutOfMemory)
}
