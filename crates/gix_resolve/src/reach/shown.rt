//! Returns the numbers of what only the first side of a walk reaches, or of what only either does.

ghost use Rattle.std.specs.Prelude.{◌≡◌, ◌++◌, IfOk};
ghost use Rattle.std.specs.List.{filter};
ghost use Rattle.gix_revwalk.specs.Faults.{is_source_fault};
ghost use Rattle.gix_revwalk.specs.GraphAfter.{GraphAfter};
ghost use Rattle.gix_revwalk.specs.History.{IsAncestorOfOne};
ghost use Rattle.gix_merge_base.specs.PaintQueue.{ids_at, AreIn, marks_at};
ghost use Rattle.gix_resolve.specs.ReachSides.{shows, ListsFirst, ListsEither};
ghost use Rattle.gix_resolve.specs.Taken.{TakesOnly};

use crate::reach::hand::mark_of;
use crate::reach::sides::is_shown;
use crate::reach::walk::follow;
use gix_revision::graph::{Commit, Error, Find, Graph};
use gix_revision::hash::ObjectId;
use gix_revision::merge_base::Flags;
use gix_revwalk::numbers::Number;
use std::alloc::{AllocError, Allocator};

/// Returns the numbers of the commits that are wanted, in the order of the walk.
fn shown_of<S: Find, A: Allocator + Copy>(
    alloc: A,
    both: bool,
    met: &[Number],
    graph: &Graph<S, Commit<Flags, A>, A>,
) -> Result<Vec<Number, A>, AllocError>
    requires { AreIn graph.now met.now }
    ensures { IfOk result (λ shown. AreIn graph.now shown.items × (ids_at graph.now shown.items
        ≡ filter (λ c. shows both (marks_at graph.now c)) (ids_at graph.now met.now))) }
{
    let mut shown = Vec::new(alloc);
    for number in met {
        if is_shown(both, mark_of(graph, *number).marks) {
            shown.push(*number)?;
        }
    }
    Ok(shown)
}

/// Returns the numbers of the commits that `first` reaches and `second` does not, each once.
///
/// They are in no particular order. If a generation number rises there may be more of what `first`
/// reaches.
pub(crate) fn firsts<S: Find, A: Allocator + Copy>(
    alloc: A,
    first: &[ObjectId],
    second: &[ObjectId],
    graph: &mut Graph<S, Commit<Flags, A>, A>,
) -> Result<Vec<Number, A>, Error>
    ensures inside { IfOk result (λ shown. AreIn graph.new shown.items) }
    ensures listed { IfOk result (λ shown.
        ListsFirst (S.history graph.old.source) first.now second.now (ids_at graph.new shown.items)) }
    ensures taken { TakesOnly (IsAncestorOfOne (S.history graph.old.source)
        (first.now ++ second.now)) graph.old graph.new }
    ensures after { GraphAfter S.history S.fault_count is_source_fault graph.old graph.new result }
{
    let walk = follow(alloc, first, second, false, graph)?;
    Ok(shown_of(alloc, false, &walk.met, graph)?)
}

/// Returns the numbers of the commits that exactly one of the two sides reaches, each once.
///
/// They are in no particular order. If a generation number rises there may be more.
pub(crate) fn eithers<S: Find, A: Allocator + Copy>(
    alloc: A,
    first: &[ObjectId],
    second: &[ObjectId],
    graph: &mut Graph<S, Commit<Flags, A>, A>,
) -> Result<Vec<Number, A>, Error>
    ensures inside { IfOk result (λ shown. AreIn graph.new shown.items) }
    ensures listed { IfOk result (λ shown.
        ListsEither (S.history graph.old.source) first.now second.now (ids_at graph.new shown.items)) }
    ensures taken { TakesOnly (IsAncestorOfOne (S.history graph.old.source)
        (first.now ++ second.now)) graph.old graph.new }
    ensures after { GraphAfter S.history S.fault_count is_source_fault graph.old graph.new result }
{
    let walk = follow(alloc, first, second, true, graph)?;
    Ok(shown_of(alloc, true, &walk.met, graph)?)
}
