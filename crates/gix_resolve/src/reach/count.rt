//! Lists or counts what only one side of a walk reaches.

ghost use Rattle.std.specs.Prelude.{◌≡◌, ◌<◌, ◌+◌, ◌-◌, ◌^◌, ◌++◌, cond, length, IfOk, false};
ghost use Rattle.std.specs.List.{filter};
ghost use Rattle.gix_revwalk.specs.Faults.{is_source_fault};
ghost use Rattle.gix_revwalk.specs.GraphAfter.{GraphAfter};
ghost use Rattle.gix_revwalk.specs.History.{IsAncestorOfOne};
ghost use Rattle.gix_merge_base.specs.PaintQueue.{ids_at, AreIn, marks_at};
ghost use Rattle.gix_resolve.specs.ReachSides.{is_first_alone as first_alone, is_second_alone as second_alone, ListsFirst, CountsSides};
ghost use Rattle.gix_resolve.specs.Taken.{TakesOnly};

use crate::list::ids_of;
use crate::reach::hand::mark_of;
use crate::reach::shown::firsts;
use crate::reach::sides::{is_first_alone, is_second_alone};
use crate::reach::walk::follow;
use gix_revision::graph::{Commit, Error, Find, Graph};
use gix_revision::hash::ObjectId;
use gix_revision::merge_base::Flags;
use gix_revwalk::numbers::Number;
use std::alloc::Allocator;

/// Lists the commits that `first` reaches and `second` does not, each once, in no particular order.
///
/// If a generation number rises the list may have more of what `first` reaches.
pub(crate) fn listed<S: Find, A: Allocator + Copy>(
    alloc: A,
    first: &[ObjectId],
    second: &[ObjectId],
    graph: &mut Graph<S, Commit<Flags, A>, A>,
) -> Result<Vec<ObjectId, A>, Error>
    ensures listed { IfOk result
        (λ ids. ListsFirst (S.history graph.old.source) first.now second.now ids.items) }
    ensures taken { TakesOnly (IsAncestorOfOne (S.history graph.old.source)
        (first.now ++ second.now)) graph.old graph.new }
    ensures after { GraphAfter S.history S.fault_count is_source_fault graph.old graph.new result }
{
    let numbers = firsts(alloc, first, second, graph)?;
    Ok(ids_of(alloc, &numbers, graph)?)
}

/// Returns the count, plus one if `test` is true.
fn count_if(test: bool, count: usize) -> usize
    requires { count < 2 ^ 64 - 1 }
    ensures { result ≡ count + cond test 1 0 }
{
    if test { count + 1 } else { count }
}

/// Counts the commits that only the first side reaches, and those that only the second side
/// reaches.
fn count_sides<S: Find, A: Allocator + Copy>(
    met: &[Number],
    graph: &Graph<S, Commit<Flags, A>, A>,
) -> (usize, usize)
    requires { AreIn graph.now met.now }
    ensures first { result.0
        ≡ length (filter (λ c. first_alone (marks_at graph.now c)) (ids_at graph.now met.now)) }
    ensures second { result.1
        ≡ length (filter (λ c. second_alone (marks_at graph.now c)) (ids_at graph.now met.now)) }
{
    let mut firsts = 0usize;
    let mut seconds = 0usize;
    for number in met {
        let marks = mark_of(graph, *number).marks;
        firsts = count_if(is_first_alone(marks), firsts);
        seconds = count_if(is_second_alone(marks), seconds);
    }
    (firsts, seconds)
}

/// Counts the commits that `first` reaches and `second` does not, and vice versa.
///
/// The second count has a meaning only if `both` is set. If a generation number rises a count may
/// be greater.
pub(crate) fn counted<S: Find, A: Allocator + Copy>(
    alloc: A,
    first: &[ObjectId],
    second: &[ObjectId],
    both: bool,
    graph: &mut Graph<S, Commit<Flags, A>, A>,
) -> Result<(usize, usize), Error>
    ensures counts { IfOk result (λ r.
        CountsSides (S.history graph.old.source) first.now second.now both r.0 r.1) }
    ensures taken { TakesOnly (IsAncestorOfOne (S.history graph.old.source)
        (first.now ++ second.now)) graph.old graph.new }
    ensures after { GraphAfter S.history S.fault_count is_source_fault graph.old graph.new result }
{
    let walk = follow(alloc, first, second, both, graph)?;
    Ok(count_sides(&walk.met, graph))
}
