//! Counts the commits in a spec by the numbers that a walk lists. No id is listed or sorted.

ghost use Rattle.std.specs.Prelude.{◌≡◌, ◌+◌, IfOk, IsTrue, Ok, false};
ghost use Rattle.gix_revwalk.specs.Faults.{is_source_fault};
ghost use Rattle.gix_revwalk.specs.GraphAfter.{GraphAfter};
ghost use Rattle.gix_revwalk.specs.Sizes.{HasSize};
ghost use Rattle.gix_spec.specs.declared.spec.Spec.TheVariants.{Merge};
ghost use Rattle.gix_spec.specs.declared.spec.Spec.TheVariants.{IncludeOnlyParents, ExcludeParents};
ghost use Rattle.gix_resolve.specs.ListMeaning.{IsMeant};
ghost use Rattle.gix_resolve.specs.Taken.{TakesOnly, IsLookedAt, is_exclude};

use crate::list::members::parents_of;
use crate::list::walk::count_beyond;
use gix_revision::graph::{self, Commit, Find, Graph};
use gix_revision::hash::ObjectId;
use gix_revision::merge_base::Flags;
use gix_revision::spec::Spec;
use gix_revwalk::numbers;
use std::alloc::Allocator;

/// Adds two counts. A sum that does not fit a `usize` counts as out of memory.
///
/// No memory holds as many commits as a `usize` cannot count.
pub(crate) fn sum(first: usize, second: usize) -> Result<usize, graph::Error>
    ensures sum { IfOk result (λ n. n ≡ first + second) }
    ensures fault { is_source_fault result ≡ false }
{
    match first.checked_add(second) {
        Some(sum) => Ok(sum),
        None => Err(graph::Error::OutOfMemory),
    }
}

/// Counts the ancestors of exactly one of the two commits.
fn count_of_just_one<S: Find, A: Allocator + Copy>(
    alloc: A,
    theirs: ObjectId,
    ours: ObjectId,
    graph: &mut Graph<S, Commit<Flags, A>, A>,
) -> Result<usize, graph::Error>
    ensures size { IfOk result
        (HasSize (IsMeant (S.history graph.old.source) (Merge theirs ours))) }
    ensures taken { TakesOnly (IsLookedAt (S.history graph.old.source) (Merge theirs ours))
        graph.old graph.new }
    ensures after { GraphAfter S.history S.fault_count is_source_fault graph.old graph.new result }
{
    let marks = Flags::default();
    let of_theirs = count_beyond(alloc, &[ours], &[theirs], marks, graph)?;
    let of_ours = count_beyond(alloc, &[theirs], &[ours], marks, graph)?;
    sum(of_theirs, of_ours)
}

/// Counts the commits that the parents of `id` reach.
fn count_of_parents<S: Find, A: Allocator + Copy>(
    alloc: A,
    id: ObjectId,
    graph: &mut Graph<S, Commit<Flags, A>, A>,
) -> Result<usize, graph::Error>
    ensures size { IfOk result
        (HasSize (IsMeant (S.history graph.old.source) (IncludeOnlyParents id))) }
    ensures taken { TakesOnly (IsLookedAt (S.history graph.old.source) (IncludeOnlyParents id))
        graph.old graph.new }
    ensures after { GraphAfter S.history S.fault_count is_source_fault graph.old graph.new result }
{
    let parents = parents_of(alloc, id, graph)?;
    count_beyond(alloc, &[], &parents, Flags::default(), graph)
}

/// Counts the commit `id` itself: 1 if the source has it, otherwise 0.
fn count_of_one<S: Find, A: Allocator + Copy>(
    alloc: A,
    id: ObjectId,
    graph: &mut Graph<S, Commit<Flags, A>, A>,
) -> Result<usize, graph::Error>
    ensures size { IfOk result
        (HasSize (IsMeant (S.history graph.old.source) (ExcludeParents id))) }
    ensures taken { TakesOnly (IsLookedAt (S.history graph.old.source) (ExcludeParents id))
        graph.old graph.new }
    ensures after { GraphAfter S.history S.fault_count is_source_fault graph.old graph.new result }
{
    match numbers::take(graph, alloc, id, Flags::default())? {
        Some(_) => Ok(1),
        None => Ok(0),
    }
}

/// Counts the commits in `spec` with a walk that visits all their ancestors.
pub(crate) fn count_members<S: Find, A: Allocator + Copy>(
    alloc: A,
    spec: Spec,
    graph: &mut Graph<S, Commit<Flags, A>, A>,
) -> Result<usize, graph::Error>
    ensures size { IfOk result (HasSize (IsMeant (S.history graph.old.source) spec)) }
    ensures taken { TakesOnly (IsLookedAt (S.history graph.old.source) spec)
        graph.old graph.new }
    ensures exclude { IsTrue (is_exclude spec) → (result ≡ Ok 0) × (graph.new ≡ graph.old) }
    ensures after { GraphAfter S.history S.fault_count is_source_fault graph.old graph.new result }
{
    let marks = Flags::default();
    match spec {
        Spec::Include(id) => count_beyond(alloc, &[], &[id], marks, graph),
        Spec::Exclude(_) => Ok(0),
        Spec::Range { from, to } => count_beyond(alloc, &[from], &[to], marks, graph),
        Spec::Merge { theirs, ours } => count_of_just_one(alloc, theirs, ours, graph),
        Spec::IncludeOnlyParents(id) => count_of_parents(alloc, id, graph),
        Spec::ExcludeParents(id) => count_of_one(alloc, id, graph),
    }
}
