//! Finds the numbers of the commits in a spec, in no particular order, with a plain walk.
//!
//! The walk visits all that the hidden side reaches, and then what the shown side reaches beyond
//! that, whatever the generation numbers are.

ghost use Rattle.std.specs.Prelude.{◌≡◌, IfOk, IsOkAnd, IsTrue, [], ◌∷◌};
ghost use Rattle.gix_revwalk.specs.Faults.{is_source_fault};
ghost use Rattle.gix_revwalk.specs.GraphAfter.{GraphAfter};
ghost use Rattle.gix_revwalk.specs.History.{entry_at, parents_in};
ghost use Rattle.gix_revwalk.specs.Walks.{HoldsMore};
ghost use Rattle.gix_spec.specs.declared.spec.Spec.TheVariants.{Merge};
ghost use Rattle.gix_spec.specs.declared.spec.Spec.TheVariants.{IncludeOnlyParents, ExcludeParents};
ghost use Rattle.gix_resolve.specs.ListMeaning.{IsMeant};
ghost use Rattle.gix_resolve.specs.ListWalk.{AreJust};
ghost use Rattle.gix_resolve.specs.Taken.{TakesOnly, IsLookedAt, is_exclude};

use crate::list::walk::ancestors_beyond;
use gix_revision::graph::{self, Commit, Find, Graph};
use gix_revision::hash::ObjectId;
use gix_revision::merge_base::Flags;
use gix_revision::spec::Spec;
use gix_revwalk::numbers::{self, Number};
use std::alloc::Allocator;

/// Returns the numbers of the ancestors of exactly one of the two commits, each once.
fn ancestors_of_just_one<S: Find, A: Allocator + Copy>(
    alloc: A,
    theirs: ObjectId,
    ours: ObjectId,
    graph: &mut Graph<S, Commit<Flags, A>, A>,
) -> Result<Vec<Number, A>, graph::Error>
    ensures meant { IfOk result (λ numbers. AreJust graph.new numbers.items
        (IsMeant (S.history graph.old.source) (Merge theirs ours))) }
    ensures taken { TakesOnly (IsLookedAt (S.history graph.old.source) (Merge theirs ours))
        graph.old graph.new }
    ensures after { GraphAfter S.history S.fault_count is_source_fault graph.old graph.new result }
{
    let marks = Flags::default();
    let mut numbers = ancestors_beyond(alloc, &[ours], &[theirs], marks, graph)?;
    let others = ancestors_beyond(alloc, &[theirs], &[ours], marks, graph)?;
    numbers.extend_from_slice(&others)?;
    Ok(numbers)
}

/// Returns the parents of a commit, also those that the source does not have.
///
/// The list is empty if the source does not have the commit.
pub(crate) fn parents_of<S: Find, A: Allocator + Copy>(
    alloc: A,
    id: ObjectId,
    graph: &mut Graph<S, Commit<Flags, A>, A>,
) -> Result<Vec<ObjectId, A>, graph::Error>
    ensures parents { IfOk result (λ parents. parents.items
        ≡ parents_in (entry_at (S.history graph.old.source) id)) }
    ensures taken { HoldsMore (S.history graph.old.source) (id ∷ []) graph.old graph.new }
    ensures after { GraphAfter S.history S.fault_count is_source_fault graph.old graph.new result }
{
    let Some(number) = numbers::take(graph, alloc, id, Flags::default())? else {
        return Ok(Vec::new(alloc));
    };
    Ok(numbers::value(graph, number).parents().to_vec(alloc)?)
}

/// Returns the numbers of the ancestors of the parents of a commit, each once.
fn ancestors_of_parents<S: Find, A: Allocator + Copy>(
    alloc: A,
    id: ObjectId,
    graph: &mut Graph<S, Commit<Flags, A>, A>,
) -> Result<Vec<Number, A>, graph::Error>
    ensures meant { IfOk result (λ numbers. AreJust graph.new numbers.items
        (IsMeant (S.history graph.old.source) (IncludeOnlyParents id))) }
    ensures taken { TakesOnly (IsLookedAt (S.history graph.old.source) (IncludeOnlyParents id))
        graph.old graph.new }
    ensures after { GraphAfter S.history S.fault_count is_source_fault graph.old graph.new result }
{
    let parents = parents_of(alloc, id, graph)?;
    ancestors_beyond(alloc, &[], &parents, Flags::default(), graph)
}

/// Returns the number of the commit itself if the source has it, otherwise an empty list.
fn alone<S: Find, A: Allocator + Copy>(
    alloc: A,
    id: ObjectId,
    graph: &mut Graph<S, Commit<Flags, A>, A>,
) -> Result<Vec<Number, A>, graph::Error>
    ensures meant { IfOk result (λ numbers. AreJust graph.new numbers.items
        (IsMeant (S.history graph.old.source) (ExcludeParents id))) }
    ensures taken { TakesOnly (IsLookedAt (S.history graph.old.source) (ExcludeParents id))
        graph.old graph.new }
    ensures after { GraphAfter S.history S.fault_count is_source_fault graph.old graph.new result }
{
    let Some(number) = numbers::take(graph, alloc, id, Flags::default())? else {
        return Ok(Vec::new(alloc));
    };
    let mut numbers = Vec::new(alloc);
    numbers.push(number)?;
    Ok(numbers)
}

/// Returns the numbers of the commits in `spec`, each once.
pub(crate) fn members<S: Find, A: Allocator + Copy>(
    alloc: A,
    spec: Spec,
    graph: &mut Graph<S, Commit<Flags, A>, A>,
) -> Result<Vec<Number, A>, graph::Error>
    ensures meant { IfOk result (λ numbers. AreJust graph.new numbers.items
        (IsMeant (S.history graph.old.source) spec)) }
    ensures taken { TakesOnly (IsLookedAt (S.history graph.old.source) spec)
        graph.old graph.new }
    ensures exclude { IsTrue (is_exclude spec)
        → IsOkAnd result (λ numbers. numbers.items ≡ []) × (graph.new ≡ graph.old) }
    ensures after { GraphAfter S.history S.fault_count is_source_fault graph.old graph.new result }
{
    let marks = Flags::default();
    match spec {
        Spec::Include(id) => ancestors_beyond(alloc, &[], &[id], marks, graph),
        Spec::Exclude(_) => Ok(Vec::new(alloc)),
        Spec::Range { from, to } => ancestors_beyond(alloc, &[from], &[to], marks, graph),
        Spec::Merge { theirs, ours } => ancestors_of_just_one(alloc, theirs, ours, graph),
        Spec::IncludeOnlyParents(id) => ancestors_of_parents(alloc, id, graph),
        Spec::ExcludeParents(id) => alone(alloc, id, graph),
    }
}
