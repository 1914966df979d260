//! Finds the commits in a spec, with a walk that may stop early.
//!
//! If the source reports that generation numbers never rise, `a..b` and `a...b` are walked from
//! both sides ([`crate::reach`]), no further than generation numbers ask for. Every other spec or
//! source gets the plain walk ([`crate::list::members`]).
//!
//! # Which walk
//!
//! `commits_early`, `commits_newest_first` and `count_commits` take the two-sided walk for `a..b`
//! and `a...b` if the source reports `NeverRise` (`Find::generations`, `list/early.rt`), and else
//! the plain one. `commits_newest_first` and `reachable_newest_first` sort by keys that they read
//! by the walk's numbers (`list/newest.rt`). No id is looked up, and a stable sort uses the runs
//! that walks produce. `newest_first` makes no walk: it looks up each id once, sorts, and drops
//! repeated ids.

ghost use Rattle.std.specs.Prelude.{◌≡◌, IfOk, IsOkAnd, IsTrue, Ok, []};
ghost use Rattle.gix_revwalk.specs.Faults.{is_source_fault};
ghost use Rattle.gix_revwalk.specs.GraphAfter.{GraphAfter};
ghost use Rattle.gix_revwalk.specs.History.{GenerationsNeverRise};
ghost use Rattle.gix_revwalk.specs.Sizes.{HasSize, Lists};
ghost use Rattle.gix_spec.specs.declared.spec.Spec.TheVariants.{Range, Merge};
ghost use Rattle.gix_resolve.specs.ListMeaning.{IsMeant};
ghost use Rattle.gix_resolve.specs.ListWalk.{AreJust};
ghost use Rattle.gix_resolve.specs.Taken.{TakesOnly, IsLookedAt, is_exclude};

use crate::list::count::{count_members, sum};
use crate::list::members::members;
use crate::list::walk::ids_of;
use crate::reach::{counted, eithers, firsts};
use gix_revision::graph::{self, Commit, Find, Generations, Graph};
use gix_revision::hash::ObjectId;
use gix_revision::merge_base::Flags;
use gix_revision::spec::Spec;
use gix_revwalk::numbers::Number;
use std::alloc::Allocator;

/// Tests whether the source reports that generation numbers never rise.
fn never_rise<S: Find, A: Allocator>(graph: &Graph<S, Commit<Flags, A>, A>) -> bool
    ensures { IsTrue result → GenerationsNeverRise (S.history graph.now.source) }
{
    matches!(graph.source().generations(), Generations::NeverRise)
}

/// Returns the numbers of the commits in `spec`, each once, in no particular order.
fn known_members<S: Find, A: Allocator + Copy>(
    alloc: A,
    spec: Spec,
    graph: &mut Graph<S, Commit<Flags, A>, A>,
) -> Result<Vec<Number, A>, graph::Error>
    requires { GenerationsNeverRise (S.history graph.old.source) }
    ensures meant { IfOk result (λ numbers. AreJust graph.new numbers.items
        (IsMeant (S.history graph.old.source) spec)) }
    ensures taken { TakesOnly (IsLookedAt (S.history graph.old.source) spec)
        graph.old graph.new }
    ensures exclude { IsTrue (is_exclude spec)
        → IsOkAnd result (λ numbers. numbers.items ≡ []) × (graph.new ≡ graph.old) }
    ensures after { GraphAfter S.history S.fault_count is_source_fault graph.old graph.new result }
{
    match spec {
        Spec::Range { from, to } => firsts(alloc, &[to], &[from], graph),
        Spec::Merge { theirs, ours } => eithers(alloc, &[theirs], &[ours], graph),
        _ => members(alloc, spec, graph),
    }
}

/// Returns the numbers of the commits in `spec`, each once, in no particular order, for any source.
///
/// The early-ending walk is used only if `early` is set.
pub(crate) fn members_by<S: Find, A: Allocator + Copy>(
    alloc: A,
    spec: Spec,
    early: bool,
    graph: &mut Graph<S, Commit<Flags, A>, A>,
) -> Result<Vec<Number, A>, graph::Error>
    ensures meant { IfOk result (λ numbers. AreJust graph.new numbers.items
        (IsMeant (S.history graph.old.source) spec)) }
    ensures taken { TakesOnly (IsLookedAt (S.history graph.old.source) spec)
        graph.old graph.new }
    ensures exclude { IsTrue (is_exclude spec)
        → IsOkAnd result (λ numbers. numbers.items ≡ []) × (graph.new ≡ graph.old) }
    ensures after { GraphAfter S.history S.fault_count is_source_fault graph.old graph.new result }
{
    if early && never_rise(graph) {
        return known_members(alloc, spec, graph);
    }
    members(alloc, spec, graph)
}

/// Returns the ids of the commits in `spec`, each once, in no particular order, for any source.
pub(crate) fn ids_by<S: Find, A: Allocator + Copy>(
    alloc: A,
    spec: Spec,
    early: bool,
    graph: &mut Graph<S, Commit<Flags, A>, A>,
) -> Result<Vec<ObjectId, A>, graph::Error>
    ensures meant { IfOk result (λ ids. Lists ids.items
        (IsMeant (S.history graph.old.source) spec)) }
    ensures taken { TakesOnly (IsLookedAt (S.history graph.old.source) spec)
        graph.old graph.new }
    ensures exclude { IsTrue (is_exclude spec)
        → IsOkAnd result (λ ids. ids.items ≡ []) × (graph.new ≡ graph.old) }
    ensures after { GraphAfter S.history S.fault_count is_source_fault graph.old graph.new result }
{
    let numbers = members_by(alloc, spec, early, graph)?;
    // An empty list needs no memory: `^a` always succeeds.
    if numbers.is_empty() {
        return Ok(Vec::new(alloc));
    }
    Ok(ids_of(alloc, &numbers, graph)?)
}

/// Counts the commits that `to` reaches and `from` does not.
fn known_between<S: Find, A: Allocator + Copy>(
    alloc: A,
    from: ObjectId,
    to: ObjectId,
    graph: &mut Graph<S, Commit<Flags, A>, A>,
) -> Result<usize, graph::Error>
    requires { GenerationsNeverRise (S.history graph.old.source) }
    ensures size { IfOk result
        (HasSize (IsMeant (S.history graph.old.source) (Range from to))) }
    ensures taken { TakesOnly (IsLookedAt (S.history graph.old.source) (Range from to))
        graph.old graph.new }
    ensures after { GraphAfter S.history S.fault_count is_source_fault graph.old graph.new result }
{
    let counts = counted(alloc, &[to], &[from], false, graph)?;
    Ok(counts.0)
}

/// Counts the ancestors of exactly one of the two commits.
fn known_of_just_one<S: Find, A: Allocator + Copy>(
    alloc: A,
    theirs: ObjectId,
    ours: ObjectId,
    graph: &mut Graph<S, Commit<Flags, A>, A>,
) -> Result<usize, graph::Error>
    requires { GenerationsNeverRise (S.history graph.old.source) }
    ensures size { IfOk result
        (HasSize (IsMeant (S.history graph.old.source) (Merge theirs ours))) }
    ensures taken { TakesOnly (IsLookedAt (S.history graph.old.source) (Merge theirs ours))
        graph.old graph.new }
    ensures after { GraphAfter S.history S.fault_count is_source_fault graph.old graph.new result }
{
    let (of_theirs, of_ours) = counted(alloc, &[theirs], &[ours], true, graph)?;
    sum(of_theirs, of_ours)
}

/// Counts the commits in `spec`, for a source with ordered generations.
fn known_count<S: Find, A: Allocator + Copy>(
    alloc: A,
    spec: Spec,
    graph: &mut Graph<S, Commit<Flags, A>, A>,
) -> Result<usize, graph::Error>
    requires { GenerationsNeverRise (S.history graph.old.source) }
    ensures size { IfOk result (HasSize (IsMeant (S.history graph.old.source) spec)) }
    ensures taken { TakesOnly (IsLookedAt (S.history graph.old.source) spec)
        graph.old graph.new }
    ensures exclude { IsTrue (is_exclude spec) → (result ≡ Ok 0) × (graph.new ≡ graph.old) }
    ensures after { GraphAfter S.history S.fault_count is_source_fault graph.old graph.new result }
{
    match spec {
        Spec::Range { from, to } => known_between(alloc, from, to, graph),
        Spec::Merge { theirs, ours } => known_of_just_one(alloc, theirs, ours, graph),
        _ => count_members(alloc, spec, graph),
    }
}

/// Counts the commits in `spec` for any source, with the early-ending walk if the source allows it.
pub(crate) fn early_count<S: Find, A: Allocator + Copy>(
    alloc: A,
    spec: Spec,
    graph: &mut Graph<S, Commit<Flags, A>, A>,
) -> Result<usize, graph::Error>
    ensures size { IfOk result (HasSize (IsMeant (S.history graph.old.source) spec)) }
    ensures taken { TakesOnly (IsLookedAt (S.history graph.old.source) spec)
        graph.old graph.new }
    ensures exclude { IsTrue (is_exclude spec) → (result ≡ Ok 0) × (graph.new ≡ graph.old) }
    ensures after { GraphAfter S.history S.fault_count is_source_fault graph.old graph.new result }
{
    if never_rise(graph) {
        return known_count(alloc, spec, graph);
    }
    count_members(alloc, spec, graph)
}
