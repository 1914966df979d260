//! Lists commits by falling generation number, then falling time, then rising id.

ghost use Rattle.std.specs.Prelude.{◌≡◌, ◌<◌, ◌↔◌, [], ◌∷◌, IfOk, IsOkAnd, OnOk, IsTrue, map};
ghost use Rattle.std.specs.List.{filter_map};
ghost use Rattle.std.specs.List.Sorted.{IsPermutation, IsSorted};
ghost use Rattle.gix_base.specs.declared.hash.ObjectId.{ObjectId};
ghost use Rattle.gix_revwalk.specs.Faults.{count_after, is_source_fault};
ghost use Rattle.gix_revwalk.specs.Graph.{KeepsHeld, held_len};
ghost use Rattle.gix_revwalk.specs.GraphAfter.{GraphAfter};
ghost use Rattle.gix_revwalk.specs.History.{Has, is_one_of};
ghost use Rattle.gix_revwalk.specs.Number.{place_in};
ghost use Rattle.gix_revwalk.specs.Sizes.{Lists};
ghost use Rattle.gix_revwalk.specs.Walks.{HoldsMore};
ghost use Rattle.gix_merge_base.specs.Candidates.{turned_at, id_in};
ghost use Rattle.gix_merge_base.specs.GenThenTime.{key_of};
ghost use Rattle.gix_merge_base.specs.Keys.{IsInOrder, choice};
ghost use Rattle.gix_merge_base.specs.PaintQueue.{id_at, ids_at, AreIn};
ghost use Rattle.gix_resolve.specs.ListErrors.{is_list_source_fault};
ghost use Rattle.gix_resolve.specs.ListMeaning.{IsMeant};
ghost use Rattle.gix_resolve.specs.Newest.{turned_for};
ghost use Rattle.gix_resolve.specs.Taken.{TakesOnly, IsLookedAt, is_exclude};

use crate::list::ListError;
use crate::list::early::members_by;
use gix_revision::graph::{self, Commit, Find, Graph};
use gix_revision::hash::ObjectId;
use gix_revision::merge_base::{Flags, GenThenTime};
use gix_revision::spec::Spec;
use gix_revwalk::numbers::{self, Number};
use std::alloc::{AllocError, Allocator};
use std::cmp::Reverse;

/// The sort key of a commit: generation number, time and id.
///
/// The key is reversed, so that the least key comes first in the list.
type Turned = Reverse<(GenThenTime, Reverse<ObjectId>)>;

/// Returns the sort key of a commit.
#[inline(always)]
fn turned_by<A: Allocator>(commit: &Commit<Flags, A>, id: ObjectId) -> Turned
    ensures { result ≡ record { 0 = (key_of commit.now, record { 0 = id }) } }
{
    Reverse((GenThenTime::from(commit), Reverse(id)))
}

/// Returns the sort key of a commit, and loads the commit if the graph does not hold it.
///
/// The answer is `None` if the source does not have the commit. A held commit takes one look-up.
fn turned<S: Find, A: Allocator + Copy>(
    alloc: A,
    id: ObjectId,
    graph: &mut Graph<S, Commit<Flags, A>, A>,
) -> Result<Option<Turned>, graph::Error>
    ensures turned { IfOk result (λ t. t ≡ turned_at (S.history graph.old.source) id) }
    ensures taken { HoldsMore (S.history graph.old.source) (id ∷ []) graph.old graph.new }
    ensures after { GraphAfter S.history S.fault_count is_source_fault graph.old graph.new result }
{
    if let Some(commit) = graph.get(&id) {
        return Ok(Some(turned_by(commit, id)));
    }
    let Some(number) = numbers::take(graph, alloc, id, Flags::default())? else {
        return Ok(None);
    };
    Ok(Some(turned_by(numbers::value(graph, number), id)))
}

/// Returns the sort keys of those `ids` that the source has, and loads what the graph does not
/// hold.
fn turned_all<S: Find, A: Allocator + Copy>(
    alloc: A,
    ids: &[ObjectId],
    graph: &mut Graph<S, Commit<Flags, A>, A>,
) -> Result<Vec<Turned, A>, graph::Error>
    ensures turned { IfOk result (λ all. all.items
        ≡ filter_map (turned_at (S.history graph.old.source)) ids.now) }
    ensures taken { HoldsMore (S.history graph.old.source) ids.now graph.old graph.new }
    ensures after { GraphAfter S.history S.fault_count is_source_fault graph.old graph.new result }
{
    let mut all = Vec::with_capacity(alloc, ids.len())?;
    for id in ids {
        let Some(place) = turned(alloc, *id, graph)? else {
            continue;
        };
        all.push_reserved(place);
    }
    Ok(all)
}

/// Returns the ids in the sort keys, in the same order.
fn ids_of<A: Allocator + Copy>(alloc: A, all: &[Turned]) -> Result<Vec<ObjectId, A>, AllocError>
    ensures { IfOk result (λ ids. ids.items ≡ map id_in all.now) }
{
    let mut ids = Vec::with_capacity(alloc, all.len())?;
    for Reverse((_, Reverse(id))) in all {
        ids.push_reserved(*id);
    }
    Ok(ids)
}

/// Returns the sort key of the commit with the given number.
#[inline(always)]
fn turned_with<S: Find, A: Allocator + Copy>(
    graph: &Graph<S, Commit<Flags, A>, A>,
    number: Number,
) -> Turned
    requires { place_in number < held_len graph.now }
    ensures { result ≡ turned_for (S.history graph.now.source) (id_at graph.now (place_in number)) }
{
    turned_by(numbers::value(graph, number), numbers::id_of(graph, number))
}

/// Returns the sort keys of the commits with the given numbers.
fn turned_of<S: Find, A: Allocator + Copy>(
    alloc: A,
    numbers: &[Number],
    graph: &Graph<S, Commit<Flags, A>, A>,
) -> Result<Vec<Turned, A>, AllocError>
    requires { AreIn graph.now numbers.now }
    ensures { IfOk result (λ all. all.items
        ≡ map (turned_for (S.history graph.now.source)) (ids_at graph.now numbers.now)) }
{
    let mut all = Vec::with_capacity(alloc, numbers.len())?;
    for number in numbers {
        all.push_reserved(turned_with(graph, *number));
    }
    Ok(all)
}

/// Returns the ids of the commits with the given numbers, newest first. No id is looked up.
///
/// A walk meets commits nearly in this order, and a stable sort uses the runs that are in order.
pub(crate) fn newest_of<S: Find, A: Allocator + Copy>(
    alloc: A,
    numbers: &[Number],
    graph: &Graph<S, Commit<Flags, A>, A>,
) -> Result<Vec<ObjectId, A>, AllocError>
    requires { AreIn graph.now numbers.now }
    ensures order { IfOk result (λ ids. IsSorted (choice (S.history graph.now.source)) ids.items) }
    ensures same { IfOk result (λ ids. IsPermutation (ids_at graph.now numbers.now) ids.items) }
{
    let mut all = turned_of(alloc, numbers, graph)?;
    all.sort()?;
    ids_of(alloc, &all)
}

/// Lists the commits in `spec`, newest first.
fn newest_members<S: Find, A: Allocator + Copy>(
    alloc: A,
    spec: Spec,
    graph: &mut Graph<S, Commit<Flags, A>, A>,
) -> Result<Vec<ObjectId, A>, graph::Error>
    ensures meant { IfOk result (λ ids. Lists ids.items
        (IsMeant (S.history graph.old.source) spec)) }
    ensures order { IfOk result (λ ids. IsInOrder (S.history graph.old.source) ids.items) }
    ensures taken { TakesOnly (IsLookedAt (S.history graph.old.source) spec)
        graph.old graph.new }
    ensures exclude { IsTrue (is_exclude spec)
        → IsOkAnd result (λ ids. ids.items ≡ []) × (graph.new ≡ graph.old) }
    ensures after { GraphAfter S.history S.fault_count is_source_fault graph.old graph.new result }
{
    let numbers = members_by(alloc, spec, true, graph)?;
    // An empty list needs no memory: `^a` always succeeds.
    if numbers.is_empty() {
        return Ok(Vec::new(alloc));
    }
    Ok(newest_of(alloc, &numbers, graph)?)
}

/// Lists the commits in `spec`, each once, in the order of [`newest_first`].
///
/// The set is that of [`commits`](crate::commits). `^a` alone means no commit: the call then
/// succeeds with an empty list, and the graph is unchanged.
///
/// # Graph
///
/// Held commits stay held, also on an error; their data may change. A newly held commit is
/// reachable from the ids of `spec`.
///
/// # Errors
///
/// - [`ListError::Source`]: the source failed.
/// - [`ListError::OutOfMemory`]: an allocation failed.
///
/// The graph can be used again after either.
///
/// # Cost
///
/// The walk is that of [`commits_early`](crate::commits_early). The sort uses the numbers of the
/// walk, and looks up no id.
pub fn commits_newest_first<S: Find, A: Allocator + Copy>(
    alloc: A,
    spec: &Spec,
    graph: &mut Graph<S, Commit<Flags, A>, A>,
) -> Result<Vec<ObjectId, A>, ListError>
    // The answer has exactly the commits that the spec means, each once.
    ensures meant { IfOk result
        (λ ids. Lists ids.items (IsMeant (S.history graph.old.source) spec.now)) }

    // The ids are in order, each once: by falling generation number, then falling commit date, then
    // rising id. A missing generation number counts as infinity.
    ensures order { IfOk result (λ ids. IsInOrder (S.history graph.old.source) ids.items) }

    // The history of the source is unchanged, also after an error.
    ensures history { S.history graph.new.source ≡ S.history graph.old.source }

    // The fault count is one more exactly if the call returns `ListError::Source`. At `u64::MAX`
    // the count stays.
    ensures count { S.fault_count graph.new.source
        ≡ count_after (is_list_source_fault result) (S.fault_count graph.old.source) }

    // The graph keeps every commit that it holds, also after an error.
    ensures held { KeepsHeld graph.old graph.new }

    // Also after an error each newly held commit is reachable from an id of the spec. If the spec
    // is `a^!`, this commit is `a`. If the spec is `^a`, no commit is newly held.
    ensures taken { TakesOnly (IsLookedAt (S.history graph.old.source) spec.now)
        graph.old graph.new }

    // If the spec is `^a`, the call succeeds with an empty list, and the graph is unchanged.
    ensures exclude { IsTrue (is_exclude spec.now)
        → IsOkAnd result (λ ids. ids.items ≡ []) × (graph.new ≡ graph.old) }
{
    let found = newest_members(alloc, *spec, graph)?;
    Ok(found)
}

/// Sorts those `ids` that the source has, newest first, each once.
fn in_order<S: Find, A: Allocator + Copy>(
    alloc: A,
    ids: &[ObjectId],
    graph: &mut Graph<S, Commit<Flags, A>, A>,
) -> Result<Vec<ObjectId, A>, graph::Error>
    ensures order { IfOk result
        (λ found. IsInOrder (S.history graph.old.source) found.items) }
    ensures same { IfOk result (λ found. (c : ObjectId) → IsTrue (is_one_of found.items c)
        ↔ (IsTrue (is_one_of ids.now c) × Has (S.history graph.old.source) c)) }
    ensures taken { HoldsMore (S.history graph.old.source) ids.now graph.old graph.new }
    ensures after { GraphAfter S.history S.fault_count is_source_fault graph.old graph.new result }
{
    let mut all = turned_all(alloc, ids, graph)?;
    all.sort_unstable();
    let mut found = ids_of(alloc, &all)?;
    // An id that was passed twice stands next to itself.
    found.dedup();
    Ok(found)
}

/// Sorts those `ids` that the source has, each once, newest first.
///
/// The order is by falling generation number, then falling time, then rising id. A missing
/// generation number counts as infinity. A commit therefore comes before each of its parents that
/// has a smaller generation number. Ids that the source does not have are left out.
///
/// # Graph
///
/// Held commits stay held, also on an error; their data may change. A newly held commit is one of
/// `ids`.
///
/// # Errors
///
/// - [`ListError::Source`]: the source failed.
/// - [`ListError::OutOfMemory`]: an allocation failed.
///
/// The graph can be used again after either.
pub fn newest_first<S: Find, A: Allocator + Copy>(
    alloc: A,
    ids: &[ObjectId],
    graph: &mut Graph<S, Commit<Flags, A>, A>,
) -> Result<Vec<ObjectId, A>, ListError>
    // The ids are in order, each once: by falling generation number, then falling commit date, then
    // rising id. A missing generation number counts as infinity.
    ensures order { IfOk result
        (λ found. IsInOrder (S.history graph.old.source) found.items) }

    // The answer has exactly those of `ids` that the source has.
    ensures same { IfOk result (λ found. (c : ObjectId) → IsTrue (is_one_of found.items c)
        ↔ (IsTrue (is_one_of ids.now c) × Has (S.history graph.old.source) c)) }

    // The history of the source is unchanged, also after an error.
    ensures history { S.history graph.new.source ≡ S.history graph.old.source }

    // The fault count is one more exactly if the call returns `ListError::Source`. At `u64::MAX`
    // the count stays.
    ensures count { S.fault_count graph.new.source
        ≡ count_after (is_list_source_fault result) (S.fault_count graph.old.source) }

    // The graph keeps every commit that it holds, also after an error.
    ensures held { KeepsHeld graph.old graph.new }

    // Also after an error each newly held commit is one of `ids`, and the source has it.
    ensures taken { HoldsMore (S.history graph.old.source) ids.now graph.old graph.new }
{
    let found = in_order(alloc, ids, graph)?;
    Ok(found)
}
