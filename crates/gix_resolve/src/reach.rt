//! Lists and counts what some commits reach and others do not (git-rev-list, "Description").
//!
//! One walk from both sides stops early if generation numbers are known.

ghost use Rattle.std.specs.Prelude.{◌≡◌, ◌∷◌, ◌++◌, [], IfOk, IsTrue, true};
ghost use Rattle.gix_base.specs.declared.hash.ObjectId.{ObjectId};
ghost use Rattle.gix_revwalk.specs.Faults.{count_after, is_source_fault};
ghost use Rattle.gix_revwalk.specs.Graph.{KeepsHeld};
ghost use Rattle.gix_revwalk.specs.GraphAfter.{GraphAfter};
ghost use Rattle.gix_revwalk.specs.History.{IsAncestor, IsAncestorOfOne, is_one_of, IsBeyond};
ghost use Rattle.gix_revwalk.specs.Sizes.{HasSize, AtLeast, AtMost, Lists};
ghost use Rattle.gix_revwalk.specs.Walks.{HoldsMore};
ghost use Rattle.gix_merge_base.specs.Keys.{IsInOrder};
ghost use Rattle.gix_merge_base.specs.Premises.{GenerationsNeverRiseFrom};
ghost use Rattle.gix_spec.specs.declared.spec.Spec.TheVariants.{Range};
ghost use Rattle.gix_resolve.specs.ListErrors.{is_list_source_fault};
ghost use Rattle.gix_resolve.specs.ListMeaning.{IsMeant};
ghost use Rattle.gix_resolve.specs.Reachable.{ListsBeyond, CoversBeyond};
ghost use Rattle.gix_resolve.specs.ReachSides.{CountsSides};
ghost use Rattle.gix_resolve.specs.Taken.{TakesOnly};

mod count;
mod front;
mod hand;
mod newest;
mod shown;
mod sides;
mod walk;

use crate::list::ListError;
pub(crate) use crate::reach::count::counted;
use crate::reach::count::listed;
use crate::reach::newest::newest_listed;
pub(crate) use crate::reach::shown::{eithers, firsts};
use gix_revision::graph::{self, Commit, Find, Graph};
use gix_revision::hash::ObjectId;
use gix_revision::merge_base::Flags;
use gix_revwalk::numbers;
use std::alloc::Allocator;

/// Lists the commits that `include` reaches and `exclude` does not, in rising order of their ids.
///
/// See git-rev-list, "Description". A commit is listed if at least one id of `include` reaches it
/// and no id of `exclude` does. Each is listed once. A commit reaches itself. An id that the source
/// does not have reaches nothing.
///
/// # Premises
///
/// [Ordered generations](gix_revision#premises), for what `include` and `exclude` reach. Without
/// the premise the list still has every such commit, and only commits that `include` reaches.
///
/// # Graph
///
/// Held commits stay held, also on an error; their data may change. A newly held commit is
/// reachable from one of the ids.
///
/// # Errors
///
/// - [`ListError::Source`]: the source failed.
/// - [`ListError::OutOfMemory`]: an allocation failed.
///
/// The graph can be used again after either.
///
/// # Cost
///
/// The walk goes no further than generation numbers ask for.
pub fn reachable<S: Find, A: Allocator + Copy>(
    alloc: A,
    include: &[ObjectId],
    exclude: &[ObjectId],
    graph: &mut Graph<S, Commit<Flags, A>, A>,
) -> Result<Vec<ObjectId, A>, ListError>
    // Premise: ordered generations. The answer has exactly the commits that an id of `include`
    // reaches and no id of `exclude` reaches, each once, by rising id.
    ensures reached { GenerationsNeverRiseFrom (S.history graph.old.source) (include.now ++ exclude.now)
        → IfOk result
        (λ ids. ListsBeyond (S.history graph.old.source) exclude.now include.now ids.items) }

    // For any generation numbers, the answer has every commit that an id of `include` reaches and
    // no id of `exclude` reaches. The answer has only commits that an id of `include` reaches, each
    // once, by rising id.
    ensures covers { IfOk result
        (λ ids. CoversBeyond (S.history graph.old.source) exclude.now include.now ids.items) }

    // The history of the source is unchanged, also after an error.
    ensures history { S.history graph.new.source ≡ S.history graph.old.source }

    // The fault count is one more exactly if the call returns `ListError::Source`. At `u64::MAX`
    // the count stays.
    ensures count { S.fault_count graph.new.source
        ≡ count_after (is_list_source_fault result) (S.fault_count graph.old.source) }

    // The graph keeps every commit that it holds, also after an error.
    ensures held { KeepsHeld graph.old graph.new }

    // Also after an error each newly held commit is reachable from an id of `include` or `exclude`.
    ensures taken { TakesOnly (IsAncestorOfOne (S.history graph.old.source)
        (include.now ++ exclude.now)) graph.old graph.new }
{
    let mut ids = listed(alloc, include, exclude, graph)?;
    ids.sort_unstable();
    Ok(ids)
}

/// Lists the commits that `include` reaches and `exclude` does not, newest first, each once.
///
/// The set is that of [`reachable`]. The order is that of [`newest_first`](crate::newest_first).
///
/// # Premises
///
/// [Ordered generations](gix_revision#premises), for what `include` and `exclude` reach. Without
/// the premise the list still has every such commit, and only commits that `include` reaches.
///
/// # Graph
///
/// Held commits stay held, also on an error; their data may change. A newly held commit is
/// reachable from one of the ids.
///
/// # Errors
///
/// - [`ListError::Source`]: the source failed.
/// - [`ListError::OutOfMemory`]: an allocation failed.
///
/// The graph can be used again after either.
///
/// # Cost
///
/// The walk is that of [`reachable`]. The sort uses the numbers of the walk, and looks up no id.
pub fn reachable_newest_first<S: Find, A: Allocator + Copy>(
    alloc: A,
    include: &[ObjectId],
    exclude: &[ObjectId],
    graph: &mut Graph<S, Commit<Flags, A>, A>,
) -> Result<Vec<ObjectId, A>, ListError>
    // Premise: ordered generations. The answer has exactly the commits that an id of `include`
    // reaches and no id of `exclude` reaches, each once.
    ensures reached { GenerationsNeverRiseFrom (S.history graph.old.source) (include.now ++ exclude.now)
        → IfOk result (λ ids. Lists ids.items
        (IsBeyond (S.history graph.old.source) exclude.now include.now)) }

    // For any generation numbers, the answer has every commit that an id of `include` reaches and
    // no id of `exclude` reaches.
    ensures every { IfOk result (λ ids. (c : ObjectId)
        → IsBeyond (S.history graph.old.source) exclude.now include.now c
        → IsTrue (is_one_of ids.items c)) }

    // The answer has only commits that an id of `include` reaches.
    ensures shown { IfOk result (λ ids. (c : ObjectId) → IsTrue (is_one_of ids.items c)
        → IsAncestorOfOne (S.history graph.old.source) include.now c) }

    // The ids are in order, each once: by falling generation number, then falling commit date, then
    // rising id. A missing generation number counts as infinity.
    ensures order { IfOk result (λ ids. IsInOrder (S.history graph.old.source) ids.items) }

    // The history of the source is unchanged, also after an error.
    ensures history { S.history graph.new.source ≡ S.history graph.old.source }

    // The fault count is one more exactly if the call returns `ListError::Source`. At `u64::MAX`
    // the count stays.
    ensures count { S.fault_count graph.new.source
        ≡ count_after (is_list_source_fault result) (S.fault_count graph.old.source) }

    // The graph keeps every commit that it holds, also after an error.
    ensures held { KeepsHeld graph.old graph.new }

    // Also after an error each newly held commit is reachable from an id of `include` or `exclude`.
    ensures taken { TakesOnly (IsAncestorOfOne (S.history graph.old.source)
        (include.now ++ exclude.now)) graph.old graph.new }
{
    let ids = newest_listed(alloc, include, exclude, graph)?;
    Ok(ids)
}

/// Counts the commits that `include` reaches and `exclude` does not (git-rev-list, "--count").
///
/// A commit reaches itself. An id that the source does not have reaches nothing.
///
/// # Premises
///
/// [Ordered generations](gix_revision#premises), for what `include` and `exclude` reach. Without
/// the premise the count is still no less than this number, and no more than the number of commits
/// that `include` reaches.
///
/// # Graph
///
/// Held commits stay held, also on an error; their data may change. A newly held commit is
/// reachable from one of the ids.
///
/// # Errors
///
/// - [`ListError::Source`]: the source failed.
/// - [`ListError::OutOfMemory`]: an allocation failed.
///
/// The graph can be used again after either.
///
/// # Cost
///
/// The walk is that of [`reachable`]. No id is listed or sorted.
pub fn count_reachable<S: Find, A: Allocator + Copy>(
    alloc: A,
    include: &[ObjectId],
    exclude: &[ObjectId],
    graph: &mut Graph<S, Commit<Flags, A>, A>,
) -> Result<usize, ListError>
    // Premise: ordered generations. The answer is how many commits an id of `include` reaches and
    // no id of `exclude` reaches.
    ensures size { GenerationsNeverRiseFrom (S.history graph.old.source) (include.now ++ exclude.now)
        → IfOk result
        (λ n. HasSize (IsBeyond (S.history graph.old.source) exclude.now include.now) n) }

    // For any generation numbers, the answer is at least the number of commits that an id of
    // `include` reaches and no id of `exclude` reaches.
    ensures no_less { IfOk result
        (λ n. AtMost n (IsBeyond (S.history graph.old.source) exclude.now include.now)) }

    // The answer is at most the number of commits that the ids of `include` reach.
    ensures no_more { IfOk result
        (λ n. AtLeast n (IsAncestorOfOne (S.history graph.old.source) include.now)) }

    // The history of the source is unchanged, also after an error.
    ensures history { S.history graph.new.source ≡ S.history graph.old.source }

    // The fault count is one more exactly if the call returns `ListError::Source`. At `u64::MAX`
    // the count stays.
    ensures count { S.fault_count graph.new.source
        ≡ count_after (is_list_source_fault result) (S.fault_count graph.old.source) }

    // The graph keeps every commit that it holds, also after an error.
    ensures held { KeepsHeld graph.old graph.new }

    // Also after an error each newly held commit is reachable from an id of `include` or `exclude`.
    ensures taken { TakesOnly (IsAncestorOfOne (S.history graph.old.source)
        (include.now ++ exclude.now)) graph.old graph.new }
{
    let counts = counted(alloc, include, exclude, false, graph)?;
    Ok(counts.0)
}

/// Returns the time of a commit, and loads the commit if the graph does not hold it.
///
/// The answer is `i64::MIN` if the source does not have the commit.
fn time_of<S: Find, A: Allocator + Copy>(
    alloc: A,
    id: ObjectId,
    graph: &mut Graph<S, Commit<Flags, A>, A>,
) -> Result<i64, graph::Error>
    ensures taken { HoldsMore (S.history graph.old.source) (id ∷ []) graph.old graph.new }
    ensures after { GraphAfter S.history S.fault_count is_source_fault graph.old graph.new result }
{
    let Some(number) = numbers::take(graph, alloc, id, Flags::default())? else {
        return Ok(i64::MIN);
    };
    Ok(numbers::value(graph, number).commit_time())
}

/// Tests whether the first of two commits is newer than the second.
fn is_newer<S: Find, A: Allocator + Copy>(
    alloc: A,
    first: ObjectId,
    second: ObjectId,
    graph: &mut Graph<S, Commit<Flags, A>, A>,
) -> Result<bool, graph::Error>
    ensures taken { TakesOnly (IsAncestorOfOne (S.history graph.old.source)
        (first ∷ second ∷ [])) graph.old graph.new }
    ensures after { GraphAfter S.history S.fault_count is_source_fault graph.old graph.new result }
{
    let time = time_of(alloc, first, graph)?;
    Ok(time > time_of(alloc, second, graph)?)
}

/// Counts what only `first` reaches and what only `second` reaches, and follows `second` first.
///
/// If a generation number rises the counts may be greater.
fn counted_two<S: Find, A: Allocator + Copy>(
    alloc: A,
    first: ObjectId,
    second: ObjectId,
    graph: &mut Graph<S, Commit<Flags, A>, A>,
) -> Result<(usize, usize), graph::Error>
    ensures counts { IfOk result (λ r.
        CountsSides (S.history graph.old.source) (first ∷ []) (second ∷ []) true r.0 r.1) }
    ensures taken { TakesOnly (IsAncestorOfOne (S.history graph.old.source)
        (first ∷ second ∷ [])) graph.old graph.new }
    ensures after { GraphAfter S.history S.fault_count is_source_fault graph.old graph.new result }
{
    counted(alloc, &[first], &[second], true, graph)
}

/// Counts what only `first` reaches and what only `second` reaches, and follows `first` first.
///
/// If a generation number rises the counts may be greater.
fn counted_turned<S: Find, A: Allocator + Copy>(
    alloc: A,
    first: ObjectId,
    second: ObjectId,
    graph: &mut Graph<S, Commit<Flags, A>, A>,
) -> Result<(usize, usize), graph::Error>
    ensures counts { IfOk result (λ r.
        CountsSides (S.history graph.old.source) (first ∷ []) (second ∷ []) true r.0 r.1) }
    ensures taken { TakesOnly (IsAncestorOfOne (S.history graph.old.source)
        (first ∷ second ∷ [])) graph.old graph.new }
    ensures after { GraphAfter S.history S.fault_count is_source_fault graph.old graph.new result }
{
    let (seconds, firsts) = counted_two(alloc, second, first, graph)?;
    Ok((firsts, seconds))
}

/// Counts what only `ours` reaches and what only `theirs` reaches.
///
/// If a generation number rises the counts may be greater.
fn counted_both<S: Find, A: Allocator + Copy>(
    alloc: A,
    ours: ObjectId,
    theirs: ObjectId,
    graph: &mut Graph<S, Commit<Flags, A>, A>,
) -> Result<(usize, usize), graph::Error>
    ensures counts { IfOk result (λ r.
        CountsSides (S.history graph.old.source) (ours ∷ []) (theirs ∷ []) true r.0 r.1) }
    ensures taken { TakesOnly (IsAncestorOfOne (S.history graph.old.source)
        (ours ∷ theirs ∷ [])) graph.old graph.new }
    ensures after { GraphAfter S.history S.fault_count is_source_fault graph.old graph.new result }
{
    // Without generation numbers, the side that is followed first (the second one) should reach the
    // other side, and so be the newer one. Otherwise the walk visits twice what both sides reach.
    if is_newer(alloc, ours, theirs, graph)? {
        counted_turned(alloc, ours, theirs, graph)
    } else {
        counted_two(alloc, ours, theirs, graph)
    }
}

/// Counts the commits that only `ours` reaches and those that only `theirs` reaches.
///
/// This is `git rev-list --left-right --count` of `ours...theirs`: how many commits `ours` is
/// ahead, and how many it is behind. A commit reaches itself. An id that the source does not have
/// reaches nothing.
///
/// # Premises
///
/// [Ordered generations](gix_revision#premises), for what `ours` and `theirs` reach. Without the
/// premise each count is still no less than this number, and no more than the number of commits
/// that its side reaches.
///
/// # Graph
///
/// Held commits stay held, also on an error; their data may change. A newly held commit is
/// reachable from one of the two.
///
/// # Errors
///
/// - [`ListError::Source`]: the source failed.
/// - [`ListError::OutOfMemory`]: an allocation failed.
///
/// The graph can be used again after either.
///
/// # Cost
///
/// One walk counts both sides, and goes no further than generation numbers ask for. No id is listed
/// or sorted.
pub fn ahead_behind<S: Find, A: Allocator + Copy>(
    alloc: A,
    ours: ObjectId,
    theirs: ObjectId,
    graph: &mut Graph<S, Commit<Flags, A>, A>,
) -> Result<(usize, usize), ListError>
    // Premise: ordered generations. The first number is how many commits `theirs..ours` means.
    ensures ahead { GenerationsNeverRiseFrom (S.history graph.old.source) (ours ∷ theirs ∷ [])
        → IfOk result
        (λ r. HasSize (IsMeant (S.history graph.old.source) (Range theirs ours)) r.0) }

    // Premise: ordered generations. The second number is how many commits `ours..theirs` means.
    ensures behind { GenerationsNeverRiseFrom (S.history graph.old.source) (ours ∷ theirs ∷ [])
        → IfOk result
        (λ r. HasSize (IsMeant (S.history graph.old.source) (Range ours theirs)) r.1) }

    // For any generation numbers, the first number is at least the number of commits that
    // `theirs..ours` means.
    ensures no_less_ahead { IfOk result
        (λ r. AtMost r.0 (IsMeant (S.history graph.old.source) (Range theirs ours))) }

    // For any generation numbers, the second number is at least the number of commits that
    // `ours..theirs` means.
    ensures no_less_behind { IfOk result
        (λ r. AtMost r.1 (IsMeant (S.history graph.old.source) (Range ours theirs))) }

    // The first number is at most the number of commits that `ours` reaches.
    ensures no_more_ahead { IfOk result
        (λ r. AtLeast r.0 (IsAncestor (S.history graph.old.source) ours)) }

    // The second number is at most the number of commits that `theirs` reaches.
    ensures no_more_behind { IfOk result
        (λ r. AtLeast r.1 (IsAncestor (S.history graph.old.source) theirs)) }

    // The history of the source is unchanged, also after an error.
    ensures history { S.history graph.new.source ≡ S.history graph.old.source }

    // The fault count is one more exactly if the call returns `ListError::Source`. At `u64::MAX`
    // the count stays.
    ensures count { S.fault_count graph.new.source
        ≡ count_after (is_list_source_fault result) (S.fault_count graph.old.source) }

    // The graph keeps every commit that it holds, also after an error.
    ensures held { KeepsHeld graph.old graph.new }

    // Also after an error each newly held commit is reachable from `ours` or `theirs`.
    ensures taken { TakesOnly (IsAncestorOfOne (S.history graph.old.source)
        (ours ∷ theirs ∷ [])) graph.old graph.new }
{
    let counts = counted_both(alloc, ours, theirs, graph)?;
    Ok(counts)
}
