//! Lists and counts what some commits reach and others do not.
//!
//! # Algorithm
//!
//! 1. Paint from both sides (`gix_merge_base`). The candidates are the commits that were popped
//!    with the mark of one side alone. They have each commit of the range. After a wrong clock the
//!    other side may reach some of them after all.
//! 2. Follow the first parents of the candidates until their lines have become one, and take the
//!    next parent (`below.rt`). Each candidate reaches this commit. So this commit reaches no
//!    candidate, unless there is a cycle.
//! 3. Paint from the other side and this commit, and list what only the other side reaches
//!    (`hidden.rt`). If the other side reaches a candidate, then the candidate is in this list.
//! 4. Keep the candidates that are not in the list.
//!
//! If a line ends at a root before, the list has all that the other side reaches (`whole.rt`).

ghost use Rattle.std.specs.Prelude.{◌≡◌, ◌∷◌, ◌++◌, [], List, IfOk, OnOk, IsTrue, length};
ghost use Rattle.gix_base.specs.declared.hash.ObjectId.{ObjectId};
ghost use Rattle.gix_revwalk.specs.History.{IsAncestorOfOne, IsBeyond, is_one_of};
ghost use Rattle.gix_revwalk.specs.Sizes.{HasSize, AtLeast, AtMost, Lists};
ghost use Rattle.gix_merge_base.specs.AfterCall.{AfterCall};
ghost use Rattle.gix_merge_base.specs.Premises.{IsAcyclicFrom};
ghost use Rattle.gix_range.specs.Ranges.{AreReached, Covers, Hides, Keeps};

use crate::found::find_candidates;
use crate::hidden::hidden_of;
use gix_base::hash::ObjectId;
use gix_merge_base::merge_base::{Error, Flags, paint_sides};
use gix_revwalk::graph::{Commit, Find, Graph};
use gix_revwalk::seen::Seen;
use std::alloc::{AllocError, Allocator};

/// Adds a candidate to those that are kept, unless it is hidden.
fn keep_one<S: Find, A: Allocator + Copy>(
    id: ObjectId,
    exclude: &[ObjectId],
    hidden: &Seen<A>,
    kept: &mut Seen<A>,
    graph: &Graph<S, Commit<Flags, A>, A>,
) -> Result<(), AllocError>
    requires reached { AreReached (S.history graph.now.source) exclude.now hidden.now }
    requires every { IsAcyclicFrom (S.history graph.now.source) exclude.now
        → IsAncestorOfOne (S.history graph.now.source) exclude.now id
        → IsTrue (is_one_of hidden.now id) }
    ensures { OnOk result ((xs : List ObjectId)
        → Keeps (S.history graph.now.source) xs exclude.now kept.old
        → Keeps (S.history graph.now.source) (xs ++ id ∷ []) exclude.now kept.new) }
{
    let _held = graph.len();
    if hidden.contains(id) {
        return Ok(());
    }
    kept.add(id)?;
    Ok(())
}

/// Keeps the candidates that are not hidden.
fn keep_all<S: Find, A: Allocator + Copy>(
    alloc: A,
    candidates: &[ObjectId],
    exclude: &[ObjectId],
    hidden: &Seen<A>,
    graph: &Graph<S, Commit<Flags, A>, A>,
) -> Result<Seen<A>, AllocError>
    requires { Hides (S.history graph.now.source) candidates.now exclude.now hidden.now }
    ensures { IfOk result (Keeps (S.history graph.now.source) candidates.now exclude.now) }
{
    let mut kept = Seen::new(alloc, graph.seed());
    for id in candidates {
        keep_one(*id, exclude, hidden, &mut kept, graph)?;
    }
    Ok(kept)
}

/// Keeps the candidates that `exclude` does not reach.
fn kept_of<S: Find, A: Allocator + Copy>(
    alloc: A,
    candidates: &[ObjectId],
    exclude: &[ObjectId],
    graph: &mut Graph<S, Commit<Flags, A>, A>,
) -> Result<Seen<A>, Error>
    ensures keeps { IfOk result (Keeps (S.history graph.old.source) candidates.now exclude.now) }
    ensures after { AfterCall S.history S.fault_count graph.old graph.new result }
{
    let hidden = hidden_of(alloc, candidates, exclude, graph)?;
    let kept = keep_all(alloc, candidates, exclude, &hidden, graph)?;
    Ok(kept)
}

/// Counts the candidates that `exclude` does not reach.
fn count_kept<S: Find, A: Allocator + Copy>(
    alloc: A,
    candidates: &[ObjectId],
    exclude: &[ObjectId],
    graph: &mut Graph<S, Commit<Flags, A>, A>,
) -> Result<usize, Error>
    ensures keeps { IfOk result (λ size. (kept : List ObjectId)
        × Keeps (S.history graph.old.source) candidates.now exclude.now kept
        × (length kept ≡ size)) }
    ensures after { AfterCall S.history S.fault_count graph.old graph.new result }
{
    let kept = kept_of(alloc, candidates, exclude, graph)?;
    Ok(kept.len())
}

/// Lists the commits that `include` reaches and `exclude` does not, each once.
///
/// If the clocks were right, a commit stands behind its parents. If `include` has more than one id,
/// the walk is shorter the newer the first id of `exclude` is.
///
/// # Premises
///
/// [Acyclic](gix_merge_base#premises), for what `exclude` reaches. Without it the list still has
/// every such commit, and only commits that `include` reaches.
///
/// # Graph
///
/// [The graph keeps every commit that it holds](gix_merge_base#graph), also on an error. Data may
/// change.
///
/// # Errors
///
/// - [`Error::Source`]: the source failed.
/// - [`Error::OutOfMemory`]: an allocation failed.
///
/// The graph can be used again after either.
pub fn beyond<S: Find, A: Allocator + Copy>(
    alloc: A,
    include: &[ObjectId],
    exclude: &[ObjectId],
    graph: &mut Graph<S, Commit<Flags, A>, A>,
) -> Result<Vec<ObjectId, A>, Error>
    // Premise: acyclic. The list has exactly the commits that an id of `include` reaches and no id
    // of `exclude` reaches, each once.
    ensures reached { IsAcyclicFrom (S.history graph.old.source) exclude.now
        → IfOk result (λ ids. Lists ids.items
        (IsBeyond (S.history graph.old.source) exclude.now include.now)) }

    // The list has each of these commits, and only commits that an id of `include` reaches, each
    // once.
    ensures covers { IfOk result
        (λ ids. Covers (S.history graph.old.source) include.now exclude.now ids.items) }

    // Also after an error, the history is unchanged, and the graph keeps each commit that it holds.
    // After a source error, which has one of two texts, the fault count is one more, up to
    // `u64::MAX`. Otherwise it is unchanged.
    ensures after { AfterCall S.history S.fault_count graph.old graph.new result }
{
    let candidates = find_candidates(alloc, include, exclude, graph)?;
    let kept = kept_of(alloc, &candidates, exclude, graph)?;
    Ok(kept.into_vec())
}

/// Counts the commits that `include` reaches and `exclude` does not, as [`beyond`] lists them.
///
/// # Premises
///
/// [Acyclic](gix_merge_base#premises), for what `exclude` reaches. Without it the count is still no
/// less than this number, and no more than the number of commits that `include` reaches.
///
/// # Errors
///
/// Those of [`beyond`].
pub fn count_beyond<S: Find, A: Allocator + Copy>(
    alloc: A,
    include: &[ObjectId],
    exclude: &[ObjectId],
    graph: &mut Graph<S, Commit<Flags, A>, A>,
) -> Result<usize, Error>
    // Premise: acyclic. The answer is how many commits an id of `include` reaches and no id of
    // `exclude` reaches.
    ensures size { IsAcyclicFrom (S.history graph.old.source) exclude.now
        → IfOk result
        (λ n. HasSize (IsBeyond (S.history graph.old.source) exclude.now include.now) n) }

    // The answer is at least the number of these commits.
    ensures no_less { IfOk result
        (λ n. AtMost n (IsBeyond (S.history graph.old.source) exclude.now include.now)) }

    // The answer is at most the number of commits that the ids of `include` reach.
    ensures no_more { IfOk result
        (λ n. AtLeast n (IsAncestorOfOne (S.history graph.old.source) include.now)) }

    // Also after an error, the history is unchanged, and the graph keeps each commit that it holds.
    // After a source error, which has one of two texts, the fault count is one more, up to
    // `u64::MAX`. Otherwise it is unchanged.
    ensures after { AfterCall S.history S.fault_count graph.old graph.new result }
{
    let ids = beyond(alloc, include, exclude, graph)?;
    Ok(ids.len())
}

/// Counts what only `ours` reaches, and what only `theirs` reaches (git-rev-list, "--left-right"
/// with "--count").
///
/// One walk finds the candidates of both sides. For the rest see [`beyond`].
///
/// # Premises
///
/// [Acyclic](gix_merge_base#premises): for the first number, for what `theirs` reaches, and for the
/// second, for what `ours` reaches. Without it each number is still no less than that of these
/// commits, and no more than the number of commits that its side reaches.
///
/// # Errors
///
/// Those of [`beyond`].
pub fn ahead_behind<S: Find, A: Allocator + Copy>(
    alloc: A,
    ours: ObjectId,
    theirs: ObjectId,
    graph: &mut Graph<S, Commit<Flags, A>, A>,
) -> Result<(usize, usize), Error>
    // Premise: acyclic. The first number is that of the commits that only `ours` reaches.
    ensures ahead { IsAcyclicFrom (S.history graph.old.source) (theirs ∷ [])
        → IfOk result (λ r. HasSize
        (IsBeyond (S.history graph.old.source) (theirs ∷ []) (ours ∷ [])) r.0) }

    // Premise: acyclic. The second number is that of the commits that only `theirs` reaches.
    ensures behind { IsAcyclicFrom (S.history graph.old.source) (ours ∷ [])
        → IfOk result (λ r. HasSize
        (IsBeyond (S.history graph.old.source) (ours ∷ []) (theirs ∷ [])) r.1) }

    // The first number is at least the number of commits that only `ours` reaches.
    ensures no_less_ahead { IfOk result (λ r. AtMost r.0
        (IsBeyond (S.history graph.old.source) (theirs ∷ []) (ours ∷ []))) }

    // The second number is at least the number of commits that only `theirs` reaches.
    ensures no_less_behind { IfOk result (λ r. AtMost r.1
        (IsBeyond (S.history graph.old.source) (ours ∷ []) (theirs ∷ []))) }

    // The first number is at most the number of commits that `ours` reaches.
    ensures no_more_ahead { IfOk result (λ r. AtLeast r.0
        (IsAncestorOfOne (S.history graph.old.source) (ours ∷ []))) }

    // The second number is at most the number of commits that `theirs` reaches.
    ensures no_more_behind { IfOk result (λ r. AtLeast r.1
        (IsAncestorOfOne (S.history graph.old.source) (theirs ∷ []))) }

    // Also after an error, the history is unchanged, and the graph keeps each commit that it holds.
    // After a source error, which has one of two texts, the fault count is one more, up to
    // `u64::MAX`. Otherwise it is unchanged.
    ensures after { AfterCall S.history S.fault_count graph.old graph.new result }
{
    let found = paint_sides(alloc, ours, &[theirs], graph)?;
    let ahead = count_kept(alloc, &found.firsts, &[theirs], graph)?;
    let behind = count_kept(alloc, &found.seconds, &[ours], graph)?;
    Ok((ahead, behind))
}
