//! Finds the nearest name of a commit.

ghost use Rattle.std.specs.Prelude.{◌≡◌, min, IfOk, IfErr, IfSome, IsOk, IsTrue, None, Some};
ghost use Rattle.std.specs.Option.{option_map};
ghost use Rattle.gix_base.specs.declared.hash.ObjectId.{ObjectId};
ghost use Rattle.gix_revwalk.specs.Faults.{count_after};
ghost use Rattle.gix_describe.specs.DescribeRefusals.{is_source_fault};
ghost use Rattle.gix_describe.specs.Described.{name_at, named, nothing_to_find, unnamed};
ghost use Rattle.gix_describe.specs.Outcomes.{names_of, names_in, cap_of, description_of, Describes, Keeps, Walks, Refuses};
ghost use Rattle.gix_describe.specs.Counted.{CountsPops};
ghost use Rattle.gix_describe.specs.Lent.{NameMap, options_by, outcomes_by};
ghost use Rattle.gix_describe.specs.Ties.{Holds, HoldsAtFault, Ties};
ghost use Rattle.gix_revwalk.specs.Graph.{held_at};

use crate::describe::nearest::Nearest;
use crate::describe::options::{Manner, Names, Options, Tie};
use crate::describe::outcome::Outcome;
use crate::describe::walk::{Found, Search, find_name};
use gix_base::error::Message;
use gix_base::hash::ObjectId;
use gix_revwalk::graph::{Find, Graph};
use std::alloc::Allocator;

/// Returns the answer without a name if it was asked for.
fn without_name<'name, A: Allocator>(
    id: ObjectId,
    fallback_to_oid: bool,
    commits_seen: u32,
) -> Option<Nearest<'name, A>>
    ensures answer { (names : NameMap A) → option_map description_of (outcomes_by names result)
        ≡ unnamed fallback_to_oid commits_seen }
    ensures id { IfSome result (λ n. n.id ≡ id) }
{
    if fallback_to_oid {
        Some(Nearest {
            name: None,
            id,
            depth: 0,
            commits_seen,
        })
    } else {
        None
    }
}

/// Returns the answer with the name of a commit, or `None` if the commit has no name.
fn with_name_of<'name, A: Allocator + Copy>(
    named_id: ObjectId,
    id: ObjectId,
    depth: u32,
    names: &Names<'name, A>,
    commits_seen: u32,
) -> Result<Option<Nearest<'name, A>>, Message>
    ensures answer { IfOk result (λ r. option_map description_of (outcomes_by names.now r)
        ≡ option_map (λ name. named name depth commits_seen) (name_at (names_of names.now.entries) named_id)) }
    ensures id { IfOk result (λ r. IfSome r (λ n. n.id ≡ id)) }
    ensures refused { IfErr result (λ e. e ≡ Message.OutOfMemory) }
{
    let copied = match names.get(&named_id) {
        Some(name) => name.clone()?,
        None => return Ok(None),
    };
    Ok(Some(Nearest {
        name: Some(copied),
        id,
        depth,
        commits_seen,
    }))
}

/// Returns an outcome that also has the names.
fn with_names<'name, A: Allocator>(
    found: Option<Nearest<'name, A>>,
    name_by_oid: Names<'name, A>,
) -> Option<Outcome<'name, A>>
    ensures { result ≡ outcomes_by name_by_oid.entry found.entry }
{
    let Nearest {
        name,
        id,
        depth,
        commits_seen,
    } = found?;
    Some(Outcome {
        name,
        id,
        depth,
        name_by_oid,
        commits_seen,
    })
}

/// Tests whether there are no names, or none may be taken.
fn is_idle<'name, A: Allocator>(names: &Names<'name, A>, max_candidates: usize) -> bool
    ensures { result ≡ nothing_to_find (names_of names.now.entries) (min max_candidates 32) }
{
    max_candidates == 0 || names.is_empty()
}

/// Returns how many names are weighed against each other. A mark is one of 32 bits.
fn room(max_candidates: usize) -> usize
    ensures { result ≡ min max_candidates 32 }
{
    max_candidates.min(32)
}

/// Finds a name as [`counted`] does, by names that stay with the caller.
///
/// A program that describes many commits makes the map of names once. With `Tie::ById`, answer,
/// count, graph and errors are those of [`counted`] with options that have these names and the rest of
/// the manner. With `Tie::ByMeeting` they are those of a walk in git's order.
///
/// # Errors
///
/// Those of [`counted`].
pub fn counted_by<'name, S: Find, A: Allocator + Copy>(
    alloc: A,
    commit: &ObjectId,
    graph: &mut Graph<S, u32, A>,
    names: &Names<'name, A>,
    manner: Manner,
) -> Result<(Option<Nearest<'name, A>>, u128), Message>
    // If `commit` has a name, the answer has it. Otherwise the answer has the name of an ancestor
    // along the followed parents, or no name if no such ancestor has one or nothing can be found.
    // `IsNamedBy` bounds the depth; one bound has the premise older parents.
    ensures described { IfOk result (λ r. Describes (S.history graph.old.source) commit.now
        (options_by names.now manner) (outcomes_by names.now r.0)) }

    // A nearest name has the id of `commit`.
    ensures kept { IfOk result (λ r. IfSome r.0 (λ n. n.id ≡ commit.now)) }

    // If the history is walked, an answer with a name is the fixed answer (`IsTied`): the name, the
    // depth and the number of commits seen.
    ensures tied { IfOk result (λ r. Ties manner.tie (S.history graph.old.source) commit.now
        (options_by names.now manner) (outcomes_by names.now r.0)) }

    // If the history is walked and the answer has `n` commits seen, the graph holds exactly
    // `commit` and, of the followed parents of the first `n - 1` commits in the walking order,
    // those that the history has.
    ensures held { IfOk result (λ r. Holds manner.tie (S.history graph.old.source) commit.now
        (options_by names.now manner) (outcomes_by names.now r.0) (held_at graph.new)) }

    // The number of pops is 0 without a walk. If the walk finds no name, it is the number of
    // followed ancestors. Otherwise it is the number of commits seen, and one more exactly if only
    // a lack of room caused the cut. It is at most one more than the number of followed ancestors.
    ensures pops { IfOk result (λ r. CountsPops manner.tie (S.history graph.old.source) commit.now
        (options_by names.now manner) (outcomes_by names.now r.0) r.1) }

    // `ParentsOf` names `commit` or an ancestor of it. `MissingStart` names `commit`, which the
    // history does not have. `CounterFull` means that 2^32 or more commits are reachable. These
    // three errors come only if the history is walked.
    ensures refused { IfErr result
        (Refuses (S.history graph.old.source) commit.now (options_by names.now manner)) }

    // After `ParentsOf`, either the error names `commit` and the graph holds nothing, or the graph
    // holds `commit`, those followed parents of all commits walked before the named one that the
    // history has, and apart from these only followed parents of the named one (`StandsAt`).
    ensures fault { IfErr result (λ e. HoldsAtFault manner.tie (S.history graph.old.source) commit.now
        (options_by names.now manner) e (held_at graph.new)) }

    // Also after an error, the graph is unchanged if the history is not walked.
    ensures untouched { (¬ Walks commit.now (options_by names.now manner)) → graph.new ≡ graph.old }

    // If `commit` has no name, and there are no names or none may be taken, the call does not fail.
    ensures no_walk { name_at (names_of names.now.entries) commit.now ≡ None
        → IsTrue (nothing_to_find (names_of names.now.entries) (min manner.max_candidates 32))
        → IsOk result }

    // The history of the source is unchanged, also after an error.
    ensures history { S.history graph.new.source ≡ S.history graph.old.source }

    // After `ParentsOf` the fault count of the source is one more, up to `u64::MAX`. Otherwise the
    // count is unchanged.
    ensures count { S.fault_count graph.new.source
        ≡ count_after (is_source_fault result) (S.fault_count graph.old.source) }
{
    if names.contains_key(commit) {
        let own = with_name_of(*commit, *commit, 0, names, 0)?;
        return Ok((own, 0));
    }
    if is_idle(names, manner.max_candidates) {
        return Ok((without_name(*commit, manner.fallback_to_oid, 0), 0));
    }
    graph.clear();
    let search = Search {
        start: *commit,
        cap: room(manner.max_candidates),
        first_parent: manner.first_parent,
        tie: manner.tie,
    };
    let found = find_name(alloc, names, search, graph)?;
    let Found { best, seen, pops } = found;
    let Some((id, depth)) = best else {
        let answer = without_name(*commit, manner.fallback_to_oid, seen);
        return Ok((answer, pops));
    };
    let named = with_name_of(id, *commit, depth, names, seen)?;
    Ok((named, pops))
}

/// Finds a name as [`describe()`] does, and counts how many commits left the queue of the walk.
///
/// The count depends on the case of [`describe()`]:
///
/// - Without a walk (cases 1 and 2) it is 0.
/// - If no ancestor has a name, it is the number of ancestors, with or without `fallback_to_oid`.
/// - If the answer has the name of an ancestor, it is the number of commits seen. It is one more if
///   the walk stops before one name more than it may weigh: the commit that has no room leaves the
///   queue twice.
///
/// # Graph
///
/// [`describe()`] says what the graph holds.
///
/// # Errors
///
/// - [`Message::ParentsOf`]: the source failed. Its [fault count](crate#fault-count) has grown by
///   one, or is `u64::MAX`. The message names the commit whose parents were needed. The graph holds
///   `commit` and, of the parents of every commit visited before that one, those that the source
///   has. It holds nothing else except parents of that one. If `commit` itself could not be loaded,
///   the message names `commit` and the graph is empty.
/// - [`Message::MissingStart`]: the history has to be walked, and the source does not have
///   `commit`.
/// - [`Message::CounterFull`]: 2^32 or more commits are reachable.
/// - [`Message::OutOfMemory`]: an allocation failed.
///
/// The graph can be used again after each.
pub fn counted<'name, S: Find, A: Allocator + Copy>(
    alloc: A,
    commit: &ObjectId,
    graph: &mut Graph<S, u32, A>,
    options: Options<'name, A>,
) -> Result<(Option<Outcome<'name, A>>, u128), Message>
    // If `commit` has a name, the answer has it. Otherwise the answer has the name of an ancestor
    // along the followed parents, or no name if no such ancestor has one or nothing can be found.
    // `IsNamedBy` bounds the depth; one bound has the premise older parents.
    ensures described { IfOk result
        (λ r. Describes (S.history graph.old.source) commit.now options.entry r.0) }

    // An outcome has the id of `commit`, and the map of names that was passed.
    ensures kept { IfOk result (λ r. Keeps commit.now options.entry r.0) }

    // If the history is walked, an answer with a name is the fixed answer (`IsTied`): the name, the
    // depth and the number of commits seen.
    ensures tied { IfOk result
        (λ r. Ties Tie.ById (S.history graph.old.source) commit.now options.entry r.0) }

    // If the history is walked and the answer has `n` commits seen, the graph holds exactly
    // `commit` and, of the followed parents of the first `n - 1` commits in the walking order,
    // those that the history has.
    ensures held { IfOk result
        (λ r. Holds Tie.ById (S.history graph.old.source) commit.now options.entry r.0 (held_at graph.new)) }

    // The number of pops is 0 without a walk. If the walk finds no name, it is the number of
    // followed ancestors. Otherwise it is the number of commits seen, and one more exactly if only
    // a lack of room caused the cut. It is at most one more than the number of followed ancestors.
    ensures pops { IfOk result
        (λ r. CountsPops Tie.ById (S.history graph.old.source) commit.now options.entry r.0 r.1) }

    // `ParentsOf` names `commit` or an ancestor of it. `MissingStart` names `commit`, which the
    // history does not have. `CounterFull` means that 2^32 or more commits are reachable. These
    // three errors come only if the history is walked.
    ensures refused { IfErr result
        (Refuses (S.history graph.old.source) commit.now options.entry) }

    // After `ParentsOf`, either the error names `commit` and the graph holds nothing, or the graph
    // holds `commit`, those followed parents of all commits walked before the named one that the
    // history has, and apart from these only followed parents of the named one (`StandsAt`).
    ensures fault { IfErr result (λ e.
        HoldsAtFault Tie.ById (S.history graph.old.source) commit.now options.entry e (held_at graph.new)) }

    // Also after an error, the graph is unchanged if the history is not walked.
    ensures untouched { (¬ Walks commit.now options.entry) → graph.new ≡ graph.old }

    // If `commit` has no name, and there are no names or none may be taken, the call does not fail.
    ensures no_walk { name_at (names_in options.entry) commit.now ≡ None
        → IsTrue (nothing_to_find (names_in options.entry) (cap_of options.entry)) → IsOk result }

    // The history of the source is unchanged, also after an error.
    ensures history { S.history graph.new.source ≡ S.history graph.old.source }

    // After `ParentsOf` the fault count of the source is one more, up to `u64::MAX`. Otherwise the
    // count is unchanged.
    ensures count { S.fault_count graph.new.source
        ≡ count_after (is_source_fault result) (S.fault_count graph.old.source) }
{
    let Options {
        name_by_oid,
        max_candidates,
        fallback_to_oid,
        first_parent,
    } = options;
    let manner = Manner {
        max_candidates,
        fallback_to_oid,
        first_parent,
        tie: Tie::ById,
    };
    let (found, pops) = counted_by(alloc, commit, graph, &name_by_oid, manner)?;
    Ok((with_names(found, name_by_oid), pops))
}

/// Finds a name for `commit`: its own, or that of a near ancestor.
///
/// This is `git describe`; `options` gives the names. The first case that applies decides:
///
/// 1. `commit` has a name: that name, depth 0, 0 commits seen.
/// 2. There are no names, or `max_candidates` is 0: the id alone if `fallback_to_oid` is set, with
///    depth 0 and 0 commits seen; otherwise `None`.
/// 3. No ancestor has a name: as in case 2, but the number of commits seen is that of all
///    ancestors.
/// 4. The name of an ancestor, and its depth.
///
/// In cases 1 and 2 the graph is not touched. Case 2 takes no memory, so it does not fail. If
/// `first_parent` is set, only first parents count as parents.
///
/// # Depth
///
/// A commit is ahead of a name if `commit` reaches it and the named commit does not. The depth is
/// at least the number of commits ahead of the chosen name. It is exactly the least such number of
/// all named ancestors if each parent is strictly older than its child ([older
/// parents](crate#premises)) and at most `max_candidates`, and at most 32, ancestors have names.
///
/// # Which name
///
/// The answer is fixed, whatever the source:
///
/// - Of the commits that it has met, the walk visits the newest next; on equal times (in seconds),
///   the one with the smaller id.
/// - It stops once everything that is left lies below each of the nearest names, or before it
///   visits one name more than it may weigh.
/// - Of the names that are nearest then, the smaller one by bytes wins, then the one with the
///   smaller id.
///
/// # Graph
///
/// After a walk that returns an outcome, the graph holds `commit` and, of the parents of every
/// commit seen but the last, those that the source has. It holds nothing else. What the source
/// returned stays in memory until the graph is dropped, and is not asked for again. An id that the
/// source did not have is not remembered.
///
/// # Errors
///
/// - [`Message::ParentsOf`]: the source failed. Its [fault count](crate#fault-count) has grown by
///   one, or is `u64::MAX`. The message names the commit whose parents were needed. The graph holds
///   `commit` and, of the parents of every commit visited before that one, those that the source
///   has. It holds nothing else except parents of that one. If `commit` itself could not be loaded,
///   the message names `commit` and the graph is empty.
/// - [`Message::MissingStart`]: the history has to be walked, and the source does not have
///   `commit`.
/// - [`Message::CounterFull`]: 2^32 or more commits are reachable.
/// - [`Message::OutOfMemory`]: an allocation failed.
///
/// The graph can be used again after each.
pub fn describe<'name, S: Find, A: Allocator + Copy>(
    alloc: A,
    commit: &ObjectId,
    graph: &mut Graph<S, u32, A>,
    options: Options<'name, A>,
) -> Result<Option<Outcome<'name, A>>, Message>
    // If `commit` has a name, the answer has it. Otherwise the answer has the name of an ancestor
    // along the followed parents, or no name if no such ancestor has one or nothing can be found.
    // `IsNamedBy` bounds the depth; one bound has the premise older parents.
    ensures described { IfOk result
        (Describes (S.history graph.old.source) commit.now options.entry) }

    // An outcome has the id of `commit`, and the map of names that was passed.
    ensures kept { IfOk result (Keeps commit.now options.entry) }

    // If the history is walked, an answer with a name is the fixed answer (`IsTied`): the name, the
    // depth and the number of commits seen.
    ensures tied { IfOk result
        (Ties Tie.ById (S.history graph.old.source) commit.now options.entry) }

    // If the history is walked and the answer has `n` commits seen, the graph holds exactly
    // `commit` and, of the followed parents of the first `n - 1` commits in the walking order,
    // those that the history has.
    ensures held { IfOk result
        (λ r. Holds Tie.ById (S.history graph.old.source) commit.now options.entry r (held_at graph.new)) }

    // `ParentsOf` names `commit` or an ancestor of it. `MissingStart` names `commit`, which the
    // history does not have. `CounterFull` means that 2^32 or more commits are reachable. These
    // three errors come only if the history is walked.
    ensures refused { IfErr result
        (Refuses (S.history graph.old.source) commit.now options.entry) }

    // After `ParentsOf`, either the error names `commit` and the graph holds nothing, or the graph
    // holds `commit`, those followed parents of all commits walked before the named one that the
    // history has, and apart from these only followed parents of the named one (`StandsAt`).
    ensures fault { IfErr result (λ e.
        HoldsAtFault Tie.ById (S.history graph.old.source) commit.now options.entry e (held_at graph.new)) }

    // Also after an error, the graph is unchanged if the history is not walked.
    ensures untouched { (¬ Walks commit.now options.entry) → graph.new ≡ graph.old }

    // If `commit` has no name, and there are no names or none may be taken, the call does not fail.
    ensures no_walk { name_at (names_in options.entry) commit.now ≡ None
        → IsTrue (nothing_to_find (names_in options.entry) (cap_of options.entry)) → IsOk result }

    // The history of the source is unchanged, also after an error.
    ensures history { S.history graph.new.source ≡ S.history graph.old.source }

    // After `ParentsOf` the fault count of the source is one more, up to `u64::MAX`. Otherwise the
    // count is unchanged.
    ensures count { S.fault_count graph.new.source
        ≡ count_after (is_source_fault result) (S.fault_count graph.old.source) }
{
    let (answer, _pops) = counted(alloc, commit, graph, options)?;
    Ok(answer)
}
