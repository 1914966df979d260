//! Lists and counts the commits in a spec (git-rev-list).

ghost use Rattle.std.specs.Prelude.{◌≡◌, IfOk, IsOkAnd, IsTrue, Some, Ok, []};
ghost use Rattle.gix_revwalk.specs.Faults.{count_after};
ghost use Rattle.gix_revwalk.specs.Graph.{KeepsHeld};
ghost use Rattle.gix_revwalk.specs.Sizes.{HasSize};
ghost use Rattle.gix_resolve.specs.ListErrors.{is_list_source_fault};
ghost use Rattle.gix_resolve.specs.ListMeaning.{ListsMeant, IsMeant, IsPage, past};
ghost use Rattle.gix_resolve.specs.Taken.{TakesOnly, IsLookedAt, is_exclude};

mod count;
mod early;
mod members;
mod newest;
mod walk;

use crate::list::early::{early_count, ids_by};
pub(crate) use crate::list::newest::newest_of;
pub use crate::list::newest::{commits_newest_first, newest_first};
pub(crate) use crate::list::walk::ids_of;
use gix_revision::graph::{self, Commit, Find, Graph};
use gix_revision::hash::ObjectId;
use gix_revision::merge_base::Flags;
use gix_revision::spec::Spec;
use std::alloc::Allocator;
use std::fmt;
use thiserror::Error as StdError;

/// Says why a list or a count of commits failed. The graph can be used again.
#[derive(Clone, Copy, Debug, PartialEq, Eq, Drop, StdError)]
pub enum ListError {
    /// The source failed. Its [fault count](gix_revision#fault-count) has grown by one.
    Source,
    /// An allocation failed, for the list or in the source.
    OutOfMemory,
}

impl fmt::Display for ListError {
    ghost use Rattle.gix_resolve.specs.ListErrors.{list_error_text};

    ghost output = { λ e. Some (list_error_text e) };

    fn fmt<W: fmt::Write>(&self, f: &mut fmt::Formatter<W>) -> fmt::Result {
        match self {
            ListError::Source => f.write_str("the source failed"),
            ListError::OutOfMemory => f.write_str("out of memory"),
        }
    }
}

impl From<graph::Error> for ListError {
    ghost use Rattle.gix_resolve.specs.ListErrors.{list_error_of};

    ghost from_gives = { λ error e. e ≡ list_error_of error };

    fn from(error: graph::Error) -> ListError {
        match error {
            graph::Error::Source => ListError::Source,
            graph::Error::OutOfMemory => ListError::OutOfMemory,
        }
    }
}

/// Lists the commits in `spec`, each once, in rising order of their ids.
///
/// See gitrevisions, "Specifying Ranges". An id that the source does not have has no ancestors, so
/// it adds and hides no commit. `^a` alone means no commit: the call then succeeds with an empty
/// list, and the graph is unchanged.
///
/// # Graph
///
/// Held commits stay held, also on an error; their data may change. A newly held commit is
/// reachable from the ids of `spec`.
///
/// # Errors
///
/// - [`ListError::Source`]: the source failed.
/// - [`ListError::OutOfMemory`]: an allocation failed.
///
/// The graph can be used again after either.
///
/// # Cost
///
/// The walk visits everything that the ids reach, whatever the source reports about generation
/// numbers. [`commits_early`] may stop earlier.
pub fn commits<S: Find, A: Allocator + Copy>(
    alloc: A,
    spec: &Spec,
    graph: &mut Graph<S, Commit<Flags, A>, A>,
) -> Result<Vec<ObjectId, A>, ListError>
    // The answer has exactly the commits that the spec means, each once, by rising id.
    ensures meant { IfOk result
        (λ ids. ListsMeant (S.history graph.old.source) spec.now ids.items) }

    // The history of the source is unchanged, also after an error.
    ensures history { S.history graph.new.source ≡ S.history graph.old.source }

    // The fault count is one more exactly if the call returns `ListError::Source`. At `u64::MAX`
    // the count stays.
    ensures count { S.fault_count graph.new.source
        ≡ count_after (is_list_source_fault result) (S.fault_count graph.old.source) }

    // The graph keeps every commit that it holds, also after an error.
    ensures held { KeepsHeld graph.old graph.new }

    // Also after an error each newly held commit is reachable from an id of the spec. If the spec
    // is `a^!`, this commit is `a`. If the spec is `^a`, no commit is newly held.
    ensures taken { TakesOnly (IsLookedAt (S.history graph.old.source) spec.now)
        graph.old graph.new }

    // If the spec is `^a`, the call succeeds with an empty list, and the graph is unchanged.
    ensures exclude { IsTrue (is_exclude spec.now)
        → IsOkAnd result (λ ids. ids.items ≡ []) × (graph.new ≡ graph.old) }
{
    let mut ids = ids_by(alloc, *spec, false, graph)?;
    ids.sort_unstable();
    Ok(ids)
}

/// Lists the commits in `spec` in rising order of their ids, with a walk that may stop early.
///
/// The list is that of [`commits`]. `^a` alone means no commit: the call then succeeds with an
/// empty list, and the graph is unchanged.
///
/// # Graph
///
/// Held commits stay held, also on an error; their data may change. A newly held commit is
/// reachable from the ids of `spec`.
///
/// # Errors
///
/// - [`ListError::Source`]: the source failed.
/// - [`ListError::OutOfMemory`]: an allocation failed.
///
/// The graph can be used again after either.
///
/// # Cost
///
/// For `a..b` and `a...b` the walk goes no further than generation numbers ask for, like
/// [`reachable`](crate::reachable), if the source reports that they never rise
/// ([`Find::generations`]). Two nearby commits then cost what lies between them. A walk that has to
/// go far costs several times what [`commits`] costs. For any other spec or source the walk is that
/// of [`commits`].
pub fn commits_early<S: Find, A: Allocator + Copy>(
    alloc: A,
    spec: &Spec,
    graph: &mut Graph<S, Commit<Flags, A>, A>,
) -> Result<Vec<ObjectId, A>, ListError>
    // The answer has exactly the commits that the spec means, each once, by rising id.
    ensures meant { IfOk result
        (λ ids. ListsMeant (S.history graph.old.source) spec.now ids.items) }

    // The history of the source is unchanged, also after an error.
    ensures history { S.history graph.new.source ≡ S.history graph.old.source }

    // The fault count is one more exactly if the call returns `ListError::Source`. At `u64::MAX`
    // the count stays.
    ensures count { S.fault_count graph.new.source
        ≡ count_after (is_list_source_fault result) (S.fault_count graph.old.source) }

    // The graph keeps every commit that it holds, also after an error.
    ensures held { KeepsHeld graph.old graph.new }

    // Also after an error each newly held commit is reachable from an id of the spec. If the spec
    // is `a^!`, this commit is `a`. If the spec is `^a`, no commit is newly held.
    ensures taken { TakesOnly (IsLookedAt (S.history graph.old.source) spec.now)
        graph.old graph.new }

    // If the spec is `^a`, the call succeeds with an empty list, and the graph is unchanged.
    ensures exclude { IsTrue (is_exclude spec.now)
        → IsOkAnd result (λ ids. ids.items ≡ []) × (graph.new ≡ graph.old) }
{
    let mut ids = ids_by(alloc, *spec, true, graph)?;
    ids.sort_unstable();
    Ok(ids)
}

/// Counts the commits in `spec` (git-rev-list, "--count").
///
/// The count is the length of the list of [`commits`]. `^a` alone means no commit: the call then
/// succeeds with 0, and the graph is unchanged.
///
/// # Graph
///
/// Held commits stay held, also on an error; their data may change. A newly held commit is
/// reachable from the ids of `spec`.
///
/// # Errors
///
/// - [`ListError::Source`]: the source failed.
/// - [`ListError::OutOfMemory`]: out of memory.
///
/// The graph can be used again after either.
///
/// # Cost
///
/// The walk is that of [`commits_early`]. No id is listed or sorted.
pub fn count_commits<S: Find, A: Allocator + Copy>(
    alloc: A,
    spec: &Spec,
    graph: &mut Graph<S, Commit<Flags, A>, A>,
) -> Result<usize, ListError>
    // The answer is how many commits the spec means.
    ensures size { IfOk result (λ n. HasSize (IsMeant (S.history graph.old.source) spec.now) n) }

    // The history of the source is unchanged, also after an error.
    ensures history { S.history graph.new.source ≡ S.history graph.old.source }

    // The fault count is one more exactly if the call returns `ListError::Source`. At `u64::MAX`
    // the count stays.
    ensures count { S.fault_count graph.new.source
        ≡ count_after (is_list_source_fault result) (S.fault_count graph.old.source) }

    // The graph keeps every commit that it holds, also after an error.
    ensures held { KeepsHeld graph.old graph.new }

    // Also after an error each newly held commit is reachable from an id of the spec. If the spec
    // is `a^!`, this commit is `a`. If the spec is `^a`, no commit is newly held.
    ensures taken { TakesOnly (IsLookedAt (S.history graph.old.source) spec.now)
        graph.old graph.new }

    // If the spec is `^a`, the call succeeds with 0, and the graph is unchanged.
    ensures exclude { IsTrue (is_exclude spec.now)
        → (result ≡ Ok 0) × (graph.new ≡ graph.old) }
{
    let count = early_count(alloc, *spec, graph)?;
    Ok(count)
}

/// Keeps the ids that are greater than `bound`. Without a bound it keeps all ids.
fn keep_past<A: Allocator + Copy>(ids: &mut Vec<ObjectId, A>, bound: Option<ObjectId>)
    ensures { ids.new.items ≡ past bound ids.old.items }
{
    if let Some(bound) = bound {
        ids.retain(|id| id.cmp(&bound).is_gt());
    }
}

/// Lists one page of [`commits`]: its first `limit` ids that are greater than `after`.
///
/// Without `after` the page begins with the first id. Pass the last id of a page as `after` to get
/// the next page. `^a` alone means no commit: the call then succeeds with an empty page, and the
/// graph is unchanged.
///
/// # Graph
///
/// Held commits stay held, also on an error; their data may change. A newly held commit is
/// reachable from the ids of `spec`.
///
/// # Errors
///
/// - [`ListError::Source`]: the source failed.
/// - [`ListError::OutOfMemory`]: an allocation failed.
///
/// The graph can be used again after either.
///
/// # Cost
///
/// Each call makes the whole list, so a page of any size costs what [`commits`] costs.
pub fn page<S: Find, A: Allocator + Copy>(
    alloc: A,
    spec: &Spec,
    graph: &mut Graph<S, Commit<Flags, A>, A>,
    after: Option<ObjectId>,
    limit: usize,
) -> Result<Vec<ObjectId, A>, ListError>
    // The answer has the first `limit` ids of the list or, if `after` is given, the first `limit`
    // ids greater than `after`. The list has exactly the commits that the spec means, each once, by
    // rising id.
    ensures page { IfOk result
        (λ ids. IsPage (S.history graph.old.source) spec.now after limit ids.items) }

    // The history of the source is unchanged, also after an error.
    ensures history { S.history graph.new.source ≡ S.history graph.old.source }

    // The fault count is one more exactly if the call returns `ListError::Source`. At `u64::MAX`
    // the count stays.
    ensures count { S.fault_count graph.new.source
        ≡ count_after (is_list_source_fault result) (S.fault_count graph.old.source) }

    // The graph keeps every commit that it holds, also after an error.
    ensures held { KeepsHeld graph.old graph.new }

    // Also after an error each newly held commit is reachable from an id of the spec. If the spec
    // is `a^!`, this commit is `a`. If the spec is `^a`, no commit is newly held.
    ensures taken { TakesOnly (IsLookedAt (S.history graph.old.source) spec.now)
        graph.old graph.new }

    // If the spec is `^a`, the call succeeds with an empty list, and the graph is unchanged.
    ensures exclude { IsTrue (is_exclude spec.now)
        → IsOkAnd result (λ ids. ids.items ≡ []) × (graph.new ≡ graph.old) }
{
    let mut ids = commits(alloc, spec, graph)?;
    keep_past(&mut ids, after);
    ids.truncate(limit);
    Ok(ids)
}
