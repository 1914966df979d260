//! Finds a commit that each of some commits reaches, and that reaches none of them.

ghost use Rattle.std.specs.Prelude.{◌∷◌, [], IfOk, IfSome, OnOk, IsTrue};
ghost use Rattle.gix_base.specs.declared.hash.ObjectId.{ObjectId};
ghost use Rattle.gix_revwalk.specs.History.{IsEdge, entry_at, is_one_of, parents_in};
ghost use Rattle.gix_merge_base.specs.AfterCall.{AfterCall};
ghost use Rattle.gix_range.specs.Lines.{Extends, IsBelow, Joins, Leads, queued};

use crate::whole::load;
use gix_base::hash::ObjectId;
use gix_merge_base::merge_base::{Error, Flags, GenThenTime};
use gix_revwalk::graph::{Commit, Find, Graph};
use gix_revwalk::queue::PriorityQueue;
use gix_revwalk::seen::Seen;
use std::alloc::{AllocError, Allocator};

/// The lines of first parents that lead down from some commits.
#[derive(Drop)]
struct Lines<A: Allocator> {
    /// The commits of all lines.
    met: Seen<A>,
    /// The last commits of the lines that have not joined another one, by generation number, then
    /// time.
    ends: PriorityQueue<GenThenTime, ObjectId, A>,
}

/// Returns the key of a commit. A commit that the graph does not hold has the greatest one.
fn key_of<S: Find, A: Allocator + Copy>(
    id: ObjectId,
    graph: &Graph<S, Commit<Flags, A>, A>,
) -> GenThenTime {
    match graph.get(&id) {
        Some(commit) => GenThenTime::from(commit),
        None => GenThenTime {
            generation: u32::MAX,
            time: i64::MAX,
        },
    }
}

/// Returns the first parent of a commit; `None` if there is none, or if the graph does not hold the
/// commit.
fn first_parent<S: Find, A: Allocator + Copy>(
    id: ObjectId,
    graph: &Graph<S, Commit<Flags, A>, A>,
) -> Option<ObjectId>
    ensures { IfSome result (λ parent.
        IsTrue (is_one_of (parents_in (entry_at (S.history graph.now.source) id)) parent)) }
{
    match graph.get(&id) {
        Some(commit) => commit.parents().first().copied(),
        None => None,
    }
}

/// Tests whether the first parent of a commit is in the list, and the graph holds this parent.
fn joins<S: Find, A: Allocator + Copy>(
    id: ObjectId,
    met: &Seen<A>,
    graph: &Graph<S, Commit<Flags, A>, A>,
) -> bool
    ensures { IsTrue result → Joins (S.history graph.now.source) met.now id }
{
    match first_parent(id, graph) {
        Some(parent) => met.contains(parent) && graph.get(&parent).is_some(),
        None => false,
    }
}

impl<A: Allocator + Copy> Lines<A> {
    /// Adds a commit to the lines, unless a line has the commit. A line ends at the commit, unless
    /// the line joins another one at the commit's first parent.
    fn extend<S: Find>(
        &mut self,
        id: ObjectId,
        graph: &Graph<S, Commit<Flags, A>, A>,
    ) -> Result<(), AllocError>
        ensures { OnOk result (Extends (S.history graph.now.source)
            self.old.met (queued self.old.ends) id self.new.met (queued self.new.ends)) }
    {
        if self.met.contains(id) {
            return Ok(());
        }
        let joined = joins(id, &self.met, graph);
        self.met.push(id)?;
        if joined {
            return Ok(());
        }
        match self.ends.insert(key_of(id, graph), id) {
            Ok(()) => Ok(()),
            Err(_) => Err(AllocError),
        }
    }
}

/// Begins a line at each of the ids.
fn begin_lines<S: Find, A: Allocator + Copy>(
    alloc: A,
    ids: &[ObjectId],
    graph: &Graph<S, Commit<Flags, A>, A>,
) -> Result<Lines<A>, AllocError>
    ensures begun { IfOk result (λ lines.
        (c : ObjectId) → IsTrue (is_one_of ids.now c) → IsTrue (is_one_of lines.met c)) }
    ensures leads { IfOk result (λ lines.
        Leads (S.history graph.now.source) lines.met (queued lines.ends)) }
{
    let mut lines = Lines {
        met: Seen::new(alloc, graph.seed()),
        ends: PriorityQueue::new(alloc),
    };
    for id in ids {
        lines.extend(*id, graph)?;
    }
    Ok(lines)
}

/// Returns the first parent of a commit, and loads it; `None` also if the source does not have it.
fn step_down<S: Find, A: Allocator + Copy>(
    alloc: A,
    id: ObjectId,
    graph: &mut Graph<S, Commit<Flags, A>, A>,
) -> Result<Option<ObjectId>, Error>
    ensures edge { IfOk result (λ r. IfSome r (IsEdge (S.history graph.old.source) id)) }
    ensures after { AfterCall S.history S.fault_count graph.old graph.new result }
{
    let Some(parent) = first_parent(id, graph) else {
        return Ok(None);
    };
    let has = load(alloc, parent, graph)?;
    if has {
        return Ok(Some(parent));
    }
    Ok(None)
}

/// Returns a commit that each of `ids` reaches, and that reaches none of them, unless there is a
/// cycle.
///
/// The call follows first parents, those of the newest commit first, until all lines have become
/// one. The next parent is the answer. The answer is `None` if a line ends before.
///
/// # Errors
///
/// - [`Error::Source`]: the source failed.
/// - [`Error::OutOfMemory`]: an allocation failed.
pub(crate) fn commit_below<S: Find, A: Allocator + Copy>(
    alloc: A,
    ids: &[ObjectId],
    graph: &mut Graph<S, Commit<Flags, A>, A>,
) -> Result<Option<ObjectId>, Error>
    ensures below { IfOk result
        (λ r. IfSome r (IsBelow (S.history graph.old.source) ids.now)) }
    ensures after { AfterCall S.history S.fault_count graph.old graph.new result }
{
    let mut lines = begin_lines(alloc, ids, graph)?;
    // Memory runs out before.
    for _step in 0..u64::MAX {
        let Some((_, id)) = lines.ends.pop() else {
            return Ok(None);
        };
        let Some(parent) = step_down(alloc, id, graph)? else {
            return Ok(None);
        };
        if lines.ends.is_empty() {
            return Ok(Some(parent));
        }
        lines.extend(parent, graph)?;
    }
    Ok(None)
}
