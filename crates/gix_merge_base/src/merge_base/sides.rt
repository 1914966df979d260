//! Finds candidates for what only one of two sides reaches.
//!
//! The walk is that of painting. It ends early also without generation numbers, so a candidate may
//! be reached from the other side after all, if a clock was wrong.

ghost use Rattle.std.specs.Prelude.{◌≡◌, ◌&&◌, ◌∷◌, [], not, OnOk, IfOk, reverse};
ghost use Rattle.std.specs.List.{filter};
ghost use Rattle.gix_base.specs.declared.hash.ObjectId.{ObjectId};
ghost use Rattle.gix_revwalk.specs.Walks.{added};
ghost use Rattle.gix_merge_base.specs.AfterCall.{AfterCall};
ghost use Rattle.gix_merge_base.specs.Marks.{marks_of};
ghost use Rattle.gix_merge_base.specs.PaintQueue.{id_of, marks_at, IsIn};
ghost use Rattle.gix_merge_base.specs.Sides.{HasPopped, CoversSide, is_one_alone, is_two_alone};

use crate::merge_base::error::{Error, commit_refused, parent_refused};
use crate::merge_base::flags::Flags;
use crate::merge_base::hand::{Walk, mark_of};
use crate::merge_base::painting::start;
use bitflags::Flags as BitFlags;
use gix_base::hash::ObjectId;
use gix_revwalk::graph::{Commit, Find, Graph};
use gix_revwalk::numbers::{self, Number};
use gix_revwalk::seen::Seen;
use std::alloc::{AllocError, Allocator};

/// Candidates for what only one of two sides reaches.
#[derive(Drop)]
pub struct Candidates<A: Allocator> {
    /// Those of the first side, from the last that was popped to the first.
    pub firsts: Vec<ObjectId, A>,
    /// Those of the second side, in the same order.
    pub seconds: Vec<ObjectId, A>,
    /// How often the walk popped a commit.
    pub pops: u128,
}

/// Adds the id of a number to the list, unless it is there.
fn note<S: Find, A: Allocator + Copy>(
    number: Number,
    seen: &mut Seen<A>,
    graph: &Graph<S, Commit<Flags, A>, A>,
) -> Result<(), AllocError>
    requires { IsIn graph.now number }
    ensures { OnOk result (seen.new ≡ added seen.old (id_of graph.now number)) }
{
    seen.add(numbers::id_of(graph, number))
}

/// Paints, and returns the commits that were popped, in the order of their first pops, and the
/// number of pops.
fn popped<S: Find, A: Allocator + Copy>(
    alloc: A,
    first: ObjectId,
    others: &[ObjectId],
    graph: &mut Graph<S, Commit<Flags, A>, A>,
) -> Result<(Seen<A>, u128), Error>
    ensures popped { IfOk result (λ r. HasPopped (S.history graph.old.source) first others.now
        (marks_at graph.new) r.0) }
    ensures after { AfterCall S.history S.fault_count graph.old graph.new result }
{
    let mut seen = Seen::new(alloc, graph.seed());
    let mut walk = Walk::new(alloc, 0);
    if let Err(error) = start(alloc, first, others, &mut walk.front, graph) {
        return Err(commit_refused(error));
    }
    let mut results = Vec::new(alloc);
    let mut pops = 0u128;
    while let Some(number) = walk.front.pop_open(graph) {
        note(number, &mut seen, graph)?;
        if let Err(error) = walk.step(alloc, number, &mut results, graph) {
            return Err(parent_refused(error));
        }
        pops += 1;
    }
    Ok((seen, pops))
}

/// Returns the marks that the walk gave a commit; no marks if it gave none.
fn marks_of_id<S: Find, A: Allocator + Copy>(
    id: ObjectId,
    graph: &Graph<S, Commit<Flags, A>, A>,
) -> Flags
    ensures { marks_of result ≡ marks_at graph.now id }
{
    match numbers::number_of(graph, &id) {
        Some(number) => mark_of(graph, number).marks,
        None => Flags::empty(),
    }
}

/// Tests whether the walk reached a commit from the first side alone.
fn is_first_alone<S: Find, A: Allocator + Copy>(
    id: ObjectId,
    graph: &Graph<S, Commit<Flags, A>, A>,
) -> bool
    ensures { result ≡ is_one_alone (marks_at graph.now id) }
{
    let marks = marks_of_id(id, graph);
    marks.is_ours() && !marks.is_theirs()
}

/// Tests whether the walk reached a commit from the second side alone.
fn is_second_alone<S: Find, A: Allocator + Copy>(
    id: ObjectId,
    graph: &Graph<S, Commit<Flags, A>, A>,
) -> bool
    ensures { result ≡ is_two_alone (marks_at graph.now id) }
{
    let marks = marks_of_id(id, graph);
    marks.is_theirs() && !marks.is_ours()
}

/// Returns those ids that the walk reached from the first side alone, from the last to the first.
fn firsts_of<S: Find, A: Allocator + Copy>(
    alloc: A,
    ids: &[ObjectId],
    graph: &Graph<S, Commit<Flags, A>, A>,
) -> Result<Vec<ObjectId, A>, AllocError>
    ensures { IfOk result (λ firsts. firsts.items
        ≡ filter (λ c. is_one_alone (marks_at graph.now c)) (reverse ids.now)) }
{
    ids.iter()
        .rev()
        .copied()
        .filter(|id| is_first_alone(*id, graph))
        .collect(alloc)
}

/// Returns those ids that the walk reached from the second side alone, from the last to the first.
fn seconds_of<S: Find, A: Allocator + Copy>(
    alloc: A,
    ids: &[ObjectId],
    graph: &Graph<S, Commit<Flags, A>, A>,
) -> Result<Vec<ObjectId, A>, AllocError>
    ensures { IfOk result (λ seconds. seconds.items
        ≡ filter (λ c. is_two_alone (marks_at graph.now c)) (reverse ids.now)) }
{
    ids.iter()
        .rev()
        .copied()
        .filter(|id| is_second_alone(*id, graph))
        .collect(alloc)
}

/// Finds candidates for what only `first` reaches, and for what only `others` reach.
///
/// Those of the first side have each commit that `first` reaches and none of `others` does, and
/// only commits that `first` reaches. Those of the second side are the same with the sides turned.
/// If the clocks were right, a commit stands behind its parents.
///
/// The walk is that of [`paint`](crate::merge_base::paint), and ends as early, whatever the
/// generation numbers are. No premise is needed.
///
/// # Errors
///
/// Those of [`paint`](crate::merge_base::paint).
pub fn paint_sides<S: Find, A: Allocator + Copy>(
    alloc: A,
    first: ObjectId,
    others: &[ObjectId],
    graph: &mut Graph<S, Commit<Flags, A>, A>,
) -> Result<Candidates<A>, Error>
    // Among `firsts` is each commit that `first` reaches and none of `others` does, and only commits
    // that `first` reaches.
    ensures firsts { IfOk result (λ r.
        CoversSide (S.history graph.old.source) (first ∷ []) others.now r.firsts.items) }

    // Among `seconds` is each commit that one of `others` reaches and `first` does not, and only
    // commits that one of `others` reaches.
    ensures seconds { IfOk result (λ r.
        CoversSide (S.history graph.old.source) others.now (first ∷ []) r.seconds.items) }

    // Also after an error, the history is unchanged, and the graph keeps each commit that it holds.
    // After a source error, which has one of two texts, the fault count is one more, up to
    // `u64::MAX`. Otherwise it is unchanged.
    ensures after { AfterCall S.history S.fault_count graph.old graph.new result }
{
    let (seen, pops) = popped(alloc, first, others, graph)?;
    let ids = seen.as_slice();
    Ok(Candidates {
        firsts: firsts_of(alloc, ids, graph)?,
        seconds: seconds_of(alloc, ids, graph)?,
        pops,
    })
}
