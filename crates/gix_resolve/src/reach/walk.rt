//! Walks a history from two sides.
//!
//! Each commit has the marks of the sides that reach it. It is open while its parents may lack one
//! of them. The walk takes open commits by falling generation number. It ends when no open commit
//! can be wanted, and each open commit has a smaller generation number than every commit that was
//! not hidden when it was taken. If no generation number rises from child to parent, no wanted
//! commit lies below them.
//!
//! # Algorithm
//!
//! The two-sided walk serves `reachable`, `count_reachable` and `ahead_behind`:
//!
//! 1. Mark the commits where each side begins. A commit is *open* while its parents may lack a
//!    mark.
//! 2. A commit is *hidden* once no further mark can make it wanted: the second side reaches it or,
//!    if both sides are wanted, both do. It needs no further mark.
//! 3. Take an open commit of the greatest generation number (`reach/front.rt`), and mark its
//!    parents.
//! 4. Stop when all open commits are hidden and each has a smaller generation number than any
//!    commit that was taken while it was not hidden.
//! 5. List or count the met commits that have the wanted marks.
//!
//! The plain walk does the same whatever the source knows. Without generation numbers, the
//! two-sided walk goes to the roots:
//!
//! - It takes hidden commits first. Most of what both sides reach is then hidden by its first mark,
//!   is not listed as met, and is visited once.
//! - Other commits come in the order in which they were met. The commits where the first side
//!   begins wait until what the second side reaches is as old. `ahead_behind` makes the newer
//!   commit the second side.
//! - What one side reaches before the walk knows that both do is visited twice.

ghost use Rattle.std.specs.Prelude.{◌≡◌, ◌<◌, ◌∷◌, ◌++◌, [], OnOk, IfOk, IsNone, IsSome, IfSome};
ghost use Rattle.gix_base.specs.declared.hash.ObjectId.{ObjectId};
ghost use Rattle.gix_revwalk.specs.Faults.{is_source_fault};
ghost use Rattle.gix_revwalk.specs.Graph.{held_len, held_ids};
ghost use Rattle.gix_revwalk.specs.GraphAfter.{GraphAfter};
ghost use Rattle.gix_revwalk.specs.History.{IsAncestorOfOne};
ghost use Rattle.gix_revwalk.specs.Number.{place_in};
ghost use Rattle.gix_revwalk.specs.Walks.{HoldsMore};
ghost use Rattle.gix_merge_base.specs.Marks.{marks_of};
ghost use Rattle.gix_merge_base.specs.PaintQueue.{id_at, AreHeld, marks_at, queued_ids};
ghost use Rattle.gix_resolve.specs.ReachSides.{Gives, Walked, IsOver, Takes, Sees};
ghost use Rattle.gix_resolve.specs.ReachWalk.{AreMet, IsRight, SameSides, with_open};
ghost use Rattle.gix_resolve.specs.Taken.{TakesOnly};

use crate::reach::front::Front;
use crate::reach::hand::{hand, hand_parents, mark_of, time_at};
use crate::reach::sides::is_hidden;
use bitflags::Flags as BitFlags;
use gix_revision::graph::{Commit, Error, Find, Graph};
use gix_revision::hash::ObjectId;
use gix_revision::merge_base::Flags;
use gix_revwalk::numbers::{self, Mark, Number};
use std::alloc::{AllocError, Allocator};

/// A number that is greater than any generation number.
const MORE_THAN_ANY: u64 = 0x1_0000_0000;

/// The state of a walk from two sides, apart from the marks.
#[derive(Drop)]
pub(crate) struct Walk<A: Allocator> {
    /// Whether what only the second side reaches is wanted too.
    pub(crate) both: bool,
    /// The commits that have a mark and were not hidden by their first, in the order of the walk.
    pub(crate) met: Vec<Number, A>,
    /// The open commits: their parents may lack one of their marks.
    pub(crate) front: Front<A>,
    /// The number of open commits that are not hidden.
    pub(crate) unhidden: usize,
    /// The least generation number of those that were taken while they were not hidden. It is
    /// greater than any generation number if there are none.
    pub(crate) least: u64,
}

/// Gives the marks of a side to an id at which it begins, if the source has it.
fn begin<S: Find, A: Allocator + Copy>(
    alloc: A,
    id: ObjectId,
    marks: Flags,
    walk: &mut Walk<A>,
    graph: &mut Graph<S, Commit<Flags, A>, A>,
) -> Result<(), Error>
    requires { IsRight (S.history graph.old.source) graph.old walk.old }
    ensures right { OnOk result (IsRight (S.history graph.old.source) graph.new walk.new) }
    ensures handed { OnOk result (Gives (S.history graph.old.source) walk.old.both (marks_of marks)
        (id ∷ [])
        (marks_at graph.old) (queued_ids graph.old walk.old.front)
        (marks_at graph.new) (queued_ids graph.new walk.new.front)) }
    ensures sides { OnOk result (SameSides walk.old walk.new) }
    ensures taken { HoldsMore (S.history graph.old.source) (id ∷ []) graph.old graph.new }
    ensures after { GraphAfter S.history S.fault_count is_source_fault graph.old graph.new result }
{
    let Some(number) = numbers::take(graph, alloc, id, Flags::empty())? else {
        return Ok(());
    };
    match hand(number, marks, walk, graph) {
        Ok(()) => Ok(()),
        Err(AllocError) => Err(Error::OutOfMemory),
    }
}

/// Gives the marks of a side to the ids at which it begins.
fn begin_all<S: Find, A: Allocator + Copy>(
    alloc: A,
    ids: &[ObjectId],
    marks: Flags,
    walk: &mut Walk<A>,
    graph: &mut Graph<S, Commit<Flags, A>, A>,
) -> Result<(), Error>
    requires { IsRight (S.history graph.old.source) graph.old walk.old }
    ensures right { OnOk result (IsRight (S.history graph.old.source) graph.new walk.new) }
    ensures handed { OnOk result (Gives (S.history graph.old.source) walk.old.both (marks_of marks)
        ids.now
        (marks_at graph.old) (queued_ids graph.old walk.old.front)
        (marks_at graph.new) (queued_ids graph.new walk.new.front)) }
    ensures sides { OnOk result (SameSides walk.old walk.new) }
    ensures taken { HoldsMore (S.history graph.old.source) ids.now graph.old graph.new }
    ensures after { GraphAfter S.history S.fault_count is_source_fault graph.old graph.new result }
{
    for id in ids {
        begin(alloc, *id, marks, walk, graph)?;
    }
    Ok(())
}

/// Gives each of the two sides its marks. Nothing is marked before.
///
/// If no generation numbers are known, the commits at which the first side begins wait until what
/// the second side reaches is as old.
fn begin_both<S: Find, A: Allocator + Copy>(
    alloc: A,
    first: &[ObjectId],
    second: &[ObjectId],
    walk: &mut Walk<A>,
    graph: &mut Graph<S, Commit<Flags, A>, A>,
) -> Result<(), Error>
    requires right { IsRight (S.history graph.old.source) graph.old walk.old }
    requires walked { Walked (S.history graph.old.source) [] [] walk.old.both
        (marks_at graph.old) (queued_ids graph.old walk.old.front) walk.old.least }
    ensures right { OnOk result (IsRight (S.history graph.old.source) graph.new walk.new) }
    ensures walked { OnOk result (Walked (S.history graph.old.source) first.now second.now
        walk.old.both (marks_at graph.new) (queued_ids graph.new walk.new.front) walk.old.least) }
    ensures sides { OnOk result (SameSides walk.old walk.new) }
    ensures taken { TakesOnly (IsAncestorOfOne (S.history graph.old.source)
        (first.now ++ second.now)) graph.old graph.new }
    ensures after { GraphAfter S.history S.fault_count is_source_fault graph.old graph.new result }
{
    begin_all(alloc, first, Flags::COMMIT1, walk, graph)?;
    walk.front.hold();
    begin_all(alloc, second, Flags::COMMIT2, walk, graph)
}

/// Begins a walk from two sides.
fn start<S: Find, A: Allocator + Copy>(
    alloc: A,
    first: &[ObjectId],
    second: &[ObjectId],
    both: bool,
    graph: &mut Graph<S, Commit<Flags, A>, A>,
) -> Result<Walk<A>, Error>
    ensures right { IfOk result (λ w. IsRight (S.history graph.old.source) graph.new w) }
    ensures walked { IfOk result (λ w. Walked (S.history graph.old.source) first.now second.now both
        (marks_at graph.new) (queued_ids graph.new w.front) w.least) }
    ensures both { IfOk result (λ w. w.both ≡ both) }
    ensures taken { TakesOnly (IsAncestorOfOne (S.history graph.old.source)
        (first.now ++ second.now)) graph.old graph.new }
    ensures after { GraphAfter S.history S.fault_count is_source_fault graph.old graph.new result }
{
    numbers::begin_walk(graph);
    let mut walk = Walk {
        both,
        met: Vec::new(alloc),
        front: Front::new(alloc),
        unhidden: 0,
        least: MORE_THAN_ANY,
    };
    begin_both(alloc, first, second, &mut walk, graph)?;
    Ok(walk)
}

/// Lets the waiting commits leave first, once a taken commit is no newer than the first of them.
fn release<S: Find, A: Allocator + Copy>(
    number: Number,
    front: &mut Front<A>,
    graph: &Graph<S, Commit<Flags, A>, A>,
)
    requires number { place_in number < held_len graph.now }
    requires held { AreHeld graph.now front.old }
    ensures { front.new ≡ front.old }
{
    let Some(other) = front.first_waiting() else {
        return;
    };
    if time_at(graph, other) < time_at(graph, number) {
        return;
    }
    front.release();
}

/// Settles a commit that has just left the open ones, and returns its marks.
fn leave<S: Find, A: Allocator + Copy>(
    number: Number,
    generation: u64,
    walk: &mut Walk<A>,
    graph: &mut Graph<S, Commit<Flags, A>, A>,
) -> Flags
    requires { IsRight (S.history graph.old.source) graph.old
        (with_open generation number walk.old) }
    ensures taken { Takes (S.history graph.old.source) walk.old.both
        (id_at graph.old (place_in number)) (marks_at graph.old)
        (queued_ids graph.old ((generation, number) ∷ walk.old.front)) walk.old.least
        (queued_ids graph.new walk.new.front) walk.new.least }
    ensures right { IsRight (S.history graph.old.source) graph.new walk.new }
    ensures had { marks_of result ≡ marks_at graph.old (id_at graph.old (place_in number)) }
    ensures marks { (c : ObjectId) → marks_at graph.new c ≡ marks_at graph.old c }
    ensures both { walk.new.both ≡ walk.old.both }
    ensures ids { held_ids graph.new ≡ held_ids graph.old }
    ensures source { graph.new.source ≡ graph.old.source }
{
    let old = mark_of(graph, number);
    if is_hidden(walk.both, old.marks) {
        return old.marks;
    }
    walk.unhidden = walk.unhidden.saturating_sub(1);
    walk.least = walk.least.min(generation);
    let queued = old.queued.saturating_sub(1);
    numbers::set_mark(
        graph,
        number,
        Mark {
            marks: old.marks,
            queued,
        },
    );
    release(number, &mut walk.front, graph);
    old.marks
}

/// Takes an open commit with the greatest generation number, and its marks.
///
/// The answer is `None` if the walk is over.
fn next<S: Find, A: Allocator + Copy>(
    walk: &mut Walk<A>,
    graph: &mut Graph<S, Commit<Flags, A>, A>,
) -> Option<(Number, Flags)>
    requires { IsRight (S.history graph.old.source) graph.old walk.old }
    ensures over { IsNone result → IsOver (S.history graph.old.source) walk.old.both
        (marks_at graph.old) (queued_ids graph.old walk.old.front) walk.old.least }
    ensures taken { IfSome result (λ r. Takes (S.history graph.old.source) walk.old.both
        (id_at graph.old (place_in r.0)) (marks_at graph.old)
        (queued_ids graph.old walk.old.front) walk.old.least
        (queued_ids graph.new walk.new.front) walk.new.least) }
    ensures right { IsSome result → IsRight (S.history graph.old.source) graph.new walk.new }
    ensures inside { IfSome result (λ r. place_in r.0 < held_len graph.new) }
    ensures had { IfSome result (λ r. marks_of r.1
        ≡ marks_at graph.old (id_at graph.old (place_in r.0))) }
    ensures marks { (c : ObjectId) → marks_at graph.new c ≡ marks_at graph.old c }
    ensures marked { AreMet walk.new.both graph.new walk.new.met.items }
    ensures both { walk.new.both ≡ walk.old.both }
    ensures ids { held_ids graph.new ≡ held_ids graph.old }
    ensures source { graph.new.source ≡ graph.old.source }
{
    let (generation, number) = walk.front.pop()?;
    let generation = u64::from(generation);
    if walk.unhidden == 0 && generation < walk.least {
        return None;
    }
    Some((number, leave(number, generation, walk, graph)))
}

/// Walks from two sides until no wanted commit can follow, and returns the walk.
///
/// The walk has met each commit that is wanted.
pub(crate) fn follow<S: Find, A: Allocator + Copy>(
    alloc: A,
    first: &[ObjectId],
    second: &[ObjectId],
    both: bool,
    graph: &mut Graph<S, Commit<Flags, A>, A>,
) -> Result<Walk<A>, Error>
    ensures sees { OnOk result (Sees (S.history graph.old.source) first.now second.now both
        (marks_at graph.new)) }
    ensures met { IfOk result (λ w. AreMet both graph.new w.met.items) }
    ensures taken { TakesOnly (IsAncestorOfOne (S.history graph.old.source)
        (first.now ++ second.now)) graph.old graph.new }
    ensures after { GraphAfter S.history S.fault_count is_source_fault graph.old graph.new result }
{
    let mut walk = start(alloc, first, second, both, graph)?;
    let mut into = Vec::new(alloc);
    while let Some((number, marks)) = next(&mut walk, graph) {
        hand_parents(alloc, number, marks, &mut into, &mut walk, graph)?;
    }
    Ok(walk)
}
