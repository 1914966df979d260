//! Hands marks from commit to commit.

ghost use Rattle.std.specs.Prelude.{◌≡◌, ◌==◌, ◌<◌, ◌+◌, ◌∷◌, ◌++◌, [], OnOk, IfOk, IsTrue, not, is_some, cond, false};
ghost use Rattle.std.specs.Option.{unwrap_or};
ghost use Rattle.gix_base.specs.declared.hash.ObjectId.{ObjectId};
ghost use Rattle.gix_revwalk.specs.Data.{mark_at};
ghost use Rattle.gix_revwalk.specs.Faults.{is_source_fault};
ghost use Rattle.gix_revwalk.specs.Graph.{held_len, held_ids};
ghost use Rattle.gix_revwalk.specs.GraphAfter.{GraphAfter};
ghost use Rattle.gix_revwalk.specs.History.{Has, entry_at, parents_in, generation_of, is_one_of};
ghost use Rattle.gix_revwalk.specs.Number.{place_in};
ghost use Rattle.gix_revwalk.specs.Walks.{HoldsMore};
ghost use Rattle.gix_merge_base.specs.Marks.{marks_of, joined as joined_marks};
ghost use Rattle.gix_merge_base.specs.PaintQueue.{id_at, ids_at, AreIn, marks_at, queued_ids, mark_or, no_mark};
ghost use Rattle.gix_resolve.specs.ReachSides.{hides, Gives};
ghost use Rattle.gix_resolve.specs.ReachWalk.{IsRight, SameSides, Opens, Reopens, Enters};

use crate::reach::front::Front;
use crate::reach::sides::{is_full, is_hidden, joined};
use crate::reach::walk::Walk;
use bitflags::Flags as BitFlags;
use gix_revision::graph::{Commit, Error, Find, Graph};
use gix_revision::merge_base::Flags;
use gix_revwalk::numbers::{self, Mark, Number};
use std::alloc::{AllocError, Allocator};

/// Returns the mark, or the empty mark if there is none.
#[inline(always)]
fn mark_in(known: Option<Mark<Flags>>) -> Mark<Flags>
    ensures { result ≡ unwrap_or known no_mark }
{
    match known {
        Some(mark) => mark,
        None => Mark {
            marks: Flags::empty(),
            queued: 0,
        },
    }
}

/// Returns the mark that the walk gave a commit, or the empty mark if it gave none.
#[inline(always)]
pub(crate) fn mark_of<S: Find, A: Allocator + Copy>(
    graph: &Graph<S, Commit<Flags, A>, A>,
    number: Number,
) -> Mark<Flags>
    requires { place_in number < held_len graph.now }
    ensures { result ≡ mark_or graph.now (id_at graph.now (place_in number)) }
{
    mark_in(numbers::mark_of(graph, number))
}

/// Returns the generation number of a commit. A missing one counts as infinity.
#[inline(always)]
fn generation_at<S: Find, A: Allocator + Copy>(
    graph: &Graph<S, Commit<Flags, A>, A>,
    number: Number,
) -> u32
    requires { place_in number < held_len graph.now }
    ensures { result ≡ generation_of (S.history graph.now.source) (id_at graph.now (place_in number)) }
{
    numbers::value(graph, number)
        .generation()
        .unwrap_or(u32::MAX)
}

/// Returns the time of a commit.
pub(crate) fn time_at<S: Find, A: Allocator + Copy>(
    graph: &Graph<S, Commit<Flags, A>, A>,
    number: Number,
) -> i64
    requires { place_in number < held_len graph.now }
{
    numbers::value(graph, number).commit_time()
}

/// Opens a commit that is hidden.
///
/// If its generation number is infinite, it is inserted even if it is open already, ahead of those
/// that are not hidden.
#[inline(always)]
fn open_hidden<S: Find, A: Allocator + Copy>(
    number: Number,
    queued: u32,
    front: &mut Front<A>,
    graph: &Graph<S, Commit<Flags, A>, A>,
) -> Result<(), AllocError>
    requires { place_in number < held_len graph.now }
    ensures { OnOk result (Reopens queued
        (generation_of (S.history graph.now.source) (id_at graph.now (place_in number))) number front.old front.new) }
{
    let generation = generation_at(graph, number);
    if queued != 0 && generation != u32::MAX {
        return Ok(());
    }
    front.insert(true, generation, number)
}

/// Opens a commit that is not hidden, unless it is open already.
fn open_shown<S: Find, A: Allocator + Copy>(
    number: Number,
    queued: u32,
    front: &mut Front<A>,
    graph: &Graph<S, Commit<Flags, A>, A>,
) -> Result<(), AllocError>
    requires { place_in number < held_len graph.now }
    ensures { OnOk result (Opens queued
        (generation_of (S.history graph.now.source) (id_at graph.now (place_in number))) number front.old front.new) }
{
    if queued != 0 {
        return Ok(());
    }
    front.insert(false, generation_at(graph, number), number)
}

/// Counts the open commits that are not hidden, after one that was queued `queued` times is opened.
fn unhidden_with(unhidden: usize, queued: u32) -> Result<usize, AllocError>
    ensures { IfOk result (λ k. k ≡ cond (queued == 0) (unhidden + 1) unhidden) }
{
    if queued != 0 {
        return Ok(unhidden);
    }
    // The count overflows only after memory is full.
    match unhidden.checked_add(1) {
        Some(more) => Ok(more),
        None => Err(AllocError),
    }
}

/// Adds a commit to those that the walk has met, if it had no mark.
fn meet<A: Allocator>(
    unmarked: bool,
    number: Number,
    met: &mut Vec<Number, A>,
) -> Result<(), AllocError>
    ensures { OnOk result (met.new.items
        ≡ cond unmarked (met.old.items ++ number ∷ []) met.old.items) }
{
    if !unmarked {
        return Ok(());
    }
    met.push(number)?;
    Ok(())
}

/// Adds marks to a commit that becomes hidden by them, and opens it.
#[inline(always)]
fn hide<S: Find, A: Allocator + Copy>(
    number: Number,
    old: Mark<Flags>,
    marks: Flags,
    walk: &mut Walk<A>,
    graph: &mut Graph<S, Commit<Flags, A>, A>,
) -> Result<(), AllocError>
    requires number { place_in number < held_len graph.old }
    requires had { old ≡ mark_or graph.old (id_at graph.old (place_in number)) }
    requires shown { hides walk.old.both (marks_of old.marks) ≡ false }
    requires hidden { IsTrue (hides walk.old.both (joined_marks (marks_of marks) (marks_of old.marks))) }
    requires right { IsRight (S.history graph.old.source) graph.old walk.old }
    ensures right { OnOk result (IsRight (S.history graph.old.source) graph.new walk.new) }
    ensures entered { OnOk result (Enters (marks_of marks) (id_at graph.old (place_in number))
        (marks_at graph.old) (queued_ids graph.old walk.old.front)
        (marks_at graph.new) (queued_ids graph.new walk.new.front)) }
    ensures sides { SameSides walk.old walk.new }
    ensures ids { held_ids graph.new ≡ held_ids graph.old }
    ensures source { graph.new.source ≡ graph.old.source }
{
    let new = joined(marks, old.marks);
    open_hidden(number, old.queued, &mut walk.front, graph)?;
    walk.unhidden = walk.unhidden.saturating_sub(old.queued as usize);
    let queued = old.queued;
    numbers::set_mark(graph, number, Mark { marks: new, queued });
    Ok(())
}

/// Adds marks to a commit that they do not hide, and opens it. A commit that had no mark is now
/// met.
#[inline(never)]
fn show<S: Find, A: Allocator + Copy>(
    number: Number,
    unmarked: bool,
    old: Mark<Flags>,
    marks: Flags,
    walk: &mut Walk<A>,
    graph: &mut Graph<S, Commit<Flags, A>, A>,
) -> Result<(), AllocError>
    requires number { place_in number < held_len graph.old }
    requires had { old ≡ mark_or graph.old (id_at graph.old (place_in number)) }
    requires unmarked { unmarked ≡ not (is_some (mark_at graph.old (id_at graph.old (place_in number)))) }
    requires before { hides walk.old.both (marks_of old.marks) ≡ false }
    requires shown { hides walk.old.both (joined_marks (marks_of marks) (marks_of old.marks)) ≡ false }
    requires right { IsRight (S.history graph.old.source) graph.old walk.old }
    ensures right { OnOk result (IsRight (S.history graph.old.source) graph.new walk.new) }
    ensures entered { OnOk result (Enters (marks_of marks) (id_at graph.old (place_in number))
        (marks_at graph.old) (queued_ids graph.old walk.old.front)
        (marks_at graph.new) (queued_ids graph.new walk.new.front)) }
    ensures sides { SameSides walk.old walk.new }
    ensures ids { held_ids graph.new ≡ held_ids graph.old }
    ensures source { graph.new.source ≡ graph.old.source }
{
    let new = joined(marks, old.marks);
    open_shown(number, old.queued, &mut walk.front, graph)?;
    walk.unhidden = unhidden_with(walk.unhidden, old.queued)?;
    meet(unmarked, number, &mut walk.met)?;
    let queued = old.queued.max(1);
    numbers::set_mark(graph, number, Mark { marks: new, queued });
    Ok(())
}

/// Hands marks to a commit, and opens it if it lacked one of them. A hidden commit needs none.
#[inline(always)]
pub(crate) fn hand<S: Find, A: Allocator + Copy>(
    number: Number,
    marks: Flags,
    walk: &mut Walk<A>,
    graph: &mut Graph<S, Commit<Flags, A>, A>,
) -> Result<(), AllocError>
    requires number { place_in number < held_len graph.old }
    requires right { IsRight (S.history graph.old.source) graph.old walk.old }
    requires has { Has (S.history graph.old.source) (id_at graph.old (place_in number)) }
    ensures right { OnOk result (IsRight (S.history graph.old.source) graph.new walk.new) }
    ensures handed { OnOk result (Gives (S.history graph.old.source) walk.old.both (marks_of marks)
        (id_at graph.old (place_in number) ∷ [])
        (marks_at graph.old) (queued_ids graph.old walk.old.front)
        (marks_at graph.new) (queued_ids graph.new walk.new.front)) }
    ensures sides { SameSides walk.old walk.new }
    ensures ids { held_ids graph.new ≡ held_ids graph.old }
    ensures source { graph.new.source ≡ graph.old.source }
{
    let known = numbers::mark_of(graph, number);
    let old = mark_in(known);
    if is_full(walk.both, old.marks, marks) {
        return Ok(());
    }
    if is_hidden(walk.both, joined(marks, old.marks)) {
        hide(number, old, marks, walk, graph)?;
        return Ok(());
    }
    show(number, known.is_none(), old, marks, walk, graph)?;
    Ok(())
}

/// Hands marks to each of the commits.
pub(crate) fn hand_all<S: Find, A: Allocator + Copy>(
    numbers: &[Number],
    marks: Flags,
    walk: &mut Walk<A>,
    graph: &mut Graph<S, Commit<Flags, A>, A>,
) -> Result<(), AllocError>
    requires numbers { AreIn graph.old numbers.now }
    requires right { IsRight (S.history graph.old.source) graph.old walk.old }
    requires has { (c : ObjectId) → IsTrue (is_one_of (ids_at graph.old numbers.now) c)
        → Has (S.history graph.old.source) c }
    ensures right { OnOk result (IsRight (S.history graph.old.source) graph.new walk.new) }
    ensures handed { OnOk result (Gives (S.history graph.old.source) walk.old.both (marks_of marks)
        (ids_at graph.old numbers.now)
        (marks_at graph.old) (queued_ids graph.old walk.old.front)
        (marks_at graph.new) (queued_ids graph.new walk.new.front)) }
    ensures sides { SameSides walk.old walk.new }
    ensures ids { held_ids graph.new ≡ held_ids graph.old }
    ensures source { graph.new.source ≡ graph.old.source }
{
    for number in numbers {
        hand(*number, marks, walk, graph)?;
    }
    Ok(())
}

/// Hands marks to those parents of a commit that the source has. `into` is room for their numbers.
pub(crate) fn hand_parents<S: Find, A: Allocator + Copy>(
    alloc: A,
    number: Number,
    marks: Flags,
    into: &mut Vec<Number, A>,
    walk: &mut Walk<A>,
    graph: &mut Graph<S, Commit<Flags, A>, A>,
) -> Result<(), Error>
    requires number { place_in number < held_len graph.old }
    requires right { IsRight (S.history graph.old.source) graph.old walk.old }
    ensures right { OnOk result (IsRight (S.history graph.old.source) graph.new walk.new) }
    ensures handed { OnOk result (Gives (S.history graph.old.source) walk.old.both (marks_of marks)
        (parents_in (entry_at (S.history graph.old.source) (id_at graph.old (place_in number))))
        (marks_at graph.old) (queued_ids graph.old walk.old.front)
        (marks_at graph.new) (queued_ids graph.new walk.new.front)) }
    ensures sides { OnOk result (SameSides walk.old walk.new) }
    ensures taken { HoldsMore (S.history graph.old.source)
        (parents_in (entry_at (S.history graph.old.source) (id_at graph.old (place_in number))))
        graph.old graph.new }
    ensures after { GraphAfter S.history S.fault_count is_source_fault graph.old graph.new result }
{
    numbers::known_parents(graph, alloc, number, Flags::empty(), into)?;
    match hand_all(into, marks, walk, graph) {
        Ok(()) => Ok(()),
        Err(AllocError) => Err(Error::OutOfMemory),
    }
}
