//! Loads the commits that a walk meets.

ghost use Rattle.std.specs.Prelude.{◌≡◌, ◌&&◌, ◌++◌, ◌∷◌, [], IfOk, IfSome, OnErr, OnOk, Some, None, is_some, cond, false, map, min};
ghost use Rattle.gix_revwalk.specs.Followed.{followed};
ghost use Rattle.gix_revwalk.specs.Pasts.{link_id};
ghost use Rattle.gix_revwalk.specs.History.{History, entry_at, parents_in, same_id};
ghost use Rattle.gix_revwalk.specs.Graph.{held_at, held_ids};
ghost use Rattle.gix_revwalk.specs.Noted.{noted_at};
ghost use Rattle.gix_revwalk.specs.Numbers.{number_at};
ghost use Rattle.std.specs.Option.{option_map};
ghost use Rattle.gix_base.specs.declared.hash.ObjectId.{ObjectId};
ghost use Rattle.gix_describe.specs.Asks.{Asks, IsHandRefused};
ghost use Rattle.gix_describe.specs.DescribeRefusals.{refusal};
ghost use Rattle.gix_describe.specs.HandRefusals.{hand_refusal};
ghost use Rattle.gix_describe.specs.Handing.{IsMet};
ghost use Rattle.gix_describe.specs.Numbered.{IsNumbered, KeepsNumbers};

use gix_base::error::Message;
use gix_base::hash::ObjectId;
use gix_revwalk::graph::{self, Find, Graph};
use gix_revwalk::numbers::{self, Link, Number};
use std::alloc::Allocator;

/// A commit that the walk has met: its id, its number in the graph, and a guess at its spot there.
#[derive(Clone, Copy)]
pub(crate) struct Met {
    pub(crate) id: ObjectId,
    pub(crate) number: Number,
    pub(crate) spot: u32,
}

/// Returns a guess at a spot, in 32 bits.
#[inline(always)]
fn guess_at(spot: usize) -> u32
    ensures { result ≡ min spot 4294967295 }
{
    spot.min(u32::MAX as usize) as u32
}

/// Returns the error of a look-up that was made for a child.
fn refused_for(error: graph::Error, child: ObjectId) -> Message
    ensures { result ≡ hand_refusal child error }
{
    match error {
        graph::Error::Source => Message::ParentsOf(child),
        graph::Error::OutOfMemory => Message::OutOfMemory,
    }
}

/// Asks the source for the time and the spot of an id, on behalf of a child.
fn asked_for<S: Find, A: Allocator + Copy>(
    alloc: A,
    id: ObjectId,
    child: ObjectId,
    graph: &mut Graph<S, u32, A>,
) -> Result<Option<(i64, usize)>, Message>
    ensures found { IfOk result (λ r. option_map (λ t. t.0) r
        ≡ option_map (λ e. e.time) (entry_at (S.history graph.old.source) id)) }
    ensures held { graph.new.held ≡ graph.old.held }
    ensures marked { graph.new.marked ≡ graph.old.marked }
    ensures asked { (h : History) → Asks S.history S.fault_count (IsHandRefused h child)
        graph.old.source graph.new.source (refusal result) }
{
    match numbers::ask_time(graph, alloc, id) {
        Ok(found) => Ok(found),
        Err(error) => Err(refused_for(error, child)),
    }
}

/// Replaces the content of `row` by all parents of a commit.
#[inline(always)]
fn parents_for<S: Find, A: Allocator + Copy>(
    alloc: A,
    met: &Met,
    row: &mut Vec<Link, A>,
    graph: &mut Graph<S, u32, A>,
) -> Result<(), Message>
    ensures parents { OnOk result (map link_id row.new.items
        ≡ parents_in (entry_at (S.history graph.old.source) met.now.id)) }
    ensures held { graph.new.held ≡ graph.old.held }
    ensures marked { graph.new.marked ≡ graph.old.marked }
    ensures asked { (h : History) → Asks S.history S.fault_count (IsHandRefused h met.now.id)
        graph.old.source graph.new.source (refusal result) }
{
    match numbers::parents_near(graph, alloc, &met.id, met.spot as usize, row) {
        Ok(()) => Ok(()),
        Err(error) => Err(refused_for(error, met.id)),
    }
}

/// Replaces the content of `row` by the followed parents of a commit, also those that the source
/// does not have.
///
/// # Errors
///
/// - [`Message::ParentsOf`] of the commit: the source failed.
/// - [`Message::OutOfMemory`]: an allocation failed.
#[inline(always)]
pub(crate) fn follow<S: Find, A: Allocator + Copy>(
    alloc: A,
    met: &Met,
    first_parent: bool,
    row: &mut Vec<Link, A>,
    graph: &mut Graph<S, u32, A>,
) -> Result<(), Message>
    ensures parents { OnOk result (map link_id row.new.items
        ≡ parents_in (entry_at (followed first_parent (S.history graph.old.source)) met.now.id)) }
    ensures held { graph.new.held ≡ graph.old.held }
    ensures marked { graph.new.marked ≡ graph.old.marked }
    ensures asked { (h : History) → Asks S.history S.fault_count (IsHandRefused h met.now.id)
        graph.old.source graph.new.source (refusal result) }
{
    parents_for(alloc, met, row, graph)?;
    if first_parent {
        row.truncate(1);
    }
    Ok(())
}

/// Loads a commit that the source has not returned before, as [`take_in`] does.
fn ask_in<S: Find, A: Allocator + Copy>(
    alloc: A,
    id: ObjectId,
    child: ObjectId,
    marks: u32,
    first_parent: bool,
    graph: &mut Graph<S, u32, A>,
) -> Result<Option<(i64, Met)>, Message>
    requires new { number_at graph.old id ≡ None }
    ensures has { IfOk result (λ found. is_some found
        ≡ is_some (entry_at (followed first_parent (S.history graph.old.source)) id)) }
    ensures found { IfOk result (λ found. IfSome found
        (IsMet (followed first_parent (S.history graph.old.source)) id)) }
    ensures held { IfOk result (λ found. (q : ObjectId) → held_at graph.new q
        ≡ cond (is_some found && same_id id q) (Some marks) (held_at graph.old q)) }
    ensures ids { IfOk result (λ found. held_ids graph.new
        ≡ cond (is_some found) (held_ids graph.old ++ id ∷ []) (held_ids graph.old)) }
    ensures number { IfOk result (λ found. IfSome found (λ m. IsNumbered graph.new m.1)) }
    ensures numbers { OnOk result (KeepsNumbers graph.old graph.new) }
    ensures noted { OnOk result ((q : ObjectId) → noted_at graph.new q ≡ noted_at graph.old q) }
    ensures unnoted { IfOk result (λ found. IfSome found
        (λ _. (q : ObjectId) → held_at graph.old q ≡ None → noted_at graph.new q ≡ false)) }
    ensures kept { OnErr result (graph.new.held ≡ graph.old.held) }
    ensures asked { Asks S.history S.fault_count
        (IsHandRefused (followed first_parent (S.history graph.old.source)) child)
        graph.old.source graph.new.source (refusal result) }
{
    let Some((time, spot)) = asked_for(alloc, id, child, graph)? else {
        return Ok(None);
    };
    let Ok((number, spot)) = numbers::add_near(graph, id, spot, marks) else {
        return Err(Message::OutOfMemory);
    };
    let spot = guess_at(spot);
    Ok(Some((time, Met { id, number, spot })))
}

/// Loads a commit that is not held, with these marks, and returns it with its time; `None` if the
/// source does not have it.
///
/// If the source has not returned it before, it is asked for on behalf of a child, or of the start
/// itself.
///
/// # Errors
///
/// - [`Message::ParentsOf`] of the child: the source failed.
/// - [`Message::OutOfMemory`]: an allocation failed.
#[inline(always)]
pub(crate) fn take_in<S: Find, A: Allocator + Copy>(
    alloc: A,
    id: &ObjectId,
    guess: usize,
    child: &ObjectId,
    marks: u32,
    first_parent: bool,
    graph: &mut Graph<S, u32, A>,
) -> Result<Option<(i64, Met)>, Message>
    requires new { number_at graph.old id.now ≡ None }
    ensures has { IfOk result (λ found. is_some found
        ≡ is_some (entry_at (followed first_parent (S.history graph.old.source)) id.now)) }
    ensures found { IfOk result (λ found. IfSome found
        (IsMet (followed first_parent (S.history graph.old.source)) id.now)) }
    ensures held { IfOk result (λ found. (q : ObjectId) → held_at graph.new q
        ≡ cond (is_some found && same_id id.now q) (Some marks) (held_at graph.old q)) }
    ensures ids { IfOk result (λ found. held_ids graph.new
        ≡ cond (is_some found) (held_ids graph.old ++ id.now ∷ []) (held_ids graph.old)) }
    ensures number { IfOk result (λ found. IfSome found (λ m. IsNumbered graph.new m.1)) }
    ensures numbers { OnOk result (KeepsNumbers graph.old graph.new) }
    ensures noted { OnOk result ((q : ObjectId) → noted_at graph.new q ≡ noted_at graph.old q) }
    ensures unnoted { IfOk result (λ found. IfSome found
        (λ _. (q : ObjectId) → held_at graph.old q ≡ None → noted_at graph.new q ≡ false)) }
    ensures kept { OnErr result (graph.new.held ≡ graph.old.held) }
    ensures asked { Asks S.history S.fault_count
        (IsHandRefused (followed first_parent (S.history graph.old.source)) child.now)
        graph.old.source graph.new.source (refusal result) }
{
    let Ok(told) = numbers::hold_told(graph, *id, guess, marks) else {
        return Err(Message::OutOfMemory);
    };
    if let Some((time, number, spot)) = told {
        let spot = guess_at(spot);
        let met = Met {
            id: *id,
            number,
            spot,
        };
        return Ok(Some((time, met)));
    }
    ask_in(alloc, *id, *child, marks, first_parent, graph)
}
