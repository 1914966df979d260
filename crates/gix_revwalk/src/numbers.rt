//! Numbers of the ids that a graph holds, for walks.
//!
//! A look-up by number needs no hash, and the parents of a commit that was walked once are
//! remembered as numbers.
//!
//! A number names one held id of one graph, until that graph is cleared. Each id that is or was
//! held also has a *spot*, which stays the same after that. A spot is passed as a guess: a right
//! guess saves a look-up by hash, and a wrong one costs nothing more.

ghost use Rattle.std.specs.Prelude.{◌≡◌, ◌<◌, ◌||◌, List, [], ◌∷◌, ◌++◌, length, Some, None, IsTrue, IsOk, is_some, IfSome, IfOk, OnOk, OnErr, false, map};
ghost use Rattle.std.specs.Option.{option_map};
ghost use Rattle.gix_base.specs.declared.hash.ObjectId.{ObjectId};
ghost use Rattle.gix_revwalk.specs.Faults.{count_after, is_source_fault};
ghost use Rattle.gix_revwalk.specs.History.{entry_at, parents_in};
ghost use Rattle.gix_revwalk.specs.Graph.{held_at, held_len, held_ids};
ghost use Rattle.gix_revwalk.specs.Data.{TakesIn, SameData, len_after, mark_at, Marks};
ghost use Rattle.gix_revwalk.specs.Held.{entry_of};
ghost use Rattle.gix_revwalk.specs.Number.{place_in};
ghost use Rattle.gix_revwalk.specs.Pasts.{link_id};
ghost use Rattle.gix_revwalk.specs.Numbers.{number_at, named, value_at, item_at, Grows, Puts};
ghost use Rattle.gix_revwalk.specs.Walks.{HoldsMore};
ghost use Rattle.gix_revwalk.specs.Nodes.{unturned};
ghost use Rattle.gix_revwalk.specs.Noted.{noted_at};
ghost use Rattle.gix_revwalk.specs.History.{same_id};
ghost use Rattle.gix_revwalk.specs.Rows.{AreNumbers};

use crate::graph::{Commit, Error, Find, Graph, Held, Node, Row, SourceCommit};
use crate::past::is_same;
pub use crate::past::{Link, NOWHERE};
use gix_base::hash::ObjectId;
use std::alloc::{AllocError, Allocator};

/// The number of a held id.
#[derive(Clone, Copy, Debug, PartialEq, Eq)]
pub struct Number(u32);

impl Number {
    /// The number of no id.
    pub(crate) const UNUSED: Number = Number(u32::MAX);

    /// Returns the number of a place, or fails if there are no more numbers.
    #[inline(always)]
    pub(crate) fn at(place: usize) -> Result<Number, AllocError>
        ensures number { IfOk result (λ number. place_in number ≡ place) }
        ensures used { IfOk result (λ number. place_in number < 4294967295) }
    {
        if place >= u32::MAX as usize {
            return Err(AllocError);
        }
        match u32::try_from(place) {
            Ok(number) => Ok(Number(number)),
            Err(_) => Err(AllocError),
        }
    }

    /// Returns its place.
    #[inline(always)]
    pub(crate) fn place(&self) -> usize
        ensures { result ≡ place_in self.now }
    {
        self.0 as usize
    }
}

/// What a walk records for a commit: marks, and how many entries of its queue are this commit.
#[derive(Clone, Copy)]
pub struct Mark<D> {
    pub marks: D,
    pub queued: u32,
}

/// Asks the source for a commit, whether or not it is held. No id becomes held.
///
/// # Errors
///
/// - [`Error::Source`]: the source failed. Its [fault count](crate#fault-count) has grown by one,
///   or is `u64::MAX`.
/// - [`Error::OutOfMemory`]: an allocation failed.
///
/// The graph holds what it held.
pub fn ask<S: Find, T: Held, A: Allocator + Copy>(
    graph: &mut Graph<S, T, A>,
    alloc: A,
    id: ObjectId,
) -> Result<Option<SourceCommit<A>>, Error>
    // The same ids are held, with the same numbers and values, also after an error.
    ensures held { graph.new.held ≡ graph.old.held }

    // What the current walk has marked is unchanged, also after an error.
    ensures marked { graph.new.marked ≡ graph.old.marked }

    // The history is unchanged, also after an error.
    ensures history { S.history graph.new.source ≡ S.history graph.old.source }

    // The answer has the parents, the time and the generation number of the id's commit. The answer
    // is `None` exactly if the history does not have the commit.
    ensures found { IfOk result
        (λ found. option_map entry_of found ≡ entry_at (S.history graph.old.source) id) }

    // After the error `Source` the fault count is one more, or stays at the greatest `u64`.
    // Otherwise the count is unchanged.
    ensures count { S.fault_count graph.new.source
        ≡ count_after (is_source_fault result) (S.fault_count graph.old.source) }
{
    graph.ask(alloc, id)
}

/// Returns the number of an id; `None` if the id is not held.
pub fn number_of<S: Find, T: Held, A: Allocator>(
    graph: &Graph<S, T, A>,
    id: &ObjectId,
) -> Option<Number>
    // The answer is the number of the id. The answer is `None` exactly if the id is not held.
    ensures { option_map place_in result ≡ number_at graph.now id.now }
{
    number_near(graph, id, NOWHERE)
}

/// Returns the number of an id, by a guess at its spot; `None` if the id is not held.
#[inline(always)]
pub fn number_near<S: Find, T: Held, A: Allocator>(
    graph: &Graph<S, T, A>,
    id: &ObjectId,
    guess: usize,
) -> Option<Number>
    // The answer is the number of the id. The answer is `None` exactly if the id is not held.
    ensures { option_map place_in result ≡ number_at graph.now id.now }
{
    let Some(home) = graph.past.home(id, guess) else {
        return None;
    };
    let Some(node) = graph.nodes.get(home.place()) else {
        return None;
    };
    if is_same(&node.id, id) {
        Some(home)
    } else {
        None
    }
}

/// Returns the id of a number.
pub fn id_of<S: Find, T: Held, A: Allocator>(graph: &Graph<S, T, A>, number: Number) -> ObjectId
    // A held id has this number.
    requires { place_in number < held_len graph.now }

    // The answer is the id with this number.
    ensures named { named graph.now (place_in number) ≡ Some result }

    // This number is the number of the answer.
    ensures number { number_at graph.now result ≡ Some (place_in number) }
{
    graph.nodes[number.place()].id
}

/// Returns the value that is held under a number.
#[inline(always)]
pub fn value<S: Find, T: Held, A: Allocator>(graph: &Graph<S, T, A>, number: Number) -> &T
    // A held id has this number.
    requires { place_in number < held_len graph.now }

    // The answer is the value with this number.
    ensures value { value_at graph.now (place_in number) ≡ Some result.now }

    // The value agrees with what the history has for the id with this number.
    ensures agrees { (id : ObjectId) → named graph.now (place_in number) ≡ Some id
        → T.agrees result.now (entry_at (S.history graph.now.source) id) }
{
    &graph.nodes[number.place()].value
}

/// Appends a node that no walk has marked, and returns its number.
#[inline(always)]
fn push_node<T: Drop, A: Allocator>(
    nodes: &mut Vec<Node<T>, A>,
    id: ObjectId,
    value: T,
) -> Result<Number, AllocError>
    ensures number { IfOk result (λ n. place_in n ≡ length nodes.old.items) }
    ensures used { IfOk result (λ n. place_in n < 4294967295) }
    ensures nodes { OnOk result (nodes.new.items ≡ nodes.old.items
        ++ record { id = id; row = None; turn = 0; queued = 0; value = value } ∷ []) }
    ensures refused { OnErr result (nodes.new.items ≡ nodes.old.items) }
{
    let Ok(number) = Number::at(nodes.len()) else {
        return Err(AllocError);
    };
    let node = Node {
        id,
        row: None,
        turn: 0,
        queued: 0,
        value,
    };
    if nodes.push(node).is_err() {
        return Err(AllocError);
    }
    Ok(number)
}

/// Holds an id that is not held yet, whether or not the source has it, and returns its number.
///
/// This is the next number. No walk has marked the id.
///
/// # Errors
///
/// [`AllocError`]: an allocation failed, or there are no more numbers. The graph is then unchanged.
pub fn add<S: Find, T: Held, A: Allocator + Copy>(
    graph: &mut Graph<S, T, A>,
    id: ObjectId,
    value: T,
) -> Result<Number, AllocError>
    // The id is not held yet.
    requires new { number_at graph.old id ≡ None }

    // The value agrees with what the history has for the id.
    requires agrees { T.agrees value (entry_at (S.history graph.old.source) id) }

    // The source is unchanged, also after an error.
    ensures source { graph.new.source ≡ graph.old.source }

    // The answer is the next number: how many ids were held before the call.
    ensures number { IfOk result (λ n. place_in n ≡ held_len graph.old) }

    // After a success the id is held last, with this value. All other ids keep their numbers and
    // values.
    ensures held { OnOk result (graph.new.held ≡ graph.old.held ++ (id, value) ∷ []) }

    // After a success the current walk has not marked the id. The walk's marks of other ids are
    // unchanged.
    ensures marked { OnOk result (graph.new.marked ≡ graph.old.marked ++ (id, None) ∷ []) }

    // Before a successful call the current walk has noted only held ids.
    ensures unnoted { OnOk result
        ((q : ObjectId) → held_at graph.old q ≡ None → noted_at graph.old q ≡ false) }

    // After an error the graph is unchanged.
    ensures refused { OnErr result (graph.new ≡ graph.old) }
{
    match add_near(graph, id, NOWHERE, value) {
        Ok((number, _)) => Ok(number),
        Err(_) => Err(AllocError),
    }
}

/// Holds an id that is not held yet, by a guess at its spot, and returns its number and its spot.
///
/// Like [`add`], it does so whether or not the source has the id.
///
/// # Errors
///
/// Those of [`add`]. The graph is then unchanged.
pub fn add_near<S: Find, T: Held, A: Allocator + Copy>(
    graph: &mut Graph<S, T, A>,
    id: ObjectId,
    guess: usize,
    value: T,
) -> Result<(Number, usize), AllocError>
    // The id is not held yet.
    requires new { number_at graph.old id ≡ None }

    // The value agrees with what the history has for the id.
    requires agrees { T.agrees value (entry_at (S.history graph.old.source) id) }

    // The source is unchanged, also after an error.
    ensures source { graph.new.source ≡ graph.old.source }

    // The number in the answer is the next one: how many ids were held before the call.
    ensures number { IfOk result (λ n. place_in n.0 ≡ held_len graph.old) }

    // After a success the id is held last, with this value. All other ids keep their numbers and
    // values.
    ensures held { OnOk result (graph.new.held ≡ graph.old.held ++ (id, value) ∷ []) }

    // After a success the current walk has not marked the id. The walk's marks of other ids are
    // unchanged.
    ensures marked { OnOk result (graph.new.marked ≡ graph.old.marked ++ (id, None) ∷ []) }

    // Before a successful call the current walk has noted only held ids.
    ensures unnoted { OnOk result
        ((q : ObjectId) → held_at graph.old q ≡ None → noted_at graph.old q ≡ false) }

    // After an error the graph is unchanged.
    ensures refused { OnErr result (graph.new ≡ graph.old) }
{
    let Ok(number) = push_node(&mut graph.nodes, id, value) else {
        return Err(AllocError);
    };
    match graph.past.settle(id, guess, number) {
        Ok(spot) => Ok((number, spot)),
        Err(_) => {
            graph.nodes.pop();
            Err(AllocError)
        }
    }
}

/// Holds an id that is not held yet, if the source has returned its commit before.
///
/// Returns its time, its number and its spot. The answer is `None` if the source has not returned
/// its commit before; then nothing is added to the graph.
///
/// # Errors
///
/// Those of [`add`]. The graph is then unchanged.
#[inline(always)]
pub fn hold_told<S: Find, T: Held, A: Allocator + Copy>(
    graph: &mut Graph<S, T, A>,
    id: ObjectId,
    guess: usize,
    value: T,
) -> Result<Option<(i64, Number, usize)>, AllocError>
    // The id is not held yet.
    requires new { number_at graph.old id ≡ None }

    // The value agrees with what the history has for the id.
    requires agrees { T.agrees value (entry_at (S.history graph.old.source) id) }

    // The source is unchanged, also after an error.
    ensures source { graph.new.source ≡ graph.old.source }

    // The time in the answer is the time of the id's commit, which the history has.
    ensures time { IfOk result (λ r. IfSome r (λ t. Some t.0
        ≡ option_map (λ e. e.time) (entry_at (S.history graph.old.source) id))) }

    // The number in the answer is the next one: how many ids were held before the call.
    ensures number { IfOk result (λ r. IfSome r (λ t. place_in t.1 ≡ held_len graph.old)) }

    // After an answer other than `None` the id is held last, with this value. All other ids keep
    // their numbers and values.
    ensures held { IfOk result (λ r. IfSome r
        (λ _. graph.new.held ≡ graph.old.held ++ (id, value) ∷ [])) }

    // After an answer other than `None` the current walk has not marked the id. The walk's marks of
    // other ids are unchanged.
    ensures marked { IfOk result (λ r. IfSome r
        (λ _. graph.new.marked ≡ graph.old.marked ++ (id, None) ∷ [])) }

    // If the answer is not `None`, the current walk has noted only held ids before the call.
    ensures unnoted { IfOk result (λ r. IfSome r
        (λ _. (q : ObjectId) → held_at graph.old q ≡ None → noted_at graph.old q ≡ false)) }

    // After the answer `None` the graph is unchanged.
    ensures none { IfOk result (λ r. r ≡ None → graph.new ≡ graph.old) }

    // After an error the graph is unchanged.
    ensures refused { OnErr result (graph.new ≡ graph.old) }
{
    let Some((spot, time)) = graph.past.recall(&id, guess) else {
        return Ok(None);
    };
    let Ok(number) = push_node(&mut graph.nodes, id, value) else {
        return Err(AllocError);
    };
    graph.past.settle_at(id, spot, number);
    Ok(Some((time, number, spot)))
}

/// Remembers what the source returned for an id, and returns the spot of the id.
fn learn<S: Find, T: Held, A: Allocator + Copy>(
    graph: &mut Graph<S, T, A>,
    id: ObjectId,
    found: &SourceCommit<A>,
) -> Result<usize, AllocError>
    requires { entry_at (S.history graph.old.source) id ≡ Some (entry_of found.now) }
    ensures { graph.new ≡ graph.old }
{
    graph.past.learn(id, found.time, &found.parents)
}

/// Asks the source for the time of a commit, and returns it with the spot of the id.
///
/// What the source returns is remembered. The answer is `None` if the source does not have the
/// commit; then nothing is remembered.
///
/// # Errors
///
/// Those of [`ask`]; [`Error::OutOfMemory`] also if the commit could not be remembered.
pub fn ask_time<S: Find, T: Held, A: Allocator + Copy>(
    graph: &mut Graph<S, T, A>,
    alloc: A,
    id: ObjectId,
) -> Result<Option<(i64, usize)>, Error>
    // The same ids are held, with the same numbers and values, also after an error.
    ensures held { graph.new.held ≡ graph.old.held }

    // What the current walk has marked is unchanged, also after an error.
    ensures marked { graph.new.marked ≡ graph.old.marked }

    // The history is unchanged, also after an error.
    ensures history { S.history graph.new.source ≡ S.history graph.old.source }

    // The time in the answer is the time of the id's commit. The answer is `None` exactly if the
    // history does not have the commit.
    ensures found { IfOk result (λ r. option_map (λ t. t.0) r
        ≡ option_map (λ e. e.time) (entry_at (S.history graph.old.source) id)) }

    // After the error `Source` the fault count is one more, or stays at the greatest `u64`.
    // Otherwise the count is unchanged.
    ensures count { S.fault_count graph.new.source
        ≡ count_after (is_source_fault result) (S.fault_count graph.old.source) }
{
    match graph.ask(alloc, id) {
        Ok(Some(found)) => match learn(graph, id, &found) {
            Ok(spot) => Ok(Some((found.time, spot))),
            Err(_) => Err(Error::OutOfMemory),
        },
        Ok(None) => Ok(None),
        Err(error) => Err(error),
    }
}

/// Replaces what is in `into` by the parents of a commit, in order, each with a guess at its spot.
///
/// There are no parents if the source does not have the commit. The source is asked if it has not
/// returned the commit before.
///
/// # Errors
///
/// Those of [`ask`]; [`Error::OutOfMemory`] also if `into` could not grow.
#[inline(always)]
pub fn parents_near<S: Find, T: Held, A: Allocator + Copy>(
    graph: &mut Graph<S, T, A>,
    alloc: A,
    id: &ObjectId,
    guess: usize,
    into: &mut Vec<Link, A>,
) -> Result<(), Error>
    // The same ids are held, with the same numbers and values, also after an error.
    ensures held { graph.new.held ≡ graph.old.held }

    // What the current walk has marked is unchanged, also after an error.
    ensures marked { graph.new.marked ≡ graph.old.marked }

    // The history is unchanged, also after an error.
    ensures history { S.history graph.new.source ≡ S.history graph.old.source }

    // After a success `into` has the parents of the id's commit, in order. `into` is empty if the
    // history does not have the commit.
    ensures parents { OnOk result (map link_id into.new.items
        ≡ parents_in (entry_at (S.history graph.old.source) id.now)) }

    // After the error `Source` the fault count is one more, or stays at the greatest `u64`.
    // Otherwise the count is unchanged.
    ensures count { S.fault_count graph.new.source
        ≡ count_after (is_source_fault result) (S.fault_count graph.old.source) }
{
    match graph.past.parents_of(id, guess, into) {
        Ok(true) => Ok(()),
        Ok(false) => ask_parents(graph, alloc, *id, into),
        Err(_) => Err(Error::OutOfMemory),
    }
}

/// Asks the source for the parents of a commit, and appends them to `into`, which is empty.
fn ask_parents<S: Find, T: Held, A: Allocator + Copy>(
    graph: &mut Graph<S, T, A>,
    alloc: A,
    id: ObjectId,
    into: &mut Vec<Link, A>,
) -> Result<(), Error>
    requires { into.old.items ≡ [] }
    ensures held { graph.new.held ≡ graph.old.held }
    ensures marked { graph.new.marked ≡ graph.old.marked }
    ensures history { S.history graph.new.source ≡ S.history graph.old.source }
    ensures parents { OnOk result (map link_id into.new.items
        ≡ parents_in (entry_at (S.history graph.old.source) id)) }
    ensures count { S.fault_count graph.new.source
        ≡ count_after (is_source_fault result) (S.fault_count graph.old.source) }
{
    match graph.ask(alloc, id) {
        Ok(Some(found)) => match copy_parents(&found.parents, into) {
            Ok(()) => Ok(()),
            Err(_) => Err(Error::OutOfMemory),
        },
        Ok(None) => Ok(()),
        Err(error) => Err(error),
    }
}

/// Appends parents to `into`, which is empty, without guesses.
fn copy_parents<A: Allocator>(
    parents: &[ObjectId],
    into: &mut Vec<Link, A>,
) -> Result<(), AllocError>
    requires { into.old.items ≡ [] }
    ensures { OnOk result (map link_id into.new.items ≡ parents.now) }
{
    for parent in parents {
        let link = Link {
            id: *parent,
            spot: NOWHERE,
        };
        let Ok(()) = into.push(link) else {
            return Err(AllocError);
        };
    }
    Ok(())
}

/// Replaces the value of a held id in a graph of numbers, and returns the old value.
#[inline(always)]
pub fn put<S: Find, A: Allocator>(graph: &mut Graph<S, u32, A>, number: Number, value: u32) -> u32
    // A held id has this number.
    requires { place_in number < held_len graph.old }

    // The answer is the value with this number before the call.
    ensures old { value_at graph.old (place_in number) ≡ Some result }

    // The id with this number has `value`. The source, the ids, all other values and what the
    // current walk has marked are unchanged.
    ensures put { Puts graph.old (place_in number) value graph.new }
{
    let node = &mut graph.nodes[number.place()];
    let old = node.value;
    node.value = value;
    old
}

/// Notes a held id in the current walk. Its value is unchanged.
#[inline(always)]
pub fn note<S: Find, T: Held, A: Allocator>(graph: &mut Graph<S, T, A>, number: Number)
    // A held id has this number.
    requires { place_in number < held_len graph.old }

    // The source is unchanged.
    ensures source { graph.new.source ≡ graph.old.source }

    // The same ids are held, with the same numbers and values.
    ensures held { graph.new.held ≡ graph.old.held }

    // The current walk has noted exactly the id with this number and the ids that it had noted
    // before.
    ensures noted { (id : ObjectId) → named graph.old (place_in number) ≡ Some id
        → (q : ObjectId) → noted_at graph.new q ≡ (same_id id q || noted_at graph.old q) }
{
    let turn = graph.turn;
    let node = &mut graph.nodes[number.place()];
    node.queued = 0;
    node.turn = turn;
}

/// Returns whether the current walk has noted a held id.
#[inline(always)]
pub fn is_noted<S: Find, T: Held, A: Allocator>(graph: &Graph<S, T, A>, number: Number) -> bool
    // A held id has this number.
    requires { place_in number < held_len graph.now }

    // The answer is `true` exactly if the current walk has noted the id with this number.
    ensures { (id : ObjectId) → named graph.now (place_in number) ≡ Some id
        → result ≡ noted_at graph.now id }
{
    graph.nodes[number.place()].turn == graph.turn
}

/// Sets the turn of each node to 0.
fn forget_turns<T>(nodes: &mut [Node<T>])
    ensures { nodes.new ≡ map unturned nodes.old }
{
    for node in nodes.iter_mut() {
        node.turn = 0;
    }
}

/// Begins a walk, which has marked nothing yet. Held ids keep their data.
pub fn begin_walk<S: Find, D: Drop, A: Allocator>(graph: &mut Graph<S, Commit<D, A>, A>)
    // The source is unchanged.
    ensures source { graph.new.source ≡ graph.old.source }

    // The same ids are held, with the same numbers and values.
    ensures held { graph.new.held ≡ graph.old.held }

    // The current walk has recorded nothing for any id.
    ensures none { (q : ObjectId) → mark_at graph.new q ≡ None }
{
    if let Some(turn) = graph.turn.checked_add(1) {
        graph.turn = turn;
        return;
    }
    forget_turns(&mut graph.nodes);
    graph.turn = 1;
}

/// Returns what the current walk has recorded for a commit; `None` if it has recorded nothing.
pub fn mark_of<S: Find, D: Drop + Copy, A: Allocator>(
    graph: &Graph<S, Commit<D, A>, A>,
    number: Number,
) -> Option<Mark<D>>
    // If an id has this number, the answer is what the current walk has recorded for the id. The
    // answer is `None` if the walk has recorded nothing.
    ensures { (id : ObjectId) → named graph.now (place_in number) ≡ Some id
        → result ≡ mark_at graph.now id }
{
    let Some(node) = graph.nodes.get(number.place()) else {
        return None;
    };
    if node.turn != graph.turn {
        return None;
    }
    Some(Mark {
        marks: node.value.data,
        queued: node.queued,
    })
}

/// Records marks and a count of queue entries for a commit, in the current walk.
///
/// The marks are the data of the commit from then on.
pub fn set_mark<S: Find, D: Drop, A: Allocator>(
    graph: &mut Graph<S, Commit<D, A>, A>,
    number: Number,
    mark: Mark<D>,
)
    // A held id has this number.
    requires { place_in number < held_len graph.old }

    // The current walk has recorded `mark` for the id with this number, whose data is `mark.marks`.
    // The walk's records of other ids, the data of other ids, the held ids and the source are
    // unchanged.
    ensures { Marks graph.old (place_in number) mark graph.new }
{
    let turn = graph.turn;
    let node = &mut graph.nodes[number.place()];
    node.value.data = mark.marks;
    node.queued = mark.queued;
    node.turn = turn;
}

/// Returns the number of a held commit; `None` if the commit is not held.
fn known<S: Find, D: Drop, A: Allocator>(
    graph: &Graph<S, Commit<D, A>, A>,
    id: &ObjectId,
) -> Option<Number>
    ensures number { option_map place_in result ≡ number_at graph.now id.now }
    ensures has { IfSome result
        (λ _. IsTrue (is_some (entry_at (S.history graph.now.source) id.now))) }
    ensures ids { map (λ e. e.0) graph.now.marked ≡ held_ids graph.now }
{
    // A held commit agrees with the source.
    let _turn = graph.turn;
    number_of(graph, id)
}

/// Returns the number of a commit, and loads it from the source if the graph does not hold it yet.
///
/// A newly loaded commit gets the data `new`. The answer is `None` if the source does not have the
/// commit.
///
/// # Errors
///
/// Those of [`Graph::get_or_insert_full_commit`].
pub fn take<S: Find, D: Drop, A: Allocator + Copy>(
    graph: &mut Graph<S, Commit<D, A>, A>,
    alloc: A,
    id: ObjectId,
    new: D,
) -> Result<Option<Number>, Error>
    // If the id is held, the call succeeds, and the graph, with its source, is unchanged.
    ensures held { IsTrue (is_some (held_at graph.old id)) → IsOk result × (graph.new ≡ graph.old) }

    // The answer is a number exactly if the history has the id.
    ensures has { IfOk result
        (λ n. is_some n ≡ is_some (entry_at (S.history graph.old.source) id)) }

    // The answer is the number of the id after the call. The answer is `None` exactly if the id is
    // not held then.
    ensures number { IfOk result (λ n. option_map place_in n ≡ number_at graph.new id) }

    // After a success the id is held exactly if the history has it.
    ensures found { OnOk result
        (is_some (held_at graph.new id) ≡ is_some (entry_at (S.history graph.old.source) id)) }

    // After a success ids that were held keep their data. This id has the data `new` if it was not
    // held and the history has it. No other id is newly held.
    ensures taken { OnOk result (TakesIn (S.history graph.old.source) graph.old id new graph.new) }

    // After a success each id that was held keeps its number, its value and its mark. Newly held
    // ids come last, without a mark of the current walk.
    ensures grows { OnOk result (Grows graph.old graph.new) }

    // After a success what the current walk has recorded for each id is unchanged.
    ensures marks { OnOk result ((q : ObjectId) → mark_at graph.new q ≡ mark_at graph.old q) }

    // After a success the number of held ids is one more if the id was not held and the history has
    // it. Otherwise the number is unchanged.
    ensures len { OnOk result
        (held_len graph.new ≡ len_after (S.history graph.old.source) graph.old id) }

    // After an error the same ids are held, with the same numbers and values, and what the current
    // walk has marked is unchanged.
    ensures refused { OnErr result
        ((graph.new.held ≡ graph.old.held) × (graph.new.marked ≡ graph.old.marked)) }

    // After an error the same ids are held, with the same data.
    ensures refused_data { OnErr result (SameData graph.old graph.new) }

    // After an error the number of held ids is unchanged.
    ensures refused_len { OnErr result (held_len graph.new ≡ held_len graph.old) }

    // The history is unchanged, also after an error.
    ensures history { S.history graph.new.source ≡ S.history graph.old.source }

    // After the error `Source` the fault count is one more, or stays at the greatest `u64`.
    // Otherwise the count is unchanged.
    ensures count { S.fault_count graph.new.source
        ≡ count_after (is_source_fault result) (S.fault_count graph.old.source) }
{
    if let Some(number) = known(graph, &id) {
        return Ok(Some(number));
    }
    let Some(found) = graph.ask(alloc, id)? else {
        return Ok(None);
    };
    Ok(Some(add(graph, id, Commit::copy_of(found, new))?))
}

/// Returns how many parents a commit has, with those that the source does not have.
fn parent_count<S: Find, D: Drop, A: Allocator>(
    graph: &Graph<S, Commit<D, A>, A>,
    number: Number,
) -> usize
    requires { place_in number < held_len graph.now }
    ensures { (id : ObjectId) → named graph.now (place_in number) ≡ Some id
        → result ≡ length (parents_in (entry_at (S.history graph.now.source) id)) }
{
    value(graph, number).parents().len()
}

/// Returns the parent of a commit at place `i`.
fn parent<S: Find, D: Drop, A: Allocator>(
    graph: &Graph<S, Commit<D, A>, A>,
    number: Number,
    i: usize,
) -> ObjectId
    requires held { place_in number < held_len graph.now }
    requires within { (id : ObjectId) × (named graph.now (place_in number) ≡ Some id)
        × (i < length (parents_in (entry_at (S.history graph.now.source) id))) }
    ensures { (id : ObjectId) → named graph.now (place_in number) ≡ Some id
        → item_at (parents_in (entry_at (S.history graph.now.source) id)) i ≡ Some result }
{
    value(graph, number).parents()[i]
}

/// Loads one parent, and appends its number to `into` if the source has it.
fn take_parent<S: Find, D: Drop, A: Allocator + Copy>(
    graph: &mut Graph<S, Commit<D, A>, A>,
    alloc: A,
    id: ObjectId,
    new: D,
    into: &mut Vec<Number, A>,
) -> Result<(), Error>
    ensures numbers { OnOk result ((ps : List ObjectId)
        → AreNumbers (S.history graph.old.source) graph.old ps into.old.items
        → AreNumbers (S.history graph.old.source) graph.new (ps ++ id ∷ []) into.new.items) }
    ensures grows { Grows graph.old graph.new }
    ensures more { HoldsMore (S.history graph.old.source) (id ∷ []) graph.old graph.new }
    ensures history { S.history graph.new.source ≡ S.history graph.old.source }
    ensures count { S.fault_count graph.new.source
        ≡ count_after (is_source_fault result) (S.fault_count graph.old.source) }
{
    match take(graph, alloc, id, new) {
        Ok(Some(number)) => match into.push(number) {
            Ok(()) => Ok(()),
            Err(_) => Err(Error::OutOfMemory),
        },
        Ok(None) => Ok(()),
        Err(error) => Err(error),
    }
}

/// Loads the parents of a commit, and appends to `into`, which is empty, the numbers of those that
/// the source has.
fn take_parents<S: Find, D: Drop + Copy, A: Allocator + Copy>(
    graph: &mut Graph<S, Commit<D, A>, A>,
    alloc: A,
    number: Number,
    new: D,
    into: &mut Vec<Number, A>,
) -> Result<(), Error>
    requires held { place_in number < held_len graph.old }
    requires empty { into.old.items ≡ [] }
    ensures numbers { OnOk result ((id : ObjectId) → named graph.old (place_in number) ≡ Some id
        → AreNumbers (S.history graph.old.source) graph.new
        (parents_in (entry_at (S.history graph.old.source) id)) into.new.items) }
    ensures grows { Grows graph.old graph.new }
    ensures more { (id : ObjectId) → named graph.old (place_in number) ≡ Some id
        → HoldsMore (S.history graph.old.source)
        (parents_in (entry_at (S.history graph.old.source) id)) graph.old graph.new }
    ensures history { S.history graph.new.source ≡ S.history graph.old.source }
    ensures count { S.fault_count graph.new.source
        ≡ count_after (is_source_fault result) (S.fault_count graph.old.source) }
{
    for i in 0..parent_count(graph, number) {
        let parent = parent(graph, number, i);
        if let Err(error) = take_parent(graph, alloc, parent, new, into) {
            return Err(error);
        }
    }
    Ok(())
}

/// Returns the remembered numbers of a commit's known parents; `None` if they are not remembered.
fn row_of<S: Find, D: Drop, A: Allocator>(
    graph: &Graph<S, Commit<D, A>, A>,
    number: Number,
) -> Option<&[Number]>
    requires { place_in number < held_len graph.now }
    ensures row { IfSome result (λ row. (id : ObjectId)
        → named graph.now (place_in number) ≡ Some id
        → AreNumbers (S.history graph.now.source) graph.now
        (parents_in (entry_at (S.history graph.now.source) id)) row.now) }
    ensures ids { map (λ e. e.0) graph.now.marked ≡ held_ids graph.now }
{
    match graph.nodes[number.place()].row {
        Some(row) => {
            let start = row.start as usize;
            Some(&graph.edges[start..start + row.len as usize])
        }
        None => None,
    }
}

/// Remembers the numbers of a commit's parents, if the source has them all and there is memory.
fn remember<S: Find, D: Drop, A: Allocator>(
    graph: &mut Graph<S, Commit<D, A>, A>,
    number: Number,
    row: &[Number],
)
    requires held { place_in number < held_len graph.old }
    requires row { (id : ObjectId) → named graph.old (place_in number) ≡ Some id
        → AreNumbers (S.history graph.old.source) graph.old
        (parents_in (entry_at (S.history graph.old.source) id)) row.now }
    ensures { graph.new ≡ graph.old }
{
    if row.len() != parent_count(graph, number) {
        return;
    }
    let start = graph.edges.len();
    let Ok(kept) = Row::of(start, row.len()) else {
        return;
    };
    if graph.edges.extend_from_slice(row).is_err() {
        return;
    }
    let node = &mut graph.nodes[number.place()];
    node.row = Some(kept);
}

/// Replaces what is in `into` by the numbers of those parents of a commit that the source has, in
/// order.
///
/// Parents that were not held are loaded with the data `new`, and marked by no walk. If the source
/// has all the parents, their numbers are remembered until the graph is cleared, as far as there is
/// memory.
///
/// # Errors
///
/// Those of [`Graph::get_or_insert_full_commit`]; [`Error::OutOfMemory`] also if `into` could not
/// grow.
pub fn known_parents<S: Find, D: Drop + Copy, A: Allocator + Copy>(
    graph: &mut Graph<S, Commit<D, A>, A>,
    alloc: A,
    number: Number,
    new: D,
    into: &mut Vec<Number, A>,
) -> Result<(), Error>
    // A held id has this number.
    requires { place_in number < held_len graph.old }

    // After a success `into` has the numbers of those parents of the commit that the history has,
    // in order.
    ensures numbers { OnOk result ((id : ObjectId) → named graph.old (place_in number) ≡ Some id
        → AreNumbers (S.history graph.old.source) graph.new
        (parents_in (entry_at (S.history graph.old.source) id)) into.new.items) }

    // Each id that was held keeps its number, its value and its mark, also after an error. Newly
    // held ids come last, without a mark of the current walk.
    ensures grows { Grows graph.old graph.new }

    // What the current walk has recorded for each id is unchanged, also after an error.
    ensures marks { (q : ObjectId) → mark_at graph.new q ≡ mark_at graph.old q }

    // Each newly held id is a parent of the commit, and the history has the parent, also after an
    // error.
    ensures more { (id : ObjectId) → named graph.old (place_in number) ≡ Some id
        → HoldsMore (S.history graph.old.source)
        (parents_in (entry_at (S.history graph.old.source) id)) graph.old graph.new }

    // The history is unchanged, also after an error.
    ensures history { S.history graph.new.source ≡ S.history graph.old.source }

    // After the error `Source` the fault count is one more, or stays at the greatest `u64`.
    // Otherwise the count is unchanged.
    ensures count { S.fault_count graph.new.source
        ≡ count_after (is_source_fault result) (S.fault_count graph.old.source) }
{
    into.clear();
    if let Some(row) = row_of(graph, number) {
        return match into.extend_from_slice(row) {
            Ok(()) => Ok(()),
            Err(_) => Err(Error::OutOfMemory),
        };
    }
    if let Err(error) = take_parents(graph, alloc, number, new, into) {
        return Err(error);
    }
    remember(graph, number, into);
    Ok(())
}
