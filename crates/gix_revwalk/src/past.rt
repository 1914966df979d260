//! What a graph remembers about ids: the number under which each was last held, and what the source
//! returned for it.
//!
//! It stays when the graph is cleared, so that a further walk need not ask the source again, nor
//! look up a hash.
//!
//! The *spot* of an id is its place in this memory. A spot that a caller passes is a guess: the id
//! stored there is compared, and a wrong guess costs a look-up by hash.
//!
//! # What a graph keeps
//!
//! - **Nodes.** Held commits, in the order in which they came. A number is the place of a node, and
//!   the calls of `graph` are written over those of `numbers`.
//! - **Marks.** They count only in the turn of the walk that made them, so that no walk clears any.
//! - **Rows.** The parents of a node as numbers, once a walk over `numbers` has met them. A row is
//!   kept only if the source has all these parents, and therefore stays right when the source
//!   grows.
//! - **Memory**. A map in the order of insertion (`indexmap`) has the last number of each id that
//!   was ever held. The place of an id there is its spot. If a walk of `describe` met the commit,
//!   its time and parents are there, too. An id is held if the node of that number has it. `clear`
//!   drops nodes and rows, without a hash, and keeps this memory. A further `describe` asks the
//!   source only for commits that none before it has met.
//! - **Missing ids.** They are not remembered, and each walk that meets one asks again. Of a commit
//!   with a missing parent the parents' ids are remembered, as in the commit itself, but not their
//!   numbers.
//! - **Guesses.** A spot that is passed in is a guess. The id stored there is compared, by words of
//!   eight bytes (`past::is_same`). If it differs, the map is searched. No contract says what a
//!   spot is good for, and guesses at parents' spots have no invariant.
//! - **Growth.** `Graph::insert` (`graph/insert.rt`) puts a commit into any source with the trait
//!   `Insert`; no row is forgotten and no node is touched. Such sources are `MemorySource` and a
//!   commit-graph file with newer commits (`commit_graph::Commits`), which `gix_c_core` uses.

ghost use Rattle.std.specs.Prelude.{IsTrue, ◌≡◌, ◌<◌, ◌≤◌, ◌+◌, [], is_some, false, cond, Some, None, IfSome, IfOk, OnOk, OnErr, map, take, drop, length};
ghost use Rattle.std.specs.Option.{option_map};
ghost use Rattle.std.specs.Int.{w64, to_le_bytes, from_le_bytes};
ghost use Rattle.gix_base.specs.declared.hash.ObjectId.{ObjectId};
ghost use Rattle.gix_revwalk.specs.History.{same_id};
ghost use Rattle.gix_revwalk.specs.Words.{eight_from};
ghost use Rattle.gix_revwalk.specs.Number.{place_in};
ghost use Rattle.gix_revwalk.specs.Numbers.{item_at};
ghost use Rattle.gix_revwalk.specs.Pasts.{home_in, home_with, told_in, spot_in, link_id, SameHomes, SameTold};

use crate::graph::Row;
use crate::numbers::Number;
use crate::seed::Seed;
use gix_base::hash::ObjectId;
use indexmap::IndexMap;
use std::alloc::{AllocError, Allocator};
use std::marker::Model;

/// What is remembered about one id.
#[derive(Clone, Copy)]
pub(crate) struct Memory {
    /// Its number when it was last held; [`Number::UNUSED`] if it never was.
    pub(crate) home: Number,
    /// The place of what the source returned for it; [`UNTOLD`] if it has returned nothing.
    pub(crate) answer: u32,
}

impl Memory {
    /// Returns the number that its id had when it was last held.
    #[inline(always)]
    fn home(self) -> Option<Number>
        ensures { option_map place_in result ≡ home_with (Some self) }
    {
        if self.home.place() == UNTOLD as usize {
            None
        } else {
            Some(self.home)
        }
    }
}

/// What the source returned for a commit.
#[derive(Clone, Copy)]
pub(crate) struct Answer {
    /// Where the parents are stored.
    pub(crate) row: Row,
    pub(crate) time: i64,
}

/// Stands for no answer: no answer has this place.
const UNTOLD: u32 = u32::MAX;

/// A parent of a commit, and a guess at its spot.
#[derive(Clone, Copy)]
pub struct Link {
    pub id: ObjectId,
    pub spot: usize,
}

/// Stands for no guess: no id has this spot.
pub const NOWHERE: usize = usize::MAX;

/// Returns eight bytes of an id, from a place on, as a number.
#[inline(always)]
fn word(id: &ObjectId, at: usize) -> u64
    requires { at + 8 ≤ 20 }
    ensures value { result ≡ from_le_bytes w64 (eight_from id.now.0 at) }
    ensures bytes { to_le_bytes w64 result ≡ eight_from id.now.0 at }
    ensures len { length id.now.0 ≡ 20 }
{
    let bytes = &id.0;
    u64::from_le_bytes([
        bytes[at],
        bytes[at + 1],
        bytes[at + 2],
        bytes[at + 3],
        bytes[at + 4],
        bytes[at + 5],
        bytes[at + 6],
        bytes[at + 7],
    ])
}

/// Returns whether two ids have the same bytes, by three words of which the last two overlap.
#[inline(always)]
pub(crate) fn is_same(a: &ObjectId, b: &ObjectId) -> bool
    ensures { result ≡ same_id a.now b.now }
{
    if word(a, 0) != word(b, 0) {
        return false;
    }
    if word(a, 8) != word(b, 8) {
        return false;
    }
    word(a, 12) == word(b, 12)
}

/// All that is remembered, in the order of spots.
///
/// It also has the parents of all commits that the source returned, row by row.
#[derive(Drop)]
pub(crate) struct Past<A: Allocator> {
    memories: IndexMap<ObjectId, Memory, Seed, A>,
    answers: Vec<Answer, A>,
    parents: Vec<ObjectId, A>,
    /// A guess at the spot of each parent, as far as these were looked up.
    guesses: Vec<usize, A>,
}

impl<A: Allocator> Model for Past<A> {
    ghost use Rattle.gix_revwalk.specs.Pasts.{Pasts, ArePast};

    ghost Value = { Pasts };

    ghost view = { λ p. record {
      kept = p.memories.entries;
      answers = p.answers.items;
      parents = p.parents.items;
    } };

    ghost invariant = { λ p. ArePast p.memories.entries p.answers.items p.parents.items };
}

impl<A: Allocator + Copy> Past<A> {
    /// Creates an empty memory, whose hashes are seeded with `seed`.
    pub(crate) fn new(alloc: A, seed: Seed) -> Self
        ensures homes { (q : ObjectId) → home_in result q ≡ None }
        ensures told { (q : ObjectId) → told_in result q ≡ None }
    {
        Past {
            memories: IndexMap::with_hasher(alloc, seed),
            answers: Vec::new(alloc),
            parents: Vec::new(alloc),
            guesses: Vec::new(alloc),
        }
    }
}

impl<A: Allocator> Past<A> {
    /// Returns the seed of the hashes.
    pub(crate) fn seed(&self) -> Seed {
        *self.memories.hasher()
    }

    /// Returns `true` only if a guess is the spot of an id.
    #[inline(always)]
    fn is_spot(&self, id: &ObjectId, guess: usize) -> bool
        ensures { IsTrue result → spot_in self.now id.now ≡ Some guess }
    {
        match self.memories.get_index(guess) {
            Some((known, _)) => is_same(known, id),
            None => false,
        }
    }

    /// Returns the spot of an id; `None` if the id is not remembered.
    #[inline(always)]
    fn spot(&self, id: &ObjectId, guess: usize) -> Option<usize>
        ensures { result ≡ spot_in self.now id.now }
    {
        if self.is_spot(id, guess) {
            return Some(guess);
        }
        self.memories.get_index_of(id)
    }

    /// Returns the number that an id had when it was last held.
    #[inline(always)]
    pub(crate) fn home(&self, id: &ObjectId, guess: usize) -> Option<Number>
        ensures { option_map place_in result ≡ home_in self.now id.now }
    {
        match self.spot(id, guess) {
            Some(spot) => self.memories[spot].home(),
            None => None,
        }
    }

    /// Returns what the source returned for an id, by what is remembered about it.
    #[inline(always)]
    fn answer(&self, memory: Memory) -> Option<Answer>
        ensures { result ≡ item_at self.now.answers memory.answer }
    {
        self.answers.get(memory.answer as usize).copied()
    }

    /// Returns the spot of an id and its time, if the source has returned its commit.
    #[inline(always)]
    pub(crate) fn recall(&self, id: &ObjectId, guess: usize) -> Option<(usize, i64)>
        ensures time { option_map (λ r. r.1) result ≡ option_map (λ t. t.time) (told_in self.now id.now) }
        ensures spot { IfSome result (λ r. spot_in self.now id.now ≡ Some r.0) }
    {
        match self.spot(id, guess) {
            Some(spot) => match self.answer(self.memories[spot]) {
                Some(answer) => Some((spot, answer.time)),
                None => None,
            },
            None => None,
        }
    }
}

impl<A: Allocator + Copy> Past<A> {
    /// Returns the spot of an id, and remembers the id if it is new, with nothing more about it.
    fn enter(&mut self, id: ObjectId, guess: usize) -> Result<usize, AllocError>
        ensures spot { IfOk result (λ k. spot_in self.new id ≡ Some k) }
        ensures homes { SameHomes self.old self.new }
        ensures told { SameTold self.old self.new }
    {
        if self.is_spot(&id, guess) {
            return Ok(guess);
        }
        let memory = Memory {
            home: Number::UNUSED,
            answer: UNTOLD,
        };
        let Ok((spot, known)) = self.memories.insert_full(id, memory) else {
            return Err(AllocError);
        };
        // An id that was known keeps what is remembered about it.
        if let Some(memory) = known {
            self.memories[spot] = memory;
        }
        Ok(spot)
    }

    /// Remembers the number of an id whose spot is known.
    #[inline(always)]
    pub(crate) fn settle_at(&mut self, id: ObjectId, spot: usize, home: Number)
        requires spot { spot_in self.old id ≡ Some spot }
        requires used { place_in home < 4294967295 }
        ensures homes { (q : ObjectId)
            → home_in self.new q ≡ cond (same_id id q) (Some (place_in home)) (home_in self.old q) }
        ensures told { SameTold self.old self.new }
    {
        let memory = &mut self.memories[spot];
        memory.home = home;
    }

    /// Remembers the number of an id, and returns its spot.
    pub(crate) fn settle(
        &mut self,
        id: ObjectId,
        guess: usize,
        home: Number,
    ) -> Result<usize, AllocError>
        requires { place_in home < 4294967295 }
        ensures homes { OnOk result ((q : ObjectId)
            → home_in self.new q ≡ cond (same_id id q) (Some (place_in home)) (home_in self.old q)) }
        ensures told { SameTold self.old self.new }
        ensures refused { OnErr result (SameHomes self.old self.new) }
    {
        let Ok(spot) = self.enter(id, guess) else {
            return Err(AllocError);
        };
        self.settle_at(id, spot, home);
        Ok(spot)
    }

    /// Returns the place of the next answer, or fails if there are no more places.
    fn next_answer(&self) -> Result<u32, AllocError>
        ensures { IfOk result (λ k. (k ≡ length self.now.answers) × (k < 4294967295)) }
    {
        match u32::try_from(self.answers.len()) {
            Ok(place) => {
                if place == UNTOLD {
                    Err(AllocError)
                } else {
                    Ok(place)
                }
            }
            Err(_) => Err(AllocError),
        }
    }

    /// Remembers what the source returned for an id, and returns its spot.
    pub(crate) fn learn(
        &mut self,
        id: ObjectId,
        time: i64,
        parents: &[ObjectId],
    ) -> Result<usize, AllocError>
        ensures told { OnOk result ((q : ObjectId) → told_in self.new q
            ≡ cond (same_id id q) (Some (record { time = time; parents = parents.now })) (told_in self.old q)) }
        ensures homes { SameHomes self.old self.new }
        ensures refused { OnErr result (SameTold self.old self.new) }
    {
        let Ok(spot) = self.enter(id, NOWHERE) else {
            return Err(AllocError);
        };
        let start = self.parents.len();
        let Ok(row) = Row::of(start, parents.len()) else {
            return Err(AllocError);
        };
        let Ok(place) = self.next_answer() else {
            return Err(AllocError);
        };
        let Ok(()) = self.parents.extend_from_slice(parents) else {
            return Err(AllocError);
        };
        let Ok(()) = self.answers.push(Answer { row, time }) else {
            return Err(AllocError);
        };
        let memory = &mut self.memories[spot];
        memory.answer = place;
        Ok(spot)
    }

    /// Returns a guess at the spot of the parent at a place, and keeps one that it looked up.
    #[inline(always)]
    fn guess(&mut self, at: usize, id: &ObjectId) -> Result<usize, AllocError>
        ensures { self.new ≡ self.old }
    {
        if let Some(guess) = self.guesses.get(at) {
            if *guess != NOWHERE {
                return Ok(*guess);
            }
        }
        let Some(spot) = self.memories.get_index_of(id) else {
            return Ok(NOWHERE);
        };
        let Ok(()) = self.guesses.resize(self.parents.len(), NOWHERE) else {
            return Err(AllocError);
        };
        if let Some(guess) = self.guesses.get_mut(at) {
            *guess = spot;
        }
        Ok(spot)
    }

    /// Returns where the parents of an id are stored; `None` if the source has not returned its
    /// commit.
    #[inline(always)]
    fn row(&self, id: &ObjectId, guess: usize) -> Option<Row>
        ensures parents { option_map (λ r. take r.len (drop r.start self.now.parents)) result
            ≡ option_map (λ t. t.parents) (told_in self.now id.now) }
        ensures fits { IfSome result (λ r. r.start + r.len ≤ length self.now.parents) }
    {
        match self.spot(id, guess) {
            Some(spot) => match self.answer(self.memories[spot]) {
                Some(answer) => Some(answer.row),
                None => None,
            },
            None => None,
        }
    }

    /// Appends the parents of a row to `into`, which is empty, each with a guess at its spot.
    #[inline(always)]
    fn copy_row(&mut self, row: Row, into: &mut Vec<Link, A>) -> Result<(), AllocError>
        requires fits { row.start + row.len ≤ length self.old.parents }
        requires empty { into.old.items ≡ [] }
        ensures parents { OnOk result
            (map link_id into.new.items ≡ take row.len (drop row.start self.old.parents)) }
        ensures same { self.new ≡ self.old }
    {
        for i in 0..row.len as usize {
            // No place is past the end of the parents.
            let _count = self.parents.len();
            let at = row.start as usize + i;
            let id = self.parents[at];
            let Ok(spot) = self.guess(at, &id) else {
                return Err(AllocError);
            };
            let Ok(()) = into.push(Link { id, spot }) else {
                return Err(AllocError);
            };
        }
        Ok(())
    }

    /// Replaces what is in `into` by the parents of an id, and returns `true`.
    ///
    /// Returns `false`, and no parents, if the source has not returned the commit of the id.
    #[inline(always)]
    pub(crate) fn parents_of(
        &mut self,
        id: &ObjectId,
        guess: usize,
        into: &mut Vec<Link, A>,
    ) -> Result<bool, AllocError>
        ensures same { self.new ≡ self.old }
        ensures told { IfOk result (λ b. b ≡ is_some (told_in self.old id.now)) }
        ensures parents { IfOk result (λ b. IfSome (told_in self.old id.now)
            (λ t. map link_id into.new.items ≡ t.parents)) }
        ensures untold { IfOk result (λ b. b ≡ false → into.new.items ≡ []) }
    {
        into.clear();
        let Some(row) = self.row(id, guess) else {
            return Ok(false);
        };
        match self.copy_row(row, into) {
            Ok(()) => Ok(true),
            Err(_) => Err(AllocError),
        }
    }
}
