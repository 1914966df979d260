//! The walk, which may stop early: it pops the newest of the queued commits, and queues its
//! parents.
//!
//! # Algorithm
//!
//! 1. Answer without a walk if the commit has a name, or if there is no name to find. Otherwise
//!    empty the graph and queue the commit.
//! 2. Pop the newest commit; on equal times, the one with the smaller id, or the one that was met first.
//! 3. If it has a name, it becomes a candidate with a mark bit of its own. If there is no room for
//!    one more (`max_candidates`, at most 32), put it back, behind all that were met before, and go
//!    to step 5.
//! 4. Count the commit for each candidate whose mark it lacks. Stop if it and everything that is
//!    queued have the marks of all nearest candidates (by id, only if nothing is queued). Otherwise
//!    hand its marks to its parents, and queue those that are new to the graph. Stop if the queue is
//!    empty.
//! 5. Choose the nearest candidate, then the smaller name, then the smaller id, or the one that was
//!    popped first. If there was no
//!    room, go on until all that is queued has its mark; each popped commit without it adds one to
//!    the depth.
//!
//! What makes it fast:
//!
//! - A queue entry has the key (time and id), the commit's number, and a guess at its spot in what
//!   the graph remembers. A commit that is queued alone bypasses the heap (`queue.rt`).
//! - The parents of a popped commit are read at that spot, each with a guess at its own (`met.rt`).
//!   An edge that a walk has followed before needs no hash; a new one looks up the parent's id.
//! - The sieve has 4,096 bits (`sieve.rt`). A commit whose bit is clear has no name, without a
//!   look-up.
//! - For each candidate a running count says how many queued commits lack its mark (`tally.rt`), so
//!   that no walk scans its queue. The graph notes what has left the queue.

ghost use Rattle.std.specs.Prelude.{◌≡◌, ◌≤◌, ◌<◌, ◌↔◌, ◌+◌, ◌^◌, ◌++◌, ◌∷◌, [], ℕ, IsTrue, IfOk, IfErr, IfSome, IsNone, OnOk, Some, None, List, cond, bit_or, length, get_or, MatchBool, MatchOption, false};
ghost use Rattle.std.specs.Option.{option_map};
ghost use Rattle.std.specs.List.Sorted.{IsPermutation};
ghost use Rattle.gix_base.specs.declared.hash.ObjectId.{ObjectId};
ghost use Rattle.gix_revwalk.specs.Graph.{held_at, held_ids};
ghost use Rattle.gix_revwalk.specs.Noted.{noted_at};
ghost use Rattle.gix_revwalk.specs.History.{History, same_id};
ghost use Rattle.std.specs.Ordering.{is_lt, is_gt};
ghost use Rattle.gix_describe.specs.Asks.{Asks, IsHandRefused};
ghost use Rattle.gix_describe.specs.DescribeRefusals.{refusal};
ghost use Rattle.gix_describe.specs.Choice.{rank_order, rank_at, name_of, IsChosen, IsFound};
ghost use Rattle.gix_describe.specs.Counted.{CountsNamed};
ghost use Rattle.gix_describe.specs.Described.{name_at};
ghost use Rattle.gix_describe.specs.Handing.{Settles};
ghost use Rattle.gix_describe.specs.Numbered.{IsNumbered, KeepsNumbers};
ghost use Rattle.gix_describe.specs.Order.{HoldsFirst, IsTied};
ghost use Rattle.gix_describe.specs.Outcomes.{names_of};
ghost use Rattle.gix_describe.specs.Sieve.{LetsPass};
ghost use Rattle.gix_describe.specs.Searches.{along, RestsBy, TakesBy, AdmitsBy, IsEndedBy, IsFullBy, CompletesBy, CompletesTakenBy, IsCompleteBy, IsHeldAtFaultBy, AsksBy};

use crate::describe::handing::{
    Hand, count_late, hand_on, is_settled, mark, marks_of, rank_behind,
};
use crate::describe::key::Key;
use crate::describe::met::{Met, take_in};
use crate::describe::options::{Names, Tie};
use crate::describe::queue::Queue;
use crate::describe::sieve::{Sieve, has_name};
use crate::describe::tally::{bit_of, leave};
use gix_base::error::Message;
use gix_base::hash::ObjectId;
use gix_revwalk::graph::{Find, Graph};
use gix_revwalk::numbers::{self, Link};
use std::alloc::Allocator;
use std::cmp::Ordering;

/// What is searched: the start, how many names are weighed, which parents are followed, and which of
/// two commits or names comes first.
#[derive(Clone, Copy)]
pub(crate) struct Search {
    pub(crate) start: ObjectId,
    pub(crate) cap: usize,
    pub(crate) first_parent: bool,
    pub(crate) tie: Tie,
}

/// The queue, and the named commits that were popped (the candidates), each with its count.
///
/// The mark of a candidate is the bit of its place.
#[derive(Drop)]
pub(crate) struct Walk<A: Allocator> {
    queue: Queue<A>,
    candidates: Vec<ObjectId, A>,
    counts: Vec<u32, A>,
    /// How many queued commits do not have the mark of each candidate.
    lacking: Vec<usize, A>,
    seen: u32,
    /// The parents of the commit whose marks are being handed on.
    row: Vec<Link, A>,
}

/// Returns the name of a commit; no bytes if it has none.
fn name_bytes<'a, 'name, A: Allocator + Copy>(names: &'a Names<'name, A>, id: &ObjectId) -> &'a [u8]
    ensures { result.now ≡ name_of (names_of names.now.entries) id.now }
{
    match names.get(id) {
        Some(name) => name.as_slice(),
        None => &[],
    }
}

impl<A: Allocator + Copy> Walk<A> {
    ghost use Rattle.gix_describe.specs.Handing.{HaveRanks, IsEntry};
    ghost use Rattle.gix_describe.specs.Order.{PutBack, Ranking, tie_rank};
    ghost use Rattle.gix_describe.specs.Trace.{is_open, IsNext, IsWalk};
    ghost use Rattle.gix_describe.specs.WalkState.{others, IsQueue};

    /// Queues the start alone, under the greatest of times, and holds it without marks.
    fn begin<S: Find>(
        alloc: A,
        search: Search,
        graph: &mut Graph<S, u32, A>,
    ) -> Result<Walk<A>, Message>
        requires empty { (q : ObjectId) → held_at graph.old q ≡ None }
        ensures begun { IfOk result (λ w. (names : List (ObjectId × List ℕ))
            → RestsBy (S.history graph.old.source) search names w graph.new) }
        ensures fault { IfErr result (IsHeldAtFaultBy (S.history graph.old.source) search (held_at graph.new)) }
        ensures asked { Asks S.history S.fault_count
            (IsHandRefused (along search (S.history graph.old.source)) search.start)
            graph.old.source graph.new.source (refusal result) }
    {
        let start = search.start;
        let Some((_, met)) = take_in(
            alloc,
            &start,
            numbers::NOWHERE,
            &start,
            0,
            search.first_parent,
            graph,
        )?
        else {
            return Err(Message::MissingStart(start));
        };
        let mut queue = Queue::new(alloc);
        let key = Key {
            time: i64::MAX,
            rank: 0,
            id: start,
        };
        if queue.insert(key, met).is_err() {
            return Err(Message::OutOfMemory);
        }
        Ok(Walk {
            queue,
            candidates: Vec::new(alloc),
            counts: Vec::new(alloc),
            lacking: Vec::new(alloc),
            seen: 0,
            row: Vec::new(alloc),
        })
    }

    /// Pops the next commit, with its key; `None` if the queue is empty.
    fn next(&mut self) -> Option<(Key, Met)>
        ensures none { IsNone result → self.old.queue ≡ [] }
        ensures next { IfSome result (λ p. (ranks : Ranking) (h : History) (s : ObjectId) (popped : List ObjectId)
            → IsWalk ranks h s popped → IsQueue h s self.old.queue (is_open h s popped)
            → HaveRanks (tie_rank ranks h s popped) self.old.queue
            → IsNext ranks h s popped p.1.id × IsEntry h s p × IsQueue h s self.new.queue (others h s popped p.1.id)) }
        ensures taken { IfSome result (λ p. IsPermutation self.old.queue (p ∷ self.new.queue)) }
        ensures candidates { self.new.candidates ≡ self.old.candidates }
        ensures counts { self.new.counts ≡ self.old.counts }
        ensures lacking { self.new.lacking ≡ self.old.lacking }
        ensures seen { self.new.seen ≡ self.old.seen }
    {
        self.queue.pop()
    }

    /// Makes a popped commit a candidate: it gets the next mark, and all commits popped before it
    /// are late.
    fn take_up<S: Find>(&mut self, met: &Met, graph: &mut Graph<S, u32, A>) -> Result<(), Message>
        requires room { length self.old.candidates.items < 32 }
        requires numbered { IsNumbered graph.old met.now }
        ensures candidates { OnOk result (self.new.candidates.items ≡ self.old.candidates.items ++ met.now.id ∷ []) }
        ensures counts { OnOk result (self.new.counts.items ≡ self.old.counts.items ++ self.old.seen ∷ []) }
        ensures lacking { OnOk result (self.new.lacking.items ≡ self.old.lacking.items ++ length self.old.queue ∷ []) }
        ensures numbers { KeepsNumbers graph.old graph.new }
        ensures ids { held_ids graph.new ≡ held_ids graph.old }
        ensures noted { (q : ObjectId) → noted_at graph.new q ≡ noted_at graph.old q }
        ensures marks { (q : ObjectId) → held_at graph.new q ≡ cond (same_id met.now.id q)
            (option_map (λ k. bit_or k (2 ^ length self.old.candidates.items)) (held_at graph.old q)) (held_at graph.old q) }
        ensures queue { self.new.queue ≡ self.old.queue }
        ensures seen { self.new.seen ≡ self.old.seen }
        ensures source { graph.new.source ≡ graph.old.source }
        ensures refused { IfErr result (λ e. e ≡ Message.OutOfMemory) }
    {
        let _ = mark(met.number, 1 << self.candidates.len(), graph);
        if self.candidates.push(met.id).is_err()
            || self.counts.push(self.seen).is_err()
            || self.lacking.push(self.queue.len()).is_err()
        {
            return Err(Message::OutOfMemory);
        }
        Ok(())
    }

    /// Makes a popped commit a candidate if it is named, and returns `true`. If there is no room
    /// for it, puts it back into the queue, behind what was met, and returns `false`.
    fn admit<'name, S: Find>(
        &mut self,
        key: Key,
        met: &Met,
        names: &Names<'name, A>,
        sieve: &Sieve,
        search: Search,
        graph: &mut Graph<S, u32, A>,
    ) -> Result<bool, Message>
        requires some { 0 < search.cap }
        requires cap { search.cap ≤ 32 }
        requires sieve { LetsPass sieve.now.words (names_of names.now.entries) }
        requires taken { TakesBy (S.history graph.old.source) search (names_of names.now.entries) (key, met.now) self.old graph.old }
        ensures admitted { IfOk result (λ admitted. MatchBool admitted
            (AdmitsBy (S.history graph.old.source) search (names_of names.now.entries) met.now self.new graph.new)
            (IsFullBy (S.history graph.old.source) search (names_of names.now.entries) self.new graph.new)) }
        ensures refused { IfErr result (λ e. e ≡ Message.OutOfMemory) }
        ensures seen { self.new.seen ≡ self.old.seen }
        ensures source { graph.new.source ≡ graph.old.source }
    {
        if !has_name(names, sieve, &met.id) {
            return Ok(true);
        }
        if self.candidates.len() < search.cap {
            self.take_up(met, graph)?;
            return Ok(true);
        }
        let mut key = key;
        key.rank = rank_behind(search.tie, graph.len())?.saturating_sub(1);
        if self.queue.insert(key, *met).is_err() {
            return Err(Message::OutOfMemory);
        }
        Ok(false)
    }

    /// Tests whether the walk ends, at a popped commit with these marks: it and everything that is
    /// queued have the marks of all nearest candidates.
    fn settles(&self, marks: u32, tie: Tie) -> bool
        requires few { length self.now.counts.items ≤ 32 }
        requires each { length self.now.lacking.items ≡ length self.now.counts.items }
        ensures { IsTrue result
            ↔ Settles tie self.now.queue self.now.counts.items self.now.lacking.items marks }
    {
        let may = match tie {
            Tie::ById => self.queue.is_empty(),
            Tie::ByMeeting => true,
        };
        may && !self.counts.is_empty() && is_settled(&self.counts, &self.lacking, marks)
    }

    /// Counts a popped commit and queues its parents. Returns `true` if the walk ends, because
    /// everything that is left lies below each candidate with the least count.
    fn pass<S: Find>(
        &mut self,
        alloc: A,
        met: &Met,
        names: &Names<'_, A>,
        search: Search,
        graph: &mut Graph<S, u32, A>,
    ) -> Result<bool, Message>
        requires cap { search.cap ≤ 32 }
        requires unnamed { name_at (names_of names.now.entries) search.start ≡ None }
        requires admitted { AdmitsBy (S.history graph.old.source) search (names_of names.now.entries) met.now self.old graph.old }
        ensures passed { IfOk result (λ settled. MatchBool settled
            (IsEndedBy (S.history graph.old.source) search (names_of names.now.entries) self.new graph.new)
            (RestsBy (S.history graph.old.source) search (names_of names.now.entries) self.new graph.new)) }
        ensures seen { OnOk result (self.new.seen ≡ self.old.seen + 1) }
        ensures fault { IfErr result (IsHeldAtFaultBy (S.history graph.old.source) search (held_at graph.new)) }
        ensures asked { AsksBy S.history S.fault_count search graph.old.source graph.new.source (refusal result) }
    {
        if self.seen == u32::MAX {
            return Err(Message::CounterFull);
        }
        self.seen += 1;
        let marks = marks_of(met, graph);
        count_late(&mut self.counts, marks);
        leave(&mut self.lacking, marks);
        if self.settles(marks, search.tie) {
            return Ok(true);
        }
        let hand = Hand {
            marks,
            first_parent: search.first_parent,
            tie: search.tie,
        };
        hand_on(
            alloc,
            met,
            hand,
            &mut self.row,
            &mut self.lacking,
            &mut self.queue,
            graph,
        )?;
        Ok(false)
    }

    /// Pops commits until the walk ends.
    ///
    /// It ends once everything that is left lies below each candidate with the least count, or if
    /// there is no room for the next candidate: then it returns `true`.
    fn run<'name, S: Find>(
        &mut self,
        alloc: A,
        names: &Names<'name, A>,
        sieve: &Sieve,
        search: Search,
        graph: &mut Graph<S, u32, A>,
    ) -> Result<bool, Message>
        requires some { 0 < search.cap }
        requires cap { search.cap ≤ 32 }
        requires sieve { LetsPass sieve.now.words (names_of names.now.entries) }
        requires unnamed { name_at (names_of names.now.entries) search.start ≡ None }
        requires rests { RestsBy (S.history graph.old.source) search (names_of names.now.entries) self.old graph.old }
        ensures ended { IfOk result (λ full. MatchBool full
            (IsFullBy (S.history graph.old.source) search (names_of names.now.entries) self.new graph.new)
            (IsEndedBy (S.history graph.old.source) search (names_of names.now.entries) self.new graph.new)) }
        ensures fault { IfErr result (IsHeldAtFaultBy (S.history graph.old.source) search (held_at graph.new)) }
        ensures asked { AsksBy S.history S.fault_count search graph.old.source graph.new.source (refusal result) }
    {
        while let Some(next) = self.next() {
            let (key, met) = next;
            let admitted = self.admit(key, &met, names, sieve, search, graph)?;
            if !admitted {
                return Ok(true);
            }
            let settled = self.pass(alloc, &met, names, search, graph)?;
            if settled {
                return Ok(false);
            }
        }
        Ok(false)
    }

    /// Tests whether one candidate comes before another: by the lesser count, then by the smaller
    /// name, then by the smaller id.
    fn is_named_before<'name>(&self, i: usize, j: usize, names: &Names<'name, A>) -> bool
        requires each { length self.now.counts.items ≡ length self.now.candidates.items }
        requires i { i < length self.now.candidates.items }
        requires j { j < length self.now.candidates.items }
        ensures { (d : ObjectId) → result ≡ is_lt (rank_order
            (rank_at Tie.ById (names_of names.now.entries) self.now.candidates.items self.now.counts.items d i)
            (rank_at Tie.ById (names_of names.now.entries) self.now.candidates.items self.now.counts.items d j)) }
    {
        let a = self.candidates[i];
        let b = self.candidates[j];
        let counts = self.counts[i].cmp(&self.counts[j]);
        let by_name = counts.then(name_bytes(names, &a).cmp(&name_bytes(names, &b)));
        by_name.then(a.cmp(&b)) == Ordering::Less
    }

    /// Tests whether one candidate comes before another: by the lesser count, then by its place.
    fn is_met_before(&self, i: usize, j: usize) -> bool
        requires each { length self.now.counts.items ≡ length self.now.candidates.items }
        requires i { i < length self.now.candidates.items }
        requires j { j < length self.now.candidates.items }
        ensures { (names : List (ObjectId × List ℕ)) (d : ObjectId) → result ≡ is_lt (rank_order
            (rank_at Tie.ByMeeting names self.now.candidates.items self.now.counts.items d i)
            (rank_at Tie.ByMeeting names self.now.candidates.items self.now.counts.items d j)) }
    {
        self.counts[i].cmp(&self.counts[j]).then(i.cmp(&j)) == Ordering::Less
    }

    /// Tests whether one candidate comes before another.
    fn precedes<'name>(&self, i: usize, j: usize, names: &Names<'name, A>, tie: Tie) -> bool
        requires each { length self.now.counts.items ≡ length self.now.candidates.items }
        requires i { i < length self.now.candidates.items }
        requires j { j < length self.now.candidates.items }
        ensures { (d : ObjectId) → result ≡ is_lt (rank_order
            (rank_at tie (names_of names.now.entries) self.now.candidates.items self.now.counts.items d i)
            (rank_at tie (names_of names.now.entries) self.now.candidates.items self.now.counts.items d j)) }
    {
        match tie {
            Tie::ById => self.is_named_before(i, j, names),
            Tie::ByMeeting => self.is_met_before(i, j),
        }
    }

    /// Returns the place of the first candidate among those up to `i`, if `best` is the first of
    /// those before `i`.
    fn first_of<'name>(&self, best: usize, i: usize, names: &Names<'name, A>, tie: Tie) -> usize
        requires each { length self.now.counts.items ≡ length self.now.candidates.items }
        requires best { best < length self.now.candidates.items }
        requires i { i < length self.now.candidates.items }
        ensures inside { result < length self.now.candidates.items }
        ensures first { (d : ObjectId)
            → ((k : ℕ) → k < i → is_gt (rank_order
            (rank_at tie (names_of names.now.entries) self.now.candidates.items self.now.counts.items d best)
            (rank_at tie (names_of names.now.entries) self.now.candidates.items self.now.counts.items d k)) ≡ false)
            → (k : ℕ) → k < i + 1 → is_gt (rank_order
            (rank_at tie (names_of names.now.entries) self.now.candidates.items self.now.counts.items d result)
            (rank_at tie (names_of names.now.entries) self.now.candidates.items self.now.counts.items d k)) ≡ false }
    {
        if self.precedes(i, best, names, tie) {
            i
        } else {
            best
        }
    }

    /// Returns the place of the chosen candidate; `None` if there is no candidate.
    fn chosen<'name>(&self, names: &Names<'name, A>, tie: Tie) -> Option<usize>
        requires each { length self.now.counts.items ≡ length self.now.candidates.items }
        ensures none { IsNone result → self.now.candidates.items ≡ [] }
        ensures chosen { IfSome result (IsChosen tie (names_of names.now.entries) self.now.candidates.items self.now.counts.items) }
    {
        if self.candidates.is_empty() {
            return None;
        }
        let mut best = 0;
        for i in 0..self.candidates.len() {
            best = self.first_of(best, i, names, tie);
        }
        Some(best)
    }

    /// Counts a popped commit for one candidate and queues its parents. Returns `true` if the count
    /// is complete, because the commit and everything that is queued have the mark of the
    /// candidate.
    fn pass_for<S: Find>(
        &mut self,
        alloc: A,
        met: &Met,
        place: usize,
        count: u32,
        search: Search,
        graph: &mut Graph<S, u32, A>,
    ) -> Result<(u32, bool), Message>
        requires taken { (cut : PutBack) × CompletesTakenBy (S.history graph.old.source) search place count met.now cut self.old graph.old }
        ensures passed { IfOk result (λ r. (cut : PutBack)
            → CompletesTakenBy (S.history graph.old.source) search place count met.now cut self.old graph.old
            → MatchBool r.1
            (IsCompleteBy (S.history graph.old.source) search place self.old r.0 self.new.seen cut (held_at graph.new))
            (CompletesBy (S.history graph.old.source) search place r.0 cut self.new graph.new)) }
        ensures seen { OnOk result (self.new.seen ≡ self.old.seen + 1) }
        ensures candidates { self.new.candidates ≡ self.old.candidates }
        ensures fault { IfErr result (IsHeldAtFaultBy (S.history graph.old.source) search (held_at graph.new)) }
        ensures asked { AsksBy S.history S.fault_count search graph.old.source graph.new.source (refusal result) }
    {
        if self.seen == u32::MAX {
            return Err(Message::CounterFull);
        }
        self.seen += 1;
        if self.lacking[place] == 0 {
            return Ok((count, true));
        }
        let marks = marks_of(met, graph);
        leave(&mut self.lacking, marks);
        let hand = Hand {
            marks,
            first_parent: search.first_parent,
            tie: search.tie,
        };
        hand_on(
            alloc,
            met,
            hand,
            &mut self.row,
            &mut self.lacking,
            &mut self.queue,
            graph,
        )?;
        let late = 1 - bit_of(marks, place);
        Ok((count + late, false))
    }

    /// Continues the walk for one candidate until its count is complete.
    fn complete<S: Find>(
        &mut self,
        alloc: A,
        place: usize,
        count: u32,
        search: Search,
        graph: &mut Graph<S, u32, A>,
    ) -> Result<u32, Message>
        requires completes { (cut : PutBack) × CompletesBy (S.history graph.old.source) search place count cut self.old graph.old }
        ensures complete { IfOk result (λ depth. (cut : PutBack)
            → CompletesBy (S.history graph.old.source) search place count cut self.old graph.old
            → IsCompleteBy (S.history graph.old.source) search place self.old depth self.new.seen cut (held_at graph.new)) }
        ensures fault { IfErr result (IsHeldAtFaultBy (S.history graph.old.source) search (held_at graph.new)) }
        ensures asked { AsksBy S.history S.fault_count search graph.old.source graph.new.source (refusal result) }
    {
        let mut depth = count;
        while let Some((_, met)) = self.next() {
            let (counted, complete) = self.pass_for(alloc, &met, place, depth, search, graph)?;
            depth = counted;
            if complete {
                return Ok(depth);
            }
        }
        Ok(depth)
    }
}

/// Returns one more than a count.
fn one_more(count: u32) -> u128
    ensures { result ≡ count + 1 }
{
    u128::from(count) + 1
}

/// The result of a walk.
#[derive(Drop)]
pub(crate) struct Found {
    /// The chosen named ancestor, with its depth.
    pub(crate) best: Option<(ObjectId, u32)>,
    /// How many commits were seen.
    pub(crate) seen: u32,
    /// How many commits left the queue.
    pub(crate) pops: u128,
}

/// Continues a walk until a named ancestor is chosen and its depth is complete.
fn found_by<'name, S: Find, A: Allocator + Copy>(
    walk: &mut Walk<A>,
    alloc: A,
    names: &Names<'name, A>,
    search: Search,
    graph: &mut Graph<S, u32, A>,
) -> Result<Found, Message>
    requires some { 0 < search.cap }
    requires cap { search.cap ≤ 32 }
    requires unnamed { name_at (names_of names.now.entries) search.start ≡ None }
    requires rests { RestsBy (S.history graph.old.source) search (names_of names.now.entries) walk.old graph.old }
    ensures found { IfOk result (λ f. IsFound (along search (S.history graph.old.source)) search.start
        (names_of names.now.entries) search.cap f.best f.seen) }
    ensures tied { IfOk result (λ f. IfSome f.best (λ p. IsTied search.tie
        (along search (S.history graph.old.source)) search.start
        (names_of names.now.entries) search.cap p.0 p.1 f.seen)) }
    ensures held { IfOk result (λ f. HoldsFirst search.tie
        (along search (S.history graph.old.source)) search.start f.seen (held_at graph.new)) }
    ensures pops { IfOk result (λ f. MatchOption f.best (f.pops ≡ f.seen) (λ _. CountsNamed search.tie
        (along search (S.history graph.old.source)) search.start
        (names_of names.now.entries) search.cap f.seen f.pops)) }
    ensures fault { IfErr result (IsHeldAtFaultBy (S.history graph.old.source) search (held_at graph.new)) }
    ensures asked { AsksBy S.history S.fault_count search graph.old.source graph.new.source (refusal result) }
{
    let sieve = Sieve::of(names);
    let full = walk.run(alloc, names, &sieve, search, graph)?;
    let Some(place) = walk.chosen(names, search.tie) else {
        return Ok(Found {
            best: None,
            seen: walk.seen,
            pops: u128::from(walk.seen),
        });
    };
    let id = walk.candidates[place];
    let count = walk.counts[place];
    if !full {
        return Ok(Found {
            best: Some((id, count)),
            seen: walk.seen,
            pops: u128::from(walk.seen),
        });
    }
    // The commit that had no room is popped a second time.
    let depth = walk.complete(alloc, place, count, search, graph)?;
    Ok(Found {
        best: Some((id, depth)),
        seen: walk.seen,
        pops: one_more(walk.seen),
    })
}

/// Walks from the start until a named ancestor is chosen and its depth is complete.
pub(crate) fn find_name<'name, S: Find, A: Allocator + Copy>(
    alloc: A,
    names: &Names<'name, A>,
    search: Search,
    graph: &mut Graph<S, u32, A>,
) -> Result<Found, Message>
    requires some { 0 < search.cap }
    requires cap { search.cap ≤ 32 }
    requires unnamed { name_at (names_of names.now.entries) search.start ≡ None }
    requires empty { (q : ObjectId) → held_at graph.old q ≡ None }
    ensures found { IfOk result (λ f. IsFound (along search (S.history graph.old.source)) search.start
        (names_of names.now.entries) search.cap f.best f.seen) }
    ensures tied { IfOk result (λ f. IfSome f.best (λ p. IsTied search.tie
        (along search (S.history graph.old.source)) search.start
        (names_of names.now.entries) search.cap p.0 p.1 f.seen)) }
    ensures held { IfOk result (λ f. HoldsFirst search.tie
        (along search (S.history graph.old.source)) search.start f.seen (held_at graph.new)) }
    ensures pops { IfOk result (λ f. MatchOption f.best (f.pops ≡ f.seen) (λ _. CountsNamed search.tie
        (along search (S.history graph.old.source)) search.start
        (names_of names.now.entries) search.cap f.seen f.pops)) }
    ensures fault { IfErr result (IsHeldAtFaultBy (S.history graph.old.source) search (held_at graph.new)) }
    ensures asked { AsksBy S.history S.fault_count search graph.old.source graph.new.source (refusal result) }
{
    let mut walk = Walk::begin(alloc, search, graph)?;
    found_by(&mut walk, alloc, names, search, graph)
}
