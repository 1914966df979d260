//! Asks for the commits that some commits reach and others do not, and how many they are.

ghost use Rattle.std.specs.Prelude.{◌≡◌, IfOk, IsTrue, true};
ghost use Rattle.gix_questions.specs.ReachQuestions.{MeansReachable, MeansCountReachable, MeansAheadBehind};

use crate::bases::refused_for;
use crate::lists::list_refused;
use gix_history::{Question, Refused};
use gix_range::{beyond, count_beyond};
use gix_resolve::{ahead_behind, count_reachable, newest_first, reachable_newest_first};
use gix_revision::Seed;
use gix_revision::graph::{Commit, Find, Graph};
use gix_revision::hash::ObjectId;
use gix_revision::merge_base::Flags;
use std::alloc::{Allocator, Global};

/// Returns the id with this number among `first` and then `second`.
fn of_both(first: &[ObjectId], second: &[ObjectId], number: usize) -> Option<ObjectId> {
    match number.checked_sub(first.len()) {
        None => first.get(number).copied(),
        Some(place) => second.get(place).copied(),
    }
}

/// Returns `true` only if two lists have the same ids.
fn are_same(first: &[ObjectId], second: &[ObjectId]) -> bool
    ensures { IsTrue result → first.now ≡ second.now }
{
    first == second
}

/// Lists early what `include` reaches and `exclude` does not, newest first.
fn newest_beyond<S: Find, A: Allocator + Copy>(
    alloc: A,
    include: &[ObjectId],
    exclude: &[ObjectId],
    graph: &mut Graph<S, Commit<Flags, A>, A>,
) -> Result<Vec<ObjectId, A>, Refused>
    ensures { IfOk result (λ ids.
        MeansReachable (S.history graph.old.source) true include.now exclude.now ids.items) }
{
    let ids = match beyond(alloc, include, exclude, graph) {
        Ok(ids) => ids,
        Err(error) => return Err(refused_for(error)),
    };
    match newest_first(alloc, &ids, graph) {
        Ok(sorted) => Ok(sorted),
        Err(error) => Err(list_refused(error)),
    }
}

/// Asks for the commits that `include` reaches and `exclude` does not, newest first, each once.
///
/// The answer is that of [`beyond`] if it is made early, and otherwise that of
/// [`reachable_newest_first`].
///
/// Premises: acyclic if the answer is made early, and otherwise ordered generations. Without them
/// the list still has every such commit, and only commits that `include` reaches.
#[derive(Clone, Copy)]
pub struct ReachableNewestFirst<'a, A: Allocator + Copy = Global> {
    /// The memory of the answer.
    pub alloc: A,
    /// Whether the answer is made early (`gix_range`).
    pub early: bool,
    /// The commits that reach what is asked for.
    pub include: &'a [ObjectId],
    /// The commits that reach nothing of it.
    pub exclude: &'a [ObjectId],
}

impl<A: Allocator + Copy> Question for ReachableNewestFirst<'_, A> {
    type Answer = Vec<ObjectId, A>;

    ghost means = { λ q h ids. MeansReachable h q.early q.include.now q.exclude.now ids.items };

    fn ask<S: Find>(&self, seed: Seed, source: &mut S) -> Result<Vec<ObjectId, A>, Refused> {
        let mut graph = Graph::with_seed(self.alloc, source, seed);
        if self.early {
            return newest_beyond(self.alloc, self.include, self.exclude, &mut graph);
        }
        match reachable_newest_first(self.alloc, self.include, self.exclude, &mut graph) {
            Ok(ids) => Ok(ids),
            Err(error) => Err(list_refused(error)),
        }
    }

    fn named(&self, number: usize) -> Option<ObjectId> {
        of_both(self.include, self.exclude, number)
    }

    fn needs_all(&self) -> bool {
        self.exclude.is_empty()
    }
}

/// Counts early what `include` reaches and `exclude` does not.
fn counted_beyond<S: Find, A: Allocator + Copy>(
    alloc: A,
    include: &[ObjectId],
    exclude: &[ObjectId],
    graph: &mut Graph<S, Commit<Flags, A>, A>,
) -> Result<usize, Refused>
    ensures { IfOk result
        (MeansCountReachable (S.history graph.old.source) true include.now exclude.now) }
{
    match count_beyond(alloc, include, exclude, graph) {
        Ok(n) => Ok(n),
        Err(error) => Err(refused_for(error)),
    }
}

/// Asks how many commits `include` reaches and `exclude` does not (git-rev-list, "--count").
///
/// The answer is that of [`count_beyond`] if it is made early, and otherwise that of
/// [`count_reachable`].
///
/// Premises: acyclic if the answer is made early, and otherwise ordered generations. Without them
/// the count is still no less than this number, and no more than the number of commits that
/// `include` reaches.
#[derive(Clone, Copy)]
pub struct CountReachable<'a, A: Allocator + Copy = Global> {
    /// The memory of the walk.
    pub alloc: A,
    /// Whether the answer is made early (`gix_range`).
    pub early: bool,
    /// The commits that reach what is asked for.
    pub include: &'a [ObjectId],
    /// The commits that reach nothing of it.
    pub exclude: &'a [ObjectId],
}

impl<A: Allocator + Copy> Question for CountReachable<'_, A> {
    type Answer = usize;

    ghost means = { λ q h n. MeansCountReachable h q.early q.include.now q.exclude.now n };

    fn ask<S: Find>(&self, seed: Seed, source: &mut S) -> Result<usize, Refused> {
        let mut graph = Graph::with_seed(self.alloc, source, seed);
        if self.early {
            return counted_beyond(self.alloc, self.include, self.exclude, &mut graph);
        }
        match count_reachable(self.alloc, self.include, self.exclude, &mut graph) {
            Ok(n) => Ok(n),
            Err(error) => Err(list_refused(error)),
        }
    }

    fn named(&self, number: usize) -> Option<ObjectId> {
        of_both(self.include, self.exclude, number)
    }

    fn needs_all(&self) -> bool {
        self.exclude.is_empty()
    }

    fn counts(&self) -> Option<&[ObjectId]> {
        if self.exclude.is_empty() {
            Some(self.include)
        } else {
            None
        }
    }

    fn counted(&self, tips: &[ObjectId], count: usize) -> Option<usize> {
        if self.exclude.is_empty() && are_same(tips, self.include) {
            Some(count)
        } else {
            None
        }
    }
}

/// Counts early what only `ours` reaches, and what only `theirs` reaches.
fn counted_sides<S: Find, A: Allocator + Copy>(
    alloc: A,
    ours: ObjectId,
    theirs: ObjectId,
    graph: &mut Graph<S, Commit<Flags, A>, A>,
) -> Result<(usize, usize), Refused>
    ensures { IfOk result
        (λ r. MeansAheadBehind (S.history graph.old.source) true ours theirs r.0 r.1) }
{
    match gix_range::ahead_behind(alloc, ours, theirs, graph) {
        Ok(counts) => Ok(counts),
        Err(error) => Err(refused_for(error)),
    }
}

/// Asks how many commits only `ours` reaches, and how many only `theirs` reaches (git-rev-list,
/// "--left-right" with "--count").
///
/// The answer is that of `gix_range` if it is made early, and otherwise that of [`ahead_behind`].
///
/// Premises: acyclic if the answer is made early, and otherwise ordered generations. Without them
/// each count is still no less than this number, and no more than the number of commits that its
/// side reaches.
#[derive(Clone, Copy)]
pub struct AheadBehind<A: Allocator + Copy = Global> {
    /// The memory of the walk.
    pub alloc: A,
    /// Whether the answer is made early (`gix_range`).
    pub early: bool,
    /// The commit on one side.
    pub ours: ObjectId,
    /// The commit on the other side.
    pub theirs: ObjectId,
}

impl<A: Allocator + Copy> Question for AheadBehind<A> {
    type Answer = (usize, usize);

    ghost means = { λ q h counts. MeansAheadBehind h q.early q.ours q.theirs counts.0 counts.1 };

    fn ask<S: Find>(&self, seed: Seed, source: &mut S) -> Result<(usize, usize), Refused> {
        let mut graph = Graph::with_seed(self.alloc, source, seed);
        if self.early {
            return counted_sides(self.alloc, self.ours, self.theirs, &mut graph);
        }
        match ahead_behind(self.alloc, self.ours, self.theirs, &mut graph) {
            Ok(counts) => Ok(counts),
            Err(error) => Err(list_refused(error)),
        }
    }

    fn named(&self, number: usize) -> Option<ObjectId> {
        match number {
            0 => Some(self.ours),
            1 => Some(self.theirs),
            _ => None,
        }
    }
}
