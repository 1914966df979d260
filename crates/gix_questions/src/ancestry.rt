//! Asks whether commits reach another.

ghost use Rattle.std.specs.Prelude.{◌≡◌, IfOk, true};
ghost use Rattle.gix_questions.specs.AncestryQuestions.{MeanContained, MeansAncestor};

use crate::bases::{first_or, refused_for};
use gix_history::{Question, Refused};
use gix_range::is_reached;
use gix_revision::Seed;
use gix_revision::graph::{Commit, Find, Graph};
use gix_revision::hash::ObjectId;
use gix_revision::merge_base::{Error, Flags, is_ancestor};
use std::alloc::{Allocator, Global};

/// Tests by painting whether `of` reaches `ancestor`.
fn reaches_early<S: Find, A: Allocator + Copy>(
    alloc: A,
    ancestor: ObjectId,
    of: ObjectId,
    graph: &mut Graph<S, Commit<Flags, A>, A>,
) -> Result<bool, Error>
    ensures means { IfOk result (MeansAncestor (S.history graph.old.source) true ancestor of) }
    ensures history { S.history graph.new.source ≡ S.history graph.old.source }
{
    if ancestor == of {
        let found = is_ancestor(alloc, ancestor, of, graph)?;
        return Ok(found);
    }
    let found = is_reached(alloc, ancestor, &[of], graph)?;
    Ok(found)
}

/// Tests whether `of` reaches `ancestor`.
fn reaches<S: Find, A: Allocator + Copy>(
    alloc: A,
    early: bool,
    ancestor: ObjectId,
    of: ObjectId,
    graph: &mut Graph<S, Commit<Flags, A>, A>,
) -> Result<bool, Error>
    ensures means { IfOk result (MeansAncestor (S.history graph.old.source) early ancestor of) }
    ensures history { S.history graph.new.source ≡ S.history graph.old.source }
{
    if early {
        let found = reaches_early(alloc, ancestor, of, graph)?;
        return Ok(found);
    }
    let found = is_ancestor(alloc, ancestor, of, graph)?;
    Ok(found)
}

/// Asks whether `ancestor` is reachable from `of` (git-merge-base, "--is-ancestor").
///
/// The answer is that of [`is_reached`] if it is made early, and otherwise that of [`is_ancestor`].
///
/// Premises: acyclic if the answer is made early, and otherwise ordered generations. Without them
/// `true` is still right.
#[derive(Clone, Copy)]
pub struct IsAncestor<A: Allocator + Copy = Global> {
    /// The memory of the walk.
    pub alloc: A,
    /// Whether the answer is made early (`gix_range`).
    pub early: bool,
    /// The commit that may be reached.
    pub ancestor: ObjectId,
    /// The commit that may reach it.
    pub of: ObjectId,
}

impl<A: Allocator + Copy> Question for IsAncestor<A> {
    ghost use Rattle.gix_questions.specs.AncestryQuestions.{MeansAncestor};

    type Answer = bool;

    ghost means = { λ q h yes. MeansAncestor h q.early q.ancestor q.of yes };

    fn ask<S: Find>(&self, seed: Seed, source: &mut S) -> Result<bool, Refused> {
        let mut graph = Graph::with_seed(self.alloc, source, seed);
        match reaches(self.alloc, self.early, self.ancestor, self.of, &mut graph) {
            Ok(yes) => Ok(yes),
            Err(error) => Err(refused_for(error)),
        }
    }

    fn named(&self, number: usize) -> Option<ObjectId> {
        match number {
            0 => Some(self.ancestor),
            1 => Some(self.of),
            _ => None,
        }
    }
}

/// Asks which of `tips` reach `commit` (git-for-each-ref, "--contains").
///
/// The answer has one truth value for each tip, in order: that of [`IsAncestor`].
///
/// Premises: those of [`IsAncestor`]. Without them `true` is still right.
#[derive(Clone, Copy)]
pub struct Contains<'a, A: Allocator + Copy = Global> {
    /// The memory of the answer.
    pub alloc: A,
    /// Whether the answer is made early (`gix_range`).
    pub early: bool,
    /// The commit that may be reached.
    pub commit: ObjectId,
    /// The commits that may reach it.
    pub tips: &'a [ObjectId],
}

/// Asks about each tip over one graph.
fn all_tested<S: Find, A: Allocator + Copy>(
    alloc: A,
    early: bool,
    commit: ObjectId,
    tips: &[ObjectId],
    graph: &mut Graph<S, Commit<Flags, A>, A>,
) -> Result<Vec<bool, A>, Error>
    ensures { IfOk result
        (λ r. MeanContained (S.history graph.old.source) early commit tips.now r.items) }
{
    let mut answers = Vec::with_capacity(alloc, tips.len())?;
    for tip in tips {
        let reached = reaches(alloc, early, commit, *tip, graph)?;
        answers.push_reserved(reached);
    }
    Ok(answers)
}

impl<A: Allocator + Copy> Question for Contains<'_, A> {
    ghost use Rattle.gix_questions.specs.AncestryQuestions.{MeanContained};

    type Answer = Vec<bool, A>;

    ghost means = { λ q h answers. MeanContained h q.early q.commit q.tips.now answers.items };

    fn ask<S: Find>(&self, seed: Seed, source: &mut S) -> Result<Vec<bool, A>, Refused> {
        let mut graph = Graph::with_seed(self.alloc, source, seed);
        match all_tested(self.alloc, self.early, self.commit, self.tips, &mut graph) {
            Ok(answers) => Ok(answers),
            Err(error) => Err(refused_for(error)),
        }
    }

    fn named(&self, number: usize) -> Option<ObjectId> {
        first_or(self.commit, self.tips, number)
    }
}
