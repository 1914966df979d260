//! Asks for merge bases, and which commits no other one reaches.

ghost use Rattle.std.specs.Prelude.{IfOk};

use gix_history::{Question, Refused};
use gix_range::{bases, independent};
use gix_revision::Seed;
use gix_revision::error::NonEmpty;
use gix_revision::graph::{Find, Graph};
use gix_revision::hash::ObjectId;
use gix_revision::merge_base::{Error, merge_base, reduce};
use std::alloc::{Allocator, Global};

/// Returns why a question about merge bases has no answer.
pub(crate) fn refused_for(error: Error) -> Refused {
    match error {
        Error::Source(_) => Refused::Source,
        Error::OutOfMemory => Refused::OutOfMemory,
    }
}

/// Returns the id with this number among `first` and then `others`.
pub(crate) fn first_or(first: ObjectId, others: &[ObjectId], number: usize) -> Option<ObjectId> {
    match number.checked_sub(1) {
        None => Some(first),
        Some(place) => others.get(place).copied(),
    }
}

/// Asks for the merge bases of `first` and a hypothetical merge of `others`.
///
/// The answer is that of [`merge_base`]: the merge bases in order, or `None` if there is none.
///
/// Premises: acyclic, and ordered generations.
#[derive(Clone, Copy)]
pub struct MergeBases<'a, A: Allocator + Copy = Global> {
    /// The memory of the answer.
    pub alloc: A,
    /// The commit that reaches each merge base.
    pub first: ObjectId,
    /// The commits of which at least one reaches each merge base.
    pub others: &'a [ObjectId],
}

impl<A: Allocator + Copy> Question for MergeBases<'_, A> {
    ghost use Rattle.gix_questions.specs.BaseQuestions.{MeansBases};

    type Answer = Option<NonEmpty<ObjectId, A>>;

    ghost means = { λ q h found. MeansBases h q.first q.others.now found };

    fn ask<S: Find>(
        &self,
        seed: Seed,
        source: &mut S,
    ) -> Result<Option<NonEmpty<ObjectId, A>>, Refused> {
        let mut graph = Graph::with_seed(self.alloc, source, seed);
        match merge_base(self.alloc, self.first, self.others, &mut graph) {
            Ok(found) => Ok(found),
            Err(error) => Err(refused_for(error)),
        }
    }

    fn named(&self, number: usize) -> Option<ObjectId> {
        first_or(self.first, self.others, number)
    }
}

/// Asks which of `ids` no other of them reaches (git-merge-base, "--independent").
///
/// The answer is that of [`reduce`].
///
/// Premises: acyclic, and ordered generations.
#[derive(Clone, Copy)]
pub struct Independent<'a, A: Allocator + Copy = Global> {
    /// The memory of the answer.
    pub alloc: A,
    /// The commits that are compared.
    pub ids: &'a [ObjectId],
}

impl<A: Allocator + Copy> Question for Independent<'_, A> {
    ghost use Rattle.gix_questions.specs.BaseQuestions.{MeansIndependent};

    type Answer = Vec<ObjectId, A>;

    ghost means = { λ q h left. MeansIndependent h q.ids.now left.items };

    fn ask<S: Find>(&self, seed: Seed, source: &mut S) -> Result<Vec<ObjectId, A>, Refused> {
        let mut graph = Graph::with_seed(self.alloc, source, seed);
        match reduce(self.alloc, self.ids, &mut graph) {
            Ok(left) => Ok(left),
            Err(error) => Err(refused_for(error)),
        }
    }

    fn named(&self, number: usize) -> Option<ObjectId> {
        self.ids.get(number).copied()
    }
}

/// Asks for the merge bases of `first` and a hypothetical merge of `others`, in no certain order, and
/// ends early also without generation numbers.
///
/// The answer is that of [`bases`].
///
/// Premise: acyclic.
#[derive(Clone, Copy)]
pub struct EarlyBases<'a, A: Allocator + Copy = Global> {
    /// The memory of the answer.
    pub alloc: A,
    /// The commit that reaches each merge base.
    pub first: ObjectId,
    /// The commits of which at least one reaches each merge base.
    pub others: &'a [ObjectId],
}

impl<A: Allocator + Copy> Question for EarlyBases<'_, A> {
    ghost use Rattle.gix_questions.specs.BaseQuestions.{MeansEarlyBases};

    type Answer = Vec<ObjectId, A>;

    ghost means = { λ q h found. MeansEarlyBases h q.first q.others.now found.items };

    fn ask<S: Find>(&self, seed: Seed, source: &mut S) -> Result<Vec<ObjectId, A>, Refused> {
        let mut graph = Graph::with_seed(self.alloc, source, seed);
        match bases(self.alloc, self.first, self.others, &mut graph) {
            Ok(found) => Ok(found),
            Err(error) => Err(refused_for(error)),
        }
    }

    fn named(&self, number: usize) -> Option<ObjectId> {
        first_or(self.first, self.others, number)
    }
}

/// Asks which of `ids` no other of them reaches, and ends early also without generation numbers.
///
/// The answer is that of [`independent`].
///
/// Premise: acyclic.
#[derive(Clone, Copy)]
pub struct EarlyIndependent<'a, A: Allocator + Copy = Global> {
    /// The memory of the answer.
    pub alloc: A,
    /// The commits that are compared.
    pub ids: &'a [ObjectId],
}

impl<A: Allocator + Copy> Question for EarlyIndependent<'_, A> {
    ghost use Rattle.gix_questions.specs.BaseQuestions.{MeansEarlyIndependent};

    type Answer = Vec<ObjectId, A>;

    ghost means = { λ q h left. MeansEarlyIndependent h q.ids.now left.items };

    fn ask<S: Find>(&self, seed: Seed, source: &mut S) -> Result<Vec<ObjectId, A>, Refused> {
        let mut graph = Graph::with_seed(self.alloc, source, seed);
        match independent(self.alloc, self.ids, &mut graph) {
            Ok(left) => Ok(left),
            Err(error) => Err(refused_for(error)),
        }
    }

    fn named(&self, number: usize) -> Option<ObjectId> {
        self.ids.get(number).copied()
    }
}
