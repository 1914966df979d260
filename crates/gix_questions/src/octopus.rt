//! Asks for octopus bases.

use crate::bases::{first_or, refused_for};
use gix_history::{Question, Refused};
use gix_range::octopus_bases;
use gix_revision::Seed;
use gix_revision::graph::{Find, Graph};
use gix_revision::hash::ObjectId;
use gix_revision::merge_base::octopus;
use std::alloc::{Allocator, Global};

/// Asks for the first octopus base of `first` and `others` together.
///
/// The answer is that of [`octopus`].
///
/// Premises: acyclic, and ordered generations.
#[derive(Clone, Copy)]
pub struct Octopus<'a, A: Allocator + Copy = Global> {
    /// The memory of the walk.
    pub alloc: A,
    /// One of the commits that reach each octopus base.
    pub first: ObjectId,
    /// The other commits that reach each octopus base.
    pub others: &'a [ObjectId],
}

impl<A: Allocator + Copy> Question for Octopus<'_, A> {
    ghost use Rattle.gix_questions.specs.BaseQuestions.{MeansOctopus};

    type Answer = Option<ObjectId>;

    ghost means = { λ q h found. MeansOctopus h q.first q.others.now found };

    fn ask<S: Find>(&self, seed: Seed, source: &mut S) -> Result<Option<ObjectId>, Refused> {
        let mut graph = Graph::with_seed(self.alloc, source, seed);
        match octopus(self.alloc, self.first, self.others, &mut graph) {
            Ok(found) => Ok(found),
            Err(error) => Err(refused_for(error)),
        }
    }

    fn named(&self, number: usize) -> Option<ObjectId> {
        first_or(self.first, self.others, number)
    }
}

/// Asks for the best common ancestors of `first` and all of `others`, in no certain order
/// (git-merge-base, "--octopus" with "--all"), and ends early also without generation numbers.
///
/// The answer is that of [`octopus_bases`].
///
/// Premise: acyclic.
#[derive(Clone, Copy)]
pub struct OctopusBases<'a, A: Allocator + Copy = Global> {
    /// The memory of the answer.
    pub alloc: A,
    /// One of the commits that reach each octopus base.
    pub first: ObjectId,
    /// The other commits that reach each octopus base.
    pub others: &'a [ObjectId],
}

impl<A: Allocator + Copy> Question for OctopusBases<'_, A> {
    ghost use Rattle.gix_questions.specs.BaseQuestions.{MeansOctopusBases};

    type Answer = Vec<ObjectId, A>;

    ghost means = { λ q h bases. MeansOctopusBases h q.first q.others.now bases.items };

    fn ask<S: Find>(&self, seed: Seed, source: &mut S) -> Result<Vec<ObjectId, A>, Refused> {
        let mut graph = Graph::with_seed(self.alloc, source, seed);
        match octopus_bases(self.alloc, self.first, self.others, &mut graph) {
            Ok(bases) => Ok(bases),
            Err(error) => Err(refused_for(error)),
        }
    }

    fn named(&self, number: usize) -> Option<ObjectId> {
        first_or(self.first, self.others, number)
    }
}
