//! Asks how many commits are in a set.

use gix_history::{Question, Refused};
use gix_resolve::{ListError, count_commits};
use gix_revision::Seed;
use gix_revision::graph::{Find, Graph};
use gix_revision::hash::ObjectId;
use gix_revision::spec::Spec;
use std::alloc::{Allocator, Global};

/// Returns why a question about lists has no answer.
pub(crate) fn list_refused(error: ListError) -> Refused {
    match error {
        ListError::Source => Refused::Source,
        ListError::OutOfMemory => Refused::OutOfMemory,
    }
}

/// Asks how many commits are in `spec` (git-rev-list, "--count").
///
/// The answer is that of [`count_commits`].
#[derive(Clone, Copy)]
pub struct CountCommits<A: Allocator + Copy = Global> {
    /// The memory of the walk.
    pub alloc: A,
    /// The revision range or set.
    pub spec: Spec,
}

impl<A: Allocator + Copy> Question for CountCommits<A> {
    ghost use Rattle.gix_revwalk.specs.Sizes.{HasSize};
    ghost use Rattle.gix_resolve.specs.ListMeaning.{IsMeant};

    type Answer = usize;

    ghost means = { λ q h n. HasSize (IsMeant h q.spec) n };

    fn ask<S: Find>(&self, seed: Seed, source: &mut S) -> Result<usize, Refused> {
        let mut graph = Graph::with_seed(self.alloc, source, seed);
        match count_commits(self.alloc, &self.spec, &mut graph) {
            Ok(n) => Ok(n),
            Err(error) => Err(list_refused(error)),
        }
    }

    fn named(&self, number: usize) -> Option<ObjectId> {
        None
    }
}
