//! Asks for a name of a commit.

ghost use Rattle.std.specs.Prelude.{◌≡◌, IfOk, Err};
ghost use Rattle.gix_questions.specs.DescribeQuestions.{MeansDescription};

use gix_history::{Question, Refused};
use gix_revision::Seed;
use gix_revision::describe::{Manner, Names, Nearest, counted_by};
use gix_revision::error::Message;
use gix_revision::graph::{Find, Graph};
use gix_revision::hash::ObjectId;
use std::alloc::{Allocator, Global};

/// Returns the answer: what was found or the refusal, unless the source or an allocation failed.
fn answered<T: Drop>(found: Result<T, Message>) -> Result<Result<T, Message>, Refused>
    ensures { IfOk result (λ answer. answer ≡ found) }
{
    match found {
        Err(Message::ParentsOf(_)) => Err(Refused::Source),
        Err(Message::OutOfMemory) => Err(Refused::OutOfMemory),
        answer => Ok(answer),
    }
}

/// Returns the nearest name, as [`counted_by`] does, over a graph of its own.
fn nearest<'name, S: Find, A: Allocator + Copy>(
    alloc: A,
    seed: Seed,
    source: &mut S,
    commit: &ObjectId,
    names: &Names<'name, A>,
    manner: Manner,
) -> Result<Option<Nearest<'name, A>>, Message>
    ensures { MeansDescription (S.history source.old) commit.now names.now manner result }
{
    let mut graph = Graph::with_seed(alloc, &mut *source, seed);
    match counted_by(alloc, commit, &mut graph, names, manner) {
        Ok((found, _pops)) => Ok(found),
        Err(error) => Err(error),
    }
}

/// Asks for the name of a commit: its own, or that of a near ancestor (git-describe).
///
/// The answer is that of [`counted_by`]: the nearest name, `None` if no name is found, or the refusal
/// [`Message::MissingStart`] or [`Message::CounterFull`].
///
/// Premises: older parents. Without them the depth may be greater than the number of commits ahead
/// of the named one.
#[derive(Drop)]
pub struct Describe<'name, A: Allocator + Copy = Global> {
    /// The memory of the answer.
    pub alloc: A,
    /// The commit to describe.
    pub commit: ObjectId,
    /// The names.
    pub names: Names<'name, A>,
    /// How to choose among them.
    pub manner: Manner,
}

impl<'name, A: Allocator + Copy> Question for Describe<'name, A> {
    ghost use Rattle.gix_questions.specs.DescribeQuestions.{MeansDescription};

    type Answer = Result<Option<Nearest<'name, A>>, Message>;

    ghost means = { λ q h answer. MeansDescription h q.commit q.names q.manner answer };

    fn ask<S: Find>(
        &self,
        seed: Seed,
        source: &mut S,
    ) -> Result<Result<Option<Nearest<'name, A>>, Message>, Refused> {
        answered(nearest(
            self.alloc,
            seed,
            source,
            &self.commit,
            &self.names,
            self.manner,
        ))
    }

    fn named(&self, number: usize) -> Option<ObjectId> {
        match number {
            0 => Some(self.commit),
            _ => None,
        }
    }
}
