//! What is asked of a history.

ghost use Rattle.std.specs.Prelude.{IfOk, IfSome};
ghost use Rattle.gix_revwalk.specs.History.{IsAncestorOfOne};
ghost use Rattle.gix_revwalk.specs.Sizes.{HasSize};

use gix_base::hash::ObjectId;
use gix_revwalk::Seed;
use gix_revwalk::graph::Find;

/// Says why a question has no answer.
#[derive(Clone, Copy)]
pub enum Refused {
    /// The source failed.
    Source,
    /// An allocation failed.
    OutOfMemory,
}

/// A question about a history.
///
/// An implementor names what an answer means (`means`), for any history.
pub trait Question {
    ghost use Rattle.gix_revwalk.specs.History.{History};

    /// The type of an answer.
    type Answer: Drop;

    ghost means: { Self → History → Self.Answer → Type 0 };

    /// Answers over a source, with a new graph whose hash maps are seeded with `seed`.
    ///
    /// # Errors
    ///
    /// - [`Refused::Source`]: the source failed.
    /// - [`Refused::OutOfMemory`]: an allocation failed.
    fn ask<S: Find>(&self, seed: Seed, source: &mut S) -> Result<Self::Answer, Refused>
        // The answer has the meaning that the question names, in the history of the source.
        ensures { IfOk result (means self.now (S.history source.old)) };

    /// Returns the id with this number among those that the question names; `None` after the last.
    ///
    /// They are read first, all at once.
    fn named(&self, number: usize) -> Option<ObjectId>;

    /// Returns whether an answer needs all that the named commits reach. All of it is then read at
    /// once.
    fn needs_all(&self) -> bool {
        false
    }

    /// Returns the commits of whose ancestors the answer is the number; `None` if it is none.
    fn counts(&self) -> Option<&[ObjectId]> {
        None
    }

    /// Returns the answer, if so many commits are ancestors of `tips`, and the answer is that number.
    fn counted(&self, tips: &[ObjectId], count: usize) -> Option<Self::Answer>
        // If there is an answer, it has the meaning that the question names, in each history in
        // which `tips` reach exactly `count` commits.
        ensures { IfSome result (λ answer. (h : History)
            → HasSize (IsAncestorOfOne h tips.now) count → means self.now h answer) }
    {
        None
    }
}
