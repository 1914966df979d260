//! Sources to which commits can be added, and graphs of commits over them.

ghost use Rattle.std.specs.Prelude.{◌≡◌, IfErr, OnOk, OnErr, Some, None, if◌then◌else◌};
ghost use Rattle.gix_revwalk.specs.History.{entry_at, same_id};
ghost use Rattle.gix_base.specs.declared.hash.ObjectId.{ObjectId};

use crate::graph::{Commit, Find, Graph, SourceCommit};
use gix_base::hash::ObjectId;
use std::alloc::{Allocator, Global};

/// Why a source did not take a commit. The commit is handed back.
#[derive(Drop)]
#[derive_where(Debug, PartialEq, Eq)]
pub enum InsertError<A: Allocator = Global> {
    /// The source already has a commit with this id, and keeps it.
    AlreadyThere(SourceCommit<A>),
    /// An allocation failed.
    OutOfMemory(SourceCommit<A>),
}

/// A source to which commits can be added.
///
/// The history grows by one commit in a call that says so, and by nothing else. An implementor
/// names the entry that a commit stands for (`entry`), and what an error says (`says_why`).
pub trait Insert: Find {
    ghost use Rattle.gix_revwalk.specs.History.{Entry, History};

    /// A commit in the form in which it is handed over.
    type Commit: Drop;

    /// Why a commit was not taken.
    type Refused: Drop;

    ghost entry: { Self.Commit → Entry };

    ghost says_why: { History → ObjectId → Self.Commit → Self.Refused → Type 0 };

    /// Adds a commit under an id that the history does not have yet.
    ///
    /// From then on a look-up finds it, and every other commit as before. The fault count is
    /// unchanged.
    ///
    /// # Errors
    ///
    /// Fails if the history has a commit `id`. The error says what `says_why` states, for example
    /// that an allocation failed. The source is then unchanged.
    fn insert(&mut self, id: ObjectId, commit: Self::Commit) -> Result<(), Self::Refused>
        // The call succeeds only if the source has no commit with this id yet.
        ensures new { OnOk result (entry_at (Self.history self.old) id ≡ None) }

        // After a success the source has this commit under the id. What the source has under other
        // ids is unchanged.
        ensures put { OnOk result ((q : ObjectId)
            → entry_at (Self.history self.new) q
            ≡ (if same_id id q then Some (entry commit) else entry_at (Self.history self.old) q)) }

        // After an error the source is unchanged.
        ensures refused { OnErr result (self.new ≡ self.old) }

        // The error says what `says_why` states about the history before the call, the id and the
        // commit.
        ensures cause { IfErr result (says_why (Self.history self.old) id commit) }

        // The fault count is unchanged, also after an error.
        ensures count { Self.fault_count self.new ≡ Self.fault_count self.old };
}

impl<S: Insert, D: Drop, A: Allocator + Copy> Graph<S, Commit<D, A>, A> {
    /// Adds a commit to the source, under an id that the source does not have yet.
    ///
    /// Held commits stay held, with their data. The next call finds the new commit, also as a
    /// parent that the source did not have until then.
    ///
    /// # Errors
    ///
    /// Those of [`Insert::insert`]. The graph is then unchanged.
    pub fn insert(&mut self, id: ObjectId, commit: S::Commit) -> Result<(), S::Refused>
        // The call succeeds only if the source has no commit with this id yet.
        ensures new { OnOk result (entry_at (S.history self.old.source) id ≡ None) }

        // After a success the source has this commit under the id. What the source has under other
        // ids is unchanged.
        ensures put { OnOk result ((q : ObjectId)
            → entry_at (S.history self.new.source) q
            ≡ (if same_id id q then Some (S.entry commit)
            else entry_at (S.history self.old.source) q)) }

        // The same ids are held, in the same order and with the same values, also after an error.
        ensures held { self.new.held ≡ self.old.held }

        // For walks: what the current walk has marked is unchanged, also after an error.
        ensures marked { self.new.marked ≡ self.old.marked }

        // After an error the graph is unchanged, with its source.
        ensures refused { OnErr result (self.new ≡ self.old) }

        // The error says what `says_why` states about the history before the call, the id and the
        // commit.
        ensures cause { IfErr result (S.says_why (S.history self.old.source) id commit) }

        // The fault count is unchanged, also after an error.
        ensures count { S.fault_count self.new.source ≡ S.fault_count self.old.source }
    {
        self.source.insert(id, commit)
    }
}
