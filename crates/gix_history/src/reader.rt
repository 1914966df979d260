//! Where commits are read from.

ghost use Rattle.std.specs.Prelude.{IfOk, Some};
ghost use Rattle.gix_base.specs.declared.hash.ObjectId.{ObjectId};
ghost use Rattle.gix_history.specs.Origins.{IsReadOf};

use crate::error::ReadError;
use gix_base::hash::ObjectId;
use gix_revwalk::graph::SourceCommit;
use std::alloc::Allocator;

/// Says where a commit is from.
#[derive(Clone, Copy, PartialEq, Eq)]
pub enum Origin {
    /// The commit is what a content says whose hash is the commit's id.
    Authentic,
    /// A commit-graph file says so.
    File,
    /// A graft, a replace reference or a shallow file changed the commit.
    Changed,
}

/// A commit that was read, and where it is from.
#[derive(Drop)]
pub struct Read<A: Allocator> {
    /// The parents, the time and the generation number.
    pub commit: SourceCommit<A>,
    /// Where it is from.
    pub origin: Origin,
}

impl<A: Allocator> Read<A> {
    /// Returns a commit that the repository changes. No content whose hash is its id has to say so.
    pub fn changed(commit: SourceCommit<A>) -> Self
        // Whatever the id is, the commit is from where it says (`IsReadOf`).
        ensures { (id : ObjectId) → IsReadOf id (Some result) }
    {
        Read {
            commit,
            origin: Origin::Changed,
        }
    }
}

/// Reads commits by their ids.
///
/// The one promise is that a commit called authentic is what a content says whose hash is the id.
/// Nothing else that a reader answers is believed.
pub trait Reader {
    /// Reads the commit `id`; returns `None` if there is none.
    ///
    /// The answer is in the memory of `alloc`.
    ///
    /// # Errors
    ///
    /// Any [`ReadError`]. The same commit may be asked for again.
    fn read<A: Allocator + Copy>(
        &mut self,
        alloc: A,
        id: ObjectId,
    ) -> Result<Option<Read<A>>, ReadError>
        // If a commit is found with the origin `Authentic`, a content whose hash is `id` says its
        // parents and its commit date.
        ensures { IfOk result (IsReadOf id) };
}

/// Lets a history use a reader that its owner lends.
impl<R: Reader> Reader for &mut R {
    fn read<A: Allocator + Copy>(
        &mut self,
        alloc: A,
        id: ObjectId,
    ) -> Result<Option<Read<A>>, ReadError>
        // If a commit is found with the origin `Authentic`, a content whose hash is `id` says its
        // parents and its commit date.
        ensures { IfOk result (IsReadOf id) }
    {
        (**self).read(alloc, id)
    }
}
