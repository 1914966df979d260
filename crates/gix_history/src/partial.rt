//! A source over the commits that were read of a history.

ghost use Rattle.std.specs.Prelude.{◌≡◌, None};

use crate::beyond::Beyond;
use gix_base::hash::ObjectId;
use gix_revwalk::graph::{Find, FindFault, SourceCommit};
use std::alloc::Allocator;
use std::marker::PhantomData;

/// A source over the commits that were read of a history.
///
/// A look-up of another commit fails, which is a fault, and notes which one is wanted. The history
/// of this source is the commits that were read, and then what lies beyond.
#[derive(Drop)]
pub struct Partial<S: Find, K: Beyond> {
    /// The commits that were read.
    pub read: S,
    /// The commit that the last failed look-up wanted.
    pub wanted: Option<ObjectId>,
    failed: u64,
    of: PhantomData<K>,
}

impl<S: Find, K: Beyond> Partial<S, K> {
    /// Makes a source over the commits that were read.
    pub fn new(read: S) -> Self
        // The source of the commits that were read is the one that was passed.
        ensures read { result.read ≡ read }

        // No commit is noted as wanted.
        ensures wanted { result.wanted ≡ None }
    {
        Partial {
            read,
            wanted: None,
            failed: 0,
            of: PhantomData,
        }
    }
}

impl<S: Find, K: Beyond> Find for Partial<S, K> {
    ghost use Rattle.std.specs.Prelude.{◌++◌};

    ghost history = { λ s. S.history s.read ++ K.beyond };

    ghost fault_count = { λ s. s.failed };

    fn find<A: Allocator + Copy>(
        &mut self,
        alloc: A,
        id: ObjectId,
    ) -> Result<Option<SourceCommit<A>>, FindFault> {
        match self.read.find(alloc, id) {
            Ok(Some(commit)) => Ok(Some(commit)),
            Err(FindFault::OutOfMemory) => Err(FindFault::OutOfMemory),
            _ => {
                self.wanted = Some(id);
                self.failed = self.failed.saturating_add(1);
                Err(FindFault::Failed)
            }
        }
    }

    fn faults(&self) -> u64 {
        self.failed
    }
}
