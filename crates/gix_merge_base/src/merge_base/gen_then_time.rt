//! The key by which walks compare commits: generation number, then time.

ghost use Rattle.std.specs.Prelude.{◌≡◌};
ghost use Rattle.gix_merge_base.specs.GenThenTime.{key_of};

use crate::merge_base::flags::Flags;
use gix_revwalk::graph::Commit;
use std::alloc::Allocator;

/// Holds the key of a commit. Keys are ordered by generation number, then by time.
#[derive(Clone, Copy, Debug, PartialEq, Eq, PartialOrd, Ord)]
pub struct GenThenTime {
    /// The generation number; `u32::MAX` if it is missing (git's technical/commit-graph,
    /// "generation number").
    pub generation: u32,
    /// The commit time in seconds since 1970-01-01 00:00:00 UTC.
    pub time: i64,
}

impl<A: Allocator> From<&Commit<Flags, A>> for GenThenTime {
    ghost from_gives = { λ commit key. key ≡ key_of commit.now };

    fn from(commit: &Commit<Flags, A>) -> GenThenTime {
        GenThenTime {
            generation: commit.generation().unwrap_or(u32::MAX),
            time: commit.commit_time(),
        }
    }
}
