//! Has the fault of `describe`.

ghost use Rattle.std.specs.Prelude.{◌≡◌, Some};

use crate::hash::ObjectId;
use std::alloc::AllocError;
use std::fmt;
use thiserror::Error;

/// Says why a commit was not described.
#[derive(Clone, Copy, Debug, PartialEq, Eq, Drop, Error)]
pub enum Message {
    /// The source failed when the walk asked for the parents of this commit.
    ParentsOf(ObjectId),
    /// The source does not have the commit that was to be described.
    MissingStart(ObjectId),
    /// The commit reaches 2^32 commits or more, which a count of 32 bits cannot hold.
    CounterFull,
    /// An allocation failed.
    OutOfMemory,
}

impl fmt::Display for Message {
    ghost use Rattle.gix_base.specs.Message.{message_text};

    ghost output = { λ m. Some (message_text m) };

    fn fmt<W: fmt::Write>(&self, f: &mut fmt::Formatter<W>) -> fmt::Result {
        match self {
            Message::ParentsOf(id) => {
                write!(f, "could not insert parents of commit {id} into graph")
            }
            Message::MissingStart(id) => write!(f, "commit {id} is not in the source"),
            Message::CounterFull => f.write_str("a counter is full"),
            Message::OutOfMemory => f.write_str("out of memory"),
        }
    }
}

impl From<AllocError> for Message {
    ghost use Rattle.gix_base.specs.declared.error.message.Message.TheVariants.{OutOfMemory};

    ghost from_gives = { λ _ m. m ≡ OutOfMemory };

    fn from(_error: AllocError) -> Message {
        Message::OutOfMemory
    }
}
