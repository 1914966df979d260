//! Finds a name for a commit: its own, or that of a near ancestor (git-describe).

mod format;
mod function;
mod handing;
mod key;
mod met;
mod nearest;
mod options;
mod outcome;
mod queries;
mod queue;
mod sieve;
mod tally;
mod walk;

pub use format::Format;
pub use function::{counted, counted_by, describe};
pub use nearest::Nearest;
pub use options::{Manner, Names, Options, Tie};
pub use outcome::Outcome;
pub use queries::{Answer, Query, run};

/// The data that a graph has for each commit while [`describe()`] walks: one bit for each
/// candidate.
pub type Flags = u32;

/// The reason why a commit is not described.
pub type Error = gix_base::error::Message;
