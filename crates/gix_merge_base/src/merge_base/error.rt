//! The errors of the calls in this crate.

ghost use Rattle.std.specs.Prelude.{◌≡◌, Some, Err};
ghost use Rattle.gix_merge_base.specs.ErrorTexts.{merge_base_error_text};
ghost use Rattle.gix_merge_base.specs.Refusals.{HasInsertText, is_source_fault};
ghost use Rattle.gix_revwalk.specs.Faults.{is_source_fault as is_graph_fault};

use gix_revwalk::graph;
use std::alloc::AllocError;
use std::fmt;
use thiserror::Error as StdError;

/// Says what the call was doing when the source failed. `Display` writes the text as it is.
#[derive(Clone, Copy, Debug, PartialEq, Eq, Drop, StdError)]
pub struct Simple(pub &'static str);

impl fmt::Display for Simple {
    ghost output = { λ simple. Some simple.0.now };

    fn fmt<W: fmt::Write>(&self, f: &mut fmt::Formatter<W>) -> fmt::Result {
        f.write_str(self.0)
    }
}

/// Says why a call failed. The next call on the graph keeps all its promises.
#[derive(Clone, Copy, Debug, PartialEq, Eq, Drop, StdError)]
pub enum Error {
    /// The source failed while the call loaded an argument or a parent. The [fault
    /// count](crate#fault-count) has grown by one, unless it was `u64::MAX`.
    Source(Simple),
    /// An allocation failed, in the call or for the source's answer.
    OutOfMemory,
}

impl fmt::Display for Error {
    ghost output = { λ e. Some (merge_base_error_text e) };

    fn fmt<W: fmt::Write>(&self, f: &mut fmt::Formatter<W>) -> fmt::Result {
        match self {
            Error::Source(simple) => f.write_str(simple.0),
            Error::OutOfMemory => f.write_str("out of memory"),
        }
    }
}

impl From<AllocError> for Error {
    ghost use Rattle.gix_merge_base.specs.declared.merge_base.error.Error.TheVariants.{OutOfMemory};

    ghost from_gives = { λ _ e. e ≡ OutOfMemory };

    fn from(_refused: AllocError) -> Error {
        Error::OutOfMemory
    }
}

/// Returns the error for an argument that could not be loaded.
pub(crate) fn commit_refused(error: graph::Error) -> Error
    ensures cause { HasInsertText result }
    ensures same { is_source_fault {T = Unit {0}} (Err result)
        ≡ is_graph_fault {T = Unit {0}} (Err error) }
{
    match error {
        graph::Error::Source => Error::Source(Simple("could not insert commit into graph")),
        graph::Error::OutOfMemory => Error::OutOfMemory,
    }
}

/// Returns the error for a parent that could not be loaded.
pub(crate) fn parent_refused(error: graph::Error) -> Error
    ensures cause { HasInsertText result }
    ensures same { is_source_fault {T = Unit {0}} (Err result)
        ≡ is_graph_fault {T = Unit {0}} (Err error) }
{
    match error {
        graph::Error::Source => Error::Source(Simple("could not insert parent commit into graph")),
        graph::Error::OutOfMemory => Error::OutOfMemory,
    }
}
