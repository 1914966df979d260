//! Why commands were not answered, or not all of them.

ghost use Rattle.std.specs.Prelude.{◌≡◌, ◌≤◌, ◌<◌};
ghost use Rattle.std.specs.Io.KnownBytes.{Keeps};

use std::alloc::{AllocError, AllocFailed};
use std::io::Write;

/// The reason why the program ended before its last answer.
#[derive(Clone, Copy)]
pub(crate) enum Stop {
    /// Reading the input failed, or it had not ended after the greatest number of reads.
    UnreadableInput,
    /// The number of the first unreadable line, counted from 1.
    UnreadableLine(usize),
    /// Writing the output failed.
    UnwritableOutput,
    OutOfMemory,
}

impl From<AllocError> for Stop {
    fn from(_error: AllocError) -> Stop {
        Stop::OutOfMemory
    }
}

impl<T: Drop> From<AllocFailed<T>> for Stop {
    fn from(_error: AllocFailed<T>) -> Stop {
        Stop::OutOfMemory
    }
}

impl Stop {
    /// Returns the exit status.
    pub(crate) fn status(self) -> u8
        ensures least { 0 < result }
        ensures most { result ≤ 2 }
    {
        match self {
            Stop::OutOfMemory => 1,
            Stop::UnreadableInput | Stop::UnreadableLine(_) | Stop::UnwritableOutput => 2,
        }
    }

    /// Writes a line that says why, except if the output failed. A failed write is ignored.
    pub(crate) fn report<E: Write>(self, faults: &mut E)
        ensures { self ≡ Stop.UnwritableOutput
            → Keeps (E.contents faults.old) (E.contents faults.new) }
    {
        let _ = match self {
            Stop::UnreadableInput => writeln!(faults, "cannot read standard input"),
            Stop::UnreadableLine(number) => writeln!(faults, "line {number} is unreadable"),
            Stop::OutOfMemory => writeln!(faults, "out of memory"),
            Stop::UnwritableOutput => Ok(()),
        };
    }
}
