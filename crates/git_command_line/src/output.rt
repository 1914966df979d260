//! Reads and writes the standard streams.

use git_session::stop::{Cause, Stop, failed};
use std::alloc::Global;
use std::io::{self, BufRead, ErrorKind, Write};

/// The status of a program that a closed pipe has ended: that of git, which the signal ends.
const CLOSED_PIPE: u8 = 141;

/// The line for an allocation that failed.
pub const OUT_OF_MEMORY: &[u8] = b"git-proved: out of memory\n";

/// The code of the system for a stream that is closed (errno(3), `EBADF`).
const CLOSED: i32 = 9;

/// The standard streams.
#[derive(Drop)]
pub struct Streams<'t, I: BufRead, O: Write, E: Write> {
    pub input: &'t mut I,
    pub output: &'t mut O,
    pub errors: &'t mut E,
}

/// Returns why a stream was not read or written.
pub fn reason_of(error: &io::Error) -> &'static [u8] {
    match error.kind() {
        ErrorKind::StorageFull => b"no space left on device",
        ErrorKind::QuotaExceeded => b"disk quota exceeded",
        ErrorKind::FileTooLarge => b"file too large",
        ErrorKind::IsADirectory => b"it is a folder",
        ErrorKind::OutOfMemory => b"out of memory",
        _ if error.raw_os_error() == Some(CLOSED) => b"it is closed",
        _ => b"input or output error",
    }
}

/// Writes bytes at once.
fn write_whole<W: Write>(output: &mut W, bytes: &[u8]) -> io::Result<()> {
    if bytes.is_empty() {
        return Ok(());
    }
    output.write_all(bytes)?;
    output.flush()
}

/// Says on standard error what has failed, and why.
pub fn say_failed<E: Write>(errors: &mut E, what: &[u8], reason: &[u8]) {
    for part in [b"git-proved: ".as_slice(), what, reason, b"\n"] {
        let _ = write_whole(errors, part);
    }
}

/// Writes what was printed, and returns the status.
///
/// A failure to write standard error changes nothing, as in git.
pub fn write_answer<O: Write, E: Write>(
    output: &mut O,
    errors: &mut E,
    status: u8,
    printed: &[u8],
    said: &[u8],
) -> u8 {
    let _ = write_whole(errors, said);
    match write_whole(output, printed) {
        Ok(()) => status,
        Err(error) if error.kind() == ErrorKind::BrokenPipe => CLOSED_PIPE,
        Err(error) => {
            say_failed(errors, b"cannot write standard output: ", reason_of(&error));
            Cause::Failure.status()
        }
    }
}

impl<'t, I: BufRead, O: Write, E: Write> Streams<'t, I, O, E> {
    /// Writes what was printed, and returns the status.
    pub fn finish(&mut self, status: u8, output: &[u8], errors: &[u8]) -> u8 {
        write_answer(self.output, self.errors, status, output, errors)
    }

    /// Says that an allocation failed, and returns the status.
    pub fn end_without_memory(&mut self) -> u8 {
        self.finish(Cause::Failure.status(), b"", OUT_OF_MEMORY)
    }
}

/// Reads the input to its end.
pub fn read_input<I: BufRead>(alloc: Global, input: &mut I) -> Result<Vec<u8>, Stop> {
    let mut bytes = Vec::new(alloc);
    match input.read_to_end(&mut bytes) {
        Ok(_) => Ok(bytes),
        Err(error) if error.kind() == ErrorKind::OutOfMemory => Err(Stop::OutOfMemory),
        Err(error) => Err(failed(alloc, &[b"cannot read standard input: ", reason_of(&error)])),
    }
}
