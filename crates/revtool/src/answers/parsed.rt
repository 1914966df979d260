//! Answers `parse` lines: the calls that a revision makes of its delegate.

use crate::answers::Outcome;
use crate::recorder::Recorder;
use gix_revision::date::Time;
use gix_revision::spec::parse::{Error, parse};
use std::alloc::{Allocator, Global};
use std::io::{self, Write};

/// The moment from which relative dates count: the epoch, in UTC.
pub(super) const NOW: Time = Time {
    seconds: 0,
    offset: 0,
};

/// Writes `parse` and the calls, separated by a semicolon and a space. A fault comes last.
pub(super) fn answer_parse<W: Write, A: Allocator + Copy>(
    alloc: A,
    refusals: Global,
    text: &[u8],
    output: &mut W,
) -> io::Result<Outcome> {
    let mut recorder = Recorder::new(alloc, refusals);
    let refusal = match parse(alloc, text, NOW, &mut recorder) {
        Ok(()) => None,
        Err(error) => Some(number_of(error)),
    };
    print_parsed(recorder.calls(), refusal, output)
}

/// Writes the calls, and the number of the fault that ended them.
fn print_parsed<W: Write>(
    calls: &[u8],
    refusal: Option<u8>,
    output: &mut W,
) -> io::Result<Outcome> {
    output.write_all(b"parse ")?;
    output.write_all(calls)?;
    let Some(number) = refusal else {
        output.write_all(b"\n")?;
        return Ok(Outcome::Answered);
    };
    let between = if calls.is_empty() { "" } else { "; " };
    writeln!(output, "{between}refused P{number}")?;
    Ok(Outcome::Refused)
}

/// Returns the number of the fault, or 0 if there was no memory.
pub(super) fn number_of(error: Error<'_>) -> u8 {
    match error {
        Error::OutOfMemory => 0,
        Error::Refused { fault, .. } => fault.number(),
    }
}
