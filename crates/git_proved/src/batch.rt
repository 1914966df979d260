//! Answers `batch`: a question on each line of the input.

use crate::answer::answer;
use git_command_line::finished::{Finished, ended};
use git_command_line::output::{Streams, reason_of, say_failed};
use git_command_line::quoted::split_words;
use git_session::session::Session;
use git_session::stop::{Cause, Stop, no_question};
use std::alloc::Global;
use std::io::{self, BufRead, Write};

/// Returns slices of words.
fn slices(alloc: Global, words: &[Vec<u8>]) -> Result<Vec<&[u8]>, Stop> {
    let mut slices = Vec::new(alloc);
    for word in words {
        slices.push(word.as_slice())?;
    }
    Ok(slices)
}

/// Answers the words of a line.
fn answer_words(session: &mut Session<'_>, words: &[Vec<u8>]) -> Result<Finished, Stop> {
    let words = slices(session.alloc, words)?;
    match words.split_first() {
        Some((word, rest)) => Ok(answer(session, word, rest)?),
        None => Err(no_question(session.alloc, &[b"an empty line is no question"])),
    }
}

/// Answers a line.
fn answer_line(session: &mut Session<'_>, line: &[u8]) -> Result<Finished, Stop> {
    session.refresh();
    let words = split_words(session.alloc, line)?;
    answer_words(session, &words)
}

/// Returns the answer to a line, or what its end prints.
fn finished(session: &mut Session<'_>, line: &[u8]) -> Result<Finished, Stop> {
    match answer_line(session, line) {
        Ok(finished) => Ok(finished),
        Err(stop) => Ok(ended(session.alloc, b"", &stop)?),
    }
}

/// Returns what is printed for an answer: `STATUS SIZE`, the output, and a line feed.
fn framed(alloc: Global, finished: &Finished) -> Result<Vec<u8>, Stop> {
    let mut bytes = Vec::new(alloc);
    let size = finished.output.len();
    if writeln!(bytes, "{} {size}", finished.status).is_err() {
        return Err(Stop::OutOfMemory);
    }
    bytes.extend_from_slice(&finished.output)?;
    bytes.push(b'\n')?;
    Ok(bytes)
}

/// Reads the next line, without its end; `None` after the last.
fn read_line<I: BufRead>(alloc: Global, input: &mut I) -> io::Result<Option<Vec<u8>>> {
    let mut line = Vec::new(alloc);
    if input.read_until(b'\n', &mut line)? == 0 {
        return Ok(None);
    }
    if line.last() == Some(&b'\n') {
        line.truncate(line.len().saturating_sub(1));
    }
    Ok(Some(line))
}

/// Answers a line, and writes the answer. Returns a status that ends the batch.
fn serve<I: BufRead, O: Write, E: Write>(
    session: &mut Session<'_>,
    line: &[u8],
    streams: &mut Streams<'_, I, O, E>,
) -> Result<(), u8> {
    let Ok(finished) = finished(session, line) else {
        return Err(streams.end_without_memory());
    };
    let Ok(bytes) = framed(session.alloc, &finished) else {
        return Err(streams.end_without_memory());
    };
    match streams.finish(0, &bytes, &finished.errors) {
        0 => Ok(()),
        status => Err(status),
    }
}

/// Answers each line of the input at once, up to its end. Returns the status: 0 if each line was
/// answered, if only by the status 125 or 129.
pub(crate) fn batch<I: BufRead, O: Write, E: Write>(
    session: &mut Session<'_>,
    words: &[&[u8]],
    streams: &mut Streams<'_, I, O, E>,
) -> u8 {
    if !words.is_empty() {
        let status = Cause::NoQuestion.status();
        return streams.finish(status, b"", b"git-proved: batch takes no arguments\n");
    }
    for _ in 0..u64::MAX {
        match read_line(session.alloc, streams.input) {
            Ok(Some(line)) => {
                if let Err(status) = serve(session, &line, streams) {
                    return status;
                }
            }
            Ok(None) => return 0,
            Err(error) => {
                say_failed(
                    streams.errors,
                    b"cannot read standard input: ",
                    reason_of(&error),
                );
                return Cause::Failure.status();
            }
        }
    }
    0
}
