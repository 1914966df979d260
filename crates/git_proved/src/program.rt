//! Opens the repository, answers, and writes what the answer prints.

use crate::answer::{NO_COMMAND, answer};
use crate::batch::batch;
use crate::usage::{command_of, usage};
use git_command_line::finished::{Finished, ended};
use git_command_line::opening::open;
use git_command_line::output::{Streams, read_input};
use git_rev_list::wants_input;
use git_session::session::Session;
use git_session::stop::{Stop, not_supported};
use gix_discover::Environment;
use gix_files::System;
use gix_repository::Opening;
use std::alloc::Global;
use std::io::{BufRead, Write};

/// Answers one question, which may want the input.
fn answered<I: BufRead>(
    session: &mut Session<'_>,
    word: &[u8],
    words: &[&[u8]],
    input: &mut I,
) -> Result<Finished, Stop> {
    if word == b"rev-list".as_slice() && wants_input(words) {
        session.input = Some(read_input(session.alloc, input)?);
    }
    Ok(answer(session, word, words)?)
}

/// Writes an end, and returns its status.
fn finish_end<I: BufRead, O: Write, E: Write>(
    alloc: Global,
    word: &[u8],
    stop: &Stop,
    streams: &mut Streams<'_, I, O, E>,
) -> u8 {
    match ended(alloc, word, stop) {
        Ok(finished) => streams.finish(finished.status, b"", &finished.errors),
        Err(_) => streams.end_without_memory(),
    }
}

/// Tells whether words ask for the help of a command.
fn wants_help(words: &[&[u8]]) -> bool {
    match words.split_first() {
        Some((first, rest)) => {
            *first == b"--help".as_slice() || (*first == b"-h".as_slice() && rest.is_empty())
        }
        None => false,
    }
}

/// Returns the help of a command, if words ask for it.
///
/// # Errors
///
/// `NotSupported` if there is no such command.
fn help_for(alloc: Global, word: &[u8], words: &[&[u8]]) -> Result<Option<Vec<u8>>, Stop> {
    let Some(command) = command_of(word) else {
        return Err(not_supported(alloc, &[NO_COMMAND]));
    };
    if wants_help(words) {
        Ok(Some(usage(alloc, command)?))
    } else {
        Ok(None)
    }
}

/// Answers a word about a repository, and returns the status.
fn serve<I: BufRead, O: Write, E: Write>(
    session: &mut Session<'_>,
    word: &[u8],
    words: &[&[u8]],
    streams: &mut Streams<'_, I, O, E>,
) -> u8 {
    if word == b"batch".as_slice() {
        return batch(session, words, streams);
    }
    match answered(session, word, words, streams.input) {
        Ok(finished) => streams.finish(finished.status, &finished.output, &finished.errors),
        Err(stop) => finish_end(session.alloc, word, &stop, streams),
    }
}

/// Answers the words behind `git proved`, and returns the status.
///
/// The repository is that of the current folder, as `environment` says where it is. `word` is the
/// first word behind the options that [`Front`](git_command_line::front::Front) reads, and `words` are the
/// others. All memory comes from `alloc`. The output is written at once, when the whole answer is
/// known.
///
/// # Status
///
/// - 0, 1 and 128 as those of git.
/// - 129 if the question is not supported.
/// - 125 if something is damaged or has changed, or if the program fails: also if the output cannot
///   be written.
/// - 141 if the output is a closed pipe, which would end git by a signal.
pub(crate) fn run<'s, I: BufRead, O: Write, E: Write>(
    alloc: Global,
    files: System<'s>,
    environment: Environment,
    opening: Opening,
    is_english: bool,
    word: &[u8],
    words: &[&[u8]],
    streams: &mut Streams<'_, I, O, E>,
) -> u8 {
    match help_for(alloc, word, words) {
        Ok(None) => {}
        Ok(Some(text)) => return streams.finish(0, &text, b""),
        Err(stop) => return finish_end(alloc, word, &stop, streams),
    }
    match open(alloc, files, environment, opening, is_english) {
        Ok(mut session) => serve(&mut session, word, words, streams),
        Err(stop) => finish_end(alloc, word, &stop, streams),
    }
}
