//! Answers the command line over the standard streams.

use crate::help::{HELP, VERSION};
use crate::program::run;
use git_command_line::arguments::{enter_all, environment, now, read_words, seed, speaks_english};
use git_command_line::finished::ended;
use git_command_line::front::{Asked, Front};
use git_command_line::output::{OUT_OF_MEMORY, Streams, write_answer};
use git_command_line::streams::fill_streams;
use git_session::stop::{Cause, Stop, failed, no_question, not_supported};
use gix_files::System;
use gix_repository::Opening;
use std::alloc::AllocError;
use std::io::{BufReader, Write};

/// Answers a word, and returns the status.
fn serve(rt: &HostRuntime, front: &Front<'_>, word: &[u8], words: &[&[u8]]) -> Result<u8, Stop> {
    let environment = environment(rt, front)?;
    let opening = Opening {
        refusals: rt.alloc(),
        seed: seed(rt),
        now: now(rt)?,
        mode: front.mode,
    };
    let Ok(mut input) = BufReader::new(rt.alloc(), rt.stdin()) else {
        return Err(Stop::OutOfMemory);
    };
    let mut streams = Streams {
        input: &mut input,
        output: &mut rt.stdout(),
        errors: &mut rt.stderr(),
    };
    Ok(run(
        rt.alloc(),
        System(rt),
        environment,
        opening,
        speaks_english(rt)?,
        word,
        words,
        &mut streams,
    ))
}

/// Returns the end for an option before the command that is not supported.
fn unsupported(rt: &HostRuntime, option: &[u8]) -> Stop {
    let advice = if option == b"-c".as_slice() {
        b": write git -c KEY=VALUE proved ..".as_slice()
    } else {
        b""
    };
    not_supported(
        rt.alloc(),
        &[
            b"the option '",
            option,
            b"' before the command is not supported",
            advice,
        ],
    )
}

/// Returns the end for an option before the command whose value is missing.
fn without_value(rt: &HostRuntime, option: &[u8]) -> Stop {
    no_question(rt.alloc(), &[b"the option '", option, b"' lacks its value"])
}

/// Answers the command line, and returns the status.
fn answer(rt: &HostRuntime, words: &[Vec<u8>]) -> Result<u8, Stop> {
    let mut slices = Vec::new(rt.alloc());
    for word in words {
        slices.push(word.as_slice())?;
    }
    let front = Front::read(rt.alloc(), &slices)?;
    enter_all(rt, &front.folders)?;
    match front.asked {
        Asked::Word(word, rest) => serve(rt, &front, word, rest),
        Asked::Help => Ok(print_text(rt, HELP)),
        Asked::Version => Ok(print_text(rt, VERSION)),
        Asked::Nothing => Err(no_question(
            rt.alloc(),
            &[b"no command is given; git proved -h lists them"],
        )),
        Asked::Unread(option) => Err(unsupported(rt, option)),
        Asked::NoValue(option) => Err(without_value(rt, option)),
    }
}

/// Prints a text, and returns the status.
fn print_text(rt: &HostRuntime, text: &[u8]) -> u8 {
    write_answer(&mut rt.stdout(), &mut rt.stderr(), 0, text, b"")
}

/// Writes why there is no answer, and returns the status.
fn end(rt: &HostRuntime, stop: &Stop) -> u8 {
    let errors = match ended(rt.alloc(), b"", stop) {
        Ok(finished) => {
            let _ = rt.stderr().write_all(&finished.errors);
            return finished.status;
        }
        Err(AllocError) => OUT_OF_MEMORY,
    };
    let _ = rt.stderr().write_all(errors);
    Cause::Failure.status()
}

/// Answers the command line of the process, and returns the status.
pub(crate) fn answered(rt: &HostRuntime) -> u8 {
    if fill_streams(rt).is_err() {
        let stop = failed(rt.alloc(), &[b"/dev/null cannot be opened"]);
        return end(rt, &stop);
    }
    match read_words(rt) {
        Ok(words) => match answer(rt, &words) {
            Ok(status) => status,
            Err(stop) => end(rt, &stop),
        },
        Err(AllocError) => end(rt, &Stop::OutOfMemory),
    }
}
