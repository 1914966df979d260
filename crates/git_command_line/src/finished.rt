//! What an answer prints, and how a question ends that has none.

use git_session::session::Session;
use git_session::stop::{Cause, FATAL, Stop};
use gix_repository::Refusal;
use std::alloc::{AllocError, Global};
use std::io::Write;

/// What an answer prints, and its status.
#[derive(Drop)]
pub struct Finished {
    pub status: u8,
    /// What goes to standard output.
    pub output: Vec<u8>,
    /// What goes to standard error.
    pub errors: Vec<u8>,
}

/// What is known of a question that ends.
#[derive(Clone, Copy)]
struct Place<'w> {
    alloc: Global,
    /// The command; empty if there is none.
    word: &'w [u8],
    /// Tells whether a remote may have what is missing, which git fetches then.
    is_partial: bool,
}

impl<'w> Place<'w> {
    /// Adds a line about the program's own end to what goes to standard error. Returns the status.
    fn add_own(self, cause: Cause, text: &[u8], errors: &mut Vec<u8>) -> Result<u8, AllocError> {
        errors.extend_from_slice(b"git-proved: ")?;
        if cause == Cause::NotSupported && !self.word.is_empty() {
            errors.extend_from_slice(self.word)?;
            errors.extend_from_slice(b": ")?;
        }
        errors.extend_from_slice(text)?;
        if cause == Cause::NotSupported {
            errors.extend_from_slice(b"; ask git")?;
        }
        errors.push(b'\n')?;
        Ok(cause.status())
    }

    /// Adds a line about a refusal to what goes to standard error. Returns the status.
    fn add_refusal(self, refusal: &Refusal, errors: &mut Vec<u8>) -> Result<u8, AllocError> {
        let mut text = Vec::new(self.alloc);
        if write!(text, "{refusal}").is_err() {
            return Err(AllocError);
        }
        let is_promised = self.is_partial && refusal.is_missing();
        let cause = if refusal.is_not_supported() || is_promised {
            Cause::NotSupported
        } else {
            Cause::Failure
        };
        self.add_own(cause, &text, errors)
    }

    /// Adds a line about an end to what goes to standard error. Returns the status.
    fn add_end(self, stop: &Stop, errors: &mut Vec<u8>) -> Result<u8, AllocError> {
        match stop {
            Stop::Fatal(text) => {
                errors.extend_from_slice(b"fatal: ")?;
                errors.extend_from_slice(text)?;
                errors.push(b'\n')?;
                Ok(FATAL)
            }
            Stop::Said(status) => Ok(*status),
            Stop::Ended(cause, text) => self.add_own(*cause, text, errors),
            Stop::Refused(refusal) => self.add_refusal(refusal, errors),
            Stop::OutOfMemory => self.add_own(Cause::Failure, b"out of memory", errors),
        }
    }
}

/// Returns what an end prints that no question has, and its status.
///
/// # Errors
///
/// Fails if an allocation failed.
pub fn ended(alloc: Global, word: &[u8], stop: &Stop) -> Result<Finished, AllocError> {
    let place = Place {
        alloc,
        word,
        is_partial: false,
    };
    let mut errors = Vec::new(alloc);
    let status = place.add_end(stop, &mut errors)?;
    Ok(Finished {
        status,
        output: Vec::new(alloc),
        errors,
    })
}

/// How many bytes of a message git prints at most.
const MOST_SAID: usize = 4095;

/// Adds a line of standard error as git prints it. A message is cut if it is too long, and has `?` in
/// place of each control byte but tabs. A hint is printed as it is.
fn add_said(line: &[u8], said: &mut Vec<u8>) -> Result<(), AllocError> {
    if line.starts_with(b"hint: ") {
        said.extend_from_slice(line)?;
        return Ok(());
    }
    for byte in line.get(..MOST_SAID).unwrap_or(line) {
        let is_odd = byte.is_ascii_control() && *byte != b'\t';
        said.push(if is_odd { b'?' } else { *byte })?;
    }
    Ok(())
}

/// Returns the lines of standard error as git prints them.
fn as_said(alloc: Global, lines: &[u8]) -> Result<Vec<u8>, AllocError> {
    let mut said = Vec::new(alloc);
    for line in lines.split_inclusive(|byte| *byte == b'\n') {
        match line.strip_suffix(b"\n") {
            Some(text) => {
                add_said(text, &mut said)?;
                said.push(b'\n')?;
            }
            None => add_said(line, &mut said)?,
        }
    }
    Ok(said)
}

/// Returns what a question about a repository prints, whose status or end is given. An end prints
/// nothing on standard output.
///
/// # Errors
///
/// Fails if an allocation failed.
pub fn answer_of(
    session: &mut Session<'_>,
    word: &[u8],
    asked: Result<u8, Stop>,
) -> Result<Finished, AllocError> {
    let alloc = session.alloc;
    let mut errors = session.said()?.to_vec(alloc)?;
    match asked {
        Ok(status) => Ok(Finished {
            status,
            output: session.output.as_slice().to_vec(alloc)?,
            errors: as_said(alloc, &errors)?,
        }),
        Err(stop) => {
            let place = Place {
                alloc,
                word,
                is_partial: session.repository.is_partial(),
            };
            let status = place.add_end(&stop, &mut errors)?;
            Ok(Finished {
                status,
                output: Vec::new(alloc),
                errors: as_said(alloc, &errors)?,
            })
        }
    }
}
