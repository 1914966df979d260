//! Opens the repository, and says why it is not opened.

use git_session::session::{Asker, Session};
use git_session::stop::{Stop, failed, fatal, not_supported, refused};
use gix_discover::{DiscoverError, Environment, Reason};
use gix_files::System;
use gix_repository::{OpenError, Opening, Refusal, Repository};
use std::alloc::{AllocError, Global};

/// Tells whether a shell takes a byte of a word as it is.
fn is_plain(byte: u8) -> bool {
    byte.is_ascii_alphanumeric() || b"+,-./:=@_^".contains(&byte)
}

/// Returns a word as git prints it for a shell: in quotes if need be.
fn shell_word(alloc: Global, word: &[u8]) -> Result<Vec<u8>, AllocError> {
    let mut text = Vec::new(alloc);
    if !word.is_empty() && word.iter().all(|byte| is_plain(*byte)) {
        text.extend_from_slice(word)?;
        return Ok(text);
    }
    text.push(b'\'')?;
    for byte in word {
        match *byte {
            b'\'' => text.extend_from_slice(b"'\\''")?,
            b'!' => text.extend_from_slice(b"'\\!'")?,
            byte => text.push(byte)?,
        }
    }
    text.push(b'\'')?;
    Ok(text)
}

/// Returns git's end for a repository of another owner.
fn dubious(alloc: Global, folder: &[u8]) -> Stop {
    let Ok(word) = shell_word(alloc, folder) else {
        return Stop::OutOfMemory;
    };
    fatal(
        alloc,
        &[
            b"detected dubious ownership in repository at '",
            folder,
            b"'
To add an exception for this directory, call:

\tgit config --global --add safe.directory ",
            &word,
        ],
    )
}

/// Returns the end for a repository that is not found or refused.
fn undiscovered(alloc: Global, error: &DiscoverError) -> Stop {
    let subject = match &error.subject {
        Some(subject) => subject.as_slice(),
        None => b"",
    };
    match error.reason {
        Reason::NoRepository => fatal(
            alloc,
            &[b"not a git repository (or any of the parent directories): .git"],
        ),
        Reason::NotARepository => fatal(alloc, &[b"not a git repository: '", subject, b"'"]),
        Reason::GitfileTarget => fatal(alloc, &[b"not a git repository: ", subject]),
        Reason::DubiousOwnership => dubious(alloc, subject),
        Reason::BareRepositoryRefused => fatal(
            alloc,
            &[
                b"cannot use bare repository '",
                subject,
                b"' (safe.bareRepository is 'explicit')",
            ],
        ),
        Reason::BadNamespace => fatal(alloc, &[b"bad git namespace path \"", subject, b"\""]),
        _ => refused(alloc, error),
    }
}

/// Returns the end for a repository that is not opened.
fn unopened(alloc: Global, error: &OpenError) -> Stop {
    match error {
        OpenError::Discover(error) => undiscovered(alloc, error),
        OpenError::Object(error) => Stop::from(Refusal::from(*error)),
        OpenError::Reference(error) => Stop::from(Refusal::from(*error)),
        OpenError::Changes => failed(
            alloc,
            &[b"'shallow' or 'info/grafts' cannot be read, or is malformed"],
        ),
        OpenError::Replacements => not_supported(
            alloc,
            &[b"replacements outside of 'refs/replace/' are not supported"],
        ),
        OpenError::WrongKind => failed(
            alloc,
            &[b"'shallow', 'info/grafts' or a replacement names an object of the wrong kind"],
        ),
        OpenError::IsChanged => not_supported(
            alloc,
            &[b"--authentic is not supported for shallow repositories, grafts and replacements"],
        ),
        OpenError::OutOfMemory => Stop::OutOfMemory,
    }
}

/// Opens the repository.
///
/// # Errors
///
/// As git ends if there is no repository, and the end of [`Repository::open`] otherwise.
pub fn open<'s>(
    alloc: Global,
    files: System<'s>,
    environment: Environment,
    opening: Opening,
    is_english: bool,
) -> Result<Session<'s>, Stop> {
    let asker = Asker {
        now: opening.now.seconds,
        is_english,
    };
    match Repository::open(alloc, files, &environment, opening) {
        Ok(repository) => Ok(Session::new(alloc, files, environment, repository, asker)),
        Err(error) => Err(unopened(alloc, &error)),
    }
}
