//! Looks whether a word is the name of a file, as git does with words that may be names of files
//! (gitcli).

use crate::forms::{Form, before_path, form_of};
use git_session::session::Session;
use git_session::stop::{Stop, fatal, joined, not_supported, unread};
use gix_discover::Places;
use std::alloc::Global;

/// Says which word of a command line may be the name of a file.
#[derive(Clone, Copy, PartialEq, Eq)]
pub enum Turn {
    /// The first one that is no revision.
    First,
    /// One behind it.
    Later,
}

/// Returns whether the current folder is below the top of the work tree.
fn is_below_top(session: &Session<'_>) -> bool {
    match &session.repository.layout().prefix {
        Some(prefix) => !prefix.is_empty(),
        None => false,
    }
}

/// Returns whether there is a file, a folder or a symbolic link at a path.
///
/// # Errors
///
/// `Failure` if the system does not say it.
fn is_path(session: &Session<'_>, path: &[u8]) -> Result<bool, Stop> {
    if path.is_empty() {
        return Ok(is_below_top(session));
    }
    match session.files.link_place(path) {
        Ok(found) => Ok(found.is_some()),
        Err(error) => Err(unread(session.alloc, path, error)),
    }
}

/// Returns whether a path leads somewhere from the top of the work tree. As in git, it leads from
/// the current folder if that is not below the top.
fn is_path_from_top(session: &Session<'_>, path: &[u8]) -> Result<bool, Stop> {
    match &session.repository.layout().work_tree {
        Some(top) if is_below_top(session) && !path.starts_with(b"/") => {
            let path = joined(session.alloc, &[top, b"/", path])?;
            is_path(session, &path)
        }
        _ => is_path(session, path),
    }
}

/// Returns whether a word is the name of a file, a folder or a symbolic link, also behind one of
/// the short signs of a path (gitglossary, "pathspec").
///
/// # Errors
///
/// `Failure` if the system does not say it.
pub fn is_file(session: &Session<'_>, word: &[u8]) -> Result<bool, Stop> {
    if let Some(path) = word.strip_prefix(b":/") {
        return Ok(path.is_empty() || is_path_from_top(session, path)?);
    }
    match word.strip_prefix(b":!").or(word.strip_prefix(b":^")) {
        Some(path) => Ok(path.is_empty() || is_path(session, path)?),
        None => is_path(session, word),
    }
}

/// Returns whether a word is a pattern of names: it begins with `:(`, or has a sign of its own
/// without a backslash before it.
fn is_pattern(word: &[u8]) -> bool {
    if word.starts_with(b":(") {
        return true;
    }
    let mut is_escaped = false;
    for byte in word {
        match *byte {
            _ if is_escaped => is_escaped = false,
            b'\\' => is_escaped = true,
            b'*' | b'?' | b'[' => return true,
            _ => {}
        }
    }
    false
}

/// Returns git's end for a word that is neither a revision nor the name of a file. git looks it up
/// once more, with the `^` before it.
fn neither(alloc: Global, word: &[u8]) -> Stop {
    let front = before_path(word);
    if !front.is_empty() && front.len() < word.len() {
        return fatal(alloc, &[b"invalid object name '", front, b"'."]);
    }
    if let Form::NoBranch(name) = form_of(word) {
        return fatal(alloc, &[b"no such branch: '", name, b"'"]);
    }
    fatal(
        alloc,
        &[
            b"ambiguous argument '",
            word,
            b"': unknown revision or path not in the working tree.",
            SEPARATE,
        ],
    )
}

/// Returns git's end for a word that is both a revision and the name of a file.
pub fn both(alloc: Global, word: &[u8]) -> Stop {
    fatal(
        alloc,
        &[
            b"ambiguous argument '",
            word,
            b"': both revision and filename",
            SEPARATE,
        ],
    )
}

/// The advice of both messages.
const SEPARATE: &[u8] = b"
Use '--' to separate paths from revisions, like this:
'git <command> [<revision>...] -- [<file>...]'";

/// Returns git's end for a word that is not the name of a file, behind one that may be.
fn no_path(alloc: Global, word: &[u8]) -> Stop {
    let front = before_path(word);
    if !front.is_empty() && front.len() < word.len() {
        // It may be a path in a tree. git has printed the words up to it.
        return not_supported(alloc, &[b"'", word, b"': paths are not supported"]);
    }
    fatal(
        alloc,
        &[
            word,
            b": no such path in the working tree.
Use 'git <command> -- <path>...' to specify paths that do not exist locally.",
        ],
    )
}

/// Ends if a word that is no revision cannot be the name of a file either.
///
/// # Errors
///
/// `Fatal` with git's message, and those of [`is_file`].
pub fn verify_file(session: &Session<'_>, word: &[u8], turn: Turn) -> Result<(), Stop> {
    let alloc = session.alloc;
    if word.starts_with(b"-") {
        return Err(fatal(
            alloc,
            &[
                b"option '",
                word,
                b"' must come before non-option arguments",
            ],
        ));
    }
    if is_pattern(word) || is_file(session, word)? {
        return Ok(());
    }
    Err(match turn {
        Turn::First => neither(alloc, word),
        Turn::Later => no_path(alloc, word),
    })
}
