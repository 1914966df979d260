//! Looks whether a word is the name of a file, which git does not take for a revision then.

use git_revisions::paths::{Turn, both, is_file, verify_file};
use git_session::session::Session;
use git_session::stop::{Stop, not_supported};

/// Ends if a revision is the name of a file, too.
pub(crate) fn refuse_file(session: &Session<'_>, word: &[u8]) -> Result<(), Stop> {
    let layout = session.repository.layout();
    if layout.prefix.is_none() || layout.is_in_git_dir || word.starts_with(b"-") {
        return Ok(());
    }
    if is_file(session, word)? {
        return Err(both(session.alloc, word));
    }
    Ok(())
}

/// Returns the end for a word that names no revision: a path, or nothing.
pub(crate) fn no_revision(session: &Session<'_>, word: &[u8]) -> Stop {
    match verify_file(session, word, Turn::First) {
        Ok(()) => not_supported(session.alloc, &[b"'", word, b"': paths are not supported"]),
        Err(stop) => stop,
    }
}
