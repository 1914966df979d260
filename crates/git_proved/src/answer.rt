//! Answers one question.

use git_command_line::finished::{Finished, answer_of};
use git_describe::describe;
use git_for_each_ref::for_each_ref;
use git_merge_base::merge_base;
use git_rev_list::rev_list;
use git_rev_parse::rev_parse;
use git_session::session::Session;
use git_session::stop::{Stop, not_supported};
use std::alloc::AllocError;

/// Says that a command is not answered.
pub(crate) const NO_COMMAND: &[u8] = b"this command is not supported";

/// Returns the status of an answer to the words behind `git proved`, whose output is printed.
fn ask(session: &mut Session<'_>, word: &[u8], words: &[&[u8]]) -> Result<u8, Stop> {
    if word == b"merge-base".as_slice() {
        merge_base(session, words)
    } else if word == b"describe".as_slice() {
        describe(session, words)
    } else if word == b"rev-parse".as_slice() {
        rev_parse(session, words)
    } else if word == b"rev-list".as_slice() {
        rev_list(session, words)
    } else if word == b"for-each-ref".as_slice() {
        for_each_ref(session, words)
    } else {
        Err(not_supported(session.alloc, &[NO_COMMAND]))
    }
}

/// Answers the words behind `git proved`. An end prints nothing on standard output.
///
/// # Errors
///
/// Fails if an allocation failed.
pub(crate) fn answer(
    session: &mut Session<'_>,
    word: &[u8],
    words: &[&[u8]],
) -> Result<Finished, AllocError> {
    let asked = ask(session, word, words);
    answer_of(session, word, asked)
}
