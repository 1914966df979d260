//! Answers `rev-parse` (git-rev-parse).
#![tactic(auto)]

mod asked;
mod folders;
mod show;

pub use crate::asked::add_options;
use crate::asked::{Asked, Place};
use crate::folders::show_fact;
use crate::show::{show_default, show_text, show_tip};
use git_revisions::forms::{asks_sibling, is_counted};
use git_revisions::paths::{Turn, verify_file};
use git_revisions::ranges::{Tip, several_tips, single_tip};
use git_session::session::Session;
use git_session::stop::{Stop, fatal};

/// Ends if git wants exactly one revision: with status 1 and no message if it is to be quiet.
fn no_single(session: &Session<'_>, asked: &Asked<'_>) -> Result<u8, Stop> {
    if asked.is_quiet {
        return Ok(1);
    }
    Err(fatal(session.alloc, &[b"Needed a single revision"]))
}

/// Prints a word that is no revision, if such words are printed. Returns whether it was printed.
fn show_file(session: &mut Session<'_>, asked: &mut Asked<'_>, word: &[u8]) -> Result<bool, Stop> {
    show_default(session, asked)?;
    let is_shown = asked.filter.shows_files();
    if is_shown {
        show_text(session, asked, false, word)?;
    }
    Ok(is_shown)
}

/// Reads a word behind the first one that is no revision.
fn read_file(session: &mut Session<'_>, asked: &mut Asked<'_>, word: &[u8]) -> Result<(), Stop> {
    if show_file(session, asked, word)? && asked.place == Place::Files {
        verify_file(session, word, Turn::Later)?;
    }
    Ok(())
}

/// Reads a word that is no option and no revision. Returns the status if the answer ends there.
fn read_first_file(
    session: &mut Session<'_>,
    asked: &mut Asked<'_>,
    word: &[u8],
) -> Result<Option<u8>, Stop> {
    if asked.is_verify {
        return Ok(Some(no_single(session, asked)?));
    }
    if asked.has_dashes {
        return Err(fatal(session.alloc, &[b"bad revision '", word, b"'"]));
    }
    asked.place = Place::Files;
    if show_file(session, asked, word)? {
        verify_file(session, word, Turn::First)?;
    }
    Ok(None)
}

/// Prints tips.
fn show_tips(
    session: &mut Session<'_>,
    asked: &mut Asked<'_>,
    tips: &[Tip<'_>],
) -> Result<(), Stop> {
    for tip in tips {
        show_tip(session, asked, tip)?;
    }
    Ok(())
}

/// Returns the tip of a word that is no range, and says nothing of ambiguous names.
fn looked_up_quietly<'w>(
    session: &mut Session<'_>,
    word: &'w [u8],
) -> Result<Option<Tip<'w>>, Stop> {
    session.repository.set_quiet(true);
    let found = single_tip(session, word);
    session.repository.set_quiet(false);
    found
}

/// Returns the tip of a word that is no range. If the look-up is to be quiet, git says even so what
/// it has to say of a name before `~n` or `^n`, and what a branch lacks.
fn looked_up<'w>(
    session: &mut Session<'_>,
    is_quiet: bool,
    word: &'w [u8],
) -> Result<Option<Tip<'w>>, Stop> {
    if !is_quiet || is_counted(word.strip_prefix(b"^").unwrap_or(word)) {
        return single_tip(session, word);
    }
    match looked_up_quietly(session, word) {
        Err(Stop::Said(_)) if asks_sibling(word) => single_tip(session, word),
        found => found,
    }
}

/// Reads a word that is no option. Returns the status if the answer ends there.
fn read_revision<'w>(
    session: &mut Session<'_>,
    asked: &mut Asked<'w>,
    word: &'w [u8],
) -> Result<Option<u8>, Stop> {
    if let Some(tips) = several_tips(session, word)? {
        show_tips(session, asked, &tips)?;
        return Ok(None);
    }
    let Some(tip) = looked_up(session, asked.is_quiet, word)? else {
        return read_first_file(session, asked, word);
    };
    if asked.is_verify {
        asked.note_verified(tip);
    } else {
        show_tip(session, asked, &tip)?;
    }
    Ok(None)
}

/// Reads a word. Returns the status if the answer ends there.
fn read_word<'w>(
    session: &mut Session<'_>,
    asked: &mut Asked<'w>,
    word: &'w [u8],
) -> Result<Option<u8>, Stop> {
    if asked.place != Place::Revisions {
        read_file(session, asked, word)?;
        return Ok(None);
    }
    if word == b"--".as_slice() {
        asked.place = Place::BehindDashes;
    } else if asked.has_ended_options || !word.starts_with(b"-") {
        return read_revision(session, asked, word);
    } else {
        if let Some(fact) = asked.read_option(session.alloc, word)? {
            show_fact(session, asked, fact)?;
        }
        if !asked.has_ended_options {
            return Ok(None);
        }
    }
    if asked.filter.shows_separators() {
        show_file(session, asked, word)?;
    }
    Ok(None)
}

/// Prints what is left to print, and returns the status.
fn finish(session: &mut Session<'_>, asked: &mut Asked<'_>) -> Result<u8, Stop> {
    if !asked.is_verify {
        show_default(session, asked)?;
        return Ok(0);
    }
    if let Some(tip) = asked.verified() {
        show_tip(session, asked, &tip)?;
        return Ok(0);
    }
    if asked.has_none_verified() && show_default(session, asked)? {
        return Ok(0);
    }
    no_single(session, asked)
}

/// Answers `rev-parse`, and returns the status.
pub fn rev_parse(session: &mut Session<'_>, words: &[&[u8]]) -> Result<u8, Stop> {
    let mut asked = Asked::new(words);
    for _ in 0..usize::MAX {
        let Some(word) = asked.take() else {
            break;
        };
        if let Some(status) = read_word(session, &mut asked, word)? {
            return Ok(status);
        }
    }
    finish(session, &mut asked)
}
