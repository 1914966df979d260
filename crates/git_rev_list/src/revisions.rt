//! Reads the revisions of `rev-list`, on the command line and of standard input.

use crate::files::{no_revision, refuse_file};
use crate::starts::{Starts, bad_object, is_there};
use git_revisions::bases::{bases_in_order, merge_bases};
use git_revisions::ranges::{
    Ends, Marked, Shorthand, commit_reference, committish, ends_of, revision, shorthand_of,
    shorthand_tips,
};
use git_session::session::Session;
use git_session::stop::{Stop, fatal, not_supported};
use gix_base::hash::ObjectId;

/// Says how a revision is read.
#[derive(Clone, Copy)]
pub(crate) struct Flags {
    /// Tells whether it is read after `--not`.
    pub(crate) is_turned: bool,
    /// Tells whether it cannot be a file: there is `--`, or it is from standard input.
    pub(crate) is_no_file: bool,
}

/// Ends if a word may be a file, and is one.
fn check_file(session: &Session<'_>, flags: Flags, word: &[u8]) -> Result<(), Stop> {
    if flags.is_no_file {
        return Ok(());
    }
    refuse_file(session, word)
}

/// Returns git's end for a range whose ends are not there, or are no commits.
fn bad_range(session: &Session<'_>, word: &[u8], is_symmetric: bool) -> Stop {
    let text: &[u8] = if is_symmetric {
        b"Invalid symmetric difference expression "
    } else {
        b"Invalid revision range "
    };
    fatal(session.alloc, &[text, word])
}

/// Adds the ends of `A...B`, and their merge bases.
fn add_symmetric(
    session: &mut Session<'_>,
    flags: Flags,
    word: &[u8],
    ends: &Ends<'_>,
    starts: &mut Starts,
) -> Result<(), Stop> {
    let start = commit_reference(session, ends.start)?;
    let end = commit_reference(session, ends.end)?;
    let (Some(start), Some(end)) = (start, end) else {
        return Err(bad_range(session, word, true));
    };
    // The order matters only if the list begins at them.
    let bases = if flags.is_turned {
        bases_in_order(session, start, &[end])?
    } else {
        merge_bases(session, start, &[end])?
    };
    starts.add_pair(ends.start, ends.end, &bases, flags.is_turned)?;
    Ok(())
}

/// Adds the ends of a range. Returns whether the word is one.
fn add_range(
    session: &mut Session<'_>,
    flags: Flags,
    word: &[u8],
    starts: &mut Starts,
) -> Result<bool, Stop> {
    let Some(ends) = ends_of(session, word)? else {
        return Ok(false);
    };
    check_file(session, flags, word)?;
    let is_symmetric = ends.range.is_symmetric;
    if !is_there(session, ends.start)? || !is_there(session, ends.end)? {
        return Err(bad_range(session, word, is_symmetric));
    }
    if is_symmetric {
        add_symmetric(session, flags, word, &ends, starts)?;
    } else {
        starts.add(ends.start, !flags.is_turned)?;
        starts.add(ends.end, flags.is_turned)?;
    }
    Ok(true)
}

/// Returns whether an object leads to a commit.
fn is_committish(session: &mut Session<'_>, id: ObjectId) -> Result<bool, Stop> {
    match session.repository.commit(id) {
        Ok(commit) => Ok(commit.is_some()),
        Err(refusal) => Err(Stop::from(refusal)),
    }
}

/// Fails as git does if there is no object with an id that a text names.
fn ensure_there(session: &mut Session<'_>, text: &[u8], id: ObjectId) -> Result<(), Stop> {
    if is_there(session, id)? {
        Ok(())
    } else {
        Err(bad_object(session.alloc, text))
    }
}

/// Returns whether the text before a mark leads to a commit, which the mark needs.
fn leads_to_commit(session: &mut Session<'_>, text: &[u8]) -> Result<bool, Stop> {
    match committish(session, text)? {
        Some(id) => {
            ensure_there(session, text, id)?;
            is_committish(session, id)
        }
        None => Ok(false),
    }
}

/// Adds the commits of `A^@`, `A^!` and `A^-n`. Returns whether there are such commits.
fn add_marked(
    session: &mut Session<'_>,
    flags: Flags,
    shorthand: &Shorthand<'_>,
    starts: &mut Starts,
) -> Result<bool, Stop> {
    let word = shorthand.text;
    let (flags, text) = excluded(flags, word);
    let shorthand = Shorthand {
        text,
        marked: shorthand.marked,
    };
    if !leads_to_commit(session, shorthand.text)? {
        return Ok(false);
    }
    let Some(tips) = shorthand_tips(session, &shorthand)? else {
        return Ok(false);
    };
    if !matches!(shorthand.marked, Marked::Parents) {
        // git looks the text up once more, and then the digits of several objects name none.
        let is_digits = text.iter().all(|byte| byte.is_ascii_hexdigit());
        if is_digits && revision(session, text)?.is_none() {
            return Err(names_nothing(session, flags, word));
        }
        check_file(session, flags, text)?;
    }
    for tip in tips.iter() {
        starts.add(tip.id, tip.is_excluded != flags.is_turned)?;
    }
    Ok(true)
}

/// Returns a text without a `^` before it, and how the text is read.
fn excluded(flags: Flags, text: &[u8]) -> (Flags, &[u8]) {
    match text.strip_prefix(b"^") {
        Some(text) => (
            Flags {
                is_turned: !flags.is_turned,
                is_no_file: flags.is_no_file,
            },
            text,
        ),
        None => (flags, text),
    }
}

/// Adds the object that a text names. Returns whether it names one.
fn add_single(
    session: &mut Session<'_>,
    flags: Flags,
    text: &[u8],
    starts: &mut Starts,
) -> Result<bool, Stop> {
    let Some(id) = revision(session, text)? else {
        return Ok(false);
    };
    check_file(session, flags, text)?;
    add_there(session, flags, text, id, starts)?;
    Ok(true)
}

/// Adds an object.
fn add_there(
    session: &mut Session<'_>,
    flags: Flags,
    name: &[u8],
    id: ObjectId,
    starts: &mut Starts,
) -> Result<(), Stop> {
    ensure_there(session, name, id)?;
    starts.add(id, flags.is_turned)?;
    Ok(())
}

/// Adds the objects that a word means. Returns whether it means any.
fn add_word(
    session: &mut Session<'_>,
    flags: Flags,
    word: &[u8],
    starts: &mut Starts,
) -> Result<bool, Stop> {
    if add_range(session, flags, word, starts)? {
        return Ok(true);
    }
    if let Some(shorthand) = shorthand_of(session.alloc, word)? {
        if add_marked(session, flags, &shorthand, starts)? {
            return Ok(true);
        }
    } else if word.windows(2).any(|two| two == b"^-".as_slice()) {
        // What is behind `^-` is no number that git reads. Then the word names nothing.
        return Ok(false);
    }
    let (flags, text) = excluded(flags, word);
    add_single(session, flags, text, starts)
}

/// Returns the end for a word that names nothing.
fn names_nothing(session: &Session<'_>, flags: Flags, word: &[u8]) -> Stop {
    if flags.is_no_file || word.starts_with(b"^") {
        return fatal(session.alloc, &[b"bad revision '", word, b"'"]);
    }
    no_revision(session, word)
}

/// Reads a revision of the command line.
///
/// # Errors
///
/// - `Fatal`, with git's message, if it names nothing, or a file, too.
/// - `NotSupported` if it is a path, or not read.
pub(crate) fn read(
    session: &mut Session<'_>,
    flags: Flags,
    word: &[u8],
    starts: &mut Starts,
) -> Result<(), Stop> {
    if word == b"..".as_slice() {
        return Err(not_supported(session.alloc, &[b"'..' is not supported"]));
    }
    if add_word(session, flags, word, starts)? {
        return Ok(());
    }
    Err(names_nothing(session, flags, word))
}

/// Returns whether a line of standard input ends the revisions, as `--` does.
fn is_dashes(session: &Session<'_>, line: &[u8]) -> Result<bool, Stop> {
    if line == b"--".as_slice() {
        return Ok(true);
    }
    if line.starts_with(b"-") {
        return Err(fatal(session.alloc, &[b"options not supported in --stdin mode"]));
    }
    if line.contains(&0) {
        return Err(not_supported(
            session.alloc,
            &[b"a line of --stdin with a zero byte is not supported"],
        ));
    }
    Ok(false)
}

/// Reads the revisions of standard input: one on each line, up to an empty line.
///
/// # Errors
///
/// - `Fatal`, with git's message, if one names nothing.
/// - `NotSupported` if paths follow, or in a batch, whose standard input has its questions.
pub(crate) fn read_input(session: &mut Session<'_>, starts: &mut Starts) -> Result<(), Stop> {
    let Some(input) = session.input.take() else {
        return Err(not_supported(session.alloc, &[b"--stdin is not supported in a batch"]));
    };
    let flags = Flags {
        is_turned: false,
        is_no_file: true,
    };
    let mut lines = input.split(|b| *b == b'\n');
    for _ in 0..usize::MAX {
        let Some(line) = lines.next() else {
            return Ok(());
        };
        let line = line.strip_suffix(b"\r").unwrap_or(line);
        if line.is_empty() {
            return Ok(());
        }
        if is_dashes(session, line)? {
            return end_input(session, lines.next(), lines.next().is_some());
        }
        read(session, flags, line, starts)?;
    }
    Ok(())
}

/// Ends the revisions of standard input with `--`, if no path is behind it.
fn end_input(session: &Session<'_>, rest: Option<&[u8]>, is_more: bool) -> Result<(), Stop> {
    match rest {
        None | Some([]) if !is_more => Ok(()),
        _ => Err(not_supported(session.alloc, &[b"paths are not supported"])),
    }
}
