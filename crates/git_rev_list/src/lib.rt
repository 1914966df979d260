//! Answers `rev-list` (git-rev-list).
//!
//! It reads the words (`words.rt`) and the revisions (`revisions.rt`, `starts.rt`). `git_lists` makes
//! the list or counts it, and `git_pretty` prints commits by a format.
#![tactic(auto)]

mod ages;
mod files;
mod revisions;
mod shape;
mod starts;
mod words;

use crate::shape::{End, Shape};
use crate::words::Scan;
use git_lists::{Ends, Line, Order, Wishes, lines, print_count};
use git_pretty::{Pretty, print_few, print_subject, refuse_encodings};
use git_session::session::Session;
use git_session::stop::{Stop, not_supported};
use gix_base::hash::ObjectId;
use std::alloc::{AllocError, Global};
use std::io::Write;

/// Prints the committer's date of a commit, in seconds since 1970, and a blank.
fn print_date(session: &mut Session<'_>, id: ObjectId) -> Result<(), Stop> {
    let entry = session.repository.entry(id)?;
    match write!(session.output, "{} ", entry.time) {
        Ok(()) => Ok(()),
        Err(_) => Err(Stop::OutOfMemory),
    }
}

/// Prints the id of a commit, with as many digits as are asked for.
fn print_id(session: &mut Session<'_>, shape: &Shape, id: ObjectId) -> Result<(), Stop> {
    if shape.is_short {
        print_few(session, shape.digits, id)
    } else {
        Ok(session.print_id(id)?)
    }
}

/// Prints the parents of a commit.
fn print_parents(session: &mut Session<'_>, id: ObjectId) -> Result<(), Stop> {
    let entry = session.repository.entry(id)?;
    for parent in entry.parents.iter() {
        session.print(b" ")?;
        session.print_id(*parent)?;
    }
    Ok(())
}

/// Prints the id of a commit, with its side and perhaps with its parents.
fn print_header(session: &mut Session<'_>, shape: &Shape, line: Line) -> Result<(), Stop> {
    session.print(line.mark)?;
    print_id(session, shape, line.id)?;
    if shape.has_parents {
        print_parents(session, line.id)?;
    }
    Ok(())
}

/// Prints a commit: its id, and what is asked for besides.
fn print_line(
    session: &mut Session<'_>,
    shape: &Shape,
    pretty: &Pretty,
    line: Line,
) -> Result<(), Stop> {
    if shape.has_dates {
        print_date(session, line.id)?;
    }
    match pretty {
        Pretty::Nothing => {
            print_header(session, shape, line)?;
            session.print(b"\n")?;
        }
        Pretty::Oneline => {
            print_header(session, shape, line)?;
            session.print(b" ")?;
            print_subject(session, line.id)?;
            session.print(b"\n")?;
        }
        Pretty::Format(format) => {
            if shape.has_header {
                session.print(b"commit ")?;
                print_header(session, shape, line)?;
                session.print(b"\n")?;
            }
            format.print(session, shape.digits, line.id)?;
        }
    }
    Ok(())
}

/// Prints a list of commits.
fn print_list(session: &mut Session<'_>, scan: &Scan<'_>, ends: &Ends) -> Result<(), Stop> {
    let mut lines = lines(session, &scan.wishes, ends)?;
    if scan.shape.is_reversed {
        lines.reverse();
    }
    if scan.shape.is_quiet {
        return Ok(());
    }
    for line in lines.iter() {
        print_line(session, &scan.shape, &scan.pretty, *line)?;
    }
    Ok(())
}

/// Returns the ends of one side of `A...B`: what one end reaches, and the other does not.
///
/// # Errors
///
/// `NotSupported` if there is more than one `A...B`, and where git's answer depends on how it walks.
/// It prints both sides if the ends have no merge base, and in another order with a commit-graph.
fn one_side(alloc: Global, wishes: &Wishes, ends: Ends, end: End) -> Result<Ends, Stop> {
    let counts_sides = wishes.counts && wishes.has_sides;
    let is_met = wishes.order == Order::Met;
    let is_plain = is_met && !wishes.is_first_parent && !wishes.has_boundary && !counts_sides;
    if !ends.is_pair || ends.excluded.is_empty() || !is_plain {
        return Err(not_supported(
            alloc,
            &[b"--left-only and --right-only are not supported here"],
        ));
    }
    let none = Vec::new(alloc);
    let (included, excluded, lefts, rights) = match end {
        End::Left => (ends.lefts.to_vec(alloc)?, ends.rights, ends.lefts, none),
        End::Right => (ends.rights.to_vec(alloc)?, ends.lefts, none, ends.rights),
    };
    Ok(Ends {
        included,
        excluded,
        lefts,
        rights,
        is_pair: false,
    })
}

/// Ends for options that are not supported together.
fn refuse_together(alloc: Global, scan: &Scan<'_>) -> Result<(), Stop> {
    let (wishes, shape) = (&scan.wishes, &scan.shape);
    if shape.is_quiet && wishes.counts {
        return Err(not_supported(alloc, &[b"--quiet is not supported with --count"]));
    }
    let is_plain = wishes.order == Order::Met
        && !wishes.has_boundary
        && !wishes.has_sides
        && shape.only.is_none()
        && !wishes.is_on_path
        && !scan.starts.has_excluded();
    if !wishes.is_walked && !is_plain || wishes.is_walked && !wishes.is_sorted {
        return Err(not_supported(alloc, &[b"--no-walk is not supported here"]));
    }
    let has_limits = wishes.since.is_some() || wishes.until.is_some() || wishes.has_boundary;
    let is_whole = !has_limits && shape.only.is_none();
    if wishes.is_on_path && (!is_whole || !scan.starts.has_excluded()) {
        return Err(not_supported(alloc, &[b"--ancestry-path is not supported here"]));
    }
    if wishes.since.is_some() && wishes.has_boundary {
        return Err(not_supported(alloc, &[b"--since is not supported with --boundary"]));
    }
    let is_bare = !shape.has_parents && !shape.has_dates && !wishes.has_boundary;
    if !scan.has_header() && !is_bare {
        return Err(not_supported(alloc, &[b"--no-commit-header is not supported here"]));
    }
    Ok(())
}

/// Adds the options of `rev-list` to a text, each on a line.
pub fn add_options(text: &mut Vec<u8>) -> Result<(), AllocError> {
    words::add_options(text)
}

/// Answers `rev-list`, and returns the status.
pub fn rev_list(session: &mut Session<'_>, words: &[&[u8]]) -> Result<u8, Stop> {
    let scan = words::read(session, words)?;
    refuse_together(session.alloc, &scan)?;
    if !matches!(scan.pretty, Pretty::Nothing) {
        refuse_encodings(session)?;
    }
    let mut ends = scan.starts.ends(session)?;
    if scan.wishes.is_on_path && ends.excluded.is_empty() {
        return Err(not_supported(
            session.alloc,
            &[b"--ancestry-path is not supported without an excluded commit"],
        ));
    }
    if let Some(end) = scan.shape.only {
        ends = one_side(session.alloc, &scan.wishes, ends, end)?;
    }
    if scan.wishes.counts {
        print_count(session, &scan.wishes, &ends)?;
    } else {
        print_list(session, &scan, &ends)?;
    }
    Ok(0)
}

/// Returns whether the words of `rev-list` want standard input.
pub fn wants_input(words: &[&[u8]]) -> bool {
    words
        .iter()
        .take_while(|word| **word != b"--".as_slice())
        .any(|word| *word == b"--stdin".as_slice())
}
