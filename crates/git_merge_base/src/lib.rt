//! Answers `merge-base` (git-merge-base).
#![tactic(auto)]

use git_revisions::bases::{bases_in_order, independent_commits, merge_bases, octopus_in_order};
use git_revisions::forms::asks_entry;
use git_revisions::names::{commit, commits, commits_last_first};
use git_revisions::ranges::revision;
use git_session::commits::commit_of;
use git_session::options::{add_choice, next_item};
use git_session::session::Session;
use git_session::stop::{Stop, fatal, not_supported};
use gix_base::hash::ObjectId;
use gix_questions::IsAncestor;
use gix_repository::Refusal;
use parse_options::{Choice, Given, Item, Reader, Value};
use std::alloc::{AllocError, Global};
use std::marker::Brand;

/// Says what is asked for.
#[derive(Clone, Copy, PartialEq, Eq)]
enum Mode {
    Bases,
    Octopus,
    Independent,
    IsAncestor,
    ForkPoint,
}

/// Names an option.
#[derive(Clone, Copy)]
enum Key {
    All,
    Mode(Mode),
}

/// The options of `merge-base`.
static CHOICES: [Choice<Key>; 5] = [
    Choice {
        key: Key::All,
        short: b'a',
        long: "all",
        value: Value::Never,
        has_no: true,
    },
    Choice {
        key: Key::Mode(Mode::Octopus),
        short: 0,
        long: "octopus",
        value: Value::Never,
        has_no: false,
    },
    Choice {
        key: Key::Mode(Mode::Independent),
        short: 0,
        long: "independent",
        value: Value::Never,
        has_no: false,
    },
    Choice {
        key: Key::Mode(Mode::IsAncestor),
        short: 0,
        long: "is-ancestor",
        value: Value::Never,
        has_no: false,
    },
    Choice {
        key: Key::Mode(Mode::ForkPoint),
        short: 0,
        long: "fork-point",
        value: Value::Never,
        has_no: false,
    },
];

/// Adds the options to a text, each on a line.
pub fn add_options(text: &mut Vec<u8>) -> Result<(), AllocError> {
    for choice in CHOICES.iter() {
        add_choice(text, choice, choice.has_no)?;
    }
    Ok(())
}

/// What the words ask for.
#[derive(Drop)]
struct Asked<'w> {
    mode: Mode,
    all: bool,
    texts: Vec<&'w [u8]>,
}

impl<'w> Asked<'w> {
    /// Notes an option. Two modes exclude each other.
    fn note(&mut self, alloc: Global, given: Given<'w, Key>) -> Result<(), Stop> {
        match given.key {
            Key::All => self.all = !given.is_no,
            Key::Mode(mode) if self.mode == Mode::Bases || self.mode == mode => self.mode = mode,
            Key::Mode(_) => return Err(not_supported(alloc, &[b"several modes are not supported"])),
        }
        Ok(())
    }

    /// Reads the words behind `merge-base`.
    fn read(alloc: Global, words: &'w [&'w [u8]]) -> Result<Asked<'w>, Stop> {
        let mut asked = Asked {
            mode: Mode::Bases,
            all: false,
            texts: Vec::new(alloc),
        };
        let mut reader = Reader::new(&CHOICES, words);
        for _ in 0..usize::MAX {
            match next_item(alloc, &mut reader)? {
                Some(Item::Option(given)) => asked.note(alloc, given)?,
                Some(Item::Argument(text)) => asked.texts.push(text)?,
                None => break,
            }
        }
        Ok(asked)
    }
}

/// Returns git's end for two options that exclude each other.
fn excluded(alloc: Global, one: &[u8]) -> Stop {
    fatal(
        alloc,
        &[b"options '", one, b"' and '--all' cannot be used together"],
    )
}

/// Prints ids on lines, or the first alone. The status is 1 if there is none.
fn print_ids(session: &mut Session<'_>, all: bool, ids: &[ObjectId]) -> Result<u8, Stop> {
    let count = if all { ids.len() } else { 1 };
    for id in ids.iter().take(count) {
        session.print_id_line(*id)?;
    }
    Ok(u8::from(ids.is_empty()))
}

/// Answers for the merge bases of the first commit and a merge of the others.
fn bases(session: &mut Session<'_>, asked: &Asked<'_>) -> Result<u8, Stop> {
    if asked.texts.len() < 2 {
        return Err(not_supported(
            session.alloc,
            &[b"fewer than two commits are not supported"],
        ));
    }
    let ids = commits(session, &asked.texts)?;
    let Some((first, others)) = ids.split_first() else {
        return Ok(1);
    };
    let bases = bases_in_order(session, *first, others)?;
    print_ids(session, asked.all, &bases)
}

/// Answers `--octopus`.
fn octopus(session: &mut Session<'_>, asked: &Asked<'_>) -> Result<u8, Stop> {
    let ids = commits_last_first(session, &asked.texts)?;
    let Some((first, others)) = ids.split_first() else {
        return Ok(1);
    };
    let bases = octopus_in_order(session, *first, others)?;
    print_ids(session, asked.all, &bases)
}

/// Answers `--independent`.
fn independent(session: &mut Session<'_>, asked: &Asked<'_>) -> Result<u8, Stop> {
    if asked.all {
        return Err(excluded(session.alloc, b"--independent"));
    }
    let ids = commits_last_first(session, &asked.texts)?;
    let found = independent_commits(session, &ids)?;
    print_ids(session, true, &found)
}

/// Answers `--is-ancestor`.
fn is_ancestor(session: &mut Session<'_>, asked: &Asked<'_>) -> Result<u8, Stop> {
    if asked.texts.len() < 2 {
        return Err(not_supported(
            session.alloc,
            &[b"--is-ancestor of fewer than two commits is not supported"],
        ));
    }
    if asked.all {
        return Err(excluded(session.alloc, b"--is-ancestor"));
    }
    let [ancestor, of] = asked.texts.as_slice() else {
        return Err(fatal(session.alloc, &[b"--is-ancestor takes exactly two commits"]));
    };
    let ancestor = commit(session, ancestor)?;
    let of = commit(session, of)?;
    let question = IsAncestor {
        alloc: session.alloc,
        early: session.repository.asks_early(),
        ancestor,
        of,
    };
    let yes = session.repository.ask::<Brand, _>(&question)?;
    Ok(u8::from(!yes))
}

/// Returns the ids that a reference has stood for, by its reflog.
fn logged_ids(session: &mut Session<'_>, reference: &[u8]) -> Result<Vec<ObjectId>, Stop> {
    let found = if asks_entry(reference) {
        Err(Refusal::Unknown)
    } else {
        session.repository.logged_ids(reference)
    };
    match found {
        Ok(ids) => Ok(ids),
        Err(Refusal::Unknown) => {
            Err(fatal(session.alloc, &[b"No such ref: '", reference, b"'"]))
        }
        Err(Refusal::Ambiguous) => {
            Err(fatal(session.alloc, &[b"Ambiguous refname: '", reference, b"'"]))
        }
        Err(refusal) => Err(Stop::from(refusal)),
    }
}

/// Returns those ids that are commits.
fn commits_among(session: &mut Session<'_>, ids: &[ObjectId]) -> Result<Vec<ObjectId>, Stop> {
    let mut commits = Vec::new(session.alloc);
    for id in ids {
        if session.repository.commit_of_reference(*id)? == Some(*id) {
            commits.push(*id)?;
        }
    }
    Ok(commits)
}

/// Returns the commits that a reference has stood for, by its reflog, each once and sorted. If the
/// reflog names none, it is what the reference stands for.
fn logged_commits(session: &mut Session<'_>, reference: &[u8]) -> Result<Vec<ObjectId>, Stop> {
    let mut ids = logged_ids(session, reference)?;
    ids.sort_unstable();
    ids.dedup();
    let commits = commits_among(session, &ids)?;
    if !commits.is_empty() {
        return Ok(commits);
    }
    match revision(session, reference)? {
        Some(id) => commits_among(session, &[id]),
        None => Ok(commits),
    }
}

/// Answers `--fork-point`: prints the only merge base with all that a reference has stood for, if
/// the reference has stood for it.
fn fork_point(session: &mut Session<'_>, asked: &Asked<'_>) -> Result<u8, Stop> {
    let (reference, text) = match asked.texts.as_slice() {
        [reference] => (*reference, b"HEAD".as_slice()),
        [reference, text] => (*reference, *text),
        _ => return Err(not_supported(
            session.alloc,
            &[b"--fork-point is supported of a reference and at most one commit"],
        )),
    };
    let Some(id) = revision(session, text)? else {
        return Err(fatal(session.alloc, &[b"Not a valid object name: '", text, b"'"]));
    };
    let logged = logged_commits(session, reference)?;
    let Some(first) = commit_of(session, id)? else {
        return Ok(1);
    };
    let bases = merge_bases(session, first, &logged)?;
    let [base] = bases.as_slice() else {
        return Ok(1);
    };
    if logged.binary_search(base).is_err() {
        return Ok(1);
    }
    session.print_id_line(*base)?;
    Ok(0)
}

/// Answers `merge-base`, and returns the status.
pub fn merge_base(session: &mut Session<'_>, words: &[&[u8]]) -> Result<u8, Stop> {
    let asked = Asked::read(session.alloc, words)?;
    match asked.mode {
        Mode::Bases => bases(session, &asked),
        Mode::Octopus => octopus(session, &asked),
        Mode::Independent => independent(session, &asked),
        Mode::IsAncestor => is_ancestor(session, &asked),
        Mode::ForkPoint => fork_point(session, &asked),
    }
}
