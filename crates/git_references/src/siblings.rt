//! Prints the branches that belong to a branch (git-for-each-ref, "upstream", "push").

use crate::list::Candidate;
use crate::names::{Form, form_of, print_name};
use git_session::commits::commit_of;
use git_session::session::Session;
use git_session::stop::Stop;
use gix_base::hash::ObjectId;
use gix_questions::AheadBehind;
use gix_repository::Sibling;
use gix_spec::spec::parse::delegate::SiblingBranch;
use std::io::Write;
use std::marker::Brand;

/// Says what is printed of the branch that belongs to a branch.
#[derive(Clone, Copy)]
pub(crate) enum Shown {
    Name(Form),
    /// How many commits the branch is ahead and behind, in brackets or without.
    Track(bool),
    /// `>`, `<`, `<>` or `=`.
    TrackShort,
    /// The name of the remote.
    Remote,
    /// The name of the branch there.
    RemoteRef,
}

/// Returns what the words of `upstream` or `push` mean, of which the last one counts.
fn shown_by(words: &[u8]) -> Option<Shown> {
    let is_bare = words
        .split(|byte| *byte == b',')
        .any(|word| word == b"nobracket".as_slice());
    let mut last = Shown::Name(Form::Full);
    for word in words.split(|byte| *byte == b',') {
        if word == b"track".as_slice() {
            last = Shown::Track(!is_bare);
        } else if word == b"trackshort".as_slice() {
            last = Shown::TrackShort;
        } else if word == b"remotename".as_slice() {
            last = Shown::Remote;
        } else if word == b"remoteref".as_slice() {
            last = Shown::RemoteRef;
        } else if word != b"nobracket".as_slice() {
            return None;
        }
    }
    Some(last)
}

/// Returns what a field says of a sibling; `None` if it is another field, or not supported.
pub(crate) fn sibling_of(field: &[u8]) -> Option<(SiblingBranch, Shown)> {
    let (kind, end) = match field.strip_prefix(b"upstream") {
        Some(end) => (SiblingBranch::Upstream, end),
        None => (SiblingBranch::Push, field.strip_prefix(b"push")?),
    };
    if let Some(form) = form_of(end) {
        return Some((kind, Shown::Name(form)));
    }
    // With these words git prints other fields of a branch that has no push destination.
    let names_remote = end.windows(6).any(|six| six == b"remote".as_slice());
    if kind == SiblingBranch::Push && names_remote {
        return None;
    }
    Some((kind, shown_by(end.strip_prefix(b":")?)?))
}

/// Returns how many commits only one commit reaches, and how many only another.
pub(crate) fn distance(
    session: &mut Session<'_>,
    ours: ObjectId,
    theirs: ObjectId,
) -> Result<(usize, usize), Stop> {
    let question = AheadBehind {
        alloc: session.alloc,
        early: !session.repository.is_changed(),
        ours,
        theirs,
    };
    Ok(session.repository.ask::<Brand, _>(&question)?)
}

/// Returns how many commits a branch is ahead and behind its sibling; `None` if one of them names no
/// commit.
fn distance_to(
    session: &mut Session<'_>,
    sibling: &Sibling,
    candidate: &Candidate,
) -> Result<Option<(usize, usize)>, Stop> {
    let Some(id) = sibling.id else {
        return Ok(None);
    };
    let Some(theirs) = commit_of(session, id)? else {
        return Ok(None);
    };
    match commit_of(session, candidate.id)? {
        Some(ours) => Ok(Some(distance(session, ours, theirs)?)),
        None => Ok(None),
    }
}

/// Prints how many commits a branch is ahead and behind; nothing if it is neither.
fn print_track(
    session: &mut Session<'_>,
    distance: Option<(usize, usize)>,
    is_bracketed: bool,
) -> Result<(), Stop> {
    let (open, close) = if is_bracketed { ("[", "]") } else { ("", "") };
    let written = match distance {
        None => write!(session.output, "{}gone{}", open, close),
        Some((0, 0)) => Ok(()),
        Some((ahead, 0)) => write!(session.output, "{}ahead {}{}", open, ahead, close),
        Some((0, behind)) => write!(session.output, "{}behind {}{}", open, behind, close),
        Some((ahead, behind)) => write!(
            session.output,
            "{}ahead {}, behind {}{}",
            open, ahead, behind, close
        ),
    };
    match written {
        Ok(()) => Ok(()),
        Err(_) => Err(Stop::OutOfMemory),
    }
}

/// Returns the sign of how far a branch is ahead and behind.
fn sign(distance: Option<(usize, usize)>) -> &'static [u8] {
    match distance {
        None => b"",
        Some((0, 0)) => b"=",
        Some((_, 0)) => b">",
        Some((0, _)) => b"<",
        Some(_) => b"<>",
    }
}

/// Prints the remote from which a branch is merged, or the branch there.
fn print_merged(
    session: &mut Session<'_>,
    is_remote: bool,
    candidate: &Candidate,
) -> Result<(), Stop> {
    let text = match session.repository.merged_branch(&candidate.name)? {
        Some((remote, _)) if is_remote => remote.to_vec(session.alloc)?,
        Some((_, name)) => name.to_vec(session.alloc)?,
        None => return Ok(()),
    };
    session.print(&text)?;
    Ok(())
}

/// Prints what is asked for of the branch that belongs to a reference; nothing if there is none.
pub(crate) fn print_sibling(
    session: &mut Session<'_>,
    kind: SiblingBranch,
    shown: Shown,
    candidate: &Candidate,
) -> Result<(), Stop> {
    let Some(sibling) = session.repository.sibling_branch(&candidate.name, kind)? else {
        return Ok(());
    };
    match shown {
        Shown::Name(form) => print_name(session, &sibling.name, form),
        Shown::Track(is_bracketed) => {
            let distance = distance_to(session, &sibling, candidate)?;
            print_track(session, distance, is_bracketed)
        }
        Shown::TrackShort => {
            let distance = distance_to(session, &sibling, candidate)?;
            Ok(session.print(sign(distance))?)
        }
        Shown::Remote => print_merged(session, true, candidate),
        Shown::RemoteRef => print_merged(session, false, candidate),
    }
}
