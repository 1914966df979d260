//! Selects references by their objects, by what their commits reach, and by what reaches them
//! (git-for-each-ref, `--points-at`, `--contains`, `--merged`).

use git_references::Candidate;
use git_session::session::Session;
use git_session::stop::{Stop, fatal};
use gix_base::hash::ObjectId;
use gix_base::object::Kind;
use gix_questions::{Contains, ReachableNewestFirst};
use gix_repository::Refusal;
use std::alloc::{AllocError, Global};
use std::marker::Brand;

/// Says which references are selected, by the commits to which they lead. An empty list selects
/// all.
#[derive(Drop)]
pub(crate) struct Filter {
    /// Selects those of one of these objects, and those of tags of one of them.
    pub(crate) points_at: Vec<ObjectId>,
    /// Selects those that reach one of these commits.
    pub(crate) contains: Vec<ObjectId>,
    /// Selects those that reach none of these commits.
    pub(crate) no_contains: Vec<ObjectId>,
    /// Selects those that one of these commits reaches.
    pub(crate) merged: Vec<ObjectId>,
    /// Selects those that none of these commits reaches.
    pub(crate) no_merged: Vec<ObjectId>,
}

impl Filter {
    /// Selects all references.
    pub(crate) fn new(alloc: Global) -> Filter {
        Filter {
            points_at: Vec::new(alloc),
            contains: Vec::new(alloc),
            no_contains: Vec::new(alloc),
            merged: Vec::new(alloc),
            no_merged: Vec::new(alloc),
        }
    }

    /// Tells whether no commit counts.
    fn takes_all_commits(&self) -> bool {
        self.contains.is_empty()
            && self.no_contains.is_empty()
            && self.merged.is_empty()
            && self.no_merged.is_empty()
    }
}

/// Returns the object that an object tags; `None` if it is no tag.
fn tagged(session: &mut Session<'_>, candidate: &Candidate) -> Result<Option<ObjectId>, Stop> {
    match session.repository.kind(candidate.id) {
        Ok(Kind::Tag) => Ok(Some(session.repository.tag(candidate.id)?.target)),
        Ok(_) => Ok(None),
        Err(Refusal::Object(gix_odb::Error::Missing(_))) if !session.repository.is_partial() => {
            Err(fatal(
                session.alloc,
                &[b"malformed object at '", &candidate.name, b"'"],
            ))
        }
        Err(refusal) => Err(Stop::from(refusal)),
    }
}

/// Keeps the references of some objects, and those of tags of these.
fn keep_pointing(
    session: &mut Session<'_>,
    candidates: &mut Vec<Candidate>,
    objects: &[ObjectId],
) -> Result<(), Stop> {
    if objects.is_empty() {
        return Ok(());
    }
    for candidate in candidates.iter_mut() {
        candidate.is_wanted = objects.contains(&candidate.id)
            || match tagged(session, candidate)? {
                Some(target) => objects.contains(&target),
                None => false,
            };
    }
    candidates.retain(|candidate| candidate.is_wanted);
    Ok(())
}

/// Looks up the commits of references, and keeps those that lead to one.
fn keep_commits(session: &mut Session<'_>, candidates: &mut Vec<Candidate>) -> Result<(), Stop> {
    for candidate in candidates.iter_mut() {
        candidate.commit = session.repository.commit_of_reference(candidate.id)?;
    }
    candidates.retain(|candidate| candidate.commit.is_some());
    Ok(())
}

/// Returns the commits of references, sorted, each once.
fn tips(alloc: Global, candidates: &[Candidate]) -> Result<Vec<ObjectId>, AllocError> {
    let mut tips = Vec::new(alloc);
    for candidate in candidates {
        if let Some(commit) = candidate.commit {
            tips.push(commit)?;
        }
    }
    tips.sort_unstable();
    tips.dedup();
    Ok(tips)
}

/// Tells whether a commit is among sorted ones.
fn is_among(sorted: &[ObjectId], commit: Option<ObjectId>) -> bool {
    match commit {
        Some(commit) => sorted.binary_search(&commit).is_ok(),
        None => false,
    }
}

/// Keeps the references whose commits are among sorted ones, or those whose commits are not.
fn keep(candidates: &mut Vec<Candidate>, sorted: &[ObjectId], is_wanted: bool) {
    candidates.retain(|candidate| is_among(sorted, candidate.commit) == is_wanted);
}

/// Adds the commits that have the answer `true`.
fn add_true(
    commits: &[ObjectId],
    answers: &[bool],
    found: &mut Vec<ObjectId>,
) -> Result<(), AllocError> {
    for (commit, answer) in commits.iter().zip(answers.iter()) {
        if *answer {
            found.push(*commit)?;
        }
    }
    Ok(())
}

/// Returns those of `tips` that reach one of `commits`, sorted.
fn reaching(
    session: &mut Session<'_>,
    tips: &[ObjectId],
    commits: &[ObjectId],
) -> Result<Vec<ObjectId>, Stop> {
    let mut found = Vec::new(session.alloc);
    for commit in commits {
        let question = Contains {
            alloc: session.alloc,
            early: session.repository.asks_early(),
            commit: *commit,
            tips,
        };
        let answers = session.repository.ask::<Brand, _>(&question)?;
        add_true(tips, &answers, &mut found)?;
    }
    found.sort_unstable();
    Ok(found)
}

/// Returns the commits that `tips` reach and `commits` do not, sorted. A tip is among them if none
/// of `commits` reaches it.
fn beyond(
    session: &mut Session<'_>,
    tips: &[ObjectId],
    commits: &[ObjectId],
) -> Result<Vec<ObjectId>, Stop> {
    let question = ReachableNewestFirst {
        alloc: session.alloc,
        early: session.repository.asks_early(),
        include: tips,
        exclude: commits,
    };
    let mut found = session.repository.ask::<Brand, _>(&question)?;
    found.sort_unstable();
    Ok(found)
}

/// Keeps the references that reach one of `commits`, or those that reach none.
fn keep_reaching(
    session: &mut Session<'_>,
    candidates: &mut Vec<Candidate>,
    commits: &[ObjectId],
    is_wanted: bool,
) -> Result<(), Stop> {
    if commits.is_empty() {
        return Ok(());
    }
    let tips = tips(session.alloc, candidates)?;
    let found = reaching(session, &tips, commits)?;
    keep(candidates, &found, is_wanted);
    Ok(())
}

/// Keeps the references that one of `commits` reaches, or those that none of them reaches.
fn keep_reached(
    session: &mut Session<'_>,
    candidates: &mut Vec<Candidate>,
    commits: &[ObjectId],
    is_wanted: bool,
) -> Result<(), Stop> {
    if commits.is_empty() {
        return Ok(());
    }
    let tips = tips(session.alloc, candidates)?;
    let found = beyond(session, &tips, commits)?;
    keep(candidates, &found, !is_wanted);
    Ok(())
}

/// Keeps the references that a filter selects. One that leads to no commit is kept only if the
/// filter selects all.
pub(crate) fn apply(
    session: &mut Session<'_>,
    filter: &Filter,
    candidates: &mut Vec<Candidate>,
) -> Result<(), Stop> {
    keep_pointing(session, candidates, &filter.points_at)?;
    if filter.takes_all_commits() {
        return Ok(());
    }
    keep_commits(session, candidates)?;
    keep_reaching(session, candidates, &filter.contains, true)?;
    keep_reaching(session, candidates, &filter.no_contains, false)?;
    keep_reached(session, candidates, &filter.merged, true)?;
    keep_reached(session, candidates, &filter.no_merged, false)
}
