//! Puts merge bases into git's order: the newest first, and those with one date as git's walk meets
//! them (git-merge-base).

mod painting;

use crate::bases::painting::met;
use git_session::session::Session;
use git_session::stop::{Stop, not_supported};
use gix_base::hash::ObjectId;
use gix_questions::{EarlyBases, EarlyIndependent, OctopusBases};
use std::alloc::{AllocError, Global};
use std::marker::Brand;

/// A merge base, with what its place in git's order depends on.
#[derive(Clone, Copy)]
struct Dated {
    time: i64,
    /// Its place among the commits that git's walk meets.
    place: usize,
    id: ObjectId,
}

/// Returns merge bases with their dates and with their places in a list, in git's order. One that
/// is not in the list has the place behind all.
fn sorted(
    session: &mut Session<'_>,
    ids: &[ObjectId],
    list: &[ObjectId],
) -> Result<Vec<Dated>, Stop> {
    let mut dated = Vec::new(session.alloc);
    for id in ids {
        let time = session.repository.entry(*id)?.time;
        let place = list
            .iter()
            .position(|one| *one == *id)
            .unwrap_or(list.len());
        dated.push(Dated {
            time,
            place,
            id: *id,
        })?;
    }
    dated.sort_by(|a, b| b.time.cmp(&a.time).then(a.place.cmp(&b.place)))?;
    Ok(dated)
}

/// Tells whether two sorted merge bases have the same date and the same place.
fn has_equals(dated: &[Dated]) -> bool {
    dated.windows(2).any(|two| match two {
        [one, other] => one.time == other.time && one.place == other.place,
        _ => false,
    })
}

/// Returns the end for merge bases whose order is not read.
fn unordered(alloc: Global) -> Stop {
    not_supported(
        alloc,
        &[b"the order of merge bases with one date is not supported"],
    )
}

/// Returns merge bases in git's order: by falling date, and those with one date as git's walk from
/// `first` and `others` meets them.
///
/// # Errors
///
/// `NotSupported` if dates are the same, and the walk depends on what is not read.
fn in_order(
    session: &mut Session<'_>,
    first: ObjectId,
    others: &[ObjectId],
    bases: &[ObjectId],
) -> Result<Vec<ObjectId>, Stop> {
    let mut dated = sorted(session, bases, &[])?;
    if has_equals(&dated) {
        let list = met(session, first, others)?;
        dated = sorted(session, bases, &list)?;
        if has_equals(&dated) {
            return Err(unordered(session.alloc));
        }
    }
    let mut ids = Vec::new(session.alloc);
    for one in dated.iter() {
        ids.push(one.id)?;
    }
    Ok(ids)
}

/// Returns the merge bases of a commit and a merge of others, in no particular order. Without others
/// there are none. The answer is that of a proved question.
///
/// # Errors
///
/// `Refused` if a commit is not read.
pub fn merge_bases(
    session: &mut Session<'_>,
    first: ObjectId,
    others: &[ObjectId],
) -> Result<Vec<ObjectId>, Stop> {
    let question = EarlyBases {
        alloc: session.alloc,
        first,
        others,
    };
    let found = session.repository.ask::<Brand, _>(&question)?;
    Ok(only(session.alloc, &found, &found)?)
}

/// Returns the merge bases of a commit and a merge of others, in git's order.
///
/// # Errors
///
/// - `NotSupported` if git's order depends on what is not read.
/// - `Refused` if a commit is not read.
pub fn bases_in_order(
    session: &mut Session<'_>,
    first: ObjectId,
    others: &[ObjectId],
) -> Result<Vec<ObjectId>, Stop> {
    let bases = merge_bases(session, first, others)?;
    if bases.len() < 2 {
        return Ok(bases);
    }
    in_order(session, first, others, &bases)
}

/// Returns the merge bases of a commit and each of others, one after another.
fn bases_with_each(
    session: &mut Session<'_>,
    head: ObjectId,
    others: &[ObjectId],
) -> Result<Vec<ObjectId>, Stop> {
    let mut all = Vec::new(session.alloc);
    for other in others {
        let bases = bases_in_order(session, head, &[*other])?;
        all.extend_from_slice(&bases)?;
    }
    Ok(all)
}

/// Returns the common ancestors that git finds for an octopus: the merge bases of each head and of
/// those that the heads before it have left.
fn found_by_heads(
    session: &mut Session<'_>,
    first: ObjectId,
    others: &[ObjectId],
) -> Result<Vec<ObjectId>, Stop> {
    let mut found = Vec::new(session.alloc);
    found.push(first)?;
    for head in others {
        found = bases_with_each(session, *head, &found)?;
    }
    Ok(found)
}

/// Returns those of a list that are wanted, each once, in the order of the list.
fn only(
    alloc: Global,
    list: &[ObjectId],
    wanted: &[ObjectId],
) -> Result<Vec<ObjectId>, AllocError> {
    let mut found = Vec::new(alloc);
    for id in list {
        if wanted.contains(id) && !found.contains(id) {
            found.push(*id)?;
        }
    }
    Ok(found)
}

/// Returns the best common ancestors of some heads, in git's order: as it finds them, head by head.
/// Which these are is the answer of a proved question.
///
/// # Errors
///
/// - `NotSupported` if git's order depends on what is not read.
/// - `Refused` if a commit is not read.
pub fn octopus_in_order(
    session: &mut Session<'_>,
    first: ObjectId,
    others: &[ObjectId],
) -> Result<Vec<ObjectId>, Stop> {
    let question = OctopusBases {
        alloc: session.alloc,
        first,
        others,
    };
    let found = session.repository.ask::<Brand, _>(&question)?;
    let bases = only(session.alloc, &found, &found)?;
    if bases.len() < 2 {
        return Ok(bases);
    }
    let list = found_by_heads(session, first, others)?;
    let found = only(session.alloc, &list, &bases)?;
    if found.len() < bases.len() {
        return Err(unordered(session.alloc));
    }
    Ok(found)
}

/// Returns those of some ids that no other one reaches, each once, in the order of the ids. The
/// answer is that of a proved question.
///
/// # Errors
///
/// `Refused` if a commit is not read.
pub fn independent_commits(
    session: &mut Session<'_>,
    ids: &[ObjectId],
) -> Result<Vec<ObjectId>, Stop> {
    let alloc = session.alloc;
    let ids = only(alloc, ids, ids)?;
    let question = EarlyIndependent { alloc, ids: &ids };
    Ok(session.repository.ask::<Brand, _>(&question)?)
}
