//! Counts commits.

use crate::boundary::boundary_of;
use crate::ends::Ends;
use crate::lists::{left_side, listed, on_both_sides};
use crate::wishes::{Order, Wishes};
use git_session::session::Session;
use git_session::stop::Stop;
use gix_base::hash::ObjectId;
use gix_questions::{AheadBehind, CountReachable};
use std::marker::Brand;

/// Returns how many commits some reach and others do not. The answer is that of a proved question.
fn count_reachable(
    session: &mut Session<'_>,
    include: &[ObjectId],
    exclude: &[ObjectId],
) -> Result<usize, Stop> {
    if include.is_empty() {
        return Ok(0);
    }
    let question = CountReachable {
        alloc: session.alloc,
        early: !exclude.is_empty() && !session.repository.is_changed(),
        include,
        exclude,
    };
    Ok(session.repository.ask::<Brand, _>(&question)?)
}

/// Returns how many commits only the left end of `A...B` reaches, and how many only the right one.
/// The answer is that of a proved question.
fn ahead_behind(
    session: &mut Session<'_>,
    ours: ObjectId,
    theirs: ObjectId,
) -> Result<(usize, usize), Stop> {
    let question = AheadBehind {
        alloc: session.alloc,
        early: !session.repository.is_changed(),
        ours,
        theirs,
    };
    Ok(session.repository.ask::<Brand, _>(&question)?)
}

/// Counts the commits of both sides, each of which is wanted.
///
/// # Errors
///
/// Those of [`left_side`].
fn whole_sides(session: &mut Session<'_>, ends: &Ends) -> Result<(usize, usize), Stop> {
    if let [left, right] = ends.included.as_slice()
        && ends.is_pair
    {
        return ahead_behind(session, *left, *right);
    }
    let lefts = count_reachable(session, &ends.lefts, &ends.excluded)?;
    let rights = count_reachable(session, &ends.rights, &ends.excluded)?;
    let all = count_reachable(session, &ends.included, &ends.excluded)?;
    if lefts.saturating_add(rights) == all {
        Ok((lefts, rights))
    } else {
        Err(on_both_sides(session.alloc))
    }
}

/// Counts the commits of both sides in a list.
fn listed_sides(
    session: &mut Session<'_>,
    wishes: &Wishes,
    ends: &Ends,
) -> Result<(usize, usize), Stop> {
    let ids = listed(session, wishes, ends)?;
    boundary_of(session, wishes, &ids)?;
    let left = left_side(session, wishes, ends)?;
    let lefts = ids.iter().filter(|id| left.contains_key(*id)).count();
    Ok((lefts, ids.len().saturating_sub(lefts)))
}

/// Returns whether all commits are counted that are reachable.
///
/// If a graft makes a circle, git has no topological order of it, and lists none of its commits.
fn counts_all(session: &Session<'_>, wishes: &Wishes) -> bool {
    wishes.wants_all() && (wishes.order == Order::Met || !session.repository.is_changed())
}

/// Prints how many commits there are of each side.
fn print_sides(session: &mut Session<'_>, wishes: &Wishes, ends: &Ends) -> Result<(), Stop> {
    let (lefts, rights) = if counts_all(session, wishes) {
        whole_sides(session, ends)?
    } else {
        listed_sides(session, wishes, ends)?
    };
    session.print_number(lefts)?;
    session.print(b"\t")?;
    session.print_number(rights)?;
    session.print(b"\n")?;
    Ok(())
}

/// Counts the commits of a list, and those behind the last ones.
fn count_listed(session: &mut Session<'_>, wishes: &Wishes, ends: &Ends) -> Result<usize, Stop> {
    let ids = listed(session, wishes, ends)?;
    let behind = boundary_of(session, wishes, &ids)?;
    Ok(ids.len().saturating_add(behind.len()))
}

/// Prints how many commits there are: all, or those of each side.
pub fn print_count(session: &mut Session<'_>, wishes: &Wishes, ends: &Ends) -> Result<(), Stop> {
    if wishes.has_sides {
        return print_sides(session, wishes, ends);
    }
    let count = if counts_all(session, wishes) {
        count_reachable(session, &ends.included, &ends.excluded)?
    } else {
        count_listed(session, wishes, ends)?
    };
    session.print_number(count)?;
    session.print(b"\n")?;
    Ok(())
}
