//! Tells whether git leaves out the same commits with `--first-parent`.
//!
//! git follows all parents of a commit that it knows to be left out, and else only the first one.
//! If dates are equal, or a clock was wrong, it may meet a commit before it knows that, and then it
//! never sees what the other parents reach.

use crate::ends::Ends;
use crate::order::{Come, Walk, set_of};
use git_session::session::Session;
use git_session::stop::{Stop, not_supported};
use gix_base::hash::ObjectId;

/// A commit that is left out, at which a line of first parents ends. The greatest is the newest.
#[derive(Clone, Copy, PartialEq, Eq, PartialOrd, Ord)]
struct Last {
    time: i64,
    id: ObjectId,
}

/// Returns where the lines of first parents end, the newest first.
fn last_ones(
    session: &mut Session<'_>,
    list: &[Come],
    included: &[ObjectId],
) -> Result<Vec<Last>, Stop> {
    let mut met = set_of(session, &[])?;
    for come in list {
        met.insert(come.id, ())?;
    }
    let mut ids = included.to_vec(session.alloc)?;
    for come in list {
        let entry = session.repository.entry(come.id)?;
        ids.extend_from_slice(entry.parents.get(..1).unwrap_or(&[]))?;
    }
    let mut last = Vec::new(session.alloc);
    for id in ids.iter() {
        if !met.contains_key(id) {
            let time = session.repository.entry(*id)?.time;
            last.push(Last { time, id: *id })?;
        }
    }
    last.sort_unstable();
    last.reverse();
    Ok(last)
}

/// Returns whether git knows that each of some commits is left out, before it meets the commit.
fn are_known(session: &mut Session<'_>, ends: &Ends, last: &[Last]) -> Result<bool, Stop> {
    let mut walk = Walk::new(session, None, false, &ends.excluded)?;
    for one in last {
        walk.pass_newer(session, one.time)?;
        if !walk.has_met(&one.id) {
            return Ok(false);
        }
    }
    Ok(true)
}

/// Ends if git may leave out fewer commits than others reach.
pub(crate) fn refuse_doubt(
    session: &mut Session<'_>,
    list: &[Come],
    ends: &Ends,
) -> Result<(), Stop> {
    // One line ends where it meets the first commit that is left out.
    if ends.excluded.is_empty() || ends.included.len() < 2 {
        return Ok(());
    }
    let last = last_ones(session, list, &ends.included)?;
    if are_known(session, ends, &last)? {
        Ok(())
    } else {
        Err(not_supported(
            session.alloc,
            &[b"--first-parent is not supported if commits have the same date"],
        ))
    }
}
