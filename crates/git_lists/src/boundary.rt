//! Lists the commits behind the last ones that are printed (git-rev-list, "--boundary").

use crate::order::{Come, set_of};
use crate::topological::sort;
use crate::wishes::{Order, Wishes};
use git_session::session::Session;
use git_session::stop::{Stop, not_supported};
use gix_base::hash::ObjectId;

/// Returns the parents of commits that are not among these, each once, the last one first.
fn parents_behind(session: &mut Session<'_>, ids: &[ObjectId]) -> Result<Vec<Come>, Stop> {
    let mut met = set_of(session, ids)?;
    let mut behind = Vec::new(session.alloc);
    for id in ids {
        let entry = session.repository.entry(*id)?;
        for parent in entry.parents.iter() {
            if !met.contains_key(parent) {
                met.insert(*parent, ())?;
                behind.push(Come {
                    id: *parent,
                    time: 0,
                    parents: 0,
                })?;
            }
        }
    }
    behind.reverse();
    Ok(behind)
}

/// Returns the commits behind the printed ones, in git's order; none if they are not asked for.
///
/// # Errors
///
/// `NotSupported` with `--first-parent`, and if the sides are counted: both hang on what git has read.
pub(crate) fn boundary_of(
    session: &mut Session<'_>,
    wishes: &Wishes,
    ids: &[ObjectId],
) -> Result<Vec<Come>, Stop> {
    if !wishes.has_boundary {
        return Ok(Vec::new(session.alloc));
    }
    if wishes.is_first_parent || (wishes.counts && wishes.has_sides) {
        return Err(not_supported(
            session.alloc,
            &[b"--boundary is not supported with --first-parent, or if sides are counted"],
        ));
    }
    let behind = parents_behind(session, ids)?;
    let order = match wishes.order {
        Order::Dated => Order::Dated,
        _ => Order::Topological,
    };
    Ok(sort(session, &behind, order)?.list)
}
