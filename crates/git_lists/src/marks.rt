//! Makes the lines of a list: the commits with their marks.

use crate::boundary::boundary_of;
use crate::ends::Ends;
use crate::lists::{left_side, listed};
use crate::order::{Ids, set_of};
use crate::wishes::Wishes;
use git_session::session::Session;
use git_session::stop::Stop;
use gix_base::hash::ObjectId;

/// A line of a list.
#[derive(Clone, Copy)]
pub struct Line {
    /// The side of the commit, or `-` for one behind the last ones.
    pub mark: &'static [u8],
    pub id: ObjectId,
}

/// Returns the mark of a commit: its side.
fn mark(wishes: &Wishes, left: &Ids, id: ObjectId) -> &'static [u8] {
    if !wishes.has_sides {
        b""
    } else if left.contains_key(&id) {
        b"<"
    } else {
        b">"
    }
}

/// Returns the lines of a list, in git's order.
///
/// # Errors
///
/// - `NotSupported` if git's list depends on how it walks.
/// - `Refused` if a commit is not read that is needed.
pub fn lines(session: &mut Session<'_>, wishes: &Wishes, ends: &Ends) -> Result<Vec<Line>, Stop> {
    let ids = listed(session, wishes, ends)?;
    let left = if wishes.has_sides {
        left_side(session, wishes, ends)?
    } else {
        set_of(session, &[])?
    };
    let mut lines = Vec::new(session.alloc);
    for id in ids.iter() {
        lines.push(Line {
            mark: mark(wishes, &left, *id),
            id: *id,
        })?;
    }
    for come in boundary_of(session, wishes, &ids)?.iter() {
        lines.push(Line {
            mark: b"-",
            id: come.id,
        })?;
    }
    Ok(lines)
}
