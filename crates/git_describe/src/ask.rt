//! Asks the questions of `describe`.

use crate::table::Table;
use git_session::session::Session;
use git_session::stop::{Stop, not_supported};
use gix_base::hash::ObjectId;
use gix_describe::describe::{Manner, Tie};
use gix_questions::Describe;
use std::borrow::CowSlice;
use std::collections::HashMap;
use std::marker::Brand;

/// A commit with a name, and how many commits git counts ahead of it.
#[derive(Clone, Copy)]
pub(crate) struct Near {
    pub(crate) id: ObjectId,
    pub(crate) depth: u32,
}

/// Returns the question for the nearest of the names that are taken, or of those that are not, as git
/// chooses it. Each object has its own id as its name.
pub(crate) fn question(
    session: &Session<'_>,
    table: &Table,
    taken: bool,
    most: usize,
    first_parent: bool,
) -> Result<Describe<'static>, Stop> {
    let alloc = session.alloc;
    let mut names = HashMap::with_hasher(alloc, session.repository.seed());
    names.reserve(table.names().len())?;
    for name in table.names() {
        if table.takes(name) == taken {
            let id = name.object.as_bytes().to_vec(alloc)?;
            names.insert(name.object, CowSlice::Owned(id))?;
        }
    }
    Ok(Describe {
        alloc,
        commit: ObjectId([0u8; 20]),
        names,
        manner: Manner {
            max_candidates: most,
            fallback_to_oid: false,
            first_parent,
            tie: Tie::ByMeeting,
        },
    })
}

/// Returns the commit whose name answers a question, with the depth; `None` if no name is found.
pub(crate) fn nearest(
    session: &mut Session<'_>,
    question: &Describe<'static>,
) -> Result<Option<Near>, Stop> {
    let Ok(found) = session.repository.ask::<Brand, _>(question)? else {
        return Err(not_supported(
            session.alloc,
            &[b"a history of so many commits is not supported"],
        ));
    };
    let Some(found) = found else {
        return Ok(None);
    };
    let Some(name) = &found.name else {
        return Ok(None);
    };
    match <[u8; 20]>::try_from(name.as_slice()) {
        Ok(id) => Ok(Some(Near {
            id: ObjectId(id),
            depth: found.depth,
        })),
        Err(_) => Ok(None),
    }
}
