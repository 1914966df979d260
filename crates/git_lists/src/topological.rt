//! Sorts a list of commits so that no commit comes before all of its children (git-rev-list,
//! "Commit Ordering").

use crate::order::Come;
use crate::wishes::Order;
use git_session::session::Session;
use git_session::stop::Stop;
use gix_base::hash::ObjectId;
use gix_order::{Commits, in_order};
use std::alloc::{AllocError, Global};
use std::collections::HashMap;

/// The commits of a list, by their places.
#[derive(Drop)]
struct Links {
    commits: Commits,
    /// Tells whether a commit has a parent in the list that is not its first one.
    has_sides: bool,
}

/// Returns the place of each commit of a list.
fn places(
    session: &Session<'_>,
    list: &[Come],
) -> Result<HashMap<ObjectId, usize, gix_revwalk::Seed, Global>, AllocError> {
    let mut places = HashMap::with_hasher(session.alloc, session.repository.seed());
    for (place, come) in list.iter().enumerate() {
        places.insert(come.id, place)?;
    }
    Ok(places)
}

/// Adds the parents of a commit that have a place.
fn add_links(
    links: &mut Links,
    places: &HashMap<ObjectId, usize, gix_revwalk::Seed, Global>,
    parents: &[ObjectId],
) -> Result<(), AllocError> {
    for (number, parent) in parents.iter().enumerate() {
        if let Some(place) = places.get(parent).copied() {
            links.commits.parents.push(place)?;
            links.has_sides = links.has_sides || number > 0;
        }
    }
    links.commits.ends.push(links.commits.parents.len())?;
    Ok(())
}

/// Returns the links of a list.
fn links_of(session: &mut Session<'_>, list: &[Come]) -> Result<Links, Stop> {
    let places = places(session, list)?;
    let mut links = Links {
        commits: Commits {
            parents: Vec::new(session.alloc),
            ends: Vec::new(session.alloc),
            times: Vec::new(session.alloc),
        },
        has_sides: false,
    };
    for come in list {
        let entry = session.repository.entry(come.id)?;
        links.commits.times.push(entry.time)?;
        add_links(&mut links, &places, &entry.parents)?;
    }
    Ok(links)
}

/// Returns the commits of a list in an order.
fn sorted_list(
    alloc: Global,
    list: &[Come],
    commits: &Commits,
    order: Order,
) -> Result<Vec<Come>, AllocError> {
    let order = match order {
        Order::Dated => gix_order::Order::Dated,
        _ => gix_order::Order::Topological,
    };
    let places = in_order(alloc, commits, order)?;
    places
        .iter()
        .filter_map(|place| list.get(*place).copied())
        .collect(alloc)
}

/// A list in its order.
#[derive(Drop)]
pub(crate) struct Sorted {
    pub(crate) list: Vec<Come>,
    /// Tells whether a commit has a parent in the list that is not its first one.
    pub(crate) has_sides: bool,
}

/// Sorts a list of commits.
///
/// # Errors
///
/// `Refused` if a commit is not read.
pub(crate) fn sort(session: &mut Session<'_>, list: &[Come], order: Order) -> Result<Sorted, Stop> {
    let links = links_of(session, list)?;
    Ok(Sorted {
        list: sorted_list(session.alloc, list, &links.commits, order)?,
        has_sides: links.has_sides,
    })
}
