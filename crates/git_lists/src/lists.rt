//! Lists the commits that are printed.

use crate::doubt::refuse_doubt;
use crate::ends::Ends;
use crate::order::{Come, Ids, Walk, all_of, set_of};
use crate::topological::sort;
use crate::wishes::{Order, Wishes};
use git_session::session::Session;
use git_session::stop::{Stop, failed, not_supported};
use gix_base::hash::ObjectId;
use gix_questions::ReachableNewestFirst;
use std::alloc::{AllocError, Global};
use std::marker::Brand;

/// Takes commits of a list: it leaves some out at the beginning, and then takes some.
#[derive(Drop)]
struct Taken {
    wishes: Wishes,
    skip: usize,
    ids: Vec<ObjectId>,
}

impl Taken {
    /// Takes nothing so far.
    fn new(alloc: Global, wishes: &Wishes) -> Taken {
        Taken {
            wishes: *wishes,
            skip: wishes.skip,
            ids: Vec::new(alloc),
        }
    }

    /// Returns whether no more commits are wanted.
    fn is_full(&self) -> bool {
        match self.wishes.most {
            Some(most) => self.ids.len() >= most,
            None => false,
        }
    }

    /// Takes a commit, if it is wanted.
    fn offer(&mut self, come: Come) -> Result<(), Stop> {
        if !self.wishes.wants(come) {
            return Ok(());
        }
        if self.skip > 0 {
            self.skip = self.skip.saturating_sub(1);
            return Ok(());
        }
        self.ids.push(come.id)?;
        Ok(())
    }
}

/// Returns the commits that some reach and others do not. The answer is that of a proved question.
pub(crate) fn reachable(
    session: &mut Session<'_>,
    include: &[ObjectId],
    exclude: &[ObjectId],
) -> Result<Vec<ObjectId>, Stop> {
    if include.is_empty() {
        return Ok(Vec::new(session.alloc));
    }
    let question = ReachableNewestFirst {
        alloc: session.alloc,
        // All that is included is read at once if nothing is excluded.
        early: !exclude.is_empty() && !session.repository.is_changed(),
        include,
        exclude,
    };
    Ok(session.repository.ask::<Brand, _>(&question)?)
}

/// Takes commits of a walk, and lets no more of them come than are wanted.
fn take_walk(
    session: &mut Session<'_>,
    wishes: &Wishes,
    walk: &mut Walk,
) -> Result<Vec<ObjectId>, Stop> {
    let mut taken = Taken::new(session.alloc, wishes);
    for _ in 0..usize::MAX {
        if taken.is_full() {
            break;
        }
        let Some(come) = walk.next(session)? else {
            break;
        };
        taken.offer(come)?;
    }
    Ok(taken.ids)
}

/// Takes commits of a list.
fn take_list(alloc: Global, wishes: &Wishes, list: &[Come]) -> Result<Vec<ObjectId>, Stop> {
    let mut taken = Taken::new(alloc, wishes);
    for come in list {
        if taken.is_full() {
            break;
        }
        taken.offer(*come)?;
    }
    Ok(taken.ids)
}

/// Returns the walk through all first parents, as far as others do not reach them.
fn first_parents(session: &mut Session<'_>, begin: &[ObjectId], ends: &Ends) -> Result<Walk, Stop> {
    let within = if ends.excluded.is_empty() {
        None
    } else {
        let ids = reachable(session, begin, &ends.excluded)?;
        Some(set_of(session, &ids)?)
    };
    Walk::new(session, within, true, begin)
}

/// Returns the commits of a proved set in git's order.
///
/// # Errors
///
/// `Failure` if the walk does not meet each commit of the set: then generation numbers rise
/// somewhere, and the set may be too great.
fn whole_list(session: &mut Session<'_>, ends: &Ends) -> Result<Vec<Come>, Stop> {
    let ids = reachable(session, &ends.included, &ends.excluded)?;
    let within = set_of(session, &ids)?;
    let mut walk = Walk::new(session, Some(within), false, &ends.included)?;
    let list = all_of(session, &mut walk)?;
    if list.len() == ids.len() {
        Ok(list)
    } else {
        Err(failed(
            session.alloc,
            &[b"the commit-graph is damaged: generation numbers rise"],
        ))
    }
}

/// Sorts a list so that no commit comes before all of its children.
///
/// # Errors
///
/// `NotSupported` if only first parents are followed, and the order hangs on others: with a commit-graph
/// git has another one than without.
fn sorted_list(
    session: &mut Session<'_>,
    wishes: &Wishes,
    list: &[Come],
    begins: usize,
) -> Result<Vec<Come>, Stop> {
    let sorted = sort(session, list, wishes.order)?;
    if wishes.is_first_parent && begins > 1 && sorted.has_sides {
        return Err(not_supported(
            session.alloc,
            &[b"--first-parent of several revisions is not supported in this order"],
        ));
    }
    Ok(sorted.list)
}

/// Returns the commits on the lines of first parents, in git's order.
///
/// # Errors
///
/// `NotSupported` if git may list more of them.
fn first_parent_list(session: &mut Session<'_>, ends: &Ends) -> Result<Vec<Come>, Stop> {
    let mut walk = first_parents(session, &ends.included, ends)?;
    let list = all_of(session, &mut walk)?;
    refuse_doubt(session, &list, ends)?;
    Ok(list)
}

/// Ends if git may leave out commits that are not before the date of `--since`: a commit before it
/// has one of them as a parent.
fn refuse_skew(session: &mut Session<'_>, wishes: &Wishes, list: &[Come]) -> Result<(), Stop> {
    let mut new = set_of(session, &[])?;
    for come in list {
        if !wishes.is_old(come.time) {
            new.insert(come.id, ())?;
        }
    }
    for come in list {
        let entry = session.repository.entry(come.id)?;
        if wishes.is_old(come.time) && entry.parents.iter().any(|id| new.contains_key(id)) {
            return Err(not_supported(
                session.alloc,
                &[b"--since is not supported here if a clock was wrong"],
            ));
        }
    }
    Ok(())
}

/// Returns the commits of a list that are neither too old nor too new.
fn between(alloc: Global, wishes: &Wishes, list: &[Come]) -> Result<Vec<Come>, AllocError> {
    let mut kept = Vec::new(alloc);
    for come in list {
        if !wishes.is_old(come.time) && !wishes.is_new(come.time) {
            kept.push(*come)?;
        }
    }
    Ok(kept)
}

/// Sorts the commits of a list that are neither too old nor too new.
///
/// # Errors
///
/// `NotSupported` if the order depends on the others: with a commit-graph git may leave them out last,
/// and otherwise first.
fn sorted_between(
    session: &mut Session<'_>,
    wishes: &Wishes,
    list: &[Come],
    begins: usize,
) -> Result<Vec<Come>, Stop> {
    let sorted = sorted_list(session, wishes, list, begins)?;
    if wishes.since.is_none() && wishes.until.is_none() {
        return Ok(sorted);
    }
    let last = between(session.alloc, wishes, &sorted)?;
    let kept = between(session.alloc, wishes, list)?;
    let first = sorted_list(session, wishes, &kept, begins)?;
    if first.as_slice() == last.as_slice() {
        return Ok(last);
    }
    Err(not_supported(
        session.alloc,
        &[b"a limit by date is not supported in this order"],
    ))
}

/// Keeps the commits of a list that reach one of others by commits of the list
/// (git-rev-list, "--ancestry-path").
fn on_paths(
    session: &mut Session<'_>,
    list: &[Come],
    others: &[ObjectId],
) -> Result<Vec<Come>, Stop> {
    let mut reaching = set_of(session, others)?;
    for _ in 0..usize::MAX {
        let before = reaching.len();
        for come in list.iter().rev() {
            let entry = session.repository.entry(come.id)?;
            if entry.parents.iter().any(|id| reaching.contains_key(id)) {
                reaching.insert(come.id, ())?;
            }
        }
        if reaching.len() == before {
            break;
        }
    }
    let mut kept = Vec::new(session.alloc);
    for come in list {
        if reaching.contains_key(&come.id) {
            kept.push(*come)?;
        }
    }
    Ok(kept)
}

/// Lists commits for which the whole list is made first.
fn listed_whole(
    session: &mut Session<'_>,
    wishes: &Wishes,
    ends: &Ends,
) -> Result<Vec<ObjectId>, Stop> {
    let list = if wishes.is_first_parent {
        first_parent_list(session, ends)?
    } else {
        whole_list(session, ends)?
    };
    if wishes.since.is_some() {
        refuse_skew(session, wishes, &list)?;
    }
    let list = match wishes.order {
        Order::Met => list,
        _ => sorted_between(session, wishes, &list, ends.included.len())?,
    };
    if !wishes.is_on_path {
        return take_list(session.alloc, wishes, &list);
    }
    let list = on_paths(session, &list, &ends.excluded)?;
    take_list(session.alloc, wishes, &list)
}

/// Lists revisions without what they reach: the newest first, and those with one date in the order
/// in which they were named, or all in this order.
fn listed_alone(
    session: &mut Session<'_>,
    wishes: &Wishes,
    ends: &Ends,
) -> Result<Vec<ObjectId>, Stop> {
    let mut met = set_of(session, &[])?;
    let mut list = Vec::new(session.alloc);
    for id in ends.included.iter() {
        if met.contains_key(id) {
            continue;
        }
        met.insert(*id, ())?;
        let entry = session.repository.entry(*id)?;
        list.push(Come {
            id: *id,
            time: entry.time,
            parents: entry.parents.len(),
        })?;
    }
    if wishes.is_sorted {
        list.sort_by(|a, b| b.time.cmp(&a.time))?;
    }
    take_list(session.alloc, wishes, &list)
}

/// Lists the commits that are printed, in git's order.
///
/// The set is that of a proved question, unless only first parents are followed, or only some
/// commits are wanted of all that revisions reach. In the last case no more commits are read than
/// git reads, and each is one at which the list begins, or a parent of one before.
///
/// # Errors
///
/// `Refused` if a commit is not read that is needed.
pub(crate) fn listed(
    session: &mut Session<'_>,
    wishes: &Wishes,
    ends: &Ends,
) -> Result<Vec<ObjectId>, Stop> {
    if !wishes.is_walked {
        return listed_alone(session, wishes, ends);
    }
    let is_short = wishes.most.is_some() || wishes.since.is_some();
    if !is_short || !ends.excluded.is_empty() || wishes.order != Order::Met {
        return listed_whole(session, wishes, ends);
    }
    let walk = Walk::new(session, None, wishes.is_first_parent, &ends.included)?;
    let mut walk = walk.limited(wishes.since);
    take_walk(session, wishes, &mut walk)
}

/// Returns the commits of one side: what some of the ends reach, and others do not.
fn side(
    session: &mut Session<'_>,
    wishes: &Wishes,
    ends: &Ends,
    begin: &[ObjectId],
) -> Result<Vec<ObjectId>, Stop> {
    if !wishes.is_first_parent {
        return reachable(session, begin, &ends.excluded);
    }
    let mut walk = first_parents(session, begin, ends)?;
    let mut ids = Vec::new(session.alloc);
    for come in all_of(session, &mut walk)?.iter() {
        ids.push(come.id)?;
    }
    Ok(ids)
}

/// Returns the end for commits that are on both sides.
pub(crate) fn on_both_sides(alloc: Global) -> Stop {
    not_supported(
        alloc,
        &[b"--left-right is not supported for commits that are on both sides"],
    )
}

/// Returns the commits of the left side.
///
/// # Errors
///
/// `NotSupported` if a commit is on both sides, as it may be for several ranges: which side git takes
/// then hangs on the order in which it meets commits.
pub(crate) fn left_side(
    session: &mut Session<'_>,
    wishes: &Wishes,
    ends: &Ends,
) -> Result<Ids, Stop> {
    let lefts = side(session, wishes, ends, &ends.lefts)?;
    let left = set_of(session, &lefts)?;
    if ends.is_pair || lefts.is_empty() {
        return Ok(left);
    }
    let rights = side(session, wishes, ends, &ends.rights)?;
    if rights.iter().any(|id| left.contains_key(id)) {
        return Err(on_both_sides(session.alloc));
    }
    Ok(left)
}
