//! Has the names of objects: the references that lead to them.

use crate::asked::Asked;
use crate::patterns::counts;
use git_session::session::Session;
use git_session::stop::{Stop, failed};
use gix_base::hash::ObjectId;
use gix_base::object::Kind;
use gix_odb::Tag;
use gix_ref::{Listed, Listing};
use gix_repository::{Refusal, Unsupported};
use gix_revwalk::Seed;
use std::alloc::AllocError;
use std::collections::{BTreeSet, HashMap};
use std::mem::replace;

/// How many tags are followed from one reference. No repository has so many.
const MOST_TAGS: u32 = 1 << 20;

/// Says how good a name is. A greater one is better.
#[derive(Clone, Copy, PartialEq, Eq, PartialOrd, Ord)]
pub(crate) enum Priority {
    /// It is a reference that is no tag.
    Other,
    /// It is a tag, and leads to the object itself.
    Lightweight,
    /// It leads to an annotated tag.
    Annotated,
}

/// Is the name of an object.
#[derive(Clone, Copy)]
pub(crate) struct Name {
    /// The object: that at the end of all tags.
    pub(crate) object: ObjectId,
    /// What the reference says itself: the annotated tag, if it leads to one.
    pub(crate) id: ObjectId,
    pub(crate) priority: Priority,
    /// The place of the reference in the list.
    reference: usize,
    /// The date of the annotated tag, if it was read.
    date: Option<u64>,
    /// Whether it was compared with the name that the annotated tag says.
    is_checked: bool,
}

/// Has the names of objects, one for each.
#[derive(Drop)]
pub(crate) struct Table {
    listing: Listing,
    names: Vec<Name>,
    places: HashMap<ObjectId, usize, Seed>,
    /// How much of a reference's full name is not printed.
    cut: usize,
    /// The least priority of names that are taken.
    least: Priority,
    /// Whether a reference counts that leads nowhere. No object has its name.
    has_broken: bool,
}

/// Is where a reference leads.
#[derive(Clone, Copy)]
struct Peeled {
    object: ObjectId,
    is_annotated: bool,
    date: Option<u64>,
}

impl Peeled {
    /// Leads to the object itself.
    fn itself(id: ObjectId) -> Peeled {
        Peeled {
            object: id,
            is_annotated: false,
            date: None,
        }
    }
}

/// Is what an annotated tag says.
#[derive(Clone, Copy)]
struct Annotation {
    target: ObjectId,
    kind: Kind,
    date: u64,
}

/// Returns what an object says as an annotated tag; `None` if it is another kind of object, or if it
/// is missing.
fn said(session: &mut Session<'_>, id: ObjectId) -> Result<Option<Annotation>, Stop> {
    match session.repository.tag(id) {
        Ok(tag) => Ok(Some(Annotation {
            target: tag.target,
            kind: tag.kind,
            date: tag.date,
        })),
        Err(Refusal::Object(gix_odb::Error::NotATag(..))) => Ok(None),
        Err(Refusal::Object(gix_odb::Error::Missing(_))) if !session.repository.is_partial() => {
            Ok(None)
        }
        Err(refusal) => Err(Stop::from(refusal)),
    }
}

/// Returns the object to which a tag leads through all others; `None` if one of them is missing.
fn end_of(session: &mut Session<'_>, tag: Annotation) -> Result<Option<ObjectId>, Stop> {
    let mut tag = tag;
    for _ in 0..MOST_TAGS {
        if tag.kind != Kind::Tag {
            return Ok(Some(tag.target));
        }
        match said(session, tag.target)? {
            Some(next) => tag = next,
            None => return Ok(None),
        }
    }
    Err(Stop::from(Refusal::NotSupported(Unsupported::Tags)))
}

/// Returns where an object leads that may be a tag.
fn followed(session: &mut Session<'_>, id: ObjectId) -> Result<Peeled, Stop> {
    let Some(tag) = said(session, id)? else {
        return Ok(Peeled::itself(id));
    };
    match end_of(session, tag)? {
        Some(object) => Ok(Peeled {
            object,
            is_annotated: true,
            date: Some(tag.date),
        }),
        None => Ok(Peeled::itself(id)),
    }
}

/// Returns where a reference leads. `packed-refs` may say it: to the id itself if that is no tag.
/// What is no tag is read once: `ends` has all that was read.
///
/// # Errors
///
/// - `Refused` if the id is that of a tag all the same. git then follows it in some questions.
/// - Those of [`said`].
fn leads_to(
    session: &mut Session<'_>,
    id: ObjectId,
    told: Option<ObjectId>,
    ends: &mut BTreeSet<ObjectId>,
) -> Result<Peeled, Stop> {
    if let Some(object) = told.filter(|object| *object != id) {
        return Ok(Peeled {
            object,
            is_annotated: true,
            date: None,
        });
    }
    if ends.contains(&id) {
        return Ok(Peeled::itself(id));
    }
    let found = followed(session, id)?;
    if !found.is_annotated {
        ends.insert(id)?;
    } else if told.is_some() {
        return Err(failed(
            session.alloc,
            &[b"'packed-refs' says of a tag that it is none"],
        ));
    }
    Ok(found)
}

/// Says, as git does, that an annotated tag is not read.
fn say_unread(session: &mut Session<'_>, id: ObjectId) -> Result<(), AllocError> {
    let mut digits = [0u8; 40];
    let written = id.write_hex(40, &mut digits);
    session.say(&[b"error: Could not read ", &digits[..written]])
}

/// Returns an annotated tag; `None` if it is missing, which git says.
///
/// # Errors
///
/// - `Refused` if the object is no tag, although `packed-refs` says where it leads.
/// - Those of [`said`].
pub(crate) fn tag_of(session: &mut Session<'_>, id: ObjectId) -> Result<Option<Tag>, Stop> {
    match session.repository.tag(id) {
        Ok(tag) => Ok(Some(tag)),
        Err(Refusal::Object(gix_odb::Error::Missing(_))) if !session.repository.is_partial() => {
            say_unread(session, id)?;
            Ok(None)
        }
        Err(refusal) => Err(Stop::from(refusal)),
    }
}

/// Returns the date of a name's annotated tag; `None` if the tag is missing, which git says.
fn date_of(session: &mut Session<'_>, name: &Name) -> Result<Option<u64>, Stop> {
    if name.date.is_some() {
        return Ok(name.date);
    }
    match tag_of(session, name.id)? {
        Some(tag) => Ok(Some(tag.date)),
        None => Ok(None),
    }
}

/// Returns which of two names of an object git takes: the old one, or the new one.
///
/// It is the one of the greater priority. Of two annotated tags it is the one of the later date.
fn better(session: &mut Session<'_>, old: &Name, new: &Name) -> Result<Name, Stop> {
    if old.priority < new.priority {
        return Ok(*new);
    }
    if old.priority != Priority::Annotated || new.priority != Priority::Annotated {
        return Ok(*old);
    }
    let Some(old_date) = date_of(session, old)? else {
        return Ok(*new);
    };
    match date_of(session, new)? {
        Some(date) if old_date < date => Ok(Name {
            date: Some(date),
            ..*new
        }),
        _ => Ok(Name {
            date: Some(old_date),
            ..*old
        }),
    }
}

/// Returns the priority of the name that a reference gives.
fn priority_of(reference: &[u8], is_annotated: bool) -> Priority {
    if is_annotated {
        Priority::Annotated
    } else if reference.starts_with(b"refs/tags/") {
        Priority::Lightweight
    } else {
        Priority::Other
    }
}

/// Returns the name that a reference gives.
fn name_by(
    session: &mut Session<'_>,
    listed: &Listed,
    reference: usize,
    ends: &mut BTreeSet<ObjectId>,
) -> Result<Name, Stop> {
    let peeled = leads_to(session, listed.id, listed.peeled, ends)?;
    Ok(Name {
        object: peeled.object,
        id: listed.id,
        priority: priority_of(&listed.name, peeled.is_annotated),
        reference,
        date: peeled.date,
        is_checked: false,
    })
}

impl Table {
    /// Adds a name, unless the object has a better one.
    fn add(&mut self, session: &mut Session<'_>, name: &Name) -> Result<(), Stop> {
        match self.places.get(&name.object).copied() {
            Some(place) => self.compare(session, place, name),
            None => {
                self.places.insert(name.object, self.names.len())?;
                self.names.push(*name)?;
                Ok(())
            }
        }
    }

    /// Puts a name in the place of another one of the same object, if it is better.
    fn compare(
        &mut self,
        session: &mut Session<'_>,
        place: usize,
        name: &Name,
    ) -> Result<(), Stop> {
        let Some(old) = self.names.get(place).copied() else {
            return Ok(());
        };
        let best = better(session, &old, name)?;
        if let Some(old) = self.names.get_mut(place) {
            *old = best;
        }
        Ok(())
    }

    /// Adds the names of all references in the list that count.
    fn add_all(&mut self, session: &mut Session<'_>, asked: &Asked<'_>) -> Result<(), Stop> {
        let mut ends = BTreeSet::new(session.alloc);
        for reference in 0..self.listing.references.len() {
            let Some(listed) = self.listing.references.get(reference) else {
                break;
            };
            if counts(session.alloc, asked, &listed.name)? {
                let name = name_by(session, listed, reference, &mut ends)?;
                self.add(session, &name)?;
            }
        }
        Ok(())
    }

    /// Notes whether a reference counts that leads nowhere.
    fn note_broken(&mut self, session: &Session<'_>, asked: &Asked<'_>) -> Result<(), Stop> {
        for skipped in self.listing.skipped.iter() {
            if counts(session.alloc, asked, &skipped.name)? {
                self.has_broken = true;
            }
        }
        Ok(())
    }

    /// Collects the names of objects.
    pub(crate) fn collect(session: &mut Session<'_>, asked: &Asked<'_>) -> Result<Table, Stop> {
        let (front, cut) = if asked.all {
            (b"refs/".as_slice(), 5)
        } else {
            (b"refs/tags/".as_slice(), 10)
        };
        let least = if asked.all || asked.tags {
            Priority::Other
        } else {
            Priority::Annotated
        };
        let listing = session.repository.list_references(front)?;
        let mut table = Table {
            listing,
            names: Vec::new(session.alloc),
            places: HashMap::with_hasher(session.alloc, session.repository.seed()),
            cut,
            least,
            has_broken: false,
        };
        table.add_all(session, asked)?;
        table.note_broken(session, asked)?;
        Ok(table)
    }

    /// Returns whether no reference counts.
    pub(crate) fn is_empty(&self) -> bool {
        self.names.is_empty() && !self.has_broken
    }

    /// Returns the names.
    pub(crate) fn names(&self) -> &[Name] {
        &self.names
    }

    /// Returns whether a name is taken.
    pub(crate) fn takes(&self, name: &Name) -> bool {
        name.priority >= self.least
    }

    /// Returns the name of an object, if it is taken.
    pub(crate) fn name_of(&self, object: ObjectId) -> Option<Name> {
        let place = self.places.get(&object)?;
        let name = self.names.get(*place)?;
        if self.takes(name) { Some(*name) } else { None }
    }

    /// Returns whether any name is taken.
    pub(crate) fn has_taken(&self) -> bool {
        self.names.iter().any(|name| self.takes(name))
    }

    /// Returns the reference of a name as it is printed.
    pub(crate) fn path(&self, name: &Name) -> &[u8] {
        match self.listing.references.get(name.reference) {
            Some(listed) => listed.name.get(self.cut..).unwrap_or(&[]),
            None => &[],
        }
    }

    /// Notes that a name was compared with the one that the annotated tag says. Returns whether it
    /// was so before.
    pub(crate) fn check(&mut self, object: ObjectId) -> bool {
        let Some(place) = self.places.get(&object).copied() else {
            return true;
        };
        match self.names.get_mut(place) {
            Some(name) => replace(&mut name.is_checked, true),
            None => true,
        }
    }
}
