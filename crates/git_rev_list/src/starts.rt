//! The objects from which a list begins, and those that end it.

use git_lists::Ends;
use git_session::session::Session;
use git_session::stop::{Stop, fatal, missing, not_supported};
use gix_base::hash::ObjectId;
use gix_base::object::Kind;
use gix_discover::wildmatch::{Rules, is_match};
use gix_ref::{Listing, Skipped, Why};
use gix_repository::Refusal;
use std::alloc::{AllocError, Global};
use std::cmp::Ordering;

/// An object from which a list begins, or one that ends it.
#[derive(Clone, Copy)]
pub(crate) struct Start {
    /// The object as it was named: a tag is not peeled.
    pub(crate) id: ObjectId,
    /// Tells whether what it reaches is left out.
    pub(crate) is_excluded: bool,
    /// Tells whether it is the left end of `A...B`.
    pub(crate) is_left: bool,
}

/// All of them, in the order in which they were named.
#[derive(Drop)]
pub(crate) struct Starts {
    alloc: Global,
    starts: Vec<Start>,
    /// The patterns of references that the next option leaves out.
    hidden: Vec<Vec<u8>>,
    /// Tells whether they are those of one `A...B` alone.
    is_pair: bool,
}

/// Returns whether there is an object.
///
/// # Errors
///
/// `NotSupported` if it is not read, or if a remote has promised it.
pub(crate) fn is_there(session: &mut Session<'_>, id: ObjectId) -> Result<bool, Stop> {
    match session.repository.kind(id) {
        Ok(_) => Ok(true),
        Err(Refusal::Object(gix_odb::Error::Missing(_))) if !session.repository.is_partial() => {
            Ok(false)
        }
        Err(refusal) => Err(Stop::from(refusal)),
    }
}

/// Returns git's end for an object that is not there.
pub(crate) fn bad_object(alloc: Global, name: &[u8]) -> Stop {
    fatal(alloc, &[b"bad object ", name])
}

/// Returns the pattern that names match: that of an option behind the front of the names, or all
/// below it if nothing of it is special.
fn whole_pattern(alloc: Global, front: &str, pattern: &[u8]) -> Result<Vec<u8>, AllocError> {
    let mut whole = Vec::new(alloc);
    whole.extend_from_slice(front.as_bytes())?;
    whole.extend_from_slice(pattern)?;
    if pattern.iter().any(|b| matches!(*b, b'?' | b'*' | b'[')) {
        return Ok(whole);
    }
    if !whole.ends_with(b"/") {
        whole.push(b'/')?;
    }
    whole.push(b'*')?;
    Ok(whole)
}

/// Returns whether a name matches a pattern, if there is one.
fn matches_pattern(alloc: Global, pattern: Option<&[u8]>, name: &[u8]) -> Result<bool, AllocError> {
    let Some(pattern) = pattern else {
        return Ok(true);
    };
    let rules = Rules {
        ignores_case: false,
        is_path: false,
    };
    is_match(alloc, pattern, name, rules)
}

/// Returns the name of the first reference that is broken and matches a pattern.
fn first_broken<'l>(
    alloc: Global,
    skipped: &'l [Skipped],
    pattern: Option<&[u8]>,
) -> Result<Option<&'l [u8]>, AllocError> {
    for one in skipped {
        if one.why == Why::Broken && matches_pattern(alloc, pattern, &one.name)? {
            return Ok(Some(one.name.as_slice()));
        }
    }
    Ok(None)
}

/// Returns whether a name is there and sorts before another one.
fn comes_before(name: Option<&[u8]>, other: &[u8]) -> bool {
    match name {
        Some(name) => name.cmp(other) == Ordering::Less,
        None => false,
    }
}

/// Returns the name that git prints if a list is to begin from a reference. Only `--all` has full
/// names.
fn printed_name<'n>(front: &str, name: &'n [u8]) -> &'n [u8] {
    if front.as_bytes() == b"refs/".as_slice() {
        return name;
    }
    name.strip_prefix(front.as_bytes()).unwrap_or(name)
}

/// Returns the commit to which an object leads through tags; `None` for another kind of object, or if
/// a tag that is left out leads nowhere.
fn peeled(session: &mut Session<'_>, start: Start) -> Result<Option<ObjectId>, Stop> {
    match session.repository.peeled(start.id) {
        Ok((id, Kind::Commit)) => Ok(Some(id)),
        Ok(_) => Ok(None),
        Err(Refusal::Object(gix_odb::Error::Missing(lost)))
            if lost != start.id && !session.repository.is_partial() => {
            if start.is_excluded {
                return Ok(None);
            }
            let mut digits = [0u8; 40];
            let written = lost.write_hex(40, &mut digits);
            Err(bad_object(session.alloc, &digits[..written]))
        }
        Err(refusal) => Err(Stop::from(refusal)),
    }
}

/// Adds the commit to which an object leads.
fn add_commit(ends: &mut Ends, start: Start, commit: ObjectId) -> Result<(), AllocError> {
    if start.is_excluded {
        ends.excluded.push(commit)?;
        return Ok(());
    }
    ends.included.push(commit)?;
    if start.is_left {
        ends.lefts.push(commit)?;
    } else {
        ends.rights.push(commit)?;
    }
    Ok(())
}

impl Starts {
    /// Begins nowhere.
    pub(crate) fn new(alloc: Global) -> Starts {
        Starts {
            alloc,
            starts: Vec::new(alloc),
            hidden: Vec::new(alloc),
            is_pair: false,
        }
    }

    /// Lets the next option that adds references leave out those that match a pattern.
    pub(crate) fn hide(&mut self, pattern: &[u8]) -> Result<(), AllocError> {
        self.hidden.push(pattern.to_vec(self.alloc)?)?;
        Ok(())
    }

    /// Tells whether a reference is left out. Its name is the one that git prints.
    fn is_hidden(&self, name: &[u8]) -> Result<bool, AllocError> {
        for pattern in self.hidden.iter() {
            if matches_pattern(self.alloc, Some(pattern), name)? {
                return Ok(true);
            }
        }
        Ok(false)
    }

    /// Adds an object.
    pub(crate) fn add(&mut self, id: ObjectId, is_excluded: bool) -> Result<(), AllocError> {
        self.is_pair = false;
        self.starts.push(Start {
            id,
            is_excluded,
            is_left: false,
        })?;
        Ok(())
    }

    /// Adds the ends of `A...B`, and their merge bases.
    pub(crate) fn add_pair(
        &mut self,
        left: ObjectId,
        right: ObjectId,
        bases: &[ObjectId],
        is_turned: bool,
    ) -> Result<(), AllocError> {
        let is_pair = self.starts.is_empty() && !is_turned;
        for base in bases {
            self.add(*base, !is_turned)?;
        }
        self.starts.push(Start {
            id: left,
            is_excluded: is_turned,
            is_left: true,
        })?;
        self.add(right, is_turned)?;
        self.is_pair = is_pair;
        Ok(())
    }

    /// Adds what a reference stands for.
    ///
    /// # Errors
    ///
    /// `Fatal`, with the name that git prints, if the object is not there.
    fn add_reference(
        &mut self,
        session: &mut Session<'_>,
        printed: &[u8],
        id: ObjectId,
        is_excluded: bool,
    ) -> Result<(), Stop> {
        if self.is_hidden(printed)? {
            return Ok(());
        }
        if !is_there(session, id)? {
            return Err(bad_object(self.alloc, printed));
        }
        self.add(id, is_excluded)?;
        Ok(())
    }

    /// Adds what the references stand for whose names begin with a text, and match a pattern behind
    /// it if there is one, unless they are hidden. No reference is hidden then.
    ///
    /// # Errors
    ///
    /// `Fatal`, as in git, for the first of them that is broken or whose object is not there.
    pub(crate) fn add_references(
        &mut self,
        session: &mut Session<'_>,
        front: &str,
        pattern: Option<&[u8]>,
        is_excluded: bool,
    ) -> Result<(), Stop> {
        self.add_shown(session, front, pattern, is_excluded)?;
        self.hidden.clear();
        Ok(())
    }

    /// Adds what the references stand for, unless they are hidden.
    fn add_shown(
        &mut self,
        session: &mut Session<'_>,
        front: &str,
        pattern: Option<&[u8]>,
        is_excluded: bool,
    ) -> Result<(), Stop> {
        self.is_pair = false;
        let listing = session.repository.list_references(front.as_bytes())?;
        match pattern {
            Some(pattern) => {
                let whole = whole_pattern(self.alloc, front, pattern)?;
                self.add_listed(session, front, &listing, Some(&whole), is_excluded)
            }
            None => self.add_listed(session, front, &listing, None, is_excluded),
        }
    }

    /// Adds what those references of a list stand for that match a pattern, up to the first broken
    /// one.
    fn add_listed(
        &mut self,
        session: &mut Session<'_>,
        front: &str,
        listing: &Listing,
        whole: Option<&[u8]>,
        is_excluded: bool,
    ) -> Result<(), Stop> {
        let broken = first_broken(self.alloc, &listing.skipped, whole)?;
        for listed in listing.references.iter() {
            if comes_before(broken, &listed.name) {
                break;
            }
            if matches_pattern(self.alloc, whole, &listed.name)? {
                let printed = printed_name(front, &listed.name);
                self.add_reference(session, printed, listed.id, is_excluded)?;
            }
        }
        match broken {
            Some(_) if !self.hidden.is_empty() => Err(not_supported(
                self.alloc,
                &[b"--exclude is not supported if a reference is broken"],
            )),
            Some(name) => Err(bad_object(self.alloc, printed_name(front, name))),
            None => Ok(()),
        }
    }

    /// Adds what all references stand for, and what the HEAD of each work tree does.
    pub(crate) fn add_all(
        &mut self,
        session: &mut Session<'_>,
        is_excluded: bool,
    ) -> Result<(), Stop> {
        let has_hidden = !self.hidden.is_empty();
        if self.is_hidden(b"HEAD")? {
            return Err(not_supported(self.alloc, &[b"--exclude of HEAD is not supported"]));
        }
        self.add_references(session, "refs/", None, is_excluded)?;
        let heads = session.repository.heads()?;
        if has_hidden && heads.len() > 1 {
            // git names the HEAD of another work tree by the work tree.
            return Err(not_supported(
                self.alloc,
                &[b"--exclude is not supported with --all if there are several work trees"],
            ));
        }
        for id in heads.iter() {
            if !is_there(session, *id)? {
                return Err(missing(*id));
            }
            self.add(*id, is_excluded)?;
        }
        Ok(())
    }

    /// Tells whether something is left out.
    pub(crate) fn has_excluded(&self) -> bool {
        self.starts.iter().any(|start| start.is_excluded)
    }

    /// Returns the commits to which the objects lead. Trees and files lead to none.
    ///
    /// # Errors
    ///
    /// `Fatal` if a tag leads nowhere.
    pub(crate) fn ends(&self, session: &mut Session<'_>) -> Result<Ends, Stop> {
        let mut ends = Ends {
            included: Vec::new(self.alloc),
            excluded: Vec::new(self.alloc),
            lefts: Vec::new(self.alloc),
            rights: Vec::new(self.alloc),
            is_pair: self.is_pair,
        };
        for start in self.starts.iter() {
            if let Some(commit) = peeled(session, *start)? {
                add_commit(&mut ends, *start, commit)?;
            }
        }
        Ok(ends)
    }
}
