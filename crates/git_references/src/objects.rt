//! Keeps the objects of references (git-for-each-ref, "FIELD NAMES").

use crate::list::Candidate;
use git_fields::read::{Extent, Read, read_object};
use git_session::session::Session;
use git_session::stop::{Stop, fatal};
use gix_base::hash::ObjectId;
use gix_base::object::Kind;
use std::alloc::{AllocError, Global};
use std::collections::BTreeMap;

/// How many bytes of objects are kept. If one has no room, all others are dropped.
const MOST_KEPT: usize = 1 << 24;

/// How many bytes an object takes besides what is kept of its content.
const OWN_SIZE: usize = 128;

/// Returns git's end for an object that is missing.
pub(crate) fn missing(session: &Session<'_>, id: ObjectId, candidate: &Candidate) -> Stop {
    let mut text = [0u8; 40];
    let written = id.write_hex(40, &mut text);
    fatal(
        session.alloc,
        &[
            b"missing object ",
            &text[..written],
            b" for ",
            &candidate.name,
        ],
    )
}

/// Keeps the objects that were read, since several references may name one, and sorting reads them
/// as well as printing.
#[derive(Drop)]
pub(crate) struct Objects {
    kept: BTreeMap<ObjectId, Read>,
    /// How many bytes are kept.
    size: usize,
    /// How much of each object is wanted.
    extent: Extent,
}

impl Objects {
    /// Keeps no object yet.
    pub(crate) fn new(alloc: Global, extent: Extent) -> Objects {
        Objects {
            kept: BTreeMap::new(alloc),
            size: 0,
            extent,
        }
    }

    /// Keeps a copy of an object, unless it is too large.
    fn keep(&mut self, alloc: Global, read: &Read) -> Result<(), AllocError> {
        let size = read.content.len().saturating_add(OWN_SIZE);
        if size > MOST_KEPT {
            return Ok(());
        }
        if self.size > MOST_KEPT - size {
            self.kept.clear();
            self.size = 0;
        }
        self.size = self.size.saturating_add(size);
        self.kept.insert(read.id, read.copied(alloc)?)?;
        Ok(())
    }

    /// Returns an object, which is read unless it is kept.
    ///
    /// # Errors
    ///
    /// `Fatal` with git's message if it is missing, and those of [`read_object`].
    fn read(
        &mut self,
        session: &mut Session<'_>,
        id: ObjectId,
        candidate: &Candidate,
    ) -> Result<Read, Stop> {
        let alloc = session.alloc;
        if let Some(read) = self.kept.get(&id) {
            return Ok(read.copied(alloc)?);
        }
        let Some(read) = read_object(session, id, self.extent)? else {
            return Err(missing(session, id, candidate));
        };
        self.keep(alloc, &read)?;
        Ok(read)
    }

    /// Returns the object of a reference.
    pub(crate) fn own(
        &mut self,
        session: &mut Session<'_>,
        candidate: &Candidate,
    ) -> Result<Read, Stop> {
        self.read(session, candidate.id, candidate)
    }

    /// Returns the object that is tagged; `None` if the object of the reference is no tag.
    pub(crate) fn target(
        &mut self,
        session: &mut Session<'_>,
        own: &Read,
        candidate: &Candidate,
    ) -> Result<Option<Read>, Stop> {
        if own.kind != Kind::Tag {
            return Ok(None);
        }
        let target = session.repository.tag(own.id)?.target;
        Ok(Some(self.read(session, target, candidate)?))
    }
}
