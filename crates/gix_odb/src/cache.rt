//! Keeps the objects that were just read from packs, since others may be deltas to them.

use gix_base::object::Kind;
use std::alloc::{AllocError, Allocator};
use std::collections::BTreeMap;

/// How many bytes are kept in all. If an object has no room, all others are dropped.
const MOST_KEPT: usize = 1 << 26;

/// How many bytes an object takes besides its content.
const OWN_SIZE: usize = 128;

/// An object as it is kept.
#[derive(Drop)]
struct Kept<A: Allocator> {
    kind: Kind,
    content: Vec<u8, A>,
}

/// Keeps objects by the number of their pack and their offset there.
#[derive(Drop)]
pub(crate) struct Cache<A: Allocator + Copy> {
    objects: BTreeMap<(u64, u64), Kept<A>, A>,
    size: usize,
}

impl<A: Allocator + Copy> Cache<A> {
    /// Returns a cache without objects.
    pub(crate) fn new(alloc: A) -> Cache<A> {
        Cache {
            objects: BTreeMap::new(alloc),
            size: 0,
        }
    }

    /// Returns a copy of an object, if it is kept.
    pub(crate) fn get(
        &self,
        alloc: A,
        pack: u64,
        at: u64,
    ) -> Result<Option<(Kind, Vec<u8, A>)>, AllocError> {
        match self.objects.get(&(pack, at)) {
            Some(kept) => Ok(Some((kept.kind, kept.content.to_vec(alloc)?))),
            None => Ok(None),
        }
    }

    /// Returns the kind of an object, if it is kept.
    pub(crate) fn kind(&self, pack: u64, at: u64) -> Option<Kind> {
        match self.objects.get(&(pack, at)) {
            Some(kept) => Some(kept.kind),
            None => None,
        }
    }

    /// Makes room for an object of this size. Returns `false` if there is none for so large a one.
    fn make_room(&mut self, size: usize) -> bool {
        if size > MOST_KEPT {
            return false;
        }
        if self.size > MOST_KEPT - size {
            self.objects.clear();
            self.size = 0;
        }
        self.size = self.size.saturating_add(size);
        true
    }

    /// Keeps a copy of an object, unless it is too large.
    pub(crate) fn put(
        &mut self,
        alloc: A,
        pack: u64,
        at: u64,
        kind: Kind,
        content: &[u8],
    ) -> Result<(), AllocError> {
        if self.make_room(content.len().saturating_add(OWN_SIZE)) {
            let content = content.to_vec(alloc)?;
            self.objects.insert((pack, at), Kept { kind, content })?;
        }
        Ok(())
    }
}
