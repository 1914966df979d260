//! Looks ids up in the index of a pack (gitformat-pack, "Version 2 pack-*.idx files").

use crate::completions::Completions;
use crate::error::{Damage, Feature};
use crate::failure::Fault;
use crate::source::Source;
use gix_base::hash::ObjectId;
use gix_files::Opened;
use gix_ids::Span;
use gix_pack::index::OpenFault;
use gix_pack::part::{
    HEAD_LEN, Head, NEAR, Offset, Told, around, near, position, read_large_offset, read_offset,
    search,
};
use std::alloc::Allocator;

/// How many bytes of ids and offsets are kept of an index. If there are more, all are dropped.
const MOST_KEPT: usize = 1 << 26;

/// Keeps the ids that begin with one byte, and the words of their offsets.
#[derive(Drop)]
struct Bucket<A: Allocator> {
    ids: Vec<u8, A>,
    offsets: Vec<u8, A>,
    /// How often a few of the ids were read alone.
    tries: usize,
}

/// An open index. A bucket is read when it is first needed.
#[derive(Drop)]
pub(crate) struct Index<O: Opened, A: Allocator + Copy> {
    source: Source<O>,
    size: u64,
    head: Head<Vec<u8, A>>,
    buckets: Vec<Bucket<A>, A>,
    kept: usize,
    /// The ids that were last read alone.
    few: Vec<u8, A>,
}

/// Makes room for the buckets of all first bytes.
fn empty_buckets<A: Allocator + Copy>(alloc: A) -> Result<Vec<Bucket<A>, A>, Fault> {
    let mut buckets = Vec::with_capacity(alloc, 256)?;
    for _ in 0..256u32 {
        buckets.push(Bucket {
            ids: Vec::new(alloc),
            offsets: Vec::new(alloc),
            tries: 0,
        })?;
    }
    Ok(buckets)
}

/// Returns the fault of an index whose head is refused.
fn refused<O: Opened>(source: &Source<O>, fault: OpenFault) -> Fault {
    match fault {
        OpenFault::Signature | OpenFault::Version => source.unsupported(Feature::IndexVersion),
        OpenFault::TooShort => source.damaged(0, Damage::CutOff),
        _ => source.damaged(8, Damage::Fanout),
    }
}

/// Returns what is wrong with the size of an index of so many objects; `None` if nothing is. As to
/// git, all objects but one may have offsets of eight bytes.
fn misfit(size: u64, count: u64) -> Option<Damage> {
    let least = count
        .saturating_mul(28)
        .saturating_add(HEAD_LEN as u64 + 40);
    let most = least.saturating_add(count.saturating_sub(1).saturating_mul(8));
    if size < least {
        Some(Damage::CutOff)
    } else if size > most {
        Some(Damage::TooLong)
    } else {
        None
    }
}

/// Reads the hash at a place.
fn hash_at<O: Opened>(source: &Source<O>, at: u64) -> Result<ObjectId, Fault> {
    let mut bytes = [0u8; 20];
    source.fill(at, bytes.as_mut_slice())?;
    Ok(ObjectId(bytes))
}

impl<O: Opened, A: Allocator + Copy> Index<O, A> {
    /// Reads the head of an index.
    pub(crate) fn new(alloc: A, source: Source<O>) -> Result<Index<O, A>, Fault> {
        let mut bytes = Vec::new(alloc);
        source.read_into(0, HEAD_LEN, &mut bytes)?;
        let head = match Head::open(bytes) {
            Ok(head) => head,
            Err(error) => return Err(refused(&source, error.fault)),
        };
        let size = source.size()?;
        match misfit(size, head.len() as u64) {
            Some(damage) => Err(source.damaged(size, damage)),
            None => Ok(Index {
                size,
                source,
                head,
                buckets: empty_buckets(alloc)?,
                kept: 0,
                few: Vec::new(alloc),
            }),
        }
    }

    /// Fails if a pack is not that of the index: by its signature and version, by the number of its
    /// objects, or by the hash at its end, which the index has, too.
    pub(crate) fn check_pack(&self, pack: &Source<O>) -> Result<(), Fault> {
        let mut head = [0u8; 12];
        pack.fill(0, head.as_mut_slice())?;
        let is_own = match head {
            [b'P', b'A', b'C', b'K', 0, 0, 0, 2 | 3, a, b, c, d] => {
                u32::from_be_bytes([a, b, c, d]) as usize == self.count()
            }
            _ => false,
        };
        if !is_own {
            return Err(pack.damaged(0, Damage::OtherPack));
        }
        let end = pack.size()?.saturating_sub(20);
        if hash_at(pack, end)? == hash_at(&self.source, self.size.saturating_sub(40))? {
            Ok(())
        } else {
            Err(pack.damaged(end, Damage::OtherPack))
        }
    }

    /// Returns the number of objects in the pack.
    pub(crate) fn count(&self) -> usize {
        self.head.len()
    }

    /// Returns where in the pack the object with this id begins; `None` if it is not there.
    pub(crate) fn find(&mut self, alloc: A, id: ObjectId) -> Result<Option<u64>, Fault> {
        let first = id.0[0];
        if self.is_seldom(first) {
            match self.told(id)? {
                Told::At(k) => return self.offset_at(k),
                Told::Absent => return Ok(None),
                Told::Elsewhere => {}
            }
        }
        self.load(alloc, first)?;
        let Some(bucket) = self.buckets.get(first as usize) else {
            return Ok(None);
        };
        let Some(k) = position(&bucket.ids, id) else {
            return Ok(None);
        };
        match bucket.offsets.get(k.saturating_mul(4)..) {
            Some([a, b, c, d, ..]) => Ok(Some(self.offset([*a, *b, *c, *d])?)),
            _ => Ok(None),
        }
    }

    /// Returns whether a few of the ids that begin with a byte are to be read alone: until as many
    /// were read as there are.
    fn is_seldom(&mut self, first: u8) -> bool {
        let Span { low, high } = self.head.span(first);
        let Some(bucket) = self.buckets.get_mut(first as usize) else {
            return false;
        };
        if !bucket.offsets.is_empty() || bucket.tries >= high.saturating_sub(low) / NEAR {
            return false;
        }
        bucket.tries = bucket.tries.saturating_add(1);
        true
    }

    /// Returns what the ids around the position where an id should be tell of it.
    fn told(&mut self, id: ObjectId) -> Result<Told, Fault> {
        let Span { low, high } = around(id, self.head.span(id.0[0]));
        let at = self.head.id_place(u32::try_from(low).unwrap_or(u32::MAX));
        let len = high.saturating_sub(low).saturating_mul(20);
        self.source.read_into(at, len, &mut self.few)?;
        match near(&self.few, id) {
            Told::At(k) => Ok(Told::At(low.saturating_add(k))),
            told => Ok(told),
        }
    }

    /// Returns where the object at a position of the index begins in the pack.
    fn offset_at(&self, position: usize) -> Result<Option<u64>, Fault> {
        let at = self
            .head
            .offset_place(u32::try_from(position).unwrap_or(u32::MAX));
        let mut bytes = [0u8; 4];
        if self.source.fill(at, bytes.as_mut_slice())? < 4 {
            return Err(self.source.damaged(at, Damage::CutOff));
        }
        Ok(Some(self.offset(bytes)?))
    }

    /// Adds the ids that begin with the prefix to those that were found.
    pub(crate) fn complete(&mut self, alloc: A, found: &mut Completions<A>) -> Result<(), Fault> {
        let least = found.least();
        let first = least.0[0];
        self.check_edges(first)?;
        self.load(alloc, first)?;
        let Some(bucket) = self.buckets.get(first as usize) else {
            return Ok(());
        };
        match search(&bucket.ids, least) {
            Ok(k) => found.add_from(&bucket.ids, k),
            Err(k) => found.add_from(&bucket.ids, k),
        }
    }

    /// Fails if the fanout table leaves out an id that begins with a byte, beside those that it
    /// gives this byte.
    fn check_edges(&self, first: u8) -> Result<(), Fault> {
        let Span { low, high } = self.head.span(first);
        let behind = Some(high).filter(|high| *high < self.head.len());
        if self.begins(low.checked_sub(1), first)? || self.begins(behind, first)? {
            return Err(self.source.damaged(8, Damage::Fanout));
        }
        Ok(())
    }

    /// Returns whether the id at a position, if there is one, begins with a byte.
    fn begins(&self, position: Option<usize>, first: u8) -> Result<bool, Fault> {
        let Some(position) = position else {
            return Ok(false);
        };
        let at = self
            .head
            .id_place(u32::try_from(position).unwrap_or(u32::MAX));
        let mut byte = [0u8; 1];
        if self.source.fill(at, byte.as_mut_slice())? < 1 {
            return Err(self.source.damaged(at, Damage::CutOff));
        }
        Ok(byte[0] == first)
    }

    /// Reads the ids that begin with a byte, and their offsets, unless they are here.
    fn load(&mut self, alloc: A, first: u8) -> Result<(), Fault> {
        if self.kept > MOST_KEPT {
            self.buckets = empty_buckets(alloc)?;
            self.kept = 0;
        }
        let Span { low, high } = self.head.span(first);
        let count = high.saturating_sub(low);
        let low = u32::try_from(low).unwrap_or(u32::MAX);
        let ids = self.head.id_place(low);
        let offsets = self.head.offset_place(low);
        let Some(bucket) = self.buckets.get_mut(first as usize) else {
            return Ok(());
        };
        if bucket.offsets.is_empty() {
            bucket.read(&self.source, self.size, (ids, offsets), count)?;
            self.kept = self.kept.saturating_add(count.saturating_mul(24));
        }
        Ok(())
    }

    /// Returns the offset that four bytes say, or one of eight bytes to which they lead.
    fn offset(&self, bytes: [u8; 4]) -> Result<u64, Fault> {
        match read_offset(bytes) {
            Offset::Small(offset) => Ok(u64::from(offset)),
            Offset::Large(entry) => {
                let at = self.head.large_place(entry);
                let mut bytes = [0u8; 8];
                if self.source.fill(at, bytes.as_mut_slice())? < 8 {
                    return Err(self.source.damaged(at, Damage::CutOff));
                }
                Ok(read_large_offset(bytes))
            }
        }
    }
}

impl<A: Allocator> Bucket<A> {
    /// Reads so many ids and offsets from their places in a file of this size.
    ///
    /// If the call fails, there are no offsets.
    fn read<O: Opened>(
        &mut self,
        source: &Source<O>,
        size: u64,
        (ids, offsets): (u64, u64),
        count: usize,
    ) -> Result<(), Fault> {
        let end = offsets.saturating_add(count.saturating_mul(4) as u64);
        if size < end {
            return Err(source.damaged(size, Damage::CutOff));
        }
        source.read_into(ids, count.saturating_mul(20), &mut self.ids)?;
        source.read_into(offsets, count.saturating_mul(4), &mut self.offsets)?;
        if self.offsets.len() < count.saturating_mul(4) {
            self.offsets.clear();
            return Err(source.damaged(offsets, Damage::CutOff));
        }
        Ok(())
    }
}
