//! Looks up ids in a file, and keeps the parts of its ids that were read.

ghost use Rattle.std.specs.Prelude.{◌≡◌, ◌≤◌, ◌+◌, ◌*◌, ◌<◌, ◌^◌, ℕ, List, IfOk, IfSome};
ghost use Rattle.gix_ids.specs.declared.table.Table.{Table};
ghost use Rattle.gix_ids.specs.TableLookup.{IsAt};
ghost use Rattle.gix_graph_rows.specs.ChainRows.{ids_of};
ghost use Rattle.gix_graph_rows.specs.Kept.{AreIds, AreParts, IsToldOf};

use crate::error::{Damage, Error};
use crate::front::Layout;
use crate::source::Source;
use gix_base::hash::ObjectId;
use gix_files::Opened;
use gix_ids::Span;
use gix_pack::part::{NEAR, Told, around, near, position};
use std::alloc::Allocator;

/// How many bytes of ids are kept of a file. If there are more, all are dropped.
const MOST_KEPT: usize = 1 << 26;

/// What was read of the ids with the same first byte.
#[derive(Drop)]
struct Part<A: Allocator> {
    /// The position of the first of them.
    low: usize,
    /// All of them, once they were read.
    ids: Vec<u8, A>,
    /// How often a few of them were read alone.
    tries: usize,
}

impl<A: Allocator> Part<A> {
    /// Returns the position of an id in the file, if it is among those that were read.
    fn position(&self, id: ObjectId) -> Option<usize>
        ensures { (s : List ℕ) → (t : Table) → t.count < 2 ^ 32
            → AreIds s t self.now.low self.now.ids.items → IfSome result (IsAt s t id) }
    {
        let k = position(&self.ids, id)?;
        Some(self.low.saturating_add(k))
    }
}

/// Keeps the ids of a file, those with the same first byte together.
#[derive(Drop)]
pub(crate) struct Parts<A: Allocator + Copy> {
    parts: Vec<Part<A>, A>,
    kept: usize,
    /// The ids that were last read alone.
    few: Vec<u8, A>,
}

impl<A: Allocator + Copy> Parts<A> {
    /// Returns room for the ids of all first bytes.
    #[tactic(auto, using(crate::proofs::KnownBytes::ids_none))]
    pub(crate) fn new(alloc: A) -> Result<Parts<A>, Error>
        ensures { (s : List ℕ) → (t : Table) → IfOk result (λ p. AreParts s t p.parts.items) }
    {
        let mut parts = Vec::with_capacity(alloc, 256)?;
        for _ in 0..256u32 {
            parts.push(Part {
                low: 0,
                ids: Vec::new(alloc),
                tries: 0,
            })?;
        }
        Ok(Parts {
            parts,
            kept: 0,
            few: Vec::new(alloc),
        })
    }

    /// Drops all ids if there are too many.
    fn make_room(&mut self, alloc: A) -> Result<(), Error>
        ensures { (s : List ℕ) → (t : Table) → AreParts s t self.old.parts.items
            → AreParts s t self.new.parts.items }
    {
        if self.kept > MOST_KEPT {
            *self = Parts::new(alloc)?;
        }
        Ok(())
    }

    /// Reads the ids with a first byte, whose positions are those of the span, unless they are here.
    fn load<O: Opened>(
        &mut self,
        source: &Source<O>,
        layout: Layout,
        first: u8,
        span: Span,
    ) -> Result<(), Error>
        requires order { span.low ≤ span.high }
        requires within { span.high ≤ layout.count }
        requires kept { O.keeps
            → AreParts (O.content source.now.file) (ids_of layout) self.old.parts.items }
        ensures { O.keeps
            → AreParts (O.content source.now.file) (ids_of layout) self.new.parts.items }
    {
        let len = 20 * (span.high - span.low);
        let at = layout.ids + 20 * span.low as u64;
        let Some(part) = self.parts.get_mut(first as usize) else {
            return Ok(());
        };
        if part.ids.len() < len {
            part.low = span.low;
            source.read_into(at, len, &mut part.ids)?;
            self.kept = self.kept.saturating_add(len);
        }
        if part.ids.len() < len {
            return Err(source.damaged(at, Damage::CutOff));
        }
        Ok(())
    }

    /// Returns whether a few of the ids with a first byte are to be read alone: until as many were
    /// read as there are.
    fn is_seldom(&mut self, first: u8, count: usize) -> bool
        ensures { (s : List ℕ) → (t : Table) → AreParts s t self.old.parts.items
            → AreParts s t self.new.parts.items }
    {
        let Some(part) = self.parts.get_mut(first as usize) else {
            return false;
        };
        if !part.ids.is_empty() || part.tries >= count / NEAR {
            return false;
        }
        part.tries = part.tries.saturating_add(1);
        true
    }

    /// Returns what the ids around the position where an id should be tell of it. Its position is one
    /// in the file.
    fn told<O: Opened>(
        &mut self,
        source: &Source<O>,
        layout: Layout,
        id: ObjectId,
        span: Span,
    ) -> Result<Told, Error>
        requires order { span.low ≤ span.high }
        requires within { span.high ≤ layout.count }
        ensures kept { (s : List ℕ) → (t : Table) → AreParts s t self.old.parts.items
            → AreParts s t self.new.parts.items }
        ensures value { O.keeps → IfOk result
            (IsToldOf (O.content source.now.file) (ids_of layout) id) }
    {
        let Span { low, high } = around(id, span);
        let at = layout.ids + 20 * low as u64;
        source.read_into(at, 20 * (high - low), &mut self.few)?;
        match near(&self.few, id) {
            Told::At(k) => Ok(Told::At(low.saturating_add(k))),
            told => Ok(told),
        }
    }

    /// Returns the position of an id in the file, if it is among those that are here.
    fn position(&self, id: ObjectId) -> Option<usize>
        ensures { (s : List ℕ) → (t : Table) → t.count < 2 ^ 32 → AreParts s t self.now.parts.items
            → IfSome result (IsAt s t id) }
    {
        self.parts.get(id.0[0] as usize)?.position(id)
    }

    /// Returns the position of an id in the file. The span has the positions of the ids with its
    /// first byte.
    pub(crate) fn find<O: Opened>(
        &mut self,
        alloc: A,
        source: &Source<O>,
        layout: Layout,
        id: ObjectId,
        span: Span,
    ) -> Result<Option<usize>, Error>
        requires order { span.low ≤ span.high }
        requires within { span.high ≤ layout.count }
        requires kept { O.keeps
            → AreParts (O.content source.now.file) (ids_of layout) self.old.parts.items }
        ensures kept { O.keeps
            → AreParts (O.content source.now.file) (ids_of layout) self.new.parts.items }
        ensures value { O.keeps → IfOk result
            (λ found. IfSome found (IsAt (O.content source.now.file) (ids_of layout) id)) }
    {
        self.make_room(alloc)?;
        if self.is_seldom(id.0[0], span.high - span.low) {
            match self.told(source, layout, id, span)? {
                Told::At(place) => return Ok(Some(place)),
                Told::Absent => return Ok(None),
                Told::Elsewhere => {}
            }
        }
        self.load(source, layout, id.0[0], span)?;
        Ok(self.position(id))
    }
}
