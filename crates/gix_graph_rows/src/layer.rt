//! Has one file of a commit-graph.

ghost use Rattle.std.specs.Prelude.{◌≡◌, ◌+◌, ◌*◌, ◌/◌, ◌<◌, ◌^◌, take, drop, IfOk, IfSome, OnOk};
ghost use Rattle.gix_ids.specs.TableBytes.{word, id_from};
ghost use Rattle.gix_commitgraph.specs.FileChunks.{layout_of};
ghost use Rattle.gix_ids.specs.TableLookup.{IsAt};
ghost use Rattle.gix_graph_rows.specs.ChainRows.{ids_of, layout_from};
ghost use Rattle.gix_graph_rows.specs.FanoutForm.{fanout_in};
ghost use Rattle.gix_graph_rows.specs.Kept.{AreBlocks, AreParts};

use crate::blocks::Blocks;
use crate::error::{Damage, Error, GraphFile};
use crate::front::{Contents, Fanout, Layout, OIDF, check_bases};
use crate::parts::Parts;
use crate::row::Row;
use crate::source::Source;
use gix_base::hash::ObjectId;
use gix_commitgraph::position::{Counted, Place};
use gix_commitgraph::row;
use gix_files::Opened;
use std::alloc::Allocator;

/// Is an open file, with what was read of it.
#[derive(Drop)]
pub(crate) struct Layer<O: Opened, A: Allocator + Copy> {
    pub(crate) source: Source<O>,
    pub(crate) layout: Layout,
    fanout: Fanout<A>,
    parts: Parts<A>,
    blocks: Blocks<A>,
    // The chunks are where the table of contents says.
    ghost laid_out: { O.keeps → layout_from layout ≡ layout_of (O.content source.file) },
    // The last number of the fanout table is the number of rows.
    ghost counted: { layout.count ≡ (fanout_in fanout.bytes.items).count },
    // What is kept of the file is what it has.
    ghost blocks_kept: { O.keeps → AreBlocks (O.content source.file) blocks.windows.items },
    ghost parts_kept: { O.keeps
        → AreParts (O.content source.file) (ids_of layout) parts.parts.items },
}

impl<O: Opened, A: Allocator + Copy> Layer<O, A> {
    /// Reads the front of a file, which comes after these files in a chain.
    pub(crate) fn new(
        alloc: A,
        source: Source<O>,
        before: &[ObjectId],
    ) -> Result<Layer<O, A>, Error> {
        let contents = Contents::read(alloc, &source, before.len())?;
        check_bases(alloc, &source, &contents, before)?;
        let at = contents.place(&source, OIDF, 1024)?;
        let fanout = Fanout::read(alloc, &source, at)?;
        Ok(Layer {
            layout: contents.layout(&source, at, fanout.count())?,
            blocks: Blocks::new(alloc, contents.size())?,
            parts: Parts::new(alloc)?,
            source,
            fanout,
        })
    }

    /// Returns the number of the row with an id; `None` if the file does not have it.
    pub(crate) fn find(&mut self, alloc: A, id: ObjectId) -> Result<Option<u32>, Error>
        ensures same { (self.new.source ≡ self.old.source) × (self.new.layout ≡ self.old.layout) }
        ensures value { O.keeps → IfOk result (λ found. IfSome found
            (IsAt (O.content self.old.source.file) (ids_of self.old.layout) id)) }
    {
        let span = self.fanout.span(id.0[0]);
        match self.parts.find(alloc, &self.source, self.layout, id, span)? {
            Some(row) => Ok(u32::try_from(row).ok()),
            None => Ok(None),
        }
    }

    /// Returns the offset of a row.
    fn row_place(&self, row: u32) -> u64
        ensures { row < self.now.layout.count → result ≡ self.now.layout.rows + 36 * row }
    {
        self.layout.rows.saturating_add(36 * u64::from(row))
    }

    /// Reads the id of a row.
    pub(crate) fn id(&mut self, alloc: A, row: u32) -> Result<ObjectId, Error>
        ensures same { (self.new.source ≡ self.old.source) × (self.new.layout ≡ self.old.layout) }
        ensures value { O.keeps → row < self.old.layout.count → IfOk result
            (λ id. id ≡ id_from (O.content self.old.source.file) (self.old.layout.ids + 20 * row)) }
    {
        let at = self.layout.ids.saturating_add(20 * u64::from(row));
        let mut id = ObjectId([0; 20]);
        self.blocks.fill(alloc, &self.source, at, &mut id.0)?;
        Ok(id)
    }

    /// Reads a row.
    pub(crate) fn row(&mut self, alloc: A, row: u32) -> Result<Row, Error>
        ensures same { (self.new.source ≡ self.old.source) × (self.new.layout ≡ self.old.layout) }
        ensures value { O.keeps → row < self.old.layout.count → IfOk result
            (λ r. r.bytes
            ≡ take 36 (drop (self.old.layout.rows + 36 * row) (O.content self.old.source.file))) }
    {
        let at = self.row_place(row);
        let mut read = Row { bytes: [0; 36] };
        self.blocks.fill(alloc, &self.source, at, &mut read.bytes)?;
        Ok(read)
    }

    /// Reads a number of the chunk `EDGE`. Fails if there are not so many.
    pub(crate) fn edge(&mut self, alloc: A, place: u32) -> Result<u32, Error>
        ensures same { (self.new.source ≡ self.old.source) × (self.new.layout ≡ self.old.layout) }
        ensures within { OnOk result (4 * place < self.old.layout.edges.len) }
        ensures value { O.keeps → IfOk result
            (λ n. n
            ≡ word (O.content self.old.source.file) (self.old.layout.edges.start + 4 * place)) }
    {
        let from = 4 * u64::from(place);
        let at = self.layout.edges.start.saturating_add(from);
        if self.layout.edges.len <= from {
            return Err(self.source.damaged(at, Damage::EdgeEnd));
        }
        let mut bytes = [0u8; 4];
        self.blocks.fill(alloc, &self.source, at, &mut bytes)?;
        Ok(u32::from_be_bytes(bytes))
    }

    /// Reads the level of a row.
    pub(crate) fn level(&mut self, alloc: A, row: u32) -> Result<u32, Error>
        ensures same { (self.new.source ≡ self.old.source) × (self.new.layout ≡ self.old.layout) }
    {
        let at = self.row_place(row).saturating_add(28);
        let mut bytes = [0u8; 4];
        self.blocks.fill(alloc, &self.source, at, &mut bytes)?;
        Ok(row::level(u32::from_be_bytes(bytes)))
    }

    /// Returns the commit at a place of this file, whose row was read.
    pub(crate) fn child(&self, place: Place, row: &Row) -> Child
        ensures { result.layer ≡ place.layer }
    {
        Child {
            file: self.source.name(),
            at: self.row_place(place.row),
            layer: place.layer,
            level: row.level(),
        }
    }
}

impl<O: Opened, A: Allocator + Copy> Counted for Layer<O, A> {
    ghost commits = { λ l. l.layout.count };

    fn count(&self) -> u32 {
        self.layout.count
    }
}

/// Is a commit whose parents are read, and the offset of its row, or of what names a parent there.
#[derive(Clone, Copy)]
pub(crate) struct Child {
    file: GraphFile,
    at: u64,
    pub(crate) layer: usize,
    pub(crate) level: u32,
}

impl Child {
    /// Returns the same commit, with an offset that is so many bytes greater.
    pub(crate) fn named_at(self, after: u64) -> Child
        ensures { result.layer ≡ self.layer }
    {
        Child {
            at: self.at.saturating_add(after),
            ..self
        }
    }

    /// Returns the error that its file is damaged at its offset.
    pub(crate) fn damaged(self, damage: Damage) -> Error {
        Error::Damaged(self.file, self.at, damage)
    }
}
