//! Reads the front of a file: header, table of contents and fanout table (gitformat-commit-graph,
//! "File Layout").

ghost use Rattle.std.specs.Prelude.{◌≡◌, ◌+◌, ◌*◌, ◌%◌, ◌<◌, ◌≤◌, ◌^◌, length, IfOk, IfSome, OnOk, IsTrue};
ghost use Rattle.gix_commitgraph.specs.FileChunks.{row_count, row_from, oidl, cdat, edge};
ghost use Rattle.gix_files.specs.Known.{IsPart};
ghost use Rattle.gix_graph_rows.specs.FanoutForm.{IsFanout, fanout_in};
ghost use Rattle.gix_graph_rows.specs.FrontForm.{chunk_in, chunk_there, start_in, len_in};

use crate::error::{Damage, Error, Feature};
use crate::source::Source;
use gix_base::hash::ObjectId;
use gix_files::Opened;
use gix_ids::{Span, Table, below, check_fanout, long_at, word_at};
use std::alloc::Allocator;

/// The length of a header with the longest table of contents.
const MOST: usize = 8 + 12 * 257;

/// The length of the hash at the end of a file, which is not compared.
const HASH: u64 = 20;

/// The chunk ids, as the numbers of their letters.
pub(crate) const OIDF: usize = 0x4f49_4446;

const OIDL: usize = 0x4f49_444c;

const CDAT: usize = 0x4344_4154;

const EDGE: usize = 0x4544_4745;

const BASE: usize = 0x4241_5345;

/// Says where a chunk begins, and how many bytes it has.
#[derive(Clone, Copy)]
pub(crate) struct Chunk {
    pub(crate) start: u64,
    pub(crate) len: u64,
}

/// Says where the fanout table, the ids, the rows and the further parents of a file are, and how many
/// commits it has.
#[derive(Clone, Copy)]
pub(crate) struct Layout {
    pub(crate) count: u32,
    pub(crate) fanout: u64,
    pub(crate) ids: u64,
    pub(crate) rows: u64,
    pub(crate) edges: Chunk,
    // The chunks end before the greatest offset.
    ghost ids_end: { ids + 20 * count < 2 ^ 64 },
    ghost rows_end: { rows + 36 * count < 2 ^ 64 },
    ghost edges_end: { edges.start + edges.len < 2 ^ 64 },
    // The chunk `EDGE` has numbers of 4 bytes.
    ghost words: { edges.len % 4 ≡ 0 },
}

/// Keeps the fanout table of a file.
#[derive(Drop)]
pub(crate) struct Fanout<A: Allocator> {
    bytes: Vec<u8, A>,
    // The table never falls.
    ghost rises: { IsFanout bytes.items },
}

/// Keeps a header and a table of contents.
#[derive(Drop)]
pub(crate) struct Contents<A: Allocator> {
    bytes: Vec<u8, A>,
    size: u64,
    // No entry is cut off.
    ghost whole: { 20 + 12 * row_count bytes.items ≤ length bytes.items },
}

/// Finds the first of some entries of the table of contents that has this chunk id.
fn find_entry(bytes: &[u8], tag: usize, entries: usize) -> Option<usize>
    requires { 12 * entries ≤ length bytes.now }
    ensures value { result ≡ row_from bytes.now tag 0 entries }
    ensures below { IfSome result (λ i. i < entries) }
{
    for i in 0..entries {
        if word_at(bytes, 8 + 12 * i) == tag {
            return Some(i);
        }
    }
    None
}

/// Returns the chunk of an entry of the table of contents; `None` if it does not end before the hash
/// of a file of this size.
fn chunk_at(bytes: &[u8], entry: usize, size: u64) -> Option<Chunk>
    requires { 32 + 12 * entry ≤ length bytes.now }
    ensures value { IfSome result (λ c. c ≡ chunk_in bytes.now entry) }
    ensures end { IfSome result (λ c. c.start + c.len < 2 ^ 64) }
{
    let start = long_at(bytes, 12 + 12 * entry) as u64;
    let end = long_at(bytes, 24 + 12 * entry) as u64;
    if start <= end && end <= size.saturating_sub(HASH) {
        Some(Chunk {
            start,
            len: end - start,
        })
    } else {
        None
    }
}

/// Tells whether an entry has a chunk id that no entry before it has.
fn is_new(bytes: &[u8], entry: usize) -> bool
    requires { 12 + 12 * entry ≤ length bytes.now }
{
    let tag = word_at(bytes, 8 + 12 * entry);
    tag != 0 && find_entry(bytes, tag, entry + 1) == Some(entry)
}

/// Checks an entry of the table of contents, as git does: its chunk id is new, and its chunk ends
/// before the hash of the file.
fn check_entry<O: Opened>(
    source: &Source<O>,
    bytes: &[u8],
    entry: usize,
    size: u64,
) -> Result<(), Error>
    requires { entry < 256 }
{
    let at = 8 + 12 * entry;
    if bytes.len() < at + 4 || !is_new(bytes, entry) {
        return Err(source.damaged(at as u64, Damage::Contents));
    }
    if bytes.len() < at + 24 || chunk_at(bytes, entry, size).is_none() {
        return Err(source.damaged(at as u64, Damage::ChunkPlace));
    }
    Ok(())
}

/// Checks all entries of the table of contents. The last one has no chunk.
fn check_table<O: Opened>(source: &Source<O>, bytes: &[u8], size: u64) -> Result<(), Error>
    requires { 8 ≤ length bytes.now }
    ensures { OnOk result (20 + 12 * row_count bytes.now ≤ length bytes.now) }
{
    let entries = bytes[6] as usize;
    for entry in 0..entries {
        check_entry(source, bytes, entry, size)?;
    }
    let end = 8 + 12 * entries;
    if bytes.len() < end + 12 || word_at(bytes, end) != 0 {
        return Err(source.damaged(end as u64, Damage::Contents));
    }
    Ok(())
}

/// Checks the header of the file with this number in a chain.
fn check_header<O: Opened>(source: &Source<O>, bytes: &[u8], number: usize) -> Result<(), Error>
    ensures { OnOk result (8 ≤ length bytes.now) }
{
    match bytes {
        [b'C', b'G', b'P', b'H', version, hash, _, bases, ..] => {
            if *version != 1 {
                return Err(source.unsupported(Feature::Version));
            }
            if *hash != 1 {
                return Err(source.unsupported(Feature::Hash));
            }
            if *bases as usize != number {
                return Err(source.damaged(7, Damage::Bases));
            }
            Ok(())
        }
        _ => Err(source.damaged(0, Damage::Signature)),
    }
}

impl<A: Allocator> Contents<A> {
    /// Reads the header and the table of contents of the file with this number in a chain.
    pub(crate) fn read<O: Opened>(
        alloc: A,
        source: &Source<O>,
        number: usize,
    ) -> Result<Contents<A>, Error>
        ensures { O.keeps → IfOk result
            (λ c. IsPart (O.content source.now.file) 0 c.bytes.items) }
    {
        let mut bytes = Vec::new(alloc);
        source.read_into(0, MOST, &mut bytes)?;
        check_header(source, &bytes, number)?;
        let size = source.size()?;
        check_table(source, &bytes, size)?;
        Ok(Contents { size, bytes })
    }

    /// Returns the length of the file.
    pub(crate) fn size(&self) -> u64 {
        self.size
    }

    /// Returns the chunk with this id; `None` if there is none.
    fn chunk<O: Opened>(&self, source: &Source<O>, tag: usize) -> Result<Option<Chunk>, Error>
        ensures value { IfOk result (λ found. found ≡ chunk_there self.now.bytes.items tag) }
        ensures end { IfOk result (λ found. IfSome found (λ c. c.start + c.len < 2 ^ 64)) }
    {
        let Some(entry) = find_entry(&self.bytes, tag, self.bytes[6] as usize) else {
            return Ok(None);
        };
        match chunk_at(&self.bytes, entry, self.size) {
            Some(chunk) => Ok(Some(chunk)),
            None => Err(source.damaged(8, Damage::ChunkPlace)),
        }
    }

    /// Returns where the chunk with this id begins, which must have so many bytes.
    pub(crate) fn place<O: Opened>(
        &self,
        source: &Source<O>,
        tag: usize,
        len: u64,
    ) -> Result<u64, Error>
        ensures value { IfOk result (λ start. start ≡ start_in (chunk_there self.now.bytes.items tag)) }
        ensures end { IfOk result (λ start. start + len < 2 ^ 64) }
    {
        match self.chunk(source, tag)? {
            Some(chunk) if chunk.len == len => Ok(chunk.start),
            _ => Err(source.damaged(8, Damage::ChunkSize)),
        }
    }

    /// Returns where the lists of further parents are.
    fn edges<O: Opened>(&self, source: &Source<O>) -> Result<Chunk, Error>
        ensures start { IfOk result (λ c. c.start ≡ start_in (chunk_there self.now.bytes.items edge)) }
        ensures len { IfOk result (λ c. c.len ≡ len_in (chunk_there self.now.bytes.items edge)) }
        ensures end { IfOk result (λ c. c.start + c.len < 2 ^ 64) }
        ensures words { IfOk result (λ c. c.len % 4 ≡ 0) }
    {
        match self.chunk(source, EDGE)? {
            Some(chunk) if chunk.len % 4 == 0 => Ok(chunk),
            Some(_) => Err(source.damaged(8, Damage::ChunkSize)),
            None => Ok(Chunk { start: 0, len: 0 }),
        }
    }

    /// Returns where the chunks of a file are whose fanout table is at a place, and that has so many
    /// commits.
    pub(crate) fn layout<O: Opened>(
        &self,
        source: &Source<O>,
        fanout: u64,
        count: u32,
    ) -> Result<Layout, Error>
        ensures fanout { IfOk result (λ l. l.fanout ≡ fanout) }
        ensures count { IfOk result (λ l. l.count ≡ count) }
        ensures ids { IfOk result (λ l. l.ids ≡ start_in (chunk_there self.now.bytes.items oidl)) }
        ensures rows { IfOk result (λ l. l.rows ≡ start_in (chunk_there self.now.bytes.items cdat)) }
        ensures edges { IfOk result (λ l. l.edges.start ≡ start_in (chunk_there self.now.bytes.items edge)) }
        ensures len { IfOk result (λ l. l.edges.len ≡ len_in (chunk_there self.now.bytes.items edge)) }
    {
        Ok(Layout {
            count,
            fanout,
            ids: self.place(source, OIDL, 20 * u64::from(count))?,
            rows: self.place(source, CDAT, 36 * u64::from(count))?,
            edges: self.edges(source)?,
        })
    }
}

impl<A: Allocator> Fanout<A> {
    /// Reads the fanout table at a place of a file, and checks that it does not fall.
    pub(crate) fn read<O: Opened>(alloc: A, source: &Source<O>, at: u64) -> Result<Fanout<A>, Error>
        ensures { O.keeps → IfOk result
            (λ f. IsPart (O.content source.now.file) at f.bytes.items) }
    {
        let mut bytes = Vec::new(alloc);
        source.read_into(at, 1024, &mut bytes)?;
        if is_fanout(&bytes) {
            Ok(Fanout { bytes })
        } else {
            Err(source.damaged(at, Damage::Fanout))
        }
    }

    /// Returns the number of ids.
    pub(crate) fn count(&self) -> u32
        ensures { result ≡ (fanout_in self.now.bytes.items).count }
    {
        word_at(&self.bytes, 1020) as u32
    }

    /// Returns the positions of the ids with a first byte.
    pub(crate) fn span(&self, byte: u8) -> Span
        ensures order { result.low ≤ result.high }
        ensures within { result.high ≤ (fanout_in self.now.bytes.items).count }
    {
        Span {
            low: below(&self.bytes, table_in(&self.bytes), byte),
            high: word_at(&self.bytes, 4 * byte as usize),
        }
    }
}

/// Returns where some bytes have a fanout table: at the start. Its last number counts the ids.
fn table_in(bytes: &[u8]) -> Table
    requires { 1024 ≤ length bytes.now }
    ensures { result ≡ fanout_in bytes.now }
{
    Table {
        count: word_at(bytes, 1020),
        fanout: 0,
        ids: 0,
    }
}

/// Tells whether some bytes have a fanout table that never falls.
fn is_fanout(bytes: &[u8]) -> bool
    ensures { IsTrue result → IsFanout bytes.now }
{
    bytes.len() >= 1024 && check_fanout(bytes, table_in(bytes)).is_ok()
}

/// Checks that the chunk `BASE` of a file has the ids of the files before it in a chain.
pub(crate) fn check_bases<O: Opened, A: Allocator>(
    alloc: A,
    source: &Source<O>,
    contents: &Contents<A>,
    before: &[ObjectId],
) -> Result<(), Error> {
    if before.is_empty() {
        return Ok(());
    }
    let len = before.len().saturating_mul(20);
    let at = contents.place(source, BASE, len as u64)?;
    let mut bytes = Vec::new(alloc);
    source.read_into(at, len, &mut bytes)?;
    for (i, id) in before.iter().enumerate() {
        let from = i.saturating_mul(20);
        if bytes.get(from..from.saturating_add(20)) != Some(id.0.as_slice()) {
            return Err(source.damaged(at.saturating_add(from as u64), Damage::Bases));
        }
    }
    Ok(())
}
