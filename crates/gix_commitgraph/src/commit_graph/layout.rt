//! Finds the chunks of a file: gitformat-commit-graph, "CHUNK LOOKUP".

ghost use Rattle.std.specs.Prelude.{◌≡◌, ℕ, ◌+◌, ◌*◌, ◌≤◌, ◌<◌, length, IfOk, IfErr, OnOk, IfSome};
ghost use Rattle.gix_commitgraph.specs.FileChunks.{row_count, tag_of, row_from, chunk_at, start_of, size_of, layout_of};
ghost use Rattle.gix_commitgraph.specs.FileFormat.{HasHeader, IsRow, HasTable, MustHave, MayHave, HasChunks};
ghost use Rattle.gix_commitgraph.specs.FileRefused.{IsMisshapen, IsLacking};
ghost use Rattle.gix_commitgraph.specs.FileChecks.{Fits};
ghost use Rattle.gix_ids.specs.TableForm.{IsInside};

use crate::commit_graph::fault::OpenFault;
use gix_ids::{Table, long_at, word_at};

const OIDF: usize = 0x4f49_4446;

const OIDL: usize = 0x4f49_444c;

const CDAT: usize = 0x4344_4154;

const EDGE: usize = 0x4544_4745;

/// A chunk of a file: the offsets at which it begins and ends.
#[derive(Clone, Copy)]
pub(crate) struct Chunk {
    pub(crate) start: usize,
    pub(crate) end: usize,
}

/// The table of ids in `OIDF` and `OIDL`, the offsets of the other chunks, and the number of entries
/// of `EDGE`.
#[derive(Clone, Copy)]
pub(crate) struct Layout {
    pub(crate) table: Table,
    pub(crate) rows: usize,
    pub(crate) edges: usize,
    pub(crate) edge_count: usize,
}

/// Checks that the header is supported, and that the table of contents fits in the file.
fn check_header(bytes: &[u8]) -> Result<(), OpenFault>
    ensures header { OnOk result (HasHeader bytes.now) }
    ensures misshapen { IfErr result (IsMisshapen bytes.now) }
{
    if bytes.len() < 8 {
        return Err(OpenFault::TooShort);
    }
    if &bytes[..4] != b"CGPH".as_slice() {
        return Err(OpenFault::Signature);
    }
    if bytes[4] != 1 {
        return Err(OpenFault::Version);
    }
    if bytes[5] != 1 {
        return Err(OpenFault::Hash);
    }
    if bytes.len() < 40 + 12 * bytes[6] as usize {
        return Err(OpenFault::TooShort);
    }
    Ok(())
}

/// Finds the row of the table of contents that has the chunk id `tag`.
fn find_row(bytes: &[u8], tag: usize, rows: usize) -> Option<usize>
    requires { 20 + 12 * rows ≤ length bytes.now }
    ensures value { result ≡ row_from bytes.now tag 0 rows }
    ensures below { IfSome result (λ i. i < rows) }
{
    for i in 0..rows {
        if word_at(bytes, 8 + 12 * i) == tag {
            return Some(i);
        }
    }
    None
}

/// Checks that row `i` of the table of contents has a chunk id of its own, and a chunk inside the
/// file.
fn check_row(bytes: &[u8], rows: usize, i: usize) -> Result<(), OpenFault>
    requires header { HasHeader bytes.now }
    requires all { rows ≡ row_count bytes.now }
    requires here { i < rows }
    ensures row { OnOk result (IsRow bytes.now i) }
    ensures misshapen { IfErr result (IsMisshapen bytes.now) }
{
    let tag = word_at(bytes, 8 + 12 * i);
    if tag == 0 {
        return Err(OpenFault::NoChunkId);
    }
    if find_row(bytes, tag, rows) != Some(i) {
        return Err(OpenFault::Repeated);
    }
    let end = long_at(bytes, 24 + 12 * i);
    if end < long_at(bytes, 12 + 12 * i) || bytes.len() - 20 < end {
        return Err(OpenFault::ChunkPlace);
    }
    Ok(())
}

/// Checks every row of the table of contents, and that the last one ends it.
fn check_table(bytes: &[u8]) -> Result<(), OpenFault>
    requires { HasHeader bytes.now }
    ensures table { OnOk result (HasTable bytes.now) }
    ensures misshapen { IfErr result (IsMisshapen bytes.now) }
{
    let rows = bytes[6] as usize;
    for i in 0..rows {
        check_row(bytes, rows, i)?;
    }
    if word_at(bytes, 8 + 12 * rows) != 0 {
        return Err(OpenFault::TableEnd);
    }
    Ok(())
}

/// Finds the chunk that has the chunk id `tag`.
#[tactic(auto, unfolding(crate::specs::FileChunks::chunk_at))]
pub(crate) fn find_chunk(bytes: &[u8], tag: usize) -> Option<Chunk>
    requires header { HasHeader bytes.now }
    requires table { HasTable bytes.now }
    ensures value { result ≡ chunk_at bytes.now tag }
    ensures rises { IfSome result (λ chunk. chunk.start ≤ chunk.end) }
    ensures inside { IfSome result (λ chunk. chunk.end ≤ length bytes.now) }
{
    let i = find_row(bytes, tag, bytes[6] as usize)?;
    Some(Chunk {
        start: long_at(bytes, 12 + 12 * i),
        end: long_at(bytes, 24 + 12 * i),
    })
}

/// Returns the offset of the chunk that has the chunk id `tag`, and checks that it has `len` bytes.
fn start(bytes: &[u8], tag: usize, len: usize, missing: OpenFault) -> Result<usize, OpenFault>
    requires header { HasHeader bytes.now }
    requires table { HasTable bytes.now }
    ensures value { IfOk result (λ p. p ≡ start_of (chunk_at bytes.now tag)) }
    ensures inside { IfOk result (λ p. p + len ≤ length bytes.now) }
    ensures there { OnOk result (MustHave (chunk_at bytes.now tag) len) }
    ensures lacking { IfErr result (IsLacking bytes.now tag len missing) }
{
    let Some(chunk) = find_chunk(bytes, tag) else {
        return Err(missing);
    };
    if chunk.end - chunk.start != len {
        return Err(OpenFault::ChunkSize);
    }
    Ok(chunk.start)
}

/// Returns the offset of `EDGE` and the number of its entries, or zeros if there is no `EDGE`.
fn edges(bytes: &[u8]) -> Result<(usize, usize), OpenFault>
    requires header { HasHeader bytes.now }
    requires table { HasTable bytes.now }
    ensures start { IfOk result (λ e. e.0 ≡ start_of (chunk_at bytes.now EDGE)) }
    ensures count { IfOk result (λ e. e.1 * 4 ≡ size_of (chunk_at bytes.now EDGE)) }
    ensures inside { IfOk result (λ e. e.0 + 4 * e.1 ≤ length bytes.now) }
    ensures there { IfOk result (λ e. MayHave (chunk_at bytes.now EDGE) (4 * e.1)) }
    ensures misshapen { IfErr result (IsMisshapen bytes.now) }
{
    let Some(chunk) = find_chunk(bytes, EDGE) else {
        return Ok((0, 0));
    };
    let size = chunk.end - chunk.start;
    if size % 4 != 0 {
        return Err(OpenFault::ChunkSize);
    }
    Ok((chunk.start, size / 4))
}

/// Checks the header, the table of contents and the sizes of the chunks, and finds the chunks.
pub(crate) fn read_layout(bytes: &[u8]) -> Result<Layout, OpenFault>
    ensures value { IfOk result (λ l. l ≡ layout_of bytes.now) }
    ensures inside { IfOk result (λ l. IsInside bytes.now l.table) }
    ensures fits { IfOk result (λ l. Fits bytes.now l) }
    ensures header { OnOk result (HasHeader bytes.now) }
    ensures table { OnOk result (HasTable bytes.now) }
    ensures chunks { OnOk result (HasChunks bytes.now) }
    ensures misshapen { IfErr result (IsMisshapen bytes.now) }
{
    check_header(bytes)?;
    check_table(bytes)?;
    let fanout = start(bytes, OIDF, 1024, OpenFault::NoFanout)?;
    let count = word_at(bytes, fanout + 1020);
    let ids = start(bytes, OIDL, 20 * count, OpenFault::NoIds)?;
    let rows = start(bytes, CDAT, 36 * count, OpenFault::NoRows)?;
    let (edges, edge_count) = edges(bytes)?;
    Ok(Layout {
        table: Table { count, fanout, ids },
        rows,
        edges,
        edge_count,
    })
}
