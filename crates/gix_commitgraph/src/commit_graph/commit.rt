//! Reads the commit at a position.

ghost use Rattle.std.specs.Prelude.{◌≡◌, ◌+◌, ◌-◌, ◌<◌, ◌++◌, length, map, IfOk, OnOk};
ghost use Rattle.gix_revwalk.specs.Held.{entry_of};
ghost use Rattle.gix_commitgraph.specs.ChainCommits.{entry_in, id_in};
ghost use Rattle.gix_commitgraph.specs.FileCommits.{edge_list, others, parents_at, entry_of_row, row_word};
ghost use Rattle.gix_commitgraph.specs.FileChecks.{IsSound, IsSoundIn};

use crate::commit_graph::check::{HIGH, NONE};
use crate::commit_graph::layout::Layout;
use crate::row;
use gix_base::hash::ObjectId;
use gix_ids::{id_at, word_at};
use gix_revwalk::graph::SourceCommit;
use std::alloc::{AllocError, Allocator};

/// Returns the id at position `p` of a chain, if `below` are the ids of the files below this one.
fn id_in(bytes: &[u8], l: Layout, below: &[ObjectId], p: usize) -> ObjectId
    requires sound { IsSoundIn bytes.now l (length below.now + l.table.count) }
    requires here { p < length below.now + l.table.count }
    ensures { result ≡ id_in below.now bytes.now l p }
{
    match below.get(p) {
        Some(id) => *id,
        None => id_at(bytes, l.table.ids + 20 * (p - below.len())),
    }
}

/// Appends to `ids` the ids of the list in `EDGE` that begins at its number `start`.
fn add_edges<A: Allocator>(
    bytes: &[u8],
    l: Layout,
    below: &[ObjectId],
    start: usize,
    ids: &mut Vec<ObjectId, A>,
) -> Result<(), AllocError>
    requires { IsSoundIn bytes.now l (length below.now + l.table.count) }
    ensures { OnOk result (ids.new.items ≡ ids.old.items ++ map (id_in below.now bytes.now l) (edge_list bytes.now l start (l.edge_count - start))) }
{
    for k in start..l.edge_count {
        let edge = word_at(bytes, l.edges + 4 * k);
        ids.push(id_in(bytes, l, below, edge % HIGH))?;
        if edge >= HIGH {
            return Ok(());
        }
    }
    Ok(())
}

/// Appends to `ids` the ids of the second and further parents of the commit at position `i`.
fn add_others<A: Allocator>(
    bytes: &[u8],
    l: Layout,
    below: &[ObjectId],
    i: usize,
    ids: &mut Vec<ObjectId, A>,
) -> Result<(), AllocError>
    requires sound { IsSoundIn bytes.now l (length below.now + l.table.count) }
    requires here { i < l.table.count }
    ensures { OnOk result (ids.new.items ≡ ids.old.items ++ map (id_in below.now bytes.now l) (others bytes.now l (row_word bytes.now l i 24))) }
{
    let second = word_at(bytes, l.rows + 36 * i + 24);
    if second == NONE {
        return Ok(());
    }
    if second >= HIGH {
        return add_edges(bytes, l, below, second - HIGH, ids);
    }
    ids.push(id_in(bytes, l, below, second))?;
    Ok(())
}

/// Reads the ids of the parents of the commit at position `i`.
fn parents<A: Allocator>(
    bytes: &[u8],
    l: Layout,
    below: &[ObjectId],
    i: usize,
    alloc: A,
) -> Result<Vec<ObjectId, A>, AllocError>
    requires sound { IsSoundIn bytes.now l (length below.now + l.table.count) }
    requires here { i < l.table.count }
    ensures { IfOk result (λ ids. ids.items ≡ map (id_in below.now bytes.now l) (parents_at bytes.now l i)) }
{
    let mut ids = Vec::new(alloc);
    let first = word_at(bytes, l.rows + 36 * i + 20);
    if first == NONE {
        return Ok(ids);
    }
    ids.push(id_in(bytes, l, below, first))?;
    add_others(bytes, l, below, i, &mut ids)?;
    Ok(ids)
}

/// Reads the commit at position `i` of a file of a chain, in the memory of `alloc`. The ids of the
/// files below are `below`.
pub(crate) fn commit_in<A: Allocator>(
    bytes: &[u8],
    l: Layout,
    below: &[ObjectId],
    i: usize,
    alloc: A,
) -> Result<SourceCommit<A>, AllocError>
    requires sound { IsSoundIn bytes.now l (length below.now + l.table.count) }
    requires here { i < l.table.count }
    ensures { IfOk result (λ commit. entry_of commit ≡ entry_in below.now bytes.now l i) }
{
    let high = word_at(bytes, l.rows + 36 * i + 28) as u32;
    let low = word_at(bytes, l.rows + 36 * i + 32) as u32;
    Ok(SourceCommit {
        parents: parents(bytes, l, below, i, alloc)?,
        time: row::date(high, low),
        generation: Some(row::level(high)),
    })
}

/// Reads the commit at position `i` of a file that is not above others, in the memory of `alloc`.
pub(crate) fn commit_at<A: Allocator>(
    bytes: &[u8],
    l: Layout,
    i: usize,
    alloc: A,
) -> Result<SourceCommit<A>, AllocError>
    requires sound { IsSound bytes.now l }
    requires here { i < l.table.count }
    ensures { IfOk result (λ commit. entry_of commit ≡ entry_of_row bytes.now l i) }
{
    commit_in(bytes, l, &[], i, alloc)
}
