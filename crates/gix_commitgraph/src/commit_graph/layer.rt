//! Checks a file of a chain that is above others, and reads its commits.

ghost use Rattle.std.specs.Prelude.{◌≡◌, ◌↔◌, ℕ, ◌+◌, ◌<◌, ◌≤◌, ◌^◌, ◌++◌, None, Some, length, IfErr, IfSome, IsNone, IsTrue, OnOk, OnSome, if◌then◌else◌};
ghost use Rattle.std.specs.Option.{option_map};
ghost use Rattle.gix_base.specs.declared.hash.ObjectId.{ObjectId};
ghost use Rattle.gix_revwalk.specs.History.{Entry, Has, entry_at, same_id};
ghost use Rattle.gix_ids.specs.TableForm.{IsInside, id_of};
ghost use Rattle.gix_ids.specs.TableIds.{rows_from, rows_in};
ghost use Rattle.gix_commitgraph.specs.ChainCommits.{entry_in, ids_of};
ghost use Rattle.gix_commitgraph.specs.ChainSteps.{IsTwice};
ghost use Rattle.gix_commitgraph.specs.ChainFormat.{IsLayer, IsOver, chunk_bytes, hash_of};
ghost use Rattle.gix_commitgraph.specs.FileChecks.{IsSoundIn};
ghost use Rattle.gix_commitgraph.specs.FileChunks.{chunk_at, layout_of};
ghost use Rattle.gix_commitgraph.specs.FileFormat.{HasHeader, HasTable};
ghost use Rattle.gix_commitgraph.specs.NewerCommits.{in_file};

use crate::commit_graph::check::check;
use crate::commit_graph::commit::commit_in;
use crate::commit_graph::joined::Commits;
use crate::commit_graph::layout::{Layout, find_chunk, read_layout};
use crate::commit_graph::trailer::hash_is_right;
use gix_base::hash::ObjectId;
use gix_ids::{Table, id_at};
use gix_revwalk::graph::{Insert, InsertError};
use std::alloc::{AllocError, Allocator};

/// The chunk id `BASE`.
const BASE: usize = 0x4241_5345;

/// Why a file is not added to a chain.
#[derive(Clone, Copy, Debug, PartialEq, Eq, Drop)]
pub(crate) enum Unfit {
    /// A commit of the file is in a file below, or twice in the file.
    Twice,
    OutOfMemory,
}

/// Returns whether the chunk `BASE` has these bytes.
fn has_bases(bytes: &[u8], hashes: &[u8]) -> bool
    requires header { HasHeader bytes.now }
    requires table { HasTable bytes.now }
    ensures { IsTrue result ↔ (option_map (chunk_bytes bytes.now) (chunk_at bytes.now BASE) ≡ Some hashes.now) }
{
    match find_chunk(bytes, BASE) {
        Some(chunk) => &bytes[chunk.start..chunk.end] == hashes,
        None => false,
    }
}

/// Returns whether the base graphs of the file are those with these hashes, one after another.
fn is_over(bytes: &[u8], hashes: &[u8]) -> bool
    requires header { HasHeader bytes.now }
    requires table { HasTable bytes.now }
    ensures { IsTrue result ↔ IsOver hashes.now bytes.now }
{
    20 * bytes[7] as usize == hashes.len() && has_bases(bytes, hashes)
}

/// Checks all of a file above those with these hashes, which have `below` commits in all. Finds its
/// chunks.
pub(crate) fn read_layer(bytes: &[u8], hashes: &[u8], below: usize) -> Option<Layout>
    requires { below < 2 ^ 63 }
    ensures value { IfSome result (λ l. l ≡ layout_of bytes.now) }
    ensures sound { IfSome result (λ l. IsSoundIn bytes.now l (below + l.table.count)) }
    ensures layer { OnSome result (IsLayer hashes.now below bytes.now) }
    ensures none { IsNone result → ¬ IsLayer hashes.now below bytes.now }
{
    let Ok(layout) = read_layout(bytes) else {
        return None;
    };
    if !is_over(bytes, hashes) || !hash_is_right(bytes) {
        return None;
    }
    match check(bytes, layout, below + layout.table.count) {
        Ok(()) => Some(layout),
        Err(_) => None,
    }
}

/// Appends the ids of the table to `ids`.
pub(crate) fn add_ids<A: Allocator>(
    bytes: &[u8],
    t: Table,
    ids: &mut Vec<ObjectId, A>,
) -> Result<(), AllocError>
    requires { IsInside bytes.now t }
    ensures { OnOk result ((f : ℕ → Entry) → ids.new.items ≡ ids.old.items ++ ids_of (rows_in bytes.now t f)) }
{
    for i in 0..t.count {
        ids.push(id_at(bytes, t.ids + 20 * i))?;
    }
    Ok(())
}

/// Inserts the commit at position `i` into `commits`. The ids of the files below are `below`.
fn insert_row<A: Allocator + Copy>(
    bytes: &[u8],
    l: Layout,
    below: &[ObjectId],
    i: usize,
    alloc: A,
    commits: &mut Commits<A>,
) -> Result<(), Unfit>
    requires sound { IsSoundIn bytes.now l (length below.now + l.table.count) }
    requires here { i < l.table.count }
    ensures new { OnOk result (entry_at (in_file commits.old.file ++ commits.old.newer) (id_of bytes.now l.table i) ≡ None) }
    ensures put { OnOk result ((q : ObjectId) → entry_at (in_file commits.new.file ++ commits.new.newer) q
        ≡ (if same_id (id_of bytes.now l.table i) q then Some (entry_in below.now bytes.now l i)
        else entry_at (in_file commits.old.file ++ commits.old.newer) q)) }
    ensures file { commits.new.file ≡ commits.old.file }
    ensures twice { IfErr result (λ e. e ≡ Unfit.Twice
        → Has (in_file commits.old.file ++ commits.old.newer) (id_of bytes.now l.table i)) }
{
    let id = id_at(bytes, l.table.ids + 20 * i);
    let Ok(commit) = commit_in(bytes, l, below, i, alloc) else {
        return Err(Unfit::OutOfMemory);
    };
    match commits.insert(id, commit) {
        Ok(()) => Ok(()),
        Err(InsertError::AlreadyThere(_)) => Err(Unfit::Twice),
        Err(InsertError::OutOfMemory(_)) => Err(Unfit::OutOfMemory),
    }
}

/// Inserts all commits of a file into `commits`. The ids of the files below are `below`.
pub(crate) fn insert_rows<A: Allocator + Copy>(
    bytes: &[u8],
    l: Layout,
    below: &[ObjectId],
    alloc: A,
    commits: &mut Commits<A>,
) -> Result<(), Unfit>
    requires { IsSoundIn bytes.now l (length below.now + l.table.count) }
    ensures put { OnOk result ((q : ObjectId) → entry_at (in_file commits.new.file ++ commits.new.newer) q
        ≡ entry_at ((in_file commits.old.file ++ commits.old.newer)
        ++ rows_in bytes.now l.table (entry_in below.now bytes.now l)) q) }
    ensures fresh { OnOk result ((i : ℕ) → i < l.table.count
        → entry_at ((in_file commits.old.file ++ commits.old.newer)
        ++ rows_from bytes.now l.table (entry_in below.now bytes.now l) 0 i) (id_of bytes.now l.table i) ≡ None) }
    ensures file { commits.new.file ≡ commits.old.file }
    ensures twice { IfErr result (λ e. e ≡ Unfit.Twice
        → IsTwice (in_file commits.old.file ++ commits.old.newer) bytes.now l.table (entry_in below.now bytes.now l)) }
{
    for i in 0..l.table.count {
        insert_row(bytes, l, below, i, alloc, commits)?;
    }
    Ok(())
}

/// Appends the trailing hash of a file to `hashes`.
pub(crate) fn add_hash<A: Allocator>(
    bytes: &[u8],
    hashes: &mut Vec<u8, A>,
) -> Result<(), AllocError>
    requires { 20 ≤ length bytes.now }
    ensures { OnOk result (hashes.new.items ≡ hashes.old.items ++ hash_of bytes.now) }
{
    hashes.extend_from_slice(&bytes[bytes.len() - 20..])?;
    Ok(())
}
