//! Checks the commits of a file when it is opened.

ghost use Rattle.std.specs.Prelude.{◌≡◌, ℕ, ◌+◌, ◌-◌, ◌*◌, ◌%◌, ◌^◌, ◌≤◌, ◌<◌, length, OnOk, IfErr, IfOk};
ghost use Rattle.gix_ids.specs.TableForm.{IsInside, IsSorted};
ghost use Rattle.gix_commitgraph.specs.FileCommits.{row_word, edge_word, edge_list};
ghost use Rattle.gix_commitgraph.specs.FileChecks.{Fits, HasParents, NamesCommit, EndsBefore, IsSoundIn};
ghost use Rattle.gix_commitgraph.specs.FileLists.{IsFree};
ghost use Rattle.gix_commitgraph.specs.FileRefused.{IsWrong};

use crate::commit_graph::fault::OpenFault;
use crate::commit_graph::layout::Layout;
use gix_ids::{TableFault, word_at};

/// The number in `CDAT` that stands for no parent.
pub(crate) const NONE: usize = 0x7000_0000;
/// The bit that is set in a second parent that is a place in `EDGE`, and in the last number of a
/// list there.
pub(crate) const HIGH: usize = 0x8000_0000;

/// Checks the fanout table and the ids.
fn check_ids(bytes: &[u8], l: Layout, limit: usize) -> Result<(), OpenFault>
    requires { IsInside bytes.now l.table }
    ensures sorted { OnOk result (IsSorted bytes.now l.table) }
    ensures wrong { IfErr result (IsWrong bytes.now l limit) }
{
    match gix_ids::check(bytes, l.table) {
        Ok(()) => Ok(()),
        Err(TableFault::Fanout) => Err(OpenFault::Fanout),
        Err(TableFault::IdPlace) => Err(OpenFault::IdPlace),
        Err(TableFault::IdOrder) => Err(OpenFault::IdOrder),
    }
}

/// Checks that the positions of the parents of the commit at position `i` are less than `limit`, or
/// that the second is a list in `EDGE`.
fn check_parents(bytes: &[u8], l: Layout, limit: usize, i: usize) -> Result<(), OpenFault>
    requires fits { Fits bytes.now l }
    requires here { i < l.table.count }
    ensures sound { OnOk result (HasParents bytes.now l limit i) }
    ensures wrong { IfErr result (IsWrong bytes.now l limit) }
{
    let first = word_at(bytes, l.rows + 36 * i + 20);
    if first != NONE && limit <= first {
        return Err(OpenFault::Parent);
    }
    let second = word_at(bytes, l.rows + 36 * i + 24);
    if second >= HIGH {
        if l.edge_count <= second - HIGH {
            return Err(OpenFault::Parent);
        }
    } else if second != NONE && limit <= second {
        return Err(OpenFault::Parent);
    }
    Ok(())
}

/// Checks the positions of the parents of every commit.
fn check_all_parents(bytes: &[u8], l: Layout, limit: usize) -> Result<(), OpenFault>
    requires { Fits bytes.now l }
    ensures sound { OnOk result ((i : ℕ) → i < l.table.count → HasParents bytes.now l limit i) }
    ensures wrong { IfErr result (IsWrong bytes.now l limit) }
{
    for i in 0..l.table.count {
        check_parents(bytes, l, limit, i)?;
    }
    Ok(())
}

/// Checks that every number of `EDGE` is less than `limit`, but for its highest bit.
fn check_edges(bytes: &[u8], l: Layout, limit: usize) -> Result<(), OpenFault>
    requires { Fits bytes.now l }
    ensures sound { OnOk result ((k : ℕ) → k < l.edge_count → NamesCommit bytes.now l limit k) }
    ensures wrong { IfErr result (IsWrong bytes.now l limit) }
{
    for k in 0..l.edge_count {
        if limit <= word_at(bytes, l.edges + 4 * k) % HIGH {
            return Err(OpenFault::EdgeParent);
        }
    }
    Ok(())
}

/// Checks that the last list of `EDGE` ends.
fn check_end(bytes: &[u8], l: Layout, limit: usize) -> Result<(), OpenFault>
    requires { Fits bytes.now l }
    ensures sound { OnOk result (0 < l.edge_count → 2 ^ 31 ≤ edge_word bytes.now l (l.edge_count - 1)) }
    ensures wrong { IfErr result (IsWrong bytes.now l limit) }
{
    if l.edge_count > 0 && word_at(bytes, l.edges + 4 * (l.edge_count - 1)) < HIGH {
        return Err(OpenFault::EdgeEnd);
    }
    Ok(())
}

/// Returns the place in `EDGE` after the list that begins at `start`.
fn list_end(bytes: &[u8], l: Layout, start: usize) -> usize
    requires fits { Fits bytes.now l }
    requires inside { start ≤ l.edge_count }
    ensures { result ≡ start + length (edge_list bytes.now l start (l.edge_count - start)) }
{
    for k in start..l.edge_count {
        if word_at(bytes, l.edges + 4 * k) >= HIGH {
            return k + 1;
        }
    }
    l.edge_count
}

/// Checks that the list of the commit at position `i`, if it has one, begins at place `free` of
/// `EDGE` or later. Returns the place after the list, or `free` if there is none.
fn check_list(
    bytes: &[u8],
    l: Layout,
    limit: usize,
    i: usize,
    free: usize,
) -> Result<usize, OpenFault>
    requires fits { Fits bytes.now l }
    requires here { i < l.table.count }
    requires parents { HasParents bytes.now l limit i }
    requires free { IsFree bytes.now l i free }
    ensures sound { OnOk result ((j : ℕ) → j < i → EndsBefore bytes.now l j i) }
    ensures next { IfOk result (IsFree bytes.now l (i + 1)) }
    ensures wrong { IfErr result (IsWrong bytes.now l limit) }
{
    let second = word_at(bytes, l.rows + 36 * i + 24);
    if second < HIGH {
        return Ok(free);
    }
    if second - HIGH < free {
        return Err(OpenFault::EdgeOrder);
    }
    Ok(list_end(bytes, l, second - HIGH))
}

/// Checks that the lists in `EDGE` are in the order of their commits, and that no two overlap.
/// Reads each number of `EDGE` at most once.
fn check_lists(bytes: &[u8], l: Layout, limit: usize) -> Result<(), OpenFault>
    requires fits { Fits bytes.now l }
    requires parents { (i : ℕ) → i < l.table.count → HasParents bytes.now l limit i }
    ensures sound { OnOk result ((i j : ℕ) → i < j → j < l.table.count → EndsBefore bytes.now l i j) }
    ensures wrong { IfErr result (IsWrong bytes.now l limit) }
{
    let mut free = 0;
    for i in 0..l.table.count {
        free = check_list(bytes, l, limit, i, free)?;
    }
    Ok(())
}

/// Checks the fanout table, the ids, `EDGE`, and that the positions of parents are less than `limit`.
pub(crate) fn check(bytes: &[u8], l: Layout, limit: usize) -> Result<(), OpenFault>
    requires inside { IsInside bytes.now l.table }
    requires fits { Fits bytes.now l }
    ensures sound { OnOk result (IsSoundIn bytes.now l limit) }
    ensures wrong { IfErr result (IsWrong bytes.now l limit) }
{
    check_ids(bytes, l, limit)?;
    check_all_parents(bytes, l, limit)?;
    check_edges(bytes, l, limit)?;
    check_end(bytes, l, limit)?;
    check_lists(bytes, l, limit)
}
