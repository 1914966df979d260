//! Checks that each commit's level is greater than those of its parents.

ghost use Rattle.std.specs.Prelude.{◌≡◌, ℕ, ◌-◌, ◌^◌, ◌<◌, IsTrue, true, false};
ghost use Rattle.std.specs.List.{list_all};
ghost use Rattle.gix_commitgraph.specs.FileCommits.{edge_list, level_at, others};
ghost use Rattle.gix_commitgraph.specs.FileLevels.{is_lower, is_above};
ghost use Rattle.gix_commitgraph.specs.FileChecks.{IsSound};

use crate::commit_graph::check::{HIGH, NONE};
use crate::commit_graph::layout::Layout;
use crate::row;
use gix_ids::word_at;

/// Reads the level of the commit at position `i`.
fn level(bytes: &[u8], l: Layout, i: usize) -> usize
    requires sound { IsSound bytes.now l }
    requires here { i < l.table.count }
    ensures value { result ≡ level_at bytes.now l i }
    ensures bound { result < 2 ^ 30 }
{
    row::level(word_at(bytes, l.rows + 36 * i + 28) as u32) as usize
}

/// Returns whether `p` is the position of a commit whose level is less than `limit`.
fn is_lower(bytes: &[u8], l: Layout, limit: usize, p: usize) -> bool
    requires { IsSound bytes.now l }
    ensures { result ≡ is_lower bytes.now l limit p }
{
    p < l.table.count && level(bytes, l, p) < limit
}

/// Returns whether all commits of the list in `EDGE` at `start` have levels less than `limit`.
fn are_lower(bytes: &[u8], l: Layout, limit: usize, start: usize) -> bool
    requires { IsSound bytes.now l }
    ensures { result ≡ list_all (is_lower bytes.now l limit) (edge_list bytes.now l start (l.edge_count - start)) }
{
    for k in start..l.edge_count {
        let edge = word_at(bytes, l.edges + 4 * k);
        if !is_lower(bytes, l, limit, edge % HIGH) {
            return false;
        }
        if edge >= HIGH {
            return true;
        }
    }
    true
}

/// Returns whether the second and further parents have levels less than `limit`.
fn others_lower(bytes: &[u8], l: Layout, limit: usize, second: usize) -> bool
    requires { IsSound bytes.now l }
    ensures { result ≡ list_all (is_lower bytes.now l limit) (others bytes.now l second) }
{
    if second == NONE {
        return true;
    }
    if second >= HIGH {
        return are_lower(bytes, l, limit, second - HIGH);
    }
    is_lower(bytes, l, limit, second)
}

/// Returns whether the commit at position `i` has a level, and its parents have lesser ones.
fn is_above(bytes: &[u8], l: Layout, i: usize) -> bool
    requires sound { IsSound bytes.now l }
    requires here { i < l.table.count }
    ensures value { result ≡ is_above bytes.now l i }
    ensures bound { level_at bytes.now l i < 2 ^ 30 }
{
    let own = level(bytes, l, i);
    if own == 0 {
        return false;
    }
    let first = word_at(bytes, l.rows + 36 * i + 20);
    if first == NONE {
        return true;
    }
    let second = word_at(bytes, l.rows + 36 * i + 24);
    is_lower(bytes, l, own, first) && others_lower(bytes, l, own, second)
}

/// Returns whether every commit has a level, and its parents have lesser ones.
pub(crate) fn fall(bytes: &[u8], l: Layout) -> bool
    requires { IsSound bytes.now l }
    ensures each { IsTrue result → (i : ℕ) → i < l.table.count → is_above bytes.now l i ≡ true }
    ensures bounds { IsTrue result → (i : ℕ) → i < l.table.count → level_at bytes.now l i < 2 ^ 30 }
    ensures one { result ≡ false → (i : ℕ) × (i < l.table.count) × (is_above bytes.now l i ≡ false) }
{
    for i in 0..l.table.count {
        if !is_above(bytes, l, i) {
            return false;
        }
    }
    true
}
