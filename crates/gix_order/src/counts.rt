//! Counts how often commits are met.

ghost use Rattle.std.specs.Prelude.{◌≡◌, ℕ, ◌+◌, ◌-◌, ◌<◌, ◌↔◌, [], length, slice_index, slice_index_or, slice_set, IfOk, OnOk, IsTrue};
ghost use Rattle.gix_order.specs.Orders.{listed};
ghost use Rattle.gix_order.specs.Counts.{times_in, open_links};

use crate::commits::Commits;
use std::alloc::{AllocError, Global};

/// Adds one to the count of a commit, if it is in the list.
fn add_one(left: &mut Vec<usize>, place: usize) -> Result<(), AllocError>
    ensures { OnOk result (left.new.items
        ≡ slice_set left.old.items place (slice_index left.old.items place + 1)) }
{
    if place < left.len() {
        left[place] = left[place].checked_add(1).ok_or(AllocError)?;
    }
    Ok(())
}

/// Adds one to the count of each parent, as often as it is named.
fn add_all(left: &mut Vec<usize>, parents: &[usize]) -> Result<(), AllocError>
    ensures len { OnOk result (length left.new.items ≡ length left.old.items) }
    ensures sums { OnOk result ((p : ℕ) → p < length left.old.items
        → slice_index left.new.items p ≡ slice_index left.old.items p + times_in parents.now p) }
{
    for parent in parents {
        add_one(left, *parent)?;
    }
    Ok(())
}

/// Returns how often each commit is met: once, and once for each time that it is a parent.
pub(crate) fn meetings(alloc: Global, commits: &Commits) -> Result<Vec<usize>, AllocError>
    ensures len { IfOk result (λ left. length left.items ≡ (listed commits.now).count) }
    ensures links { IfOk result (λ left. (p : ℕ) → p < (listed commits.now).count
        → slice_index left.items p ≡ 1 + open_links (listed commits.now) [] p) }
{
    let mut left = Vec::new(alloc);
    left.resize(commits.len(), 1usize)?;
    for place in 0..commits.len() {
        add_all(&mut left, commits.parents(place))?;
    }
    Ok(left)
}

/// Takes one from the count of a commit. Returns whether it is in the list and none is left.
pub(crate) fn take_one(left: &mut Vec<usize>, place: usize) -> bool
    ensures after { left.new.items
        ≡ slice_set left.old.items place (slice_index left.old.items place - 1) }
    ensures last { IsTrue result ↔ (slice_index_or left.new.items place 1 ≡ 0) }
{
    if place >= left.len() {
        return false;
    }
    left[place] = left[place].saturating_sub(1);
    left[place] == 0
}
