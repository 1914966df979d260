//! Counts, for each candidate, the queued commits that do not have its mark.

ghost use Rattle.std.specs.Prelude.{◌≡◌, ◌<◌, ◌≤◌, ◌+◌, ◌-◌, ℕ, OnOk, length, slice_index};
ghost use Rattle.std.specs.Int.{bit_at};
ghost use Rattle.gix_describe.specs.Lacking.{lacks};

use std::alloc::{AllocError, Allocator};

/// Returns the bit at a place.
#[inline(always)]
pub(crate) fn bit_of(marks: u32, place: usize) -> u32
    requires few { place < 32 }
    ensures { result ≡ bit_at marks place }
{
    (marks >> place) & 1
}

/// Returns 1 if the mark of a place is missing, and otherwise 0.
#[inline(always)]
fn lack_of(marks: u32, place: usize) -> usize
    requires few { place < 32 }
    ensures { result ≡ lacks place marks }
{
    1 - bit_of(marks, place) as usize
}

/// Records that a commit with these marks is queued.
///
/// # Errors
///
/// A count is full.
#[inline(always)]
pub(crate) fn enter<A: Allocator>(lacking: &mut Vec<usize, A>, marks: u32) -> Result<(), AllocError>
    requires few { length lacking.old.items ≤ 32 }
    ensures len { length lacking.new.items ≡ length lacking.old.items }
    ensures entered { OnOk result ((k : ℕ) → k < length lacking.old.items
        → slice_index lacking.new.items k ≡ slice_index lacking.old.items k + lacks k marks) }
{
    for i in 0..lacking.len() {
        let Some(count) = lacking[i].checked_add(lack_of(marks, i)) else {
            return Err(AllocError);
        };
        lacking[i] = count;
    }
    Ok(())
}

/// Records that a queued commit with the marks `old` gets `marks` as well.
#[inline(always)]
pub(crate) fn gain<A: Allocator>(lacking: &mut Vec<usize, A>, old: u32, marks: u32)
    requires few { length lacking.old.items ≤ 32 }
    ensures len { length lacking.new.items ≡ length lacking.old.items }
    ensures gained { (k : ℕ) → k < length lacking.old.items
        → slice_index lacking.new.items k ≡ slice_index lacking.old.items k - (lacks k old - lacks k marks) }
{
    if old | marks == old {
        return;
    }
    for i in 0..lacking.len() {
        let gained = lack_of(old, i).saturating_sub(lack_of(marks, i));
        lacking[i] = lacking[i].saturating_sub(gained);
    }
}

/// Records that a commit with these marks has left the queue.
#[inline(always)]
pub(crate) fn leave<A: Allocator>(lacking: &mut Vec<usize, A>, marks: u32)
    requires few { length lacking.old.items ≤ 32 }
    ensures len { length lacking.new.items ≡ length lacking.old.items }
    ensures left { (k : ℕ) → k < length lacking.old.items
        → slice_index lacking.new.items k ≡ slice_index lacking.old.items k - lacks k marks }
{
    for i in 0..lacking.len() {
        lacking[i] = lacking[i].saturating_sub(lack_of(marks, i));
    }
}
