//! Checks a fanout table and the ids that it counts.

ghost use Rattle.std.specs.Prelude.{◌≡◌, ℕ, ◌+◌, ◌<◌, ◌≤◌, OnOk, IfErr, length};
ghost use Rattle.gix_ids.specs.declared.fault.TableFault.TheVariants.{Fanout};
ghost use Rattle.gix_ids.specs.TableForm.{IsInside, Fans, fan_below, IsFanned, Rises, IsSorted, IsWrong};

use crate::bytes::{id_at, word_at};
use crate::fault::TableFault;
use std::cmp::Ordering;

/// Where a fanout table and its ids begin in a file, and how many ids there are.
#[derive(Clone, Copy)]
pub struct Table {
    pub count: usize,
    pub fanout: usize,
    pub ids: usize,
}

/// Counts the ids whose first byte is less than `b`, by the fanout table.
pub fn below(bytes: &[u8], t: Table, b: u8) -> usize
    // The fanout table is inside `bytes`.
    requires { t.fanout + 1024 ≤ length bytes.now }

    // The answer is the number of ids whose first byte is less than `b`, by the fanout table.
    ensures { result ≡ fan_below bytes.now t b }
{
    if b == 0 {
        0
    } else {
        word_at(bytes, t.fanout + 4 * (b as usize - 1))
    }
}

/// Checks that the fanout table never falls and never exceeds the number of ids.
pub fn check_fanout(bytes: &[u8], t: Table) -> Result<(), TableFault>
    // The fanout table is inside `bytes`.
    requires { t.fanout + 1024 ≤ length bytes.now }

    // After a success, the fanout table never falls, and never exceeds the number of ids.
    ensures fans { OnOk result ((b : ℕ) → b < 256 → Fans bytes.now t b) }

    // After an error, the table has this fault (`IsWrong`).
    ensures wrong { IfErr result (IsWrong bytes.now t) }

    // The only error is `Fanout`.
    ensures fault { IfErr result (λ fault. fault ≡ Fanout) }
{
    let mut last = 0;
    for b in 0..256 {
        let next = word_at(bytes, t.fanout + 4 * b);
        if next < last || t.count < next {
            return Err(TableFault::Fanout);
        }
        last = next;
    }
    Ok(())
}

/// Checks that the id at position `i` is where the fanout table says.
fn check_place(bytes: &[u8], t: Table, i: usize) -> Result<(), TableFault>
    requires inside { IsInside bytes.now t }
    requires here { i < t.count }
    ensures fanned { OnOk result (IsFanned bytes.now t i) }
    ensures wrong { IfErr result (IsWrong bytes.now t) }
{
    let b = bytes[t.ids + 20 * i];
    if i < below(bytes, t, b) || word_at(bytes, t.fanout + 4 * b as usize) <= i {
        return Err(TableFault::IdPlace);
    }
    Ok(())
}

/// Checks that every id is where the fanout table says.
fn check_places(bytes: &[u8], t: Table) -> Result<(), TableFault>
    requires { IsInside bytes.now t }
    ensures fanned { OnOk result ((i : ℕ) → i < t.count → IsFanned bytes.now t i) }
    ensures wrong { IfErr result (IsWrong bytes.now t) }
{
    for i in 0..t.count {
        check_place(bytes, t, i)?;
    }
    Ok(())
}

/// Checks that the id after position `i` is greater than the one at `i`.
fn check_next(bytes: &[u8], t: Table, i: usize) -> Result<(), TableFault>
    requires inside { IsInside bytes.now t }
    requires here { i + 1 < t.count }
    ensures rises { OnOk result (Rises bytes.now t i) }
    ensures wrong { IfErr result (IsWrong bytes.now t) }
{
    match id_at(bytes, t.ids + 20 * i).cmp(&id_at(bytes, t.ids + 20 * (i + 1))) {
        Ordering::Less => Ok(()),
        _ => Err(TableFault::IdOrder),
    }
}

/// Checks that each id is greater than the one before it.
fn check_order(bytes: &[u8], t: Table) -> Result<(), TableFault>
    requires { IsInside bytes.now t }
    ensures rises { OnOk result ((i : ℕ) → i + 1 < t.count → Rises bytes.now t i) }
    ensures wrong { IfErr result (IsWrong bytes.now t) }
{
    for i in 1..t.count {
        check_next(bytes, t, i - 1)?;
    }
    Ok(())
}

/// Checks the fanout table and all ids.
pub fn check(bytes: &[u8], t: Table) -> Result<(), TableFault>
    // The fanout table and the ids are inside `bytes`.
    requires { IsInside bytes.now t }

    // After a success, the fanout table and the ids are as a look-up needs them (`IsSorted`).
    ensures sorted { OnOk result (IsSorted bytes.now t) }

    // After an error, the table has this fault (`IsWrong`).
    ensures wrong { IfErr result (IsWrong bytes.now t) }
{
    check_fanout(bytes, t)?;
    check_places(bytes, t)?;
    check_order(bytes, t)
}
