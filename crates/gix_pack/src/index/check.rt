//! Checks an index when it is opened.

ghost use Rattle.std.specs.Prelude.{◌≡◌, ◌↔◌, ℕ, ◌+◌, ◌*◌, ◌^◌, ◌≤◌, ◌<◌, length, take, OnOk, IfOk, IfErr, IsOk};
ghost use Rattle.gix_pack.specs.IndexForm.{HasHeader, HasSize, HasOffset, IsIndex, IsFaulty, count_of, table_of, large_from, large_count, short_offset};

use crate::index::fault::OpenFault;
use crate::part::table_of;
use gix_ids::{Table, check, word_at};

/// Checks that bytes begin with the header of an index, and are enough for a fanout table.
pub(crate) fn check_header(bytes: &[u8]) -> Result<(), OpenFault>
    ensures header { IsOk result ↔ HasHeader bytes.now }
    ensures faulty { IfErr result (IsFaulty bytes.now) }
{
    if bytes.len() < 1032 {
        return Err(OpenFault::TooShort);
    }
    if &bytes[..4] != [0xff, 0x74, 0x4f, 0x63].as_slice() {
        return Err(OpenFault::Signature);
    }
    if word_at(bytes, 4) != 2 {
        return Err(OpenFault::Version);
    }
    Ok(())
}

/// Checks that the tables and the two hashes fill the file.
fn check_size(bytes: &[u8]) -> Result<(), OpenFault>
    requires { HasHeader bytes.now }
    ensures size { OnOk result (HasSize bytes.now) }
    ensures faulty { IfErr result (IsFaulty bytes.now) }
{
    let end = 1032 + 28 * word_at(bytes, 1028) + 40;
    if bytes.len() < end || (bytes.len() - end) % 8 != 0 {
        return Err(OpenFault::Size);
    }
    Ok(())
}

/// Checks that the index has the offset of the object at position `i`.
fn check_offset(bytes: &[u8], i: usize) -> Result<(), OpenFault>
    requires header { HasHeader bytes.now }
    requires size { HasSize bytes.now }
    requires here { i < count_of bytes.now }
    ensures offset { OnOk result (HasOffset bytes.now i) }
    ensures faulty { IfErr result (IsFaulty bytes.now) }
{
    let count = word_at(bytes, 1028);
    let short = word_at(bytes, 1032 + 24 * count + 4 * i);
    if short >= 0x8000_0000 && short - 0x8000_0000 >= (bytes.len() - (1072 + 28 * count)) / 8 {
        return Err(OpenFault::NoOffset);
    }
    Ok(())
}

/// Checks that the index has the offset of every object.
fn check_offsets(bytes: &[u8]) -> Result<(), OpenFault>
    requires header { HasHeader bytes.now }
    requires size { HasSize bytes.now }
    ensures offsets { OnOk result ((i : ℕ) → i < count_of bytes.now → HasOffset bytes.now i) }
    ensures faulty { IfErr result (IsFaulty bytes.now) }
{
    for i in 0..word_at(bytes, 1028) {
        check_offset(bytes, i)?;
    }
    Ok(())
}

/// Checks all of an index, and returns where its ids are.
pub(crate) fn read(bytes: &[u8]) -> Result<Table, OpenFault>
    ensures table { IfOk result (λ t. t ≡ table_of bytes.now) }
    ensures index { OnOk result (IsIndex bytes.now) }
    ensures faulty { IfErr result (IsFaulty bytes.now) }
{
    check_header(bytes)?;
    check_size(bytes)?;
    let table = table_of(bytes);
    check(bytes, table)?;
    check_offsets(bytes)?;
    Ok(table)
}
