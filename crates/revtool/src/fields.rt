//! Reads the fields of a line, which are separated by exactly one space.

ghost use Rattle.std.specs.Prelude.{◌≡◌, ◌≢◌, ◌↔◌, ◌∷◌, ℕ, IsSome, IfSome, Some, None, codes, slice_index};
ghost use Rattle.std.specs.Option.{option_copied};
ghost use Rattle.std.specs.Str.{IsUtf8};
ghost use Rattle.std.specs.Str.Parse.{digits_value, signed_digits_value};
ghost use Rattle.revtool.specs.Fields.{fields_of, fields_of_rest};
ghost use Rattle.revtool.specs.Numbers.{IsTime, IsNumber};

use bstr::ByteSlice;
use gix_revision::graph::InsertError;
use gix_revision::hash::ObjectId;
use std::alloc::{AllocError, AllocFailed, Allocator};

/// Why a line was not read.
#[derive(Clone, Copy)]
pub(crate) enum LineFault {
    Unreadable,
    OutOfMemory,
}

impl From<AllocError> for LineFault {
    fn from(_error: AllocError) -> LineFault {
        LineFault::OutOfMemory
    }
}

impl<T: Drop> From<AllocFailed<T>> for LineFault {
    fn from(_error: AllocFailed<T>) -> LineFault {
        LineFault::OutOfMemory
    }
}

impl<A: Allocator> From<InsertError<A>> for LineFault {
    fn from(error: InsertError<A>) -> LineFault {
        match error {
            InsertError::AlreadyThere(_) => LineFault::Unreadable,
            InsertError::OutOfMemory(_) => LineFault::OutOfMemory,
        }
    }
}

/// The number of digits of an id.
pub(crate) const ID_DIGITS: usize = 40;

/// The fields of a line that were not taken yet. The last field has no space after it.
#[derive(Clone, Copy)]
pub(crate) struct Fields<'t> {
    left: Option<&'t [u8]>,
}

impl<'t> Fields<'t> {
    /// Makes an iterator over all fields of a line.
    pub(crate) fn of(line: &'t [u8]) -> Fields<'t> {
        Fields { left: Some(line) }
    }

    /// Returns the rest of the line as one text, or `None` if the last field was taken.
    pub(crate) fn rest(self) -> Option<&'t [u8]> {
        self.left
    }

    /// Checks that no field is left.
    pub(crate) fn end(self) -> Result<(), LineFault> {
        match self.left {
            None => Ok(()),
            Some(_) => Err(LineFault::Unreadable),
        }
    }

    /// Takes the next field. A missing field is an error.
    pub(crate) fn take_field(&mut self) -> Result<&'t [u8], LineFault> {
        match self.next() {
            Some(field) => Ok(field),
            None => Err(LineFault::Unreadable),
        }
    }

    /// Takes the next field as an id.
    pub(crate) fn take_id(&mut self) -> Result<ObjectId, LineFault> {
        read_id(self.take_field()?)
    }

    /// Returns how many fields are left, if each of them is an id.
    fn id_count(&self) -> usize {
        match self.left {
            None => 0,
            Some(left) => (left.len() / (ID_DIGITS + 1)).saturating_add(1),
        }
    }

    /// Takes all fields that are left as ids; there may be none. The list has no more room than it
    /// needs.
    pub(crate) fn take_ids<A: Allocator>(self, alloc: A) -> Result<Vec<ObjectId, A>, LineFault> {
        let mut ids = Vec::with_capacity(alloc, self.id_count())?;
        for field in self {
            ids.push(read_id(field)?)?;
        }
        Ok(ids)
    }
}

impl<'t> Iterator for Fields<'t> {
    ghost use Rattle.std.specs.Iterator.{YieldsFirstRef, item_count};
    ghost use Rattle.revtool.specs.Left.{left_of};

    type Item = &'t [u8];

    ghost next_gives = { YieldsFirstRef left_of };

    ghost remaining = { item_count left_of };

    fn next(&mut self) -> Option<&'t [u8]> {
        let (field, left) = split_field(self.left.take()?);
        self.left = left;
        Some(field)
    }
}

/// Splits off the first field of a line. Also returns what follows the space after it, if there is
/// one.
fn split_field<'t>(line: &'t [u8]) -> (&'t [u8], Option<&'t [u8]>)
    // The fields of the line are the first part of the answer, and then those of the second part,
    // if there is one.
    ensures { fields_of line.now ≡ result.0.now ∷ fields_of_rest (option_copied result.1) }
{
    match line.find_byte(b' ') {
        Some(place) => (&line[..place], Some(&line[place + 1..])),
        None => (line, None),
    }
}

/// Reads an id: 40 hex digits, in upper or lower case.
pub(crate) fn read_id(field: &[u8]) -> Result<ObjectId, LineFault> {
    match ObjectId::from_hex(field) {
        Ok(id) => Ok(id),
        Err(_) => Err(LineFault::Unreadable),
    }
}

/// Reads a time: digits after an optional minus sign, of a number that fits into an `i64`.
pub(crate) fn read_time(field: &[u8]) -> Option<i64>
    // The answer has a time exactly if the field is one (`IsTime`).
    ensures some { IsSome result ↔ IsTime field.now }

    // The time is the number that the digits mean, with the sign.
    ensures value { IfSome result (λ time. time ≡ signed_digits_value 10 field.now) }
{
    text_of(field)?.parse().ok()
}

/// Reads a generation: `-` for a missing one, or digits of a number that fits into a `u32`.
pub(crate) fn read_generation(field: &[u8]) -> Option<Option<u32>>
    // The generation number is missing exactly if the field is `-`.
    ensures absent { (result ≡ Some None) ↔ (field.now ≡ codes "-") }

    // The generation number is n exactly if the field is digits (`IsNumber`) that mean n.
    ensures number { (n : ℕ)
        → (result ≡ Some (Some n)) ↔ (IsNumber field.now × (n ≡ digits_value 10 field.now)) }
{
    match field {
        b"-" => Some(None),
        _ => Some(Some(read_number(field)?)),
    }
}

/// Reads the digits of a number that fits into a `u32`.
pub(crate) fn read_number(field: &[u8]) -> Option<u32>
    ensures some { IsSome result ↔ IsNumber field.now }
    ensures value { IfSome result (λ n. n ≡ digits_value 10 field.now) }
{
    text_of(field)?.parse().ok()
}

/// Returns the text of a field that does not begin with a plus sign, which `parse` would accept.
fn text_of(field: &[u8]) -> Option<&str>
    ensures some { IsSome result ↔ (IsUtf8 field.now × (slice_index field.now 0 ≢ 43)) }
    ensures value { IfSome result (λ text. text.now ≡ field.now) }
{
    if field.first() == Some(&b'+') {
        return None;
    }
    str::from_utf8(field).ok()
}
