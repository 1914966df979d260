//! Finds names in `packed-refs` by the places of its lines (gitrepository-layout, "packed-refs").

ghost use Rattle.std.specs.Prelude.{◌≡◌, None, IfOk, IfSome, IsTrue, true};
ghost use Rattle.std.specs.Option.{option_map};
ghost use Rattle.std.specs.Cmp.Lexicographic.{slice_cmp};
ghost use Rattle.std.specs.Ordering.{nat_cmp};
ghost use Rattle.gix_ref_text.specs.Packed.{packed_says};
ghost use Rattle.gix_ref_text.specs.Said.{packed_said};
ghost use Rattle.gix_ref_text.specs.Snapshot.{name_at, places_say, AreSorted, AreAll, SaysSorted, SaysSorted-prop};

use crate::lines::{bytes_from, cut};
use crate::packed::{Packed, first_record, first_told, without_header};
use std::alloc::{AllocError, Allocator};
use std::cmp::Ordering;

/// The bytes of `packed-refs`, as they were read once, and the places of its lines `ID NAME`.
#[derive(Drop)]
pub struct Snapshot<A: Allocator> {
    pub bytes: Vec<u8, A>,
    places: Vec<usize, A>,
    // Whether each name is greater than the one before it, in byte order.
    is_sorted: bool,
    ghost all: { AreAll bytes.items places.items },
    ghost sorted: { SaysSorted bytes.items places.items is_sorted } by { SaysSorted-prop bytes.items places.items is_sorted },
}

/// The places of lines `ID NAME`, and whether each name is greater than the one before it.
#[derive(Drop)]
struct Places<A: Allocator> {
    places: Vec<usize, A>,
    is_sorted: bool,
}

/// Returns the name in the line `ID NAME` at a place.
fn name_at(bytes: &[u8], place: usize) -> &[u8]
    ensures { result.now ≡ name_at bytes.now place }
{
    let (line, _) = cut(bytes_from(bytes, place), b'\n');
    bytes_from(line, 41)
}

/// Tests whether names that were sorted still are with one more.
fn still_sorted(is_sorted: bool, last: &[u8], name: &[u8]) -> bool
    ensures { IsTrue result → (is_sorted ≡ true) × (slice_cmp nat_cmp last.now name.now ≡ Ordering.Less) }
{
    is_sorted && last.cmp(name) == Ordering::Less
}

/// Returns the places of the lines `ID NAME`; `None` if the file has lines of another form.
///
/// The file may have a header. Each line `ID NAME` may have a line `^ID` behind it. If the header
/// says that the names are sorted, they are.
fn places_in<A: Allocator>(alloc: A, bytes: &[u8]) -> Result<Option<Places<A>>, AllocError>
    ensures all { IfOk result (λ o. IfSome o (λ p. AreAll bytes.now p.places.items)) }
    ensures sorted { IfOk result (λ o. IfSome o (λ p. SaysSorted bytes.now p.places.items p.is_sorted)) }
{
    let Some((mut rest, wants_sorted)) = without_header(bytes) else {
        return Ok(None);
    };
    let mut places = Vec::new(alloc);
    let mut is_sorted = true;
    let mut last = b"".as_slice();
    for _ in 0..bytes.len() {
        let Some((name, after)) = first_record(rest) else {
            break;
        };
        places.push(bytes.len().saturating_sub(rest.len()))?;
        is_sorted = still_sorted(is_sorted, last, name);
        last = name;
        rest = after;
    }
    if !rest.is_empty() || (wants_sorted && !is_sorted) {
        return Ok(None);
    }
    places.shrink_to_fit();
    Ok(Some(Places { places, is_sorted }))
}

/// Returns the first line of a file that has another form than those that git writes.
pub fn odd_line(bytes: &[u8]) -> Option<&[u8]> {
    let (mut rest, _) = without_header(bytes)?;
    for _ in 0..bytes.len() {
        let Some((_, after)) = first_record(rest) else {
            break;
        };
        rest = after;
    }
    if rest.is_empty() {
        None
    } else {
        Some(cut(rest, b'\n').0)
    }
}

/// Tests whether two of the lines at some places have the same name.
fn is_one_twice<A: Allocator>(
    alloc: A,
    bytes: &[u8],
    places: &[usize],
) -> Result<bool, AllocError> {
    let mut sorted = places.to_vec(alloc)?;
    sorted.sort_by(|a, b| name_at(bytes, *a).cmp(name_at(bytes, *b)))?;
    let mut last = None;
    for place in sorted.iter() {
        let name = name_at(bytes, *place);
        if last == Some(name) {
            return Ok(true);
        }
        last = Some(name);
    }
    Ok(false)
}

/// Tests whether no name is in two lines. This takes no time if the names are sorted.
fn is_each_once<A: Allocator>(
    alloc: A,
    bytes: &[u8],
    found: &Places<A>,
) -> Result<bool, AllocError> {
    if found.is_sorted {
        Ok(true)
    } else {
        Ok(!is_one_twice(alloc, bytes, &found.places)?)
    }
}

/// Returns the places of the lines `ID NAME`; `None` if the file counts as damaged.
///
/// It does if it has lines of another form, or if a name is in two lines. git takes one of the two
/// lines, whichever its search meets first.
fn sound_places<A: Allocator + Copy>(
    alloc: A,
    bytes: &[u8],
) -> Result<Option<Places<A>>, AllocError>
    ensures all { IfOk result (λ o. IfSome o (λ p. AreAll bytes.now p.places.items)) }
    ensures sorted { IfOk result (λ o. IfSome o (λ p. SaysSorted bytes.now p.places.items p.is_sorted)) }
{
    let Some(found) = places_in(alloc, bytes)? else {
        return Ok(None);
    };
    if is_each_once(alloc, bytes, &found)? {
        Ok(Some(found))
    } else {
        Ok(None)
    }
}

/// Returns what the first of the lines at some places says that tells of this name.
fn find_first(bytes: &[u8], places: &[usize], name: &[u8]) -> Option<Packed>
    ensures { option_map packed_said result ≡ places_say bytes.now places.now name.now None }
{
    for place in places {
        if let Some(found) = first_told(bytes_from(bytes, *place), name) {
            return Some(found);
        }
    }
    None
}

/// Returns what the line at one of some places says that tells of this name, if the names rise.
fn find_sorted(bytes: &[u8], places: &[usize], name: &[u8]) -> Option<Packed>
    requires { AreSorted bytes.now places.now }
    ensures { option_map packed_said result ≡ places_say bytes.now places.now name.now None }
{
    let mut left = places;
    for _ in 0..places.len() {
        let (front, back) = left.split_at(left.len() / 2);
        let Some((place, behind)) = back.split_first() else {
            return None;
        };
        match name_at(bytes, *place).cmp(name) {
            Ordering::Less => left = behind,
            Ordering::Equal => return first_told(bytes_from(bytes, *place), name),
            Ordering::Greater => left = front,
        }
    }
    None
}

impl<A: Allocator + Copy> Snapshot<A> {
    /// Returns the snapshot with these bytes; `None` if the file counts as damaged, such as one with
    /// a name twice.
    pub fn new(alloc: A, bytes: Vec<u8, A>) -> Result<Option<Snapshot<A>>, AllocError>
        // If there is a snapshot, it has these bytes.
        ensures { IfOk result (λ o. IfSome o (λ s. s.bytes.items ≡ bytes.items)) }
    {
        match sound_places(alloc, &bytes)? {
            Some(Places { places, is_sorted }) => Ok(Some(Snapshot {
                bytes,
                places,
                is_sorted,
            })),
            None => Ok(None),
        }
    }

    /// Returns what the first line says that tells of this name.
    ///
    /// If the names are sorted, it reads about log N of N lines.
    pub fn find(&self, name: &[u8]) -> Option<Packed>
        // What the first line `ID NAME` with this name says, with the line `^ID` behind it if there
        // is one. `None` exactly if no line has this name (`packed_says`).
        ensures { option_map packed_said result ≡ packed_says self.now.bytes.items name.now }
    {
        if self.is_sorted {
            find_sorted(&self.bytes, &self.places, name)
        } else {
            find_first(&self.bytes, &self.places, name)
        }
    }
}
