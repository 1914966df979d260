//! The index of a pack as a map from ids to offsets.

ghost use Rattle.std.specs.Prelude.{◌≡◌, ◌↔◌, ◌+◌, ◌*◌, ◌^◌, ◌<◌, length, slice_get, IsOk, IfOk, IfErr};
ghost use Rattle.std.specs.Option.{option_map};
ghost use Rattle.std.specs.Map.{lookup};
ghost use Rattle.std.specs.List.Sorted.{IsStrictlySortedBy};
ghost use Rattle.gix_revwalk.specs.History.{same_id};
ghost use Rattle.gix_ids.specs.TableForm.{compare_ids};
ghost use Rattle.gix_ids.specs.TableIds.{IsFirstFrom};
ghost use Rattle.gix_pack.specs.PackIds.{ids_in};
ghost use Rattle.gix_pack.specs.IndexForm.{count_of, offset_at, IsIndex, objects_in, IsFaulty};

use crate::index::check::read;
use crate::index::fault::OpenError;
use crate::part::{Offset, offset_said};
use gix_base::hash::ObjectId;
use gix_ids::{Table, id_at, long_at, position, search, word_at};
use std::alloc::Global;
use std::convert::AsSlice;
use std::marker::Model;

/// The index of a pack, read in place: ids in ascending order, each with the offset of its entry.
///
/// A call allocates nothing. The bytes are owned, or borrowed as `Index<&[u8]>`.
#[derive(Drop)]
pub struct Index<B: AsSlice<u8> + Drop = Vec<u8, Global>> {
    bytes: B,
    table: Table,
}

impl<B: AsSlice<u8> + Drop> Model for Index<B> {
    ghost use Rattle.std.specs.Prelude.{◌≡◌, List, ℕ};
    ghost use Rattle.gix_pack.specs.IndexForm.{table_of, IsIndex};

    ghost Value = { List ℕ };

    ghost view = { λ g. B.items g.bytes };

    ghost invariant = { λ g. (g.table ≡ table_of (B.items g.bytes)) × IsIndex (B.items g.bytes) };
}

/// Reads the offset in the pack of the object at position `i`.
fn read_offset(bytes: &[u8], i: usize) -> usize
    requires index { IsIndex bytes.now }
    requires here { i < count_of bytes.now }
    ensures { result ≡ offset_at bytes.now i }
{
    let count = word_at(bytes, 1028);
    match offset_said(word_at(bytes, 1032 + 24 * count + 4 * i)) {
        Offset::Small(offset) => offset as usize,
        Offset::Large(entry) => long_at(bytes, 1032 + 28 * count + 8 * entry as usize),
    }
}

impl<B: AsSlice<u8> + Drop> Index<B> {
    /// Opens the bytes of an index of version 2.
    ///
    /// Succeeds exactly if the bytes are a well-formed index: the tables and two hashes fill the
    /// file, the ids are in ascending order and where the fanout table says, and the index has the
    /// offset of each object. The hashes are not compared, and the pack is not read. See
    /// gitformat-pack, "Version 2 pack-*.idx files".
    ///
    /// # Errors
    ///
    /// Returns the bytes, with one thing that is wrong with them.
    pub fn open(bytes: B) -> Result<Index<B>, OpenError<B>>
        // The answer has these bytes.
        ensures same { IfOk result (λ index. index ≡ B.items bytes) }

        // The call succeeds exactly if the bytes are a well-formed index of version 2.
        ensures opened { IsOk result ↔ IsIndex (B.items bytes) }

        // The error returns the bytes.
        ensures back { IfErr result (λ error. error.bytes ≡ bytes) }

        // What the fault of the error says of the bytes is true.
        ensures refused { IfErr result (λ error. IsFaulty (B.items bytes) error.fault) }
    {
        match read(bytes.as_slice()) {
            Ok(table) => Ok(Index { bytes, table }),
            Err(fault) => Err(OpenError { bytes, fault }),
        }
    }

    /// Returns the number of objects.
    pub fn len(&self) -> usize
        // The answer is the number of objects of the index.
        ensures { result ≡ length (objects_in self.now) }
    {
        self.table.count
    }

    /// Returns the id of the object at `position`, or `None` past the last one.
    ///
    /// Ids rise with their positions.
    pub fn id(&self, position: usize) -> Option<ObjectId>
        // The answer is the id of the object at `position`. It is `None` exactly past the last
        // object.
        ensures { result ≡ option_map (λ e. e.0) (slice_get (objects_in self.now) position) }
    {
        if position < self.table.count {
            Some(id_at(self.bytes.as_slice(), self.table.ids + 20 * position))
        } else {
            None
        }
    }

    /// Returns the offset in the pack of the object `id`, or `None` if the index does not have it.
    ///
    /// The offset is the one that the index says. It may be past the end of the pack.
    pub fn find(&self, id: ObjectId) -> Option<usize>
        // The answer is the offset that the index has for `id`. It is `None` exactly if the index
        // does not have `id`.
        ensures { result ≡ lookup (same_id id) (objects_in self.now) }
    {
        let bytes = self.bytes.as_slice();
        match position(bytes, self.table, id) {
            Some(i) => Some(read_offset(bytes, i)),
            None => None,
        }
    }

    /// Returns the position of the first id that is not less than `id`.
    ///
    /// The index need not have `id`. If every id is less, the answer is the number of objects. With
    /// it, abbreviated object names are looked up.
    pub fn position_from(&self, id: ObjectId) -> usize
        // The answer is the position of the first id that is not less than `id`. If every id is
        // less, the answer is the number of objects.
        ensures first { IsFirstFrom (ids_in self.now) id result }

        // The ids of the index rise with their positions, and each occurs once.
        ensures rising { IsStrictlySortedBy compare_ids (ids_in self.now) }

        // The answer is less than 2^32.
        ensures small { result < 2 ^ 32 }
    {
        match search(self.bytes.as_slice(), self.table, id) {
            Ok(place) => place,
            Err(place) => place,
        }
    }
}
