//! Looks up an id in parts of an index, so that the index is not read whole.
//!
//! [`Head`] has the first bytes of the file. It says where the ids with a first byte are
//! ([`Head::span`]). [`position`] finds an id among them, and [`read_offset`] and
//! [`read_large_offset`] read its offset from where the head says.

ghost use Rattle.std.specs.Prelude.{◌≡◌, ◌↔◌, ℕ, ◌+◌, ◌*◌, ◌/◌, ◌^◌, ◌≤◌, ◌<◌, length, IsOk, IfOk, IfErr, MatchOption, MatchResult};
ghost use Rattle.gix_ids.specs.TableBytes.{word, long};
ghost use Rattle.gix_ids.specs.TableForm.{fan, fan_below};
ghost use Rattle.gix_ids.specs.TableLookup.{IsAt, IsAbsent, IsGap};
ghost use Rattle.gix_pack.specs.IndexForm.{count_of, table_of, offsets_from, large_from, offset_said, IsFaulty};
ghost use Rattle.gix_pack.specs.PartForm.{IsHead, part_of, AreRising, IsTold};

use crate::index::{OpenError, OpenFault, check_header};
use gix_base::hash::ObjectId;
use gix_ids::{Span, Table, below, check_fanout, id_at, long_at, narrow, word_at};
use std::alloc::Global;
use std::convert::AsSlice;
use std::marker::Model;

/// The length of the head of an index: header and fanout table.
pub const HEAD_LEN: usize = 1032;

/// How many ids are read around the position where one should be.
pub const NEAR: usize = 256;

/// The head of an index, read in place.
///
/// The bytes are owned, or borrowed as `Head<&[u8]>`.
#[derive(Drop)]
pub struct Head<B: AsSlice<u8> + Drop = Vec<u8, Global>> {
    bytes: B,
}

impl<B: AsSlice<u8> + Drop> Model for Head<B> {
    ghost use Rattle.std.specs.Prelude.{List, ℕ};
    ghost use Rattle.gix_pack.specs.PartForm.{IsHead};

    ghost Value = { List ℕ };

    ghost view = { λ g. B.items g.bytes };

    ghost invariant = { λ g. IsHead (B.items g.bytes) };
}

/// Returns where an index has its ids and its fanout table.
#[tactic(auto, unfolding(crate::specs::IndexForm::table_of))]
pub(crate) fn table_of(bytes: &[u8]) -> Table
    requires { 1032 ≤ length bytes.now }
    ensures value { result ≡ table_of bytes.now }
    ensures count { result.count ≡ count_of bytes.now }
    ensures fanout { result.fanout ≡ 8 }
    ensures ids { result.ids ≡ 1032 }
{
    Table {
        count: word_at(bytes, 1028),
        fanout: 8,
        ids: HEAD_LEN,
    }
}

/// Checks the head of an index.
fn check_head(bytes: &[u8]) -> Result<(), OpenFault>
    ensures head { IsOk result ↔ IsHead bytes.now }
    ensures faulty { IfErr result (IsFaulty bytes.now) }
{
    check_header(bytes)?;
    check_fanout(bytes, table_of(bytes))?;
    Ok(())
}

/// Returns the positions of the ids whose first byte is `byte`, by the fanout table.
fn span(bytes: &[u8], byte: u8) -> Span
    requires { IsHead bytes.now }
    ensures low { result.low ≡ fan_below bytes.now (table_of bytes.now) byte }
    ensures high { result.high ≡ fan bytes.now (table_of bytes.now) byte }
    ensures order { result.low ≤ result.high }
    ensures within { result.high ≤ count_of bytes.now }
{
    let table = table_of(bytes);
    Span {
        low: below(bytes, table, byte),
        high: word_at(bytes, table.fanout + 4 * byte as usize),
    }
}

impl<B: AsSlice<u8> + Drop> Head<B> {
    /// Opens the first [`HEAD_LEN`] bytes of an index of version 2. More bytes may follow them.
    ///
    /// Succeeds exactly if the header is that of an index, and the fanout table does not fall. See
    /// gitformat-pack, "Version 2 pack-*.idx files".
    ///
    /// # Errors
    ///
    /// Returns the bytes, with one thing that is wrong with them.
    pub fn open(bytes: B) -> Result<Head<B>, OpenError<B>>
        // The answer has these bytes.
        ensures same { IfOk result (λ head. head ≡ B.items bytes) }

        // The call succeeds exactly if the bytes begin with the header of an index of version 2,
        // and with a fanout table that does not fall.
        ensures opened { IsOk result ↔ IsHead (B.items bytes) }

        // The error returns the bytes.
        ensures back { IfErr result (λ error. error.bytes ≡ bytes) }

        // What the fault of the error says of the bytes is true.
        ensures refused { IfErr result (λ error. IsFaulty (B.items bytes) error.fault) }
    {
        match check_head(bytes.as_slice()) {
            Ok(()) => Ok(Head { bytes }),
            Err(fault) => Err(OpenError { bytes, fault }),
        }
    }

    /// Returns the number of objects.
    pub fn len(&self) -> usize
        // The answer is the number of objects: the last number of the fanout table.
        ensures value { result ≡ count_of self.now }

        // The answer is less than 2^32.
        ensures small { result < 2 ^ 32 }
    {
        word_at(self.bytes.as_slice(), 1028)
    }

    /// Returns the positions of the ids whose first byte is `byte`, by the fanout table.
    pub fn span(&self, byte: u8) -> Span
        // `low` is the number of ids whose first byte is less than `byte`, by the fanout table.
        ensures low { result.low ≡ fan_below self.now (table_of self.now) byte }

        // `high` is the number of ids whose first byte is at most `byte`, by the fanout table.
        ensures high { result.high ≡ fan self.now (table_of self.now) byte }

        // `low` is at most `high`.
        ensures order { result.low ≤ result.high }

        // `high` is at most the number of objects.
        ensures within { result.high ≤ count_of self.now }
    {
        span(self.bytes.as_slice(), byte)
    }

    /// Returns the offset in the index of the id at `position`. The next id follows its 20 bytes.
    #[tactic(auto, unfolding(crate::specs::IndexForm::table_of))]
    pub fn id_place(&self, position: u32) -> u64
        // The answer is the offset at which the ids begin, and 20 more for each earlier position.
        ensures { result ≡ (table_of self.now).ids + 20 * position }
    {
        HEAD_LEN as u64 + 20 * u64::from(position)
    }

    /// Returns the offset in the index of the 4 bytes for [`read_offset`] of the object at `position`.
    pub fn offset_place(&self, position: u32) -> u64
        // The answer is the offset at which the offsets of 4 bytes begin, and 4 more for each
        // earlier position.
        ensures { result ≡ offsets_from self.now + 4 * position }
    {
        1032 + 24 * self.len() as u64 + 4 * u64::from(position)
    }

    /// Returns the offset in the index of the 8 bytes for [`read_large_offset`] that an
    /// [`Offset::Large`] names.
    ///
    /// A malformed index may not have them. Its last 40 bytes are hashes.
    pub fn large_place(&self, entry: u32) -> u64
        // The answer is the offset at which the offsets of 8 bytes begin, and 8 more for each
        // earlier entry.
        ensures { result ≡ large_from self.now + 8 * entry }
    {
        1032 + 28 * self.len() as u64 + 8 * u64::from(entry)
    }
}

/// Searches for `id` among `ids`, which have 20 bytes each.
///
/// Returns the position of `id`, or as an error the position before which it would be. Bytes after
/// the last whole id do not matter. If the ids do not rise, an error may be the answer although they
/// have `id`.
pub fn search(ids: &[u8], id: ObjectId) -> Result<usize, usize>
    // A success is the position of `id`. If the ids rise, an error is the position before which
    // `id` would be: the ids before it are less, and the others are greater.
    ensures { MatchResult result (IsAt ids.now (part_of ids.now) id) (λ k. AreRising ids.now → IsGap ids.now (part_of ids.now) id k) }
{
    let count = ids.len() / 20;
    let table = Table {
        count,
        fanout: 0,
        ids: 0,
    };
    let span = Span {
        low: 0,
        high: count,
    };
    narrow(ids, table, span, id)
}

/// Returns the position of `id` among `ids`, as [`search`] does, or `None` instead of its error.
pub fn position(ids: &[u8], id: ObjectId) -> Option<usize>
    // The answer is the position of `id`. If it is `None`, and the ids rise, they do not have `id`.
    ensures { MatchOption result (AreRising ids.now → IsAbsent ids.now (part_of ids.now) id) (IsAt ids.now (part_of ids.now) id) }
{
    match search(ids, id) {
        Ok(place) => Some(place),
        Err(_) => None,
    }
}

/// What some ids in a row tell of an id.
#[derive(Clone, Copy)]
pub enum Told {
    /// It is at this position among them.
    At(usize),
    /// If they rise, it would be between two of them. No list of rising ids with these in a row has
    /// it.
    Absent,
    /// It may be before or after them.
    Elsewhere,
}

/// Returns what `ids` in a row, which have 20 bytes each, tell of `id`.
pub fn near(ids: &[u8], id: ObjectId) -> Told
    // `At` has the position of `id`. If the ids rise, `Absent` comes only if `id` is between two
    // neighbouring ids. `Elsewhere` says nothing.
    ensures { IsTold ids.now id result }
{
    match search(ids, id) {
        Ok(place) => Told::At(place),
        Err(place) if 0 < place && place < ids.len() / 20 => Told::Absent,
        Err(_) => Told::Elsewhere,
    }
}

/// Returns a guess of how many of `count` ids with the same first byte are less than `id`.
///
/// It takes the next four bytes of `id` as a share of `count`, since ids are hashes. Nothing is
/// promised of a guess.
fn guess(id: ObjectId, count: usize) -> usize {
    let next = u32::from_be_bytes([id.0[1], id.0[2], id.0[3], id.0[4]]);
    ((count as u64).saturating_mul(u64::from(next)) >> 32) as usize
}

/// Returns the positions of up to [`NEAR`] ids around the one where `id` should be, within the
/// positions of the ids with its first byte.
pub fn around(id: ObjectId, span: Span) -> Span
    // The answer does not begin before `span`.
    ensures low { span.low ≤ result.low }

    // The answer does not end before it begins.
    ensures order { result.low ≤ result.high }

    // If `span` does not end before it begins, then the answer does not end after `span`.
    ensures high { span.low ≤ span.high → result.high ≤ span.high }

    // The answer has at most 256 positions.
    ensures few { result.high ≤ result.low + 256 }
{
    let count = span.high.saturating_sub(span.low);
    let low = span.low + guess(id, count).saturating_sub(NEAR / 2).min(count);
    Span {
        low,
        high: low + span.high.saturating_sub(low).min(NEAR),
    }
}

/// Returns the id at a position of `ids`, which have 20 bytes each; `None` past the last one.
pub fn id_in(ids: &[u8], position: usize) -> Option<ObjectId>
    // The answer is the id at `position`. It is `None` exactly past the last id.
    ensures { MatchOption result ((part_of ids.now).count ≤ position) (λ id. IsAt ids.now (part_of ids.now) id position) }
{
    if position < ids.len() / 20 {
        Some(id_at(ids, 20 * position))
    } else {
        None
    }
}

/// What the 4 bytes for the offset of an object say.
#[derive(Clone, Copy)]
pub enum Offset {
    /// The offset in the pack.
    Small(u32),
    /// Which of the offsets of 8 bytes is the offset in the pack.
    Large(u32),
}

/// Returns what 4 bytes say, as a number.
#[tactic(auto, unfolding(crate::specs::IndexForm::offset_said))]
pub(crate) fn offset_said(word: usize) -> Offset
    requires { word < 2 ^ 32 }
    ensures { result ≡ offset_said word }
{
    if word < 0x8000_0000 {
        Offset::Small(word as u32)
    } else {
        Offset::Large((word - 0x8000_0000) as u32)
    }
}

/// Reads the 4 bytes for the offset of an object.
///
/// If their highest bit is set, they name an offset of 8 bytes. See gitformat-pack, "A table of
/// 4-byte offset values".
pub fn read_offset(bytes: [u8; 4]) -> Offset
    // If the highest bit is clear, the 4 bytes are the offset. Otherwise the other bits are the
    // number of an offset of 8 bytes.
    ensures { result ≡ offset_said (word bytes 0) }
{
    offset_said(word_at(&bytes, 0))
}

/// Reads an offset of 8 bytes.
pub fn read_large_offset(bytes: [u8; 8]) -> u64
    // The answer is the number in the 8 bytes, the most significant byte first.
    ensures { result ≡ long bytes 0 }
{
    long_at(&bytes, 0) as u64
}
