//! A cache of the positions of parents that a walk has read.

ghost use Rattle.std.specs.Prelude.{◌<◌, ◌^◌};
ghost use Rattle.gix_commitgraph.specs.FileChecks.{IsSound};

use crate::commit_graph::layout::Layout;
use gix_base::hash::ObjectId;
use gix_ids::word_at;

/// The number of positions that the cache keeps.
const SPOTS: usize = 1024;

/// Returns the index in the cache for the position of `id`.
fn spot_of(id: ObjectId) -> usize
    ensures { result < 1024 }
{
    u16::from_be_bytes([id.0[18], id.0[19]]) as usize % SPOTS
}

/// Cached positions of ids in a file.
///
/// Two ids may share an index, and the later one is kept. A position is therefore only a guess: it
/// counts only if the id is stored there.
#[derive(Drop)]
pub(crate) struct Hints {
    places: [u32; SPOTS],
    /// A sum of what was read ahead, so that the compiler does not drop those reads.
    read: usize,
}

impl Hints {
    /// Makes a cache without positions.
    pub(crate) fn new() -> Hints {
        Hints {
            places: [0; SPOTS],
            read: 0,
        }
    }

    /// Returns a position at which `id` may be stored.
    pub(crate) fn guess(&self, id: ObjectId) -> usize {
        self.places[spot_of(id)] as usize
    }

    /// Reads the row at `place`, if `place` is a position.
    fn read_row(&mut self, bytes: &[u8], l: Layout, place: usize)
        requires { IsSound bytes.now l }
    {
        if place < l.table.count {
            self.read = self
                .read
                .wrapping_add(word_at(bytes, l.rows + 36 * place + 20));
        }
    }

    /// Reads ahead the rows of the first two parents of the commit at position `i`. The walk needs
    /// them next, so memory loads them together with the parents' ids, which are read after this
    /// call.
    pub(crate) fn read_ahead(&mut self, bytes: &[u8], l: Layout, i: usize)
        requires sound { IsSound bytes.now l }
        requires here { i < l.table.count }
    {
        let row = l.rows + 36 * i;
        self.read_row(bytes, l, word_at(bytes, row + 20));
        self.read_row(bytes, l, word_at(bytes, row + 24));
    }

    /// Caches `place` as the position of `id`.
    fn note(&mut self, id: ObjectId, place: usize)
        requires { place < 2 ^ 32 }
    {
        self.places[spot_of(id)] = place as u32;
    }

    /// Caches the positions of the first two parents of the commit at position `i`. If there are
    /// more than two, what is cached for the second is not a position.
    pub(crate) fn note_parents(&mut self, bytes: &[u8], l: Layout, i: usize, parents: &[ObjectId])
        requires sound { IsSound bytes.now l }
        requires here { i < l.table.count }
    {
        let row = l.rows + 36 * i;
        if let Some(first) = parents.first() {
            self.note(*first, word_at(bytes, row + 20));
        }
        if let Some(second) = parents.get(1) {
            self.note(*second, word_at(bytes, row + 24));
        }
    }
}
