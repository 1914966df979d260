//! Keeps where the parents are that a walk has read, since it asks for these next.

ghost use Rattle.std.specs.Prelude.{◌≡◌, ◌<◌, ◌^◌, List, length, IfOk, IfSome};
ghost use Rattle.gix_graph_rows.specs.ChainRows.{Said, IsPlaceOf, AreHints};

use crate::error::Error;
use gix_base::hash::ObjectId;
use gix_commitgraph::position::Place;
use std::alloc::Allocator;

/// How many places are kept.
const SPOTS: usize = 1 << 12;

/// Is an id that was read, and its place.
#[derive(Clone, Copy)]
struct Hint {
    id: ObjectId,
    place: Place,
}

/// Keeps ids with their places, each where the last two bytes of the id say.
#[derive(Drop)]
pub(crate) struct Hints<A: Allocator> {
    hints: Vec<Hint, A>,
}

/// Returns where an id is kept.
fn spot_of(id: ObjectId) -> usize {
    u16::from_be_bytes([id.0[18], id.0[19]]) as usize % SPOTS
}

impl<A: Allocator> Hints<A> {
    /// Returns room for places, and keeps none.
    pub(crate) fn new(alloc: A) -> Result<Hints<A>, Error>
        ensures { (fs : List Said) → length fs < 2 ^ 64
            → IfOk result (λ h. AreHints fs h.hints.items) }
    {
        let place = Place {
            layer: usize::MAX,
            row: 0,
        };
        let none = Hint {
            id: ObjectId([0; 20]),
            place,
        };
        let mut hints = Vec::new(alloc);
        hints.resize(SPOTS, none)?;
        Ok(Hints { hints })
    }

    /// Returns the place of an id, if it is kept. The number of its file is less than `layers`.
    pub(crate) fn place(&self, id: ObjectId, layers: usize) -> Option<Place>
        ensures within { IfSome result (λ p. p.layer < layers) }
        ensures known { (fs : List Said) → layers ≡ length fs → AreHints fs self.now.hints.items
            → IfSome result (IsPlaceOf fs id) }
    {
        match self.hints.get(spot_of(id)) {
            Some(hint) if hint.place.layer < layers && hint.id == id => Some(hint.place),
            _ => None,
        }
    }

    /// Keeps the place of an id instead of the one that was there.
    pub(crate) fn note(&mut self, id: ObjectId, place: Place)
        ensures { (fs : List Said) → AreHints fs self.old.hints.items → IsPlaceOf fs id place
            → AreHints fs self.new.hints.items }
    {
        if let Some(hint) = self.hints.get_mut(spot_of(id)) {
            *hint = Hint { id, place };
        }
    }
}
