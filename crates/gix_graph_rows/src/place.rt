//! Finds the file of a chain that has the commit with an id (technical/commit-graph, "Commit-Graph
//! Chains").

ghost use Rattle.std.specs.Prelude.{◌≡◌, ◌<◌, IfOk, IfSome, length};
ghost use Rattle.gix_graph_rows.specs.ChainRows.{IsPlaceOf};
ghost use Rattle.gix_graph_rows.specs.FilesRead.{files_of};

use crate::error::Error;
use crate::layer::Layer;
use gix_base::hash::ObjectId;
use gix_commitgraph::position::Place;
use gix_files::Opened;
use std::alloc::Allocator;

/// Looks an id up in all files, the last one first, as git does.
#[tactic(auto, using(crate::proofs::SameFiles::files_of_set, crate::proofs::SameFiles::found_in))]
fn search<O: Opened, A: Allocator + Copy>(
    alloc: A,
    layers: &mut [Layer<O, A>],
    id: ObjectId,
) -> Result<Option<Place>, Error>
    ensures within { IfOk result (λ found. IfSome found (λ p. p.layer < length layers.old)) }
    ensures same { length layers.new ≡ length layers.old }
    ensures files { files_of layers.new ≡ files_of layers.old }
    ensures value { O.keeps → IfOk result
        (λ found. IfSome found (IsPlaceOf (files_of layers.old) id)) }
{
    let count = layers.len();
    for k in 0..count {
        let layer = count - 1 - k;
        if let Some(row) = layers[layer].find(alloc, id)? {
            return Ok(Some(Place { layer, row }));
        }
    }
    Ok(None)
}

/// Returns where the commit with an id is, if that is not known; `None` if no file has it.
pub(crate) fn find<O: Opened, A: Allocator + Copy>(
    alloc: A,
    layers: &mut [Layer<O, A>],
    known: Option<Place>,
    id: ObjectId,
) -> Result<Option<Place>, Error>
    requires here { IfSome known (λ p. p.layer < length layers.old) }
    requires known { O.keeps → IfSome known (IsPlaceOf (files_of layers.old) id) }
    ensures within { IfOk result (λ found. IfSome found (λ p. p.layer < length layers.old)) }
    ensures same { length layers.new ≡ length layers.old }
    ensures files { files_of layers.new ≡ files_of layers.old }
    ensures value { O.keeps → IfOk result
        (λ found. IfSome found (IsPlaceOf (files_of layers.old) id)) }
{
    match known {
        Some(place) => Ok(Some(place)),
        None => search(alloc, layers, id),
    }
}
