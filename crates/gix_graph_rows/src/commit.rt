//! Reads the commit at a place.

ghost use Rattle.std.specs.Prelude.{◌≡◌, suc, ◌+◌, ◌-◌, ◌*◌, ◌<◌, [], ◌∷◌, ◌++◌, length, map, IfOk, OnOk};
ghost use Rattle.gix_ids.specs.TableBytes.{id_from, word};
ghost use Rattle.gix_commitgraph.specs.FileCommits.{edge_list};
ghost use Rattle.gix_graph_rows.specs.ChainRows.{file_at, id_there, named_by, entry_there, AreHints};
ghost use Rattle.gix_graph_rows.specs.FilesRead.{files_of};
ghost use Rattle.gix_revwalk.specs.Held.{entry_of};
ghost use Rattle.gix_graph_rows.specs.RowForm.{IsSaid, HasCount};

use crate::error::{Damage, Error};
use crate::hints::Hints;
use crate::layer::{Child, Layer};
use crate::row::{EDGE_BIT, NO_PARENT, Row};
use gix_base::hash::ObjectId;
use gix_commitgraph::position::{Place, locate};
use gix_files::Opened;
use gix_revwalk::graph::SourceCommit;
use std::alloc::Allocator;

/// Reads the id of the commit at a place, unless its level is not less than the child's. In a file
/// without levels all are 0.
fn parent_id<O: Opened, A: Allocator + Copy>(
    alloc: A,
    layer: &mut Layer<O, A>,
    row: u32,
    child: Child,
) -> Result<ObjectId, Error>
    ensures same { (layer.new.source ≡ layer.old.source) × (layer.new.layout ≡ layer.old.layout) }
    ensures value { O.keeps → row < layer.old.layout.count → IfOk result
        (λ id. id ≡ id_from (O.content layer.old.source.file) (layer.old.layout.ids + 20 * row)) }
{
    let level = layer.level(alloc, row)?;
    if child.level.max(1) <= level {
        return Err(child.damaged(Damage::Level));
    }
    layer.id(alloc, row)
}

/// Adds the id of the parent at a position to `ids`.
#[tactic(auto, using(crate::proofs::SameFiles::files_of_set))]
fn add_parent<O: Opened, A: Allocator + Copy>(
    alloc: A,
    layers: &mut [Layer<O, A>],
    hints: &mut Hints<A>,
    child: Child,
    position: u32,
    ids: &mut Vec<ObjectId, A>,
) -> Result<(), Error>
    ensures added { OnOk result (length ids.new.items ≡ suc (length ids.old.items)) }
    ensures same { length layers.new ≡ length layers.old }
    ensures files { files_of layers.new ≡ files_of layers.old }
    ensures kept { O.keeps → AreHints (files_of layers.old) hints.old.hints.items
        → AreHints (files_of layers.old) hints.new.hints.items }
    ensures value { O.keeps → OnOk result
        (ids.new.items ≡ ids.old.items ++ id_there (files_of layers.old) position ∷ []) }
{
    match locate(layers, position) {
        Some(place) if place.layer <= child.layer => {
            let id = parent_id(alloc, &mut layers[place.layer], place.row, child)?;
            hints.note(id, place);
            ids.push(id)?;
            Ok(())
        }
        _ => Err(child.damaged(Damage::Parent)),
    }
}

/// Adds the ids of the list of parents that begins at a place of the chunk `EDGE`.
#[tactic(auto, using(crate::proofs::SameFiles::files_of_set))]
fn add_list<O: Opened, A: Allocator + Copy>(
    alloc: A,
    layers: &mut [Layer<O, A>],
    hints: &mut Hints<A>,
    child: Child,
    start: u32,
    ids: &mut Vec<ObjectId, A>,
) -> Result<(), Error>
    requires { child.layer < length layers.old }
    ensures added { OnOk result (length ids.old.items < length ids.new.items) }
    ensures same { length layers.new ≡ length layers.old }
    ensures files { files_of layers.new ≡ files_of layers.old }
    ensures kept { O.keeps → AreHints (files_of layers.old) hints.old.hints.items
        → AreHints (files_of layers.old) hints.new.hints.items }
    ensures value { O.keeps → let f = file_at (files_of layers.old) child.layer in
        OnOk result (ids.new.items ≡ ids.old.items ++ map (id_there (files_of layers.old))
        (edge_list f.bytes f.layout start (f.layout.edge_count - start))) }
{
    for place in start..EDGE_BIT {
        let edge = layers[child.layer].edge(alloc, place)?;
        add_parent(alloc, layers, hints, child, edge % EDGE_BIT, ids)?;
        if edge >= EDGE_BIT {
            return Ok(());
        }
    }
    Err(child.damaged(Damage::EdgeEnd))
}

/// Adds the ids of all parents that a row has to `ids`.
fn add_parents<O: Opened, A: Allocator + Copy>(
    alloc: A,
    layers: &mut [Layer<O, A>],
    hints: &mut Hints<A>,
    child: Child,
    row: &Row,
    ids: &mut Vec<ObjectId, A>,
) -> Result<(), Error>
    requires here { child.layer < length layers.old }
    requires empty { length ids.old.items ≡ 0 }
    ensures count { OnOk result (HasCount row.now.bytes (length ids.new.items)) }
    ensures same { length layers.new ≡ length layers.old }
    ensures files { files_of layers.new ≡ files_of layers.old }
    ensures kept { O.keeps → AreHints (files_of layers.old) hints.old.hints.items
        → AreHints (files_of layers.old) hints.new.hints.items }
    ensures value { O.keeps → let f = file_at (files_of layers.old) child.layer in
        OnOk result (ids.new.items ≡ map (id_there (files_of layers.old))
        (named_by f (word row.now.bytes 20) (word row.now.bytes 24))) }
{
    if row.first() == NO_PARENT {
        return Ok(());
    }
    add_parent(alloc, layers, hints, child.named_at(20), row.first(), ids)?;
    let second = row.second();
    if second == NO_PARENT {
        return Ok(());
    }
    if second < EDGE_BIT {
        return add_parent(alloc, layers, hints, child.named_at(24), second, ids);
    }
    add_list(
        alloc,
        layers,
        hints,
        child.named_at(24),
        second - EDGE_BIT,
        ids,
    )
}

/// Reads the commit at a place.
#[tactic(auto, using(crate::proofs::SameFiles::files_of_set))]
pub(crate) fn commit_at<O: Opened, A: Allocator + Copy>(
    alloc: A,
    layers: &mut [Layer<O, A>],
    hints: &mut Hints<A>,
    place: Place,
) -> Result<SourceCommit<A>, Error>
    requires { place.layer < length layers.old }
    ensures said { IfOk result (λ c. IsSaid (entry_of c)) }
    ensures same { length layers.new ≡ length layers.old }
    ensures files { files_of layers.new ≡ files_of layers.old }
    ensures kept { O.keeps → AreHints (files_of layers.old) hints.old.hints.items
        → AreHints (files_of layers.old) hints.new.hints.items }
    ensures value { O.keeps → let f = file_at (files_of layers.old) place.layer in
        place.row < f.layout.table.count
        → IfOk result (λ c. entry_of c ≡ entry_there (files_of layers.old) f place.row) }
{
    let row = layers[place.layer].row(alloc, place.row)?;
    let child = layers[place.layer].child(place, &row);
    let mut parents = Vec::new(alloc);
    add_parents(alloc, layers, hints, child, &row, &mut parents)?;
    Ok(SourceCommit {
        parents,
        time: row.date(),
        generation: Some(row.level()),
    })
}
