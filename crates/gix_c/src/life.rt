//! C functions that make a history, insert commits and free it.

ghost use Rattle.std.specs.Borrow.{sem};
ghost use Rattle.std.specs.Prelude.{◌≡◌, ◌⊎◌, ⊤, Some, None, if◌then◌else◌};
ghost use Rattle.gix_revwalk.specs.History.{Has, entry_at, same_id};
ghost use Rattle.gix_base.specs.declared.hash.ObjectId.{ObjectId};
ghost use Rattle.gix_c_core.specs.Answers.{ByCode, entry_given, id_of};
ghost use Rattle.gix_c_core.specs.Behind.{commits_of};
ghost use Rattle.gix_c_core.specs.Insertion.{HasOneMore};
ghost use Rattle.gix_c_core.specs.Missing.{IsNoted};
ghost use Rattle.gix_c_core.specs.declared.handle.Handle.{Handle};
ghost use Rattle.gix_c_core.specs.Owned.{owns_unless_null, IsNew};

use gix_c_core::handle::Handle;
use gix_c_core::history::History;
use gix_c_core::ids::ids_of;
use gix_c_core::insert::insert_commit;
use gix_c_core::loose::Loose;
use gix_c_core::place::Place;
use gix_c_core::status::{ALREADY_THERE, OK, OUT_OF_MEMORY};
use gix_revision::Seed;
use gix_revision::graph::SourceCommit;
use gix_revision::hash::ObjectId;
use std::alloc::Global;

/// Makes a history without commits, which `*out` then owns. Its hash maps are seeded with `seed`.
///
/// What `*out` owned before is not freed.
#[unsafe(no_mangle)]
pub extern "C" fn gix_history_new(alloc: Global, seed: u64, out: &mut Place) -> i32
    // The code is `OK` or `OUT_OF_MEMORY`. After `OK`, `out` has a complete history without commits
    // or ref names. Its noted parents are right, and abbreviated object names stand for no id.
    // After an error, `out` is unchanged.
    ensures { ByCode result (IsNew out.new.value) ⊥ ((result ≡ OUT_OF_MEMORY) × (out.new ≡ out.old)) }
{
    let history = History::new(alloc, Seed::new(seed));
    let Ok(place) = Place::holding(alloc, history) else {
        return OUT_OF_MEMORY;
    };
    *out = place;
    OK
}

/// Inserts a commit under `id`, if the history has none with that id yet.
#[unsafe(no_mangle)]
pub extern "C" fn gix_history_insert(
    alloc: Global,
    history: &mut Handle,
    id: &[u8; 20],
    parents: &[[u8; 20]],
    time: i64,
    has_generation: bool,
    generation: u32,
) -> i32
    // The code is `OK` only if the history had no commit under this id.
    ensures new { ByCode result (entry_at (commits_of history.old) (id_of id.now) ≡ None) ⊥ ⊤ }

    // After `OK`, the history has the passed commit under this id, and otherwise what it had. After
    // an error, its commits are unchanged.
    ensures put { ByCode result ((q : ObjectId) → entry_at (commits_of history.new) q
        ≡ (if same_id (id_of id.now) q
        then Some (entry_given parents.now time has_generation generation)
        else entry_at (commits_of history.old) q)) ⊥ (commits_of history.new ≡ commits_of history.old) }

    // The code is `ALREADY_THERE` only if the history had a commit under this id.
    ensures there { result ≡ ALREADY_THERE → Has (commits_of history.old) (id_of id.now) }

    // The code is `OK`, `ALREADY_THERE` or `OUT_OF_MEMORY`.
    ensures refused { ByCode result ⊤ ⊥ ((result ≡ ALREADY_THERE) ⊎ (result ≡ OUT_OF_MEMORY)) }

    // Also after an error, the ref names are unchanged.
    ensures names { history.new.value.table.names ≡ history.old.value.table.names }

    // After `OK`, the ids that abbreviated object names stand for are the previous ones and this
    // id. After an error they are the previous ones, with or without this id.
    ensures ids { ByCode result
        (HasOneMore (id_of id.now) history.old.value.table.ids.keys history.new.value.table.ids.keys)
        ⊥
        (HasOneMore (id_of id.now) history.old.value.table.ids.keys history.new.value.table.ids.keys
        ⊎ (history.new.value.table.ids.keys ≡ history.old.value.table.ids.keys)) }

    // Also after an error, what the graph holds is unchanged.
    ensures held { history.new.value.graph.held ≡ history.old.value.graph.held }

    // If the noted parents are right, they stay so, also after an error. They are right if each is
    // the parent of a commit, and each missing parent is among them.
    ensures noted { IsNoted history.old → IsNoted history.new }

    // Also after an error, the extent is unchanged: the history is complete or partial as before,
    // with the same wanted commit.
    ensures extent { history.new.value.extent ≡ history.old.value.extent }
{
    let Ok(parents) = ids_of(alloc, parents) else {
        return OUT_OF_MEMORY;
    };
    let commit = SourceCommit {
        parents,
        time,
        generation: if has_generation {
            Some(generation)
        } else {
            None
        },
    };
    insert_commit(history, ObjectId(*id), commit)
}

fn dispose(handle: Loose<Handle, Global>) {
    drop(handle.into_box());
}

/// Frees a history that this library made. Does nothing if the pointer is null.
#[unsafe(no_mangle)]
pub unsafe extern "C" fn gix_history_free(alloc: Global, history: *mut Handle)
    ghost value: { Handle }
    // Unless the pointer is null, the caller hands over the handle there, with all that it owns,
    // and the right to free it.
    requires* { sem 𝓛 (owns_unless_null alloc history value) }
{
    if history.is_null() {
        return;
    }
    dispose(Loose { at: history, alloc });
}
