//! C functions for ref names.

ghost use Rattle.std.specs.Prelude.{◌≡◌, ⊤, IsTrue, None, Some, is_some};
ghost use Rattle.gix_c_core.specs.Answers.{ByCode, id_of};
ghost use Rattle.gix_c_core.specs.Names.{IsPut, id_named, without_name};

use gix_c_core::handle::Handle;
use gix_c_core::status::{NONE, OK, OUT_OF_MEMORY};
use gix_revision::hash::ObjectId;
use std::alloc::Global;

/// Makes the ref `name` stand for `id`, instead of the id that it stood for before, if any.
#[unsafe(no_mangle)]
pub extern "C" fn gix_history_name(
    alloc: Global,
    history: &mut Handle,
    name: &[u8],
    id: &[u8; 20],
) -> i32
    // After `OK`, the ref name stands for `id`.
    ensures put { ByCode result (id_named name.now history.new.value ≡ Some (id_of id.now)) ⊥ ⊤ }

    // After `OK`, the entry of this name has `id`, and all other entries are unchanged.
    ensures others { ByCode result (IsPut name.now (id_of id.now)
        history.old.value.table.names.entries history.new.value.table.names.entries) ⊥ ⊤ }

    // The code is `OK` or `OUT_OF_MEMORY`. After an error, the ref names are unchanged.
    ensures refused { ByCode result ⊤ ⊥ ((result ≡ OUT_OF_MEMORY)
        × (history.new.value.table.names.entries ≡ history.old.value.table.names.entries)) }

    // Also after an error, the ids that abbreviated object names stand for are unchanged.
    ensures ids { history.new.value.table.ids ≡ history.old.value.table.ids }

    // Also after an error, the graph is unchanged, with its commits and all that it holds.
    ensures graph { history.new.value.graph ≡ history.old.value.graph }

    // Also after an error, the list of noted parents is unchanged.
    ensures named { history.new.value.named ≡ history.old.value.named }

    // Also after an error, the extent is unchanged: the history is complete or partial as before,
    // with the same wanted commit.
    ensures extent { history.new.value.extent ≡ history.old.value.extent }
{
    let Ok(name) = name.to_vec(alloc) else {
        return OUT_OF_MEMORY;
    };
    match history.get_mut().table.names.insert(name, ObjectId(*id)) {
        Ok(_) => OK,
        Err(_) => OUT_OF_MEMORY,
    }
}

/// Takes the ref `name` back, so that it stands for no id.
#[unsafe(no_mangle)]
pub extern "C" fn gix_history_unname(history: &mut Handle, name: &[u8]) -> i32
    // The ref name stands for no id.
    ensures gone { id_named name.now history.new.value ≡ None }

    // The ref names are the previous ones without `name`.
    ensures others { history.new.value.table.names.entries
        ≡ without_name name.now history.old.value.table.names.entries }

    // The code is `OK` if there was such a ref name, and `NONE` if there was none.
    ensures was { ByCode result (IsTrue (is_some (id_named name.now history.old.value)))
        (id_named name.now history.old.value ≡ None) ⊥ }

    // The ids that abbreviated object names stand for are unchanged.
    ensures ids { history.new.value.table.ids ≡ history.old.value.table.ids }

    // The graph is unchanged, with its commits and all that it holds.
    ensures graph { history.new.value.graph ≡ history.old.value.graph }

    // The list of noted parents is unchanged.
    ensures named { history.new.value.named ≡ history.old.value.named }

    // The extent is unchanged: the history is complete or partial as before, with the same wanted
    // commit.
    ensures extent { history.new.value.extent ≡ history.old.value.extent }
{
    match history.get_mut().table.names.remove(name) {
        Some(_) => OK,
        None => NONE,
    }
}
