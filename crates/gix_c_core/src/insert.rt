//! Inserts commits into the history behind a handle.

ghost use Rattle.std.specs.Prelude.{◌≡◌, ◌⊎◌, ⊤, Some, None, if◌then◌else◌};
ghost use Rattle.gix_revwalk.specs.Held.{entry_of};
ghost use Rattle.gix_revwalk.specs.History.{Has, entry_at, same_id};
ghost use Rattle.gix_base.specs.declared.hash.ObjectId.{ObjectId};
ghost use Rattle.gix_c_core.specs.Answers.{ByCode};
ghost use Rattle.gix_c_core.specs.Behind.{commits_of};
ghost use Rattle.gix_c_core.specs.Insertion.{HasOneMore};
ghost use Rattle.gix_c_core.specs.Missing.{IsNoted};
ghost use Rattle.gix_c_core.specs.declared.handle.Handle.{Handle};

use crate::handle::Handle;
use crate::status::{ALREADY_THERE, OK, OUT_OF_MEMORY};
use gix_revision::graph::{InsertError, SourceCommit};
use gix_revision::hash::ObjectId;

/// Inserts a commit under `id`, if the history has none with that id yet. Returns the code.
pub fn insert_commit(history: &mut Handle, id: ObjectId, commit: SourceCommit) -> i32
    // `OK` only if the history had no commit under `id`.
    ensures new { ByCode result (entry_at (commits_of history.old) id ≡ None) ⊥ ⊤ }

    // After `OK`, the history has `commit` under `id`, and otherwise the commits that it had. After
    // an error code, its commits are unchanged.
    ensures put { ByCode result ((q : ObjectId) → entry_at (commits_of history.new) q
        ≡ (if same_id id q then Some (entry_of commit) else entry_at (commits_of history.old) q))
        ⊥ (commits_of history.new ≡ commits_of history.old) }

    // `ALREADY_THERE` only if the history had a commit under `id`.
    ensures there { result ≡ ALREADY_THERE → Has (commits_of history.old) id }

    // The code is `OK`, `ALREADY_THERE` or `OUT_OF_MEMORY`.
    ensures refused { ByCode result ⊤ ⊥ ((result ≡ ALREADY_THERE) ⊎ (result ≡ OUT_OF_MEMORY)) }

    // Also after an error, the ref names are unchanged.
    ensures names { history.new.value.table.names ≡ history.old.value.table.names }

    // After `OK`, `id` joins the ids that abbreviated object names stand for. After an error code,
    // `id` joins them, or they are unchanged.
    ensures ids { ByCode result
        (HasOneMore id history.old.value.table.ids.keys history.new.value.table.ids.keys)
        ⊥
        (HasOneMore id history.old.value.table.ids.keys history.new.value.table.ids.keys
        ⊎ (history.new.value.table.ids.keys ≡ history.old.value.table.ids.keys)) }

    // Also after an error, the graph holds the same commits, with the same data.
    ensures held { history.new.value.graph.held ≡ history.old.value.graph.held }

    // If the history noted parents before, it notes parents afterwards, also after an error.
    ensures noted { IsNoted history.old → IsNoted history.new }

    // Also after an error, the history is complete or partial as before, and the wanted commit is
    // unchanged.
    ensures extent { history.new.value.extent ≡ history.old.value.extent }
{
    let history = history.get_mut();
    if history.add_id(id).is_err() {
        return OUT_OF_MEMORY;
    }
    match history.insert(id, commit) {
        Ok(()) => OK,
        Err(InsertError::AlreadyThere(_)) => ALREADY_THERE,
        Err(InsertError::OutOfMemory(_)) => OUT_OF_MEMORY,
    }
}
