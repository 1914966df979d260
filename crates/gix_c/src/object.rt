//! C function that inserts a commit by its content.

ghost use Rattle.std.specs.Prelude.{◌≡◌, ◌≢◌, ◌⊎◌, ⊤, None};
ghost use Rattle.gix_base.specs.declared.object.Kind.TheVariants.{Commit};
ghost use Rattle.gix_object.specs.ObjectForm.{id_of_object};
ghost use Rattle.gix_revwalk.specs.History.{Has, entry_at};
ghost use Rattle.gix_c_core.specs.Answers.{ByCode, id_of};
ghost use Rattle.gix_c_core.specs.Behind.{commits_of};
ghost use Rattle.gix_c_core.specs.Insertion.{HasContent, HasOneMore, IsMisshapen};
ghost use Rattle.gix_c_core.specs.Missing.{IsNoted};

use gix_c_core::handle::Handle;
use gix_c_core::insert::insert_commit;
use gix_c_core::status::{ALREADY_THERE, ALTERED, MISSHAPEN, OUT_OF_MEMORY};
use gix_object::authentic::{ReadError, read};
use gix_object::commit::ParseError;
use gix_revision::hash::ObjectId;
use std::alloc::Global;

/// Inserts the commit that `content` is under `id`, if `id` is the hash of this content and the
/// history has no commit with that id yet.
#[unsafe(no_mangle)]
pub extern "C" fn gix_history_insert_object(
    alloc: Global,
    history: &mut Handle,
    id: &[u8; 20],
    content: &[u8],
) -> i32
    // The code is `OK` only if the history had no commit under this id.
    ensures new { ByCode result (entry_at (commits_of history.old) (id_of id.now) ≡ None) ⊥ ⊤ }

    // After `OK`, `id` is the hash of the content, and the history has the content's commit under
    // it, without a generation number, and otherwise what it had. After an error, its commits are
    // unchanged.
    ensures put { ByCode result
        (HasContent content.now (id_of id.now) (commits_of history.old) (commits_of history.new)) ⊥
        (commits_of history.new ≡ commits_of history.old) }

    // The code is `ALREADY_THERE` only if the history had a commit under this id.
    ensures there { result ≡ ALREADY_THERE → Has (commits_of history.old) (id_of id.now) }

    // The code is `ALTERED` only if `id` is not the hash of the content.
    ensures altered { result ≡ ALTERED → id_of_object Commit content.now ≢ id_of id.now }

    // The code is `MISSHAPEN` only if the content does not begin with the line of a tree, a line of
    // a parent is malformed, or the date is 2^63 seconds or more.
    ensures misshapen { result ≡ MISSHAPEN → IsMisshapen content.now }

    // The code is `OK`, `ALREADY_THERE`, `ALTERED`, `MISSHAPEN` or `OUT_OF_MEMORY`.
    ensures refused { ByCode result ⊤ ⊥ ((result ≡ ALREADY_THERE) ⊎ ((result ≡ ALTERED)
        ⊎ ((result ≡ MISSHAPEN) ⊎ (result ≡ OUT_OF_MEMORY)))) }

    // Also after an error, the ref names are unchanged.
    ensures names { history.new.value.table.names ≡ history.old.value.table.names }

    // After `OK`, the ids that abbreviated object names stand for are the previous ones and this
    // id. After an error they are the previous ones, with or without this id.
    ensures ids { ByCode result
        (HasOneMore (id_of id.now) history.old.value.table.ids.keys history.new.value.table.ids.keys)
        ⊥
        (HasOneMore (id_of id.now) history.old.value.table.ids.keys history.new.value.table.ids.keys
        ⊎ (history.new.value.table.ids.keys ≡ history.old.value.table.ids.keys)) }

    // Also after an error, what the graph holds is unchanged.
    ensures held { history.new.value.graph.held ≡ history.old.value.graph.held }

    // If the noted parents are right, they stay so, also after an error. They are right if each is
    // the parent of a commit, and each missing parent is among them.
    ensures noted { IsNoted history.old → IsNoted history.new }

    // Also after an error, the extent is unchanged: the history is complete or partial as before,
    // with the same wanted commit.
    ensures extent { history.new.value.extent ≡ history.old.value.extent }
{
    let id = ObjectId(*id);
    match read(alloc, id, content) {
        Ok(commit) => insert_commit(history, id, commit),
        Err(ReadError::WrongId) => ALTERED,
        Err(ReadError::Parse(ParseError::OutOfMemory)) => OUT_OF_MEMORY,
        Err(ReadError::Parse(_)) => MISSHAPEN,
    }
}
