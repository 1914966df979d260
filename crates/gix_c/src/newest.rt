//! C function that sorts commits.

ghost use Rattle.std.specs.Prelude.{◌≡◌, ⊤, map};
ghost use Rattle.gix_revwalk.specs.History.{History as Commits};
ghost use Rattle.gix_c_core.specs.Answers.{ByCode, HasNewestFirst, id_of};
ghost use Rattle.gix_c_core.specs.Behind.{commits_of};
ghost use Rattle.gix_c_core.specs.Partial.{IsUnanswered, whole_of};

use gix_c_core::handle::Handle;
use gix_c_core::ids::{bytes_of_each, ids_of, write};
use gix_c_core::questions::NewestFirst;
use gix_c_core::status::{OK, OUT_OF_MEMORY};
use std::alloc::Global;
use std::marker::Brand;

/// Sorts those of `ids` that the history has, each once.
///
/// They are sorted by falling generation number, then falling time, then rising id.
#[unsafe(no_mangle)]
pub extern "C" fn gix_history_newest_first(
    alloc: Global,
    history: &mut Handle,
    ids: &[[u8; 20]],
    out: &mut [[u8; 20]],
    count: &mut usize,
) -> i32
    ghost beyond: { Commits }
    // After `OK`, `count` is how many different ones of `ids` the whole history has. They replace
    // the front of `out`, as many as fit, each once, by falling generation number, falling date and
    // rising id.
    ensures newest { ByCode result
        (HasNewestFirst (whole_of history.old beyond) (map id_of ids.now) out.old out.new count.new) ⊥ ⊤ }

    // The code is `OK`, `OUT_OF_MEMORY` or, in a partial history only, `WANTS`. After `WANTS`, the
    // wanted commit is one that was not added. After `OUT_OF_MEMORY`, the extent is unchanged.
    // After an error, so are `out` and `count`.
    ensures refused { ByCode result ⊤ ⊥ (IsUnanswered result history.old.value history.new.value
        × (out.new ≡ out.old) × (count.new ≡ count.old)) }

    // After a success, the extent is unchanged: the history is complete or partial as before, with
    // the same wanted commit.
    ensures extent { ByCode result (history.new.value.extent ≡ history.old.value.extent) ⊥ ⊤ }

    // Also after an error, the commits of the history are unchanged.
    ensures commits { commits_of history.new ≡ commits_of history.old }

    // Also after an error, the list of noted parents is unchanged.
    ensures named { history.new.value.named ≡ history.old.value.named }

    // Also after an error, ref names and the ids of abbreviated object names are unchanged.
    ensures table { history.new.value.table ≡ history.old.value.table }
{
    let Ok(ids) = ids_of(alloc, ids) else {
        return OUT_OF_MEMORY;
    };
    let question = NewestFirst { alloc, ids: &ids };
    let found = match history.get_mut().answer::<Brand, _>(alloc, &question) {
        Ok(found) => found,
        Err(code) => return code,
    };
    let Ok(bytes) = bytes_of_each(alloc, &found) else {
        return OUT_OF_MEMORY;
    };
    write(&bytes, out, count);
    OK
}
