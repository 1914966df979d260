//! C function that lists the missing parents of a history.

ghost use Rattle.std.specs.Prelude.{◌≡◌, ⊤, slice_get};
ghost use Rattle.std.specs.Option.{option_map};
ghost use Rattle.gix_c_core.specs.Answers.{ByCode, id_of};
ghost use Rattle.gix_c_core.specs.Behind.{commits_of};
ghost use Rattle.gix_c_core.specs.Missing.{HasMissing, IsNoted};

use gix_c_core::handle::Handle;
use gix_c_core::ids::write;
use gix_c_core::missing::{page_of, sift};
use gix_c_core::status::{OK, OUT_OF_MEMORY};
use gix_revision::hash::ObjectId;
use std::alloc::Global;

/// Lists the missing parents: parents of commits of the history that are not commits of it.
///
/// They are sorted by rising id. The call writes the first ones that are greater than `after`, as
/// many as fit into `out`.
#[unsafe(no_mangle)]
pub extern "C" fn gix_history_missing(
    alloc: Global,
    history: &mut Handle,
    after: &[[u8; 20]],
    out: &mut [[u8; 20]],
    count: &mut usize,
) -> i32
    // If the noted parents are right: after `OK`, the missing parents greater than the first id of
    // `after`, if it has one, replace the front of `out`, as many as fit, each once, by rising id.
    // `count` is how many are written.
    ensures page { IsNoted history.old → ByCode result
        (HasMissing (commits_of history.old) (option_map id_of (slice_get after.now 0))
        out.old out.new count.new) ⊥ ⊤ }

    // The code is `OK` or `OUT_OF_MEMORY`. After an error, `out` and `count` are unchanged.
    ensures refused { ByCode result ⊤ ⊥
        ((result ≡ OUT_OF_MEMORY) × (out.new ≡ out.old) × (count.new ≡ count.old)) }

    // Also after an error, the commits of the history are unchanged.
    ensures commits { commits_of history.new ≡ commits_of history.old }

    // If the noted parents are right, they stay so, also after an error. They are right if each is
    // the parent of a commit, and each missing parent is among them.
    ensures noted { IsNoted history.old → IsNoted history.new }

    // Also after an error, ref names and the ids of abbreviated object names are unchanged.
    ensures table { history.new.value.table ≡ history.old.value.table }

    // Also after an error, the extent is unchanged: the history is complete or partial as before,
    // with the same wanted commit.
    ensures extent { history.new.value.extent ≡ history.old.value.extent }
{
    let after = after.first().map(|id| ObjectId(*id));
    let history = history.get_mut();
    match sift(alloc, history) {
        Ok(()) => {}
        Err(_) => return OUT_OF_MEMORY,
    }
    let Ok(bytes) = page_of(alloc, &history.named, after, out.len()) else {
        return OUT_OF_MEMORY;
    };
    write(&bytes, out, count);
    OK
}
