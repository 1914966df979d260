//! C functions for lists that are made once.

ghost use Rattle.std.specs.Prelude.{◌≡◌, ◌⊎◌, ⊤, None, Some, length};
ghost use Rattle.gix_revwalk.specs.History.{History as Commits};
ghost use Rattle.gix_c_core.specs.Answers.{ByCode};
ghost use Rattle.gix_c_core.specs.Behind.{commits_of};
ghost use Rattle.gix_c_core.specs.Missing.{IsNoted};
ghost use Rattle.gix_c_core.specs.Partial.{IsUnanswered, whole_of};
ghost use Rattle.gix_c_core.specs.Spans.{spec_at};
ghost use Rattle.gix_c_core.specs.Stocks.{IsListOf, IsListOfMissing, IsRead};

use gix_c_core::handle::Handle;
use gix_c_core::listed::{behind, copy_front, place_of};
use gix_c_core::missing::sift;
use gix_c_core::questions::All;
use gix_c_core::revisions::{Span, spec_of};
use gix_c_core::status::{NO_KIND, OK, OUT_OF_MEMORY};
use gix_c_core::stock_handle::IdsHandle;
use gix_c_core::stock_place::IdsPlace;
use std::alloc::Global;
use std::marker::Brand;

/// Lists the commits of a revision range or set by rising id, in a list that `*out` then owns.
///
/// What `*out` owned before is not freed.
#[unsafe(no_mangle)]
pub extern "C" fn gix_history_list_all(
    alloc: Global,
    history: &mut Handle,
    span: &Span,
    out: &mut IdsPlace,
) -> i32
    ghost beyond: { Commits }
    // After `OK`, `out` has a list of exactly the commits that the set means in the whole history,
    // each once, by rising id.
    ensures list { ByCode result
        (IsListOf (whole_of history.old beyond) span.now out.new.value) ⊥ ⊤ }

    // After an error, `out` is unchanged.
    ensures unwritten { ByCode result ⊤ ⊤ (out.new ≡ out.old) }

    // The code is `OK`, `NO_KIND`, `OUT_OF_MEMORY` or, in a partial history only, `WANTS`. After
    // `WANTS`, the wanted commit is one that was not added. After `OUT_OF_MEMORY`, the extent is
    // unchanged.
    ensures refused { ByCode result ⊤ ⊥
        ((result ≡ NO_KIND) ⊎ IsUnanswered result history.old.value history.new.value) }

    // After a success or `NO_KIND`, the extent is unchanged: the history is complete or partial as
    // before, with the same wanted commit.
    ensures extent { ByCode result (history.new.value.extent ≡ history.old.value.extent) ⊥
        (result ≡ NO_KIND → history.new.value.extent ≡ history.old.value.extent) }

    // The code is `NO_KIND` only if the kind of the set is not one of the six.
    ensures kind { result ≡ NO_KIND → spec_at span.now ≡ None }

    // Also after an error, the commits of the history are unchanged.
    ensures commits { commits_of history.new ≡ commits_of history.old }

    // Also after an error, the list of noted parents is unchanged.
    ensures named { history.new.value.named ≡ history.old.value.named }

    // Also after an error, ref names and the ids of abbreviated object names are unchanged.
    ensures table { history.new.value.table ≡ history.old.value.table }
{
    let Some(spec) = spec_of(span) else {
        return NO_KIND;
    };
    let question = All { alloc, spec };
    let ids = match history.get_mut().answer::<Brand, _>(alloc, &question) {
        Ok(ids) => ids,
        Err(code) => return code,
    };
    let Ok(place) = place_of(alloc, &ids) else {
        return OUT_OF_MEMORY;
    };
    *out = place;
    OK
}

/// Lists the missing parents by rising id, in a list that `*out` then owns.
///
/// What `*out` owned before is not freed.
#[unsafe(no_mangle)]
pub extern "C" fn gix_history_missing_all(
    alloc: Global,
    history: &mut Handle,
    out: &mut IdsPlace,
) -> i32
    // If the noted parents are right: after `OK`, `out` has a list of exactly the missing parents,
    // each once, by rising id.
    ensures list { IsNoted history.old → ByCode result
        (IsListOfMissing (commits_of history.old) out.new.value) ⊥ ⊤ }

    // The code is `OK` or `OUT_OF_MEMORY`. After an error, `out` is unchanged.
    ensures refused { ByCode result ⊤ ⊥ ((result ≡ OUT_OF_MEMORY) × (out.new ≡ out.old)) }

    // Also after an error, the commits of the history are unchanged.
    ensures commits { commits_of history.new ≡ commits_of history.old }

    // If the noted parents are right, they stay so, also after an error. They are right if each is
    // the parent of a commit, and each missing parent is among them.
    ensures noted { IsNoted history.old → IsNoted history.new }

    // Also after an error, ref names and the ids of abbreviated object names are unchanged.
    ensures table { history.new.value.table ≡ history.old.value.table }

    // Also after an error, the extent is unchanged: the history is complete or partial as before,
    // with the same wanted commit.
    ensures extent { history.new.value.extent ≡ history.old.value.extent }
{
    let history = history.get_mut();
    match sift(alloc, history) {
        Ok(()) => {}
        Err(_) => return OUT_OF_MEMORY,
    }
    let Ok(place) = place_of(alloc, &history.named) else {
        return OUT_OF_MEMORY;
    };
    *out = place;
    OK
}

/// Returns the number of ids in a list.
#[unsafe(no_mangle)]
pub extern "C" fn gix_ids_len(ids: &mut IdsHandle) -> usize
    // The result is the number of ids in the list.
    ensures len { result ≡ length ids.old.value.ids.items }

    // The list is unchanged.
    ensures kept { ids.new.value ≡ ids.old.value }
{
    ids.get_mut().ids.len()
}

/// Writes the ids of a list from the place `from` on, as many as fit into `out`. Returns how many
/// it wrote.
#[unsafe(no_mangle)]
pub extern "C" fn gix_ids_read(ids: &mut IdsHandle, from: usize, out: &mut [[u8; 20]]) -> usize
    // The ids from the place `from` on replace the front of `out`, as many as fit. The result is
    // their number.
    ensures read { IsRead ids.old.value.ids.items from out.old out.new result }

    // The list is unchanged.
    ensures kept { ids.new.value ≡ ids.old.value }
{
    copy_front(behind(&ids.get_mut().ids, from), out)
}
