//! C functions that resolve revisions and list commits.

ghost use Rattle.std.specs.Prelude.{◌≡◌, ◌⊎◌, ⊤, None, Some, slice_get};
ghost use Rattle.std.specs.Option.{option_map};
ghost use Rattle.gix_revwalk.specs.History.{History as Commits};
ghost use Rattle.gix_resolve.specs.Resolved.{Resolved};
ghost use Rattle.gix_resolve.specs.RevParse.{RevParsed};
ghost use Rattle.gix_c_core.specs.Answers.{ByCode, ByFault, id_of};
ghost use Rattle.gix_c_core.specs.Behind.{commits_of, known_in};
ghost use Rattle.gix_c_core.specs.Partial.{IsUnanswered, whole_of};
ghost use Rattle.gix_c_core.specs.Spans.{spec_at, HasFault, HasSpec, HasPage};

use gix_c_core::faults::FaultPlace;
use gix_c_core::handle::Handle;
use gix_c_core::ids::{bytes_of_each, write};
use gix_c_core::questions::Page;
use gix_c_core::resolved::Reading;
use gix_c_core::revisions::{Span, spec_of};
use gix_c_core::status::{FAULT, NO_KIND, OK, OUT_OF_MEMORY};
use gix_revision::date::Time;
use gix_revision::hash::ObjectId;
use std::alloc::Global;
use std::marker::Brand;

/// Resolves a revision, such as `main~2..topic`.
///
/// Relative dates count from the moment that `seconds` and `offset` give.
#[unsafe(no_mangle)]
pub extern "C" fn gix_history_resolve(
    alloc: Global,
    history: &mut Handle,
    text: &[u8],
    seconds: i64,
    offset: i32,
    out: &mut Span,
    fault: &mut FaultPlace,
) -> i32
    ghost beyond: { Commits }
    // After `OK`, `out` is what `text` means in the whole history, abbreviated ids first. After 100
    // + n, `text` has fault n, and `fault` says n and its last place. Errors are `OUT_OF_MEMORY`,
    // which keeps the extent, and `WANTS` of a partial history, which notes a commit not added.
    ensures spec { ByFault result
        (HasSpec (Resolved text.now (record { seconds = seconds; offset = offset })
        (known_in history.old.value) (whole_of history.old beyond)) out.new)
        (HasFault (Resolved text.now (record { seconds = seconds; offset = offset })
        (known_in history.old.value) (whole_of history.old beyond)) text.now fault.new result)
        (IsUnanswered result history.old.value history.new.value) }

    // Unless the code is `OK`, `out` is unchanged.
    ensures kept { ByFault result ⊤ (out.new ≡ out.old) (out.new ≡ out.old) }

    // Unless the code is that of a fault, `fault` is unchanged.
    ensures faultless { ByFault result (fault.new ≡ fault.old) ⊤ (fault.new ≡ fault.old) }

    // After a success or a fault, the extent is unchanged: the history is complete or partial as
    // before, with the same wanted commit.
    ensures extent { ByFault result (history.new.value.extent ≡ history.old.value.extent)
        (history.new.value.extent ≡ history.old.value.extent) ⊤ }

    // Also after an error, the commits of the history are unchanged.
    ensures commits { commits_of history.new ≡ commits_of history.old }

    // Also after an error, the list of noted parents is unchanged.
    ensures named { history.new.value.named ≡ history.old.value.named }

    // Also after an error, ref names and the ids of abbreviated object names are unchanged.
    ensures table { history.new.value.table ≡ history.old.value.table }
{
    let now = Time { seconds, offset };
    match history.get_mut().read::<Brand>(alloc, text, now, false) {
        Ok(Reading::Set(span)) => {
            *out = span;
            OK
        }
        Ok(Reading::Fault(place)) => {
            *fault = place;
            FAULT + i32::from(place.number)
        }
        Ok(Reading::OutOfMemory) => OUT_OF_MEMORY,
        Err(code) => code,
    }
}

/// Resolves a revision in git's order: a ref name wins over an abbreviated object name.
///
/// Relative dates count from the moment that `seconds` and `offset` give.
#[unsafe(no_mangle)]
pub extern "C" fn gix_history_rev_parse(
    alloc: Global,
    history: &mut Handle,
    text: &[u8],
    seconds: i64,
    offset: i32,
    out: &mut Span,
    fault: &mut FaultPlace,
) -> i32
    ghost beyond: { Commits }
    // After `OK`, `out` is what `text` means in the whole history, ref names first. After 100 + n,
    // `text` has fault n, and `fault` says n and its last place. Errors are `OUT_OF_MEMORY`, which
    // keeps the extent, and `WANTS` of a partial history, which notes a commit not added.
    ensures spec { ByFault result
        (HasSpec (RevParsed text.now (record { seconds = seconds; offset = offset })
        (known_in history.old.value) (whole_of history.old beyond)) out.new)
        (HasFault (RevParsed text.now (record { seconds = seconds; offset = offset })
        (known_in history.old.value) (whole_of history.old beyond)) text.now fault.new result)
        (IsUnanswered result history.old.value history.new.value) }

    // Unless the code is `OK`, `out` is unchanged.
    ensures kept { ByFault result ⊤ (out.new ≡ out.old) (out.new ≡ out.old) }

    // Unless the code is that of a fault, `fault` is unchanged.
    ensures faultless { ByFault result (fault.new ≡ fault.old) ⊤ (fault.new ≡ fault.old) }

    // After a success or a fault, the extent is unchanged: the history is complete or partial as
    // before, with the same wanted commit.
    ensures extent { ByFault result (history.new.value.extent ≡ history.old.value.extent)
        (history.new.value.extent ≡ history.old.value.extent) ⊤ }

    // Also after an error, the commits of the history are unchanged.
    ensures commits { commits_of history.new ≡ commits_of history.old }

    // Also after an error, the list of noted parents is unchanged.
    ensures named { history.new.value.named ≡ history.old.value.named }

    // Also after an error, ref names and the ids of abbreviated object names are unchanged.
    ensures table { history.new.value.table ≡ history.old.value.table }
{
    let now = Time { seconds, offset };
    match history.get_mut().read::<Brand>(alloc, text, now, true) {
        Ok(Reading::Set(span)) => {
            *out = span;
            OK
        }
        Ok(Reading::Fault(place)) => {
            *fault = place;
            FAULT + i32::from(place.number)
        }
        Ok(Reading::OutOfMemory) => OUT_OF_MEMORY,
        Err(code) => code,
    }
}

/// Lists the commits of a revision range or set by rising id.
///
/// The call writes the first ones that are greater than `after`, as many as fit into `out`.
#[unsafe(no_mangle)]
pub extern "C" fn gix_history_list(
    alloc: Global,
    history: &mut Handle,
    span: &Span,
    after: &[[u8; 20]],
    out: &mut [[u8; 20]],
    count: &mut usize,
) -> i32
    ghost beyond: { Commits }
    // After `OK`, the commits that the set means in the whole history, greater than the first id of
    // `after`, if it has one, replace the front of `out`, as many as fit, each once, by rising id.
    // `count` is how many are written.
    ensures page { ByCode result (HasPage (whole_of history.old beyond) span.now
        (option_map id_of (slice_get after.now 0)) out.old out.new count.new) ⊥ ⊤ }

    // After an error, `out` and `count` are unchanged.
    ensures unwritten { ByCode result ⊤ ⊤ ((out.new ≡ out.old) × (count.new ≡ count.old)) }

    // The code is `OK`, `NO_KIND`, `OUT_OF_MEMORY` or, in a partial history only, `WANTS`. After
    // `WANTS`, the wanted commit is one that was not added. After `OUT_OF_MEMORY`, the extent is
    // unchanged.
    ensures refused { ByCode result ⊤ ⊥
        ((result ≡ NO_KIND) ⊎ IsUnanswered result history.old.value history.new.value) }

    // After a success or `NO_KIND`, the extent is unchanged: the history is complete or partial as
    // before, with the same wanted commit.
    ensures extent { ByCode result (history.new.value.extent ≡ history.old.value.extent) ⊥
        (result ≡ NO_KIND → history.new.value.extent ≡ history.old.value.extent) }

    // The code is `NO_KIND` only if the kind of the set is not one of the six.
    ensures kind { result ≡ NO_KIND → spec_at span.now ≡ None }

    // Also after an error, the commits of the history are unchanged.
    ensures commits { commits_of history.new ≡ commits_of history.old }

    // Also after an error, the list of noted parents is unchanged.
    ensures named { history.new.value.named ≡ history.old.value.named }

    // Also after an error, ref names and the ids of abbreviated object names are unchanged.
    ensures table { history.new.value.table ≡ history.old.value.table }
{
    let Some(spec) = spec_of(span) else {
        return NO_KIND;
    };
    let question = Page {
        alloc,
        spec,
        after: after.first().map(|id| ObjectId(*id)),
        limit: out.len(),
    };
    let ids = match history.get_mut().answer::<Brand, _>(alloc, &question) {
        Ok(ids) => ids,
        Err(code) => return code,
    };
    let Ok(bytes) = bytes_of_each(alloc, &ids) else {
        return OUT_OF_MEMORY;
    };
    write(&bytes, out, count);
    OK
}
