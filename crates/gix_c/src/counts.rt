//! C functions that count commits.

ghost use Rattle.std.specs.Prelude.{◌≡◌, ◌∷◌, ◌⊎◌, [], ⊤, None};
ghost use Rattle.gix_revwalk.specs.History.{History as Commits};
ghost use Rattle.gix_merge_base.specs.Premises.{GenerationsNeverRiseFrom};
ghost use Rattle.gix_c_core.specs.Answers.{ByCode, id_of};
ghost use Rattle.gix_c_core.specs.Behind.{commits_of};
ghost use Rattle.gix_c_core.specs.Partial.{IsUnanswered, whole_of};
ghost use Rattle.gix_c_core.specs.Spans.{spec_at, HasCount, HasSides, HasSidesAtMost};

use gix_c_core::handle::Handle;
use gix_c_core::revisions::{Span, spec_of};
use gix_c_core::status::{NO_KIND, OK};
use gix_questions::{AheadBehind, CountCommits};
use gix_revision::hash::ObjectId;
use std::alloc::Global;
use std::marker::Brand;

/// Counts the commits that `ours` reaches and `theirs` does not, and those the other way round.
///
/// # Premises
///
/// Ordered generations, for what `ours` and `theirs` reach. Without them, no count is too small.
#[unsafe(no_mangle)]
pub extern "C" fn gix_history_ahead_behind(
    alloc: Global,
    history: &mut Handle,
    ours: &[u8; 20],
    theirs: &[u8; 20],
    ahead: &mut usize,
    behind: &mut usize,
) -> i32
    ghost beyond: { Commits }
    // Premise: ordered generations. After `OK`, `ahead` is exactly how many commits of the whole
    // history `ours` reaches and `theirs` does not. `behind` is exactly how many `theirs` reaches
    // and `ours` does not.
    ensures sides { GenerationsNeverRiseFrom (whole_of history.old beyond) (id_of ours.now ∷ id_of theirs.now ∷ [])
        → ByCode result
        (HasSides (whole_of history.old beyond) (id_of ours.now) (id_of theirs.now) ahead.new behind.new) ⊥ ⊤ }

    // Without a premise: after `OK`, neither `ahead` nor `behind` is less than this exact number.
    ensures most { ByCode result
        (HasSidesAtMost (whole_of history.old beyond) (id_of ours.now) (id_of theirs.now) ahead.new behind.new) ⊥ ⊤ }

    // The code is `OK`, `OUT_OF_MEMORY` or, in a partial history only, `WANTS`. After `WANTS`, the
    // wanted commit is one that was not added. After `OUT_OF_MEMORY`, the extent is unchanged.
    // After an error, so are `ahead` and `behind`.
    ensures refused { ByCode result ⊤ ⊥ (IsUnanswered result history.old.value history.new.value
        × (ahead.new ≡ ahead.old) × (behind.new ≡ behind.old)) }

    // After a success, the extent is unchanged: the history is complete or partial as before, with
    // the same wanted commit.
    ensures extent { ByCode result (history.new.value.extent ≡ history.old.value.extent) ⊥ ⊤ }

    // Also after an error, the commits of the history are unchanged.
    ensures commits { commits_of history.new ≡ commits_of history.old }

    // Also after an error, the list of noted parents is unchanged.
    ensures named { history.new.value.named ≡ history.old.value.named }

    // Also after an error, ref names and the ids of abbreviated object names are unchanged.
    ensures table { history.new.value.table ≡ history.old.value.table }
{
    let question = AheadBehind {
        alloc,
        early: false,
        ours: ObjectId(*ours),
        theirs: ObjectId(*theirs),
    };
    let counts = match history.get_mut().answer::<Brand, _>(alloc, &question) {
        Ok(counts) => counts,
        Err(code) => return code,
    };
    *ahead = counts.0;
    *behind = counts.1;
    OK
}

/// Counts the commits of a revision range or set.
#[unsafe(no_mangle)]
pub extern "C" fn gix_history_count(
    alloc: Global,
    history: &mut Handle,
    span: &Span,
    count: &mut usize,
) -> i32
    ghost beyond: { Commits }
    // After `OK`, `count` is exactly how many commits the set means in the whole history. After an
    // error, it is unchanged.
    ensures size { ByCode result (HasCount (whole_of history.old beyond) span.now count.new) ⊥
        (count.new ≡ count.old) }

    // The code is `NO_KIND` only if the kind of the set is not one of the six.
    ensures kind { result ≡ NO_KIND → spec_at span.now ≡ None }

    // The code is `OK`, `NO_KIND`, `OUT_OF_MEMORY` or, in a partial history only, `WANTS`. After
    // `WANTS`, the wanted commit is one that was not added. After `OUT_OF_MEMORY`, the extent is
    // unchanged.
    ensures refused { ByCode result ⊤ ⊥
        ((result ≡ NO_KIND) ⊎ IsUnanswered result history.old.value history.new.value) }

    // After a success or `NO_KIND`, the extent is unchanged: the history is complete or partial as
    // before, with the same wanted commit.
    ensures extent { ByCode result (history.new.value.extent ≡ history.old.value.extent) ⊥
        (result ≡ NO_KIND → history.new.value.extent ≡ history.old.value.extent) }

    // Also after an error, the commits of the history are unchanged.
    ensures commits { commits_of history.new ≡ commits_of history.old }

    // Also after an error, the list of noted parents is unchanged.
    ensures named { history.new.value.named ≡ history.old.value.named }

    // Also after an error, ref names and the ids of abbreviated object names are unchanged.
    ensures table { history.new.value.table ≡ history.old.value.table }
{
    let Some(spec) = spec_of(span) else {
        return NO_KIND;
    };
    let question = CountCommits { alloc, spec };
    let found = match history.get_mut().answer::<Brand, _>(alloc, &question) {
        Ok(found) => found,
        Err(code) => return code,
    };
    *count = found;
    OK
}
