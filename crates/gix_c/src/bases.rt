//! C functions for merge bases.

ghost use Rattle.std.specs.Prelude.{◌≡◌, ◌∷◌, ⊤, None, [], map, IsTrue};
ghost use Rattle.gix_revwalk.specs.History.{Has, History as Commits, IsAncestor, same_id};
ghost use Rattle.gix_merge_base.specs.Bases.{AreBases};
ghost use Rattle.gix_merge_base.specs.Octopus.{IsOctopusBase};
ghost use Rattle.gix_merge_base.specs.Premises.{IsAcyclicFrom, GenerationsNeverRiseFrom};
ghost use Rattle.gix_c_core.specs.Answers.{ByCode, ByYes, HasBases, HasIndependent, HasOctopusBase, id_of};
ghost use Rattle.gix_c_core.specs.Behind.{commits_of};
ghost use Rattle.gix_c_core.specs.Partial.{IsUnanswered, whole_of};

use gix_c_core::handle::Handle;
use gix_c_core::ids::{bytes_of, bytes_of_each, ids_of, write, write_found};
use gix_c_core::status::{NONE, OK, OUT_OF_MEMORY};
use gix_questions::{Independent, MergeBases, Octopus};
use gix_revision::hash::ObjectId;
use std::alloc::Global;
use std::marker::Brand;

/// Writes the merge bases of `first` and a hypothetical merge of `others`.
///
/// # Premises
///
/// Acyclic and ordered generations, for what `first` and `others` reach.
#[unsafe(no_mangle)]
pub extern "C" fn gix_history_merge_bases(
    alloc: Global,
    history: &mut Handle,
    first: &[u8; 20],
    others: &[[u8; 20]],
    out: &mut [[u8; 20]],
    count: &mut usize,
) -> i32
    ghost beyond: { Commits }
    // Premises: acyclic, ordered generations. After `OK`, `count` is the number of merge bases in
    // the whole history. They replace the front of `out`, as many as fit, each once, by falling
    // generation number, falling date and rising id. After `NONE`, there is none.
    ensures bases { IsAcyclicFrom (whole_of history.old beyond) (id_of first.now ∷ map id_of others.now)
        → GenerationsNeverRiseFrom (whole_of history.old beyond) (id_of first.now ∷ map id_of others.now)
        → ByCode result
        (HasBases (whole_of history.old beyond) (id_of first.now) (map id_of others.now) out.old out.new count.new)
        (AreBases (whole_of history.old beyond) (id_of first.now) (map id_of others.now) [])
        ⊤ }

    // After `NONE`, `count` is 0 and `out` is unchanged.
    ensures none { ByCode result ⊤ ((out.new ≡ out.old) × (count.new ≡ 0)) ⊤ }

    // The code is `OK`, `NONE`, `OUT_OF_MEMORY` or, in a partial history only, `WANTS`. After
    // `WANTS`, the wanted commit is one that was not added. After `OUT_OF_MEMORY`, the extent is
    // unchanged. After an error, so are `out` and `count`.
    ensures refused { ByCode result ⊤ ⊤ (IsUnanswered result history.old.value history.new.value
        × (out.new ≡ out.old) × (count.new ≡ count.old)) }

    // After a success, the extent is unchanged: the history is complete or partial as before, with
    // the same wanted commit.
    ensures extent { ByCode result (history.new.value.extent ≡ history.old.value.extent)
        (history.new.value.extent ≡ history.old.value.extent) ⊤ }

    // Also after an error, the commits of the history are unchanged.
    ensures commits { commits_of history.new ≡ commits_of history.old }

    // Also after an error, the list of noted parents is unchanged.
    ensures named { history.new.value.named ≡ history.old.value.named }

    // Also after an error, ref names and the ids of abbreviated object names are unchanged.
    ensures table { history.new.value.table ≡ history.old.value.table }
{
    let Ok(others) = ids_of(alloc, others) else {
        return OUT_OF_MEMORY;
    };
    let question = MergeBases {
        alloc,
        first: ObjectId(*first),
        others: &others,
    };
    let found = match history.get_mut().answer::<Brand, _>(alloc, &question) {
        Ok(found) => found,
        Err(code) => return code,
    };
    match write_found(alloc, &found, out, count) {
        Ok(()) => {}
        Err(_) => return OUT_OF_MEMORY,
    }
    match found {
        Some(_) => OK,
        None => NONE,
    }
}

/// Writes the octopus base of `first` and `others` together.
///
/// # Premises
///
/// Acyclic and ordered generations, for what `first` and `others` reach.
#[unsafe(no_mangle)]
pub extern "C" fn gix_history_octopus(
    alloc: Global,
    history: &mut Handle,
    first: &[u8; 20],
    others: &[[u8; 20]],
    out: &mut [u8; 20],
) -> i32
    ghost beyond: { Commits }
    // Premises: acyclic, ordered generations. After `OK`, `out` is the octopus base of `first` and
    // `others` in the whole history. After `NONE`, there is none.
    ensures base { IsAcyclicFrom (whole_of history.old beyond) (id_of first.now ∷ map id_of others.now)
        → GenerationsNeverRiseFrom (whole_of history.old beyond) (id_of first.now ∷ map id_of others.now)
        → ByCode result
        (HasOctopusBase (whole_of history.old beyond) (id_of first.now) (map id_of others.now) out.new)
        (IsOctopusBase (whole_of history.old beyond) (id_of first.now) (map id_of others.now) None)
        ⊤ }

    // After `NONE` or an error, `out` is unchanged.
    ensures kept { ByCode result ⊤ (out.new ≡ out.old) (out.new ≡ out.old) }

    // The code is `OK`, `NONE`, `OUT_OF_MEMORY` or, in a partial history only, `WANTS`. After
    // `WANTS`, the wanted commit is one that was not added. After `OUT_OF_MEMORY`, the extent is
    // unchanged.
    ensures refused { ByCode result ⊤ ⊤ (IsUnanswered result history.old.value history.new.value) }

    // After a success, the extent is unchanged: the history is complete or partial as before, with
    // the same wanted commit.
    ensures extent { ByCode result (history.new.value.extent ≡ history.old.value.extent)
        (history.new.value.extent ≡ history.old.value.extent) ⊤ }

    // Also after an error, the commits of the history are unchanged.
    ensures commits { commits_of history.new ≡ commits_of history.old }

    // Also after an error, the list of noted parents is unchanged.
    ensures named { history.new.value.named ≡ history.old.value.named }

    // Also after an error, ref names and the ids of abbreviated object names are unchanged.
    ensures table { history.new.value.table ≡ history.old.value.table }
{
    let Ok(others) = ids_of(alloc, others) else {
        return OUT_OF_MEMORY;
    };
    let question = Octopus {
        alloc,
        first: ObjectId(*first),
        others: &others,
    };
    let found = match history.get_mut().answer::<Brand, _>(alloc, &question) {
        Ok(found) => found,
        Err(code) => return code,
    };
    match found {
        Some(id) => {
            *out = bytes_of(&id);
            OK
        }
        None => NONE,
    }
}

/// Returns `OK` if `ancestor` is reachable from `of`, and `NONE` if it is not.
///
/// A commit that the history has is reachable from itself.
///
/// # Premises
///
/// Ordered generations, for what `of` reaches. Without them, `OK` is still right.
#[unsafe(no_mangle)]
pub extern "C" fn gix_history_is_ancestor(
    alloc: Global,
    history: &mut Handle,
    ancestor: &[u8; 20],
    of: &[u8; 20],
) -> i32
    ghost beyond: { Commits }
    // Premise: ordered generations, for what `of` reaches. After `OK`, `of` reaches `ancestor` in
    // the whole history. After `NONE`, it does not.
    ensures ancestor { GenerationsNeverRiseFrom (whole_of history.old beyond) (id_of of.now ∷ [])
        → ByCode result
        (IsAncestor (whole_of history.old beyond) (id_of of.now) (id_of ancestor.now))
        (¬ IsAncestor (whole_of history.old beyond) (id_of of.now) (id_of ancestor.now))
        ⊤ }

    // Without a premise: after `OK`, `of` reaches `ancestor` in the whole history.
    ensures reached { ByCode result
        (IsAncestor (whole_of history.old beyond) (id_of of.now) (id_of ancestor.now)) ⊤ ⊤ }

    // If both ids are equal: after `OK`, the whole history has the id. After `NONE`, it does not.
    ensures same { IsTrue (same_id (id_of ancestor.now) (id_of of.now))
        → ByCode result (Has (whole_of history.old beyond) (id_of of.now))
        (¬ Has (whole_of history.old beyond) (id_of of.now)) ⊤ }

    // The code is `OK`, `NONE`, `OUT_OF_MEMORY` or, in a partial history only, `WANTS`. After
    // `WANTS`, the wanted commit is one that was not added. After `OUT_OF_MEMORY`, the extent is
    // unchanged.
    ensures refused { ByCode result ⊤ ⊤ (IsUnanswered result history.old.value history.new.value) }

    // After a success, the extent is unchanged: the history is complete or partial as before, with
    // the same wanted commit.
    ensures extent { ByCode result (history.new.value.extent ≡ history.old.value.extent)
        (history.new.value.extent ≡ history.old.value.extent) ⊤ }

    // Also after an error, the commits of the history are unchanged.
    ensures commits { commits_of history.new ≡ commits_of history.old }

    // Also after an error, the list of noted parents is unchanged.
    ensures named { history.new.value.named ≡ history.old.value.named }

    // Also after an error, ref names and the ids of abbreviated object names are unchanged.
    ensures table { history.new.value.table ≡ history.old.value.table }
{
    let question = gix_questions::IsAncestor {
        alloc,
        early: false,
        ancestor: ObjectId(*ancestor),
        of: ObjectId(*of),
    };
    match history.get_mut().answer::<Brand, _>(alloc, &question) {
        Ok(true) => OK,
        Ok(false) => NONE,
        Err(code) => code,
    }
}

/// Returns 1 if `ancestor` is reachable from `from`, and 0 if it is not.
///
/// A commit that the history has is reachable from itself.
///
/// # Premises
///
/// Ordered generations, for what `from` reaches. Without them, 1 is still right.
#[unsafe(no_mangle)]
pub extern "C" fn gix_history_reaches(
    alloc: Global,
    history: &mut Handle,
    from: &[u8; 20],
    ancestor: &[u8; 20],
) -> i32
    ghost beyond: { Commits }
    // Premise: ordered generations, for what `from` reaches. After 1, `from` reaches `ancestor` in
    // the whole history. After 0, it does not.
    ensures ancestor { GenerationsNeverRiseFrom (whole_of history.old beyond) (id_of from.now ∷ [])
        → ByYes result
        (IsAncestor (whole_of history.old beyond) (id_of from.now) (id_of ancestor.now))
        (¬ IsAncestor (whole_of history.old beyond) (id_of from.now) (id_of ancestor.now))
        ⊤ }

    // Without a premise: after 1, `from` reaches `ancestor` in the whole history.
    ensures reached { ByYes result
        (IsAncestor (whole_of history.old beyond) (id_of from.now) (id_of ancestor.now)) ⊤ ⊤ }

    // The result is 1, 0, `OUT_OF_MEMORY` or, in a partial history only, `WANTS`. After `WANTS`,
    // the wanted commit is one that was not added. After `OUT_OF_MEMORY`, the extent is unchanged.
    ensures refused { ByYes result ⊤ ⊤ (IsUnanswered result history.old.value history.new.value) }

    // After a success, the extent is unchanged: the history is complete or partial as before, with
    // the same wanted commit.
    ensures extent { ByYes result (history.new.value.extent ≡ history.old.value.extent)
        (history.new.value.extent ≡ history.old.value.extent) ⊤ }

    // Also after an error, the commits of the history are unchanged.
    ensures commits { commits_of history.new ≡ commits_of history.old }

    // Also after an error, the list of noted parents is unchanged.
    ensures named { history.new.value.named ≡ history.old.value.named }

    // Also after an error, ref names and the ids of abbreviated object names are unchanged.
    ensures table { history.new.value.table ≡ history.old.value.table }
{
    let ancestor = ObjectId(*ancestor);
    let question = gix_questions::IsAncestor {
        alloc,
        early: false,
        ancestor,
        of: ObjectId(*from),
    };
    match history.get_mut().answer::<Brand, _>(alloc, &question) {
        Ok(true) => 1,
        Ok(false) => 0,
        Err(code) => code,
    }
}

/// Writes those of `ids` that are not reachable from any other of them.
///
/// Each is written once, in the order of their first places.
///
/// # Premises
///
/// Acyclic and ordered generations, for what `ids` reach.
#[unsafe(no_mangle)]
pub extern "C" fn gix_history_independent(
    alloc: Global,
    history: &mut Handle,
    ids: &[[u8; 20]],
    out: &mut [[u8; 20]],
    count: &mut usize,
) -> i32
    ghost beyond: { Commits }
    // Premises: acyclic, ordered generations. After `OK`, `count` is how many different ones of
    // `ids` no other one reaches in the whole history. They replace the front of `out`, as many as
    // fit, each once, in the order of their first places.
    ensures independent { IsAcyclicFrom (whole_of history.old beyond) (map id_of ids.now)
        → GenerationsNeverRiseFrom (whole_of history.old beyond) (map id_of ids.now)
        → ByCode result
        (HasIndependent (whole_of history.old beyond) (map id_of ids.now) out.old out.new count.new) ⊥ ⊤ }

    // The code is `OK`, `OUT_OF_MEMORY` or, in a partial history only, `WANTS`. After `WANTS`, the
    // wanted commit is one that was not added. After `OUT_OF_MEMORY`, the extent is unchanged.
    // After an error, so are `out` and `count`.
    ensures refused { ByCode result ⊤ ⊥ (IsUnanswered result history.old.value history.new.value
        × (out.new ≡ out.old) × (count.new ≡ count.old)) }

    // After a success, the extent is unchanged: the history is complete or partial as before, with
    // the same wanted commit.
    ensures extent { ByCode result (history.new.value.extent ≡ history.old.value.extent) ⊥ ⊤ }

    // Also after an error, the commits of the history are unchanged.
    ensures commits { commits_of history.new ≡ commits_of history.old }

    // Also after an error, the list of noted parents is unchanged.
    ensures named { history.new.value.named ≡ history.old.value.named }

    // Also after an error, ref names and the ids of abbreviated object names are unchanged.
    ensures table { history.new.value.table ≡ history.old.value.table }
{
    let Ok(ids) = ids_of(alloc, ids) else {
        return OUT_OF_MEMORY;
    };
    let question = Independent { alloc, ids: &ids };
    let left = match history.get_mut().answer::<Brand, _>(alloc, &question) {
        Ok(left) => left,
        Err(code) => return code,
    };
    let Ok(bytes) = bytes_of_each(alloc, &left) else {
        return OUT_OF_MEMORY;
    };
    write(&bytes, out, count);
    OK
}
