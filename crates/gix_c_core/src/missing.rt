//! Finds the missing parents of a history.

ghost use Rattle.std.specs.Prelude.{◌≡◌, ◌++◌, [], ◌∷◌, IfOk, OnErr, OnOk, map, take};
ghost use Rattle.std.specs.List.{filter};
ghost use Rattle.std.specs.List.Sorted.{IsStrictlySortedBy};
ghost use Rattle.gix_base.specs.Hash.{id_order};
ghost use Rattle.gix_base.specs.declared.hash.ObjectId.{ObjectId};
ghost use Rattle.gix_revwalk.specs.History.{is_one_of};
ghost use Rattle.gix_resolve.specs.ListMeaning.{past};
ghost use Rattle.gix_c_core.specs.Answers.{bytes_in};
ghost use Rattle.gix_c_core.specs.Behind.{commits_in, joined};
ghost use Rattle.gix_c_core.specs.Missing.{AreLacked, is_lacked};

use crate::history::History;
use crate::ids::bytes_of_each;
use gix_revision::commit_graph::Commits;
use gix_revision::hash::ObjectId;
use std::alloc::{AllocError, Global};
use std::collections::BTreeSet;

/// Appends `id` to `found`, if the source does not have that commit.
fn add_lacked(
    alloc: Global,
    id: ObjectId,
    source: &Commits<Global>,
    found: &mut Vec<ObjectId>,
) -> Result<(), AllocError>
    ensures { OnOk result
        (found.new.items ≡ found.old.items ++ filter (is_lacked (joined source.now)) (id ∷ [])) }
{
    if source.get(alloc, id)?.is_none() {
        found.push(id)?;
    }
    Ok(())
}

/// Returns those of `ids` that the source does not have.
fn lacked(
    alloc: Global,
    ids: &[ObjectId],
    source: &Commits<Global>,
) -> Result<Vec<ObjectId>, AllocError>
    ensures { IfOk result (λ found. found.items ≡ filter (is_lacked (joined source.now)) ids.now) }
{
    let mut found = Vec::new(alloc);
    for id in ids {
        add_lacked(alloc, *id, source, &mut found)?;
    }
    Ok(found)
}

/// Collects ids into a set.
pub(crate) fn set_of(alloc: Global, ids: Vec<ObjectId>) -> Result<BTreeSet<ObjectId>, AllocError>
    ensures { IfOk result (λ set. (q : ObjectId) → is_one_of set.keys q ≡ is_one_of ids.items q) }
{
    let set: BTreeSet<ObjectId> = ids.into_iter().collect(alloc)?;
    Ok(set)
}

/// Lists the ids of a set by rising id.
fn rising(alloc: Global, set: BTreeSet<ObjectId>) -> Result<Vec<ObjectId>, AllocError>
    ensures same { IfOk result (λ ids. ids.items ≡ set.keys) }
    ensures rising { IfOk result (λ ids. IsStrictlySortedBy id_order ids.items) }
{
    let ids = set.into_iter().collect(alloc)?;
    Ok(ids)
}

/// Sifts the noted parents: those that the history does not have stay, each once, by rising id.
pub fn sift(alloc: Global, history: &mut History) -> Result<(), AllocError>
    // After a success, exactly those noted parents stay that the history does not have, each once,
    // by rising id.
    ensures sifted { OnOk result
        (AreLacked (commits_in history.old) history.old.named.items history.new.named.items) }

    // After an error, the noted parents are unchanged.
    ensures refused { OnErr result (history.new.named ≡ history.old.named) }

    // Also after an error, the graph is unchanged, and with it the commits of the history.
    ensures graph { history.new.graph ≡ history.old.graph }

    // Also after an error, the ref names, and the ids that abbreviated object names stand for, are
    // unchanged.
    ensures table { history.new.table ≡ history.old.table }

    // Also after an error, the history is complete or partial as before, and the wanted commit is
    // unchanged.
    ensures extent { history.new.extent ≡ history.old.extent }
{
    let found = lacked(alloc, &history.named, history.graph.source())?;
    let set = set_of(alloc, found)?;
    history.named = rising(alloc, set)?;
    Ok(())
}

/// Keeps the ids that are greater than the bound. Without a bound, all ids stay.
fn keep_past(ids: &mut Vec<ObjectId>, bound: Option<ObjectId>)
    ensures { ids.new.items ≡ past bound ids.old.items }
{
    if let Some(bound) = bound {
        ids.retain(|id| id.cmp(&bound).is_gt());
    }
}

/// Returns the bytes of the first `limit` ids that are greater than the bound.
pub fn page_of(
    alloc: Global,
    ids: &[ObjectId],
    bound: Option<ObjectId>,
    limit: usize,
) -> Result<Vec<[u8; 20]>, AllocError>
    // The answer has the bytes of the first `limit` ids that are greater than the bound, in the
    // same order. Without a bound, all ids count.
    ensures { IfOk result
        (λ bytes. bytes.items ≡ map bytes_in (take limit (past bound ids.now))) }
{
    let mut page = ids.to_vec(alloc)?;
    keep_past(&mut page, bound);
    page.truncate(limit);
    bytes_of_each(alloc, &page)
}
