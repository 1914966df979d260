//! The order of answers: by falling generation number, then falling time, then rising id.

ghost use Rattle.std.specs.Prelude.{◌≡◌, ◌∷◌, [], ◌↔◌, IfOk, IsTrue, map};
ghost use Rattle.std.specs.List.{IsDistinct, filter_map};
ghost use Rattle.gix_base.specs.declared.hash.ObjectId.{ObjectId};
ghost use Rattle.gix_revwalk.specs.History.{Has, is_one_of, same_id};
ghost use Rattle.gix_merge_base.specs.Keys.{IsInOrder};
ghost use Rattle.gix_merge_base.specs.Candidates.{candidate_at, turned_at, id_in};
ghost use Rattle.gix_revwalk.specs.Walks.{HoldsMore};
ghost use Rattle.gix_merge_base.specs.AfterCall.{AfterCall, LoadsFrom};

use crate::merge_base::error::{Error, commit_refused};
use crate::merge_base::flags::Flags;
use crate::merge_base::gen_then_time::GenThenTime;
use bitflags::Flags as BitFlags;
use gix_base::hash::ObjectId;
use gix_revwalk::graph::{Commit, Find, Graph};
use gix_revwalk::numbers;
use std::alloc::{AllocError, Allocator};
use std::cmp::Reverse;

/// Decides which commit is listed first: the one with the greatest generation number, then the
/// greatest time, then the smallest id.
type Candidate = (GenThenTime, Reverse<ObjectId>);

/// Returns the candidate for `id`, and loads the commit unless it is held; `None` if the source
/// does not have it.
fn candidate_of<S: Find, A: Allocator + Copy>(
    alloc: A,
    id: ObjectId,
    graph: &mut Graph<S, Commit<Flags, A>, A>,
) -> Result<Option<Candidate>, Error>
    ensures candidate { IfOk result (λ c. c ≡ candidate_at (S.history graph.old.source) id) }
    ensures holds { HoldsMore (S.history graph.old.source) (id ∷ []) graph.old graph.new }
    ensures after { AfterCall S.history S.fault_count graph.old graph.new result }
{
    match numbers::take(graph, alloc, id, Flags::empty()) {
        Ok(Some(number)) => {
            let commit = numbers::value(graph, number);
            Ok(Some((GenThenTime::from(commit), Reverse(id))))
        }
        Ok(None) => Ok(None),
        Err(error) => Err(commit_refused(error)),
    }
}

/// Returns the candidates for those of `ids` that the source has, in the order of `ids`. Each is
/// reversed, so that sorting puts the greatest candidate first.
fn candidates_of<S: Find, A: Allocator + Copy>(
    alloc: A,
    ids: &[ObjectId],
    graph: &mut Graph<S, Commit<Flags, A>, A>,
) -> Result<Vec<Reverse<Candidate>, A>, Error>
    ensures candidates { IfOk result (λ candidates.
        candidates.items ≡ filter_map (turned_at (S.history graph.old.source)) ids.now) }
    ensures loads { LoadsFrom (S.history graph.old.source) ids.now graph.old graph.new }
    ensures after { AfterCall S.history S.fault_count graph.old graph.new result }
{
    let mut candidates = Vec::new(alloc);
    for id in ids {
        let Some(candidate) = candidate_of(alloc, *id, graph)? else {
            continue;
        };
        match candidates.push(Reverse(candidate)) {
            Ok(()) => {}
            Err(_) => return Err(Error::OutOfMemory),
        }
    }
    Ok(candidates)
}

/// Returns the ids of candidates, in their order.
fn ids_of<A: Allocator + Copy>(
    alloc: A,
    candidates: &[Reverse<Candidate>],
) -> Result<Vec<ObjectId, A>, AllocError>
    ensures { IfOk result (λ ids. ids.items ≡ map id_in candidates.now) }
{
    let mut ids = Vec::new(alloc);
    for Reverse((_, Reverse(id))) in candidates {
        ids.push(*id)?;
    }
    Ok(ids)
}

/// Returns those of `ids` that the source has, by falling generation number, then falling time,
/// then rising id.
pub(crate) fn in_order<S: Find, A: Allocator + Copy>(
    alloc: A,
    ids: &[ObjectId],
    graph: &mut Graph<S, Commit<Flags, A>, A>,
) -> Result<Vec<ObjectId, A>, Error>
    ensures order { IfOk result (λ found. IsDistinct same_id ids.now
        → IsInOrder (S.history graph.old.source) found.items) }
    ensures once { IfOk result (λ found. IsDistinct same_id ids.now
        → IsDistinct same_id found.items) }
    ensures same { IfOk result (λ found. (c : ObjectId) → IsTrue (is_one_of found.items c)
        ↔ (IsTrue (is_one_of ids.now c) × Has (S.history graph.old.source) c)) }
    ensures loads { LoadsFrom (S.history graph.old.source) ids.now graph.old graph.new }
    ensures after { AfterCall S.history S.fault_count graph.old graph.new result }
{
    let mut candidates = candidates_of(alloc, ids, graph)?;
    candidates.sort_unstable();
    Ok(ids_of(alloc, &candidates)?)
}
