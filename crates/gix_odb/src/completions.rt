//! Collects the ids that begin with a prefix (git-rev-parse, "Specifying Revisions").

ghost use Rattle.std.specs.Prelude.{◌≡◌, ◌≤◌, ◌++◌, ◌∷◌, [], length, IfOk, OnOk, IsTrue, All};
ghost use Rattle.std.specs.List.Sorted.{IsStrictlySortedBy};
ghost use Rattle.gix_base.specs.Hash.{id_order};
ghost use Rattle.gix_base.specs.Prefix.{BeginsWith};

use crate::failure::Fault;
use gix_base::hash::{ObjectId, Prefix};
use gix_pack::part::id_in;
use std::alloc::{AllocError, Allocator};
use std::cmp::Ordering;
use std::collections::BTreeSet;

/// The least ids that begin with a prefix, up to a number of them.
#[derive(Drop)]
pub(crate) struct Completions<A: Allocator + Copy> {
    prefix: Prefix,
    most: usize,
    ids: BTreeSet<ObjectId, A>,
}

impl<A: Allocator + Copy> Completions<A> {
    /// Returns no ids.
    pub(crate) fn new(alloc: A, prefix: Prefix, most: usize) -> Completions<A> {
        Completions {
            prefix,
            most,
            ids: BTreeSet::new(alloc),
        }
    }

    /// Returns the least id that can begin with the prefix.
    pub(crate) fn least(&self) -> ObjectId {
        *self.prefix.as_oid()
    }

    /// Returns how many ids were found, up to the number that is wanted.
    pub(crate) fn len(&self) -> usize {
        self.ids.len()
    }

    /// Tells whether as many ids were found as are wanted.
    pub(crate) fn is_full(&self) -> bool {
        self.ids.len() >= self.most
    }

    /// Adds an id, and tells whether it begins with the prefix. If there are too many ids then, the
    /// greatest is dropped.
    pub(crate) fn add(&mut self, id: ObjectId) -> Result<bool, Fault> {
        if !begins(id, self.prefix) {
            return Ok(false);
        }
        self.ids.insert(id)?;
        if self.ids.len() > self.most {
            self.ids.pop_last();
        }
        Ok(true)
    }

    /// Adds ids, which have 20 bytes each, from a position on, as long as they begin with the
    /// prefix.
    pub(crate) fn add_from(&mut self, ids: &[u8], position: usize) -> Result<(), Fault> {
        for k in position..ids.len() {
            match id_in(ids, k) {
                Some(id) if self.add(id)? => {}
                _ => break,
            }
        }
        Ok(())
    }

    /// Takes the first ids, up to a number of them, as far as they begin with a prefix.
    pub(crate) fn sorted(
        &mut self,
        alloc: A,
        prefix: Prefix,
        most: usize,
    ) -> Result<Vec<ObjectId, A>, AllocError>
        ensures begin { IfOk result (λ ids. All (λ id. BeginsWith id prefix) ids.items) }
        ensures rising { IfOk result (λ ids. IsStrictlySortedBy id_order ids.items) }
        ensures few { IfOk result (λ ids. length ids.items ≤ most) }
    {
        first_ids(alloc, &mut self.ids, prefix, most)
    }
}

/// Tells whether an id begins with a prefix.
#[tactic(auto, using(gix_base::proofs::PrefixBack::equal_is_beginning))]
fn begins(id: ObjectId, prefix: Prefix) -> bool
    ensures { IsTrue result → BeginsWith id prefix }
{
    prefix.cmp_oid(&id) == Ordering::Equal
}

/// Adds an id to a list.
fn push<A: Allocator>(ids: &mut Vec<ObjectId, A>, id: ObjectId) -> Result<(), AllocError>
    ensures { OnOk result (ids.new.items ≡ ids.old.items ++ id ∷ []) }
{
    ids.push(id)?;
    Ok(())
}

/// Takes the first ids of a set, up to the first that does not begin with the prefix, and up to a
/// number of them.
fn first_ids<A: Allocator + Copy>(
    alloc: A,
    all: &mut BTreeSet<ObjectId, A>,
    prefix: Prefix,
    most: usize,
) -> Result<Vec<ObjectId, A>, AllocError>
    ensures begin { IfOk result (λ ids. All (λ id. BeginsWith id prefix) ids.items) }
    ensures rising { IfOk result (λ ids. IsStrictlySortedBy id_order ids.items) }
    ensures few { IfOk result (λ ids. length ids.items ≤ most) }
{
    let mut ids = Vec::with_capacity(alloc, all.len().min(most))?;
    'ids: while ids.len() < most {
        match all.pop_first() {
            Some(id) if begins(id, prefix) => push(&mut ids, id)?,
            _ => break,
        }
    }
    Ok(ids)
}
