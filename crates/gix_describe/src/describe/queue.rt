//! The queue of a walk.
//!
//! Only the key has the id of a commit, so an entry takes 40 bytes. A commit that is queued alone,
//! as on a line, bypasses the heap.

ghost use Rattle.std.specs.Prelude.{◌≡◌, ◌==◌, [], ◌∷◌, length, IfSome, IsNone, OnOk};
ghost use Rattle.std.specs.List.Sorted.{IsPermutation};
ghost use Rattle.gix_describe.specs.Handing.{key_order};
ghost use Rattle.gix_describe.specs.Queued.{entry_of};
ghost use Rattle.gix_revwalk.specs.Queue.{IsGreatest};

use crate::describe::key::Key;
use crate::describe::met::Met;
use gix_revwalk::numbers::Number;
use gix_revwalk::queue::PriorityQueue;
use std::alloc::{AllocError, Allocator};
use std::marker::Model;

/// The number of a commit, and a guess at its spot.
#[derive(Clone, Copy)]
pub(crate) struct Place {
    pub(crate) number: Number,
    pub(crate) spot: u32,
}

/// The commits that were met and not yet popped, ordered by their keys.
#[derive(Drop)]
pub(crate) struct Queue<A: Allocator> {
    /// The queued commit, if it is the only one.
    alone: Option<(Key, Place)>,
    places: PriorityQueue<Key, Place, A>,
}

impl<A: Allocator> Model for Queue<A> {
    ghost use Rattle.std.specs.Prelude.{◌≡◌, List, [], map, IfSome};
    ghost use Rattle.std.specs.List.{cons_option};
    ghost use Rattle.gix_describe.specs.Queued.{entry_of};
    ghost use Rattle.gix_describe.specs.declared.describe.key.Key.{Key};
    ghost use Rattle.gix_describe.specs.declared.describe.met.Met.{Met};

    ghost Value = { List (Key × Met) };

    ghost view = { λ q. map entry_of (cons_option q.alone q.places) };

    ghost invariant = { λ q. IfSome q.alone (λ _. q.places ≡ []) };
}

/// Adds an entry.
#[inline(always)]
fn put<A: Allocator>(
    places: &mut PriorityQueue<Key, Place, A>,
    entry: (Key, Place),
) -> Result<(), AllocError>
    ensures { OnOk result (IsPermutation (entry ∷ places.old) places.new) }
{
    let (key, place) = entry;
    if places.insert(key, place).is_err() {
        return Err(AllocError);
    }
    Ok(())
}

/// Adds two entries.
fn put_both<A: Allocator>(
    places: &mut PriorityQueue<Key, Place, A>,
    first: (Key, Place),
    second: (Key, Place),
) -> Result<(), AllocError>
    ensures { OnOk result (IsPermutation (second ∷ first ∷ places.old) places.new) }
{
    put(places, first)?;
    put(places, second)?;
    Ok(())
}

/// Returns the commit under a key.
#[inline(always)]
fn commit_at(key: Key, place: Place) -> (Key, Met)
    ensures { result ≡ entry_of (key, place) }
{
    let met = Met {
        id: key.id,
        number: place.number,
        spot: place.spot,
    };
    (key, met)
}

impl<A: Allocator> Queue<A> {
    /// Returns an empty queue. Takes no memory.
    pub(crate) fn new(alloc: A) -> Queue<A>
        ensures { result ≡ [] }
    {
        Queue {
            alone: None,
            places: PriorityQueue::new(alloc),
        }
    }

    /// Adds a commit under its key.
    ///
    /// # Errors
    ///
    /// An allocation failed. The content of the queue is then unspecified.
    #[inline(always)]
    pub(crate) fn insert(&mut self, key: Key, met: Met) -> Result<(), AllocError>
        requires { key.id ≡ met.id }
        ensures ok { OnOk result (IsPermutation ((key, met) ∷ self.old) self.new) }
    {
        let place = Place {
            number: met.number,
            spot: met.spot,
        };
        if let Some(alone) = self.alone {
            self.alone = None;
            put_both(&mut self.places, alone, (key, place))?;
            return Ok(());
        }
        if self.places.is_empty() {
            self.alone = Some((key, place));
            return Ok(());
        }
        put(&mut self.places, (key, place))?;
        Ok(())
    }

    /// Removes and returns a commit with a greatest key; `None` if the queue is empty.
    #[inline(always)]
    pub(crate) fn pop(&mut self) -> Option<(Key, Met)>
        ensures none { IsNone result → self.old ≡ [] }
        ensures taken { IfSome result (λ p. IsPermutation self.old (p ∷ self.new)) }
        ensures greatest { IfSome result (λ p. IsGreatest key_order p.0 self.old) }
    {
        if let Some((key, place)) = self.alone {
            self.alone = None;
            return Some(commit_at(key, place));
        }
        let (key, place) = self.places.pop()?;
        Some(commit_at(key, place))
    }

    /// Returns the number of queued commits.
    #[inline(always)]
    pub(crate) fn len(&self) -> usize
        ensures { result ≡ length self.now }
    {
        if let Some(_) = self.alone {
            return 1;
        }
        self.places.len()
    }

    /// Tests whether the queue is empty.
    #[inline(always)]
    pub(crate) fn is_empty(&self) -> bool
        ensures { result ≡ (length self.now == 0) }
    {
        if let Some(_) = self.alone {
            return false;
        }
        self.places.is_empty()
    }
}
