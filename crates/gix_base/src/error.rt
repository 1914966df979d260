//! Has the refusals of a delegate, and lists that are never empty.

ghost use Rattle.gix_base.specs.Exn.{causes_of};
ghost use Rattle.gix_base.specs.NonEmpty.{all_of, left_of};
ghost use Rattle.gix_base.specs.Refusals.{refusals_among, refusals_in};
ghost use Rattle.std.specs.Iterator.{YieldsFirstRef, item_count};
ghost use Rattle.std.specs.Prelude.{◌≡◌, ◌+◌, ◌∷◌, [], IfSome, IsNone, None, Some, false, true, codes, length, min, slice_get, ◌↔◌};

mod message;

use bstr::BString;
pub use message::Message;
use std::alloc::{Allocator, Global};
use std::borrow::CowStr;
use std::mem::swap;
use std::slice::Iter;

/// Is a list that is never empty.
#[derive(Drop)]
#[derive_where(Debug, PartialEq, Eq, PartialOrd, Ord, Hash; T)]
pub struct NonEmpty<T, A: Allocator = Global> {
    pub head: T,
    pub tail: Vec<T, A>,
}

impl<T, A: Allocator> NonEmpty<T, A> {
    /// Makes the list of `head` alone. Allocates nothing.
    pub fn new(alloc: A, head: T) -> NonEmpty<T, A>
        // The list has one item, `head`.
        ensures { all_of result ≡ head ∷ [] }
    {
        NonEmpty {
            head,
            tail: Vec::new(alloc),
        }
    }

    /// Takes over a list, in the same order; `None` if `items` is empty. Allocates nothing.
    pub fn from_vec(mut items: Vec<T, A>) -> Option<NonEmpty<T, A>>
        // `None` exactly if `items` is empty.
        ensures none { IsNone result ↔ (items.items ≡ []) }

        // The list has the same items, in the same order.
        ensures same { IfSome result (λ list. all_of list ≡ items.items) }
    {
        if items.is_empty() {
            items.destroy_empty();
            return None;
        }
        let head = items.remove(0);
        Some(NonEmpty { head, tail: items })
    }

    /// Returns the first item.
    pub fn first(&self) -> &T
        // The answer is the first item.
        ensures { slice_get (all_of self.now) 0 ≡ Some result.now }
    {
        &self.head
    }

    /// Iterates over the items, the head first.
    pub fn iter(&self) -> NonEmptyIter<'_, T>
        // The iterator has all items left to give, in order.
        ensures { left_of result ≡ all_of self.now }
    {
        NonEmptyIter {
            head: Some(&self.head),
            tail: self.tail.iter(),
        }
    }

    /// Returns the number of items, or the greatest `usize` if there are more.
    pub fn len(&self) -> usize
        // The answer is the number of items, or the greatest `usize` if there are more.
        ensures { result ≡ min (length (all_of self.now)) usize.MAX }
    {
        self.tail.len().saturating_add(1)
    }
}

/// Iterates over the items of a [`NonEmpty`], the head first.
#[derive(Drop)]
pub struct NonEmptyIter<'a, T> {
    head: Option<&'a T>,
    tail: Iter<'a, T>,
}

impl<'a, T> Iterator for NonEmptyIter<'a, T> {
    type Item = &'a T;

    ghost next_gives = { YieldsFirstRef left_of };

    ghost remaining = { item_count left_of };

    fn next(&mut self) -> Option<&'a T> {
        match self.head.take() {
            Some(head) => Some(head),
            None => self.tail.next(),
        }
    }
}

/// Is a refusal by a delegate, with the refusals that led to it.
#[derive(Debug)]
pub struct Exn {
    /// Says what was refused, for a reader.
    pub message: CowStr<'static>,
    /// Has the text that was refused, if there is one.
    pub input: Option<BString>,
    /// Has the refusals that led to this one.
    pub causes: Vec<Exn>,
    /// Says whether an allocation failed. Then no alternative is tried.
    pub out_of_memory: bool,
}

impl Exn {
    ghost use Rattle.gix_base.specs.Exn.{message_of, input_of, is_out_of_memory};

    /// Makes a refusal with a message, no input and no causes. Allocates nothing.
    pub fn new(alloc: Global, message: &'static str) -> Exn
        // The refusal has this message.
        ensures message { message_of result ≡ message.now }

        // The refusal names no text.
        ensures input { input_of result ≡ None }

        // No refusal led to this one.
        ensures causes { causes_of result ≡ [] }

        // The refusal does not say that an allocation failed.
        ensures memory { is_out_of_memory result ≡ false }
    {
        Exn {
            message: CowStr::Borrowed(message),
            input: None,
            causes: Vec::new(alloc),
            out_of_memory: false,
        }
    }

    /// Makes the refusal `out of memory`. Allocates nothing.
    pub fn out_of_memory(alloc: Global) -> Exn
        // The message is `out of memory`.
        ensures message { message_of result ≡ codes "out of memory" }

        // The refusal names no text.
        ensures input { input_of result ≡ None }

        // No refusal led to this one.
        ensures causes { causes_of result ≡ [] }

        // The refusal says that an allocation failed.
        ensures memory { is_out_of_memory result ≡ true }
    {
        Exn {
            message: CowStr::Borrowed("out of memory"),
            input: None,
            causes: Vec::new(alloc),
            out_of_memory: true,
        }
    }

    /// Returns the refusals that led to it, and drops the rest.
    fn into_causes(self) -> Vec<Exn>
        ensures causes { result.items ≡ causes_of self }
        ensures count { refusals_among result.items + 1 ≡ refusals_in self }
    {
        let Exn {
            message: _,
            input: _,
            causes,
            out_of_memory: _,
        } = self;
        causes
    }
}

/// Drops the first refusal, and returns those that led to it with the others. Allocates nothing.
fn without_one(mut last: Exn, mut others: Vec<Exn>) -> Vec<Exn>
    ensures { refusals_among result.items + 1
        ≡ refusals_in last + refusals_among others.items }
{
    // The first refusal that led to `last` takes its place, and the others join its list.
    while !others.is_empty() && !last.causes.is_empty() {
        swap(&mut last.causes, &mut others);
        swap(&mut last, &mut others[0]);
    }
    let causes = last.into_causes();
    if others.is_empty() {
        others.destroy_empty();
        causes
    } else {
        causes.destroy_empty();
        others
    }
}

impl Drop for Exn {
    /// Drops in a loop, so that the stack does not grow with the causes.
    fn drop(self) {
        let Exn {
            message: _,
            input: _,
            mut causes,
            out_of_memory: _,
        } = self;
        while let Some(last) = causes.pop() {
            causes = without_one(last, causes);
        }
        causes.destroy_empty();
    }
}
