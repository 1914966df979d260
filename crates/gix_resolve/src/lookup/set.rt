//! Looks up ids in a set.

ghost use Rattle.std.specs.Prelude.{◌≡◌};
ghost use Rattle.std.specs.List.{filter};
ghost use Rattle.gix_revision.specs.Prefix.{prefix_text};
ghost use Rattle.gix_resolve.specs.Found.{found_in, AreFrom, IsStart, StandOnce};
ghost use Rattle.gix_resolve.specs.Steps.{begins_with};

use crate::lookup::{Found, Ids};
use gix_revision::hash::{ObjectId, Prefix};
use gix_revision::laws::base::{is_id, prefixes_read_back};
use std::alloc::Allocator;
use std::collections::BTreeSet;

/// Shows that no id less than the prefix, filled up with zeros, begins with the prefix.
///
/// The greatest id less than it is read, because the prover knows only of an id that was read that
/// it has 20 bytes.
fn are_from<A: Allocator>(ids: &BTreeSet<ObjectId, A>, prefix: Prefix, start: ObjectId)
    requires { IsStart (prefix_text prefix) start }
    ensures { AreFrom (prefix_text prefix) start ids.now }
{
    if let Some(below) = ids.range(..start).next_back() {
        is_id(below);
    }
}

/// Looks up the ids that begin with the prefix.
///
/// They are next to each other in the order of ids, from the prefix filled up with zeros on. The
/// first two ids there decide the answer.
fn nearest<A: Allocator>(ids: &BTreeSet<ObjectId, A>, prefix: Prefix) -> Found
    ensures found { result ≡ found_in (filter (begins_with (prefix_text prefix)) ids.now.keys) }
    ensures once { StandOnce ids.now.keys }
{
    let start = *prefix.as_oid();
    is_id(&start);
    prefixes_read_back();
    are_from(ids, prefix, start);
    let mut from = ids.range(start..);
    let first = from.next().copied();
    let second = from.next().copied();
    Found::Nothing
        .with_next(prefix, first)
        .with_next(prefix, second)
}

/// Looks up the ids of the set.
impl<A: Allocator> Ids for BTreeSet<ObjectId, A> {
    ghost ids = { λ s. s.keys };

    fn lookup_prefix(&self, prefix: Prefix) -> Found {
        nearest(self, prefix)
    }
}
