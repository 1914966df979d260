//! Looks up ids by their first digits.

ghost use Rattle.std.specs.Prelude.{◌≡◌, List};
ghost use Rattle.std.specs.List.{filter};
ghost use Rattle.gix_base.specs.declared.hash.ObjectId.{ObjectId};
ghost use Rattle.gix_revision.specs.Prefix.{prefix_text};
ghost use Rattle.gix_resolve.specs.Found.{StandOnce};
ghost use Rattle.gix_resolve.specs.Found.{found_with, found_next, found_in};
ghost use Rattle.gix_resolve.specs.Steps.{begins_with};

mod file;
mod set;

use gix_revision::hash::{ObjectId, Prefix};
use std::cmp::Ordering;

/// Says which of some ids begin with a prefix.
#[derive(Clone, Copy)]
pub enum Found {
    /// No id begins with it.
    Nothing,
    /// Exactly this id begins with it.
    One(ObjectId),
    /// More than one id begins with it.
    Many,
}

/// The ids that an abbreviated object name can stand for, none of them twice.
///
/// An implementor names its ids as a ghost member. These types implement it: a set of ids, a
/// commit-graph file, and a borrowed one of each.
pub trait Ids: Drop {
    ghost ids: { Self → List ObjectId };

    /// Looks up the ids that begin with a prefix.
    fn lookup_prefix(&self, prefix: Prefix) -> Found
        // The answer is `Nothing` if no id begins with the prefix, `One` with the only id that
        // does, or `Many` if more than one id does.
        ensures found { result
            ≡ found_in (filter (begins_with (prefix_text prefix)) (ids self.now)) }

        // No id occurs twice in the list `ids`.
        ensures once { StandOnce (ids self.now) };
}

/// Looks ids up in what is borrowed.
impl<I: Ids> Ids for &I {
    ghost ids = { λ s. I.ids s.now };

    fn lookup_prefix(&self, prefix: Prefix) -> Found {
        (**self).lookup_prefix(prefix)
    }
}

impl Found {
    /// Adds one id, if it begins with the prefix.
    fn with(self, prefix: Prefix, id: ObjectId) -> Found
        ensures { result ≡ found_with (prefix_text prefix) self id }
    {
        if prefix.cmp_oid(&id) != Ordering::Equal {
            return self;
        }
        match self {
            Found::Nothing => Found::One(id),
            Found::One(_) | Found::Many => Found::Many,
        }
    }

    /// Adds the next id, if there is one and it begins with the prefix.
    pub(crate) fn with_next(self, prefix: Prefix, next: Option<ObjectId>) -> Found
        ensures { result ≡ found_next (prefix_text prefix) self next }
    {
        match next {
            Some(id) => self.with(prefix, id),
            None => self,
        }
    }
}
