//! Looks up ids in a commit-graph file.

ghost use Rattle.std.specs.Prelude.{◌≡◌, [], take};
ghost use Rattle.std.specs.List.{filter};
ghost use Rattle.std.specs.List.Sorted.{IsStrictlySortedBy};
ghost use Rattle.gix_revision.specs.Hash.{id_order};
ghost use Rattle.gix_revision.specs.Prefix.{prefix_text};
ghost use Rattle.gix_revision.specs.FileIds.{ids_in};
ghost use Rattle.gix_revision.specs.TableIds.{IsFirstFrom};
ghost use Rattle.gix_resolve.specs.Found.{found_in, IsStart, StandOnce};
ghost use Rattle.gix_resolve.specs.Steps.{begins_with};

use crate::lookup::{Found, Ids};
use gix_revision::commit_graph::{CommitGraph, LevelledGraph};
use gix_revision::hash::{ObjectId, Prefix};
use gix_revision::laws::base::{is_id, prefixes_read_back};
use std::convert::AsSlice;

/// Shows that no id before the place of the prefix, filled up with zeros, begins with the prefix.
///
/// The last id before it is read, because the prover knows only of an id that was read that it has
/// 20 bytes.
fn none_before<B: AsSlice<u8> + Drop>(
    file: &CommitGraph<B>,
    prefix: Prefix,
    start: ObjectId,
    place: usize,
)
    requires start { IsStart (prefix_text prefix) start }
    requires place { IsFirstFrom (ids_in file.now) start place }
    requires rising { IsStrictlySortedBy id_order (ids_in file.now) }
    ensures { filter (begins_with (prefix_text prefix)) (take place (ids_in file.now)) ≡ [] }
{
    if place == 0 {
        return;
    }
    if let Some(below) = file.id(place - 1) {
        is_id(&below);
    }
}

/// Looks up the ids that begin with the prefix, by the first two from that place on.
fn nearest<B: AsSlice<u8> + Drop>(file: &CommitGraph<B>, prefix: Prefix) -> Found
    ensures found { result ≡ found_in (filter (begins_with (prefix_text prefix)) (ids_in file.now)) }
    ensures once { StandOnce (ids_in file.now) }
{
    let start = *prefix.as_oid();
    is_id(&start);
    prefixes_read_back();
    let place = file.position_from(start);
    none_before(file, prefix, start, place);
    let first = file.id(place);
    let second = file.id(place + 1);
    Found::Nothing
        .with_next(prefix, first)
        .with_next(prefix, second)
}

/// Looks up the ids of the file's commits.
impl<B: AsSlice<u8> + Drop> Ids for CommitGraph<B> {
    ghost ids = { λ g. ids_in g };

    fn lookup_prefix(&self, prefix: Prefix) -> Found {
        nearest(self, prefix)
    }
}

/// Looks up the ids of the file's commits.
impl<B: AsSlice<u8> + Drop> Ids for LevelledGraph<B> {
    ghost ids = { λ g. ids_in g };

    fn lookup_prefix(&self, prefix: Prefix) -> Found {
        self.graph().lookup_prefix(prefix)
    }
}
