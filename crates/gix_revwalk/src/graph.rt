//! A graph of commits that are loaded from a source, reused from call to call.

ghost use Rattle.std.specs.Prelude.{◌≡◌, Some, None, is_some, IfSome, IfOk};
ghost use Rattle.std.specs.Option.{option_copied, option_map};
ghost use Rattle.std.specs.List.{IsDistinct};
ghost use Rattle.gix_base.specs.declared.hash.ObjectId.{ObjectId};
ghost use Rattle.gix_revwalk.specs.Faults.{count_after, is_source_fault};
ghost use Rattle.gix_revwalk.specs.Held.{entry_of};
ghost use Rattle.gix_revwalk.specs.History.{entry_at, same_id};
ghost use Rattle.gix_revwalk.specs.Graph.{held_at, held_len, held_ids};

mod commit;
mod find;
mod insert;
mod marks;
mod memory;

use crate::numbers::{self, Number};
use crate::past::Past;
use crate::seed::Seed;
pub use commit::{Commit, FullCommit};
pub use find::{Find, FindFault, Generations, SourceCommit};
use gix_base::hash::ObjectId;
pub use insert::{Insert, InsertError};
pub use memory::MemorySource;
use std::alloc::{AllocError, AllocFailed, Allocator, Global};
use std::fmt;
use std::marker::Model;
use thiserror::Error as StdError;

/// Why a call on a graph failed. The graph still holds what it held.
#[derive(Clone, Copy, Debug, PartialEq, Eq, Drop, StdError)]
pub enum Error {
    /// The source failed. Its [fault count](crate#fault-count) grew in this call, or is `u64::MAX`.
    Source,
    /// An allocation failed, for the graph or for the source's answer.
    OutOfMemory,
}

impl fmt::Display for Error {
    ghost use Rattle.gix_revwalk.specs.GraphError.{graph_error_text};

    ghost output = { λ e. Some (graph_error_text e) };

    fn fmt<W: fmt::Write>(&self, f: &mut fmt::Formatter<W>) -> fmt::Result {
        match self {
            Error::Source => f.write_str("the source failed"),
            Error::OutOfMemory => f.write_str("out of memory"),
        }
    }
}

impl From<AllocError> for Error {
    ghost use Rattle.gix_revwalk.specs.declared.graph.Error.TheVariants.{OutOfMemory};

    ghost from_gives = { λ _ error. error ≡ OutOfMemory };

    fn from(_error: AllocError) -> Error {
        Error::OutOfMemory
    }
}

impl<T: Drop> From<AllocFailed<T>> for Error {
    ghost use Rattle.gix_revwalk.specs.declared.graph.Error.TheVariants.{OutOfMemory};

    ghost from_gives = { λ _ error. error ≡ OutOfMemory };

    fn from(_refused: AllocFailed<T>) -> Error {
        Error::OutOfMemory
    }
}

/// States when a held value agrees with what the source has under its id.
///
/// A [`Commit`] agrees if its parents, time and generation are the source's. A number always
/// agrees. Every value in a graph agrees.
pub trait Held: Drop {
    ghost use Rattle.std.specs.Prelude.{Option};
    ghost use Rattle.gix_revwalk.specs.History.{Entry};

    ghost agrees: { Self → Option Entry → Type 0 };
}

/// What a graph stores for one held id.
#[derive(Drop)]
pub(crate) struct Node<T> {
    pub(crate) id: ObjectId,
    /// Where the numbers of its parents are stored, once all of them are held.
    pub(crate) row: Option<Row>,
    /// The turn of the walk that last marked it.
    pub(crate) turn: u32,
    /// How many entries of that walk's queue are this node.
    pub(crate) queued: u32,
    pub(crate) value: T,
}

/// A part of a list: its start and its length.
#[derive(Clone, Copy)]
pub(crate) struct Row {
    pub(crate) start: u32,
    pub(crate) len: u32,
}

impl Row {
    /// Returns the part of a list from a place on, or fails if its start or length is not a `u32`.
    pub(crate) fn of(start: usize, len: usize) -> Result<Row, AllocError>
        ensures start { IfOk result (λ row. row.start ≡ start) }
        ensures len { IfOk result (λ row. row.len ≡ len) }
    {
        match (u32::try_from(start), u32::try_from(len)) {
            (Ok(start), Ok(len)) => Ok(Row { start, len }),
            _ => Err(AllocError),
        }
    }
}

/// A set of ids with one value each, over the source that it owns.
///
/// A graph is used again from call to call: what one call has loaded from the source, the next call
/// finds. Every value agrees with the source ([`Held`]), also after an error.
#[derive(Drop)]
pub struct Graph<S: Find, T: Held, A: Allocator = Global> {
    pub(crate) source: S,
    pub(crate) nodes: Vec<Node<T>, A>,
    pub(crate) past: Past<A>,
    pub(crate) edges: Vec<Number, A>,
    pub(crate) turn: u32,
}

impl<S: Find, T: Held, A: Allocator> Model for Graph<S, T, A> {
    ghost use Rattle.std.specs.Prelude.{◌≡◌, Some, map};
    ghost use Rattle.std.specs.Map.{lookup};
    ghost use Rattle.gix_revwalk.specs.History.{entry_at, same_id};
    ghost use Rattle.gix_revwalk.specs.Graph.{Graphed};
    ghost use Rattle.gix_revwalk.specs.Nodes.{pair_of, mark_of, AreNodes};
    ghost use Rattle.gix_base.specs.declared.hash.ObjectId.{ObjectId};

    ghost Value = { Graphed S T };

    ghost view = { λ g. record {
      source = g.source;
      held = map pair_of g.nodes.items;
      marked = map (mark_of g.turn) g.nodes.items;
    } };

    // Every held value agrees with the source's entry for its id. What is remembered, the rows and
    // the turns are right.
    ghost invariant = { λ g. ((id : ObjectId) (x : T)
        → lookup (same_id id) (map pair_of g.nodes.items) ≡ Some x
        → T.agrees x (entry_at (S.history g.source) id))
        × AreNodes (S.history g.source) g.nodes.items g.past g.edges.items g.turn };
}

impl<S: Find, T: Held, A: Allocator> Graph<S, T, A> {
    /// Creates an empty graph over `source`, in the memory of `alloc`. This allocates nothing yet.
    ///
    /// Its hash maps have the default seed. If strangers choose the ids, use [`Graph::with_seed`].
    pub fn new(alloc: A, source: S) -> Self
    where
        A: Copy,
        // The graph has this source.
        ensures source { result.source ≡ source }

        // The graph holds no id.
        ensures empty { (id : ObjectId) → held_at result id ≡ None }

        // The number of held ids is 0.
        ensures len { held_len result ≡ 0 }
    {
        Graph::with_seed(alloc, source, Seed::default())
    }

    /// Creates an empty graph over `source`, whose hash maps are seeded with `seed`.
    ///
    /// This allocates nothing yet. No answer depends on the seed.
    pub fn with_seed(alloc: A, source: S, seed: Seed) -> Self
    where
        A: Copy,
        // The graph has this source.
        ensures source { result.source ≡ source }

        // The graph holds no id.
        ensures empty { (id : ObjectId) → held_at result id ≡ None }

        // The number of held ids is 0.
        ensures len { held_len result ≡ 0 }
    {
        Graph {
            source,
            nodes: Vec::new(alloc),
            past: Past::new(alloc, seed),
            edges: Vec::new(alloc),
            turn: 1,
        }
    }

    /// Returns the seed of the graph's hash maps, for further maps over the same ids.
    pub fn seed(&self) -> Seed {
        self.past.seed()
    }

    /// Returns the source of the commits.
    pub fn source(&self) -> &S
        // The answer is the source of the graph.
        ensures { result.now ≡ self.now.source }
    {
        &self.source
    }

    /// Returns the source, and drops the rest of the graph.
    pub fn into_source(self) -> S
        // The answer is the source of the graph.
        ensures { result ≡ self.source }
    {
        let Graph {
            source,
            nodes,
            past,
            edges,
            turn,
        } = self;
        source
    }

    /// Removes all held ids. The source is unchanged.
    ///
    /// What the source returned for commits that `describe` met stays in memory until the graph is
    /// dropped, and so do the ids that were held. A further walk does not ask for them again.
    /// Nothing is remembered of an id that the source did not have.
    pub fn clear(&mut self)
        // The source is unchanged.
        ensures source { self.new.source ≡ self.old.source }

        // The graph holds no id.
        ensures empty { (id : ObjectId) → held_at self.new id ≡ None }

        // The number of held ids is 0.
        ensures len { held_len self.new ≡ 0 }
    {
        self.nodes.clear();
        self.edges.clear();
    }

    /// Returns the number of held ids. Each is held once.
    pub fn len(&self) -> usize
        // The answer is the number of held ids.
        ensures len { result ≡ held_len self.now }

        // No id is held twice.
        ensures once { IsDistinct same_id (held_ids self.now) }
    {
        self.nodes.len()
    }

    /// Returns whether `id` is held.
    pub fn contains(&self, id: &ObjectId) -> bool
        // The answer is `true` exactly if the id is held.
        ensures { result ≡ is_some (held_at self.now id.now) }
    {
        numbers::number_of(self, id).is_some()
    }

    /// Returns the value of `id`, which agrees with the source; `None` if `id` is not held.
    pub fn get(&self, id: &ObjectId) -> Option<&T>
        // The answer is the value of the id. The answer is `None` exactly if the id is not held.
        ensures value { option_copied result ≡ held_at self.now id.now }

        // The value agrees with what the history of the source has for the id.
        ensures agrees { IfSome result
            (λ x. T.agrees x.now (entry_at (S.history self.now.source) id.now)) }
    {
        let number = numbers::number_of(self, id)?;
        Some(numbers::value(self, number))
    }
}

impl<S: Find, T: Held, A: Allocator + Copy> Graph<S, T, A> {
    /// Asks the source for the commit `id`.
    pub(crate) fn ask(&mut self, alloc: A, id: ObjectId) -> Result<Option<SourceCommit<A>>, Error>
        ensures held { self.new.held ≡ self.old.held }
        ensures marked { self.new.marked ≡ self.old.marked }
        ensures history { S.history self.new.source ≡ S.history self.old.source }
        ensures found { IfOk result
            (λ found. option_map entry_of found ≡ entry_at (S.history self.old.source) id) }
        ensures count { S.fault_count self.new.source
            ≡ count_after (is_source_fault result) (S.fault_count self.old.source) }
    {
        match self.source.find(alloc, id) {
            Ok(found) => Ok(found),
            Err(FindFault::Failed) => Err(Error::Source),
            Err(FindFault::OutOfMemory) => Err(Error::OutOfMemory),
        }
    }
}
