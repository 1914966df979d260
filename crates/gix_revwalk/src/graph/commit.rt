//! Commits that a graph holds, with the caller's data, and calls that load them from the source.

ghost use Rattle.std.specs.Prelude.{◌≡◌, IfOk, IsOkAnd, IsTrue, is_some, map};
ghost use Rattle.std.specs.Option.{option_copied_mut, option_map};
ghost use Rattle.std.specs.Borrow.{sem};
ghost use Rattle.gix_revwalk.specs.History.{entry_at};
ghost use Rattle.gix_revwalk.specs.Graph.{held_at, held_len};
ghost use Rattle.gix_revwalk.specs.CommitNodes.{given};

use crate::graph::{Error, Find, Graph, Held, Node, SourceCommit};
use crate::numbers;
use gix_base::hash::ObjectId;
use std::alloc::{Allocator, Global};

/// A commit that a graph holds, with data of the caller.
///
/// Its parents, time and generation are the source's. They can be read but not written.
#[derive(Drop)]
#[derive_where(Debug, PartialEq, Eq; D)]
pub struct Commit<D: Drop, A: Allocator = Global> {
    parents: Vec<ObjectId, A>,
    time: i64,
    generation: Option<u32>,
    pub(crate) data: D,
}

impl<D: Drop, A: Allocator> Held for Commit<D, A> {
    ghost use Rattle.gix_revwalk.specs.Commit.{agrees_with};

    ghost agrees = { agrees_with };
}

impl<D: Drop, A: Allocator> Commit<D, A> {
    ghost use Rattle.gix_revwalk.specs.Commit.{copied_entry, data_of};
    ghost use Rattle.gix_revwalk.specs.Held.{entry_of};

    /// Makes a held commit of what a source returned, with the data `new`.
    pub(crate) fn copy_of(found: SourceCommit<A>, new: D) -> Self
        ensures entry { copied_entry result ≡ entry_of found }
        ensures payload { data_of result ≡ new }
    {
        let SourceCommit {
            parents,
            time,
            generation,
        } = found;
        Commit {
            parents,
            time,
            generation,
            data: new,
        }
    }

    /// Returns its parents in the source's order, also those that the source does not have.
    pub fn parents(&self) -> &[ObjectId]
        // The answer is the list of the commit's parents, in order.
        ensures { result.now ≡ (copied_entry self.now).parents }
    {
        &self.parents
    }

    /// Returns its time, in seconds since the Unix epoch.
    pub fn commit_time(&self) -> i64
        // The answer is the time of the commit.
        ensures { result ≡ (copied_entry self.now).time }
    {
        self.time
    }

    /// Returns its generation number; `None` if the source knows none.
    pub fn generation(&self) -> Option<u32>
        // The answer is the generation number of the commit. The answer is `None` exactly if the
        // commit has none.
        ensures { result ≡ (copied_entry self.now).generation }
    {
        self.generation
    }

    /// Returns its data.
    pub fn data(&self) -> &D
        // The answer is the data of the commit.
        ensures { result.now ≡ data_of self.now }
    {
        &self.data
    }
}

/// Sets the data of each node's commit to `value`.
fn give_all<D: Drop + Copy, A: Allocator>(nodes: &mut [Node<Commit<D, A>>], value: D)
    ensures { nodes.new ≡ map (given value) nodes.old }
{
    for node in nodes.iter_mut() {
        node.value.data = value;
    }
}

impl<S: Find, D: Drop, A: Allocator + Copy> Graph<S, Commit<D, A>, A> {
    ghost use Rattle.gix_revwalk.specs.Lends.{lends_data, rests_full, graph_of, id_of};
    ghost use Rattle.gix_revwalk.specs.Data.{TakesIn, data_at, len_after};
    ghost use Rattle.gix_base.specs.declared.hash.ObjectId.{ObjectId};

    /// Looks up the commit `id`, and loads it from the source if the graph does not hold it yet.
    ///
    /// A newly loaded commit gets the data `new`. A held one keeps its data, and the source is not
    /// asked. Use [`FullCommit::data`] to read and write the data. It returns `None` if the source
    /// does not have the commit.
    ///
    /// # Errors
    ///
    /// - [`Error::Source`]: the source failed.
    /// - [`Error::OutOfMemory`]: an allocation failed, in the source or in the graph.
    ///
    /// The graph then holds what it held before, with the same data, and nothing else.
    pub fn get_or_insert_full_commit(
        &mut self,
        alloc: A,
        id: ObjectId,
        new: D,
    ) -> Result<FullCommit<'_, S, D, A>, Error>
        // The graph ends as the graph in the place does. After an error the same ids are held, with
        // the same data, and the history is unchanged. After `Source` the fault count is one more,
        // or stays at the greatest `u64`. After `OutOfMemory` the count is unchanged.
        ensures* rests { sem 𝓛 (rests_full S.row D.row A.row S.Find A.Allocator self.entry result) }

        // The place in the answer borrows this graph.
        ensures same_reference { IfOk result
            (λ p. (graph_of p).ghost_name ≡ self.entry.ghost_name) }

        // The place in the answer is for this id.
        ensures id { IfOk result (λ p. id_of p ≡ id) }

        // If the id is held, the call succeeds, and the graph in the place, with its source, is
        // unchanged.
        ensures held { IsTrue (is_some (held_at self.old id))
            → IsOkAnd result (λ p. (graph_of p).now ≡ self.old) }

        // After a success the history is unchanged.
        ensures history { IfOk result
            (λ p. S.history (graph_of p).now.source ≡ S.history self.old.source) }

        // After a success the fault count is unchanged.
        ensures count { IfOk result
            (λ p. S.fault_count (graph_of p).now.source ≡ S.fault_count self.old.source) }

        // After a success the graph holds the id exactly if the history has it.
        ensures found { IfOk result
            (λ p. is_some (held_at (graph_of p).now id)
            ≡ is_some (entry_at (S.history self.old.source) id)) }

        // After a success ids that were held keep their data. This id has the data `new` if it was
        // not held and the history has it. No other id is newly held.
        ensures taken { IfOk result
            (λ p. TakesIn (S.history self.old.source) self.old id new (graph_of p).now) }

        // After a success the number of held ids is one more if the id was not held and the history
        // has it. Otherwise the number is unchanged.
        ensures len { IfOk result
            (λ p. held_len (graph_of p).now
            ≡ len_after (S.history self.old.source) self.old id) }
    {
        numbers::take(self, alloc, id, new)?;
        Ok(FullCommit { graph: self, id })
    }

    /// Sets the data of every held commit to `value`. The same commits are held.
    pub fn clear_commit_data(&mut self, value: D)
    where
        D: Copy,
        // The source is unchanged.
        ensures source { self.new.source ≡ self.old.source }

        // The same ids are held, and each has the data `value`.
        ensures cleared { (q : ObjectId)
            → data_at self.new q ≡ option_map (λ _. value) (held_at self.old q) }

        // The number of held ids is unchanged.
        ensures len { held_len self.new ≡ held_len self.old }
    {
        give_all(&mut self.nodes, value);
    }

    /// Lends the data of the held commit `id`; `None` if `id` is not held.
    pub fn data_mut(&mut self, id: &ObjectId) -> Option<&mut D>
        // What is written through the answer becomes the data of the id. The source, the other
        // commits and the rest of this commit are unchanged. After `None` the graph is unchanged.
        ensures* writes_back { sem 𝓛
            (lends_data S.row D.row A.row S.Find A.Allocator self.entry id.now result) }

        // The answer is the data of the id. The answer is `None` exactly if the id is not held.
        ensures value { option_copied_mut result ≡ data_at self.old id.now }
    {
        let Some(number) = numbers::number_of(self, id) else {
            return None;
        };
        let node = &mut self.nodes[number.place()];
        Some(&mut node.value.data)
    }
}

/// The place in a graph of a commit that was looked up ([`Graph::get_or_insert_full_commit`]).
///
/// A caller that has written through [`FullCommit::data`] knows what the graph is then. It could
/// not know this if the call returned the `Option<&mut D>` itself inside a `Result`.
#[derive(Drop)]
pub struct FullCommit<'a, S: Find, D: Drop, A: Allocator> {
    graph: &'a mut Graph<S, Commit<D, A>, A>,
    id: ObjectId,
}

impl<'a, S: Find, D: Drop, A: Allocator + Copy> FullCommit<'a, S, D, A> {
    ghost use Rattle.gix_revwalk.specs.Lends.{lends_place, graph_of, id_of};
    ghost use Rattle.gix_revwalk.specs.Data.{data_at};

    /// Lends the data of the commit; `None` if the source does not have the commit.
    pub fn data(self) -> Option<&'a mut D>
        // What is written through the answer becomes the data of the place's id. The source, the
        // other commits and the rest of this commit are unchanged. After `None` the graph is
        // unchanged.
        ensures* writes_back { sem 𝓛
            (lends_place S.row D.row A.row S.Find A.Allocator self.entry result) }

        // The answer is the data of the place's id. The answer is `None` exactly if the graph does
        // not hold the id.
        ensures value { option_copied_mut result
            ≡ data_at (graph_of self.entry).now (id_of self.entry) }
    {
        let FullCommit { graph, id } = self;
        graph.data_mut(&id)
    }
}
