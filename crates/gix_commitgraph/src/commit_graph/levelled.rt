//! A commit-graph file in which each commit's level is greater than those of its parents.

ghost use Rattle.std.specs.Prelude.{◌≡◌, ◌↔◌, IsOk, IfOk, IfErr};
ghost use Rattle.std.specs.Option.{option_map};
ghost use Rattle.gix_revwalk.specs.Generations.{AreSo};
ghost use Rattle.gix_revwalk.specs.Held.{entry_of};
ghost use Rattle.gix_revwalk.specs.History.{IsAcyclic, GenerationsNeverRise, entry_at};
ghost use Rattle.gix_commitgraph.specs.FileCommits.{history_in};
ghost use Rattle.gix_commitgraph.specs.FileLevels.{LevelsFall, IsLevelled};
ghost use Rattle.gix_revwalk.specs.declared.graph.find.Generations.TheVariants.{NeverRise};

use crate::commit_graph::file::CommitGraph;
use gix_base::hash::ObjectId;
use gix_revwalk::graph::{Find, FindFault, Generations, SourceCommit};
use std::alloc::{AllocError, Allocator, Global};
use std::convert::AsSlice;
use std::marker::Model;

/// A commit-graph file in which each commit has a level that is greater than those of its parents.
///
/// Its history is therefore acyclic and has ordered generations.
#[derive(Drop)]
pub struct LevelledGraph<B: AsSlice<u8> + Drop = Vec<u8, Global>> {
    graph: CommitGraph<B>,
}

impl<B: AsSlice<u8> + Drop> Model for LevelledGraph<B> {
    ghost use Rattle.std.specs.Prelude.{List, ℕ};
    ghost use Rattle.gix_commitgraph.specs.FileCommits.{history_in};
    ghost use Rattle.gix_commitgraph.specs.FileLevels.{IsLevelled};

    ghost Value = { List ℕ };

    ghost view = { λ g. g.graph };

    ghost invariant = { λ g. IsLevelled (history_in g.graph) };
}

impl<B: AsSlice<u8> + Drop> LevelledGraph<B> {
    /// Checks the levels of `graph` once, and returns it as a levelled graph.
    ///
    /// # Errors
    ///
    /// Returns `graph` if a commit has no level, or if a parent's level is not less than its
    /// child's.
    pub fn new(graph: CommitGraph<B>) -> Result<LevelledGraph<B>, CommitGraph<B>>
        // The call succeeds exactly if each commit of `graph` has a level greater than 0, and its
        // parents are commits of `graph` with smaller levels.
        ensures fall { IsOk result ↔ LevelsFall graph }

        // The answer has the bytes of `graph`.
        ensures same { IfOk result (λ levelled. levelled ≡ graph) }

        // After an error, the file that comes back has the bytes of `graph`.
        ensures back { IfErr result (λ refused. refused ≡ graph) }
    {
        if graph.levels_fall() {
            Ok(LevelledGraph { graph })
        } else {
            Err(graph)
        }
    }

    /// Guarantees the premises of merge bases. Does nothing else.
    ///
    /// The history is acyclic and has ordered generations.
    pub fn premises(&self)
        // Each commit of the file has a generation number less than infinity. Its parents are
        // commits of the file, and have smaller generation numbers.
        ensures levelled { IsLevelled (history_in self.now) }

        // The history of the file is acyclic.
        ensures acyclic { IsAcyclic (history_in self.now) }

        // The history of the file has ordered generations.
        ensures never_rise { GenerationsNeverRise (history_in self.now) }
    {
        let _graph = &self.graph;
    }

    /// Returns the file.
    pub fn graph(&self) -> &CommitGraph<B>
        // The answer has the same bytes.
        ensures { result.now ≡ self.now }
    {
        &self.graph
    }

    /// Returns a source over the same bytes, with a cache of its own: see [`CommitGraph::lend`].
    pub fn lend(&self) -> LevelledGraph<&[u8]>
        // The answer has the same bytes.
        ensures { result ≡ self.now }
    {
        LevelledGraph {
            graph: self.graph.lend(),
        }
    }

    /// Looks up the commit `id`, and caches the positions of its parents for a walk.
    pub(crate) fn get_on_walk<A: Allocator>(
        &mut self,
        alloc: A,
        id: ObjectId,
    ) -> Result<Option<SourceCommit<A>>, AllocError>
        ensures found { IfOk result
            (λ found. option_map entry_of found ≡ entry_at (history_in self.old) id) }
        ensures same { self.new ≡ self.old }
    {
        self.graph.get_on_walk(alloc, id)
    }

    /// Turns the levelled graph back into its file.
    pub fn into_graph(self) -> CommitGraph<B>
        // The answer has the same bytes.
        ensures { result ≡ self }
    {
        let LevelledGraph { graph } = self;
        graph
    }
}

impl<B: AsSlice<u8> + Drop> Find for LevelledGraph<B> {
    ghost history = { λ g. history_in g };

    ghost fault_count = { λ _. 0 };

    fn find<A: Allocator + Copy>(
        &mut self,
        alloc: A,
        id: ObjectId,
    ) -> Result<Option<SourceCommit<A>>, FindFault> {
        Ok(self.get_on_walk(alloc, id)?)
    }

    fn faults(&self) -> u64 {
        0
    }

    fn generations(&self) -> Generations
        // What the answer says of the generation numbers of the file is true.
        ensures so { AreSo result (history_in self.now) }

        // The answer is `NeverRise`.
        ensures known { result ≡ NeverRise }
    {
        self.premises();
        Generations::NeverRise
    }
}

/// Several graphs can share one file.
impl<B: AsSlice<u8> + Drop> Find for &LevelledGraph<B> {
    ghost history = { λ g. history_in g.now };

    ghost fault_count = { λ _. 0 };

    fn find<A: Allocator + Copy>(
        &mut self,
        alloc: A,
        id: ObjectId,
    ) -> Result<Option<SourceCommit<A>>, FindFault> {
        Ok(self.graph().get(alloc, id)?)
    }

    fn faults(&self) -> u64 {
        0
    }

    fn generations(&self) -> Generations
        // What the answer says of the generation numbers of the file is true.
        ensures so { AreSo result (history_in self.now.now) }

        // The answer is `NeverRise`.
        ensures known { result ≡ NeverRise }
    {
        (**self).generations()
    }
}
