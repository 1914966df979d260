//! The history behind a handle.

ghost use Rattle.std.specs.Prelude.{◌≡◌, ◌++◌, [], IfErr, IfOk, None, OnErr, OnOk, Some, if◌then◌else◌, is_ok};
ghost use Rattle.gix_revwalk.specs.Graph.{held_at};
ghost use Rattle.gix_revwalk.specs.History.{entry_at, is_one_of, same_id};
ghost use Rattle.gix_revwalk.specs.Held.{entry_of};
ghost use Rattle.gix_c_core.specs.Behind.{commits_in, joined};
ghost use Rattle.gix_c_core.specs.Insertion.{HasOneMore, TellsWhy};
ghost use Rattle.gix_c_core.specs.Noted.{Remembers};
ghost use Rattle.gix_c_core.specs.Opened.{IsMadeOf};
ghost use Rattle.gix_base.specs.declared.hash.ObjectId.{ObjectId};

use crate::extent::Extent;
use crate::file::ids_of_file;
use crate::missing::set_of;
use gix_resolve::Table;
use gix_revision::Seed;
use gix_revision::commit_graph::{Chain, Commits, LevelledGraph};
use gix_revision::graph::{Commit, Graph, InsertError, SourceCommit};
use gix_revision::hash::ObjectId;
use gix_revision::merge_base::Flags;
use std::alloc::{AllocError, Global};
use std::collections::{BTreeMap, BTreeSet};

/// Commits of a file, if there is one, and newer ones in memory. Calls share one graph of them, and
/// one table of names by which revisions are resolved.
#[derive(Drop)]
pub struct History {
    pub graph: Graph<Commits<Global>, Commit<Flags>>,
    pub table: Table,
    /// Parents of commits: every missing one, and all that were inserted since the list was last
    /// sifted.
    pub named: Vec<ObjectId>,
    pub extent: Extent,
}

impl History {
    /// Makes a history of `commits`, with hash maps seeded with `seed`. Abbreviated object names
    /// stand for `ids`.
    fn with(alloc: Global, commits: Commits<Global>, ids: BTreeSet<ObjectId>, seed: Seed) -> History
        ensures commits { commits_in result ≡ joined commits }
        ensures held { (id : ObjectId) → held_at result.graph id ≡ None }
        ensures names { result.table.names.entries ≡ [] }
        ensures ids { result.table.ids ≡ ids }
        ensures named { result.named.items ≡ [] }
        ensures extent { result.extent ≡ Extent.Complete }
    {
        History {
            graph: Graph::with_seed(alloc, commits, seed),
            table: Table {
                names: BTreeMap::new(alloc),
                ids,
            },
            named: Vec::new(alloc),
            extent: Extent::Complete,
        }
    }

    /// Makes a history without commits, with hash maps seeded with `seed`.
    #[tactic(auto, using(crate::proofs::Lacking::noted_empty))]
    pub fn new(alloc: Global, seed: Seed) -> History
        // The answer has no commit.
        ensures empty { (id : ObjectId) → entry_at (commits_in result) id ≡ None }

        // The answer has no ref names.
        ensures names { result.table.names.entries ≡ [] }

        // Abbreviated object names stand for no id.
        ensures ids { result.table.ids.keys ≡ [] }

        // The answer notes parents: only parents of its commits, and every missing one.
        ensures noted { Remembers (commits_in result) result.named.items }

        // The answer is complete.
        ensures extent { result.extent ≡ Extent.Complete }
    {
        let commits = Commits::with_seed(alloc, None, seed);
        History::with(alloc, commits, BTreeSet::new(alloc), seed)
    }

    /// Makes a history of the commits of a file, with hash maps seeded with `seed`, and copies the
    /// ids of the file.
    pub fn over(alloc: Global, file: LevelledGraph, seed: Seed) -> Result<History, AllocError>
        // The answer is complete, has exactly the commits of the file, and holds none yet. It notes
        // parents, and has no ref names. Abbreviated object names stand for exactly the ids of the
        // file. Each commit has a level, and its parents are in the file with lower ones.
        ensures { IfOk result (IsMadeOf file) }
    {
        // No parent of the file's commits is missing.
        file.premises();
        let ids = ids_of_file(alloc, &file)?;
        let commits = Commits::with_seed(alloc, Some(file), seed);
        Ok(History::with(alloc, commits, ids, seed))
    }

    /// Makes a history of the commits of a chain of files, with hash maps seeded with `seed`.
    pub fn over_chain(
        alloc: Global,
        chain: Chain<Global>,
        seed: Seed,
    ) -> Result<History, AllocError>
        // The answer has exactly the commits of the chain.
        ensures commits { IfOk result (λ v. commits_in v ≡ joined chain.commits) }

        // The graph of the answer holds no commit yet.
        ensures held { IfOk result (λ v. (id : ObjectId) → held_at v.graph id ≡ None) }

        // The list of noted parents is empty.
        ensures named { IfOk result (λ v. v.named.items ≡ []) }

        // The answer has no ref names.
        ensures names { IfOk result (λ v. v.table.names.entries ≡ []) }

        // Abbreviated object names stand for exactly the ids in the list of the chain.
        ensures ids { IfOk result (λ v. (id : ObjectId)
            → is_one_of v.table.ids.keys id ≡ is_one_of chain.ids.items id) }

        // The answer is complete.
        ensures extent { IfOk result (λ v. v.extent ≡ Extent.Complete) }
    {
        let Chain {
            commits,
            ids,
            hashes: _,
        } = chain;
        let ids = set_of(alloc, ids)?;
        Ok(History::with(alloc, commits, ids, seed))
    }

    /// Adds an id to those that abbreviated object names stand for.
    pub(crate) fn add_id(&mut self, id: ObjectId) -> Result<(), AllocError>
        ensures graph { self.new.graph ≡ self.old.graph }
        ensures named { self.new.named ≡ self.old.named }
        ensures extent { self.new.extent ≡ self.old.extent }
        ensures names { self.new.table.names ≡ self.old.table.names }
        ensures ids { OnOk result (HasOneMore id self.old.table.ids.keys self.new.table.ids.keys) }
        ensures refused { OnErr result (self.new.table.ids.keys ≡ self.old.table.ids.keys) }
    {
        self.table.ids.insert(id)?;
        Ok(())
    }

    /// Inserts a commit under `id`, if the history has none with that id yet, and notes its
    /// parents. The graph keeps every commit that it holds.
    pub(crate) fn insert(&mut self, id: ObjectId, commit: SourceCommit) -> Result<(), InsertError>
        ensures new { OnOk result (entry_at (commits_in self.old) id ≡ None) }
        ensures put { OnOk result ((q : ObjectId)
            → entry_at (commits_in self.new) q
            ≡ (if same_id id q then Some (entry_of commit) else entry_at (commits_in self.old) q)) }
        ensures held { self.new.graph.held ≡ self.old.graph.held }
        ensures refused { OnErr result (self.new.graph ≡ self.old.graph) }
        ensures cause { IfErr result (TellsWhy (commits_in self.old) id commit) }
        ensures table { self.new.table ≡ self.old.table }
        ensures extent { self.new.extent ≡ self.old.extent }
        ensures named { self.new.named.items
            ≡ (if is_ok result then self.old.named.items ++ commit.parents.items else self.old.named.items) }
    {
        let before = self.named.len();
        if self.named.extend_from_slice(&commit.parents).is_err() {
            return Err(InsertError::OutOfMemory(commit));
        }
        match self.graph.insert(id, commit) {
            Ok(()) => Ok(()),
            Err(error) => {
                self.named.truncate(before);
                Err(error)
            }
        }
    }
}
