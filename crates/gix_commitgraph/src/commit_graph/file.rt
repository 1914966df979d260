//! A commit-graph file as a source of commits.
//!
//! # Algorithm
//!
//! 1. `open` finds the chunks (`layout.rt`) and checks all ids and rows (`check.rt`).
//!    `LevelledGraph::new` compares the level of each commit with its parents' (`levels.rt`).
//! 2. A look-up by a walk first tries a cached position, and compares the id stored there
//!    (`hints.rt`).
//! 3. Otherwise `gix_ids` looks the id up (`lookup.rt`). The fanout gives the positions of the ids
//!    with the same first byte.
//! 4. At most six guesses follow, by the next four bytes, between the ids seen so far. Halving then
//!    finds the id, or the place before which it would be.
//! 5. Read the row as a commit (`commit.rt`), and cache the positions of its first two parents.
//!
//! All functions over the bytes take a slice and its layout under one premise, `IsSound`, or only
//! the layout's table of ids under `IsSorted`. `open` checks both, and the type keeps them as its
//! invariant, so that the types over any owner of the bytes are thin. A walk usually asks next for
//! the parents of the commit it has just read, hence the cache. Graphs can share a file:
//! `CommitGraph::lend` gives each a cache of its own. `joined.rt` adds newer commits to a file.
//! `chain.rt` inserts the commits of the upper files of a chain as newer commits. `layer.rt` checks
//! such a file by the same functions, with a greater bound for the positions of parents.
//! `falling.rt` then compares the levels by look-ups.

ghost use Rattle.std.specs.Prelude.{◌≡◌, ◌↔◌, ◌+◌, ◌*◌, ◌<◌, ◌≤◌, ◌^◌, ◌++◌, length, slice_get, IsOk, IfOk, IfErr, OnOk, IsTrue, is_some};
ghost use Rattle.std.specs.Option.{option_map};
ghost use Rattle.std.specs.List.Sorted.{IsStrictlySortedBy};
ghost use Rattle.gix_revwalk.specs.Held.{entry_of};
ghost use Rattle.gix_revwalk.specs.History.{entry_at};
ghost use Rattle.gix_ids.specs.TableForm.{compare_ids};
ghost use Rattle.gix_ids.specs.TableIds.{IsFirstFrom};
ghost use Rattle.gix_commitgraph.specs.FileChunks.{layout_of};
ghost use Rattle.gix_commitgraph.specs.FileCommits.{history_in};
ghost use Rattle.gix_commitgraph.specs.FileChecks.{IsSound};
ghost use Rattle.gix_commitgraph.specs.FileFormat.{IsCommitGraph};
ghost use Rattle.gix_commitgraph.specs.ChainFormat.{hash_of};
ghost use Rattle.gix_commitgraph.specs.FileIds.{ids_in};
ghost use Rattle.gix_commitgraph.specs.FileHash.{HashIsRight};
ghost use Rattle.gix_commitgraph.specs.FileLevels.{LevelsFall, IsLevelled};
ghost use Rattle.gix_commitgraph.specs.FileParents.{parent_count};
ghost use Rattle.gix_commitgraph.specs.FileRefused.{IsRefused};

use crate::commit_graph::check::check;
use crate::commit_graph::commit::commit_at;
use crate::commit_graph::fault::{OpenError, OpenFault};
use crate::commit_graph::hints::Hints;
use crate::commit_graph::layer::{add_hash, add_ids};
use crate::commit_graph::layout::{Layout, read_layout};
use crate::commit_graph::lookup::position_near;
use crate::commit_graph::{levels, trailer};
use gix_base::hash::ObjectId;
use gix_ids::{id_at, position, search};
use gix_revwalk::graph::{Find, FindFault, SourceCommit};
use std::alloc::{AllocError, Allocator, Global};
use std::convert::AsSlice;
use std::marker::Model;

/// A commit-graph file as a source of commits, read in place.
///
/// A look-up allocates its answer and nothing else. Its only error is out of memory.
///
/// The bytes are owned, or borrowed as `CommitGraph<&[u8]>`.
#[derive(Drop)]
pub struct CommitGraph<B: AsSlice<u8> + Drop = Vec<u8, Global>> {
    bytes: B,
    layout: Layout,
    hints: Hints,
}

impl<B: AsSlice<u8> + Drop> Model for CommitGraph<B> {
    ghost use Rattle.std.specs.Prelude.{◌≡◌, List, ℕ};
    ghost use Rattle.gix_commitgraph.specs.FileChunks.{layout_of};
    ghost use Rattle.gix_commitgraph.specs.FileChecks.{IsSound};

    ghost Value = { List ℕ };

    ghost view = { λ g. B.items g.bytes };

    ghost invariant = { λ g. (g.layout ≡ layout_of (B.items g.bytes)) × IsSound (B.items g.bytes) g.layout };
}

/// Checks all of a file, and finds its chunks.
fn read(bytes: &[u8]) -> Result<Layout, OpenFault>
    ensures value { IfOk result (λ l. l ≡ layout_of bytes.now) }
    ensures sound { IfOk result (λ l. IsSound bytes.now l) }
    ensures opened { IsOk result ↔ IsCommitGraph bytes.now }
    ensures refused { IfErr result (IsRefused bytes.now) }
{
    let layout = read_layout(bytes)?;
    if bytes[7] != 0 {
        return Err(OpenFault::BaseGraphs);
    }
    check(bytes, layout, layout.table.count)?;
    Ok(layout)
}

impl<B: AsSlice<u8> + Drop> CommitGraph<B> {
    /// Opens the bytes of a commit-graph file as a source of commits.
    ///
    /// Succeeds exactly if the bytes are a well-formed file (gitformat-commit-graph, "File Layout")
    /// of version 1 with SHA-1 ids and without base graphs. Such a file is the only one of its
    /// repository, or the first of a chain. Its lists of extra edges are in the order of their
    /// commits, and no two overlap, as git writes them. Every commit is checked here, so later
    /// look-ups meet no malformed row. [`CommitGraph::hash_is_right`] compares the trailing hash;
    /// [`CommitGraph::levels_fall`] checks the topological levels.
    ///
    /// # Errors
    ///
    /// Returns the bytes, with one thing that is wrong with them.
    pub fn open(bytes: B) -> Result<CommitGraph<B>, OpenError<B>>
        // The answer has these bytes.
        ensures same { IfOk result (λ graph. graph ≡ B.items bytes) }

        // The call succeeds exactly if the bytes are a well-formed commit-graph file of version 1,
        // with SHA-1 ids and without base graphs.
        ensures opened { IsOk result ↔ IsCommitGraph (B.items bytes) }

        // The error returns the bytes.
        ensures back { IfErr result (λ error. error.bytes ≡ bytes) }

        // What the fault of the error says of the bytes is true.
        ensures refused { IfErr result (λ error. IsRefused (B.items bytes) error.fault) }
    {
        match read(bytes.as_slice()) {
            Ok(layout) => Ok(CommitGraph {
                bytes,
                layout,
                hints: Hints::new(),
            }),
            Err(fault) => Err(OpenError { bytes, fault }),
        }
    }

    /// Returns the bytes of the file.
    pub fn into_bytes(self) -> B
        // The answer has the bytes of the file.
        ensures { B.items result ≡ self }
    {
        let CommitGraph {
            bytes,
            layout: _,
            hints: _,
        } = self;
        bytes
    }

    /// Returns a source over the same bytes, with a cache of its own.
    ///
    /// Look-ups through [`Find`] cache the positions of parents in the source that they ask. Graphs
    /// that share a file are therefore fastest if each has a source of its own.
    pub fn lend(&self) -> CommitGraph<&[u8]>
        // The answer has the same bytes.
        ensures { result ≡ self.now }
    {
        CommitGraph {
            bytes: self.bytes.as_slice(),
            layout: self.layout,
            hints: Hints::new(),
        }
    }

    /// Returns the number of commits.
    pub fn len(&self) -> usize
        // The answer is the number of commits of the file.
        ensures { result ≡ length (history_in self.now) }
    {
        self.layout.table.count
    }

    /// Appends the ids of the commits to `ids`, and the trailing hash to `hashes`.
    pub(crate) fn add_to<A: Allocator>(
        &self,
        ids: &mut Vec<ObjectId, A>,
        hashes: &mut Vec<u8, A>,
    ) -> Result<(), AllocError>
        ensures ids { OnOk result (ids.new.items ≡ ids.old.items ++ ids_in self.now) }
        ensures hashes { OnOk result (hashes.new.items ≡ hashes.old.items ++ hash_of self.now) }
    {
        let bytes = self.bytes.as_slice();
        add_ids(bytes, self.layout.table, ids)?;
        add_hash(bytes, hashes)?;
        Ok(())
    }

    /// Guarantees that the commits have few parents. Does nothing else.
    ///
    /// All commits together have at most two parents for each commit, and one more for each entry
    /// of `EDGE`. That is at most a third of the number of bytes.
    pub fn parents_are_few(&self)
        // All commits together have at most two parents for each commit, and one more for each
        // number of `EDGE`. A parent of two commits counts twice.
        ensures entries { parent_count (history_in self.now)
            ≤ 2 * length (history_in self.now) + (layout_of self.now).edge_count }

        // The number of parents of all commits is at most a third of the number of bytes.
        ensures bytes { 3 * parent_count (history_in self.now) ≤ length self.now }
    {
        let _bytes = &self.bytes;
    }

    /// Returns the id of the commit at `position`, or `None` past the last one.
    ///
    /// Ids rise with their positions.
    pub fn id(&self, position: usize) -> Option<ObjectId>
        // The answer is the id of the commit at `position`. It is `None` exactly past the last
        // commit.
        ensures { result ≡ option_map (λ e. e.0) (slice_get (history_in self.now) position) }
    {
        if position < self.layout.table.count {
            Some(id_at(self.bytes.as_slice(), self.layout.table.ids + 20 * position))
        } else {
            None
        }
    }

    /// Returns the position of the first id that is not less than `id`.
    ///
    /// The file need not have `id`. If every id is less, the answer is the number of commits. The
    /// call allocates nothing, and compares about as many ids as [`CommitGraph::get`].
    pub fn position_from(&self, id: ObjectId) -> usize
        // The answer is the position of the first id that is not less than `id`. If every id is
        // less, the answer is the number of commits.
        ensures first { IsFirstFrom (ids_in self.now) id result }

        // The ids of the file rise with their positions, and each occurs once.
        ensures rising { IsStrictlySortedBy compare_ids (ids_in self.now) }

        // The answer is less than 2^32.
        ensures small { result < 2 ^ 32 }
    {
        match search(self.bytes.as_slice(), self.layout.table, id) {
            Ok(place) => place,
            Err(place) => place,
        }
    }

    /// Returns whether each commit has a topological level that is greater than those of its
    /// parents.
    ///
    /// Files that git writes have such levels (git's technical/commit-graph, "generation number").
    /// The history is then acyclic and has ordered generations. The call reads every commit.
    pub fn levels_fall(&self) -> bool
        // The answer is true exactly if each commit of the file has a level greater than 0, and its
        // parents are commits of the file with smaller levels.
        ensures value { IsTrue result ↔ LevelsFall self.now }

        // If the answer is true, each commit of the file has a generation number less than
        // infinity. Its parents are commits of the file, and have smaller generation numbers.
        ensures levelled { IsTrue result → IsLevelled (history_in self.now) }
    {
        levels::fall(self.bytes.as_slice(), self.layout)
    }

    /// Returns whether the trailing hash is the SHA-1 of the bytes before it.
    ///
    /// See gitformat-commit-graph, "TRAILER". The call reads all bytes.
    pub fn hash_is_right(&self) -> bool
        // The answer is true exactly if the last 20 bytes are the SHA-1 of the bytes before them.
        ensures { IsTrue result ↔ HashIsRight self.now }
    {
        trailer::hash_is_right(self.bytes.as_slice())
    }

    /// Returns whether the file has the commit `id`. Allocates nothing.
    pub fn contains(&self, id: ObjectId) -> bool
        // The answer is true exactly if the file has the commit `id`.
        ensures { result ≡ is_some (entry_at (history_in self.now) id) }
    {
        position(self.bytes.as_slice(), self.layout.table, id).is_some()
    }

    /// Looks up the commit `id`. Returns `None` if the file does not have it.
    ///
    /// The answer is in the memory of `alloc`.
    ///
    /// # Errors
    ///
    /// - [`AllocError`]: the answer could not be allocated.
    pub fn get<A: Allocator>(
        &self,
        alloc: A,
        id: ObjectId,
    ) -> Result<Option<SourceCommit<A>>, AllocError>
        // The answer is the commit `id`: its parents in order, its date and its generation number.
        // It is `None` exactly if the file does not have the commit.
        ensures { IfOk result (λ found. option_map entry_of found ≡ entry_at (history_in self.now) id) }
    {
        let bytes = self.bytes.as_slice();
        let Some(i) = position(bytes, self.layout.table, id) else {
            return Ok(None);
        };
        Ok(Some(commit_at(bytes, self.layout, i, alloc)?))
    }

    /// Looks up the commit `id` like [`CommitGraph::get`], and caches the positions of its parents
    /// for a walk.
    pub(crate) fn get_on_walk<A: Allocator>(
        &mut self,
        alloc: A,
        id: ObjectId,
    ) -> Result<Option<SourceCommit<A>>, AllocError>
        ensures found { IfOk result
            (λ found. option_map entry_of found ≡ entry_at (history_in self.old) id) }
        ensures same { self.new ≡ self.old }
    {
        let bytes = self.bytes.as_slice();
        let Some(i) = position_near(bytes, self.layout.table, id, self.hints.guess(id)) else {
            return Ok(None);
        };
        self.hints.read_ahead(bytes, self.layout, i);
        let commit = commit_at(bytes, self.layout, i, alloc)?;
        self.hints
            .note_parents(bytes, self.layout, i, &commit.parents);
        Ok(Some(commit))
    }
}

impl<B: AsSlice<u8> + Drop> Find for CommitGraph<B> {
    ghost history = { λ g. history_in g };

    ghost fault_count = { λ _. 0 };

    fn find<A: Allocator + Copy>(
        &mut self,
        alloc: A,
        id: ObjectId,
    ) -> Result<Option<SourceCommit<A>>, FindFault> {
        Ok(self.get_on_walk(alloc, id)?)
    }

    fn faults(&self) -> u64 {
        0
    }
}

/// Several graphs can share one file.
impl<B: AsSlice<u8> + Drop> Find for &CommitGraph<B> {
    ghost history = { λ g. history_in g.now };

    ghost fault_count = { λ _. 0 };

    fn find<A: Allocator + Copy>(
        &mut self,
        alloc: A,
        id: ObjectId,
    ) -> Result<Option<SourceCommit<A>>, FindFault> {
        Ok(self.get(alloc, id)?)
    }

    fn faults(&self) -> u64 {
        0
    }
}
