//! Opens a chain of commit-graph files, the lowest first.

ghost use Rattle.std.specs.Prelude.{◌≡◌, ◌≢◌, ◌≤◌, ℕ, List, length, ◌++◌, map, drop, true, IfErr, IfOk, OnErr, OnOk};
ghost use Rattle.std.specs.List.{list_all};
ghost use Rattle.gix_base.specs.declared.hash.ObjectId.{ObjectId};
ghost use Rattle.gix_revwalk.specs.History.{History, entry_at};
ghost use Rattle.gix_commitgraph.specs.ChainCommits.{ids_of, layer_in, layers_in};
ghost use Rattle.gix_commitgraph.specs.ChainFormat.{AreLayers, hash_of};
ghost use Rattle.gix_commitgraph.specs.ChainLevels.{is_high};
ghost use Rattle.gix_commitgraph.specs.ChainSteps.{Holds, HoldsSome, IsNext};
ghost use Rattle.gix_commitgraph.specs.FileCommits.{history_in};
ghost use Rattle.gix_commitgraph.specs.FileLevels.{IsLevelled};
ghost use Rattle.gix_commitgraph.specs.NewerCommits.{in_file};

use crate::commit_graph::falling::are_high;
use crate::commit_graph::joined::Commits;
use crate::commit_graph::layer::{Unfit, add_hash, add_ids, insert_rows, read_layer};
use crate::commit_graph::levelled::LevelledGraph;
use gix_base::hash::ObjectId;
use gix_revwalk::Seed;
use std::alloc::{AllocError, Allocator};
use std::convert::AsSlice;

/// Why a file is not added to a chain.
#[derive(Clone, Copy, Debug, PartialEq, Eq, Drop)]
pub enum ChainFault {
    /// The file is not the next one of the chain: it is malformed, its trailing hash is wrong, its
    /// base graphs are not the files below it, or it has a commit that they have.
    NoChain,
    /// A commit has no level, or a parent's level is not less than its child's.
    NoLevels,
    OutOfMemory,
}

/// A chain of commit-graph files: the lowest in place, and the commits of the others in memory.
#[derive(Drop)]
pub struct Chain<A: Allocator + Copy> {
    pub commits: Commits<A>,
    /// The ids of all commits by their positions in the chain.
    pub ids: Vec<ObjectId, A>,
    /// The trailing hashes of the files, one after another.
    pub hashes: Vec<u8, A>,
}

/// Returns what a file that is not added is refused for.
fn fault_of(unfit: Unfit) -> ChainFault
    ensures twice { result ≡ ChainFault.NoChain → unfit ≡ Unfit.Twice }
    ensures levels { result ≢ ChainFault.NoLevels }
{
    match unfit {
        Unfit::Twice => ChainFault::NoChain,
        Unfit::OutOfMemory => ChainFault::OutOfMemory,
    }
}

impl<A: Allocator + Copy> Chain<A> {
    /// Makes a chain of its lowest file alone.
    fn over(alloc: A, lowest: LevelledGraph, seed: Seed) -> Result<Chain<A>, AllocError>
        ensures { IfOk result (λ chain. Holds (history_in lowest) (hash_of lowest)
            (in_file chain.commits.file ++ chain.commits.newer) chain.ids.items chain.hashes.items) }
    {
        let mut ids = Vec::new(alloc);
        let mut hashes = Vec::new(alloc);
        lowest.graph().add_to(&mut ids, &mut hashes)?;
        Ok(Chain {
            commits: Commits::with_seed(alloc, Some(lowest), seed),
            ids,
            hashes,
        })
    }

    /// Opens a chain of files over its lowest one. The files are the others, from below.
    ///
    /// # Errors
    ///
    /// - [`ChainFault::NoChain`]: the files are not the upper ones of a chain over `lowest`.
    /// - [`ChainFault::NoLevels`]: a commit of theirs has no level, or a parent's level is not less.
    /// - [`ChainFault::OutOfMemory`]: an allocation failed.
    pub fn open<T: AsSlice<u8>>(
        alloc: A,
        lowest: LevelledGraph,
        files: &[T],
        seed: Seed,
    ) -> Result<Chain<A>, ChainFault>
        // After a success, `files` are the upper files of a chain over `lowest`.
        ensures chain { OnOk result (AreLayers (hash_of lowest) (history_in lowest) (map T.items files.now)) }

        // The commits of the answer are exactly those of `lowest` and `files`, each under its id.
        ensures commits { IfOk result (λ chain. (q : ObjectId)
            → entry_at (in_file chain.commits.file ++ chain.commits.newer) q
            ≡ entry_at (history_in lowest ++ layers_in (history_in lowest) (map T.items files.now)) q) }

        // The ids of the answer are those of the commits of all files, by their positions in the
        // chain.
        ensures ids { IfOk result (λ chain. chain.ids.items
            ≡ ids_of (history_in lowest ++ layers_in (history_in lowest) (map T.items files.now))) }

        // After a success, each commit of the chain has a generation number less than infinity. Its
        // parents are commits of the chain, and have smaller generation numbers.
        ensures levelled { OnOk result
            (IsLevelled (history_in lowest ++ layers_in (history_in lowest) (map T.items files.now))) }

        // After a success, each commit of `files` has a generation number less than infinity. Its
        // parents are commits of the chain, and have smaller generation numbers.
        ensures falls { OnOk result (list_all
            (is_high (history_in lowest ++ layers_in (history_in lowest) (map T.items files.now)))
            (ids_of (layers_in (history_in lowest) (map T.items files.now))) ≡ true) }

        // `NoChain` comes only if `files` are not the upper files of a chain over `lowest`.
        ensures no_chain { IfErr result (λ e. e ≡ ChainFault.NoChain
            → ¬ AreLayers (hash_of lowest) (history_in lowest) (map T.items files.now)) }

        // `NoLevels` comes only if a commit of `files` has no generation number less than infinity,
        // has a parent outside the chain, or has a parent whose generation number is not smaller.
        ensures no_levels { IfErr result (λ e. e ≡ ChainFault.NoLevels → ¬ (list_all
            (is_high (history_in lowest ++ layers_in (history_in lowest) (map T.items files.now)))
            (ids_of (layers_in (history_in lowest) (map T.items files.now))) ≡ true)) }
    {
        lowest.premises();
        let Ok(mut chain) = Chain::over(alloc, lowest, seed) else {
            return Err(ChainFault::OutOfMemory);
        };
        let count = chain.ids.len();
        match chain.add_all(alloc, files) {
            Ok(()) => {}
            Err(fault) => return Err(fault),
        }
        let Ok(fall) = chain.levels_fall(alloc, count) else {
            return Err(ChainFault::OutOfMemory);
        };
        if !fall {
            return Err(ChainFault::NoLevels);
        }
        Ok(chain)
    }

    /// Returns whether the commits from position `count` on have levels that are greater than those of
    /// their parents.
    fn levels_fall(&self, alloc: A, count: usize) -> Result<bool, AllocError>
        requires { count ≤ length self.now.ids.items }
        ensures { IfOk result (λ b. b ≡ list_all (is_high (in_file self.now.commits.file ++ self.now.commits.newer))
            (drop count self.now.ids.items)) }
    {
        are_high(&self.commits, alloc, &self.ids.as_slice()[count..])
    }

    /// Adds the next files of the chain.
    fn add_all<T: AsSlice<u8>>(&mut self, alloc: A, files: &[T]) -> Result<(), ChainFault>
        ensures layers { OnOk result ((h : History) → (hashes : List ℕ)
            → Holds h hashes (in_file self.old.commits.file ++ self.old.commits.newer) self.old.ids.items self.old.hashes.items
            → AreLayers hashes h (map T.items files.now)) }
        ensures added { OnOk result ((h : History) → (hashes : List ℕ)
            → Holds h hashes (in_file self.old.commits.file ++ self.old.commits.newer) self.old.ids.items self.old.hashes.items
            → HoldsSome (h ++ layers_in h (map T.items files.now))
            (in_file self.new.commits.file ++ self.new.commits.newer) self.new.ids.items self.new.hashes.items) }
        ensures no_chain { IfErr result (λ e. e ≡ ChainFault.NoChain → (h : History) → (hashes : List ℕ)
            → Holds h hashes (in_file self.old.commits.file ++ self.old.commits.newer) self.old.ids.items self.old.hashes.items
            → ¬ AreLayers hashes h (map T.items files.now)) }
        ensures levels { IfErr result (λ e. e ≢ ChainFault.NoLevels) }
    {
        for file in files {
            match self.add(alloc, file.as_slice()) {
                Ok(()) => {}
                Err(fault) => return Err(fault),
            }
        }
        Ok(())
    }

    /// Adds the next file of the chain, whose commits are read into memory.
    ///
    /// The promises suppose that the chain has the commits, the ids and the hashes of its files.
    ///
    /// # Errors
    ///
    /// - [`ChainFault::NoChain`]: the file is not the next one of the chain.
    /// - [`ChainFault::OutOfMemory`]: an allocation failed.
    pub fn add(&mut self, alloc: A, bytes: &[u8]) -> Result<(), ChainFault>
        // If the chain has the commits and ids of a history and the hashes of its files, then after
        // a success `bytes` is the next file of a chain over this history and these hashes.
        ensures next { OnOk result ((h : History) → (hashes : List ℕ)
            → Holds h hashes (in_file self.old.commits.file ++ self.old.commits.newer) self.old.ids.items self.old.hashes.items
            → IsNext hashes h bytes.now) }

        // If the chain has the commits and ids of a history and the hashes of its files, then after
        // a success the chain has, after these, also the commits, the ids and the hash of `bytes`.
        ensures added { OnOk result ((h : History) → (hashes : List ℕ)
            → Holds h hashes (in_file self.old.commits.file ++ self.old.commits.newer) self.old.ids.items self.old.hashes.items
            → Holds (h ++ layer_in h bytes.now) (hashes ++ hash_of bytes.now)
            (in_file self.new.commits.file ++ self.new.commits.newer) self.new.ids.items self.new.hashes.items) }

        // Also after an error, the lowest file is unchanged.
        ensures file { self.new.commits.file ≡ self.old.commits.file }

        // If the chain has the commits and ids of a history and the hashes of its files, then
        // `NoChain` comes only if `bytes` is not the next file of a chain over this history and
        // these hashes.
        ensures no_chain { IfErr result (λ e. e ≡ ChainFault.NoChain → (h : History) → (hashes : List ℕ)
            → Holds h hashes (in_file self.old.commits.file ++ self.old.commits.newer) self.old.ids.items self.old.hashes.items
            → ¬ IsNext hashes h bytes.now) }

        // `NoLevels` never comes.
        ensures levels { IfErr result (λ e. e ≢ ChainFault.NoLevels) }
    {
        let ids = self.ids.as_slice();
        let Some(layout) = read_layer(bytes, self.hashes.as_slice(), ids.len()) else {
            return Err(ChainFault::NoChain);
        };
        if let Err(unfit) = insert_rows(bytes, layout, ids, alloc, &mut self.commits) {
            return Err(fault_of(unfit));
        }
        let Ok(()) = add_ids(bytes, layout.table, &mut self.ids) else {
            return Err(ChainFault::OutOfMemory);
        };
        match add_hash(bytes, &mut self.hashes) {
            Ok(()) => Ok(()),
            Err(_) => Err(ChainFault::OutOfMemory),
        }
    }
}
