//! A commit-graph file, if there is one, and a source of the commits that it does not have.

ghost use Rattle.std.specs.Prelude.{◌≡◌, ◌++◌, None, Some, is_some, IfErr, IfOk, IsTrue, OnErr, OnOk, if◌then◌else◌};
ghost use Rattle.std.specs.Option.{option_map};
ghost use Rattle.gix_revwalk.specs.Generations.{AreSo, HasNoGenerations};
ghost use Rattle.gix_revwalk.specs.declared.graph.find.Generations.TheVariants.{Absent, NeverRise};
ghost use Rattle.gix_revwalk.specs.Held.{entry_of};
ghost use Rattle.gix_revwalk.specs.History.{IsAcyclic, GenerationsNeverRise, entry_at, same_id};
ghost use Rattle.gix_revwalk.specs.Memory.{SaysWhy};
ghost use Rattle.gix_commitgraph.specs.NewerCommits.{in_file};
ghost use Rattle.gix_base.specs.declared.hash.ObjectId.{ObjectId};

use crate::commit_graph::levelled::LevelledGraph;
use gix_base::hash::ObjectId;
use gix_revwalk::Seed;
use gix_revwalk::graph::{
    Find, FindFault, Generations, Insert, InsertError, MemorySource, SourceCommit,
};
use std::alloc::{AllocError, Allocator, Global};
use std::convert::AsSlice;

/// A levelled commit-graph file, or none, and another source for what the file does not have.
///
/// Git does not write a file at each commit, so a file may lack newer commits. If both have a
/// commit, the file's counts.
#[derive(Drop)]
pub struct Joined<S: Find, B: AsSlice<u8> + Drop = Vec<u8, Global>> {
    pub file: Option<LevelledGraph<B>>,
    pub newer: S,
}

/// A levelled commit-graph file, or none, and newer commits in memory.
pub type Commits<A> = Joined<MemorySource<A>>;

impl<S: Find, B: AsSlice<u8> + Drop> Joined<S, B> {
    /// Guarantees premises of merge bases, if the newer commits meet theirs. Does nothing else.
    ///
    /// - If the newer commits are acyclic, then so are all commits together.
    /// - If no newer commit has a generation number, then all commits together have ordered
    ///   generations.
    ///
    /// No commit of the file has a parent outside it, and a missing generation number counts as
    /// infinity.
    pub fn premises(&self)
        // If the newer commits are acyclic, then so are all commits together.
        ensures acyclic { IsAcyclic (S.history self.now.newer)
            → IsAcyclic (in_file self.now.file ++ S.history self.now.newer) }

        // If no newer commit has a generation number other than infinity, then all commits together
        // have ordered generations.
        ensures never_rise { HasNoGenerations (S.history self.now.newer)
            → GenerationsNeverRise (in_file self.now.file ++ S.history self.now.newer) }
    {
        match &self.file {
            Some(file) => file.premises(),
            None => {}
        }
    }

    /// Returns whether the file has the commit `id`.
    fn is_in_file(&self, id: ObjectId) -> bool
        ensures { result ≡ is_some (entry_at (in_file self.now.file) id) }
    {
        match &self.file {
            Some(file) => file.graph().contains(id),
            None => false,
        }
    }

    /// Looks up the commit `id` in the file.
    fn find_in_file<A: Allocator>(
        &self,
        alloc: A,
        id: ObjectId,
    ) -> Result<Option<SourceCommit<A>>, AllocError>
        ensures { IfOk result (λ found. option_map entry_of found ≡ entry_at (in_file self.now.file) id) }
    {
        match &self.file {
            Some(file) => file.graph().get(alloc, id),
            None => Ok(None),
        }
    }

    /// Looks up the commit `id` in the file, and caches the positions of its parents for a walk.
    fn find_on_walk<A: Allocator>(
        &mut self,
        alloc: A,
        id: ObjectId,
    ) -> Result<Option<SourceCommit<A>>, AllocError>
        ensures found { IfOk result
            (λ found. option_map entry_of found ≡ entry_at (in_file self.old.file) id) }
        ensures same { self.new ≡ self.old }
    {
        match &mut self.file {
            Some(file) => file.get_on_walk(alloc, id),
            None => Ok(None),
        }
    }

    /// Returns what is known about the generation numbers of all commits together, if `newer` is
    /// known about those of the newer commits.
    fn generations_with(&self, newer: Generations) -> Generations
        requires { AreSo newer (S.history self.now.newer) }
        ensures so { AreSo result (in_file self.now.file ++ S.history self.now.newer) }
        ensures known { IsTrue (is_some self.now.file) → newer ≡ Absent → result ≡ NeverRise }
    {
        self.premises();
        match (&self.file, newer) {
            (None, known) => known,
            (Some(_), Generations::Absent) => Generations::NeverRise,
            (Some(_), _) => Generations::Unknown,
        }
    }
}

impl<A: Allocator + Copy> Joined<MemorySource<A>> {
    /// Makes a source of the commits of `file`, if there is one, without newer commits.
    ///
    /// The hash map of the newer commits has the default seed. If strangers choose their ids, use
    /// [`Joined::with_seed`].
    pub fn new(alloc: A, file: Option<LevelledGraph>) -> Self
        // The file of the answer is `file`.
        ensures file { result.file ≡ file }

        // There are no newer commits.
        ensures empty { (id : ObjectId) → entry_at result.newer id ≡ None }

        // The history of the answer is that of the file, or empty if there is no file.
        ensures commits { in_file result.file ++ result.newer ≡ in_file file }
    {
        Joined::with_seed(alloc, file, Seed::default())
    }

    /// Makes a source of the commits of `file`, if there is one, without newer commits. The hash
    /// map of newer commits is seeded with `seed`.
    pub fn with_seed(alloc: A, file: Option<LevelledGraph>, seed: Seed) -> Self
        // The file of the answer is `file`.
        ensures file { result.file ≡ file }

        // There are no newer commits.
        ensures empty { (id : ObjectId) → entry_at result.newer id ≡ None }

        // The history of the answer is that of the file, or empty if there is no file.
        ensures commits { in_file result.file ++ result.newer ≡ in_file file }
    {
        Joined {
            file,
            newer: MemorySource::with_seed(alloc, seed),
        }
    }
}

impl<M: Allocator, B: AsSlice<u8> + Drop> Joined<MemorySource<M>, B> {
    /// Looks up the commit `id`. Returns `None` if neither the file nor the newer commits have it.
    ///
    /// The answer is in the memory of `alloc`.
    ///
    /// # Errors
    ///
    /// - [`AllocError`]: the answer could not be allocated.
    pub fn get<A: Allocator + Copy>(
        &self,
        alloc: A,
        id: ObjectId,
    ) -> Result<Option<SourceCommit<A>>, AllocError>
        // The answer is the commit `id` of the file, or else the newer one: its parents in order,
        // its date and its generation number. It is `None` exactly if neither has the commit.
        ensures { IfOk result (λ found.
            option_map entry_of found ≡ entry_at (in_file self.now.file ++ self.now.newer) id) }
    {
        if let Some(commit) = self.find_in_file(alloc, id)? {
            return Ok(Some(commit));
        }
        self.newer.get(alloc, id)
    }

    /// Returns a source of the same commits, with a cache of its own.
    ///
    /// Graphs that share the commits are fastest if each has a source of its own: see
    /// [`CommitGraph::lend`](crate::commit_graph::CommitGraph::lend).
    pub fn lend(&self) -> Joined<&MemorySource<M>, &[u8]>
        // The commits of the file are the same in the answer. A missing file counts as one without
        // commits.
        ensures file { in_file result.file ≡ in_file self.now.file }

        // The newer commits of the answer are the same.
        ensures newer { result.newer.now ≡ self.now.newer }
    {
        Joined {
            file: match &self.file {
                Some(file) => Some(file.lend()),
                None => None,
            },
            newer: &self.newer,
        }
    }
}

impl<S: Find, B: AsSlice<u8> + Drop> Find for Joined<S, B> {
    ghost history = { λ j. in_file j.file ++ S.history j.newer };

    ghost fault_count = { λ j. S.fault_count j.newer };

    fn find<A: Allocator + Copy>(
        &mut self,
        alloc: A,
        id: ObjectId,
    ) -> Result<Option<SourceCommit<A>>, FindFault> {
        if let Some(commit) = self.find_on_walk(alloc, id)? {
            return Ok(Some(commit));
        }
        self.newer.find(alloc, id)
    }

    fn faults(&self) -> u64 {
        self.newer.faults()
    }

    fn generations(&self) -> Generations {
        self.generations_with(self.newer.generations())
    }
}

/// Several graphs can share the same commits.
impl<M: Allocator, B: AsSlice<u8> + Drop> Find for &Joined<MemorySource<M>, B> {
    ghost history = { λ j. in_file j.now.file ++ j.now.newer };

    ghost fault_count = { λ _. 0 };

    fn find<A: Allocator + Copy>(
        &mut self,
        alloc: A,
        id: ObjectId,
    ) -> Result<Option<SourceCommit<A>>, FindFault> {
        Ok(self.get(alloc, id)?)
    }

    fn faults(&self) -> u64 {
        0
    }

    fn generations(&self) -> Generations
        // What the answer says of the generation numbers of all commits together is true.
        ensures so { AreSo result (in_file self.now.now.file ++ self.now.now.newer) }

        // If there is a file, and no newer commit has a generation number other than infinity, the
        // answer is `NeverRise`.
        ensures known { IsTrue (is_some self.now.now.file) → HasNoGenerations self.now.now.newer
            → result ≡ NeverRise }
    {
        self.generations_with(self.newer.generations())
    }
}

/// Inserts commits that the file does not have into the newer commits.
impl<M: Allocator + Copy, B: AsSlice<u8> + Drop> Insert for Joined<MemorySource<M>, B> {
    type Commit = SourceCommit<M>;

    type Refused = InsertError<M>;

    ghost entry = { entry_of };

    ghost says_why = { SaysWhy };

    fn insert(&mut self, id: ObjectId, commit: SourceCommit<M>) -> Result<(), InsertError<M>>
        // The call succeeds only if neither the file nor the newer commits have a commit `id` yet.
        ensures new { OnOk result (entry_at (in_file self.old.file ++ self.old.newer) id ≡ None) }

        // After a success, the history has this commit under `id`. Under every other id it has the
        // same commit as before, or none if it had none.
        ensures put { OnOk result ((q : ObjectId)
            → entry_at (in_file self.new.file ++ self.new.newer) q
            ≡ (if same_id id q then Some (entry_of commit)
            else entry_at (in_file self.old.file ++ self.old.newer) q)) }

        // Also after an error, the file is unchanged.
        ensures file { self.new.file ≡ self.old.file }

        // After an error, the source is unchanged.
        ensures refused { OnErr result (self.new ≡ self.old) }

        // The error returns the commit. `AlreadyThere` comes only if the history has a commit `id`,
        // and `OutOfMemory` only if it has none.
        ensures cause { IfErr result
            (SaysWhy (in_file self.old.file ++ self.old.newer) id commit) }
    {
        if self.is_in_file(id) {
            return Err(InsertError::AlreadyThere(commit));
        }
        self.newer.insert(id, commit)
    }
}
