//! Reads commits: from the commit-graph, or else from objects; changed as the repository says.

ghost use Rattle.std.specs.Prelude.{IfOk, Some};
ghost use Rattle.gix_base.specs.declared.hash.ObjectId.{ObjectId};
ghost use Rattle.gix_revwalk.specs.Held.{entry_of};
ghost use Rattle.gix_history.specs.Origins.{IsReadOf};
ghost use Rattle.gix_odb.specs.Stores.{IsCommitOf};

use crate::error::Refusal;
use gix_base::hash::ObjectId;
use gix_base::object::Kind;
use gix_files::Folders;
use gix_graph_rows::GraphRows;
use gix_history::{Origin, Read, ReadError, Reader};
use gix_odb::Store;
use gix_revwalk::graph::SourceCommit;
use std::alloc::{AllocError, Allocator};
use std::collections::{BTreeMap, BTreeSet};

/// How many changed objects are looked at when a repository is opened.
const MOST_LOOKED_AT: usize = 1024;

/// The bits of a commit date that a commit-graph file has (gitformat-commit-graph, "Commit Data").
const DATE_BITS: i64 = 0x3_ffff_ffff;

/// The commits whose parents, or whose content, the repository changes.
#[derive(Drop)]
pub(crate) struct Changes<A: Allocator> {
    /// The parents of grafted commits, and those of the commits at which a shallow history ends.
    parents: BTreeMap<ObjectId, Vec<ObjectId, A>, A>,
    /// The object that stands for another one (git-replace).
    replaced: BTreeMap<ObjectId, ObjectId, A>,
}

impl<A: Allocator + Copy> Changes<A> {
    /// Changes nothing.
    pub(crate) fn new(alloc: A) -> Changes<A> {
        Changes {
            parents: BTreeMap::new(alloc),
            replaced: BTreeMap::new(alloc),
        }
    }

    /// Returns whether nothing is changed.
    pub(crate) fn is_empty(&self) -> bool {
        self.parents.is_empty() && self.replaced.is_empty()
    }

    /// Gives a commit these parents.
    pub(crate) fn graft(
        &mut self,
        id: ObjectId,
        parents: Vec<ObjectId, A>,
    ) -> Result<(), AllocError> {
        self.parents.insert(id, parents)?;
        Ok(())
    }

    /// Puts an object in the place of another one.
    pub(crate) fn replace(&mut self, id: ObjectId, by: ObjectId) -> Result<(), AllocError> {
        self.replaced.insert(id, by)?;
        Ok(())
    }

    /// Returns the parents that a commit is given; `None` if they are its own.
    fn parents_of<B: Allocator>(
        &self,
        alloc: B,
        id: ObjectId,
    ) -> Result<Option<Vec<ObjectId, B>>, AllocError> {
        match self.parents.get(&id) {
            Some(parents) => Ok(Some(parents.to_vec(alloc)?)),
            None => Ok(None),
        }
    }

    /// Returns whether each object that is given parents is a commit, and each object that is
    /// replaced is replaced by one of its own kind.
    ///
    /// Only the first 1,024 objects are looked at. An object that cannot be read counts as right.
    pub(crate) fn are_of_right_kind<F: Folders + Drop>(
        &self,
        alloc: A,
        store: &mut Store<F, A>,
    ) -> Result<bool, AllocError> {
        for (id, _) in self.parents.iter().take(MOST_LOOKED_AT) {
            if !is_commit(alloc, store, *id)? {
                return Ok(false);
            }
        }
        for (id, by) in self.replaced.iter().take(MOST_LOOKED_AT) {
            if !are_of_one_kind(alloc, store, *id, *by)? {
                return Ok(false);
            }
        }
        Ok(true)
    }

    /// Returns the object that stands for `id`: itself, or what leads on from it in at most four
    /// steps. Returns `None` if there are more. git then fails.
    pub(crate) fn stand_in(&self, id: ObjectId) -> Option<ObjectId> {
        let mut id = id;
        for _ in 0..5u32 {
            match self.replaced.get(&id) {
                Some(by) => id = *by,
                None => return Some(id),
            }
        }
        None
    }
}

/// Returns the kind of an object; `None` if it is not read.
fn kind_of<F: Folders + Drop, A: Allocator + Copy>(
    alloc: A,
    store: &mut Store<F, A>,
    id: ObjectId,
) -> Result<Option<Kind>, AllocError> {
    match store.kind(alloc, id) {
        Ok(kind) => Ok(Some(kind)),
        Err(gix_odb::Error::OutOfMemory) => Err(AllocError),
        Err(_) => Ok(None),
    }
}

/// Returns whether an object is a commit, or cannot be read.
fn is_commit<F: Folders + Drop, A: Allocator + Copy>(
    alloc: A,
    store: &mut Store<F, A>,
    id: ObjectId,
) -> Result<bool, AllocError> {
    Ok(kind_of(alloc, store, id)?.unwrap_or(Kind::Commit) == Kind::Commit)
}

/// Returns why one of some objects is no commit. One that cannot be read counts as a commit.
fn why_no_commit<F: Folders + Drop, A: Allocator + Copy>(
    alloc: A,
    store: &mut Store<F, A>,
    ids: &[ObjectId],
) -> Result<Option<gix_odb::Error>, AllocError> {
    for id in ids {
        match kind_of(alloc, store, *id)? {
            None | Some(Kind::Commit) => {}
            Some(kind) => return Ok(Some(gix_odb::Error::NotACommit(*id, kind))),
        }
    }
    Ok(None)
}

/// Returns whether two objects have the same kind. One that is not read has any.
fn are_of_one_kind<F: Folders + Drop, A: Allocator + Copy>(
    alloc: A,
    store: &mut Store<F, A>,
    first: ObjectId,
    second: ObjectId,
) -> Result<bool, AllocError> {
    let first = kind_of(alloc, store, first)?;
    let second = kind_of(alloc, store, second)?;
    Ok(first.is_none() || second.is_none() || first == second)
}

/// Returns whether a commit-graph file says of a commit what its object says.
///
/// The file has the lower 34 bits of a date.
fn is_same<A: Allocator>(row: &SourceCommit<A>, object: &SourceCommit<A>) -> bool {
    row.parents.as_slice() == object.parents.as_slice()
        && row.time & DATE_BITS == object.time & DATE_BITS
}

/// Reads the commits of a repository.
#[derive(Drop)]
pub(crate) struct Commits<F: Folders + Drop, A: Allocator + Copy> {
    pub(crate) alloc: A,
    pub(crate) store: Store<F, A>,
    /// The commit-graph, if it is used. It is not if only objects are believed, or if anything is
    /// changed.
    pub(crate) rows: Option<GraphRows<F, A>>,
    /// Whether the question goes on without the commit-graph, since a row is damaged.
    pub(crate) is_without_rows: bool,
    pub(crate) changes: Changes<A>,
    /// Why the last commit was not read from objects.
    pub(crate) error: Option<gix_odb::Error>,
    /// Why the commit-graph cannot be used further.
    pub(crate) damage: Option<gix_graph_rows::Error>,
    /// The commits whose objects were read for the question, and agree with their rows.
    pub(crate) checked: BTreeSet<ObjectId, A>,
}

/// Returns the error of a history for one of the object database.
fn read_error(id: ObjectId, error: gix_odb::Error) -> ReadError {
    match error {
        gix_odb::Error::Missing(..) => ReadError::Missing(id),
        gix_odb::Error::Altered(..) => ReadError::Altered(id),
        gix_odb::Error::NotACommit(..) | gix_odb::Error::Malformed(..) => ReadError::Malformed(id),
        gix_odb::Error::OutOfMemory => ReadError::OutOfMemory,
        _ => ReadError::Failed(id),
    }
}

/// Returns a copy of a commit of the object database, which is authentic.
#[tactic(auto, using(crate::proofs::Read::read_authentic))]
fn authentic<A: Allocator, B: Allocator>(
    alloc: B,
    id: ObjectId,
    commit: &SourceCommit<A>,
) -> Result<Read<B>, AllocError>
    requires { IsCommitOf id (entry_of commit.now) }
    ensures { IfOk result (λ read. IsReadOf id (Some read)) }
{
    Ok(Read {
        commit: commit.copied(alloc)?,
        origin: Origin::Authentic,
    })
}

impl<F: Folders + Drop, A: Allocator + Copy> Commits<F, A> {
    /// Returns the commit-graph, if the question uses it.
    fn used_rows(&mut self) -> Option<&mut GraphRows<F, A>> {
        if self.is_without_rows {
            None
        } else {
            self.rows.as_mut()
        }
    }

    /// Returns whether each commit is read from its object, as it is there.
    pub(crate) fn reads_only_objects(&self) -> bool {
        (self.rows.is_none() || self.is_without_rows) && self.changes.is_empty()
    }

    /// Returns whether the commit-graph has a commit. One that is damaged has none.
    pub(crate) fn has_row(&mut self, id: ObjectId) -> Result<bool, AllocError> {
        let alloc = self.alloc;
        let Some(rows) = self.used_rows() else {
            return Ok(false);
        };
        match rows.has(alloc, id) {
            Ok(is_there) => Ok(is_there),
            Err(gix_graph_rows::Error::OutOfMemory) => Err(AllocError),
            Err(_) => Ok(false),
        }
    }

    /// Reads the object of a commit that a question or a reference names, once for each question.
    ///
    /// # Errors
    ///
    /// - `Object` if it was not read, or is no well-formed commit.
    /// - `Differs` if the commit-graph says something else of the commit.
    /// - `Graph` if the row of the commit is damaged.
    /// - `OutOfMemory` if an allocation failed.
    pub(crate) fn check(&mut self, id: ObjectId) -> Result<(), Refusal> {
        if self.checked.contains(&id) {
            return Ok(());
        }
        let alloc = self.alloc;
        let object = self.store.commit(alloc, id)?;
        if let Some(rows) = self.used_rows() {
            match rows.commit(alloc, id)? {
                Some(row) if !is_same(&row, &object) => return Err(Refusal::Differs(id)),
                _ => {}
            }
        }
        self.checked.insert(id)?;
        Ok(())
    }

    /// Looks a commit up in the commit-graph.
    fn row<B: Allocator + Copy>(
        &mut self,
        alloc: B,
        id: ObjectId,
    ) -> Result<Option<Read<B>>, ReadError>
        ensures { IfOk result (IsReadOf id) }
    {
        let own = self.alloc;
        let Some(rows) = self.used_rows() else {
            return Ok(None);
        };
        match rows.commit(own, id) {
            Ok(Some(commit)) => Ok(Some(Read {
                commit: commit.copied(alloc)?,
                origin: Origin::File,
            })),
            Ok(None) => Ok(None),
            Err(gix_graph_rows::Error::OutOfMemory) => Err(ReadError::OutOfMemory),
            Err(error) => {
                self.damage = Some(error);
                Err(ReadError::Failed(id))
            }
        }
    }

    /// Reads a commit from objects, as it is there.
    fn object<B: Allocator + Copy>(&mut self, alloc: B, id: ObjectId) -> Result<Read<B>, ReadError>
        ensures { IfOk result (λ read. IsReadOf id (Some read)) }
    {
        match self.store.commit(self.alloc, id) {
            Ok(commit) => Ok(authentic(alloc, id, &commit)?),
            Err(error) => {
                self.error = Some(error);
                Err(read_error(id, error))
            }
        }
    }

    /// Reads a commit from objects, with what the repository changes. The parents that it is given
    /// have to be commits.
    fn with_changes<B: Allocator + Copy>(
        &mut self,
        alloc: B,
        id: ObjectId,
    ) -> Result<Read<B>, ReadError>
        ensures { IfOk result (λ read. IsReadOf id (Some read)) }
    {
        let Some(by) = self.changes.stand_in(id) else {
            self.error = None;
            return Err(ReadError::Failed(id));
        };
        let read = self.replaced(alloc, id, by)?;
        let Some(parents) = self.changes.parents_of(alloc, id)? else {
            return Ok(read);
        };
        if let Some(error) = why_no_commit(self.alloc, &mut self.store, &parents)? {
            self.error = Some(error);
            return Err(read_error(id, error));
        }
        Ok(Read::changed(with_parents(read.commit, parents)))
    }

    /// Reads the commit `by` in the place of `id`. If it is missing git fails.
    fn replaced<B: Allocator + Copy>(
        &mut self,
        alloc: B,
        id: ObjectId,
        by: ObjectId,
    ) -> Result<Read<B>, ReadError>
        ensures { IfOk result (λ read. IsReadOf id (Some read)) }
    {
        if by == id {
            return self.object(alloc, id);
        }
        match self.object(alloc, by) {
            Ok(Read { commit, origin: _ }) => Ok(Read::changed(commit)),
            Err(ReadError::Missing(_)) => Err(ReadError::Failed(id)),
            Err(error) => Err(error),
        }
    }
}

/// Returns the commit with other parents, and without a generation number.
fn with_parents<B: Allocator>(
    commit: SourceCommit<B>,
    parents: Vec<ObjectId, B>,
) -> SourceCommit<B> {
    SourceCommit {
        parents,
        time: commit.time,
        generation: None,
    }
}

impl<F: Folders + Drop, A: Allocator + Copy> Reader for Commits<F, A> {
    fn read<B: Allocator + Copy>(
        &mut self,
        alloc: B,
        id: ObjectId,
    ) -> Result<Option<Read<B>>, ReadError>
        ensures { IfOk result (IsReadOf id) }
    {
        match self.row(alloc, id)? {
            Some(read) => Ok(Some(read)),
            None => Ok(Some(self.with_changes(alloc, id)?)),
        }
    }
}
