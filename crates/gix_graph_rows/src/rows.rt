//! Has the commit-graph of an `objects` folder.
//!
//! # Algorithm
//!
//! 1. `open` takes `info/commit-graph`, or else the files that the chain names (`chain.rt`). Of
//!    each it reads header, table of contents, base graphs and fanout table (`front.rt`).
//! 2. `commit` first looks among the places of parents that were just read (`hints.rt`).
//! 3. Otherwise it looks into each file, the last one first (`place.rt`). The fanout gives the ids
//!    with the same first byte, and `gix_pack` finds the id there. Only 256 of them are read,
//!    around the place that the next bytes of the id suggest (`parts.rt`). If the id may be
//!    elsewhere, all ids with this first byte are read and kept. The same happens if many of them
//!    were looked up.
//! 4. Read the row (`row.rt`), from a block of 4 KiB that is kept (`blocks.rt`). `gix_commitgraph`
//!    (`row.rt`) takes level and date from the same 64 bits.
//! 5. Find the file of each parent by its position (`position.rt` of `gix_commitgraph`), and read
//!    there its level and id (`commit.rt`). Further parents are in `EDGE` of the child's file.
//!
//! Positions are in the order of hashes, so the rows of a walk are far apart. Blocks are therefore
//! small, and a walk near the tips reads a few KiB a commit.

ghost use Rattle.std.specs.Prelude.{◌≡◌, IfOk, IfSome};
ghost use Rattle.gix_revwalk.specs.Held.{entry_of};
ghost use Rattle.gix_graph_rows.specs.RowForm.{IsSaid};
ghost use Rattle.gix_graph_rows.specs.ChainRows.{IsCommit, AreHints};
ghost use Rattle.gix_graph_rows.specs.FilesRead.{files_of, contents_of};

use crate::chain::{hashes, joined, layer_path};
use crate::commit::commit_at;
use crate::error::{Damage, Error, GraphFile};
use crate::hints::Hints;
use crate::layer::Layer;
use crate::place::find;
use crate::row::NO_PARENT;
use crate::source::open;
use gix_base::hash::ObjectId;
use gix_commitgraph::position::Counted;
use gix_files::{Folders, Opened};
use gix_revwalk::graph::SourceCommit;
use std::alloc::{Allocator, Global};

/// The files of a commit-graph that were opened.
#[derive(Drop)]
struct OpenFiles<O: Opened, A: Allocator + Copy> {
    layers: Vec<Layer<O, A>, A>,
    /// How many commits they have.
    total: u32,
}

/// Opens a file, which comes after these files in a chain. Returns `false` if there is none.
fn add_file<F: Folders, A: Allocator + Copy>(
    alloc: A,
    files: &F,
    path: &[u8],
    name: GraphFile,
    before: &[ObjectId],
    found: &mut OpenFiles<F::Opened, A>,
) -> Result<bool, Error> {
    let Some(source) = open(files, path, name)? else {
        return Ok(false);
    };
    let layer = Layer::new(alloc, source, before)?;
    let count = layer.count();
    match found.total.checked_add(count) {
        Some(total) if total <= NO_PARENT => found.total = total,
        _ => return Err(Error::Damaged(name, 8, Damage::Commits)),
    }
    found.layers.push(layer)?;
    Ok(true)
}

/// Opens the single file, or else the files of the chain.
fn opened<F: Folders, A: Allocator + Copy>(
    alloc: A,
    files: &F,
    folder: &[u8],
) -> Result<OpenFiles<F::Opened, A>, Error> {
    let mut found = OpenFiles {
        layers: Vec::new(alloc),
        total: 0,
    };
    let path = joined(alloc, folder, b"/info/commit-graph", b"")?;
    if add_file(alloc, files, &path, GraphFile::Single, &[], &mut found)? {
        return Ok(found);
    }
    let hashes = hashes(alloc, files, folder)?;
    for (number, hash) in hashes.iter().enumerate() {
        let name = GraphFile::Layer(*hash);
        let path = layer_path(alloc, folder, *hash)?;
        let before = hashes.get(..number).unwrap_or(&[]);
        if !add_file(alloc, files, &path, name, before, &mut found)? {
            return Err(Error::Missing(name));
        }
    }
    Ok(found)
}

/// Reads commits from a commit-graph file, or from a chain of them.
///
/// What was read is kept: up to 64 MiB of ids, and as many bytes of rows, for each file.
#[derive(Drop)]
pub struct GraphRows<F: Folders + Drop, A: Allocator + Copy = Global> {
    /// Where the files are. If no field has this type, the prover refuses callers whose `F` has a
    /// lifetime, such as `System<'_>`.
    files: F,
    layers: Vec<Layer<F::Opened, A>, A>,
    total: u32,
    hints: Hints<A>,
    // Each hint is right of these files.
    ghost known: { F.Opened.keeps → AreHints (files_of layers.items) hints.hints.items },
}

impl<F: Folders + Drop, A: Allocator + Copy> GraphRows<F, A> {
    /// Opens the commit-graph of an `objects` folder. Returns `None` if it has none.
    ///
    /// If there is a file `info/commit-graph`, the chain is not looked at, as in git. Each file of a
    /// chain must be in the same folder. The front of each file is read: header, table of contents
    /// and fanout table. See gitformat-commit-graph, "File Layout".
    ///
    /// # Errors
    ///
    /// git passes over a file that it cannot use, and so may the caller.
    ///
    /// - `Missing` if a file is missing that the chain names.
    /// - `Damaged` if the front of a file is malformed, or is not that of a file in this chain.
    /// - `Unsupported` if a file has another version or other ids, or a path is not UTF-8.
    /// - `Failed` if a file cannot be opened or read.
    /// - `OutOfMemory` if an allocation failed.
    pub fn open(
        alloc: A,
        files: F,
        objects_folder: &[u8],
    ) -> Result<Option<GraphRows<F, A>>, Error> {
        let found = opened(alloc, &files, objects_folder)?;
        if found.layers.is_empty() {
            return Ok(None);
        }
        Ok(Some(GraphRows {
            files,
            layers: found.layers,
            total: found.total,
            hints: Hints::new(alloc)?,
        }))
    }

    /// Returns the number of commits. A commit that two files of a chain have counts twice.
    pub fn len(&self) -> u32 {
        self.total
    }

    /// Returns whether a file has the commit `id`. Its row is not read.
    ///
    /// # Errors
    ///
    /// - `Damaged` if a file ends too early.
    /// - `Failed` if a file cannot be read.
    /// - `OutOfMemory` if an allocation failed.
    pub fn has(&mut self, alloc: A, id: ObjectId) -> Result<bool, Error> {
        let known = self.hints.place(id, self.layers.len());
        match find(alloc, &mut self.layers, known, id)? {
            Some(place) => {
                self.hints.note(id, place);
                Ok(true)
            }
            None => Ok(false),
        }
    }

    /// Looks up the commit `id`. Returns `None` if no file has it.
    ///
    /// The row of the commit is read, and what it names: the ids and levels of its parents. The
    /// answer has the parents in order, the date, and as generation number the topological level,
    /// which is 0 if git did not compute it. See gitformat-commit-graph, "Commit Data".
    ///
    /// # Errors
    ///
    /// - `Damaged` if a file ends too early, if the row has a parent that is no commit of this file
    ///   or of one before it, if a list of parents does not end, or if the level of a parent is not
    ///   less than the commit's, unless both are 0.
    /// - `Failed` if a file cannot be read.
    /// - `OutOfMemory` if an allocation failed.
    ///
    /// The call can be repeated. Other commits can be looked up.
    pub fn commit(&mut self, alloc: A, id: ObjectId) -> Result<Option<SourceCommit<A>>, Error>
        // If a commit is found, there are 36 bytes that say its date, its generation number and its
        // number of parents, as a row of a commit-graph file does. A row that names a list of
        // further parents only says that there are at least two parents.
        ensures said { IfOk result (λ found. IfSome found (λ c. IsSaid (entry_of c))) }

        // If the files keep their content, a commit that is found is what a row of one of them says,
        // whose id is `id`. The ids of its parents are those at the positions in the row.
        ensures value { F.Opened.keeps → IfOk result
            (λ found. IfSome found
            (λ c. IsCommit (contents_of self.old.layers.items) id (entry_of c))) }

        // The open files are the same after the call.
        ensures same { contents_of self.new.layers.items ≡ contents_of self.old.layers.items }
    {
        let known = self.hints.place(id, self.layers.len());
        match find(alloc, &mut self.layers, known, id)? {
            Some(place) => {
                let commit = commit_at(alloc, &mut self.layers, &mut self.hints, place)?;
                Ok(Some(commit))
            }
            None => Ok(None),
        }
    }
}
