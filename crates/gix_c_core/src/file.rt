//! Reads a commit-graph file from bytes that C passes.

ghost use Rattle.std.specs.Prelude.{◌≡◌, is_some, IfErr, IfOk, OnOk};
ghost use Rattle.gix_base.specs.declared.hash.ObjectId.{ObjectId};
ghost use Rattle.gix_commitgraph.specs.FileCommits.{history_in};
ghost use Rattle.gix_commitgraph.specs.FileFormat.{IsCommitGraph};
ghost use Rattle.gix_commitgraph.specs.FileLevels.{LevelsFall};
ghost use Rattle.gix_revwalk.specs.History.{entry_at, is_one_of};
ghost use Rattle.gix_c_core.specs.Unopened.{TellsCause};

use gix_revision::commit_graph::{CommitGraph, LevelledGraph};
use gix_revision::hash::ObjectId;
use std::alloc::{AllocError, Global};
use std::collections::BTreeSet;

/// Why bytes were not opened.
#[derive(Drop)]
pub enum Unopened {
    /// The bytes are not a supported commit-graph file.
    NoGraph,
    /// A commit has no level, or a parent's level is not less than its child's.
    NoLevels,
    OutOfMemory,
}

/// Opens a copy of the bytes of a commit-graph file, and checks its levels.
pub fn read_file(alloc: Global, bytes: &[u8]) -> Result<LevelledGraph, Unopened>
    // The answer has the same bytes.
    ensures same { IfOk result (λ file. file ≡ bytes.now) }

    // After a success, the bytes are a commit-graph file. Each commit of the file has a level, and
    // its parents are commits of the file with lower levels.
    ensures opened { OnOk result (IsCommitGraph bytes.now × LevelsFall bytes.now) }

    // After `NoGraph`, the bytes are not a commit-graph file. After `NoLevels`, they are one, and
    // its levels are not as `opened` says.
    ensures refused { IfErr result (TellsCause bytes.now) }
{
    let Ok(bytes) = bytes.to_vec(alloc) else {
        return Err(Unopened::OutOfMemory);
    };
    let Ok(graph) = CommitGraph::open(bytes) else {
        return Err(Unopened::NoGraph);
    };
    match LevelledGraph::new(graph) {
        Ok(file) => Ok(file),
        Err(_) => Err(Unopened::NoLevels),
    }
}

/// Collects the ids of a file's commits.
pub(crate) fn ids_of_file(
    alloc: Global,
    file: &LevelledGraph,
) -> Result<BTreeSet<ObjectId>, AllocError>
    ensures { IfOk result (λ ids. (q : ObjectId)
        → is_one_of ids.keys q ≡ is_some (entry_at (history_in file.now) q)) }
{
    let graph = file.graph();
    let mut ids = BTreeSet::new(alloc);
    for position in 0..graph.len() {
        if let Some(id) = graph.id(position) {
            ids.insert(id)?;
        }
    }
    Ok(ids)
}
