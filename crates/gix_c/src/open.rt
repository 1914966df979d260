//! C function that opens a history over a commit-graph file.

ghost use Rattle.std.specs.Prelude.{◌≡◌, ◌++◌, ◌⊎◌, ⊤};
ghost use Rattle.gix_commitgraph.specs.FileCommits.{history_in};
ghost use Rattle.gix_commitgraph.specs.FileFormat.{IsCommitGraph};
ghost use Rattle.gix_commitgraph.specs.FileLevels.{LevelsFall};
ghost use Rattle.gix_revwalk.specs.Generations.{HasNoGenerations};
ghost use Rattle.gix_revwalk.specs.History.{GenerationsNeverRise, History as Commits, IsAcyclic};
ghost use Rattle.gix_c_core.specs.Answers.{ByCode};
ghost use Rattle.gix_c_core.specs.Opened.{IsOpened};

use gix_c_core::file::{Unopened, read_file};
use gix_c_core::history::History;
use gix_c_core::place::Place;
use gix_c_core::status::{NO_GRAPH, NO_LEVELS, OK, OUT_OF_MEMORY};
use gix_revision::Seed;
use std::alloc::Global;

/// Makes a history over the bytes of a commit-graph file, which `*out` then owns. Its hash maps are
/// seeded with `seed`.
///
/// What `*out` owned before is not freed.
#[unsafe(no_mangle)]
pub extern "C" fn gix_history_open(alloc: Global, bytes: &[u8], seed: u64, out: &mut Place) -> i32
    // After `OK`, the file is well-formed with ordered levels. `out` has a complete history of
    // exactly its commits, right noted parents, no ref names, and a graph that holds nothing.
    // Abbreviated object names stand for exactly those commits. After an error, `out` is unchanged.
    ensures opened { ByCode result (IsOpened bytes.now out.new.value) ⊥ (out.new ≡ out.old) }

    // After `OK`, the history of the file is acyclic and has ordered generations.
    ensures premises { ByCode result
        (IsAcyclic (history_in bytes.now) × GenerationsNeverRise (history_in bytes.now)) ⊥ ⊤ }

    // After `OK`: if newer commits are acyclic, the file's commits followed by them are acyclic.
    ensures acyclic { ByCode result ((newer : Commits)
        → IsAcyclic newer → IsAcyclic (history_in bytes.now ++ newer)) ⊥ ⊤ }

    // After `OK`: if newer commits have no generation numbers, or infinity, the file's commits
    // followed by them have ordered generations.
    ensures never_rise { ByCode result ((newer : Commits)
        → HasNoGenerations newer → GenerationsNeverRise (history_in bytes.now ++ newer)) ⊥ ⊤ }

    // The code is `NO_GRAPH` only if the bytes are not a well-formed commit-graph file.
    ensures no_graph { result ≡ NO_GRAPH → ¬ IsCommitGraph bytes.now }

    // The code is `NO_LEVELS` only if the file is well-formed, and some commit has no level, or a
    // level that is not greater than that of each parent.
    ensures no_levels { result ≡ NO_LEVELS → IsCommitGraph bytes.now × (¬ LevelsFall bytes.now) }

    // The code is `OK`, `NO_GRAPH`, `NO_LEVELS` or `OUT_OF_MEMORY`.
    ensures refused { ByCode result ⊤ ⊥
        ((result ≡ NO_GRAPH) ⊎ ((result ≡ NO_LEVELS) ⊎ (result ≡ OUT_OF_MEMORY))) }
{
    let file = match read_file(alloc, bytes) {
        Ok(file) => file,
        Err(Unopened::NoGraph) => return NO_GRAPH,
        Err(Unopened::NoLevels) => return NO_LEVELS,
        Err(Unopened::OutOfMemory) => return OUT_OF_MEMORY,
    };
    let Ok(history) = History::over(alloc, file, Seed::new(seed)) else {
        return OUT_OF_MEMORY;
    };
    let Ok(place) = Place::holding(alloc, history) else {
        return OUT_OF_MEMORY;
    };
    *out = place;
    OK
}
