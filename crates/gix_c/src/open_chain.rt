//! C function that opens a history over a chain of commit-graph files.

ghost use Rattle.std.specs.Prelude.{◌≡◌, ◌++◌, ◌⊎◌, ⊤};
ghost use Rattle.gix_commitgraph.specs.ChainCommits.{chain_in};
ghost use Rattle.gix_commitgraph.specs.ChainFormat.{IsChain};
ghost use Rattle.gix_commitgraph.specs.ChainLevels.{ChainFalls};
ghost use Rattle.gix_revwalk.specs.Generations.{HasNoGenerations};
ghost use Rattle.gix_revwalk.specs.History.{GenerationsNeverRise, History as Commits};
ghost use Rattle.gix_revwalk.specs.History.{IsAcyclic};
ghost use Rattle.gix_c_core.specs.Answers.{ByCode};
ghost use Rattle.gix_c_core.specs.ChainOpened.{HasLowest, IsChainOpened, bytes_of};

use gix_c_core::chain::{Bytes, read_chain};
use gix_c_core::file::Unopened;
use gix_c_core::history::History;
use gix_c_core::place::Place;
use gix_c_core::status::{NO_GRAPH, NO_LEVELS, OK, OUT_OF_MEMORY};
use gix_revision::Seed;
use std::alloc::Global;

/// Makes a history over a chain of commit-graph files, the lowest first. `*out` then owns it. Its
/// hash maps are seeded with `seed`.
///
/// What `*out` owned before is not freed.
#[unsafe(no_mangle)]
pub extern "C" fn gix_history_open_chain(
    alloc: Global,
    files: &[Bytes],
    seed: u64,
    out: &mut Place,
) -> i32
    // After `OK`, the files are a chain with falling levels. `out` has a complete history of
    // exactly their commits, right noted parents, no ref names, and a graph that holds nothing.
    // Abbreviated object names stand for exactly those commits. After an error, `out` is unchanged.
    ensures opened { ByCode result
        (IsChainOpened (bytes_of files.now) out.new.value) ⊥ (out.new ≡ out.old) }

    // After `OK`, the history of the chain is acyclic and has ordered generations.
    ensures premises { ByCode result (IsAcyclic (chain_in (bytes_of files.now))
        × GenerationsNeverRise (chain_in (bytes_of files.now))) ⊥ ⊤ }

    // After `OK`: if newer commits are acyclic, the chain's commits followed by them are acyclic.
    ensures acyclic { ByCode result ((newer : Commits)
        → IsAcyclic newer → IsAcyclic (chain_in (bytes_of files.now) ++ newer)) ⊥ ⊤ }

    // After `OK`: if newer commits have no generation numbers, or infinity, the chain's commits
    // followed by them have ordered generations.
    ensures never_rise { ByCode result ((newer : Commits) → HasNoGenerations newer
        → GenerationsNeverRise (chain_in (bytes_of files.now) ++ newer)) ⊥ ⊤ }

    // The code is `NO_GRAPH` only if the files are not a chain.
    ensures no_graph { result ≡ NO_GRAPH → ¬ IsChain (bytes_of files.now) }

    // The code is `NO_LEVELS` only if the lowest file is well-formed, and some commit has no level,
    // or a parent that is not a commit of the files with a lesser level. The files need not be a
    // chain then.
    ensures no_levels { result ≡ NO_LEVELS
        → HasLowest (bytes_of files.now) × (¬ ChainFalls (bytes_of files.now)) }

    // The code is `OK`, `NO_GRAPH`, `NO_LEVELS` or `OUT_OF_MEMORY`.
    ensures refused { ByCode result ⊤ ⊥
        ((result ≡ NO_GRAPH) ⊎ ((result ≡ NO_LEVELS) ⊎ (result ≡ OUT_OF_MEMORY))) }
{
    let chain = match read_chain(alloc, files, Seed::new(seed)) {
        Ok(chain) => chain,
        Err(Unopened::NoGraph) => return NO_GRAPH,
        Err(Unopened::NoLevels) => return NO_LEVELS,
        Err(Unopened::OutOfMemory) => return OUT_OF_MEMORY,
    };
    let Ok(history) = History::over_chain(alloc, chain, Seed::new(seed)) else {
        return OUT_OF_MEMORY;
    };
    let Ok(place) = Place::holding(alloc, history) else {
        return OUT_OF_MEMORY;
    };
    *out = place;
    OK
}
