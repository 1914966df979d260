//! Reads a chain of commit-graph files from bytes that C passes.

ghost use Rattle.std.specs.Prelude.{◌≡◌, IfErr, IfOk, OnOk};
ghost use Rattle.gix_base.specs.declared.hash.ObjectId.{ObjectId};
ghost use Rattle.gix_commitgraph.specs.ChainCommits.{chain_in, ids_of};
ghost use Rattle.gix_commitgraph.specs.ChainFormat.{IsChain};
ghost use Rattle.gix_commitgraph.specs.ChainLevels.{ChainFalls};
ghost use Rattle.gix_commitgraph.specs.FileLevels.{IsLevelled};
ghost use Rattle.gix_revwalk.specs.History.{entry_at};
ghost use Rattle.gix_c_core.specs.Behind.{joined};
ghost use Rattle.gix_c_core.specs.ChainOpened.{TellsChainCause, bytes_of};

use crate::file::{Unopened, read_file};
use gix_revision::Seed;
use gix_revision::commit_graph::{Chain, ChainFault};
use std::alloc::Global;
use std::convert::AsSlice;

/// The bytes of a file.
#[repr(C)]
#[derive(Clone, Copy)]
pub struct Bytes<'a> {
    bytes: &'a [u8],
}

impl AsSlice<u8> for Bytes<'_> {
    ghost items = { λ b. b.bytes.now };

    fn as_slice(&self) -> &[u8] {
        self.bytes
    }
}

/// Opens copies of the files of a chain, the lowest first, and checks their levels.
pub fn read_chain(alloc: Global, files: &[Bytes<'_>], seed: Seed) -> Result<Chain<Global>, Unopened>
    // After a success, the files are a chain, the lowest first.
    ensures chain { OnOk result (IsChain (bytes_of files.now)) }

    // After a success, each commit of the files has a level, and its parents are commits of the
    // chain with lower levels. The parents of a commit of the lowest file are in that file.
    ensures fall { OnOk result (ChainFalls (bytes_of files.now)) }

    // After a success, each commit of the chain's history has a generation number, and its parents
    // are commits of that history with lower ones.
    ensures levelled { OnOk result (IsLevelled (chain_in (bytes_of files.now))) }

    // The answer has exactly the commits of the chain.
    ensures commits { IfOk result (λ chain. (q : ObjectId)
        → entry_at (joined chain.commits) q ≡ entry_at (chain_in (bytes_of files.now)) q) }

    // The ids of the answer are those of the chain's commits, in order, from the lowest file on.
    ensures ids { IfOk result (λ chain. chain.ids.items ≡ ids_of (chain_in (bytes_of files.now))) }

    // After `NoGraph`, the files are not a chain. After `NoLevels`, the lowest file is a
    // commit-graph file, and the levels of the files are not as `fall` says.
    ensures refused { IfErr result (TellsChainCause (bytes_of files.now)) }
{
    let Some((lowest, upper)) = files.split_first() else {
        return Err(Unopened::NoGraph);
    };
    let file = match read_file(alloc, lowest.bytes) {
        Ok(file) => file,
        Err(cause) => return Err(cause),
    };
    match Chain::open(alloc, file, upper, seed) {
        Ok(chain) => Ok(chain),
        Err(ChainFault::NoChain) => Err(Unopened::NoGraph),
        Err(ChainFault::NoLevels) => Err(Unopened::NoLevels),
        Err(ChainFault::OutOfMemory) => Err(Unopened::OutOfMemory),
    }
}
