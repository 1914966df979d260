//! The numbers by which C names the faults of a commit-graph file.

ghost use Rattle.std.specs.Prelude.{◌≡◌};
ghost use Rattle.gix_c_core.specs.GraphFaults.{graph_fault_number};

use gix_revision::commit_graph::OpenFault;

/// Returns the number by which C names a fault.
pub fn number_of(fault: OpenFault) -> u32
    // The answer is the number of the fault, from 1 to 20.
    ensures { result ≡ graph_fault_number fault }
{
    match fault {
        OpenFault::TooShort => 1,
        OpenFault::Signature => 2,
        OpenFault::Version => 3,
        OpenFault::Hash => 4,
        OpenFault::BaseGraphs => 5,
        OpenFault::NoChunkId => 6,
        OpenFault::Repeated => 7,
        OpenFault::ChunkPlace => 8,
        OpenFault::TableEnd => 9,
        OpenFault::NoFanout => 10,
        OpenFault::NoIds => 11,
        OpenFault::NoRows => 12,
        OpenFault::ChunkSize => 13,
        OpenFault::Fanout => 14,
        OpenFault::IdOrder => 15,
        OpenFault::IdPlace => 16,
        OpenFault::Parent => 17,
        OpenFault::EdgeParent => 18,
        OpenFault::EdgeEnd => 19,
        OpenFault::EdgeOrder => 20,
    }
}
