//! C function that says what is wrong with a commit-graph file.

ghost use Rattle.gix_c_core.specs.GraphFaults.{IsGraphFault};

use gix_c_core::graph_fault::number_of;
use gix_revision::commit_graph::CommitGraph;

/// Returns the number of one thing that is wrong with the bytes of a commit-graph file. It is 0 if
/// they are well-formed.
#[unsafe(no_mangle)]
pub extern "C" fn gix_graph_fault(bytes: &[u8]) -> u32
    // If the result is 0, the bytes are a well-formed commit-graph file. Otherwise the result is
    // the number, from 1 to 20, of a fault that the bytes have.
    ensures { IsGraphFault bytes.now result }
{
    match CommitGraph::open(bytes) {
        Ok(_) => 0,
        Err(error) => number_of(error.fault),
    }
}
