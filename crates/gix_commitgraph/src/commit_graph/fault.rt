//! Errors of opening a commit-graph file.

ghost use Rattle.std.specs.Prelude.{Some};

use std::fmt;
use thiserror::Error as StdError;

/// What is wrong with bytes that were not opened (gitformat-commit-graph, "File Layout").
#[derive(Clone, Copy, Debug, PartialEq, Eq, Drop, StdError)]
pub enum OpenFault {
    /// The file is too short for its header, its table of contents and its trailing hash.
    TooShort,
    /// The file does not begin with `CGPH`.
    Signature,
    /// The version of the file is not 1.
    Version,
    /// The ids of the file are not SHA-1 ids.
    Hash,
    /// The file has base graphs: it is a file of a chain, above others.
    BaseGraphs,
    /// A row of the table of contents other than the last has no chunk id.
    NoChunkId,
    /// Two rows of the table of contents have the same chunk id.
    Repeated,
    /// A chunk ends before it begins, or reaches into the trailing hash.
    ChunkPlace,
    /// The last row of the table of contents, which must end it, has a chunk id.
    TableEnd,
    /// The file has no chunk `OIDF`.
    NoFanout,
    /// The file has no chunk `OIDL`.
    NoIds,
    /// The file has no chunk `CDAT`.
    NoRows,
    /// The size of a chunk is not the one that its kind and the number of commits require.
    ChunkSize,
    /// A number of the fanout table is less than the one before it, or greater than the last.
    Fanout,
    /// An id is not greater than the one before it.
    IdOrder,
    /// An id is not where the fanout table says.
    IdPlace,
    /// A parent's position is not that of a commit, or a list of parents begins outside `EDGE`.
    Parent,
    /// A position in `EDGE` is not that of a commit.
    EdgeParent,
    /// The last number of `EDGE` does not end a list.
    EdgeEnd,
    /// Two lists in `EDGE` overlap, or are not in the order of their commits.
    EdgeOrder,
}

impl fmt::Display for OpenFault {
    ghost use Rattle.gix_commitgraph.specs.OpenFaultText.{open_fault_text};

    ghost output = { λ e. Some (open_fault_text e) };

    fn fmt<W: fmt::Write>(&self, f: &mut fmt::Formatter<W>) -> fmt::Result {
        f.write_str(match self {
            OpenFault::TooShort => "the file is too short",
            OpenFault::Signature => "no commit-graph file",
            OpenFault::Version => "a version other than 1",
            OpenFault::Hash => "a hash other than SHA-1",
            OpenFault::BaseGraphs => "a part of a chain of commit-graphs",
            OpenFault::NoChunkId => "a row of the table of contents without a chunk id",
            OpenFault::Repeated => "two chunks with one id",
            OpenFault::ChunkPlace => "chunks out of order or outside the file",
            OpenFault::TableEnd => "a table of contents without an end",
            OpenFault::NoFanout => "no chunk OIDF",
            OpenFault::NoIds => "no chunk OIDL",
            OpenFault::NoRows => "no chunk CDAT",
            OpenFault::ChunkSize => "a chunk of the wrong size",
            OpenFault::Fanout => "a fanout that falls",
            OpenFault::IdOrder => "ids that do not rise",
            OpenFault::IdPlace => "an id outside its fanout",
            OpenFault::Parent => "a parent that is no commit of the file",
            OpenFault::EdgeParent => "an extra edge to no commit of the file",
            OpenFault::EdgeEnd => "extra edges without an end",
            OpenFault::EdgeOrder => "lists of extra edges that overlap or are out of order",
        })
    }
}

/// Bytes that were not opened, and what is wrong with them.
#[derive(Debug, Drop)]
pub struct OpenError<B> {
    /// The bytes that were passed to the call.
    pub bytes: B,
    pub fault: OpenFault,
}
