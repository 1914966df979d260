//! Has the reasons why a commit-graph is not read.

ghost use Rattle.std.specs.Prelude.{Some};
ghost use Rattle.gix_graph_rows.specs.ErrorTexts.{damage_text, feature_text};

use gix_base::hash::ObjectId;
use gix_files::FileError;
use std::alloc::{AllocError, AllocFailed};
use std::fmt;
use std::io::ErrorKind;
use thiserror::Error as StdError;

/// Names a file of an `objects` folder.
#[derive(Clone, Copy, Debug)]
pub enum GraphFile {
    /// `info/commit-graph`.
    Single,
    /// `info/commit-graphs/commit-graph-chain`.
    Chain,
    /// `info/commit-graphs/graph-HASH.graph`.
    Layer(ObjectId),
}

/// Says how a file is damaged.
#[derive(Clone, Copy, Debug)]
pub enum Damage {
    /// The file ends before the bytes that are needed.
    CutOff,
    /// The file does not begin with `CGPH`.
    Signature,
    /// The table of contents has an id twice, or ends before or after its last entry.
    Contents,
    /// The table of contents has a chunk that ends before it begins, or not before the file's hash.
    ChunkPlace,
    /// A chunk that each file has is missing, or a chunk is not as long as the others require.
    ChunkSize,
    /// The fanout table falls.
    Fanout,
    /// A line of the chain is not an id.
    ChainLine,
    /// The base graphs of the file are not the files before it in the chain.
    Bases,
    /// There are more commits than positions.
    Commits,
    /// The position of a parent is that of no commit.
    Parent,
    /// The list of a commit's further parents does not end in `EDGE`.
    EdgeEnd,
    /// The level of a commit is not greater than the level of a parent.
    Level,
}

/// Says what a file has that is not supported.
#[derive(Clone, Copy, Debug)]
pub enum Feature {
    /// A version other than 1.
    Version,
    /// Ids that are not SHA-1.
    Hash,
    /// A path that is not UTF-8.
    NotUtf8,
}

/// Says why a commit-graph is not read.
#[derive(Clone, Copy, Debug, Drop, StdError)]
pub enum Error {
    /// A file that the chain names is missing.
    Missing(GraphFile),
    /// A file is damaged at this byte.
    Damaged(GraphFile, u64, Damage),
    /// A file has something that is not supported.
    Unsupported(GraphFile, Feature),
    /// The system failed to open or read a file.
    Failed(GraphFile, ErrorKind),
    /// An allocation failed.
    OutOfMemory,
}

impl From<AllocError> for Error {
    fn from(_e: AllocError) -> Error {
        Error::OutOfMemory
    }
}

impl<T: Drop> From<AllocFailed<T>> for Error {
    fn from(_e: AllocFailed<T>) -> Error {
        Error::OutOfMemory
    }
}

/// Returns the error for a file that was not opened or read.
pub(crate) fn error_of(name: GraphFile, error: FileError) -> Error {
    match error {
        FileError::Failed(kind) => Error::Failed(name, kind),
        FileError::NotUtf8 => Error::Unsupported(name, Feature::NotUtf8),
        FileError::OutOfMemory => Error::OutOfMemory,
    }
}

impl fmt::Display for GraphFile {
    fn fmt<W: fmt::Write>(&self, f: &mut fmt::Formatter<W>) -> fmt::Result {
        match self {
            GraphFile::Single => f.write_str("'info/commit-graph'"),
            GraphFile::Chain => f.write_str("'info/commit-graphs/commit-graph-chain'"),
            GraphFile::Layer(hash) => write!(f, "'info/commit-graphs/graph-{hash}.graph'"),
        }
    }
}

impl fmt::Display for Damage {
    ghost output = { λ damage. Some (damage_text damage) };

    fn fmt<W: fmt::Write>(&self, f: &mut fmt::Formatter<W>) -> fmt::Result {
        f.write_str(match self {
            Damage::CutOff => "file is cut off",
            Damage::Signature => "not a commit-graph file",
            Damage::Contents => "table of contents is damaged",
            Damage::ChunkPlace => "chunk is out of order or outside the file",
            Damage::ChunkSize => "chunk is missing or of the wrong size",
            Damage::Fanout => "fanout table falls",
            Damage::ChainLine => "line is not an id",
            Damage::Bases => "base graphs are not those of the chain",
            Damage::Commits => "too many commits",
            Damage::Parent => "parent is not a commit of the graph",
            Damage::EdgeEnd => "list of parents does not end",
            Damage::Level => "level of a parent is not less",
        })
    }
}

impl fmt::Display for Feature {
    ghost output = { λ feature. Some (feature_text feature) };

    fn fmt<W: fmt::Write>(&self, f: &mut fmt::Formatter<W>) -> fmt::Result {
        f.write_str(match self {
            Feature::Version => "version other than 1",
            Feature::Hash => "hash other than SHA-1",
            Feature::NotUtf8 => "path is not UTF-8",
        })
    }
}

impl fmt::Display for Error {
    fn fmt<W: fmt::Write>(&self, f: &mut fmt::Formatter<W>) -> fmt::Result {
        match self {
            Error::Missing(file) => write!(f, "{file} is missing"),
            Error::Damaged(file, at, damage) => {
                write!(f, "damaged: {file} at byte {at}: {damage}")
            }
            Error::Unsupported(file, feature) => write!(f, "unsupported: {file}: {feature}"),
            Error::Failed(file, kind) => write!(f, "cannot read {file}: {kind}"),
            Error::OutOfMemory => f.write_str("out of memory"),
        }
    }
}
