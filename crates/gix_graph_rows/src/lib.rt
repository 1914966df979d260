//! Reads commits from git's commit-graph, row by row (gitformat-commit-graph).
//!
//! [`GraphRows`] opens the file `info/commit-graph` of an `objects` folder, or the chain of files
//! that `info/commit-graphs/commit-graph-chain` names. It reads headers, tables of contents and
//! fanout tables. [`GraphRows::commit`] then reads what it needs for one commit: its row, the ids
//! and levels of its parents, and the ids among which it is found. So a walk near the tips of a long
//! history reads a small part of the files. A damaged row is an error only if it is asked for.
//! [`laws`] states that a row says the same date and generation number as the whole file, and the
//! same number of parents, unless it names a list of them.
//!
//! The calls reach files by the traits of `gix_files`, which promise nothing of the bytes that a file
//! has. The clauses therefore speak of the bytes that were read. That these bytes come from the
//! right places is tested, not proved. So are the ids of the parents and the checks of a row.
#![tactic(auto)]

mod blocks;
mod chain;
mod commit;
pub mod error;
mod front;
mod hints;
pub mod laws;
mod layer;
mod parts;
mod place;
mod row;
mod rows;
mod source;

pub use error::Error;
pub use rows::GraphRows;
