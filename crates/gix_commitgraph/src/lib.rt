//! Reads commits from the bytes of git's commit-graph file (gitformat-commit-graph).
//!
//! [`commit_graph`] has what users call. [`position`] and [`row`] are also for the crate that reads
//! commit-graph files row by row.
#![tactic(auto)]

pub mod commit_graph;
pub mod position;
pub mod row;
