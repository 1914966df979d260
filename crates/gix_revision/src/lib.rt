//! Finds merge bases, describes commits, and reads revisions, with machine-checked proofs.
//!
//! - `merge_base::merge_base` returns the best common ancestors of commits. `merge_base::octopus`
//!   returns one that many heads have in common.
//! - `describe::describe` names a commit by its nearest named ancestor.
//! - `spec::parse::parse` reads a revision, and calls a delegate for each part. `date::parse` reads
//!   a date.
//! - `commit_graph` reads git's commit-graph files.
//!
//! The first three of these functions walk a [`Graph`]. It loads commits from a source, which
//! implements [`graph::Find`], and can be used for many calls. A commit-graph file is such a
//! source.
//!
//! If strangers choose the ids, give graphs, sources and names a random [`Seed`].
//!
//! This crate only re-exports. Each part is proved in a crate of its own.
//!
//! # Premises
//!
//! Some answers are exact only for a history with one of these properties. A premise concerns only
//! the commits that the ids of a call can reach, and their parents. Without it a call is still
//! safe, and keeps its other promises.
//!
//! - *Acyclic*: no chain of parents leads from a commit back to it.
//! - *Ordered generations*: no parent has a greater generation number than its child. A missing
//!   number counts as infinity (`u32::MAX`).
//! - *Older parents*: each parent is strictly older than its child.
//! - *Falling keys*: each parent has a smaller key than its child. The key of a commit is its
//!   generation number, then its time.
//! - *Never-rising keys*: no parent has a greater generation number than its child, nor a later
//!   time.
//!
//! # Fault count
//!
//! A source counts its failed look-ups (`Find::faults`). A call increases the count by one if it
//! returns the source error, and leaves it alone otherwise. At `u64::MAX` the count stays there.
//!
//! # Graph
//!
//! A graph *holds* a commit once it has loaded it from the source. No query drops a held commit,
//! also if it fails; only `describe` empties its graph before it walks. The parents, time and
//! generation number of a held commit always equal those of the source.
#![tactic(auto)]

pub mod laws;

pub use gix_base::{error, hash, object};
pub use gix_commitgraph::commit_graph;
pub use gix_date::date;
pub use gix_describe::describe;
pub use gix_merge_base::merge_base;
pub use gix_revwalk::graph::Graph;
pub use gix_revwalk::queue::PriorityQueue;
pub use gix_revwalk::seed::Seed;
pub use gix_revwalk::{graph, queue};
pub use gix_spec::spec;
pub use gix_spec::spec::Spec;
