//! The questions that can be asked of a history.
//!
//! Each is a type with the trait [`Question`](gix_history::Question): merge bases, ancestry,
//! `describe`, lists and counts, and which tips reach a commit. The clause `means` of an answer says
//! what it means in a history.
//!
//! # Premises
//!
//! *Acyclic*, *ordered generations* and *older parents*, as [`gix_revision`] defines them.
#![tactic(auto)]

mod ancestry;
mod bases;
mod describe;
mod lists;
mod octopus;
mod reach;

pub use ancestry::{Contains, IsAncestor};
pub use bases::{EarlyBases, EarlyIndependent, Independent, MergeBases};
pub use describe::Describe;
pub use lists::CountCommits;
pub use octopus::{Octopus, OctopusBases};
pub use reach::{AheadBehind, CountReachable, ReachableNewestFirst};
