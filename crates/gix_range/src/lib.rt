//! What some commits reach and others do not, ancestry, and merge bases, right whatever the clocks
//! were. If most clocks were right the walks end early, also without generation numbers.
//!
//! The premise of each answer is *acyclic*, as [`gix_merge_base`] defines it. No answer depends on
//! times or generation numbers: they only choose in which order the walks visit commits. With
//! generation numbers the walks of `gix_merge_base` and `gix_resolve` may end earlier.
//!
//! # Algorithm
//!
//! Painting from a commit and others finds each common ancestor that no other common ancestor
//! reaches (`gix_merge_base`). If one of the others reaches the commit, the commit is such an
//! ancestor. So painting tells whether they reach it (`reached.rt`). A range takes two paintings. The
//! first one finds candidates, and the second one those of them that are excluded after all
//! (`range.rt`). Merge bases are the commits that painting finds and that no other one of them
//! reaches (`independence.rt`). Those of many commits are the merge bases of one commit and of those
//! of the others (`octopus.rt`).
#![tactic(auto)]

mod below;
mod found;
mod hidden;
mod independence;
mod octopus;
mod range;
mod reached;
mod whole;

pub use independence::{bases, independent};
pub use octopus::octopus_bases;
pub use range::{ahead_behind, beyond, count_beyond};
pub use reached::is_reached;
