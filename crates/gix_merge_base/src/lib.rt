//! Merge bases, octopus bases, independent commits and ancestry, with laws of their definitions.
//!
//! # Premises
//!
//! Some answers are exact only for a history with these properties. A premise concerns only what
//! the call's ids can reach: the parent links that leave a reachable commit and lead to a commit of
//! the history. (Each commit reaches itself.) Without a premise a call is still safe, returns, and
//! keeps its other promises.
//!
//! - *Acyclic*: no chain of parents leads from a commit back to it.
//! - *Ordered generations*: no parent has a greater generation number than its child. A missing
//!   number counts as infinity (`u32::MAX`).
//! - *Falling keys*: each parent has a smaller key than its child. A key is the pair of generation
//!   number and time, compared in that order. Falling keys imply acyclic and ordered generations.
//! - *Never-rising keys*: no parent has a greater generation number, or a later time, than its
//!   child.
//!
//! # Fault count
//!
//! A source counts its failed look-ups (`Find::faults`). A call increases the count by one if it
//! returns the source error, and leaves it alone otherwise. At `u64::MAX` the count stays there.
//!
//! # Graph
//!
//! A graph *holds* a commit once it has loaded it from the source. A call never drops a held
//! commit, also if it fails. The data of a commit may change. The parents, time and generation
//! number of a held commit always equal the source's.
#![tactic(auto)]

pub mod laws;
pub mod merge_base;
