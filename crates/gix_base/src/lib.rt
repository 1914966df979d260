//! Has ids and prefixes, refusals, object kinds and times, which every other crate uses.
#![tactic(auto)]

pub mod date;
pub mod error;
pub mod hash;
pub mod laws;
pub mod object;
