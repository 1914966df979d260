//! Reads dates: the time that a date stands for at a given moment, or why it is not one.
//!
//! This is a crate of its own so that only crates that read dates load `jiff`.
#![tactic(auto)]

pub mod date;
pub mod laws;
