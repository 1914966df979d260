//! Reads what commits and tags say: their messages, persons and dates.
#![tactic(auto)]

pub mod dates;
pub mod persons;
pub mod read;
