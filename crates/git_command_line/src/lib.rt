//! Reads the command line of a program that answers git's questions, opens the repository, and writes
//! the answer.
#![tactic(auto)]

pub mod arguments;
pub mod finished;
pub mod front;
pub mod opening;
pub mod output;
pub mod quoted;
pub mod streams;
