//! The library for programs in C, and in languages that call C.
//!
//! A program holds a history by a handle, and asks questions about it. `include/gix_revision.h`
//! documents each function and what its caller must do. `gix_c_core` has all but the functions.
#![tactic(auto)]

mod abbreviate;
mod bases;
mod commits;
mod counts;
mod describe;
mod digits;
mod graph_fault;
mod life;
mod listed;
mod missing;
mod names;
mod newest;
mod object;
mod open;
mod open_chain;
mod partial;
mod revisions;
mod stock_life;
mod version;
