//! What the functions of the C library do, without these functions themselves.
//!
//! `gix_c` exports the functions. It is a static library, of which `rt` keeps nothing, so it is
//! proved twice. All types, definitions and longer work are therefore here.
#![tactic(auto)]

pub mod abbreviate;
mod ask;
pub mod chain;
pub mod commits;
pub mod describe;
mod described;
pub mod extent;
pub mod faults;
pub mod file;
pub mod graph_fault;
pub mod handle;
pub mod history;
pub mod ids;
pub mod insert;
pub mod laws;
pub mod listed;
pub mod loose;
pub mod missing;
mod partial;
pub mod place;
pub mod questions;
pub mod resolved;
pub mod revisions;
pub mod status;
pub mod stock;
pub mod stock_handle;
pub mod stock_place;
