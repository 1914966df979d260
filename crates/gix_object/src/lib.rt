//! Reads git's objects from bytes in memory: ids, loose objects, commits and tags.
//!
//! A content is passed inflated. [`authentic::read`] returns a commit only if its id is the hash of
//! its content; [`laws`] states what such ids determine.
#![tactic(auto)]

pub mod authentic;
mod bytes;
pub mod commit;
mod digits;
mod kinds;
pub mod laws;
pub mod loose;
mod object;
pub mod tag;

pub use kinds::kind_name;
pub use object::{object_id, verify};
