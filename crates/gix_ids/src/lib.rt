//! Reads tables of sorted ids, as a commit-graph file and the index of a pack have them.
//!
//! Such a file has a fanout table (gitformat-pack, "A 256-entry fan-out table") and the ids in
//! ascending order. A [`Table`] says where both are. The functions take the bytes of the file and a
//! table; their `requires` say what the caller has checked, for example with [`check`]. They are
//! not public calls of the library, and the crates above this one call them with these premises
//! proved.
#![tactic(auto)]

mod bytes;
mod fault;
mod lookup;
mod table;

pub use bytes::{id_at, long_at, word_at};
pub use fault::TableFault;
pub use lookup::{Span, narrow, position, search};
pub use table::{Table, below, check, check_fanout};
