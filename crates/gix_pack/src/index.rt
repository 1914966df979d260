//! Looks up ids in the index of a pack (gitformat-pack, "Version 2 pack-*.idx files").

mod check;
mod fault;
mod file;

pub(crate) use check::check_header;
pub use fault::{OpenError, OpenFault};
pub use file::Index;
