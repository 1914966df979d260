//! Lists references, and prints them by formats (git-for-each-ref).
//!
//! - [`list_wanted`] lists the references that match patterns.
//! - [`read_format`] reads a format, and [`sort_key`] a key by which references are sorted.
//! - [`print_references`] sorts references, and prints each on a line.
//!
//! What is printed is compared with git.
#![tactic(auto)]

mod blocks;
mod fields;
mod format;
mod list;
mod messages;
mod names;
mod objects;
mod patterns;
mod print;
mod quoting;
mod siblings;
mod sorting;

pub use format::{Format, read_format};
pub use list::{Candidate, list_wanted};
pub use print::{Printing, print_references};
pub use quoting::Language;
pub use sorting::{SortKey, sort_key};
