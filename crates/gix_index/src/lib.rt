//! Reads git's index, and compares its entries with the files of a working tree (gitformat-index).
//!
//! - [`Index::parse`] reads the bytes of an index file: its entries, and the tree of its root if the
//!   index has noted it.
//! - [`Change::of`] compares an entry with what the system says of its file, as git does before it reads
//!   the file.
//! - [`WorkTree::look`] compares an entry with its file, and reads the file if need be.
//! - [`tree::first`] reads an entry of a tree, and [`first_difference`] compares the files of a commit
//!   with the entries and their files.
//! - [`Statuses`] is the trait by which files are reached.
//!
//! A split index and a sparse index are not supported. Filters are not run and line ends are not
//! converted: a file to which git might do either is left undecided.
//!
//! # Algorithm
//!
//! 1. Read the entries of the index one behind another (`entry.rt`). A path that leads out of the
//!    working tree, or into the git folder, ends the reading (`path.rt`).
//! 2. Compare each entry with what the system says of its file (`compare.rt`). Only if that does
//!    not decide, read the file and compare its id (`look.rt`). A file that git might convert is
//!    left undecided.
//! 3. Read the files of the commit from its trees, in the order of the index (`tree.rt`).
//! 4. Pass over the entries whose files are missing, and compare the others with the files of the
//!    commit, one by one (`clean.rt`). The first pair that differs is the answer.
#![tactic(auto)]

mod attributes;
mod bytes;
mod clean;
mod compare;
mod entry;
mod error;
mod files;
mod index;
mod look;
mod mode;
mod path;
mod root;
mod status;
pub mod tree;

pub use attributes::{Conversion, add_conversion};
pub use clean::{Difference, Looked, are_sorted, first_difference};
pub use compare::{Change, Checks};
pub use entry::{Entry, Stat};
pub use error::Error;
pub use files::Statuses;
pub use index::Index;
pub use look::{Look, WorkTree};
pub use mode::FileKind;
pub use status::Status;
