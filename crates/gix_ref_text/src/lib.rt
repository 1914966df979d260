//! Reads the texts of loose references, of `packed-refs` and of reflogs, and says what they mean.
//!
//! It reads no files: `gix_ref` does, and hands over their bytes.
//!
//! - [`name::is_full_name`] decides what is a name of a reference.
//! - [`loose::read`] returns what the file of a loose reference says, and [`snapshot::Snapshot`]
//!   finds names in `packed-refs`.
//! - [`leads::next_step`] decides where a reference leads by what was found of it.
//! - [`rules::full_names`] returns the full names of a short one by git's six rules, and
//!   [`rules::winner`] decides which of them wins.
//! - [`log::Reflog`] is a reflog.
#![tactic(auto)]

pub mod leads;
pub mod lines;
pub mod log;
pub mod loose;
pub mod name;
pub mod packed;
pub mod rules;
pub mod snapshot;
