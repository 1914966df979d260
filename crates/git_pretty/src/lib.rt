//! Prints commits by formats (git-rev-list, "PRETTY FORMATS").
//!
//! - [`read_pretty`] reads a format. What it does not support, it refuses.
//! - [`Format::print`] prints a commit by a format, and [`print_subject`] prints its subject.
//!
//! What is printed is compared with git.
#![tactic(auto)]

mod format;
mod messages;
mod print;

pub use format::{Format, Pretty, read_pretty};
pub use print::{print_few, print_subject, refuse_encodings};
