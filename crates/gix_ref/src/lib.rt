//! Reads the references and the reflogs of a repository (gitrepository-layout, "refs").
//!
//! [`References`] is opened on a `.git` folder, and reaches files by the traits of `gix_files` alone.
//! What the texts in them say is in `gix_ref_text`.
//! A reference is a loose file or, if there is no such file, a line of `packed-refs`.
//!
//! - [`References::find`] returns what one reference says, and [`References::follow`] the id at
//!   the end of its symbolic references.
//! - [`References::short`] reads a short name by git's six rules, and [`References::shortest`]
//!   returns the shortest name that they read as a reference.
//! - [`References::all`] lists references, and [`References::reflog`] reads a reflog.
//! - An answer reads each loose file once. `packed-refs` is read once, and again after
//!   [`References::refresh`]. So a reference that moves meanwhile does not have two values in an
//!   answer.
//! - Nothing vouches for what a reference says: files are believed as they are read.
#![tactic(auto)]

mod all;
mod error;
mod files;
mod find;
mod log;
mod place;
mod short;
mod store;

pub use all::{Listed, Listing, Skipped, Why};
pub use error::{Error, ErrorName};
pub use find::Target;
pub use gix_ref_text::leads::Reference;
pub use gix_ref_text::log::{AtDate, LogEntry, Reflog};
pub use gix_ref_text::name::is_full_name;
pub use gix_ref_text::rules::Named;
pub use short::Logged;
pub use store::References;
