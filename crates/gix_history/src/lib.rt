//! Answers questions over as much of a history as they need.
//!
//! A [`History`] keeps the commits that were read, and reads more of them with a [`Reader`] when a
//! [`Question`] wants one. An answer is right for every history that has the commits that were
//! read, whatever lies beyond them ([`Beyond`]). The premises of the walks are the only ones.
//!
//! - [`Question`] is what a type is that can be asked. The crate `gix_questions` has such types:
//!   merge bases, ancestry, `describe`, revisions, lists and counts.
//! - [`Known`] is a history without a reader. It answers, or names the commit that it wants.
//! - [`Loaded`] is the authentic mode: all that some tips reach, each commit the content of its id,
//!   with levels. Of the premises only *older parents* is left, for the depth of a description.
//!
//! # Premises
//!
//! *Acyclic*, *ordered generations* and *older parents*, as `gix_revision` defines them.
#![tactic(auto)]

mod ahead;
mod beyond;
mod error;
mod history;
mod known;
pub mod laws;
mod loaded;
mod partial;
mod question;
mod reader;
mod whole;

pub use beyond::Beyond;
pub use error::ReadError;
pub use history::History;
pub use known::{Known, Tried};
pub use loaded::Loaded;
pub use partial::Partial;
pub use question::{Question, Refused};
pub use reader::{Origin, Read, Reader};
