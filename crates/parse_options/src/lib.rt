//! Reads options from a command line as git does (gitcli, "Enhanced Option Parser").
//!
//! - [`Choice`] describes an option. A table of them says what a command takes.
//! - [`Reader`] reads the words of a command line, one option or argument after another.
//! - [`option_named`] returns the option that a long name means, which may be cut.
//! - [`exact_option`] returns the option that a word is, by a table of exact names ([`Exact`]).
//!
//! Options may be behind arguments, up to `--` or `--end-of-options`. Short options may be joined,
//! and a value may be joined to a short option: `-n3`.
#![tactic(auto)]

mod choice;
mod error;
mod exact;
mod named;
mod reader;
mod sorts;
mod text;

pub use choice::{Choice, Given, Item, Value};
pub use error::Error;
pub use exact::{Exact, Holds, Takes, exact_option};
pub use named::{Meant, option_named};
pub use reader::Reader;
