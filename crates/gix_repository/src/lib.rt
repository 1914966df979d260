//! Answers questions about a git repository on disk.
//!
//! A [`Repository`] is opened on what `gix_discover` found. It looks up names in references and
//! reflogs (`gix_ref`), and abbreviated object names in packs and loose objects (`gix_odb`). It
//! reads commits as a question asks for them (`gix_history`): from the commit-graph row by row
//! (`gix_graph_rows`), or from objects.
//!
//! - [`Repository::ask`] answers any `Question` of `gix_history`. The answer is proved: it is
//!   right, with the premises of the question, for every history that has the commits that were
//!   read. In the mode `Whole` it is right for the commits that were loaded.
//! - [`Repository::object`] returns the object that a revision names (gitrevisions).
//! - [`Repository::commit`] returns the commit to which an object leads through tags.
//!
//! What names stand for is read from files, and nothing vouches for these.
#![tactic(auto)]

mod candidates;
mod commits;
mod dates;
mod digits;
mod error;
mod marks;
mod messages;
mod names;
mod open;
mod paths;
mod peel;
mod reflogs;
mod repository;
mod revision;
mod search;
mod siblings;

pub use error::{Refusal, Unsupported};
pub use messages::kind_name;
pub use open::{Mode, OpenError, Opening};
pub use repository::Repository;
pub use siblings::Sibling;
