//! Reads commits from git's commit-graph file in place (gitformat-commit-graph).
//!
//! - [`CommitGraph`]: a checked file as a source of commits.
//! - [`LevelledGraph`]: a file whose topological levels are checked, too. Its history is acyclic
//!   and has ordered generations.
//! - [`Chain`]: a chain of such files.
//! - [`Joined`] and [`Commits`]: a levelled file, or none, and newer commits that it does not have.

mod chain;
mod check;
mod commit;
mod falling;
mod fault;
mod file;
mod hints;
mod joined;
mod layer;
mod layout;
mod levelled;
mod levels;
mod lookup;
mod trailer;

pub use chain::{Chain, ChainFault};
pub use fault::{OpenError, OpenFault};
pub use file::CommitGraph;
pub use joined::{Commits, Joined};
pub use levelled::LevelledGraph;
