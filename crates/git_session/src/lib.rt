//! What the commands of `git proved` have in common.
//!
//! - [`session`] has the repository that is asked about, and what is printed.
//! - [`stop`] says why a command ends without its answer, and with which status.
//! - [`commits`] finds the commits to which objects lead.
//! - [`options`], [`words`] and [`integer`] read the command line.
//! - [`queue`] has the order in which git comes by commits.
#![tactic(auto)]

pub mod commits;
pub mod integer;
pub mod options;
pub mod queue;
pub mod session;
pub mod stop;
pub mod words;
