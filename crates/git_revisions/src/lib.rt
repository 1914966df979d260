//! Reads the revisions that commands name (gitrevisions).
//!
//! - [`names`] and [`ranges`] read revisions, and [`unpeeled`] finds what they name.
//! - [`forms`] and [`paths`] tell revisions and paths apart.
//! - [`bases`] puts merge bases into git's order.
//!
//! Merge bases are answers of proved questions (`gix_questions`). Their order, and how a revision is
//! read, is tested against git.
#![tactic(auto)]

pub mod bases;
pub mod forms;
pub mod names;
pub mod paths;
pub mod ranges;
pub mod unpeeled;
