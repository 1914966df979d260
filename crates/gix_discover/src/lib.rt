//! Finds a git repository, and reads its settings (gitrepository-layout, git-config).
//!
//! - [`Environment`] has the environment variables that git reads, and the current folder.
//! - [`discover`] finds the repository of the current folder, as git does, and returns its
//!   [`Layout`].
//! - [`Settings`] has what git's config files say, with their includes. A value is only checked by
//!   the call that reads it.
//! - [`is_fetch`] and [`is_push`] decide what is a refspec.
//! - [`shallow`] and [`grafts`] read two small files of a repository.
//! - [`wildmatch::is_match`] compares a text with a pattern, as git does.
//! - [`Places`] is the trait by which all of them reach files, beyond `gix_files`.
//!
//! Nothing in a repository makes these calls run a command or fetch. They open only files that git
//! opens, too. What git refuses is refused, and each [`Reason`] has a name.
#![tactic(auto)]

mod command_line;
mod environment;
mod error;
mod format;
mod gitfile;
mod head;
mod include;
mod layout;
mod owner;
mod paths;
mod places;
mod refspec;
mod settings;
mod small;
mod source;
mod upwards;
pub mod wildmatch;

pub use environment::{Environment, Variable};
pub use error::{DiscoverError, Reason};
pub use layout::Layout;
pub use places::{PathKind, Place, Places};
pub use refspec::{is_fetch, is_push};
pub use settings::{Abbrev, Settings};
pub use small::{Graft, SmallFileError, grafts, shallow};
pub use upwards::discover;
