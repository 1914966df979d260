//! Lists and counts commits as `rev-list` does (git-rev-list).
//!
//! - [`Ends`] has the commits at which a list begins, and those that end it. [`Wishes`] says which
//!   commits are wanted, and in which [`Order`].
//! - [`lines`] lists the commits, and [`print_count`] counts them.
//!
//! Which commits some reach and others do not is the answer of a proved question, and so is how
//! many these are. The order of a list is made here, as git makes it: the commits of the set come
//! one after another, by what is read of each. What `--first-parent` follows, and what other
//! options leave out or add, is also found here. If only some commits are wanted of all that
//! revisions reach, as by `-n 10` or `--since`, the list is read as git reads it, and is not that of
//! a question.
#![tactic(auto)]

mod boundary;
mod counts;
mod doubt;
mod ends;
mod lists;
mod marks;
mod order;
mod topological;
mod wishes;

pub use counts::print_count;
pub use ends::Ends;
pub use marks::{Line, lines};
pub use wishes::{Order, Wishes};
