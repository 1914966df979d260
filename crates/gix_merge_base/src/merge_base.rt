//! Merge bases, octopus bases, independent commits and ancestry.

mod ancestry;
mod bases;
mod error;
mod flags;
mod function;
mod gen_then_time;
mod hand;
mod heads;
mod order;
mod painting;
mod queries;
mod reduction;
mod sides;

pub use ancestry::is_ancestor;
pub use bases::counted;
pub use error::{Error, Simple};
pub use flags::Flags;
pub use function::merge_base;
pub use gen_then_time::GenThenTime;
pub use heads::{octopus, octopus_bases};
pub use painting::paint;
pub use queries::{Answer, Query, run};
pub use reduction::reduce;
pub use sides::{Candidates, paint_sides};
