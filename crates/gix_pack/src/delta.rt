//! Applies deltas between objects (gitformat-pack, "Deltified representation").

mod fault;
mod function;
mod step;

pub use fault::{ApplyError, DeltaFault};
pub use function::apply;
