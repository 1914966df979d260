//! States laws of the definitions, by module: what follows for every id, date, text, history and
//! count.
//!
//! No function here does anything. Its contract is the law.

pub use gix_base::laws as base;
pub use gix_date::laws as date;
pub use gix_describe::laws as describe;
pub use gix_merge_base::laws as merge_base;
pub use gix_spec::laws as spec;
