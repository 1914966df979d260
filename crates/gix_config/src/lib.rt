//! Reads the text of a config file (git-config, "Syntax").
//!
//! - [`entries`] reads the settings of a text, in their order.
//! - [`last_value`] and [`all_values`] look up the values of a setting in a list.
//! - [`boolean`], [`number`] and [`decimal`] read a value.
//!
//! The name of a setting is one text, as git writes it: `core.abbrev` or `branch.main.remote`.
//! Sections and keys are in lower case there, and subsections as they are in the file.
#![tactic(auto)]

mod name;
mod scalar;
mod section;
mod text;
mod value;
mod values;

pub use name::{is_blank, is_name, key_name};
pub use scalar::{boolean, decimal, is_word, number};
pub use text::{Entry, ParseError, before_zero, entries};
pub use values::{all_values, last_value, value_of};
