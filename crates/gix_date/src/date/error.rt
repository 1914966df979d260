//! Has the reasons why a text is not a date.

ghost use Rattle.gix_date.specs.DateError.{date_error_text};
ghost use Rattle.std.specs.Prelude.{Some};

use std::fmt;
use thiserror::Error;

/// Says why a text is not a date.
#[derive(Clone, Copy, Debug, PartialEq, Eq, Drop, Error)]
pub enum DateError {
    /// The text has none of the forms, or it is not UTF-8.
    NotADate,
    /// The text has one of the forms other than RFC 2822, and a number in it or its time is out of
    /// range.
    OutOfRange,
    /// An allocation failed. [`parse`](super::parse) allocates nothing, and never returns this.
    OutOfMemory,
}

impl fmt::Display for DateError {
    ghost output = { λ e. Some (date_error_text e) };

    fn fmt<W: fmt::Write>(&self, f: &mut fmt::Formatter<W>) -> fmt::Result {
        match self {
            DateError::NotADate => f.write_str("NotADate"),
            DateError::OutOfRange => f.write_str("OutOfRange"),
            DateError::OutOfMemory => f.write_str("out of memory"),
        }
    }
}
