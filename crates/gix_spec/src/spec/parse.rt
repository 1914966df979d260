//! Reads revision expressions: the parser, the calls that it makes, and its errors.

ghost use Rattle.gix_spec.specs.FaultTexts.{error_text};

use gix_base::error::Exn;
use std::fmt;
use thiserror::Error;

pub(crate) mod at_part;
pub(crate) mod braces;
pub(crate) mod calls;
pub(crate) mod colon_form;
pub(crate) mod context;
pub(crate) mod cut;
pub mod delegate;
pub(crate) mod describe_text;
pub(crate) mod fault;
pub(crate) mod function;
pub(crate) mod name;
pub(crate) mod number;
pub(crate) mod part;
pub(crate) mod step;
pub(crate) mod target;

pub use braces::parens;
pub use delegate::Delegate;
pub use fault::Fault;
pub use function::parse;

/// Why [`parse`] or [`parens`] failed.
#[derive(Debug, Drop, Error)]
pub enum Error<'a> {
    /// An allocation failed: the delegate reported it, or the parser itself ran out of memory.
    OutOfMemory,
    /// The expression has a fault, or the delegate refused a call.
    Refused {
        /// What is wrong.
        fault: Fault,
        /// The part of the expression that is wrong, as it was written.
        input: Option<&'a [u8]>,
        /// The refusal that led to the fault. If there are two, the earlier one.
        first: Option<Exn>,
        /// The later refusal, if a name was tried in two ways.
        second: Option<Exn>,
    },
}

impl fmt::Display for Error<'_> {
    ghost output = { error_text };

    fn fmt<W: fmt::Write>(&self, f: &mut fmt::Formatter<W>) -> fmt::Result {
        match self {
            Error::OutOfMemory => f.write_str("out of memory"),
            Error::Refused { fault, .. } => write!(f, "{fault}"),
        }
    }
}
