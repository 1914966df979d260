//! Parses git's revision expressions, such as `main~2..topic`.
//!
//! [`spec::parse::parse`] reads an expression and reports its parts to a delegate, in order.
//! [`spec::Spec`] is the set of commits that an expression stands for.
#![tactic(auto)]

pub mod laws;
pub mod spec;
