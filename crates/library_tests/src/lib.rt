//! The tests that are proved: callers of the public contracts, and the examples of docs/RATTLE.md.
//! All other tests run unproved (tests/tried).
#![tactic(auto)]

#[cfg(test)]
mod levelled;
#[cfg(test)]
mod line_feeds;
#[cfg(test)]
mod usage;
