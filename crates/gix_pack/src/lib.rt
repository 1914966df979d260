//! Reads git's packs and their indexes (gitformat-pack).
//!
//! - [`index`]: the index of a pack, as a map from ids to offsets in the pack.
//! - [`part`]: parts of an index that is not read whole.
//! - [`entry`]: the header of an entry of a pack.
//! - [`delta`]: deltas between objects.
//! - [`numbers`]: numbers of a variable length. git's index has them, too.
//!
//! What a zlib stream inflates to is the matter of another crate.
//!
//! # Algorithm
//!
//! 1. `Index::open` checks header, size, ids and offsets (`index/check.rt`); look-ups are those of
//!    `gix_ids`.
//! 2. A reader that does not read an index whole opens its first 1,032 bytes (`part.rt`). The
//!    fanout gives a span of positions, whose ids it reads and searches by the function under
//!    `search`.
//! 3. `entry::header` reads type, size and base of an entry (`entry.rt`, `numbers.rt`).
//! 4. `delta::apply` makes the target in memory that grows with it (`delta/function.rt`), so that a
//!    delta takes none by the size that it claims.
//!
//! `part_of` is a table without a fanout, so that a part and a whole index have the same
//! definitions.
#![tactic(auto)]

pub mod delta;
pub mod entry;
pub mod index;
pub mod laws;
pub mod numbers;
pub mod part;
