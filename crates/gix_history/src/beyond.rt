//! What a history has beyond the commits that were read.

use std::marker::Brand;

/// The commits that a history has beyond those that were read.
///
/// A type stands for them, so that a contract holds whatever they are. A caller passes
/// [`Brand`], and its proof may choose the commits.
pub trait Beyond {
    ghost use Rattle.gix_revwalk.specs.History.{History};

    ghost beyond: { History };
}

impl Beyond for Brand {
    ghost use Rattle.std.specs.Prelude.{[]};

    ghost beyond = { [] };
}
