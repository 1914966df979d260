//! How much of a history was put in.

use gix_revision::hash::ObjectId;

/// Whether all commits of a history were put in.
#[derive(Clone, Copy)]
pub enum Extent {
    /// The history has the commits that were put in, and no others.
    Complete,
    /// The history may have others. A question wanted this commit last, if one did.
    Partial(Option<ObjectId>),
}
