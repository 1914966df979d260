//! The commits at which a list begins, and those that end it.

use gix_base::hash::ObjectId;

/// The commits at which a list begins, and those that end it.
#[derive(Drop)]
pub struct Ends {
    /// Those from which the list begins.
    pub included: Vec<ObjectId>,
    /// Those that reach nothing of it.
    pub excluded: Vec<ObjectId>,
    /// Those of `included` that are left ends.
    pub lefts: Vec<ObjectId>,
    /// The others of `included`.
    pub rights: Vec<ObjectId>,
    /// Tells whether the list is that of one `A...B` alone, with its merge bases as `excluded`.
    pub is_pair: bool,
}
