//! What a C program keeps apart from a history.

use gix_revision::describe::Names;
use std::alloc::Global;

/// A table of names, or a list of ids. A stock of one kind has nothing of the other.
#[derive(Drop)]
pub struct Stock {
    pub names: Names<'static>,
    pub ids: Vec<[u8; 20]>,
}
