//! Reads the entries of a tree (git-mktree; git-ls-tree).

use crate::bytes::split;
use crate::mode::FileKind;
use gix_base::hash::ObjectId;
use std::alloc::{Allocator, Global};

/// The mode of a tree.
pub const TREE: u32 = 0o040000;

/// An entry of a tree.
#[derive(Clone, Copy)]
pub struct TreeEntry<'t> {
    /// The mode as an index has it: `0o100644`, `0o100755`, `0o120000` or `0o160000`; `0o040000` of
    /// a tree.
    pub mode: u32,
    /// The name, without a slash.
    pub name: &'t [u8],
    pub id: ObjectId,
}

impl<'t> TreeEntry<'t> {
    /// Returns whether the entry is a tree itself.
    pub fn is_tree(&self) -> bool {
        self.mode == TREE
    }
}

/// A file of a commit, with its path from the top.
#[derive(Drop)]
pub struct Listed<A: Allocator = Global> {
    /// The path. That of a tree has a slash at its end.
    pub path: Vec<u8, A>,
    /// The mode as an index has it; [`TREE`] of a tree.
    pub mode: u32,
    pub id: ObjectId,
}

/// Returns the number that octal digits say; `None` if they say none that fits 18 bits.
fn octal(digits: &[u8]) -> Option<u32> {
    if digits.is_empty() || digits.len() > 6 {
        return None;
    }
    let mut value = 0u32;
    for digit in digits {
        if *digit < b'0' || *digit > b'7' {
            return None;
        }
        value = value
            .saturating_mul(8)
            .saturating_add(u32::from(*digit - b'0'));
    }
    Some(value)
}

/// Returns the mode that git reads for one in a tree.
fn canonical(mode: u32) -> u32 {
    match FileKind::of(mode) {
        FileKind::File if mode / 64 % 2 == 1 => 0o100755,
        FileKind::File => 0o100644,
        FileKind::Link => 0o120000,
        FileKind::Folder => TREE,
        _ => 0o160000,
    }
}

/// Returns the first entry in the content of a tree, and what comes after it; `None` if there is no
/// well-formed entry.
pub fn first(content: &[u8]) -> Option<(TreeEntry<'_>, &[u8])> {
    let (mode, rest) = split(content, b' ')?;
    let (name, rest) = split(rest, 0)?;
    let mode = canonical(octal(mode)?);
    let (own, rest) = rest.split_at_checked(20)?;
    if name.is_empty() || name.contains(&b'/') {
        return None;
    }
    let mut id = [0u8; 20];
    id.copy_from_slice(own);
    let id = ObjectId(id);
    Some((TreeEntry { mode, name, id }, rest))
}
