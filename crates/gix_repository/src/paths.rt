//! Looks up paths in trees (gitrevisions, `<rev>:<path>`).

use crate::error::{Refusal, Unsupported};
use crate::repository::Repository;
use gix_base::hash::ObjectId;
use gix_base::object::Kind;
use gix_files::Folders;
use gix_index::tree::first;
use memchr::memmem;
use std::alloc::Allocator;
use std::cmp::Ordering;

/// Returns the refusal of a path that is not found, or that git may read otherwise.
fn unsupported() -> Refusal {
    Refusal::NotSupported(Unsupported::Path)
}

/// Tests whether git may look up a revision that ends in this path as a whole: as an entry of a
/// reflog, or as the output of `git describe`.
fn may_be_name(path: &[u8]) -> bool {
    if memmem::find(path, b"@{").is_some() {
        return true;
    }
    let Some(at) = memmem::rfind(path, b"-g") else {
        return false;
    };
    let rest = path.get(at.saturating_add(2)..).unwrap_or(&[]);
    let digits = rest.iter().take_while(|b| b.is_ascii_hexdigit()).count();
    matches!(rest.get(digits), None | Some(b'^' | b'~'))
}

/// Tests whether what is left of a tree begins with a well-formed entry, if it has any.
fn is_sound(content: &[u8]) -> bool {
    content.is_empty() || first(content).is_some()
}

/// Tests whether the content of a tree ends as that of an entry does: with a zero byte and an id.
fn has_end(content: &[u8]) -> bool {
    match content.len().checked_sub(21) {
        Some(at) => content.get(at) == Some(&0),
        None => false,
    }
}

/// Returns the object to which a path leads from the content of a tree, and what is left of the path
/// below this object; `None` if it leads nowhere, or if an entry is malformed that git reads.
///
/// As git does, it stops at the first entry that sorts behind the path.
fn led<'p>(content: &[u8], path: &'p [u8]) -> Option<(ObjectId, &'p [u8])> {
    if !has_end(content) {
        return None;
    }
    let mut rest = content;
    for _ in 0..content.len() {
        let (entry, behind) = first(rest)?;
        rest = behind;
        let Some((front, left)) = path.split_at_checked(entry.name.len()) else {
            continue;
        };
        match front.cmp(entry.name) {
            Ordering::Less => return None,
            Ordering::Greater => continue,
            Ordering::Equal if !is_sound(behind) => return None,
            Ordering::Equal => {}
        }
        match left {
            [] => return Some((entry.id, left)),
            [b'/', below @ ..] if entry.is_tree() => return Some((entry.id, below)),
            [b'/', ..] => return None,
            _ => {}
        }
    }
    None
}

impl<F: Folders + Drop, A: Allocator + Copy> Repository<F, A> {
    /// Returns the object to which a path leads from a tree, and what is left of the path.
    fn step_into<'p>(
        &mut self,
        tree: ObjectId,
        path: &'p [u8],
    ) -> Result<(ObjectId, &'p [u8]), Refusal> {
        let object = self.read_object(tree)?;
        if object.kind != Kind::Tree {
            return Err(unsupported());
        }
        led(&object.content, path).ok_or(unsupported())
    }

    /// Returns the object at a path of the tree to which an object leads.
    fn found_at(&mut self, id: ObjectId, path: &[u8]) -> Result<ObjectId, Refusal> {
        let tree = self.peeled_to(id, Kind::Tree)?;
        self.expect_sound(tree, Kind::Tree)?;
        let (mut at, mut left) = (tree, path);
        for _ in 0..path.len() {
            if left.is_empty() {
                break;
            }
            let (next, below) = self.step_into(at, left)?;
            at = next;
            left = below;
        }
        Ok(at)
    }

    /// Returns the object at a path of the tree to which an object leads.
    ///
    /// # Errors
    ///
    /// - `NotSupported` if there is none, if the path begins in the current folder, or if git may
    ///   read it as part of a name.
    /// - `Commit` or `Object` if something was not read on the way.
    /// - `OutOfMemory` if an allocation failed.
    pub(crate) fn at_path(&mut self, id: ObjectId, path: &[u8]) -> Result<ObjectId, Refusal> {
        if path.starts_with(b"./") || path.starts_with(b"../") || may_be_name(path) {
            return Err(unsupported());
        }
        match self.found_at(id, path) {
            Err(refusal) if refusal.is_missing() => Err(unsupported()),
            Err(Refusal::Unknown) => Err(unsupported()),
            found => found,
        }
    }
}
