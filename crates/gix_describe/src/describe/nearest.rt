//! A description by names that stay with the caller.

ghost use Rattle.std.specs.Prelude.{◌≡◌, None, false};

use crate::describe::format::Format;
use gix_base::hash::ObjectId;
use std::alloc::{Allocator, Global};
use std::borrow::CowSlice;

/// The nearest name of a commit, and how far away it is.
#[derive(Drop)]
pub struct Nearest<'name, A: Allocator = Global> {
    /// The name; `None` if the answer is the id alone.
    pub name: Option<CowSlice<'name, u8, A>>,
    /// The commit that is described.
    pub id: ObjectId,
    /// The number of commits counted as ahead of the named one: no fewer than there are.
    pub depth: u32,
    /// The number of commits that the walk has seen.
    pub commits_seen: u32,
}

impl<'name, A: Allocator> Nearest<'name, A> {
    /// Returns a description to print, with `hex_len` digits of the id. Takes no memory.
    pub fn into_format(self, hex_len: usize) -> Format<'name, A>
        // The format has the same name.
        ensures name { result.name ≡ self.entry.name }

        // The format has the same id.
        ensures id { result.id ≡ self.entry.id }

        // The number of digits of the format is `hex_len`.
        ensures digits { result.hex_len ≡ hex_len }

        // The format has the same depth.
        ensures depth { result.depth ≡ self.entry.depth }

        // The format does not ask for the long form.
        ensures long { result.long ≡ false }

        // The format has no suffix.
        ensures suffix { result.dirty_suffix ≡ None }
    {
        Format {
            name: self.name,
            id: self.id,
            hex_len,
            depth: self.depth,
            long: false,
            dirty_suffix: None,
        }
    }
}
