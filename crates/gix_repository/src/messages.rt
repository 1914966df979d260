//! Writes what git prints on standard error about names.

use crate::repository::Repository;
use gix_base::hash::ObjectId;
use gix_base::object::Kind;
use gix_files::Folders;
use gix_ref::Why;
use std::alloc::{AllocError, Allocator};

/// Adds a line of three parts.
fn add_line<A: Allocator>(
    to: &mut Vec<u8, A>,
    before: &[u8],
    name: &[u8],
    behind: &[u8],
) -> Result<(), AllocError> {
    to.extend_from_slice(before)?;
    to.extend_from_slice(name)?;
    to.extend_from_slice(behind)?;
    to.push(b'\n')?;
    Ok(())
}

/// Returns git's name of a kind.
pub fn kind_name(kind: Kind) -> &'static [u8] {
    match kind {
        Kind::Tag => b"tag",
        Kind::Commit => b"commit",
        Kind::Tree => b"tree",
        Kind::Blob => b"blob",
    }
}

/// Returns what git says before the name of a reference that it passes over, if it says something.
fn warning_of(why: Why, name: &[u8]) -> Option<&'static [u8]> {
    match why {
        Why::LeadsNowhere if name != b"HEAD".as_slice() => {
            Some(b"warning: ignoring dangling symref ".as_slice())
        }
        Why::Broken if name.contains(&b'/') => Some(b"warning: ignoring broken ref ".as_slice()),
        _ => None,
    }
}

impl<F: Folders + Drop, A: Allocator + Copy> Repository<F, A> {
    /// Adds a message of three parts, unless nothing is to be said.
    pub(crate) fn say(
        &mut self,
        before: &[u8],
        name: &[u8],
        behind: &[u8],
    ) -> Result<(), AllocError> {
        if self.is_quiet {
            return Ok(());
        }
        self.say_even_quietly(before, name, behind)
    }

    /// Adds a message of three parts that git prints even if it is to be quiet. Adds none if all
    /// was said before.
    pub(crate) fn say_even_quietly(
        &mut self,
        before: &[u8],
        name: &[u8],
        behind: &[u8],
    ) -> Result<(), AllocError> {
        if self.is_silent {
            return Ok(());
        }
        add_line(&mut self.messages, before, name, behind)
    }

    /// Says that a commit names an object as its tree that is none. git prints it even if it is to be
    /// quiet.
    pub(crate) fn say_no_tree(&mut self, id: ObjectId, kind: Kind) -> Result<(), AllocError> {
        let mut digits = [0u8; 40];
        let written = id.write_hex(40, &mut digits);
        let mut behind = b" is a tree, not a ".to_vec(self.alloc)?;
        behind.extend_from_slice(kind_name(kind))?;
        self.say_even_quietly(b"error: object ", &digits[..written], &behind)
    }

    /// Warns of each reference that was passed over, even if nothing is to be said, as git does.
    pub(crate) fn warn_of_passed(&mut self) -> Result<(), AllocError> {
        for passed in self.references.passed_over() {
            if let Some(warning) = warning_of(passed.why, &passed.name) {
                add_line(&mut self.messages, warning, &passed.name, b"")?;
            }
        }
        Ok(())
    }

    /// Warns that a name is ambiguous, unless `core.warnAmbiguousRefs` is unset.
    pub(crate) fn warn_ambiguous(&mut self, name: &[u8]) -> Result<(), AllocError> {
        if self.warns {
            self.say(b"warning: refname '", name, b"' is ambiguous.")?;
        }
        Ok(())
    }
}
