//! Finds the files of a reference (gitrepository-layout, "refs", "worktrees"; git-worktree,
//! "Refs").

use memchr::memchr;

/// Where a reference is: `folder` and `below` are one name, cut after `worktrees/ID/`.
#[derive(Clone, Copy)]
pub(crate) struct Place<'a> {
    /// Whether it lies in the folder of this worktree, and not in the common one.
    pub(crate) is_own: bool,
    pub(crate) folder: &'a [u8],
    pub(crate) below: &'a [u8],
}

/// Tests whether a name is that of a pseudo reference such as `HEAD`.
fn is_pseudo(name: &[u8]) -> bool {
    for byte in name {
        if !byte.is_ascii_uppercase() && *byte != b'-' && *byte != b'_' {
            return false;
        }
    }
    true
}

/// Tests whether each worktree has its own reference of this name.
pub(crate) fn is_per_worktree(name: &[u8]) -> bool {
    is_pseudo(name)
        || name.starts_with(b"refs/worktree/")
        || name.starts_with(b"refs/bisect/")
        || name.starts_with(b"refs/rewritten/")
}

/// Cuts a name `worktrees/ID/NAME` before the name of a reference that each worktree has.
fn cut_worktree(name: &[u8]) -> Option<(&[u8], &[u8])> {
    let rest = name.strip_prefix(b"worktrees/")?;
    let len = memchr(b'/', rest)?;
    let (folder, below) = name.split_at_checked(len.saturating_add(11))?;
    is_per_worktree(below).then_some((folder, below))
}

/// Returns where the reference with this name lies.
pub(crate) fn located(name: &[u8]) -> Place<'_> {
    if is_per_worktree(name) {
        return Place {
            is_own: true,
            folder: b"",
            below: name,
        };
    }
    if let Some(below) = name.strip_prefix(b"main-worktree/") {
        if is_per_worktree(below) {
            return Place {
                is_own: false,
                folder: b"",
                below,
            };
        }
    }
    let (folder, below) = cut_worktree(name).unwrap_or((b"", name));
    Place {
        is_own: false,
        folder,
        below,
    }
}
