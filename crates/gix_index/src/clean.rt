//! Compares the files of a working tree with those of a commit (git-diff-index, "Cached Mode" and
//! "Non-cached Mode").

ghost use Rattle.std.specs.Prelude.{◌≡◌, ◌∷◌, true, false, List, MatchOption, MatchResult};
ghost use Rattle.gix_index.specs.declared.clean.Looked.{Looked};
ghost use Rattle.gix_index.specs.Clean.{is_file, is_clean};

use crate::entry::Entry;
use crate::look::Look;
use crate::tree::Listed;
use std::alloc::{Allocator, Global};

/// An entry of the index, and how its file compares with it.
#[derive(Clone, Copy)]
pub struct Looked<'i, A: Allocator = Global> {
    pub entry: &'i Entry<A>,
    pub look: Look,
}

/// The first path at which a working tree and a commit differ.
#[derive(Clone, Copy)]
pub struct Difference<'d> {
    pub path: &'d [u8],
    /// The mode that the index has there, or the commit if the index has none.
    pub mode: u32,
}

/// Tests whether an entry has the path, the mode and the object of a file of a commit.
fn is_file<A: Allocator, B: Allocator>(entry: &Entry<A>, file: &Listed<B>) -> bool
    ensures { result ≡ is_file entry.now file.now }
{
    entry.path.as_slice() == file.path.as_slice() && entry.mode == file.mode && entry.id == file.id
}

/// Returns the files that are left for the entries behind `one`, or the difference at `one`.
fn after<'d, A: Allocator, B: Allocator>(
    one: &'d Looked<'_, A>,
    files: &'d [Listed<B>],
) -> Result<&'d [Listed<B>], Difference<'d>>
    ensures { MatchResult result
        (λ rest. (more : List (Looked A)) → is_clean (one.now ∷ more) files.now ≡ is_clean more rest.now)
        (λ d. (more : List (Looked A)) → is_clean (one.now ∷ more) files.now ≡ false) }
{
    let entry = Difference {
        path: &one.entry.path,
        mode: one.entry.mode,
    };
    match (one.look, files.split_first()) {
        (Look::Missing, _) => Ok(files),
        (Look::Kept, Some((file, rest))) if is_file(one.entry, file) => Ok(rest),
        (_, Some((file, _))) if file.path.as_slice() < one.entry.path.as_slice() => Err(
            Difference {
                path: &file.path,
                mode: file.mode,
            },
        ),
        _ => Err(entry),
    }
}

/// Returns where the files of a working tree and those of a commit first differ, or `None` if they are
/// the same.
///
/// Both are in the order of their paths. A file that the index does not have does not count.
pub fn first_difference<'d, A: Allocator, B: Allocator>(
    looked: &'d [Looked<'_, A>],
    files: &'d [Listed<B>],
) -> Option<Difference<'d>>
    // `None` exactly if the files of the commit are, one by one, those of the entries whose files
    // are not missing, and each of these files is as its entry has it (`is_clean`).
    ensures { MatchOption result (is_clean looked.now files.now ≡ true)
        (λ d. is_clean looked.now files.now ≡ false) }
{
    let mut left = files;
    for one in looked {
        match after(one, left) {
            Ok(files) => left = files,
            Err(difference) => return Some(difference),
        }
    }
    match left.first() {
        Some(file) => Some(Difference {
            path: &file.path,
            mode: file.mode,
        }),
        None => None,
    }
}

/// Returns whether the entries and the files of a commit are in the order of their paths.
pub fn are_sorted<A: Allocator, B: Allocator>(entries: &[Entry<A>], files: &[Listed<B>]) -> bool {
    let are_entries = entries.windows(2).all(|two| match two {
        [one, next] => one.path.as_slice() <= next.path.as_slice(),
        _ => true,
    });
    are_entries
        && files.windows(2).all(|two| match two {
            [one, next] => one.path.as_slice() < next.path.as_slice(),
            _ => true,
        })
}
