//! Commits as C receives them.

ghost use Rattle.std.specs.Prelude.{◌≡◌, Some, None, if◌then◌else◌, length};

use gix_revision::graph::SourceCommit;

/// A commit without its parents: its date, its generation number if there is one, and the number of
/// its parents.
#[repr(C)]
#[derive(Clone, Copy)]
pub struct CommitFields {
    time: i64,
    generation: u32,
    has_generation: bool,
    parents_len: usize,
}

/// Returns the fields of a commit.
pub fn fields_of(commit: &SourceCommit) -> CommitFields
    // The answer has the date of the commit.
    ensures time { result.time ≡ commit.now.time }

    // `has_generation` says whether the commit has a generation number. If it has one, `generation`
    // is that number.
    ensures generation { (if result.has_generation then Some result.generation else None)
        ≡ commit.now.generation }

    // `parents_len` is the number of the parents.
    ensures parents { result.parents_len ≡ length commit.now.parents.items }
{
    CommitFields {
        time: commit.time,
        generation: commit.generation.unwrap_or(0),
        has_generation: commit.generation.is_some(),
        parents_len: commit.parents.len(),
    }
}
