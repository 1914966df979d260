//! C functions that count the commits of a history, and look one up.

ghost use Rattle.std.specs.Prelude.{◌≡◌, ⊤, Some};
ghost use Rattle.gix_revwalk.specs.History.{Has};
ghost use Rattle.gix_revwalk.specs.Sizes.{HasSize};
ghost use Rattle.gix_c_core.specs.Answers.{ByCode, id_of};
ghost use Rattle.gix_c_core.specs.Behind.{commits_of};
ghost use Rattle.gix_c_core.specs.Commits.{HasCommit, IsKnown};

use gix_c_core::commits::{CommitFields, fields_of};
use gix_c_core::handle::Handle;
use gix_c_core::ids::{bytes_of_each, write};
use gix_c_core::status::{NONE, OK, OUT_OF_MEMORY};
use gix_revision::hash::ObjectId;
use std::alloc::Global;

/// Returns the number of commits that the history has.
#[unsafe(no_mangle)]
pub extern "C" fn gix_history_len(history: &mut Handle) -> usize
    // If abbreviated object names stand for exactly the ids of the commits, the result is exactly
    // the number of commits.
    ensures size { IsKnown history.old → HasSize (Has (commits_of history.old)) result }

    // The history is unchanged.
    ensures kept { history.new.value ≡ history.old.value }
{
    history.get_mut().table.ids.len()
}

/// Writes the commit of `id`: its fields, and as many first parents as fit into `parents`.
#[unsafe(no_mangle)]
pub extern "C" fn gix_history_commit(
    alloc: Global,
    history: &mut Handle,
    id: &[u8; 20],
    out: &mut CommitFields,
    parents: &mut [[u8; 20]],
) -> i32
    // After `OK`, `out` has the commit's date, generation number and number of parents. The parents
    // replace the front of `parents`, as many as fit. After `NONE`, the history does not have the
    // commit.
    ensures commit { ByCode result
        (HasCommit (commits_of history.old) (id_of id.now) parents.old parents.new out.new)
        (¬ Has (commits_of history.old) (id_of id.now)) ⊤ }

    // The code is `OK`, `NONE` or `OUT_OF_MEMORY`. Unless it is `OK`, `out` and `parents` are
    // unchanged.
    ensures unwritten { ByCode result ⊤
        ((out.new ≡ out.old) × (parents.new ≡ parents.old))
        ((result ≡ OUT_OF_MEMORY) × (out.new ≡ out.old) × (parents.new ≡ parents.old)) }

    // Also after an error, the history is unchanged.
    ensures kept { history.new.value ≡ history.old.value }
{
    let source = history.get_mut().graph.source();
    let found = match source.get(alloc, ObjectId(*id)) {
        Ok(found) => found,
        Err(_) => return OUT_OF_MEMORY,
    };
    let Some(commit) = found else {
        return NONE;
    };
    let Ok(bytes) = bytes_of_each(alloc, &commit.parents) else {
        return OUT_OF_MEMORY;
    };
    let mut count = 0;
    write(&bytes, parents, &mut count);
    *out = fields_of(&commit);
    OK
}
