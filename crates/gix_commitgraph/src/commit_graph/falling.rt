//! Checks the generation numbers of commits that were read into memory.

ghost use Rattle.std.specs.Prelude.{◌≡◌, ◌++◌, IfOk};
ghost use Rattle.std.specs.List.{list_all};
ghost use Rattle.gix_commitgraph.specs.ChainLevels.{is_high, is_low, is_over};
ghost use Rattle.gix_revwalk.specs.Held.{entry_of};
ghost use Rattle.gix_commitgraph.specs.NewerCommits.{in_file};

use crate::commit_graph::joined::Commits;
use gix_base::hash::ObjectId;
use gix_revwalk::graph::SourceCommit;
use std::alloc::{AllocError, Allocator};

/// Returns whether `id` is that of a commit whose generation number is less than `limit`.
fn is_low<A: Allocator + Copy>(
    commits: &Commits<A>,
    alloc: A,
    limit: u32,
    id: ObjectId,
) -> Result<bool, AllocError>
    ensures { IfOk result (λ b. b ≡ is_low (in_file commits.now.file ++ commits.now.newer) limit id) }
{
    let Some(commit) = commits.get(alloc, id)? else {
        return Ok(false);
    };
    Ok(commit.generation.unwrap_or(u32::MAX) < limit)
}

/// Returns whether all of `ids` are those of commits whose generation numbers are less than `limit`.
fn are_low<A: Allocator + Copy>(
    commits: &Commits<A>,
    alloc: A,
    limit: u32,
    ids: &[ObjectId],
) -> Result<bool, AllocError>
    ensures { IfOk result (λ b.
        b ≡ list_all (is_low (in_file commits.now.file ++ commits.now.newer) limit) ids.now) }
{
    for id in ids {
        if !is_low(commits, alloc, limit, *id)? {
            return Ok(false);
        }
    }
    Ok(true)
}

/// Returns whether a commit has a generation number, and its parents are commits with lesser ones.
fn is_over_parents<A: Allocator + Copy>(
    commits: &Commits<A>,
    alloc: A,
    commit: &SourceCommit<A>,
) -> Result<bool, AllocError>
    ensures { IfOk result (λ b. b ≡ is_over (in_file commits.now.file ++ commits.now.newer) (entry_of commit.now)) }
{
    let limit = commit.generation.unwrap_or(u32::MAX);
    if limit == u32::MAX {
        return Ok(false);
    }
    are_low(commits, alloc, limit, commit.parents.as_slice())
}

/// Returns whether `id` is that of a commit with a generation number, and its parents are commits
/// with lesser ones.
fn is_high<A: Allocator + Copy>(
    commits: &Commits<A>,
    alloc: A,
    id: ObjectId,
) -> Result<bool, AllocError>
    ensures { IfOk result (λ b. b ≡ is_high (in_file commits.now.file ++ commits.now.newer) id) }
{
    let Some(commit) = commits.get(alloc, id)? else {
        return Ok(false);
    };
    is_over_parents(commits, alloc, &commit)
}

/// Returns whether each of `ids` is that of a commit with a generation number, and its parents are
/// commits with lesser ones.
pub(crate) fn are_high<A: Allocator + Copy>(
    commits: &Commits<A>,
    alloc: A,
    ids: &[ObjectId],
) -> Result<bool, AllocError>
    ensures { IfOk result (λ b. b ≡ list_all (is_high (in_file commits.now.file ++ commits.now.newer)) ids.now) }
{
    for id in ids {
        if !is_high(commits, alloc, *id)? {
            return Ok(false);
        }
    }
    Ok(true)
}
