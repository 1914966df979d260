//! Callers over a commit-graph file, proved from the public contracts alone. The levels of a file
//! meet the premises of merge bases, so the callers need none.

ghost use Rattle.std.specs.Prelude.{◌++◌, List, IfOk};
ghost use Rattle.gix_revision.specs.Bases.{AreBases, ids_of};
ghost use Rattle.gix_revision.specs.FileCommits.{history_in};
ghost use Rattle.gix_revision.specs.History.{IsAcyclic};
ghost use Rattle.gix_revision.specs.Generations.{HasNoGenerations};
ghost use Rattle.gix_revision.specs.NewerCommits.{in_file};
ghost use Rattle.gix_revision.specs.Octopus.{IsOctopusBase};
ghost use Rattle.gix_revision.specs.Premises.{KeysFallFrom};
ghost use Rattle.gix_base.specs.declared.hash.ObjectId.{ObjectId};

use fixtures::graph_files::levelled;
use gix_revision::commit_graph::{Commits, Joined, LevelledGraph};
use gix_revision::error::NonEmpty;
use gix_revision::graph::{Commit, Find, Graph, SourceCommit};
use gix_revision::hash::ObjectId;
use gix_revision::laws::merge_base::whole_histories_meet;
use gix_revision::merge_base::{Error, Flags, merge_base, octopus};
use std::alloc::Global;

/// Returns the merge bases.
fn bases_of(
    alloc: Global,
    first: ObjectId,
    others: &[ObjectId],
    graph: &mut Graph<LevelledGraph, Commit<Flags>>,
) -> Result<Option<NonEmpty<ObjectId>>, Error>
    ensures { IfOk result (λ found.
        AreBases (history_in graph.old.source) first others.now (ids_of found)) }
{
    graph.source().premises();
    whole_histories_meet();
    merge_base(alloc, first, others, graph)
}

/// Returns the octopus base.
fn octopus_of(
    alloc: Global,
    first: ObjectId,
    others: &[ObjectId],
    graph: &mut Graph<LevelledGraph, Commit<Flags>>,
) -> Result<Option<ObjectId>, Error>
    ensures { IfOk result (IsOctopusBase (history_in graph.old.source) first others.now) }
{
    graph.source().premises();
    whole_histories_meet();
    octopus(alloc, first, others, graph)
}

/// Proves that keys fall along every edge that is reached, so painting loads little.
fn keys_fall(source: &LevelledGraph)
    ensures { (ids : List ObjectId) → KeysFallFrom (history_in source.now) ids }
{
    source.premises();
}

/// Returns the merge bases, also of commits that are newer than the file and have no generation
/// number.
fn bases_of_all<S: Find>(
    alloc: Global,
    first: ObjectId,
    others: &[ObjectId],
    graph: &mut Graph<Joined<S>, Commit<Flags>>,
) -> Result<Option<NonEmpty<ObjectId>>, Error>
    ensures { IsAcyclic (S.history graph.old.source.newer)
        → HasNoGenerations (S.history graph.old.source.newer)
        → IfOk result (λ found.
        AreBases (in_file graph.old.source.file ++ S.history graph.old.source.newer)
        first others.now (ids_of found)) }
{
    graph.source().premises();
    whole_histories_meet();
    merge_base(alloc, first, others, graph)
}

/// Ids of the file's commits, by their positions: the octopus merge, its first and its second
/// parent, and a root that the second one does not reach.
#[derive(Clone, Copy)]
struct Ids {
    merge: ObjectId,
    first: ObjectId,
    second: ObjectId,
    other_root: ObjectId,
}

fn ids_in(source: &LevelledGraph) -> Option<Ids> {
    let file = source.graph();
    Some(Ids {
        merge: file.id(4)?,
        first: file.id(2)?,
        second: file.id(0)?,
        other_root: file.id(3)?,
    })
}

/// Tests whether these are the bases.
fn are(bases: &Option<NonEmpty<ObjectId>>, want: &[ObjectId]) -> bool {
    match bases {
        None => want.is_empty(),
        Some(bases) => bases.iter().eq(want.iter()),
    }
}

fn has_bases(
    alloc: Global,
    first: ObjectId,
    other: ObjectId,
    graph: &mut Graph<LevelledGraph, Commit<Flags>>,
    want: &[ObjectId],
) -> bool {
    match bases_of(alloc, first, &[other], graph) {
        Ok(bases) => are(&bases, want),
        Err(_) => false,
    }
}

fn has_octopus_base(
    alloc: Global,
    ids: &Ids,
    graph: &mut Graph<LevelledGraph, Commit<Flags>>,
) -> bool {
    match octopus_of(alloc, ids.merge, &[ids.first, ids.second], graph) {
        Ok(base) => base == Some(ids.second),
        Err(_) => false,
    }
}

/// Tests the bases of the file. The first parent is the base of the octopus merge and itself. Two
/// commits without a common ancestor have no base. The second parent is the octopus base of the
/// merge and both.
fn has_all_bases(
    alloc: Global,
    ids: &Ids,
    graph: &mut Graph<LevelledGraph, Commit<Flags>>,
) -> bool {
    has_bases(alloc, ids.merge, ids.first, graph, &[ids.first])
        && has_bases(alloc, ids.second, ids.other_root, graph, &[])
        && has_octopus_base(alloc, ids, graph)
}

/// Tests the answers about these commits.
fn answers(alloc: Global, ids: &Ids, source: LevelledGraph) -> bool {
    keys_fall(&source);
    has_all_bases(alloc, ids, &mut Graph::new(alloc, source))
}

fn are_answered(alloc: Global) -> Option<bool> {
    let source = levelled(alloc)?;
    match ids_in(&source) {
        Some(ids) => Some(answers(alloc, &ids, source)),
        None => None,
    }
}

/// A commit that the file does not have.
const NEWER: ObjectId = ObjectId([1; 20]);

/// Makes a commit without a generation number, with one parent.
fn child_of(alloc: Global, parent: ObjectId) -> Option<SourceCommit> {
    Some(SourceCommit {
        parents: [parent].to_vec(alloc).ok()?,
        time: 0,
        generation: None,
    })
}

/// Tests whether two commits have these bases.
fn meet_at<S: Find>(
    alloc: Global,
    first: ObjectId,
    other: ObjectId,
    graph: &mut Graph<Joined<S>, Commit<Flags>>,
    want: &[ObjectId],
) -> bool {
    match bases_of_all(alloc, first, &[other], graph) {
        Ok(bases) => are(&bases, want),
        Err(_) => false,
    }
}

/// Returns the id of the octopus merge.
fn merge_in(alloc: Global) -> Option<ObjectId> {
    Some(ids_in(&levelled(alloc)?)?.merge)
}

/// A parent that comes after its child.
const LATE: ObjectId = ObjectId([2; 20]);

type GrowingGraph = Graph<Commits<Global>, Commit<Flags>>;

/// Tests whether a commit is added as a child of another one.
fn is_put(alloc: Global, id: ObjectId, parent: ObjectId, graph: &mut GrowingGraph) -> bool {
    match child_of(alloc, parent) {
        Some(commit) => graph.insert(id, commit).is_ok(),
        None => false,
    }
}

/// Tests whether walks over a file meet a newer commit, and a parent of it that is added after two
/// walks met the child.
fn grows_on(alloc: Global, merge: ObjectId, graph: &mut GrowingGraph) -> bool {
    is_put(alloc, NEWER, LATE, graph)
        && meet_at(alloc, NEWER, merge, graph, &[])
        && meet_at(alloc, NEWER, merge, graph, &[])
        && is_put(alloc, LATE, merge, graph)
        && meet_at(alloc, NEWER, merge, graph, &[merge])
        && meet_at(alloc, NEWER, LATE, graph, &[LATE])
}

/// Makes a graph over the file that takes commits.
fn growing(alloc: Global) -> GrowingGraph {
    Graph::new(alloc, Commits::new(alloc, levelled(alloc)))
}

fn grows(alloc: Global) -> Option<bool> {
    let merge = merge_in(alloc)?;
    Some(grows_on(alloc, merge, &mut growing(alloc)))
}

#[test]
fn a_file_is_asked(rt: HostRuntime) {
    assert!(rt; are_answered(rt.alloc()) == Some(true));
    assert!(rt; grows(rt.alloc()) == Some(true));
}
