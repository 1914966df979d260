//! Is the example of docs/RATTLE.md, which shows the lines between the two marks.

use std::alloc::AllocError;
use std::collections::{BTreeMap, BTreeSet};
// RATTLE: begin
use gix_resolve::{Table, commits, resolve};
use gix_revision::date::Time;
use gix_revision::describe::{Options, describe};
use gix_revision::graph::{Graph, MemorySource, SourceCommit};
use gix_revision::hash::ObjectId;
use gix_revision::merge_base::merge_base;
use std::alloc::Global;
use std::borrow::CowSlice;
use std::string::String;

/// Adds a commit whose id repeats one byte. Returns `None` if the id is taken or memory runs out.
fn add(alloc: Global, source: &mut MemorySource, byte: u8, parents: &[ObjectId]) -> Option<()> {
    let commit = SourceCommit {
        parents: parents.to_vec(alloc).ok()?,
        time: i64::from(byte),
        generation: None,
    };
    source.insert(ObjectId([byte; 20]), commit).ok()
}

/// Returns the merge base of two branches as `git describe` writes it, with one commit named v1.
///
/// Returns `None` if there is no merge base, if it has no name, or if a call fails.
fn fork_point(
    alloc: Global,
    source: MemorySource,
    (ours, theirs): (ObjectId, ObjectId),
    named: ObjectId,
) -> Option<String> {
    let mut graph = Graph::new(alloc, source);
    let bases = merge_base(alloc, ours, &[theirs], &mut graph).ok()??;

    let mut options = Options::new(alloc);
    let name = CowSlice::Borrowed(b"v1".as_slice());
    options.name_by_oid.insert(named, name).ok()?;
    let mut marks = Graph::new(alloc, graph.into_source());
    let outcome = describe(alloc, bases.first(), &mut marks, options).ok()??;
    format!(in alloc; "{}", outcome.into_format(7)).ok()
}

/// Counts the commits of a revision such as `main..HEAD`. Returns `None` if a call fails.
fn count(alloc: Global, source: MemorySource, table: &Table, text: &[u8]) -> Option<usize> {
    let now = Time {
        seconds: 0,
        offset: 0,
    };
    let mut graph = Graph::new(alloc, source);
    let spec = resolve(alloc, alloc, text, now, table, &mut graph).ok()?;
    Some(commits(alloc, &spec, &mut graph).ok()?.len())
}
// RATTLE: end

const ROOT: ObjectId = ObjectId([0x11; 20]);

const FORK: ObjectId = ObjectId([0x22; 20]);

const OURS: ObjectId = ObjectId([0x33; 20]);

const THEIRS: ObjectId = ObjectId([0x44; 20]);

/// A root, and two branches that part at its child.
fn forked(alloc: Global) -> Option<MemorySource> {
    let mut source = MemorySource::new(alloc);
    add(alloc, &mut source, 0x11, &[])?;
    add(alloc, &mut source, 0x22, &[ROOT])?;
    add(alloc, &mut source, 0x33, &[FORK])?;
    add(alloc, &mut source, 0x44, &[FORK])?;
    Some(source)
}

/// The branches as HEAD and main.
fn branches(alloc: Global) -> Result<Table, AllocError> {
    let mut names = BTreeMap::new(alloc);
    names.insert(b"HEAD".to_vec(alloc)?, OURS)?;
    names.insert(b"main".to_vec(alloc)?, THEIRS)?;
    Ok(Table {
        names,
        ids: BTreeSet::new(alloc),
    })
}

/// Whether the fork is described by the root's name, one commit ahead of it.
fn is_fork_described(alloc: Global) -> bool {
    match forked(alloc) {
        Some(source) => {
            fork_point(alloc, source, (OURS, THEIRS), ROOT).as_deref() == Some("v1-1-g2222222")
        }
        None => false,
    }
}

/// Whether the two branches have one commit of their own each.
fn are_counted(alloc: Global) -> bool {
    let (Some(source), Ok(table)) = (forked(alloc), branches(alloc)) else {
        return false;
    };
    count(alloc, source, &table, b"main...HEAD") == Some(2)
}

#[test]
fn the_readme_is_right(rt: HostRuntime) {
    assert!(rt; is_fork_described(rt.alloc()));
    assert!(rt; are_counted(rt.alloc()));
}
