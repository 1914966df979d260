//! Reads all lines of a text: commits, names, refs, and commands in order.

use crate::fields::LineFault;
use crate::lines::{Command, Line, commit_id, read_line};
use crate::stop::Stop;
use gix_revision::Seed;
use gix_revision::describe::Options;
use gix_revision::graph::MemorySource;
use gix_revision::hash::ObjectId;
use std::alloc::{AllocError, Allocator};
use std::borrow::CowSlice;
use std::collections::{BTreeMap, BTreeSet};

/// The id of each ref.
pub(crate) type Names<A> = BTreeMap<Vec<u8, A>, ObjectId, A>;

/// All that the lines of a text say.
#[derive(Drop)]
pub(crate) struct Session<'t, A: Allocator> {
    pub(crate) source: MemorySource<A>,
    /// The options of `describe` lines, with all names of the text.
    pub(crate) options: Options<'t, A>,
    /// The refs, for lines with a revision to resolve.
    pub(crate) names: Names<A>,
    /// The ids of all commits of the text; empty if no line has a revision to resolve.
    pub(crate) ids: BTreeSet<ObjectId, A>,
    pub(crate) commands: Vec<Command<'t, A>, A>,
    /// The seed of all hash maps over ids.
    pub(crate) seed: Seed,
}

impl<'t, A: Allocator + Copy> Session<'t, A> {
    /// Makes the session of a text without lines.
    fn new(alloc: A, seed: Seed) -> Session<'t, A> {
        Session {
            source: MemorySource::with_seed(alloc, seed),
            options: Options::with_seed(alloc, seed),
            names: BTreeMap::new(alloc),
            ids: BTreeSet::new(alloc),
            commands: Vec::new(alloc),
            seed,
        }
    }
}

/// Reads each line of a text.
///
/// The error has the number of the first unreadable line. A line that repeats an id or a ref is
/// unreadable, too.
pub(crate) fn read_lines<'t, A: Allocator + Copy>(
    alloc: A,
    seed: Seed,
    text: &'t [u8],
) -> Result<Session<'t, A>, Stop> {
    let mut session = Session::new(alloc, seed);
    add_lines(alloc, text, &mut session)?;
    // Other commands do not need the set of ids, which is large.
    if session.commands.iter().any(|command| command.is_resolved()) {
        add_ids(text, &mut session.ids)?;
    }
    Ok(session)
}

/// Adds all lines of a text, but not the ids of its commits.
fn add_lines<'t, A: Allocator + Copy>(
    alloc: A,
    text: &'t [u8],
    session: &mut Session<'t, A>,
) -> Result<(), Stop> {
    let mut number: usize = 0;
    for line in text.split(|byte| *byte == b'\n') {
        number = number.saturating_add(1);
        if line.is_empty() {
            continue;
        }
        match add_line(alloc, line, session) {
            Ok(()) => {}
            Err(LineFault::Unreadable) => return Err(Stop::UnreadableLine(number)),
            Err(LineFault::OutOfMemory) => return Err(Stop::OutOfMemory),
        }
    }
    Ok(())
}

/// Adds the ids of all commits of a text, whose lines were read before.
fn add_ids<A: Allocator + Copy>(
    text: &[u8],
    ids: &mut BTreeSet<ObjectId, A>,
) -> Result<(), AllocError> {
    for line in text.split(|byte| *byte == b'\n') {
        if let Some(id) = commit_id(line) {
            ids.insert(id)?;
        }
    }
    Ok(())
}

/// Adds a line. A second commit or name for one id is unreadable, and so is a second ref of one
/// name.
fn add_line<'t, A: Allocator + Copy>(
    alloc: A,
    line: &'t [u8],
    session: &mut Session<'t, A>,
) -> Result<(), LineFault> {
    match read_line(alloc, line)? {
        Line::Commit(id, commit) => session.source.insert(id, commit)?,
        Line::Name(id, name) => add_name(id, name, &mut session.options)?,
        Line::Ref(id, name) => add_ref(alloc, id, name, &mut session.names)?,
        Line::Command(command) => session.commands.push(command)?,
    }
    Ok(())
}

/// Adds a ref.
fn add_ref<A: Allocator + Copy>(
    alloc: A,
    id: ObjectId,
    name: &[u8],
    names: &mut Names<A>,
) -> Result<(), LineFault> {
    if names.contains_key(name) {
        return Err(LineFault::Unreadable);
    }
    names.insert(name.to_vec(alloc)?, id)?;
    Ok(())
}

/// Adds a name.
fn add_name<'t, A: Allocator + Copy>(
    id: ObjectId,
    name: &'t [u8],
    options: &mut Options<'t, A>,
) -> Result<(), LineFault> {
    if options.name_by_oid.contains_key(&id) {
        return Err(LineFault::Unreadable);
    }
    options.name_by_oid.insert(id, CowSlice::Borrowed(name))?;
    Ok(())
}
