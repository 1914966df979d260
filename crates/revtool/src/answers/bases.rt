//! Answers `base`, `octopus`, `octopus-all`, `independent` and `ancestor` lines, all on one graph.

use crate::answers::Outcome;
use crate::lines::Heads;
use gix_revision::error::NonEmpty;
use gix_revision::graph::{Commit, Find, Graph};
use gix_revision::hash::ObjectId;
use gix_revision::merge_base::{
    self, Flags, is_ancestor, merge_base, octopus, octopus_bases, reduce,
};
use std::alloc::Allocator;
use std::io::{self, Write};

/// The graph for all lines except `describe` and `describe-as`.
pub(super) type BaseGraph<S, A> = Graph<S, Commit<Flags, A>, A>;

/// Writes `base` and the merge bases by rising id, or `base none`.
pub(super) fn answer_base<S: Find, W: Write, A: Allocator + Copy>(
    alloc: A,
    heads: &Heads<A>,
    graph: &mut BaseGraph<S, A>,
    output: &mut W,
) -> io::Result<Outcome> {
    match merge_base(alloc, heads.first, &heads.others, graph) {
        Ok(bases) => print_bases(bases, output),
        Err(error) => print_refusal("base", error, output),
    }
}

/// Writes `octopus` and the octopus base, or `octopus none`.
pub(super) fn answer_octopus<S: Find, W: Write, A: Allocator + Copy>(
    alloc: A,
    heads: &Heads<A>,
    graph: &mut BaseGraph<S, A>,
    output: &mut W,
) -> io::Result<Outcome> {
    match octopus(alloc, heads.first, &heads.others, graph) {
        Ok(Some(id)) => writeln!(output, "octopus {id}")?,
        Ok(None) => output.write_all(b"octopus none\n")?,
        Err(error) => return print_refusal("octopus", error, output),
    }
    Ok(Outcome::Answered)
}

/// Writes `octopus-all` and the octopus bases by rising id, or `octopus-all none`.
pub(super) fn answer_octopus_all<S: Find, W: Write, A: Allocator + Copy>(
    alloc: A,
    heads: &Heads<A>,
    graph: &mut BaseGraph<S, A>,
    output: &mut W,
) -> io::Result<Outcome> {
    match octopus_bases(alloc, heads.first, &heads.others, graph) {
        Ok(bases) => print_sorted("octopus-all", bases, output),
        Err(error) => print_refusal("octopus-all", error, output),
    }
}

/// Writes `independent` and the ids that no other of them reaches, by rising id.
pub(super) fn answer_independent<S: Find, W: Write, A: Allocator + Copy>(
    alloc: A,
    ids: &[ObjectId],
    graph: &mut BaseGraph<S, A>,
    output: &mut W,
) -> io::Result<Outcome> {
    match reduce(alloc, ids, graph) {
        Ok(left) => print_sorted("independent", left, output),
        Err(error) => print_refusal("independent", error, output),
    }
}

/// Writes `ancestor yes` or `ancestor no`.
pub(super) fn answer_ancestor<S: Find, W: Write, A: Allocator + Copy>(
    alloc: A,
    ancestor: ObjectId,
    of: ObjectId,
    graph: &mut BaseGraph<S, A>,
    output: &mut W,
) -> io::Result<Outcome> {
    match is_ancestor(alloc, ancestor, of, graph) {
        Ok(true) => output.write_all(b"ancestor yes\n")?,
        Ok(false) => output.write_all(b"ancestor no\n")?,
        Err(error) => return print_refusal("ancestor", error, output),
    }
    Ok(Outcome::Answered)
}

/// Writes the word and the ids by rising id.
fn print_sorted<W: Write, A: Allocator>(
    word: &str,
    mut ids: Vec<ObjectId, A>,
    output: &mut W,
) -> io::Result<Outcome> {
    ids.sort_unstable();
    print_list(word, &ids, output)
}

/// Writes the word and each id, or `none` if there are no ids.
pub(super) fn print_list<W: Write>(
    word: &str,
    ids: &[ObjectId],
    output: &mut W,
) -> io::Result<Outcome> {
    output.write_all(word.as_bytes())?;
    if ids.is_empty() {
        output.write_all(b" none")?;
    }
    print_ids(ids, output)?;
    output.write_all(b"\n")?;
    Ok(Outcome::Answered)
}

fn print_bases<W: Write, A: Allocator>(
    bases: Option<NonEmpty<ObjectId, A>>,
    output: &mut W,
) -> io::Result<Outcome> {
    match bases {
        None => output.write_all(b"base none\n")?,
        Some(NonEmpty { head, mut tail }) => {
            tail.sort_unstable();
            let place = tail.partition_point(|id| *id < head);
            output.write_all(b"base")?;
            print_ids(&tail[..place], output)?;
            write!(output, " {head}")?;
            print_ids(&tail[place..], output)?;
            output.write_all(b"\n")?;
        }
    }
    Ok(Outcome::Answered)
}

/// Writes a space before each id.
fn print_ids<W: Write>(ids: &[ObjectId], output: &mut W) -> io::Result<()> {
    for id in ids {
        write!(output, " {id}")?;
    }
    Ok(())
}

/// Writes the word and the number of the error.
fn print_refusal<W: Write>(
    word: &str,
    error: merge_base::Error,
    output: &mut W,
) -> io::Result<Outcome> {
    let number = match error {
        merge_base::Error::Source(_) => "M1",
        merge_base::Error::OutOfMemory => "M2",
    };
    writeln!(output, "{word} refused {number}")?;
    Ok(Outcome::Refused)
}
