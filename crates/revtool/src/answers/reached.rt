//! Answers `ahead-behind`, `reachable` and `reachable-count` lines.

use crate::answers::Outcome;
use crate::answers::bases::{BaseGraph, print_list};
use crate::lines::Sides;
use gix_resolve::{ListError, ahead_behind, count_reachable, reachable_newest_first};
use gix_revision::graph::Find;
use gix_revision::hash::ObjectId;
use std::alloc::Allocator;
use std::io::{self, Write};

/// Writes `ahead-behind`, how many commits only `ours` reaches, and how many only `theirs` reaches.
pub(super) fn answer_ahead_behind<S: Find, W: Write, A: Allocator + Copy>(
    alloc: A,
    ours: ObjectId,
    theirs: ObjectId,
    graph: &mut BaseGraph<S, A>,
    output: &mut W,
) -> io::Result<Outcome> {
    match ahead_behind(alloc, ours, theirs, graph) {
        Ok((ahead, behind)) => writeln!(output, "ahead-behind {ahead} {behind}")?,
        Err(error) => return print_refusal("ahead-behind", error, output),
    }
    Ok(Outcome::Answered)
}

/// Writes `reachable` and the commits that a shown one reaches and no hidden one does, the newest
/// first; or `reachable none`.
pub(super) fn answer_reachable<S: Find, W: Write, A: Allocator + Copy>(
    alloc: A,
    sides: &Sides<A>,
    graph: &mut BaseGraph<S, A>,
    output: &mut W,
) -> io::Result<Outcome> {
    match reachable_newest_first(alloc, &sides.shown, &sides.hidden, graph) {
        Ok(ids) => print_list("reachable", &ids, output),
        Err(error) => print_refusal("reachable", error, output),
    }
}

/// Writes `reachable-count` and how many commits a shown one reaches and no hidden one does.
pub(super) fn answer_reachable_count<S: Find, W: Write, A: Allocator + Copy>(
    alloc: A,
    sides: &Sides<A>,
    graph: &mut BaseGraph<S, A>,
    output: &mut W,
) -> io::Result<Outcome> {
    match count_reachable(alloc, &sides.shown, &sides.hidden, graph) {
        Ok(count) => writeln!(output, "reachable-count {count}")?,
        Err(error) => return print_refusal("reachable-count", error, output),
    }
    Ok(Outcome::Answered)
}

/// Writes the word and the number of the error of a list.
pub(super) fn print_refusal<W: Write>(
    word: &str,
    error: ListError,
    output: &mut W,
) -> io::Result<Outcome> {
    let number = match error {
        ListError::Source => 1,
        ListError::OutOfMemory => 2,
    };
    writeln!(output, "{word} refused E{number}")?;
    Ok(Outcome::Refused)
}
