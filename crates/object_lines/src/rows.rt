//! Prints the commits of a commit-graph whose ids are on lines.

use gix_base::hash::ObjectId;
use gix_files::System;
use gix_graph_rows::GraphRows;
use std::alloc::Global;
use std::io::{self, BufRead, BufReader, BufWriter, Write};

/// Prints the generation number and the id of a commit.
fn print_level<W: Write>(generation: Option<u32>, id: ObjectId, output: &mut W) -> io::Result<()> {
    match generation {
        Some(level) => writeln!(output, "{level} {id}"),
        None => writeln!(output, "none {id}"),
    }
}

/// Prints the date, the id and the parents of a commit.
fn print_commit<W: Write>(
    time: i64,
    id: ObjectId,
    parents: &[ObjectId],
    output: &mut W,
) -> io::Result<()> {
    write!(output, "{time} {id}")?;
    for parent in parents.iter() {
        write!(output, " {parent}")?;
    }
    output.write_all(b"\n")
}

/// Prints the answer for a line that has an id.
fn print_found<W: Write>(
    alloc: Global,
    rows: &mut GraphRows<System<'_>>,
    levels: bool,
    id: ObjectId,
    output: &mut W,
) -> io::Result<()> {
    match rows.commit(alloc, id) {
        Ok(Some(commit)) if levels => print_level(commit.generation, id, output),
        Ok(Some(commit)) => print_commit(commit.time, id, &commit.parents, output),
        Ok(None) => writeln!(output, "{id} missing"),
        Err(error) => writeln!(output, "{id} error: {error}"),
    }
}

/// Prints the answers to all lines of the input.
fn print_answers(
    rt: &HostRuntime,
    rows: &mut GraphRows<System<'_>>,
    levels: bool,
) -> io::Result<()> {
    let alloc = rt.alloc();
    let mut output = BufWriter::new(alloc, io::writer(rt))?;
    for line in BufReader::new(alloc, rt.reader())?.lines(alloc) {
        let line = line?;
        match ObjectId::from_hex(line.as_str().as_bytes()) {
            Ok(id) => print_found(alloc, rows, levels, id, &mut output)?,
            Err(_) => writeln!(output, "{line} missing")?,
        }
    }
    output.flush()
}

/// Opens the commit-graph of an `objects` folder, and prints the answers. Returns whether all went
/// well.
pub(crate) fn answer(rt: &HostRuntime, levels: bool, path: &str) -> bool {
    match GraphRows::open(rt.alloc(), System(rt), path.as_bytes()) {
        Ok(Some(mut rows)) => print_answers(rt, &mut rows, levels).is_ok(),
        Ok(None) => {
            let _ = eprintln!(rt; "object_lines: '{path}' has no commit-graph");
            false
        }
        Err(error) => {
            let _ = eprintln!(rt; "object_lines: {error}");
            false
        }
    }
}
