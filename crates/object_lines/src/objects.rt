//! Prints the objects whose ids are on lines.

use gix_base::hash::{ObjectId, Prefix};
use gix_files::System;
use gix_object::kind_name;
use gix_odb::{Error, Object, Store};
use std::alloc::Global;
use std::io::{self, BufRead, BufReader, BufWriter, Write};

/// What is printed of each line.
#[derive(Clone, Copy, PartialEq, Eq)]
pub(crate) enum Mode {
    Objects,
    Commits,
    Tags,
    Ids,
}

/// How many ids are printed for one prefix.
const MOST_IDS: usize = 16;

/// Prints why the object that a line names is not read.
fn print_error<W: Write>(line: &str, error: Error, output: &mut W) -> io::Result<()> {
    match error {
        Error::Missing(_) => writeln!(output, "{line} missing"),
        error => writeln!(output, "{line} error: {error}"),
    }
}

/// Prints an object as `git cat-file --batch` does.
fn print_object<W: Write>(
    alloc: Global,
    store: &mut Store<System<'_>>,
    id: ObjectId,
    line: &str,
    output: &mut W,
) -> io::Result<()> {
    match store.read(alloc, id) {
        Ok(Object { kind, content }) => {
            let kind = kind_name(kind);
            let size = content.len();
            writeln!(output, "{id} {kind} {size}")?;
            output.write_all(&content)?;
            output.write_all(b"\n")
        }
        Err(error) => print_error(line, error, output),
    }
}

/// Prints the date, the id and the parents of a commit.
fn print_commit<W: Write>(
    alloc: Global,
    store: &mut Store<System<'_>>,
    id: ObjectId,
    line: &str,
    output: &mut W,
) -> io::Result<()> {
    match store.commit(alloc, id) {
        Ok(commit) => {
            let time = commit.time;
            write!(output, "{time} {id}")?;
            for parent in commit.parents.iter() {
                write!(output, " {parent}")?;
            }
            output.write_all(b"\n")
        }
        Err(error) => print_error(line, error, output),
    }
}

/// Prints what a tag says.
fn print_tag<W: Write>(
    alloc: Global,
    store: &mut Store<System<'_>>,
    id: ObjectId,
    line: &str,
    output: &mut W,
) -> io::Result<()> {
    match store.tag(alloc, id) {
        Ok(tag) => {
            let kind = kind_name(tag.kind);
            write!(output, "{} {kind} {} ", tag.target, tag.date)?;
            output.write_all(&tag.name)?;
            output.write_all(b"\n")
        }
        Err(error) => print_error(line, error, output),
    }
}

/// Prints the ids that begin with the digits of a line.
fn print_ids<W: Write>(
    alloc: Global,
    store: &mut Store<System<'_>>,
    line: &str,
    output: &mut W,
) -> io::Result<()> {
    let Ok(prefix) = Prefix::from_hex(line.as_bytes()) else {
        return writeln!(output, "{line} missing");
    };
    match store.completions(alloc, prefix, MOST_IDS) {
        Ok(ids) => {
            write!(output, "{line}:")?;
            for id in ids.iter() {
                write!(output, " {id}")?;
            }
            output.write_all(b"\n")
        }
        Err(error) => print_error(line, error, output),
    }
}

/// Prints the answer to a line that is an id.
fn print_answer<W: Write>(
    alloc: Global,
    store: &mut Store<System<'_>>,
    mode: Mode,
    line: &str,
    output: &mut W,
) -> io::Result<()> {
    let Ok(id) = ObjectId::from_hex(line.as_bytes()) else {
        return writeln!(output, "{line} missing");
    };
    match mode {
        Mode::Commits => print_commit(alloc, store, id, line, output),
        Mode::Tags => print_tag(alloc, store, id, line, output),
        _ => print_object(alloc, store, id, line, output),
    }
}

/// Prints the answers to all lines of the input.
fn print_answers(rt: &HostRuntime, store: &mut Store<System<'_>>, mode: Mode) -> io::Result<()> {
    let alloc = rt.alloc();
    let mut output = BufWriter::new(alloc, io::writer(rt))?;
    for line in BufReader::new(alloc, rt.reader())?.lines(alloc) {
        let line = line?;
        if mode == Mode::Ids {
            print_ids(alloc, store, line.as_str(), &mut output)?;
        } else {
            print_answer(alloc, store, mode, line.as_str(), &mut output)?;
        }
    }
    output.flush()
}

/// Opens the store of an `objects` folder, and prints the answers. Returns whether all went well.
pub(crate) fn answer(rt: &HostRuntime, mode: Mode, path: &str) -> bool {
    match Store::open(rt.alloc(), System(rt), path.as_bytes()) {
        Ok(mut store) => print_answers(rt, &mut store, mode).is_ok(),
        Err(error) => {
            let _ = eprintln!(rt; "object_lines: {error}");
            false
        }
    }
}
