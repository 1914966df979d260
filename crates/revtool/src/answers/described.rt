//! Answers `describe` and `describe-as` lines, on a graph of their own.

use crate::answers::Outcome;
use crate::manner::Manner;
use bstr::BStr;
use gix_revision::describe::{self, Format, Nearest, Options, counted_by};
use gix_revision::error::Message;
use gix_revision::graph::{Graph, MemorySource};
use gix_revision::hash::ObjectId;
use std::alloc::Allocator;
use std::io::{self, Write};

/// The graph of these lines.
pub(super) type Descriptions<'s, A> = Graph<&'s MemorySource<A>, describe::Flags, A>;

/// Describes a commit by the names of the options.
fn described<'t, A: Allocator + Copy>(
    alloc: A,
    commit: &ObjectId,
    manner: Manner,
    options: &Options<'t, A>,
    graph: &mut Descriptions<'_, A>,
) -> Result<Option<Nearest<'t, A>>, Message> {
    let chosen = describe::Manner {
        max_candidates: manner.candidates(),
        fallback_to_oid: manner.is_always(),
        first_parent: manner.first_parent,
        tie: describe::Tie::ById,
    };
    let (found, _pops) = counted_by(alloc, commit, graph, &options.name_by_oid, chosen)?;
    Ok(found)
}

/// Writes the word and the name, depth and digits of the commit, or `none`.
pub(super) fn answer_describe<'t, W: Write, A: Allocator + Copy>(
    alloc: A,
    word: &str,
    commit: &ObjectId,
    manner: Manner,
    options: &Options<'t, A>,
    graph: &mut Descriptions<'_, A>,
    output: &mut W,
) -> io::Result<Outcome> {
    match described(alloc, commit, manner, options, graph) {
        Ok(Some(nearest)) => print_nearest(word, nearest, manner, output),
        Ok(None) => print_none(word, output),
        Err(message) => print_refusal(word, message, output),
    }
}

/// Writes the name in the chosen format, or the digits if there is no name.
fn print_nearest<W: Write, A: Allocator>(
    word: &str,
    nearest: Nearest<'_, A>,
    manner: Manner,
    output: &mut W,
) -> io::Result<Outcome> {
    if nearest.name.is_some() {
        let mut format = nearest.into_format(manner.digits());
        format.long = manner.long;
        print_named(word, &format, output)
    } else {
        print_named(word, &nearest.into_format(manner.digits_alone()), output)
    }
}

fn print_none<W: Write>(word: &str, output: &mut W) -> io::Result<Outcome> {
    writeln!(output, "{word} none")?;
    Ok(Outcome::Answered)
}

/// Writes the name, with U+FFFD for what is not UTF-8; alone, if no digits are to be printed.
fn print_named<W: Write, A: Allocator>(
    word: &str,
    format: &Format<'_, A>,
    output: &mut W,
) -> io::Result<Outcome> {
    match &format.name {
        Some(name) if format.hex_len == 0 => writeln!(output, "{word} {}", BStr::new(name))?,
        _ => writeln!(output, "{word} {format}")?,
    }
    Ok(Outcome::Answered)
}

/// Writes the word and the number of the error.
fn print_refusal<W: Write>(word: &str, message: Message, output: &mut W) -> io::Result<Outcome> {
    let number = match message {
        Message::ParentsOf(_) => 1,
        Message::MissingStart(_) => 2,
        Message::CounterFull => 3,
        Message::OutOfMemory => 4,
    };
    writeln!(output, "{word} refused D{number}")?;
    Ok(Outcome::Refused)
}
