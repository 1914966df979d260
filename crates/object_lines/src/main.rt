//! Answers lines about objects, commit-graphs and zlib streams, for tests.
//!
//! - `object_lines OBJECTS` prints the objects of an `objects` folder whose ids are on the lines, as
//!   `git cat-file --batch` does: `ID KIND SIZE`, and after that line the content and a line feed.
//! - `object_lines --commits OBJECTS` prints the line of each commit as `git rev-list --timestamp
//!   --parents --no-walk` does: `TIME ID PARENT..`.
//! - `object_lines --tags OBJECTS` prints what each tag says: `TARGET KIND DATE NAME`.
//! - `object_lines --ids OBJECTS` prints the ids that begin with the digits on each line, at most 16,
//!   after these digits and a colon: `DIGITS: ID..`.
//! - `object_lines --rows OBJECTS` prints what `--commits` prints, but reads the commit-graph.
//! - `object_lines --levels OBJECTS` prints `LEVEL ID` for each commit of the commit-graph, with its
//!   generation number, which is 0 if git has not computed it.
//! - `object_lines --inflate` inflates streams. A line `content LIMIT HEX` is answered by the length of
//!   the stream and its content, `LENGTH HEX`, and `front N HEX` by the first N bytes of the content.
//!   Bytes are in hexadecimal digits. If a call fails, the answer is the text of its error.
//!
//! If there is no such object, or a line is not an id, the answer is `LINE missing`. If an object
//! is not read, the answer is `LINE error: TEXT`. The status is 1 if the store or the commit-graph
//! cannot be opened, if a line of `--inflate` is no question, or if input or output fails. It is 2 if
//! the command line is not one of these. The scripts of `tests/objects`, `tests/graph_rows` and
//! `tests/zlib` run this program.
#![tactic(auto)]

mod objects;
mod rows;
mod streams;

use crate::objects::Mode;
use std::env;
use std::process::ExitCode;

/// Answers an option about an `objects` folder. Returns whether all went well; `None` if there is no
/// such option.
fn answer(rt: &HostRuntime, option: &str, path: &str) -> Option<bool> {
    match option {
        "--commits" => Some(objects::answer(rt, Mode::Commits, path)),
        "--tags" => Some(objects::answer(rt, Mode::Tags, path)),
        "--ids" => Some(objects::answer(rt, Mode::Ids, path)),
        "--rows" => Some(rows::answer(rt, false, path)),
        "--levels" => Some(rows::answer(rt, true, path)),
        _ => None,
    }
}

/// Answers a single word of the command line. Returns whether all went well.
fn answer_alone(rt: &HostRuntime, word: &str) -> bool {
    if word == "--inflate" {
        streams::print_answers(rt.alloc(), &mut rt.stdin(), &mut rt.stdout()).is_some()
    } else {
        objects::answer(rt, Mode::Objects, word)
    }
}

/// Answers the command line. Returns whether all went well; `None` if it is not one of the above.
fn answer_all(rt: &HostRuntime) -> Option<bool> {
    let mut words = env::args(rt).ok()?;
    let _program = words.next();
    let first = words.next()?;
    let Some(second) = words.next() else {
        return Some(answer_alone(rt, first.as_str()));
    };
    if words.next().is_some() {
        return None;
    }
    answer(rt, first.as_str(), second.as_str())
}

fn main(rt: HostRuntime) -> ExitCode {
    match answer_all(&rt) {
        Some(true) => ExitCode::SUCCESS,
        Some(false) => ExitCode::FAILURE,
        None => ExitCode::from(2),
    }
}
