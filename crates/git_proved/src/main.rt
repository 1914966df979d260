//! The program `git-proved`.
//!
//! It answers git's words `merge-base`, `describe`, `rev-parse`, `rev-list` and `for-each-ref`, as
//! they stand on a command line, and the word `batch`, which answers lines of such words.
//!
//! Merge bases, ancestry, depths, and which commits a whole list has are answers of proved
//! questions (`gix_questions`) about the repository (`gix_repository`). The forms of options are
//! those of `parse_options`. All else is made here, in `git_session`, and in the crate of each
//! command, and tested against git: what options mean, the order of lists, first parents, filters,
//! what is printed, and the status.
//!
//! - `git_command_line` reads the command line and the options before the word, which say where the
//!   repository is, opens it, and writes the answer.
//! - `command_line` and `program` call it, answer, and return the status.
//!
//! The status is git's: 0, 1 or 128. What is not supported here ends with the status 129, so that a
//! script can ask git then. Damage, and a failure of the program, end with 125. Both print nothing on
//! standard output.
#![tactic(auto)]

mod answer;
mod batch;
mod command_line;
mod help;
mod program;
mod usage;

use crate::command_line::answered;
use std::process::ExitCode;

fn main(rt: HostRuntime) -> ExitCode {
    ExitCode::from(answered(&rt))
}
