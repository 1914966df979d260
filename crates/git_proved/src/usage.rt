//! Makes what `git proved COMMAND -h` prints: the options of the command, as its own table has them.

use std::alloc::{AllocError, Global};

/// A command, and the arguments that it takes.
#[derive(Clone, Copy)]
pub(crate) struct Command(&'static str, &'static str);

/// The commands that are answered.
static COMMANDS: [Command; 6] = [
    Command("merge-base", " [OPTION..] COMMIT.."),
    Command("describe", " [OPTION..] [COMMIT..]"),
    Command("rev-parse", " [OPTION..] REVISION.."),
    Command("rev-list", " [OPTION..] REVISION.."),
    Command("for-each-ref", " [OPTION..] [PATTERN..]"),
    Command("batch", " <QUESTIONS"),
];

/// Returns the command with a name.
pub(crate) fn command_of(word: &[u8]) -> Option<Command> {
    COMMANDS
        .iter()
        .find(|command| command.0.as_bytes() == word)
        .copied()
}

/// Adds the options of a command.
fn add_options(name: &str, text: &mut Vec<u8>) -> Result<(), AllocError> {
    if name == "merge-base" {
        git_merge_base::add_options(text)
    } else if name == "describe" {
        git_describe::add_options(text)
    } else if name == "rev-parse" {
        git_rev_parse::add_options(text)
    } else if name == "rev-list" {
        git_rev_list::add_options(text)
    } else {
        git_for_each_ref::add_options(text)
    }
}

/// Returns the help of a command.
///
/// # Errors
///
/// Fails if an allocation failed.
pub(crate) fn usage(alloc: Global, command: Command) -> Result<Vec<u8>, AllocError> {
    let Command(name, arguments) = command;
    let mut text = b"usage: git proved ".to_vec(alloc)?;
    text.extend_from_slice(name.as_bytes())?;
    text.extend_from_slice(arguments.as_bytes())?;
    text.extend_from_slice(b"\n\n")?;
    if name != "batch" {
        add_options(name, &mut text)?;
        text.push(b'\n')?;
    }
    text.extend_from_slice(b"The manual page git-proved(1) has more.\n")?;
    Ok(text)
}
