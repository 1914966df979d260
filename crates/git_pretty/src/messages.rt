//! Takes messages of commits apart (git-rev-list, "PRETTY FORMATS").

use git_fields::read::message;
use std::alloc::{AllocError, Global};

/// Tells whether a byte is white space, as git counts it.
pub(crate) fn is_space(byte: u8) -> bool {
    matches!(byte, b' ' | b'\t' | b'\n' | b'\r')
}

/// Returns a line without the white space at its end.
fn trimmed(line: &[u8]) -> &[u8] {
    match line.iter().rposition(|byte| !is_space(*byte)) {
        Some(last) => line.get(..last.saturating_add(1)).unwrap_or(line),
        None => &[],
    }
}

/// Returns the first line of a text without the white space at its end, and what follows the line.
fn first_line(text: &[u8]) -> (&[u8], &[u8]) {
    match text.iter().position(|byte| *byte == b'\n') {
        Some(end) => (
            trimmed(text.get(..end).unwrap_or(text)),
            text.get(end.saturating_add(1)..).unwrap_or(&[]),
        ),
        None => (trimmed(text), &[]),
    }
}

/// Returns a text without the blank lines with which it begins.
fn without_blank_lines(text: &[u8]) -> &[u8] {
    let mut rest = text;
    for _ in 0..text.len() {
        let (line, behind) = first_line(rest);
        if !line.is_empty() || rest.is_empty() {
            break;
        }
        rest = behind;
    }
    rest
}

/// Adds the subject of a message: its lines up to the first blank one, as one line. Returns what
/// follows the subject.
pub(crate) fn add_subject<'m>(message: &'m [u8], to: &mut Vec<u8>) -> Result<&'m [u8], AllocError> {
    let mut rest = without_blank_lines(message);
    let begin = to.len();
    for _ in 0..message.len() {
        let (line, behind) = first_line(rest);
        rest = behind;
        if line.is_empty() {
            break;
        }
        if to.len() > begin {
            to.push(b' ')?;
        }
        to.extend_from_slice(line)?;
    }
    Ok(rest)
}

/// Returns the message of a commit behind the subject.
pub(crate) fn body(alloc: Global, content: &[u8]) -> Result<&[u8], AllocError> {
    let mut subject = Vec::new(alloc);
    let rest = add_subject(message(content), &mut subject)?;
    Ok(without_blank_lines(rest))
}

/// Returns the message of a commit with the empty lines before it.
pub(crate) fn whole_message(content: &[u8]) -> &[u8] {
    match content.windows(2).position(|two| two == b"\n\n".as_slice()) {
        Some(end) => content.get(end.saturating_add(2)..).unwrap_or(&[]),
        None => &[],
    }
}
