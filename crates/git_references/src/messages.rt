//! Takes messages of commits and tags apart (git-for-each-ref, "contents").

use git_session::stop::{Stop, not_supported};
use std::alloc::{AllocError, Global};

/// Returns a text without the bytes at its end that end lines.
pub(crate) fn without_ends(text: &[u8]) -> &[u8] {
    match text
        .iter()
        .rposition(|byte| !matches!(*byte, b'\n' | b'\r'))
    {
        Some(last) => text.get(..last.saturating_add(1)).unwrap_or(text),
        None => &[],
    }
}

/// Returns the lines of a message up to the first empty one, and what is behind them.
pub(crate) fn divided(message: &[u8]) -> (&[u8], &[u8]) {
    let short = message.windows(2).position(|two| two == b"\n\n".as_slice());
    let end = match short {
        Some(end) => Some(end),
        None => message
            .windows(4)
            .position(|four| four == b"\r\n\r\n".as_slice()),
    };
    match end {
        Some(end) => message.split_at(end.min(message.len())),
        None => (message, &[]),
    }
}

/// Returns the message behind the subject, without the empty lines before it.
pub(crate) fn rest_of(message: &[u8]) -> &[u8] {
    let (_, rest) = divided(message);
    match rest.iter().position(|byte| !matches!(*byte, b'\n' | b'\r')) {
        Some(begin) => rest.get(begin..).unwrap_or(&[]),
        None => &[],
    }
}

/// Returns lines as one line.
pub(crate) fn joined_lines(alloc: Global, lines: &[u8]) -> Result<Vec<u8>, AllocError> {
    let mut text = Vec::new(alloc);
    for (place, byte) in lines.iter().enumerate() {
        let is_end = lines.get(place.saturating_add(1)) == Some(&b'\n');
        match *byte {
            b'\r' if is_end => {}
            b'\n' => text.push(b' ')?,
            byte => text.push(byte)?,
        }
    }
    Ok(text)
}

/// Ends if a signature may begin in a text.
pub(crate) fn refuse_signature(alloc: Global, text: &[u8]) -> Result<(), Stop> {
    for line in text.split(|byte| *byte == b'\n') {
        if line.starts_with(b"-----BEGIN ") {
            return Err(not_supported(alloc, &[b"a signature in a message is not supported"]));
        }
    }
    Ok(())
}
