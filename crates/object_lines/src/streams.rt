//! Inflates zlib streams, one on each line.

use gix_zlib::{inflate, inflate_front};
use std::alloc::Global;
use std::io::{Read, Write};

/// Prints the answer to `content LIMIT HEX`.
fn print_content<W: Write>(
    alloc: Global,
    input: &[u8],
    limit: usize,
    output: &mut W,
) -> Option<()> {
    match inflate(alloc, input, limit) {
        Ok((content, length)) => {
            let digits = hex::encode(alloc, &content).ok()?;
            writeln!(output, "{length} {digits}").ok()
        }
        Err(error) => writeln!(output, "{error}").ok(),
    }
}

/// Prints the answer to `front N HEX`.
fn print_front<W: Write>(alloc: Global, input: &[u8], n: usize, output: &mut W) -> Option<()> {
    match inflate_front(alloc, input, n) {
        Ok(content) => {
            let digits = hex::encode(alloc, &content).ok()?;
            writeln!(output, "{digits}").ok()
        }
        Err(error) => writeln!(output, "{error}").ok(),
    }
}

/// Prints the answer to a line; `None` if it is not a question, or cannot be answered.
fn print_answer<W: Write>(alloc: Global, line: &str, output: &mut W) -> Option<()> {
    let (word, rest) = line.split_once(" ")?;
    let (number, digits) = rest.split_once(" ")?;
    let number = number.parse::<usize>().ok()?;
    let input = hex::decode(alloc, digits).ok()?;
    match word {
        "content" => print_content(alloc, &input, number, output),
        "front" => print_front(alloc, &input, number, output),
        _ => None,
    }
}

/// Prints the answers to all lines; `None` if one cannot be answered.
pub(crate) fn print_answers<R: Read, W: Write>(
    alloc: Global,
    input: &mut R,
    output: &mut W,
) -> Option<()> {
    let mut bytes = Vec::new(alloc);
    input.read_to_end(&mut bytes).ok()?;
    let text = std::str::from_utf8(&bytes).ok()?;
    for line in text.lines() {
        print_answer(alloc, line, output)?;
    }
    Some(())
}
