//! Prints the blocks of a format: what is between `%(if)` or `%(align)` and its `%(end)`
//! (git-for-each-ref, "FIELD NAMES").
//!
//! A block is printed like any other part. At its end, or at `%(then)`, what the output has from
//! its beginning on is changed.

use git_session::integer::whole;
use git_session::stop::{Stop, not_supported};
use std::alloc::{AllocError, Global};

/// Says when the part of an `%(if)` behind `%(then)` is printed, by the text before it.
#[derive(Drop)]
pub(crate) enum Test {
    /// If the text is not blank.
    NotBlank,
    Equals(Vec<u8>),
    Differs(Vec<u8>),
}

/// Says where a text is in a column that is wider.
#[derive(Clone, Copy, PartialEq, Eq)]
pub(crate) enum Side {
    Left,
    Middle,
    Right,
}

/// A column of the output.
#[derive(Clone, Copy)]
pub(crate) struct Column {
    width: usize,
    side: Side,
}

/// Begins a block, divides it, or ends it.
#[derive(Drop)]
pub(crate) enum Mark {
    If(Test),
    Then,
    Else,
    Align(Column),
    End,
}

/// Returns the side with this name.
fn side_of(word: &[u8]) -> Option<Side> {
    if word == b"left".as_slice() {
        Some(Side::Left)
    } else if word == b"middle".as_slice() {
        Some(Side::Middle)
    } else if word == b"right".as_slice() {
        Some(Side::Right)
    } else {
        None
    }
}

/// Returns the width that a word of at most four digits says.
fn width_of(word: &[u8]) -> Option<usize> {
    if word.len() > 4 {
        return None;
    }
    usize::try_from(whole(word)?).ok()
}

/// Returns the column that words say; `None` if they have no width, or another word.
fn column_of(words: &[u8]) -> Option<Column> {
    let mut width = None;
    let mut side = Side::Left;
    for word in words.split(|byte| *byte == b',') {
        if let Some(name) = word.strip_prefix(b"position=") {
            side = side_of(name)?;
        } else if let Some(named) = side_of(word) {
            side = named;
        } else {
            width = Some(width_of(word.strip_prefix(b"width=").unwrap_or(word))?);
        }
    }
    Some(Column {
        width: width?,
        side,
    })
}

/// Returns the test that the end of an `if` says.
fn test_of(alloc: Global, end: &[u8]) -> Result<Option<Test>, AllocError> {
    if end.is_empty() {
        Ok(Some(Test::NotBlank))
    } else if let Some(text) = end.strip_prefix(b":equals=") {
        Ok(Some(Test::Equals(text.to_vec(alloc)?)))
    } else if let Some(text) = end.strip_prefix(b":notequals=") {
        Ok(Some(Test::Differs(text.to_vec(alloc)?)))
    } else {
        Ok(None)
    }
}

/// Returns the mark that a field is; `None` if it is another field, or not supported.
pub(crate) fn mark_of(alloc: Global, field: &[u8]) -> Result<Option<Mark>, AllocError> {
    if field == b"then".as_slice() {
        Ok(Some(Mark::Then))
    } else if field == b"else".as_slice() {
        Ok(Some(Mark::Else))
    } else if field == b"end".as_slice() {
        Ok(Some(Mark::End))
    } else if let Some(words) = field.strip_prefix(b"align:") {
        match column_of(words) {
            Some(column) => Ok(Some(Mark::Align(column))),
            None => Ok(None),
        }
    } else if let Some(end) = field.strip_prefix(b"if") {
        match test_of(alloc, end)? {
            Some(test) => Ok(Some(Mark::If(test))),
            None => Ok(None),
        }
    } else {
        Ok(None)
    }
}

/// Tells whether a text has a byte that is not white space.
fn is_not_blank(text: &[u8]) -> bool {
    text.iter()
        .any(|byte| !matches!(*byte, b' ' | b'\t' | b'\n' | b'\r'))
}

impl Test {
    /// Returns whether a text passes.
    fn passes(&self, text: &[u8]) -> bool {
        match self {
            Test::NotBlank => is_not_blank(text),
            Test::Equals(wanted) => wanted.as_slice() == text,
            Test::Differs(unwanted) => unwanted.as_slice() != text,
        }
    }
}

/// A block that has begun, and where its text begins in the output.
#[derive(Clone, Copy)]
enum Open<'f> {
    If(usize, &'f Test),
    /// Whether the text behind `%(then)` is kept.
    Then(usize, bool),
    /// Where the text behind `%(else)` begins, and whether that before it is kept.
    Else(usize, usize, bool),
    Align(usize, Column),
}

/// Removes what an output has between two places.
fn cut_out(
    alloc: Global,
    output: &mut Vec<u8>,
    begin: usize,
    end: usize,
) -> Result<(), AllocError> {
    let rest = output.get(end..).unwrap_or(&[]).to_vec(alloc)?;
    output.truncate(begin);
    output.extend_from_slice(&rest)?;
    Ok(())
}

/// Adds blanks.
fn add_blanks(output: &mut Vec<u8>, count: usize) -> Result<(), AllocError> {
    for _ in 0..count {
        output.push(b' ')?;
    }
    Ok(())
}

/// Fills a column with what an output has from a place on.
///
/// # Errors
///
/// `NotSupported` if a byte is not ASCII, or a control character: its width is not known.
fn fill_column(
    alloc: Global,
    output: &mut Vec<u8>,
    begin: usize,
    column: Column,
) -> Result<(), Stop> {
    let text = output.get(begin..).unwrap_or(&[]).to_vec(alloc)?;
    if !text
        .iter()
        .all(|byte| byte.is_ascii_graphic() || *byte == b' ')
    {
        return Err(not_supported(
            alloc,
            &[b"%(align) is not supported for a text that is not ASCII"],
        ));
    }
    let blanks = column.width.saturating_sub(text.len());
    let before = match column.side {
        Side::Left => 0,
        Side::Middle => blanks / 2,
        Side::Right => blanks,
    };
    output.truncate(begin);
    add_blanks(output, before)?;
    output.extend_from_slice(&text)?;
    add_blanks(output, blanks.saturating_sub(before))?;
    Ok(())
}

/// Returns the end for marks that do not belong together.
fn misplaced(alloc: Global) -> Stop {
    not_supported(
        alloc,
        &[b"a format with blocks that do not close is not supported"],
    )
}

/// The blocks that have begun and not ended, the outermost first.
#[derive(Drop)]
pub(crate) struct Blocks<'f> {
    open: Vec<Open<'f>>,
}

impl<'f> Blocks<'f> {
    /// Begins outside of all blocks.
    pub(crate) fn new(alloc: Global) -> Blocks<'f> {
        Blocks {
            open: Vec::new(alloc),
        }
    }

    /// Tells whether each block has ended.
    pub(crate) fn is_outside(&self) -> bool {
        self.open.is_empty()
    }

    /// Ends the line.
    ///
    /// # Errors
    ///
    /// `NotSupported` if a block has not ended.
    pub(crate) fn finish(&self, alloc: Global) -> Result<(), Stop> {
        if self.is_outside() {
            Ok(())
        } else {
            Err(misplaced(alloc))
        }
    }

    /// Ends the condition of the last block.
    fn then(&mut self, alloc: Global, output: &mut Vec<u8>) -> Result<(), Stop> {
        let Some(Open::If(begin, test)) = self.open.pop() else {
            return Err(misplaced(alloc));
        };
        let is_kept = test.passes(output.get(begin..).unwrap_or(&[]));
        output.truncate(begin);
        self.open.push(Open::Then(begin, is_kept))?;
        Ok(())
    }

    /// Begins the part of the last block that is printed if the test is not passed.
    fn otherwise(&mut self, alloc: Global, output: &[u8]) -> Result<(), Stop> {
        let Some(Open::Then(begin, is_kept)) = self.open.pop() else {
            return Err(misplaced(alloc));
        };
        self.open.push(Open::Else(begin, output.len(), is_kept))?;
        Ok(())
    }

    /// Ends the last block, and returns where it begins.
    fn end(&mut self, alloc: Global, output: &mut Vec<u8>) -> Result<usize, Stop> {
        match self.open.pop() {
            Some(Open::Then(begin, is_kept)) => {
                if !is_kept {
                    output.truncate(begin);
                }
                Ok(begin)
            }
            Some(Open::Else(begin, middle, is_kept)) => {
                if is_kept {
                    output.truncate(middle);
                } else {
                    cut_out(alloc, output, begin, middle)?;
                }
                Ok(begin)
            }
            Some(Open::Align(begin, column)) => {
                fill_column(alloc, output, begin, column)?;
                Ok(begin)
            }
            _ => Err(misplaced(alloc)),
        }
    }

    /// Passes a mark. Returns where the block begins that it ends.
    ///
    /// # Errors
    ///
    /// - `NotSupported` if the mark belongs to no block.
    /// - `NotSupported` if a text that is not ASCII is put into a column.
    pub(crate) fn pass(
        &mut self,
        alloc: Global,
        mark: &'f Mark,
        output: &mut Vec<u8>,
    ) -> Result<Option<usize>, Stop> {
        match mark {
            Mark::If(test) => self.open.push(Open::If(output.len(), test))?,
            Mark::Align(column) => self.open.push(Open::Align(output.len(), *column))?,
            Mark::Then => self.then(alloc, output)?,
            Mark::Else => self.otherwise(alloc, output)?,
            Mark::End => return Ok(Some(self.end(alloc, output)?)),
        }
        Ok(None)
    }
}
