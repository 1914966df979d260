//! Learns from files of attributes which contents git may convert (gitattributes, "Checking-out and
//! checking-in").

use crate::files::Statuses;
use gix_files::{FileError, Limit, read_file};
use std::alloc::Allocator;

/// Says what git may do to the content of a file before it is hashed.
#[derive(Clone, Copy, PartialEq, Eq, PartialOrd, Ord)]
pub enum Conversion {
    /// Nothing.
    Nothing,
    /// It may take carriage returns out of line ends.
    LineEnds,
    /// It may run a filter, or change keywords or the encoding.
    Any,
}

/// The words of attributes that can change more than line ends.
static FILTERS: [&str; 3] = ["filter", "ident", "encoding"];

/// The words of attributes that can change line ends.
static LINE_ENDS: [&str; 3] = ["text", "crlf", "eol"];

/// Tests whether a text has a word in it.
fn contains(text: &[u8], word: &[u8]) -> bool {
    for at in 0..text.len() {
        if text.get(at..).unwrap_or(&[]).starts_with(word) {
            return true;
        }
    }
    false
}

/// Tests whether a text has one of some words in it.
fn contains_any(text: &[u8], words: &[&str]) -> bool {
    words.iter().any(|word| contains(text, word.as_bytes()))
}

impl Conversion {
    /// Returns what the text of a file of attributes allows at most, whatever its patterns are.
    pub fn of(text: &[u8]) -> Conversion {
        if contains_any(text, &FILTERS) {
            Conversion::Any
        } else if contains_any(text, &LINE_ENDS) {
            Conversion::LineEnds
        } else {
            Conversion::Nothing
        }
    }

    /// Returns the one that allows more.
    pub fn or(self, other: Conversion) -> Conversion {
        self.max(other)
    }

    /// Returns whether it leaves a content as it is.
    pub(crate) fn keeps(self, content: &[u8]) -> bool {
        match self {
            Conversion::Nothing => true,
            Conversion::LineEnds => !content.contains(&b'\r'),
            Conversion::Any => false,
        }
    }
}

/// Returns what a conversion allows together with the file of attributes at a path, if there is one.
///
/// # Errors
///
/// Those of the files.
pub fn add_conversion<F: Statuses, A: Allocator>(
    alloc: A,
    files: &F,
    path: &[u8],
    conversion: Conversion,
) -> Result<Conversion, FileError> {
    let mut text = Vec::new(alloc);
    if read_file(files, path, Limit::Text, &mut text)? {
        Ok(conversion.or(Conversion::of(&text)))
    } else {
        Ok(conversion)
    }
}
