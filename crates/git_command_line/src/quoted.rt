//! Splits a line into words, as a shell does with quotes.

use git_session::stop::{Stop, no_question};
use std::alloc::Global;

/// Says in which quotes a byte stands.
#[derive(Clone, Copy, PartialEq, Eq)]
enum Quotes {
    Outside,
    Single,
    Double,
}

/// Collects the words of a line.
#[derive(Drop)]
struct Splitter {
    alloc: Global,
    words: Vec<Vec<u8>>,
    word: Vec<u8>,
    /// Tells whether the current word has begun, if only by quotes.
    has_begun: bool,
    quotes: Quotes,
    /// Tells whether the next byte stands for itself.
    is_escaped: bool,
}

impl Splitter {
    /// Adds a byte to the current word.
    fn push(&mut self, byte: u8) -> Result<(), Stop> {
        self.has_begun = true;
        self.word.push(byte)?;
        Ok(())
    }

    /// Ends the current word, if one has begun.
    fn end_word(&mut self) -> Result<(), Stop> {
        if self.has_begun {
            self.words.push(self.word.as_slice().to_vec(self.alloc)?)?;
            self.word.clear();
            self.has_begun = false;
        }
        Ok(())
    }

    /// Reads a byte behind a backslash. Between double quotes a backslash stays before most bytes.
    fn escaped(&mut self, byte: u8) -> Result<(), Stop> {
        self.is_escaped = false;
        if self.quotes == Quotes::Double && !matches!(byte, b'"' | b'\\' | b'$' | b'`') {
            self.push(b'\\')?;
        }
        self.push(byte)
    }

    /// Reads a byte that stands in no quotes.
    fn outside(&mut self, byte: u8) -> Result<(), Stop> {
        match byte {
            b' ' | b'\t' => self.end_word(),
            b'\'' => {
                self.has_begun = true;
                self.quotes = Quotes::Single;
                Ok(())
            }
            b'"' => {
                self.has_begun = true;
                self.quotes = Quotes::Double;
                Ok(())
            }
            b'\\' => {
                self.is_escaped = true;
                Ok(())
            }
            byte => self.push(byte),
        }
    }

    /// Reads a byte of the line.
    fn read(&mut self, byte: u8) -> Result<(), Stop> {
        if self.is_escaped {
            return self.escaped(byte);
        }
        match self.quotes {
            Quotes::Outside => self.outside(byte),
            Quotes::Single if byte == b'\'' => {
                self.quotes = Quotes::Outside;
                Ok(())
            }
            Quotes::Double if byte == b'"' => {
                self.quotes = Quotes::Outside;
                Ok(())
            }
            Quotes::Double if byte == b'\\' => {
                self.is_escaped = true;
                Ok(())
            }
            _ => self.push(byte),
        }
    }
}

/// Returns the words of a line: what stands between spaces and tabs, with quotes as in a shell.
///
/// # Errors
///
/// - `NoQuestion` if quotes are not closed, or nothing follows a backslash.
/// - `OutOfMemory` if an allocation failed.
pub fn split_words(alloc: Global, line: &[u8]) -> Result<Vec<Vec<u8>>, Stop> {
    let mut splitter = Splitter {
        alloc,
        words: Vec::new(alloc),
        word: Vec::new(alloc),
        has_begun: false,
        quotes: Quotes::Outside,
        is_escaped: false,
    };
    for byte in line {
        splitter.read(*byte)?;
    }
    if splitter.is_escaped || splitter.quotes != Quotes::Outside {
        return Err(no_question(alloc, &[b"a line has an open quote"]));
    }
    splitter.end_word()?;
    Ok(splitter.words)
}
