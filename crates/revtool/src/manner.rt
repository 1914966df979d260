//! Reads the options of a `describe-as` line.

use crate::fields::{Fields, ID_DIGITS, LineFault, read_id, read_number};
use gix_revision::hash::ObjectId;

/// The number of printed digits without the option `abbrev`.
const DIGITS: usize = 7;

/// The number of weighed names without the option `candidates`.
const CANDIDATES: usize = 10;

/// How to describe a commit (git-describe, "Options").
#[derive(Clone, Copy)]
pub(crate) struct Manner {
    /// Whether to print the depth and the digits also after the commit's own name.
    pub(crate) long: bool,
    /// Whether the digits alone are the answer if there is no name.
    pub(crate) always: bool,
    /// Whether to follow only first parents.
    pub(crate) first_parent: bool,
    /// How many digits to print; with 0 the name alone is printed.
    abbrev: Option<usize>,
    /// How many names to weigh; with 0 only the commit's own name counts.
    candidates: Option<usize>,
}

impl Manner {
    /// Returns the options of a line without any.
    pub(crate) fn plain() -> Manner {
        Manner {
            long: false,
            always: false,
            first_parent: false,
            abbrev: None,
            candidates: None,
        }
    }

    /// Returns how many names to weigh.
    pub(crate) fn candidates(&self) -> usize {
        self.candidates.unwrap_or(CANDIDATES)
    }

    /// Returns how many digits to print; 0 means the name alone.
    pub(crate) fn digits(&self) -> usize {
        self.abbrev.unwrap_or(DIGITS)
    }

    /// Returns how many digits to print if there is no name: all 40 if none were asked for.
    pub(crate) fn digits_alone(&self) -> usize {
        match self.digits() {
            0 => ID_DIGITS,
            digits => digits,
        }
    }

    /// Tests whether the digits alone are an answer. As in git, they are not if only the commit's
    /// own name counts.
    pub(crate) fn is_always(&self) -> bool {
        self.always && self.candidates() != 0
    }

    /// Adds an option. An option that was given before is an error.
    fn add(&mut self, option: &[u8]) -> Result<(), LineFault> {
        if option == b"long".as_slice() {
            return set_once(&mut self.long);
        }
        if option == b"always".as_slice() {
            return set_once(&mut self.always);
        }
        if option == b"first-parent".as_slice() {
            return set_once(&mut self.first_parent);
        }
        self.add_number(option)
    }

    /// Adds an option with a number.
    fn add_number(&mut self, option: &[u8]) -> Result<(), LineFault> {
        if let Some(digits) = option.strip_prefix(b"abbrev=") {
            return put_once(&mut self.abbrev, digits, ID_DIGITS);
        }
        match option.strip_prefix(b"candidates=") {
            Some(digits) => put_once(&mut self.candidates, digits, usize::MAX),
            None => Err(LineFault::Unreadable),
        }
    }
}

/// Sets an option that was not set before.
fn set_once(option: &mut bool) -> Result<(), LineFault> {
    if *option {
        return Err(LineFault::Unreadable);
    }
    *option = true;
    Ok(())
}

/// Stores a number, at most `greatest`, if there was none before.
fn put_once(option: &mut Option<usize>, digits: &[u8], greatest: usize) -> Result<(), LineFault> {
    let Some(number) = read_number(digits) else {
        return Err(LineFault::Unreadable);
    };
    let number = number as usize;
    if option.is_some() || number > greatest {
        return Err(LineFault::Unreadable);
    }
    *option = Some(number);
    Ok(())
}

/// Reads `OPTION.. ID`. Each option occurs at most once and, as in git, `long` is not combined with
/// `abbrev=0`.
pub(crate) fn read_manner(fields: Fields<'_>) -> Result<(Manner, ObjectId), LineFault> {
    let mut manner = Manner::plain();
    let mut commit = None;
    for field in fields {
        if commit.is_some() {
            return Err(LineFault::Unreadable);
        }
        match read_id(field) {
            Ok(id) => commit = Some(id),
            Err(_) => manner.add(field)?,
        }
    }
    match commit {
        Some(id) if !manner.long || manner.digits() != 0 => Ok((manner, id)),
        _ => Err(LineFault::Unreadable),
    }
}
