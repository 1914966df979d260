//! Reads the options of `describe` (git-describe, "Options").

use git_session::integer::integer;
use git_session::options::{add_choice, next_item};
use git_session::stop::{Stop, not_supported};
use parse_options::{Choice, Given, Item, Reader, Value};
use std::alloc::{AllocError, Global};

/// Is how many names git weighs at most.
pub(crate) const MOST_CANDIDATES: usize = 27;

/// Is how many names git weighs, if no option says it.
const USUAL_CANDIDATES: usize = 10;

/// Is the least number of digits of an abbreviated object name.
const LEAST_DIGITS: usize = 4;

/// Says how many digits of an id are printed.
#[derive(Clone, Copy, PartialEq, Eq)]
pub(crate) enum Abbrev {
    /// As many as the repository's settings say.
    Usual,
    /// This many, or more if another object begins with them.
    Least(usize),
    /// None; all if some are needed.
    Nothing,
}

/// Names an option.
#[derive(Clone, Copy)]
enum Key {
    Contains,
    Debug,
    All,
    Tags,
    Long,
    FirstParent,
    Abbrev,
    ExactMatch,
    Candidates,
    Match,
    Exclude,
    Always,
    Dirty,
    Broken,
}

/// The options of `describe`.
static CHOICES: [Choice<Key>; 14] = [
    Choice {
        key: Key::Contains,
        short: 0,
        long: "contains",
        value: Value::Never,
        has_no: true,
    },
    Choice {
        key: Key::Debug,
        short: 0,
        long: "debug",
        value: Value::Never,
        has_no: true,
    },
    Choice {
        key: Key::All,
        short: 0,
        long: "all",
        value: Value::Never,
        has_no: true,
    },
    Choice {
        key: Key::Tags,
        short: 0,
        long: "tags",
        value: Value::Never,
        has_no: true,
    },
    Choice {
        key: Key::Long,
        short: 0,
        long: "long",
        value: Value::Never,
        has_no: true,
    },
    Choice {
        key: Key::FirstParent,
        short: 0,
        long: "first-parent",
        value: Value::Never,
        has_no: true,
    },
    Choice {
        key: Key::Abbrev,
        short: 0,
        long: "abbrev",
        value: Value::Joined,
        has_no: true,
    },
    Choice {
        key: Key::ExactMatch,
        short: 0,
        long: "exact-match",
        value: Value::Never,
        has_no: true,
    },
    Choice {
        key: Key::Candidates,
        short: 0,
        long: "candidates",
        value: Value::Always,
        has_no: true,
    },
    Choice {
        key: Key::Match,
        short: 0,
        long: "match",
        value: Value::Always,
        has_no: true,
    },
    Choice {
        key: Key::Exclude,
        short: 0,
        long: "exclude",
        value: Value::Always,
        has_no: true,
    },
    Choice {
        key: Key::Always,
        short: 0,
        long: "always",
        value: Value::Never,
        has_no: true,
    },
    Choice {
        key: Key::Dirty,
        short: 0,
        long: "dirty",
        value: Value::Joined,
        has_no: true,
    },
    Choice {
        key: Key::Broken,
        short: 0,
        long: "broken",
        value: Value::Joined,
        has_no: true,
    },
];

/// Adds the options to a text, each on a line.
pub fn add_options(text: &mut Vec<u8>) -> Result<(), AllocError> {
    for choice in CHOICES.iter() {
        if !matches!(choice.key, Key::Contains | Key::Debug | Key::Broken) {
            add_choice(text, choice, choice.has_no)?;
        }
    }
    Ok(())
}

/// Has what the words ask for.
#[derive(Drop)]
pub(crate) struct Asked<'w> {
    pub(crate) contains: bool,
    pub(crate) debug: bool,
    pub(crate) all: bool,
    pub(crate) tags: bool,
    pub(crate) long: bool,
    pub(crate) first_parent: bool,
    pub(crate) always: bool,
    /// Has what is printed behind the description if the working tree is dirty.
    pub(crate) dirty: Option<&'w [u8]>,
    pub(crate) broken: bool,
    pub(crate) abbrev: Abbrev,
    /// Is how many names are weighed. With 0 only a commit's own name counts.
    pub(crate) candidates: usize,
    /// Has the patterns of which a name has to match one, if there are any.
    pub(crate) matched: Vec<&'w [u8]>,
    /// Has the patterns of which a name must not match one.
    pub(crate) excluded: Vec<&'w [u8]>,
    pub(crate) texts: Vec<&'w [u8]>,
}

/// Returns the end for a value of an option that is no number.
fn no_number<'t>(alloc: Global, option: &'t [u8], value: &'t [u8]) -> Stop {
    not_supported(
        alloc,
        &[
            b"the number '",
            value,
            b"' of ",
            option,
            b" is not supported",
        ],
    )
}

/// Returns what `--abbrev` asks for.
fn abbrev_of(alloc: Global, given: Given<'_, Key>) -> Result<Abbrev, Stop> {
    let Some(value) = given.value else {
        return Ok(if given.is_no {
            Abbrev::Nothing
        } else {
            Abbrev::Usual
        });
    };
    match integer(value) {
        Some(0) => Ok(Abbrev::Nothing),
        Some(digits) => match usize::try_from(digits) {
            Ok(digits) => Ok(Abbrev::Least(digits.clamp(LEAST_DIGITS, 40))),
            Err(_) => Ok(Abbrev::Least(LEAST_DIGITS)),
        },
        None => Err(no_number(alloc, b"--abbrev", value)),
    }
}

/// Returns what `--candidates` asks for.
fn candidates_of(alloc: Global, given: Given<'_, Key>) -> Result<usize, Stop> {
    let Some(value) = given.value else {
        return Ok(0);
    };
    match integer(value) {
        Some(most) => match usize::try_from(most) {
            Ok(most) => Ok(most.min(MOST_CANDIDATES)),
            Err(_) => Ok(0),
        },
        None => Err(no_number(alloc, b"--candidates", value)),
    }
}

/// Returns the mark that `--dirty` asks for; `None` for `--no-dirty`.
fn mark_of<'w>(given: Given<'w, Key>) -> Option<&'w [u8]> {
    if given.is_no {
        None
    } else {
        Some(given.value.unwrap_or(b"-dirty"))
    }
}

/// Adds a pattern to a list. `--no-match` and `--no-exclude` empty it.
fn note_pattern<'w>(patterns: &mut Vec<&'w [u8]>, given: Given<'w, Key>) -> Result<(), Stop> {
    match given.value {
        Some(pattern) => patterns.push(pattern)?,
        None => patterns.clear(),
    }
    Ok(())
}

impl<'w> Asked<'w> {
    /// Asks for nothing but what git does without options.
    fn new(alloc: Global) -> Asked<'w> {
        Asked {
            contains: false,
            debug: false,
            all: false,
            tags: false,
            long: false,
            first_parent: false,
            always: false,
            dirty: None,
            broken: false,
            abbrev: Abbrev::Usual,
            candidates: USUAL_CANDIDATES,
            matched: Vec::new(alloc),
            excluded: Vec::new(alloc),
            texts: Vec::new(alloc),
        }
    }

    /// Notes an option.
    fn note(&mut self, alloc: Global, given: Given<'w, Key>) -> Result<(), Stop> {
        let is_set = !given.is_no;
        match given.key {
            Key::Contains => self.contains = is_set,
            Key::Debug => self.debug = is_set,
            Key::All => self.all = is_set,
            Key::Tags => self.tags = is_set,
            Key::Long => self.long = is_set,
            Key::FirstParent => self.first_parent = is_set,
            Key::Always => self.always = is_set,
            Key::Dirty => self.dirty = mark_of(given),
            Key::Broken => self.broken = is_set,
            Key::ExactMatch => self.candidates = 0,
            Key::Abbrev => self.abbrev = abbrev_of(alloc, given)?,
            Key::Candidates => self.candidates = candidates_of(alloc, given)?,
            Key::Match => note_pattern(&mut self.matched, given)?,
            Key::Exclude => note_pattern(&mut self.excluded, given)?,
        }
        Ok(())
    }

    /// Reads the words behind `describe`.
    pub(crate) fn read(alloc: Global, words: &'w [&'w [u8]]) -> Result<Asked<'w>, Stop> {
        let mut asked = Asked::new(alloc);
        let mut reader = Reader::new(&CHOICES, words);
        for _ in 0..usize::MAX {
            match next_item(alloc, &mut reader)? {
                Some(Item::Option(given)) => asked.note(alloc, given)?,
                Some(Item::Argument(text)) => asked.texts.push(text)?,
                None => break,
            }
        }
        Ok(asked)
    }

    /// Tells whether names are chosen by patterns.
    pub(crate) fn has_patterns(&self) -> bool {
        !self.matched.is_empty() || !self.excluded.is_empty()
    }
}
