//! Answers `for-each-ref` (git-for-each-ref).
//!
//! It reads the words, and selects references (`filter.rt`). `git_references` lists and prints them.
#![tactic(auto)]

mod filter;

use crate::filter::{Filter, apply};
use git_references::{
    Language, Printing, SortKey, list_wanted, print_references, read_format, sort_key,
};
use git_revisions::ranges::revision;
use git_session::commits::commit_of;
use git_session::integer::integer;
use git_session::options::{add_choice, next_item};
use git_session::session::Session;
use git_session::stop::{Stop, fatal, not_supported};
use gix_base::hash::ObjectId;
use parse_options::{Choice, Given, Item, Reader, Value};
use std::alloc::{AllocError, Global};

/// The format if none is given.
const FORMAT: &[u8] = b"%(objectname) %(objecttype)\t%(refname)";

/// Names an option.
#[derive(Clone, Copy)]
enum Key {
    Contains,
    NoContains,
    Merged,
    NoMerged,
    Format,
    Count,
    Sort,
    PointsAt,
    Color,
    Quote(Language),
    /// An option of git that is not supported, with its name.
    Other(&'static str),
}

/// The options of `for-each-ref`.
static CHOICES: [Choice<Key>; 14] = [
    Choice {
        key: Key::Quote(Language::Shell),
        short: b's',
        long: "shell",
        value: Value::Never,
        has_no: true,
    },
    Choice {
        key: Key::Quote(Language::Perl),
        short: b'p',
        long: "perl",
        value: Value::Never,
        has_no: true,
    },
    Choice {
        key: Key::Quote(Language::Python),
        short: 0,
        long: "python",
        value: Value::Never,
        has_no: true,
    },
    Choice {
        key: Key::Quote(Language::Tcl),
        short: 0,
        long: "tcl",
        value: Value::Never,
        has_no: true,
    },
    Choice {
        key: Key::Count,
        short: 0,
        long: "count",
        value: Value::Always,
        has_no: true,
    },
    Choice {
        key: Key::Format,
        short: 0,
        long: "format",
        value: Value::Always,
        has_no: true,
    },
    Choice {
        key: Key::Color,
        short: 0,
        long: "color",
        value: Value::Joined,
        has_no: true,
    },
    Choice {
        key: Key::Sort,
        short: 0,
        long: "sort",
        value: Value::Always,
        has_no: true,
    },
    Choice {
        key: Key::PointsAt,
        short: 0,
        long: "points-at",
        value: Value::Always,
        has_no: true,
    },
    Choice {
        key: Key::Merged,
        short: 0,
        long: "merged",
        value: Value::UnlessLast,
        has_no: false,
    },
    Choice {
        key: Key::NoMerged,
        short: 0,
        long: "no-merged",
        value: Value::UnlessLast,
        has_no: false,
    },
    Choice {
        key: Key::Contains,
        short: 0,
        long: "contains",
        value: Value::UnlessLast,
        has_no: false,
    },
    Choice {
        key: Key::NoContains,
        short: 0,
        long: "no-contains",
        value: Value::UnlessLast,
        has_no: false,
    },
    Choice {
        key: Key::Other("ignore-case"),
        short: 0,
        long: "ignore-case",
        value: Value::Never,
        has_no: true,
    },
];

/// Adds the options of `for-each-ref` to a text, each on a line.
pub fn add_options(text: &mut Vec<u8>) -> Result<(), AllocError> {
    for choice in CHOICES.iter() {
        if !matches!(choice.key, Key::Other(_)) {
            let has_no = choice.has_no && !matches!(choice.key, Key::Format);
            add_choice(text, choice, has_no)?;
        }
    }
    Ok(())
}

/// What the words ask for.
#[derive(Drop)]
struct Asked<'w> {
    filter: Filter,
    format: &'w [u8],
    /// The language as whose strings fields are printed, if one is given.
    language: Option<Language>,
    /// How many references are printed at most; all if it is 0.
    count: i32,
    /// By what references are sorted. The last key counts most.
    keys: Vec<SortKey>,
    patterns: Vec<&'w [u8]>,
}

/// Returns the commit of `--contains` or `--no-contains`.
fn contained(session: &mut Session<'_>, text: &[u8]) -> Result<ObjectId, Stop> {
    let Some(id) = revision(session, text)? else {
        return Err(not_supported(session.alloc, &[b"'", text, b"' names no object"]));
    };
    match commit_of(session, id)? {
        Some(commit) => Ok(commit),
        None => Err(not_supported(session.alloc, &[b"'", text, b"' names no commit"])),
    }
}

/// Returns the commit of `--merged` or `--no-merged`.
fn merged(session: &mut Session<'_>, text: &[u8]) -> Result<ObjectId, Stop> {
    let Some(id) = revision(session, text)? else {
        return Err(fatal(session.alloc, &[b"malformed object name ", text]));
    };
    match commit_of(session, id)? {
        Some(commit) => Ok(commit),
        None => Err(not_supported(session.alloc, &[b"'", text, b"' names no commit"])),
    }
}

/// Returns the object of `--points-at`.
fn object(session: &mut Session<'_>, text: &[u8]) -> Result<ObjectId, Stop> {
    match revision(session, text)? {
        Some(id) => Ok(id),
        None => Err(not_supported(session.alloc, &[b"'", text, b"' names no object"])),
    }
}

/// Returns the number of `--count`.
fn count(alloc: Global, text: &[u8]) -> Result<i32, Stop> {
    match integer(text) {
        Some(count) => Ok(count),
        None => Err(not_supported(
            alloc,
            &[b"the number '", text, b"' of --count is not supported"],
        )),
    }
}

/// Reads the value of `--color`. No field has colors, so nothing else depends on it.
fn color(alloc: Global, text: &[u8]) -> Result<(), Stop> {
    for word in [b"never".as_slice(), b"auto", b"always"] {
        if text == word {
            return Ok(());
        }
    }
    Err(not_supported(
        alloc,
        &[b"the value '", text, b"' of --color is not supported"],
    ))
}

/// Returns the name of an option.
fn name_of(key: Key) -> &'static str {
    match key {
        Key::Contains => "contains",
        Key::NoContains => "no-contains",
        Key::Merged => "merged",
        Key::NoMerged => "no-merged",
        Key::Format => "format",
        Key::Count => "count",
        Key::Sort => "sort",
        Key::PointsAt => "points-at",
        Key::Color => "color",
        Key::Quote(Language::Shell) => "shell",
        Key::Quote(Language::Perl) => "perl",
        Key::Quote(Language::Python) => "python",
        Key::Quote(Language::Tcl) => "tcl",
        Key::Other(name) => name,
    }
}

/// Returns the end for an option that is not supported.
fn unsupported(alloc: Global, given: Given<'_, Key>) -> Stop {
    let no = if given.is_no { "no-" } else { "" };
    let name = name_of(given.key);
    not_supported(
        alloc,
        &[
            b"the option '--",
            no.as_bytes(),
            name.as_bytes(),
            b"' is not supported",
        ],
    )
}

impl<'w> Asked<'w> {
    /// Notes an option. A commit that it names is looked up at once, as in git.
    fn note(&mut self, session: &mut Session<'_>, given: Given<'w, Key>) -> Result<(), Stop> {
        if given.is_no {
            return self.take_back(session.alloc, given);
        }
        let value = given.value;
        let commit = value.unwrap_or(b"HEAD");
        match given.key {
            Key::Contains => self.filter.contains.push(contained(session, commit)?)?,
            Key::NoContains => self.filter.no_contains.push(contained(session, commit)?)?,
            Key::Merged => self.filter.merged.push(merged(session, commit)?)?,
            Key::NoMerged => self.filter.no_merged.push(merged(session, commit)?)?,
            Key::Format => self.format = value.unwrap_or(b""),
            Key::Count => self.count = count(session.alloc, value.unwrap_or(b""))?,
            Key::Sort => self.keys.push(sort_key(session, value.unwrap_or(b""))?)?,
            Key::PointsAt => self
                .filter
                .points_at
                .push(object(session, value.unwrap_or(b""))?)?,
            Key::Color => color(session.alloc, value.unwrap_or(b"always"))?,
            Key::Quote(language) => self.note_language(session.alloc, language)?,
            Key::Other(_) => return Err(unsupported(session.alloc, given)),
        }
        Ok(())
    }

    /// Notes the language of strings, of which there is one at most.
    fn note_language(&mut self, alloc: Global, language: Language) -> Result<(), Stop> {
        if self.language.is_some_and(|other| other != language) {
            return Err(not_supported(alloc, &[b"strings of two languages are not supported"]));
        }
        self.language = Some(language);
        Ok(())
    }

    /// Notes an option of the form `--no-NAME`.
    fn take_back(&mut self, alloc: Global, given: Given<'_, Key>) -> Result<(), Stop> {
        match given.key {
            Key::Count => self.count = 0,
            Key::Sort => self.keys.clear(),
            Key::PointsAt => self.filter.points_at.clear(),
            Key::Color => {}
            Key::Quote(language) => {
                if self.language == Some(language) {
                    self.language = None;
                }
            }
            _ => return Err(unsupported(alloc, given)),
        }
        Ok(())
    }

    /// Notes a pattern. An empty one is not supported.
    fn note_pattern(&mut self, alloc: Global, pattern: &'w [u8]) -> Result<(), Stop> {
        if pattern.is_empty() {
            return Err(not_supported(alloc, &[b"an empty pattern is not supported"]));
        }
        self.patterns.push(pattern)?;
        Ok(())
    }

    /// Reads the words behind `for-each-ref`.
    fn read(session: &mut Session<'_>, words: &'w [&'w [u8]]) -> Result<Asked<'w>, Stop> {
        let alloc = session.alloc;
        let mut asked = Asked {
            filter: Filter::new(alloc),
            format: FORMAT,
            language: None,
            count: 0,
            keys: Vec::new(alloc),
            patterns: Vec::new(alloc),
        };
        let mut reader = Reader::new(&CHOICES, words);
        for _ in 0..usize::MAX {
            match next_item(alloc, &mut reader)? {
                Some(Item::Option(given)) => asked.note(session, given)?,
                Some(Item::Argument(text)) => asked.note_pattern(alloc, text)?,
                None => break,
            }
        }
        Ok(asked)
    }
}

/// Returns how many references are printed at most.
fn most(alloc: Global, count: i32) -> Result<usize, Stop> {
    match usize::try_from(count) {
        Ok(0) => Ok(usize::MAX),
        Ok(count) => Ok(count),
        Err(_) => Err(not_supported(alloc, &[b"a negative number of --count is not supported"])),
    }
}

/// Answers `for-each-ref`, and returns the status.
pub fn for_each_ref(session: &mut Session<'_>, words: &[&[u8]]) -> Result<u8, Stop> {
    let asked = Asked::read(session, words)?;
    let most = most(session.alloc, asked.count)?;
    let format = read_format(session, asked.format)?;
    let mut candidates = list_wanted(session, &asked.patterns)?;
    apply(session, &asked.filter, &mut candidates)?;
    let printing = Printing {
        format: &format,
        keys: &asked.keys,
        language: asked.language,
        most,
    };
    print_references(session, printing, &mut candidates)?;
    Ok(0)
}
