//! Reads the words of `rev-list` as git does: from left to right, each option by its exact name.

use crate::ages::{moment, seconds};
use crate::revisions::{self, Flags};
use crate::shape::{End, Shape};
use crate::starts::{Start, Starts};
use git_lists::{Order, Wishes};
use git_pretty::{Pretty, read_pretty};
use git_session::integer::{leading, whole};
use git_session::options::{add_exact, unsupported};
use git_session::session::Session;
use git_session::stop::{FATAL, Stop, fatal, not_supported};
use git_session::words::Words;
use parse_options::{Exact, Holds, Takes, exact_option};
use std::alloc::{AllocError, Global};

/// Names an option.
#[derive(Clone, Copy)]
enum Key {
    All,
    /// The references whose names have this front.
    References(&'static str),
    Glob,
    Exclude,
    Not,
    Stdin,
    EndOfOptions,
    Count,
    Sides,
    FirstParent,
    Parents,
    Reverse,
    Boundary,
    Order(Order),
    Merges,
    NoMerges,
    LeastParents,
    MostParents,
    AnyLeastParents,
    AnyMostParents,
    Only(End),
    Dates,
    Short(bool),
    Digits,
    AllDigits,
    Quiet,
    NoWalk,
    DoWalk,
    AncestryPath,
    Pretty,
    Oneline,
    Header(bool),
    Since,
    Until,
    MaxAge,
    MinAge,
    Most,
    Skip,
}

/// The options.
static OPTIONS: [Exact<Key>; 48] = [
    Exact("--all", Takes::Nothing, Key::All),
    Exact("--branches", Takes::Joined, Key::References("refs/heads/")),
    Exact("--tags", Takes::Joined, Key::References("refs/tags/")),
    Exact("--remotes", Takes::Joined, Key::References("refs/remotes/")),
    Exact("--glob", Takes::Word, Key::Glob),
    Exact("--exclude", Takes::Word, Key::Exclude),
    Exact("--not", Takes::Nothing, Key::Not),
    Exact("--stdin", Takes::Nothing, Key::Stdin),
    Exact("--end-of-options", Takes::Nothing, Key::EndOfOptions),
    Exact("--count", Takes::Nothing, Key::Count),
    Exact("--left-right", Takes::Nothing, Key::Sides),
    Exact("--first-parent", Takes::Nothing, Key::FirstParent),
    Exact("--parents", Takes::Nothing, Key::Parents),
    Exact("--reverse", Takes::Nothing, Key::Reverse),
    Exact("--boundary", Takes::Nothing, Key::Boundary),
    Exact(
        "--topo-order",
        Takes::Nothing,
        Key::Order(Order::Topological),
    ),
    Exact("--date-order", Takes::Nothing, Key::Order(Order::Dated)),
    Exact("--merges", Takes::Nothing, Key::Merges),
    Exact("--no-merges", Takes::Nothing, Key::NoMerges),
    Exact("--min-parents", Takes::Text, Key::LeastParents),
    Exact("--max-parents", Takes::Text, Key::MostParents),
    Exact("--no-min-parents", Takes::Nothing, Key::AnyLeastParents),
    Exact("--no-max-parents", Takes::Nothing, Key::AnyMostParents),
    Exact("--left-only", Takes::Nothing, Key::Only(End::Left)),
    Exact("--right-only", Takes::Nothing, Key::Only(End::Right)),
    Exact("--timestamp", Takes::Nothing, Key::Dates),
    Exact("--abbrev-commit", Takes::Nothing, Key::Short(true)),
    Exact("--no-abbrev-commit", Takes::Nothing, Key::Short(false)),
    Exact("--abbrev", Takes::Joined, Key::Digits),
    Exact("--no-abbrev", Takes::Nothing, Key::AllDigits),
    Exact("--quiet", Takes::Nothing, Key::Quiet),
    Exact("--no-walk", Takes::Joined, Key::NoWalk),
    Exact("--do-walk", Takes::Nothing, Key::DoWalk),
    Exact("--ancestry-path", Takes::Nothing, Key::AncestryPath),
    Exact("--pretty", Takes::Text, Key::Pretty),
    Exact("--format", Takes::Text, Key::Pretty),
    Exact("--oneline", Takes::Nothing, Key::Oneline),
    Exact("--commit-header", Takes::Nothing, Key::Header(true)),
    Exact("--no-commit-header", Takes::Nothing, Key::Header(false)),
    Exact("--since", Takes::Word, Key::Since),
    Exact("--after", Takes::Word, Key::Since),
    Exact("--max-age", Takes::Word, Key::MaxAge),
    Exact("--until", Takes::Word, Key::Until),
    Exact("--before", Takes::Word, Key::Until),
    Exact("--min-age", Takes::Word, Key::MinAge),
    Exact("--max-count", Takes::Word, Key::Most),
    Exact("-n", Takes::Glued, Key::Most),
    Exact("--skip", Takes::Word, Key::Skip),
];

/// Adds the options to a text, each on a line.
pub(crate) fn add_options(text: &mut Vec<u8>) -> Result<(), AllocError> {
    for option in OPTIONS.iter() {
        add_exact(text, option)?;
    }
    text.extend_from_slice(b"    -NUMBER\n")?;
    Ok(())
}

/// Returns the number with which a text begins; a negative one as `None` of the inner option.
///
/// # Errors
///
/// `NotSupported` for a number that does not fit 32 bits: git wraps it.
fn leading_number(alloc: Global, text: &[u8]) -> Result<Option<usize>, Stop> {
    match leading(text) {
        Some(number) => Ok(usize::try_from(number).ok()),
        None => Err(not_supported(alloc, &[b"the number '", text, b"' is not supported"])),
    }
}

/// Returns the number of a text of digits alone; `None` if there is another byte, or if 31 bits do
/// not hold it.
fn whole_number(digits: &[u8]) -> Option<usize> {
    let number = i32::try_from(whole(digits)?).ok()?;
    usize::try_from(number).ok()
}

/// The number of digits of a whole id.
const ID_DIGITS: usize = 40;

/// Returns the least number of digits that `--abbrev` asks for; `None` for that of the setting.
///
/// # Errors
///
/// `NotSupported` for another text than digits, which git reads in part.
fn digits(alloc: Global, value: Option<&[u8]>) -> Result<Option<usize>, Stop> {
    let Some(text) = value else {
        return Ok(None);
    };
    match whole_number(text) {
        Some(number) => Ok(Some(number.clamp(4, ID_DIGITS))),
        None => Err(not_supported(alloc, &[b"the number '", text, b"' is not supported"])),
    }
}

/// What was read of the words.
#[derive(Drop)]
pub(crate) struct Scan<'w> {
    /// The words that are left.
    words: Words<'w>,
    pub(crate) wishes: Wishes,
    pub(crate) shape: Shape,
    pub(crate) pretty: Pretty,
    pub(crate) starts: Starts,
    /// Says how the next revision is read.
    flags: Flags,
    /// Tells whether `--end-of-options` was read.
    is_after_options: bool,
    /// Tells whether revisions were asked for, if only by an option that found none.
    has_revisions: bool,
    has_read_input: bool,
}

impl<'w> Scan<'w> {
    /// Tells whether the id of each commit is printed. Only a format can leave it out.
    pub(crate) fn has_header(&self) -> bool {
        self.shape.has_header || !matches!(self.pretty, Pretty::Format(_))
    }

    /// Takes the next word.
    fn take(&mut self) -> Option<&'w [u8]> {
        self.words.take()
    }

    /// Notes an option that says what is printed.
    fn note_wish(&mut self, key: Key) {
        match key {
            Key::Count => self.wishes.counts = true,
            Key::Sides => self.wishes.has_sides = true,
            Key::FirstParent => self.wishes.is_first_parent = true,
            Key::Parents => self.shape.has_parents = true,
            Key::Reverse => self.shape.is_reversed = !self.shape.is_reversed,
            Key::Boundary => self.wishes.has_boundary = true,
            Key::Order(order) => self.wishes.order = order,
            Key::Merges => self.wishes.least_parents = 2,
            Key::NoMerges => self.wishes.most_parents = 1,
            Key::AnyLeastParents => self.wishes.least_parents = 0,
            Key::AnyMostParents => self.wishes.most_parents = usize::MAX,
            Key::Dates => self.shape.has_dates = true,
            Key::Short(is_short) => self.shape.is_short = is_short,
            Key::AllDigits => self.shape.digits = Some(ID_DIGITS),
            Key::Quiet => self.shape.is_quiet = true,
            Key::DoWalk => self.wishes.is_walked = true,
            Key::AncestryPath => self.wishes.is_on_path = true,
            Key::Header(has_header) => self.shape.has_header = has_header,
            Key::Oneline => {
                self.pretty = Pretty::Oneline;
                self.shape.is_short = true;
            }
            Key::Not => self.flags.is_turned = !self.flags.is_turned,
            Key::EndOfOptions => self.is_after_options = true,
            _ => {}
        }
    }

    /// Notes an option and its value, if it has one.
    fn note_key(
        &mut self,
        session: &mut Session<'_>,
        key: Key,
        value: Option<&'w [u8]>,
    ) -> Result<(), Stop> {
        let is_excluded = self.flags.is_turned;
        let number = value.unwrap_or(&[]);
        match key {
            Key::All => {
                self.has_revisions = true;
                return self.starts.add_all(session, is_excluded);
            }
            Key::References(front) => {
                self.has_revisions = true;
                return self
                    .starts
                    .add_references(session, front, value, is_excluded);
            }
            Key::Glob => {
                self.has_revisions = true;
                let pattern = number.strip_prefix(b"refs/").unwrap_or(number);
                return self
                    .starts
                    .add_references(session, "refs/", Some(pattern), is_excluded);
            }
            Key::Exclude => self.starts.hide(number)?,
            Key::NoWalk => return self.note_no_walk(session.alloc, value),
            Key::Pretty => self.pretty = read_pretty(session.alloc, number)?,
            Key::Since => self.wishes.since = Some(moment(session, number)?),
            Key::Until => self.wishes.until = Some(moment(session, number)?),
            Key::MaxAge => self.wishes.since = Some(seconds(session.alloc, number)?),
            Key::MinAge => self.wishes.until = Some(seconds(session.alloc, number)?),
            Key::Stdin => return self.note_input(session),
            Key::Most => {
                let most = leading_number(session.alloc, number)?;
                self.note_most(most);
            }
            Key::Skip => self.wishes.skip = leading_number(session.alloc, number)?.unwrap_or(0),
            Key::LeastParents => {
                self.wishes.least_parents = leading_number(session.alloc, number)?.unwrap_or(0);
            }
            Key::MostParents => {
                let most = leading_number(session.alloc, number)?;
                self.wishes.most_parents = most.unwrap_or(usize::MAX);
            }
            Key::Digits => self.shape.digits = digits(session.alloc, value)?,
            Key::Only(end) => return self.note_end(session.alloc, end),
            key => self.note_wish(key),
        }
        Ok(())
    }

    /// Notes that only the revisions themselves are wanted, perhaps with a word for their order.
    fn note_no_walk(&mut self, alloc: Global, order: Option<&[u8]>) -> Result<(), Stop> {
        if let Some(word) = order {
            self.wishes.is_sorted = word == b"sorted".as_slice();
            if !self.wishes.is_sorted && word != b"unsorted".as_slice() {
                return Err(not_supported(
                    alloc,
                    &[b"the order '", word, b"' of --no-walk is not supported"],
                ));
            }
        }
        self.wishes.is_walked = false;
        Ok(())
    }

    /// Notes that only one side of `A...B` is wanted.
    fn note_end(&mut self, alloc: Global, end: End) -> Result<(), Stop> {
        let texts = match (self.shape.only, end) {
            (Some(End::Right), End::Left) => ["--left-only", "--right-only"],
            (Some(End::Left), End::Right) => ["--right-only", "--left-only"],
            _ => {
                self.shape.only = Some(end);
                return Ok(());
            }
        };
        Err(fatal(
            alloc,
            &[
                b"options '",
                texts[0].as_bytes(),
                b"' and '",
                texts[1].as_bytes(),
                b"' cannot be used together",
            ],
        ))
    }

    /// Reads the revisions of standard input.
    fn note_input(&mut self, session: &mut Session<'_>) -> Result<(), Stop> {
        if self.has_read_input {
            return Err(fatal(session.alloc, &[b"--stdin given twice?"]));
        }
        self.has_read_input = true;
        self.has_revisions = true;
        revisions::read_input(session, &mut self.starts)
    }

    /// Returns the value of an option, which the next word is.
    fn next_value(&mut self, session: &mut Session<'_>, option: &[u8]) -> Result<&'w [u8], Stop> {
        if let Some(word) = self.take() {
            return Ok(word);
        }
        if option == b"-n".as_slice() {
            session.say(&[b"error: -n requires an argument"])?;
            return Err(Stop::Said(FATAL));
        }
        Err(fatal(session.alloc, &[b"Option '", option, b"' requires a value"]))
    }

    /// Returns the value of an option, if it has one.
    fn value(
        &mut self,
        session: &mut Session<'_>,
        option: &[u8],
        holds: Holds<'w>,
    ) -> Result<Option<&'w [u8]>, Stop> {
        match holds {
            Holds::Nothing => Ok(None),
            Holds::Text(text) => Ok(Some(text)),
            Holds::NextWord => Ok(Some(self.next_value(session, option)?)),
        }
    }

    /// Notes how many commits are wanted. As in git, this takes `--no-walk` back.
    fn note_most(&mut self, most: Option<usize>) {
        self.wishes.most = most;
        self.wishes.is_walked = true;
    }

    /// Notes the number of an option such as `-3`.
    fn note_digits(&mut self, alloc: Global, digits: &[u8]) -> Result<(), Stop> {
        match whole_number(digits) {
            Some(number) => {
                self.note_most(Some(number));
                Ok(())
            }
            None => Err(fatal(alloc, &[b"'", digits, b"': not a non-negative integer"])),
        }
    }

    /// Reads an option.
    fn note_option(&mut self, session: &mut Session<'_>, word: &'w [u8]) -> Result<(), Stop> {
        if let Some((key, holds)) = exact_option(&OPTIONS, word) {
            let value = self.value(session, word, holds)?;
            return self.note_key(session, key, value);
        }
        match word.strip_prefix(b"-") {
            Some(digits) if digits.first().is_some_and(|b| b.is_ascii_digit()) => {
                self.note_digits(session.alloc, digits)
            }
            _ => Err(unsupported(session.alloc, word)),
        }
    }

    /// Reads a word.
    fn note(&mut self, session: &mut Session<'_>, word: &'w [u8]) -> Result<(), Stop> {
        if !self.is_after_options && word.starts_with(b"-") {
            return self.note_option(session, word);
        }
        self.has_revisions = true;
        revisions::read(session, self.flags, word, &mut self.starts)
    }
}

/// Returns the words before `--`, and whether it is there.
///
/// # Errors
///
/// `NotSupported` if a path is behind it.
fn before_dashes<'w>(alloc: Global, words: &'w [&'w [u8]]) -> Result<(&'w [&'w [u8]], bool), Stop> {
    let Some(at) = words.iter().position(|word| *word == b"--".as_slice()) else {
        return Ok((words, false));
    };
    if at.saturating_add(1) < words.len() {
        return Err(not_supported(alloc, &[b"paths are not supported"]));
    }
    Ok((words.get(..at).unwrap_or(&[]), true))
}

/// Reads the words behind `rev-list`.
///
/// # Errors
///
/// - `Fatal` and `Said` as git ends.
/// - `NotSupported` for other options, for paths, and if there are no revisions.
pub(crate) fn read<'w>(session: &mut Session<'_>, words: &'w [&'w [u8]]) -> Result<Scan<'w>, Stop> {
    let (words, has_dashes) = before_dashes(session.alloc, words)?;
    let mut scan = Scan {
        words: Words::new(words),
        wishes: Wishes::new(),
        shape: Shape::new(),
        pretty: Pretty::Nothing,
        starts: Starts::new(session.alloc),
        flags: Flags {
            is_turned: false,
            is_no_file: has_dashes,
        },
        is_after_options: false,
        has_revisions: false,
        has_read_input: false,
    };
    for _ in 0..usize::MAX {
        let Some(word) = scan.take() else {
            break;
        };
        scan.note(session, word)?;
    }
    if !scan.has_revisions {
        return Err(not_supported(session.alloc, &[b"no revision is given"]));
    }
    Ok(scan)
}
