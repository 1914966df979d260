//! Reads the options of `rev-parse`, which git reads word by word.

use git_revisions::ranges::Tip;
use git_session::integer::leading;
use git_session::options::{add_exact, unsupported};
use git_session::stop::{Stop, fatal, not_supported};
use git_session::words::Words;
use parse_options::{Exact, Holds, Takes, exact_option};
use std::alloc::{AllocError, Global};

/// Says what the next word may be.
#[derive(Clone, Copy, PartialEq, Eq)]
pub(super) enum Place {
    /// An option or a revision.
    Revisions,
    /// The name of a file.
    Files,
    /// Any word: it stands behind `--`.
    BehindDashes,
}

/// Says which words are printed (git-rev-parse, "Options for Filtering").
#[derive(Clone, Copy)]
pub(super) struct Filter {
    pub(super) revisions: bool,
    others: bool,
    flags: bool,
    arguments: bool,
}

impl Filter {
    /// Returns whether words are printed that are no revisions.
    pub(super) fn shows_files(self) -> bool {
        self.arguments && self.others
    }

    /// Returns whether `--` and `--end-of-options` are printed as files are.
    pub(super) fn shows_separators(self) -> bool {
        self.flags || self.revisions
    }

    /// Leaves only revisions.
    fn verify(&mut self) {
        self.flags = false;
        self.others = false;
    }
}

/// Says whether names are printed in the place of ids.
#[derive(Clone, Copy, PartialEq, Eq)]
pub(super) enum Symbolic {
    /// Ids are printed.
    No,
    /// Names are printed as they were written.
    AsWritten,
    /// The full names of references are printed.
    Full,
}

/// Says how many digits of an id are printed.
#[derive(Clone, Copy)]
pub(super) enum Digits {
    /// All are printed.
    All,
    /// As many as are unique, and as many as the setting says at least.
    Usual,
    /// As many as are unique, and this many at least.
    AtLeast(usize),
}

/// Names a fact about the repository that is printed (git-rev-parse, "Options for Files").
#[derive(Clone, Copy)]
pub(super) enum Fact {
    GitDir,
    AbsoluteGitDir,
    /// The folder that all worktrees share.
    CommonDir,
    /// The top of the work tree.
    TopLevel,
    /// The way up to the top of the work tree.
    WayUp,
    /// The way down from the top of the work tree.
    Prefix,
    /// The path of a file of the git folder. Its name is the next word.
    GitPath,
    IsInsideWorkTree,
    IsInsideGitDir,
    IsBare,
    IsShallow,
    ObjectFormat,
}

/// Names an option.
#[derive(Clone, Copy)]
enum Key {
    Tell(Fact),
    PathFormat,
    ObjectFormat,
    Default,
    RevsOnly,
    NoRevs,
    Flags,
    NoFlags,
    Verify,
    Quiet,
    Sq,
    Not,
    Symbolic,
    SymbolicFullName,
    EndOfOptions,
    Short,
    AbbrevRef,
}

/// The options.
static OPTIONS: [Exact<Key>; 28] = [
    Exact("--default", Takes::NextWord, Key::Default),
    Exact("--revs-only", Takes::Nothing, Key::RevsOnly),
    Exact("--no-revs", Takes::Nothing, Key::NoRevs),
    Exact("--flags", Takes::Nothing, Key::Flags),
    Exact("--no-flags", Takes::Nothing, Key::NoFlags),
    Exact("--verify", Takes::Nothing, Key::Verify),
    Exact("--quiet", Takes::Nothing, Key::Quiet),
    Exact("-q", Takes::Nothing, Key::Quiet),
    Exact("--sq", Takes::Nothing, Key::Sq),
    Exact("--not", Takes::Nothing, Key::Not),
    Exact("--symbolic", Takes::Nothing, Key::Symbolic),
    Exact(
        "--symbolic-full-name",
        Takes::Nothing,
        Key::SymbolicFullName,
    ),
    Exact("--end-of-options", Takes::Nothing, Key::EndOfOptions),
    Exact("--short", Takes::Joined, Key::Short),
    Exact("--abbrev-ref", Takes::Joined, Key::AbbrevRef),
    Exact("--git-dir", Takes::Nothing, Key::Tell(Fact::GitDir)),
    Exact(
        "--absolute-git-dir",
        Takes::Nothing,
        Key::Tell(Fact::AbsoluteGitDir),
    ),
    Exact(
        "--git-common-dir",
        Takes::Nothing,
        Key::Tell(Fact::CommonDir),
    ),
    Exact("--show-toplevel", Takes::Nothing, Key::Tell(Fact::TopLevel)),
    Exact("--show-cdup", Takes::Nothing, Key::Tell(Fact::WayUp)),
    Exact("--show-prefix", Takes::Nothing, Key::Tell(Fact::Prefix)),
    Exact("--git-path", Takes::NextWord, Key::Tell(Fact::GitPath)),
    Exact(
        "--is-inside-work-tree",
        Takes::Nothing,
        Key::Tell(Fact::IsInsideWorkTree),
    ),
    Exact(
        "--is-inside-git-dir",
        Takes::Nothing,
        Key::Tell(Fact::IsInsideGitDir),
    ),
    Exact(
        "--is-bare-repository",
        Takes::Nothing,
        Key::Tell(Fact::IsBare),
    ),
    Exact(
        "--is-shallow-repository",
        Takes::Nothing,
        Key::Tell(Fact::IsShallow),
    ),
    Exact("--show-object-format", Takes::Joined, Key::ObjectFormat),
    Exact("--path-format", Takes::Joined, Key::PathFormat),
];

/// Adds the options of `rev-parse` to a text, each on a line.
pub fn add_options(text: &mut Vec<u8>) -> Result<(), AllocError> {
    for option in OPTIONS.iter() {
        add_exact(text, option)?;
    }
    Ok(())
}

/// Returns the number with which a text begins, as C reads it; 0 if it is negative.
///
/// # Errors
///
/// `NotSupported` for a number that does not fit 32 bits.
fn leading_number(alloc: Global, text: &[u8]) -> Result<usize, Stop> {
    match leading(text) {
        Some(number) => Ok(usize::try_from(number).unwrap_or(0)),
        None => Err(not_supported(alloc, &[b"the number '", text, b"' is not supported"])),
    }
}

/// Returns the fact that `--show-object-format` asks for.
fn object_format(alloc: Global, holds: Holds<'_>) -> Result<Fact, Stop> {
    let text = match holds {
        Holds::Text(text) => text,
        Holds::Nothing | Holds::NextWord => b"storage",
    };
    for format in [b"storage".as_slice(), b"input", b"output"] {
        if text == format {
            return Ok(Fact::ObjectFormat);
        }
    }
    Err(fatal(alloc, &[b"unknown mode for --show-object-format: ", text]))
}

/// What the words ask for so far.
#[derive(Clone, Copy)]
pub(super) struct Asked<'w> {
    /// The words that are not read yet.
    words: Words<'w>,
    /// Tells whether `--` is among the words.
    pub(super) has_dashes: bool,
    pub(super) place: Place,
    /// Tells whether `--end-of-options` was read.
    pub(super) has_ended_options: bool,
    pub(super) filter: Filter,
    /// Tells whether exactly one revision is wanted.
    pub(super) is_verify: bool,
    pub(super) is_quiet: bool,
    /// Tells whether `^` is put before what is not excluded.
    pub(super) is_turned: bool,
    /// Tells whether words are quoted for a shell.
    pub(super) is_quoted: bool,
    pub(super) symbolic: Symbolic,
    /// Tells whether the short names of references are printed, and whether they are to be
    /// unambiguous; `None` in the latter if the setting decides.
    pub(super) short_names: Option<Option<bool>>,
    pub(super) digits: Digits,
    /// Tells whether paths are printed absolute.
    pub(super) is_absolute: bool,
    /// The revision that is printed if there is no other.
    pub(super) default: Option<&'w [u8]>,
    /// Counts the revisions of which one is wanted.
    count: usize,
    /// The last of them.
    last: Option<Tip<'w>>,
}

impl<'w> Asked<'w> {
    /// Returns what is asked for before a word is read.
    pub(super) fn new(words: &'w [&'w [u8]]) -> Asked<'w> {
        Asked {
            words: Words::new(words),
            has_dashes: words.iter().any(|word| *word == b"--".as_slice()),
            place: Place::Revisions,
            has_ended_options: false,
            filter: Filter {
                revisions: true,
                others: true,
                flags: true,
                arguments: true,
            },
            is_verify: false,
            is_quiet: false,
            is_turned: false,
            is_quoted: false,
            symbolic: Symbolic::No,
            short_names: None,
            digits: Digits::All,
            is_absolute: false,
            default: None,
            count: 0,
            last: None,
        }
    }

    /// Takes the next word.
    pub(super) fn take(&mut self) -> Option<&'w [u8]> {
        self.words.take()
    }

    /// Notes a revision of which one is wanted.
    pub(super) fn note_verified(&mut self, tip: Tip<'w>) {
        self.count = self.count.saturating_add(1);
        self.last = Some(tip);
    }

    /// Returns the only revision of which one is wanted; `None` if there is not exactly one.
    pub(super) fn verified(&self) -> Option<Tip<'w>> {
        if self.count == 1 { self.last } else { None }
    }

    /// Returns whether there is no revision yet of which one is wanted.
    pub(super) fn has_none_verified(&self) -> bool {
        self.count == 0
    }

    /// Notes that exactly one revision is wanted.
    fn want_one(&mut self) {
        self.filter.verify();
        self.is_verify = true;
    }

    /// Reads an option. Returns the fact that it asks for, if it asks for one.
    ///
    /// # Errors
    ///
    /// `NotSupported` for another option, and `Fatal` with git's message for a wrong value.
    pub(super) fn read_option(
        &mut self,
        alloc: Global,
        word: &'w [u8],
    ) -> Result<Option<Fact>, Stop> {
        match exact_option(&OPTIONS, word) {
            Some((Key::Tell(fact), _)) => Ok(Some(fact)),
            Some((Key::ObjectFormat, holds)) => Ok(Some(object_format(alloc, holds)?)),
            Some((key, holds)) => {
                self.note(alloc, key, holds)?;
                Ok(None)
            }
            None => Err(unsupported(alloc, word)),
        }
    }

    /// Notes an option, and the value that its word has.
    fn note(&mut self, alloc: Global, key: Key, holds: Holds<'w>) -> Result<(), Stop> {
        match key {
            Key::Tell(_) | Key::ObjectFormat => {}
            Key::PathFormat => return self.note_path_format(alloc, holds),
            Key::Default => return self.note_default(alloc),
            Key::RevsOnly => self.filter.others = false,
            Key::NoRevs => self.filter.revisions = false,
            Key::Flags => self.filter.arguments = false,
            Key::NoFlags => self.filter.flags = false,
            Key::Verify => self.want_one(),
            Key::Quiet => self.is_quiet = true,
            Key::Sq => self.is_quoted = true,
            Key::Not => self.is_turned = !self.is_turned,
            Key::Symbolic => self.symbolic = Symbolic::AsWritten,
            Key::SymbolicFullName => self.symbolic = Symbolic::Full,
            Key::EndOfOptions => self.has_ended_options = true,
            Key::Short => return self.note_short(alloc, holds),
            Key::AbbrevRef => return self.note_short_names(alloc, holds),
        }
        Ok(())
    }

    /// Notes `--path-format`.
    fn note_path_format(&mut self, alloc: Global, holds: Holds<'w>) -> Result<(), Stop> {
        let Holds::Text(text) = holds else {
            return Err(fatal(alloc, &[b"--path-format requires an argument"]));
        };
        if text == b"absolute".as_slice() {
            self.is_absolute = true;
            return Ok(());
        }
        if text == b"relative".as_slice() {
            return Err(not_supported(alloc, &[b"--path-format=relative is not supported"]));
        }
        Err(fatal(alloc, &[b"unknown argument to --path-format: ", text]))
    }

    /// Notes the value of `--default`, the next word.
    fn note_default(&mut self, alloc: Global) -> Result<(), Stop> {
        self.default = self.take();
        match self.default {
            Some(_) => Ok(()),
            None => Err(fatal(alloc, &[b"--default requires an argument"])),
        }
    }

    /// Notes `--short`. As in git, 4 digits are the least and 40 the most.
    fn note_short(&mut self, alloc: Global, holds: Holds<'w>) -> Result<(), Stop> {
        self.want_one();
        self.digits = match holds {
            Holds::Nothing | Holds::NextWord => Digits::Usual,
            Holds::Text(text) => Digits::AtLeast(leading_number(alloc, text)?.clamp(4, 40)),
        };
        Ok(())
    }

    /// Notes `--abbrev-ref`.
    fn note_short_names(&mut self, alloc: Global, holds: Holds<'w>) -> Result<(), Stop> {
        self.short_names = Some(match holds {
            Holds::Nothing | Holds::NextWord => None,
            Holds::Text(text) if text == b"strict".as_slice() => Some(true),
            Holds::Text(text) if text == b"loose".as_slice() => Some(false),
            Holds::Text(text) => return Err(fatal(
                alloc,
                &[b"unknown mode for --abbrev-ref: ", text],
            )),
        });
        Ok(())
    }
}
