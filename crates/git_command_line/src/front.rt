//! Reads the options that stand before the word (git, "Options").

use gix_repository::Mode;
use std::alloc::{AllocError, Global};

/// Says what the options before the word ask for.
#[derive(Drop)]
pub struct Front<'w> {
    /// The folders of `-C`, one after another.
    pub folders: Vec<&'w [u8]>,
    /// The folder of `--git-dir`.
    pub git_dir: Option<&'w [u8]>,
    /// The folder of `--work-tree`.
    pub work_tree: Option<&'w [u8]>,
    /// Which files are believed.
    pub mode: Mode,
    /// What follows.
    pub asked: Asked<'w>,
}

/// Says what is asked for behind the options before the word.
#[derive(Clone, Copy)]
pub enum Asked<'w> {
    /// A word, and the words behind it.
    Word(&'w [u8], &'w [&'w [u8]]),
    /// The help: `-h`, `--help`.
    Help,
    /// The version: `--version`.
    Version,
    /// Nothing: there is no word.
    Nothing,
    /// An option that is not supported.
    Unread(&'w [u8]),
    /// An option whose value is missing.
    NoValue(&'w [u8]),
}

/// An option that wants a value.
#[derive(Clone, Copy)]
enum Wants {
    Folder,
    GitDir,
    WorkTree,
}

/// Returns the option of a word: what it wants, and the value that is joined to it.
fn wanted(word: &[u8]) -> Option<(Wants, Option<&[u8]>)> {
    if word == b"-C".as_slice() {
        Some((Wants::Folder, None))
    } else if word == b"--git-dir".as_slice() {
        Some((Wants::GitDir, None))
    } else if word == b"--work-tree".as_slice() {
        Some((Wants::WorkTree, None))
    } else if let Some(value) = word.strip_prefix(b"--git-dir=") {
        Some((Wants::GitDir, Some(value)))
    } else {
        let value = word.strip_prefix(b"--work-tree=")?;
        Some((Wants::WorkTree, Some(value)))
    }
}

/// Returns which files are believed, if the word is an option that says so.
fn mode_of(word: &[u8]) -> Option<Mode> {
    if word == b"--authentic".as_slice() {
        Some(Mode::Authentic)
    } else if word == b"--authentic=whole".as_slice() {
        Some(Mode::Whole)
    } else {
        None
    }
}

/// Returns what a word asks for that ends the options.
fn ending<'w>(word: &'w [u8], rest: &'w [&'w [u8]]) -> Asked<'w> {
    if word == b"-h".as_slice() || word == b"--help".as_slice() {
        Asked::Help
    } else if word == b"--version".as_slice() {
        Asked::Version
    } else if word.starts_with(b"-") {
        Asked::Unread(word)
    } else {
        Asked::Word(word, rest)
    }
}

impl<'w> Front<'w> {
    /// Notes the value of an option. As in git, an empty folder of `-C` changes nothing.
    fn note(&mut self, wants: Wants, value: &'w [u8]) -> Result<(), AllocError> {
        match wants {
            Wants::Folder if value.is_empty() => {}
            Wants::Folder => self.folders.push(value)?,
            Wants::GitDir => self.git_dir = Some(value),
            Wants::WorkTree => self.work_tree = Some(value),
        }
        Ok(())
    }

    /// Reads the options before the word. The words are those behind the name of the program.
    ///
    /// # Errors
    ///
    /// Fails if an allocation failed.
    pub fn read(alloc: Global, words: &'w [&'w [u8]]) -> Result<Front<'w>, AllocError> {
        let mut front = Front {
            folders: Vec::new(alloc),
            git_dir: None,
            work_tree: None,
            mode: Mode::Usual,
            asked: Asked::Nothing,
        };
        let mut next = 0usize;
        for _ in 0..usize::MAX {
            let Some(word) = words.get(next).copied() else {
                return Ok(front);
            };
            next = next.saturating_add(1);
            let rest = words.get(next..).unwrap_or(&[]);
            if let Some(mode) = mode_of(word) {
                front.mode = mode;
                continue;
            }
            let Some((wants, joined)) = wanted(word) else {
                front.asked = ending(word, rest);
                return Ok(front);
            };
            if joined.is_none() {
                next = next.saturating_add(1);
            }
            let Some(value) = joined.or(rest.first().copied()) else {
                front.asked = Asked::NoValue(word);
                return Ok(front);
            };
            front.note(wants, value)?;
        }
        Ok(front)
    }
}
