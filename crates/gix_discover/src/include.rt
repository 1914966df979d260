//! Reads config files with the files that they include (git-config, "Includes").
//!
//! # Algorithm
//!
//! 1. For the settings, read all config files in git's order. The settings of an included file are
//!    put before the settings that wait, so that no call recurses.
//! 2. `gix_config` makes a list of names and values of the text of each file (`text.rt`). A name is
//!    one text, such as `branch.main.remote`. Look-ups compare it as a whole (`name.rt`).

use crate::command_line;
use crate::environment::{Environment, Variable};
use crate::error::{DiscoverError, Reason, about};
use crate::head::branch;
use crate::paths::{absolute, folder_of, is_absolute, joined, resolved, within};
use crate::places::Places;
use crate::source::{read_file, reason_of};
use crate::wildmatch::{Rules, is_match};
use gix_config::{Entry, ParseError, entries, is_name};
use std::alloc::Allocator;

/// How deep files include one another at most, as in git.
const MOST_LEVELS: u32 = 10;

/// Is what the conditions of `includeIf` ask of: the folders of the repository, if it is known.
#[derive(Clone, Copy)]
pub(crate) struct Known<'a> {
    pub(crate) git_dir: &'a [u8],
    pub(crate) common_dir: &'a [u8],
}

/// Is a setting that may include a file, with the number of its own file and its level.
#[derive(Drop)]
struct Pending<A: Allocator> {
    entry: Entry<A>,
    file: Option<usize>,
    level: u32,
}

/// Has the settings that were read, and those that wait, the next one last.
#[derive(Drop)]
pub(crate) struct Reading<A: Allocator> {
    paths: Vec<Vec<u8, A>, A>,
    pending: Vec<Pending<A>, A>,
    done: Vec<Entry<A>, A>,
}

/// Says how to read config files.
#[derive_where(Clone, Copy)]
pub(crate) struct Reader<'a, F: Places, A: Allocator + Copy> {
    pub(crate) alloc: A,
    pub(crate) files: &'a F,
    pub(crate) environment: &'a Environment<A>,
    pub(crate) known: Option<Known<'a>>,
}

impl<A: Allocator + Copy> Reading<A> {
    /// Returns the start: nothing is read.
    pub(crate) fn new(alloc: A) -> Reading<A> {
        Reading {
            paths: Vec::new(alloc),
            pending: Vec::new(alloc),
            done: Vec::new(alloc),
        }
    }

    /// Returns the path of the file with a number, if there is one.
    fn path(&self, file: Option<usize>) -> Option<&[u8]> {
        match file {
            Some(number) => match self.paths.get(number) {
                Some(path) => Some(path.as_slice()),
                None => None,
            },
            None => None,
        }
    }

    /// Returns the settings that were read.
    pub(crate) fn into_entries(self) -> Vec<Entry<A>, A> {
        let Reading {
            paths: _,
            pending: _,
            done,
        } = self;
        done
    }

    /// Puts settings before those that wait.
    fn put(
        &mut self,
        mut list: Vec<Entry<A>, A>,
        file: Option<usize>,
        level: u32,
    ) -> Result<(), DiscoverError<A>> {
        for _ in 0..list.len() {
            if let Some(entry) = list.pop() {
                self.pending.push(Pending { entry, file, level })?;
            }
        }
        Ok(())
    }
}

/// Returns what follows a prefix in the subsection of an `includeIf`.
fn condition<'a>(name: &'a [u8]) -> Option<&'a [u8]> {
    name.strip_prefix(b"includeif.")?.strip_suffix(b".path")
}

/// Returns a pattern for a folder and all below it, if the text ends with a slash.
fn add_stars<A: Allocator + Copy>(pattern: &mut Vec<u8, A>) -> Result<(), DiscoverError<A>> {
    if pattern.ends_with(b"/") {
        pattern.extend_from_slice(b"**")?;
    }
    Ok(())
}

impl<'a, F: Places, A: Allocator + Copy> Reader<'a, F, A> {
    /// Reads a file, and puts its settings before those that wait. A missing file has none.
    fn open(
        &self,
        reading: &mut Reading<A>,
        path: Vec<u8, A>,
        level: u32,
    ) -> Result<(), DiscoverError<A>> {
        let mut text = Vec::new(self.alloc);
        if !read_file(self.alloc, self.files, &path, &mut text)? {
            return Ok(());
        }
        let list = match entries(self.alloc, &text) {
            Ok(list) => list,
            Err(ParseError::OutOfMemory) => return Err(DiscoverError::from(Reason::OutOfMemory)),
            Err(ParseError::BadLine(line)) => {
                return Err(about(self.alloc, Reason::BadConfigLine(line), &path));
            }
        };
        let file = reading.paths.len();
        reading.paths.push(path)?;
        reading.put(list, Some(file), level)
    }

    /// Returns a path with the home folder in place of `~`; `None` if there is none.
    fn expanded(&self, path: &[u8]) -> Result<Option<Vec<u8, A>>, DiscoverError<A>> {
        match path {
            [b'~'] | [b'~', b'/', ..] => match self.environment.get(Variable::Home) {
                Some(home) => {
                    let rest = path.get(1..).unwrap_or(&[]);
                    Ok(Some(joined(self.alloc, home, b"", rest)?))
                }
                None => Ok(None),
            },
            [b'~', ..] => Ok(None),
            [
                b'%',
                b'(',
                b'p',
                b'r',
                b'e',
                b'f',
                b'i',
                b'x',
                b')',
                b'/',
                ..
            ] => Ok(None),
            _ => Ok(Some(path.to_vec(self.alloc)?)),
        }
    }

    /// Returns the path of the file that a setting includes.
    fn included(&self, value: &[u8], own: Option<&[u8]>) -> Result<Vec<u8, A>, DiscoverError<A>> {
        let Some(path) = self.expanded(value)? else {
            return Err(about(self.alloc, Reason::UnexpandedInclude, value));
        };
        if is_absolute(&path) {
            return Ok(path);
        }
        match own {
            Some(own) => Ok(resolved(self.alloc, folder_of(own), &path)?),
            None => Err(about(self.alloc, Reason::RelativeInclude, value)),
        }
    }

    /// Returns the path of a folder without symbolic links; `None` if there is no such folder.
    fn real(&self, path: &[u8]) -> Result<Option<Vec<u8, A>>, DiscoverError<A>> {
        let mut real = Vec::new(self.alloc);
        match self.files.real_path(path, &mut real) {
            Ok(true) => Ok(Some(real)),
            Ok(false) => Ok(None),
            Err(error) => Err(about(self.alloc, reason_of(error), path)),
        }
    }

    /// Adds the pattern of a `gitdir:` to `pattern`. Returns how many of its bytes are literal.
    ///
    /// Returns `None` if the pattern cannot be made.
    fn add_folder_pattern(
        &self,
        text: &[u8],
        own: Option<&[u8]>,
        pattern: &mut Vec<u8, A>,
    ) -> Result<Option<usize>, DiscoverError<A>> {
        let mut literal = 0usize;
        match text {
            [b'.', b'/', ..] => {
                let Some(own) = own else {
                    return Ok(None);
                };
                let Some(folder) = self.real(within(self.alloc, folder_of(own), b".")?.as_slice())?
                else {
                    return Ok(None);
                };
                literal = folder.len().saturating_add(1);
                pattern.extend_from_slice(&folder)?;
                pattern.extend_from_slice(text.get(1..).unwrap_or(&[]))?;
            }
            _ => {
                let home = self.expanded_home(text)?;
                if !is_absolute(&home) {
                    pattern.extend_from_slice(b"**/")?;
                }
                pattern.extend_from_slice(&home)?;
            }
        }
        add_stars(pattern)?;
        Ok(Some(literal))
    }

    /// Returns a pattern with the real path of the home folder in place of `~`.
    fn expanded_home(&self, text: &[u8]) -> Result<Vec<u8, A>, DiscoverError<A>> {
        if let ([b'~'] | [b'~', b'/', ..], Some(home)) = (
            text,
            self.environment.get(Variable::Home),
        ) {
            if let Some(real) = self.real(home)? {
                return Ok(joined(self.alloc, &real, b"", text.get(1..).unwrap_or(&[]))?);
            }
        }
        Ok(text.to_vec(self.alloc)?)
    }

    /// Tells whether a path matches a pattern of which the first bytes are literal.
    fn is_folder_match(
        &self,
        pattern: &[u8],
        literal: usize,
        path: &[u8],
        ignores_case: bool,
    ) -> Result<bool, DiscoverError<A>> {
        let (Some(own), Some(front)) = (pattern.get(..literal), path.get(..literal)) else {
            return Ok(false);
        };
        if own != front && !(ignores_case && own.eq_ignore_ascii_case(front)) {
            return Ok(false);
        }
        let pattern = pattern.get(literal..).unwrap_or(&[]);
        let path = path.get(literal..).unwrap_or(&[]);
        let rules = Rules {
            ignores_case,
            is_path: true,
        };
        Ok(is_match(self.alloc, pattern, path, rules)?)
    }

    /// Tells whether a condition `gitdir:` holds.
    fn is_in_folder(
        &self,
        text: &[u8],
        own: Option<&[u8]>,
        ignores_case: bool,
    ) -> Result<bool, DiscoverError<A>> {
        let Some(known) = self.known else {
            return Ok(false);
        };
        let mut pattern = Vec::new(self.alloc);
        let Some(literal) = self.add_folder_pattern(text, own, &mut pattern)? else {
            return Ok(false);
        };
        if let Some(real) = self.real(known.git_dir)? {
            if self.is_folder_match(&pattern, literal, &real, ignores_case)? {
                return Ok(true);
            }
        }
        let path = absolute(self.alloc, self.environment.folder(), known.git_dir)?;
        self.is_folder_match(&pattern, literal, &path, ignores_case)
    }

    /// Tells whether a condition `onbranch:` holds.
    fn is_on_branch(&self, text: &[u8]) -> Result<bool, DiscoverError<A>> {
        let Some(known) = self.known else {
            return Ok(false);
        };
        let Some(name) = branch(self.alloc, self.files, known.git_dir, known.common_dir)? else {
            return Ok(false);
        };
        let mut pattern = text.to_vec(self.alloc)?;
        add_stars(&mut pattern)?;
        let rules = Rules {
            ignores_case: false,
            is_path: true,
        };
        Ok(is_match(self.alloc, &pattern, &name, rules)?)
    }

    /// Tells whether a condition of `includeIf` holds. One that git does not know never holds.
    fn holds(&self, text: &[u8], own: Option<&[u8]>) -> Result<bool, DiscoverError<A>> {
        if let Some(pattern) = text.strip_prefix(b"gitdir:") {
            return self.is_in_folder(pattern, own, false);
        }
        if let Some(pattern) = text.strip_prefix(b"gitdir/i:") {
            return self.is_in_folder(pattern, own, true);
        }
        if let Some(pattern) = text.strip_prefix(b"onbranch:") {
            return self.is_on_branch(pattern);
        }
        if text.starts_with(b"hasconfig:remote.*.url:") {
            return Err(about(self.alloc, Reason::HasConfig, text));
        }
        Ok(false)
    }

    /// Tells whether a setting includes a file.
    fn includes(&self, name: &[u8], own: Option<&[u8]>) -> Result<bool, DiscoverError<A>> {
        if is_name(name, b"include", None, b"path") {
            return Ok(true);
        }
        match condition(name) {
            Some(text) => self.holds(text, own),
            None => Ok(false),
        }
    }

    /// Returns the path of the file that a setting includes; `None` if it includes none.
    fn wanted(
        &self,
        entry: &Entry<A>,
        own: Option<&[u8]>,
        level: u32,
    ) -> Result<Option<Vec<u8, A>>, DiscoverError<A>> {
        if !self.includes(&entry.name, own)? {
            return Ok(None);
        }
        let Some(value) = &entry.value else {
            return Err(about(self.alloc, Reason::MissingValue, &entry.name));
        };
        let path = self.included(value, own)?;
        if level >= MOST_LEVELS {
            return Err(about(self.alloc, Reason::IncludeDepth, &path));
        }
        Ok(Some(path))
    }

    /// Takes a setting, and puts those of the file that it includes before those that wait.
    fn take(&self, reading: &mut Reading<A>, next: Pending<A>) -> Result<(), DiscoverError<A>> {
        let Pending { entry, file, level } = next;
        if let Some(path) = self.wanted(&entry, reading.path(file), level)? {
            self.open(reading, path, level.saturating_add(1))?;
        }
        reading.done.push(entry)?;
        Ok(())
    }

    /// Takes all settings that wait.
    fn take_all(&self, reading: &mut Reading<A>) -> Result<(), DiscoverError<A>> {
        for _ in 0..u64::MAX {
            match reading.pending.pop() {
                Some(next) => self.take(reading, next)?,
                None => break,
            }
        }
        Ok(())
    }

    /// Reads a config file with what it includes. A missing file has no settings.
    pub(crate) fn read(
        &self,
        reading: &mut Reading<A>,
        path: Vec<u8, A>,
    ) -> Result<(), DiscoverError<A>> {
        self.open(reading, path, 0)?;
        self.take_all(reading)
    }

    /// Returns the path of a config file in the home folder; `None` if there is none.
    fn in_home(&self, name: &[u8]) -> Result<Option<Vec<u8, A>>, DiscoverError<A>> {
        match self.environment.get(Variable::Home) {
            Some(home) => Ok(Some(joined(self.alloc, home, b"/", name)?)),
            None => Ok(None),
        }
    }

    /// Reads the config file of the whole system.
    fn read_system(&self, reading: &mut Reading<A>) -> Result<(), DiscoverError<A>> {
        if self.environment.is_set(Variable::ConfigNoSystem, false) {
            return Ok(());
        }
        let path = match self.environment.get(Variable::ConfigSystem) {
            Some(path) => path,
            None => b"/etc/gitconfig",
        };
        self.read(reading, path.to_vec(self.alloc)?)
    }

    /// Reads the config files of the user.
    fn read_global(&self, reading: &mut Reading<A>) -> Result<(), DiscoverError<A>> {
        if let Some(path) = self.environment.get(Variable::ConfigGlobal) {
            return self.read(reading, path.to_vec(self.alloc)?);
        }
        let path = match self.environment.get(Variable::XdgConfigHome) {
            None | Some([]) => self.in_home(b".config/git/config")?,
            Some(folder) => Some(joined(self.alloc, folder, b"/", b"git/config")?),
        };
        if let Some(path) = path {
            self.read(reading, path)?;
        }
        match self.in_home(b".gitconfig")? {
            Some(path) => self.read(reading, path),
            None => Ok(()),
        }
    }

    /// Reads the config files that no repository has a part in.
    pub(crate) fn read_shared(&self, reading: &mut Reading<A>) -> Result<(), DiscoverError<A>> {
        self.read_system(reading)?;
        self.read_global(reading)
    }

    /// Reads the settings that the environment has.
    pub(crate) fn read_command_line(
        &self,
        reading: &mut Reading<A>,
    ) -> Result<(), DiscoverError<A>> {
        let list = command_line::entries(self.alloc, self.environment)?;
        reading.put(list, None, 0)?;
        self.take_all(reading)
    }

    /// Returns the settings that no repository has a part in (git-config, "safe.directory").
    pub(crate) fn protected(&self) -> Result<Vec<Entry<A>, A>, DiscoverError<A>> {
        let mut reading = Reading::new(self.alloc);
        self.read_shared(&mut reading)?;
        self.read_command_line(&mut reading)?;
        Ok(reading.into_entries())
    }
}
