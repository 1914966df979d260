//! Has the settings of a repository (git-config).

ghost use Rattle.std.specs.Prelude.{◌≡◌, IfOk};
ghost use Rattle.std.specs.Option.{option_map};
ghost use Rattle.gix_config.specs.Names.{name_of};
ghost use Rattle.gix_config.specs.Values.{shown, all_shown, values_of, last_value};
ghost use Rattle.gix_discover.specs.Settings.{settings_of};

use crate::environment::Environment;
use crate::error::{DiscoverError, Reason, about, about_value};
use crate::format::{boolean_of, needed};
use crate::include::{Known, Reader, Reading};
use crate::layout::Layout;
use crate::paths::within;
use crate::places::Places;
use gix_config::{Entry, all_values, is_word, number};
use std::alloc::{AllocError, Allocator, Global};

/// Says how many digits abbreviated object names have (git-config, "core.abbrev").
#[derive(Clone, Copy)]
pub enum Abbrev {
    /// As many as the number of objects asks for.
    Auto,
    /// At least so many, from 4 to 40.
    Digits(usize),
}

/// Has the settings of all config files of a repository, in git's order.
///
/// The names of sections and keys are in lower case in each call: `branch`, `pushremote`.
#[derive(Drop)]
pub struct Settings<A: Allocator + Copy = Global> {
    entries: Vec<Entry<A>, A>,
}

impl<A: Allocator + Copy> Settings<A> {
    /// Reads the settings of a repository: system, user, repository, worktree, environment.
    ///
    /// Files that they include are read at their place. A value is not checked here, but by the call
    /// that reads it.
    ///
    /// # Errors
    ///
    /// - `BadConfigLine` if git refuses a file, with the path and the number of the line.
    /// - `IncludeDepth`, `RelativeInclude`, `UnexpandedInclude` or `MissingValue` if git refuses an
    ///   include.
    /// - `HasConfig` if a condition is `hasconfig:`, which is not supported.
    /// - `BadConfigCount`, `MissingConfigKey`, `MissingConfigValue`, `BadConfigParameters` or
    ///   `BadConfigKey` if git refuses settings from the environment.
    /// - `NotUtf8` or `Failed` if a file cannot be read.
    /// - `OutOfMemory` if an allocation failed.
    pub fn read<F: Places>(
        alloc: A,
        files: &F,
        environment: &Environment<A>,
        layout: &Layout<A>,
    ) -> Result<Settings<A>, DiscoverError<A>> {
        let reader = Reader {
            alloc,
            files,
            environment,
            known: Some(Known {
                git_dir: &layout.git_dir,
                common_dir: &layout.common_dir,
            }),
        };
        let mut reading = Reading::new(alloc);
        reader.read_shared(&mut reading)?;
        reader.read(&mut reading, within(alloc, &layout.common_dir, b"config")?)?;
        if layout.worktree_config {
            reader.read(
                &mut reading,
                within(alloc, &layout.git_dir, b"config.worktree")?,
            )?;
        }
        reader.read_command_line(&mut reading)?;
        Ok(Settings {
            entries: reading.into_entries(),
        })
    }

    /// Makes the settings of these entries.
    pub fn new(entries: Vec<Entry<A>, A>) -> Settings<A> {
        Settings { entries }
    }

    /// Returns the last value of a setting.
    ///
    /// Returns `None` if there is none, and `Some(None)` if the last one has no `=`.
    pub fn value(
        &self,
        section: &[u8],
        subsection: Option<&[u8]>,
        key: &[u8],
    ) -> Option<Option<&[u8]>>
        // The answer is the last value of all settings with this name that were read. `None`
        // exactly if no such setting was read.
        ensures { option_map shown result
            ≡ last_value (name_of section.now (shown subsection.entry) key.now)
            (settings_of self.now) }
    {
        gix_config::last_value(&self.entries, section, subsection, key)
    }

    /// Returns all values of a setting, in git's order. One without `=` is `None`.
    ///
    /// # Errors
    ///
    /// Fails if an allocation failed.
    pub fn values(
        &self,
        alloc: A,
        section: &[u8],
        subsection: Option<&[u8]>,
        key: &[u8],
    ) -> Result<Vec<Option<&[u8]>, A>, AllocError>
        // The answer has the values of all settings with this name that were read, in their order.
        ensures { IfOk result (λ values. all_shown values.items
            ≡ values_of (name_of section.now (shown subsection.entry) key.now)
            (settings_of self.now)) }
    {
        all_values(alloc, &self.entries, section, subsection, key)
    }

    /// Returns the last value of a boolean setting; `usual` if there is none.
    ///
    /// # Errors
    ///
    /// - `BadBoolean` if the value is not a boolean.
    /// - `OutOfMemory` if an allocation failed.
    pub fn boolean(
        &self,
        alloc: A,
        section: &[u8],
        subsection: Option<&[u8]>,
        key: &[u8],
        usual: bool,
    ) -> Result<bool, DiscoverError<A>> {
        match self.value(section, subsection, key) {
            Some(value) => boolean_of(alloc, key, value),
            None => Ok(usual),
        }
    }

    /// Returns `core.abbrev`: `no` is 40 digits.
    ///
    /// # Errors
    ///
    /// - `MissingValue` or `BadNumber` if the value is no number.
    /// - `BadAbbrev` if it is not between 4 and 40.
    /// - `OutOfMemory` if an allocation failed.
    pub fn abbrev(&self, alloc: A) -> Result<Abbrev, DiscoverError<A>> {
        let Some(value) = self.value(b"core", None, b"abbrev") else {
            return Ok(Abbrev::Auto);
        };
        let text = needed(alloc, b"core.abbrev", value)?;
        if is_word(text, b"auto") {
            return Ok(Abbrev::Auto);
        }
        if text.is_empty()
            || is_word(text, b"no")
            || is_word(text, b"off")
            || is_word(text, b"false")
        {
            return Ok(Abbrev::Digits(40));
        }
        match number(text) {
            Some(digits) if (4..=40).contains(&digits) => Ok(Abbrev::Digits(digits as usize)),
            Some(_) => Err(about(alloc, Reason::BadAbbrev, b"core.abbrev")),
            None => Err(about_value(alloc, Reason::BadNumber, b"core.abbrev", text)),
        }
    }

    /// Returns `core.commitGraph`, which is true if it is not set.
    ///
    /// # Errors
    ///
    /// - `BadBoolean` if the value is not a boolean.
    /// - `OutOfMemory` if an allocation failed.
    pub fn uses_commit_graph(&self, alloc: A) -> Result<bool, DiscoverError<A>> {
        self.boolean(alloc, b"core", None, b"commitgraph", true)
    }

    /// Returns `core.warnAmbiguousRefs`, which is true if it is not set.
    ///
    /// # Errors
    ///
    /// - `BadBoolean` if the value is not a boolean.
    /// - `OutOfMemory` if an allocation failed.
    pub fn warns_ambiguous_refs(&self, alloc: A) -> Result<bool, DiscoverError<A>> {
        self.boolean(alloc, b"core", None, b"warnambiguousrefs", true)
    }

    /// Returns `core.useReplaceRefs`, which is true if it is not set.
    ///
    /// # Errors
    ///
    /// - `BadBoolean` if the value is not a boolean.
    /// - `OutOfMemory` if an allocation failed.
    pub fn uses_replace_refs(&self, alloc: A) -> Result<bool, DiscoverError<A>> {
        self.boolean(alloc, b"core", None, b"usereplacerefs", true)
    }
}
