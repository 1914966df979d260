//! Reads the format of a repository (gitrepository-layout, "Git Repository Format Versions").

use crate::error::{DiscoverError, Reason, about, about_value};
use crate::paths::within;
use crate::source::read_file;
use gix_config::{Entry, ParseError, boolean, entries, is_name, number, value_of};
use gix_files::Folders;
use std::alloc::Allocator;

/// Is what a repository's own config says of its format.
#[derive(Drop)]
pub(crate) struct Format<A: Allocator> {
    version: Option<i64>,
    /// Is `core.bare`, which counts for the work tree only outside of linked worktrees.
    pub(crate) is_bare: Option<bool>,
    pub(crate) work_tree: Option<Vec<u8, A>>,
    /// Says whether the repository has a `config.worktree` for each worktree.
    pub(crate) worktree_config: bool,
}

/// Reads the settings of a file, without includes. A missing file has none.
fn own_entries<F: Folders, A: Allocator + Copy>(
    alloc: A,
    files: &F,
    path: &[u8],
) -> Result<Vec<Entry<A>, A>, DiscoverError<A>> {
    let mut text = Vec::new(alloc);
    read_file(alloc, files, path, &mut text)?;
    match entries(alloc, &text) {
        Ok(list) => Ok(list),
        Err(ParseError::OutOfMemory) => Err(DiscoverError::from(Reason::OutOfMemory)),
        Err(ParseError::BadLine(line)) => Err(about(alloc, Reason::BadConfigLine(line), path)),
    }
}

/// Reads the boolean of a setting. A setting without a value is true.
pub(crate) fn boolean_of<A: Allocator + Copy>(
    alloc: A,
    name: &[u8],
    value: Option<&[u8]>,
) -> Result<bool, DiscoverError<A>> {
    match value {
        None => Ok(true),
        Some(text) => match boolean(text) {
            Some(value) => Ok(value),
            None => Err(about_value(alloc, Reason::BadBoolean, name, text)),
        },
    }
}

/// Returns the value of a setting that needs one.
pub(crate) fn needed<'a, A: Allocator + Copy>(
    alloc: A,
    name: &[u8],
    value: Option<&'a [u8]>,
) -> Result<&'a [u8], DiscoverError<A>> {
    match value {
        Some(value) => Ok(value),
        None => Err(about(alloc, Reason::MissingValue, name)),
    }
}

/// Reads a version, which fits 32 bits.
fn version<A: Allocator + Copy>(
    alloc: A,
    name: &[u8],
    value: Option<&[u8]>,
) -> Result<i64, DiscoverError<A>> {
    let text = needed(alloc, name, value)?;
    match number(text) {
        Some(number) if number.unsigned_abs() < 1 << 31 => Ok(number),
        _ => Err(about_value(alloc, Reason::BadNumber, name, text)),
    }
}

/// Checks an extension of a repository of version 0 or 1. `name` is its whole name.
fn check_extension<A: Allocator + Copy>(
    alloc: A,
    version: i64,
    name: &[u8],
    value: Option<&[u8]>,
) -> Result<(), DiscoverError<A>> {
    let Some(extension) = name.strip_prefix(b"extensions.") else {
        return Ok(());
    };
    if extension == b"noop".as_slice()
        || extension == b"preciousobjects".as_slice()
        || extension == b"partialclone".as_slice()
        || extension == b"worktreeconfig".as_slice()
    {
        return Ok(());
    }
    if extension == b"objectformat".as_slice() {
        let format = needed(alloc, name, value)?;
        if format != b"sha1".as_slice() {
            return Err(about(alloc, Reason::ObjectFormat, format));
        }
    }
    let is_known = extension == b"noop-v1".as_slice() || extension == b"objectformat".as_slice();
    if version == 0 && is_known {
        return Err(about(alloc, Reason::ExtensionNeedsVersion1, name));
    }
    if version == 1 && extension == b"refstorage".as_slice() {
        return Err(about(alloc, Reason::RefStorage, needed(alloc, name, value)?));
    }
    if version == 1 && !is_known {
        return Err(about(alloc, Reason::UnknownExtension, name));
    }
    Ok(())
}

/// Checks all extensions of a repository.
fn check_extensions<A: Allocator + Copy>(
    alloc: A,
    version: i64,
    list: &[Entry<A>],
) -> Result<(), DiscoverError<A>> {
    for entry in list {
        check_extension(alloc, version, &entry.name, value_of(entry))?;
    }
    Ok(())
}

impl<A: Allocator + Copy> Format<A> {
    /// Returns the format of a repository whose config says nothing.
    fn new() -> Format<A> {
        Format {
            version: None,
            is_bare: None,
            work_tree: None,
            worktree_config: false,
        }
    }

    /// Takes `core.bare` and `core.worktree`.
    fn take_place(&mut self, alloc: A, entry: &Entry<A>) -> Result<(), DiscoverError<A>> {
        let value = value_of(entry);
        if is_name(&entry.name, b"core", None, b"bare") {
            self.is_bare = Some(boolean_of(alloc, &entry.name, value)?);
        } else if is_name(&entry.name, b"core", None, b"worktree") {
            let path = needed(alloc, &entry.name, value)?;
            self.work_tree = Some(path.to_vec(alloc)?);
        }
        Ok(())
    }

    /// Takes a setting of `config`.
    fn take(&mut self, alloc: A, entry: &Entry<A>) -> Result<(), DiscoverError<A>> {
        let value = value_of(entry);
        if is_name(&entry.name, b"core", None, b"repositoryformatversion") {
            self.version = Some(version(alloc, &entry.name, value)?);
        } else if let Some(extension) = entry.name.strip_prefix(b"extensions.") {
            self.take_extension(alloc, extension, entry)?;
        }
        self.take_place(alloc, entry)
    }

    /// Takes an extension. git checks its value in a repository of any version.
    fn take_extension(
        &mut self,
        alloc: A,
        extension: &[u8],
        entry: &Entry<A>,
    ) -> Result<(), DiscoverError<A>> {
        let value = value_of(entry);
        if extension == b"worktreeconfig".as_slice() {
            self.worktree_config = boolean_of(alloc, &entry.name, value)?;
        } else if extension == b"preciousobjects".as_slice() {
            boolean_of(alloc, &entry.name, value)?;
        } else if extension == b"partialclone".as_slice() {
            needed(alloc, &entry.name, value)?;
        } else if extension == b"objectformat".as_slice() {
            let format = needed(alloc, &entry.name, value)?;
            if format != b"sha1".as_slice() && format != b"sha256".as_slice() {
                return Err(about(alloc, Reason::ObjectFormat, format));
            }
        }
        Ok(())
    }

    /// Takes all settings of `config`.
    fn take_all(&mut self, alloc: A, list: &[Entry<A>]) -> Result<(), DiscoverError<A>> {
        for entry in list {
            self.take(alloc, entry)?;
        }
        Ok(())
    }

    /// Takes the settings of `config.worktree`.
    fn take_worktree(&mut self, alloc: A, list: &[Entry<A>]) -> Result<(), DiscoverError<A>> {
        for entry in list {
            self.take_place(alloc, entry)?;
        }
        Ok(())
    }
}

/// Reads and checks the format of a repository.
///
/// A repository whose version is missing or negative has no format, as in git: its extensions,
/// `core.bare` and `core.worktree` do not count. Malformed values are refused even so. In a linked
/// worktree `core.worktree` does not count, either.
pub(crate) fn read_format<F: Folders, A: Allocator + Copy>(
    alloc: A,
    files: &F,
    git_dir: &[u8],
    common_dir: &[u8],
    is_linked: bool,
) -> Result<Format<A>, DiscoverError<A>> {
    let mut format = Format::new();
    let path = within(alloc, common_dir, b"config")?;
    let list = own_entries(alloc, files, &path)?;
    format.take_all(alloc, &list)?;
    match format.version {
        None => return Ok(Format::new()),
        Some(version) if version > 1 => {
            return Err(about(alloc, Reason::FormatVersion(version), git_dir));
        }
        Some(version) => {
            check_extensions(alloc, version, &list)?;
            if version < 0 {
                return Ok(Format::new());
            }
        }
    }
    if is_linked {
        format.work_tree = None;
    } else if format.worktree_config {
        let path = within(alloc, git_dir, b"config.worktree")?;
        format.take_worktree(alloc, &own_entries(alloc, files, &path)?)?;
    }
    Ok(format)
}
