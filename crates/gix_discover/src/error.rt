//! Has the reasons why a repository or its settings are refused.

use std::alloc::{AllocError, AllocFailed, Allocator, Global};
use std::fmt;
use std::io::ErrorKind;

/// Says why a repository is not found, or why it or its settings are refused.
#[derive(Clone, Copy)]
pub enum Reason {
    /// There is no repository in the current folder or above it.
    NoRepository,
    /// There is none up to the mount point, and `GIT_DISCOVERY_ACROSS_FILESYSTEM` is not set.
    NoRepositoryUpToMount,
    /// The path in `GIT_DIR` does not lead to a repository.
    NotARepository,
    /// A file `.git` does not lead to a repository. The subject is the path to which it leads.
    GitfileTarget,
    /// The file `.git` does not begin with `gitdir: `.
    GitfileFormat,
    /// The file `.git` has no path.
    GitfileNoPath,
    /// The file `.git` has more than 1 MiB.
    GitfileTooLarge,
    /// The file `commondir` is empty, or a symbolic link that leads nowhere.
    EmptyCommonDir,
    /// `GIT_COMMON_DIR` names another folder than the repository itself. git then reads references
    /// from one repository and objects from the other.
    OtherCommonDir,
    /// `core.worktree` or `GIT_WORK_TREE` names a path that does not lead to a work tree.
    NoWorkTree,
    /// `GIT_NAMESPACE` is not the name of a namespace.
    BadNamespace,
    /// The repository belongs to another user, and `safe.directory` does not name it.
    DubiousOwnership,
    /// The repository is bare, and `safe.bareRepository` is `explicit`.
    BareRepositoryRefused,
    /// `safe.bareRepository` has another value than `explicit` and `all`.
    BadBareRepository,
    /// `core.repositoryformatversion` is this number, greater than 1.
    FormatVersion(i64),
    /// A repository of version 1 has an extension that is not known.
    UnknownExtension,
    /// A repository of version 0 has an extension that only version 1 may have.
    ExtensionNeedsVersion1,
    /// `extensions.objectFormat` is not `sha1`. The subject is the format.
    ObjectFormat,
    /// The repository sets `extensions.refStorage`. The subject is the format.
    RefStorage,
    /// The config file has a malformed line with this number.
    BadConfigLine(u64),
    /// The setting has no value, and needs one.
    MissingValue,
    /// The value of the setting is not a boolean.
    BadBoolean,
    /// The value of the setting is not a number, or is too large.
    BadNumber,
    /// The length of abbreviated object names is not between 4 and 40.
    BadAbbrev,
    /// The value of the variable is not supported.
    UnsupportedValue,
    /// The path of the setting begins with `~user`, or with `~`, and `HOME` is not set.
    UnexpandedPath,
    /// Config files include one another more than ten deep.
    IncludeDepth,
    /// A relative `include.path` does not come from a file.
    RelativeInclude,
    /// The path of an `include` begins with `~`, and cannot be expanded.
    UnexpandedInclude,
    /// The condition `hasconfig:` of an `includeIf` is not supported.
    HasConfig,
    /// `GIT_CONFIG_COUNT` is not a number, or too large.
    BadConfigCount,
    /// A variable `GIT_CONFIG_KEY_n` is missing.
    MissingConfigKey(u64),
    /// A variable `GIT_CONFIG_VALUE_n` is missing.
    MissingConfigValue(u64),
    /// `GIT_CONFIG_PARAMETERS` is malformed.
    BadConfigParameters,
    /// A key from the environment is malformed.
    BadConfigKey,
    /// The current folder cannot be read.
    NoCurrentFolder,
    /// A path of `GIT_ALTERNATE_OBJECT_DIRECTORIES` is in quotes.
    QuotedPath,
    /// The path is not UTF-8, and `std` opens no such path.
    NotUtf8,
    /// The system failed to look at, open or read a file.
    Failed(ErrorKind),
    /// An allocation failed.
    OutOfMemory,
}

/// Is a reason, with the path or the setting that it is about.
#[derive(Drop)]
pub struct DiscoverError<A: Allocator = Global> {
    pub reason: Reason,
    /// Has the path, or the name of the setting, if the reason is about one.
    pub subject: Option<Vec<u8, A>>,
    /// Has the value of the setting, if the reason is about it.
    pub value: Option<Vec<u8, A>>,
}

impl Reason {
    /// Returns whether the repository or a setting needs what is not supported. Otherwise there is
    /// no repository, git refuses it or a setting, or a file cannot be read.
    pub fn is_not_supported(self) -> bool {
        matches!(
            self,
            Reason::NoRepositoryUpToMount
                | Reason::OtherCommonDir
                | Reason::FormatVersion(_)
                | Reason::UnknownExtension
                | Reason::ObjectFormat
                | Reason::RefStorage
                | Reason::UnsupportedValue
                | Reason::HasConfig
                | Reason::QuotedPath
                | Reason::NotUtf8
        )
    }
}

impl<A: Allocator> From<AllocError> for DiscoverError<A> {
    fn from(_e: AllocError) -> DiscoverError<A> {
        DiscoverError {
            reason: Reason::OutOfMemory,
            subject: None,
            value: None,
        }
    }
}

impl<T: Drop, A: Allocator> From<AllocFailed<T>> for DiscoverError<A> {
    fn from(_e: AllocFailed<T>) -> DiscoverError<A> {
        DiscoverError {
            reason: Reason::OutOfMemory,
            subject: None,
            value: None,
        }
    }
}

impl<A: Allocator> From<Reason> for DiscoverError<A> {
    fn from(reason: Reason) -> DiscoverError<A> {
        DiscoverError {
            reason,
            subject: None,
            value: None,
        }
    }
}

/// Returns the error about a path or a setting.
pub(crate) fn about<A: Allocator>(alloc: A, reason: Reason, subject: &[u8]) -> DiscoverError<A> {
    match subject.to_vec(alloc) {
        Ok(subject) => DiscoverError {
            reason,
            subject: Some(subject),
            value: None,
        },
        Err(_) => DiscoverError {
            reason: Reason::OutOfMemory,
            subject: None,
            value: None,
        },
    }
}

/// Returns the error about the value of a setting.
pub(crate) fn about_value<A: Allocator + Copy>(
    alloc: A,
    reason: Reason,
    name: &[u8],
    value: &[u8],
) -> DiscoverError<A> {
    match (name.to_vec(alloc), value.to_vec(alloc)) {
        (Ok(name), Ok(value)) => DiscoverError {
            reason,
            subject: Some(name),
            value: Some(value),
        },
        _ => DiscoverError::from(Reason::OutOfMemory),
    }
}

/// Writes bytes as text; `?` in place of a byte that is not printable ASCII.
fn write_bytes<W: fmt::Write>(f: &mut fmt::Formatter<W>, bytes: &[u8]) -> fmt::Result {
    match str::from_utf8(bytes) {
        Ok(text) => f.write_str(text),
        Err(_) => {
            for byte in bytes {
                let shown = if (b' '..=b'~').contains(byte) {
                    *byte
                } else {
                    b'?'
                };
                f.write_char(char::from(shown))?;
            }
            Ok(())
        }
    }
}

/// Writes a space, and bytes as text in quotes.
fn write_quoted<W: fmt::Write>(f: &mut fmt::Formatter<W>, bytes: &[u8]) -> fmt::Result {
    f.write_str(" '")?;
    write_bytes(f, bytes)?;
    f.write_str("'")
}

/// Returns the text of a reason, up to its value, path or setting.
fn reason_text(reason: Reason) -> &'static str {
    match reason {
        Reason::NoRepository | Reason::NoRepositoryUpToMount => {
            "not a git repository (or any of the parent directories): .git"
        }
        Reason::NotARepository | Reason::GitfileTarget => "not a git repository",
        Reason::GitfileFormat => "invalid gitfile format",
        Reason::GitfileNoPath => "no path in gitfile",
        Reason::GitfileTooLarge => "too large to be a .git file",
        Reason::EmptyCommonDir => "failed to read",
        Reason::OtherCommonDir => "this value of GIT_COMMON_DIR is not supported:",
        Reason::NoWorkTree => "cannot enter the work tree",
        Reason::BadNamespace => "bad git namespace path",
        Reason::DubiousOwnership => "detected dubious ownership in repository at",
        Reason::BareRepositoryRefused => "cannot use bare repository",
        Reason::BadBareRepository => "bad value of a setting",
        Reason::FormatVersion(_) => "expected git repo version <= 1",
        Reason::UnknownExtension => "unknown repository extension found",
        Reason::ExtensionNeedsVersion1 => "repo version is 0, but v1-only extension found",
        Reason::ObjectFormat => "this format of objects is not supported:",
        Reason::RefStorage => "this format of refs is not supported:",
        Reason::BadConfigLine(_) => "bad config line in file",
        Reason::MissingValue => "missing value for",
        Reason::BadBoolean => "bad boolean config value",
        Reason::BadNumber => "bad numeric config value",
        Reason::BadAbbrev => "abbrev length out of range",
        Reason::UnsupportedValue => "unsupported value",
        Reason::UnexpandedPath => "failed to expand user dir in:",
        Reason::IncludeDepth => "exceeded maximum include depth (10) at",
        Reason::RelativeInclude => "relative config includes must come from files",
        Reason::UnexpandedInclude => "could not expand include path",
        Reason::HasConfig => "this condition of includeIf is not supported:",
        Reason::BadConfigCount => "bogus count in GIT_CONFIG_COUNT",
        Reason::MissingConfigKey(_) => "missing config key",
        Reason::MissingConfigValue(_) => "missing config value",
        Reason::BadConfigParameters => "bogus format in GIT_CONFIG_PARAMETERS",
        Reason::BadConfigKey => "invalid config key",
        Reason::NoCurrentFolder => "unable to read current working directory",
        Reason::QuotedPath => "a path in quotes is not supported:",
        Reason::NotUtf8 => "a path that is not UTF-8 is not supported:",
        Reason::Failed(_) => "unable to access",
        Reason::OutOfMemory => "out of memory",
    }
}

/// Writes the number that a reason has before its subject.
fn write_version<W: fmt::Write>(f: &mut fmt::Formatter<W>, reason: Reason) -> fmt::Result {
    match reason {
        Reason::FormatVersion(n) => write!(f, ", found {n} in"),
        _ => Ok(()),
    }
}

/// Writes what a reason has after its subject: a number, or why a file was not read.
fn write_end<W: fmt::Write>(f: &mut fmt::Formatter<W>, reason: Reason) -> fmt::Result {
    match reason {
        Reason::Failed(kind) => write!(f, ": {kind}"),
        Reason::BadConfigLine(n) => write!(f, " at line {n}"),
        Reason::MissingConfigKey(n) => write!(f, " GIT_CONFIG_KEY_{n}"),
        Reason::MissingConfigValue(n) => write!(f, " GIT_CONFIG_VALUE_{n}"),
        _ => Ok(()),
    }
}

impl<A: Allocator> fmt::Display for DiscoverError<A> {
    fn fmt<W: fmt::Write>(&self, f: &mut fmt::Formatter<W>) -> fmt::Result {
        f.write_str(reason_text(self.reason))?;
        write_version(f, self.reason)?;
        if let Some(value) = &self.value {
            write_quoted(f, value)?;
            f.write_str(" for")?;
        }
        if let Some(subject) = &self.subject {
            write_quoted(f, subject)?;
        }
        write_end(f, self.reason)
    }
}
