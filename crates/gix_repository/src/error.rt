//! The reasons why a question has no answer.

use gix_base::hash::ObjectId;
use gix_history::ReadError;
use std::alloc::{AllocError, AllocFailed};
use std::fmt;
use thiserror::Error as StdError;

/// Says what is not supported.
#[derive(Clone, Copy, Debug)]
pub enum Unsupported {
    /// A path in a tree or in the index.
    Path,
    /// A search by a regular expression.
    Regex,
    /// This form of a date, or a date that git reads in a way of its own.
    Date,
    /// This form of a revision.
    Form,
    /// An abbreviated object name whose length depends on the packs that git opens.
    Digits,
    /// Digits with which more objects begin than git's hint lists here.
    Candidates,
    /// The value of `core.disambiguate`.
    Preference,
    /// A refspec that begins with `^`.
    Refspec,
    /// The value of `branch.<name>.merge`.
    Merge,
    /// `@{push}` of a branch that has no such branch.
    Push,
    /// A year before 1970 or after 9999.
    Year,
    /// A date for which a reflog has several entries.
    Entry,
    /// Too many tags, one of another.
    Tags,
}

impl Unsupported {
    /// Returns the text that says what is not supported.
    pub fn text(self) -> &'static str {
        match self {
            Unsupported::Path => "this path is not supported",
            Unsupported::Regex => "regular expressions are not supported",
            Unsupported::Date => "this form of a date is not supported",
            Unsupported::Form => "this form of a revision is not supported",
            Unsupported::Digits => "abbreviated object names are not supported in this repository",
            Unsupported::Candidates => "so many objects with the same digits are not supported",
            Unsupported::Preference => "the setting core.disambiguate is not supported",
            Unsupported::Refspec => "refspecs that begin with '^' are not supported",
            Unsupported::Merge => "this value of branch.<name>.merge is not supported",
            Unsupported::Push => "branches without a push destination are not supported",
            Unsupported::Year => "years before 1970 or after 9999 are not supported",
            Unsupported::Entry => "dates with several reflog entries are not supported",
            Unsupported::Tags => "so many nested tags are not supported",
        }
    }
}

/// Why a repository is not read further, or why a text names nothing.
#[derive(Clone, Copy, Debug, Drop, StdError)]
pub enum Refusal {
    /// The text names nothing.
    Unknown,
    /// More than one object begins with the digits of the text.
    Ambiguous,
    /// git ends with a message here, which is among [`messages`](crate::Repository::messages).
    Fatal,
    /// The answer needs what is not supported.
    NotSupported(Unsupported),
    /// The file of a reference has a name that is not UTF-8, and is not opened.
    NotUtf8,
    /// A commit was not read, and the answer needs it.
    Commit(ReadError),
    /// An object was not read, and the answer needs it.
    Object(gix_odb::Error),
    /// The object is replaced by one that is missing, or too many times in turn.
    Replaced(ObjectId),
    /// The tag says another kind than that of its object.
    TagKind(ObjectId),
    /// A setting that says the upstream of a branch, or where it is pushed, is malformed.
    Sibling,
    /// A reference was not read.
    Reference(gix_ref::Error),
    /// The commit-graph is damaged where it was read.
    Graph(gix_graph_rows::Error),
    /// The commit-graph says something else of this commit than its object.
    Differs(ObjectId),
    /// An allocation failed.
    OutOfMemory,
}

impl Refusal {
    /// Returns whether the answer needs what is not supported. Otherwise a refusal after which no
    /// other text is tried says that something is damaged, or that the program failed.
    pub fn is_not_supported(&self) -> bool {
        match self {
            Refusal::NotSupported(_) | Refusal::NotUtf8 => true,
            Refusal::Commit(error) => matches!(error, ReadError::TooDeep(_)),
            Refusal::Object(error) => matches!(error, gix_odb::Error::Unsupported(..)),
            Refusal::Reference(error) => matches!(error, gix_ref::Error::NotUtf8(_)),
            Refusal::Graph(error) => matches!(error, gix_graph_rows::Error::Unsupported(..)),
            _ => false,
        }
    }

    /// Returns whether an object is missing. A remote may have promised it.
    pub fn is_missing(&self) -> bool {
        matches!(
            self,
            Refusal::Commit(ReadError::Missing(_)) | Refusal::Object(gix_odb::Error::Missing(_))
        )
    }
}

/// Writes why an object was not read.
fn write_object<W: fmt::Write>(f: &mut fmt::Formatter<W>, error: &gix_odb::Error) -> fmt::Result {
    match error {
        gix_odb::Error::Altered(id, other) => {
            write!(f, "object {id} is corrupt: its content has the id {other}")
        }
        gix_odb::Error::Damaged(file, at, damage) => {
            write!(f, "{file} is corrupt at byte {at}: {damage}")
        }
        error => write!(f, "{error}"),
    }
}

impl fmt::Display for Refusal {
    fn fmt<W: fmt::Write>(&self, f: &mut fmt::Formatter<W>) -> fmt::Result {
        match self {
            Refusal::Unknown => f.write_str("names nothing"),
            Refusal::Ambiguous => f.write_str("names more than one object"),
            Refusal::Fatal => f.write_str("git ends with a message"),
            Refusal::NotSupported(what) => f.write_str(what.text()),
            Refusal::NotUtf8 => f.write_str(
                "names of references that are not UTF-8 are not supported",
            ),
            Refusal::Commit(error) => write!(f, "{error}"),
            Refusal::Object(error) => write_object(f, error),
            Refusal::Replaced(id) => {
                write!(
                    f,
                    "object {id} is replaced by a missing one, or too many times in turn"
                )
            }
            Refusal::TagKind(id) => {
                write!(
                    f,
                    "tag {id} is malformed: its object is of another kind than it says"
                )
            }
            Refusal::Sibling => f.write_str(
                "a setting of a branch, of its remote or of push.default is malformed",
            ),
            Refusal::Reference(error) => write!(f, "{error}"),
            Refusal::Graph(error) => write!(f, "{error}"),
            Refusal::Differs(id) => {
                write!(
                    f,
                    "the commit-graph says something else of commit {id} than its object"
                )
            }
            Refusal::OutOfMemory => f.write_str("out of memory"),
        }
    }
}

impl From<AllocError> for Refusal {
    fn from(_e: AllocError) -> Refusal {
        Refusal::OutOfMemory
    }
}

impl<T: Drop> From<AllocFailed<T>> for Refusal {
    fn from(_e: AllocFailed<T>) -> Refusal {
        Refusal::OutOfMemory
    }
}

impl From<ReadError> for Refusal {
    fn from(error: ReadError) -> Refusal {
        match error {
            ReadError::OutOfMemory => Refusal::OutOfMemory,
            error => Refusal::Commit(error),
        }
    }
}

impl From<gix_odb::Error> for Refusal {
    fn from(error: gix_odb::Error) -> Refusal {
        match error {
            gix_odb::Error::OutOfMemory => Refusal::OutOfMemory,
            error => Refusal::Object(error),
        }
    }
}

impl From<gix_ref::Error> for Refusal {
    fn from(error: gix_ref::Error) -> Refusal {
        match error {
            gix_ref::Error::OutOfMemory => Refusal::OutOfMemory,
            error => Refusal::Reference(error),
        }
    }
}

impl From<gix_graph_rows::Error> for Refusal {
    fn from(error: gix_graph_rows::Error) -> Refusal {
        match error {
            gix_graph_rows::Error::OutOfMemory => Refusal::OutOfMemory,
            error => Refusal::Graph(error),
        }
    }
}
