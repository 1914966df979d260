//! Has the kinds of objects.

/// Is the kind of an object (gitglossary, "object type").
///
/// Kinds are ordered as the cases are listed here.
#[derive(Clone, Copy, Debug, PartialEq, Eq, PartialOrd, Ord, Hash)]
pub enum Kind {
    Tree,
    Blob,
    Commit,
    Tag,
}
