//! Sets of commits, as a revision expression names them.

ghost use Rattle.std.specs.Prelude.{◌≡◌, Some};
ghost use Rattle.gix_spec.specs.Printed.{spec_text, kind_of};

use gix_base::hash::ObjectId;
use std::fmt;

pub mod parse;

/// The form of a [`Spec`]: which commits its ids stand for. See gitrevisions, "Specifying Ranges".
#[derive(Clone, Copy, Debug, PartialEq, Eq, PartialOrd, Ord, Hash, Default)]
pub enum Kind {
    /// The commits that are reachable from a revision, such as `a`.
    #[default]
    IncludeReachable,
    /// Excludes the commits that are reachable from a revision, such as `^a`.
    ExcludeReachable,
    /// The commits that are reachable from the second revision and not from the first, such as
    /// `a..b`.
    RangeBetween,
    /// The commits that are reachable from exactly one of two revisions, such as `a...b`.
    ReachableToMergeBase,
    /// The commits that are reachable from a revision's parents, such as `a^@`.
    IncludeReachableFromParents,
    /// A revision without its parents, such as `a^!`.
    ExcludeReachableFromParents,
}

/// A set of commits, given by one or two ids. See gitrevisions, "Specifying Ranges".
#[derive(Clone, Copy, Debug, PartialEq, Eq, PartialOrd, Ord, Hash)]
pub enum Spec {
    /// The commits that are reachable from this one, written `a`.
    Include(ObjectId),
    /// Excludes the commits that are reachable from this one, written `^a`.
    Exclude(ObjectId),
    /// The commits that are reachable from `to` and not from `from`, written `from..to`.
    Range { from: ObjectId, to: ObjectId },
    /// The commits that are reachable from exactly one of the two, written `theirs...ours`.
    Merge { theirs: ObjectId, ours: ObjectId },
    /// The commits that are reachable from this one's parents, written `a^@`.
    IncludeOnlyParents(ObjectId),
    /// This commit without its parents, written `a^!`.
    ExcludeParents(ObjectId),
}

impl Spec {
    /// Returns the form of this spec.
    pub fn kind(&self) -> Kind
        // The answer is the form of the spec.
        ensures { result ≡ kind_of self.now }
    {
        match self {
            Spec::Include(_) => Kind::IncludeReachable,
            Spec::Exclude(_) => Kind::ExcludeReachable,
            Spec::Range { .. } => Kind::RangeBetween,
            Spec::Merge { .. } => Kind::ReachableToMergeBase,
            Spec::IncludeOnlyParents(_) => Kind::IncludeReachableFromParents,
            Spec::ExcludeParents(_) => Kind::ExcludeReachableFromParents,
        }
    }
}

impl fmt::Display for Spec {
    ghost output = { λ s. Some (spec_text s) };

    fn fmt<W: fmt::Write>(&self, f: &mut fmt::Formatter<W>) -> fmt::Result {
        match self {
            Spec::Include(id) => write!(f, "{id}"),
            Spec::Exclude(id) => write!(f, "^{id}"),
            Spec::Range { from, to } => write!(f, "{from}..{to}"),
            Spec::Merge { theirs, ours } => write!(f, "{theirs}...{ours}"),
            Spec::IncludeOnlyParents(id) => write!(f, "{id}^@"),
            Spec::ExcludeParents(id) => write!(f, "{id}^!"),
        }
    }
}
