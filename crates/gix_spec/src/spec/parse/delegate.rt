//! The traits that the parser calls, and the arguments of the calls.

ghost use Rattle.std.specs.Prelude.{◌≡◌, option_map};
ghost use Rattle.gix_base.specs.Prefix.{prefix_text};
ghost use Rattle.gix_spec.specs.Call.{Call, find_ref, prefix, reflog, branch, sibling, kind, done};
ghost use Rattle.gix_spec.specs.Call.{traverse, peel, find, index, hint_of, target_of};
ghost use Rattle.gix_spec.specs.Answer.{Answer, answer_of};
ghost use Rattle.gix_spec.specs.Sibling.{sibling_of};

use crate::spec;
use gix_base::date::Time;
use gix_base::error::Exn;
use gix_base::hash::Prefix;
use gix_base::object;

/// What is known of the object that an abbreviated object name stands for.
#[derive(Clone, Copy, Debug, PartialEq, Eq, PartialOrd, Ord, Hash)]
pub enum PrefixHint<'a> {
    /// It is a commit.
    MustBeCommit,
    /// It is the commit that `git describe` named by this tag or ref.
    DescribeAnchor {
        /// The name of the tag or ref, such as `v1.2`.
        ref_name: &'a [u8],
        /// How many commits it is ahead of the tag or ref.
        generation: usize,
    },
}

/// Which entry of a reflog is asked for.
#[derive(Clone, Copy, Debug, PartialEq, Eq, PartialOrd, Ord, Hash)]
pub enum ReflogLookup {
    /// The entry of this number. The newest is number 0.
    Entry(usize),
    /// The entry at this time.
    Date(Time),
}

/// A step along the history.
#[derive(Clone, Copy, Debug, PartialEq, Eq, PartialOrd, Ord, Hash)]
pub enum Traversal {
    /// To the parent of this number. The first parent is number 1.
    NthParent(usize),
    /// This many times to the first parent.
    NthAncestor(usize),
}

/// The target that an object is peeled to.
#[derive(Clone, Copy, Debug, PartialEq, Eq, PartialOrd, Ord, Hash)]
pub enum PeelTo<'a> {
    /// An object of this kind.
    ObjectKind(object::Kind),
    /// Any object that exists.
    ValidObject,
    /// The object that a tag leads to in the end.
    RecursiveTagObject,
    /// The object at this path of a tree.
    Path(&'a [u8]),
}

/// A branch that belongs to another branch.
#[derive(Clone, Copy, Debug, PartialEq, Eq, PartialOrd, Ord, Hash)]
pub enum SiblingBranch {
    /// The branch that it is built on.
    Upstream,
    /// The branch that it is pushed to.
    Push,
}

impl SiblingBranch {
    /// Returns the sibling branch that `text` names: `u`, `upstream` or `push`.
    ///
    /// ASCII letters may be in upper or lower case. The answer is `None` for every other text. See
    /// gitrevisions, `@{upstream}` and `@{push}`.
    pub fn parse(text: &[u8]) -> Option<SiblingBranch>
        // `Upstream` for `u` and `upstream`, `Push` for `push`, in any ASCII letter case. `None`
        // for every other text.
        ensures { result ≡ sibling_of text.now }
    {
        if text.eq_ignore_ascii_case(b"u") || text.eq_ignore_ascii_case(b"upstream") {
            return Some(SiblingBranch::Upstream);
        }
        if text.eq_ignore_ascii_case(b"push") {
            return Some(SiblingBranch::Push);
        }
        None
    }
}

/// Says what each call of a delegate may do. An implementor defines the relation `step`, and each
/// of its functions keeps to it.
///
/// `Ok` accepts a call. An `Exn` with `out_of_memory` ends the parse at once: it returns
/// `Error::OutOfMemory` and makes no further call. Any other `Exn` refuses the call. If a prefix is
/// refused, `find_ref` of the name as it is written follows. Every other refusal leads to a fault,
/// also that of a prefix that `^-` repeats.
pub trait Listener {
    /// The relation: a delegate in the first state may give this answer to this call, and is then
    /// in the second state.
    ghost step: { Self → Call → Answer → Self → Type 0 };
}

/// The calls that say where a revision begins.
pub trait Revision: Listener {
    /// Looks up a ref by its name, also `HEAD`.
    fn find_ref(&mut self, name: &[u8]) -> Result<(), Exn>
        // The call for this name, with the answer that it got, is a `step` from the old state to
        // the new one.
        ensures { Self.step self.old (find_ref name.now) (answer_of result) self.new };

    /// Looks up an abbreviated object name. If it is refused, `find_ref` of the whole name follows,
    /// unless `^-` repeats the call.
    fn disambiguate_prefix(
        &mut self,
        prefix: Prefix,
        hint: Option<PrefixHint<'_>>,
    ) -> Result<(), Exn>
        // The call for the digits of this prefix and this hint, with the answer that it got, is a
        // `step` from the old state to the new one.
        ensures { Self.step self.old
            (Call.prefix (prefix_text prefix) (option_map hint_of hint.entry))
            (answer_of result) self.new };

    /// Looks up an entry in the reflog of the ref, or of the current branch.
    fn reflog(&mut self, query: ReflogLookup) -> Result<(), Exn>
        // The call for this entry or date, with the answer that it got, is a `step` from the old
        // state to the new one.
        ensures { Self.step self.old (Call.reflog query) (answer_of result) self.new };

    /// Looks up the `branch_no`-th branch checked out before the current one.
    fn nth_checked_out_branch(&mut self, branch_no: usize) -> Result<(), Exn>
        // The call for the branch of this number, with the answer that it got, is a `step` from the
        // old state to the new one.
        ensures { Self.step self.old (branch branch_no) (answer_of result) self.new };

    /// Looks up a branch that belongs to the ref, or to the current branch.
    fn sibling_branch(&mut self, kind: SiblingBranch) -> Result<(), Exn>
        // The call for this sibling branch, with the answer that it got, is a `step` from the old
        // state to the new one.
        ensures { Self.step self.old (sibling kind) (answer_of result) self.new };
}

/// The call that says which set of commits the revisions stand for.
pub trait Kind: Listener {
    /// Receives the form of the spec. This call may come twice, as for `a..b^!`.
    fn kind(&mut self, kind: spec::Kind) -> Result<(), Exn>
        // The call for this kind of spec, with the answer that it got, is a `step` from the old
        // state to the new one.
        ensures { Self.step self.old (Call.kind kind) (answer_of result) self.new };
}

/// The calls that go on from where a revision began.
pub trait Navigate: Listener {
    /// Takes a step along the history.
    fn traverse(&mut self, kind: Traversal) -> Result<(), Exn>
        // The call for this step, with the answer that it got, is a `step` from the old state to
        // the new one.
        ensures { Self.step self.old (traverse kind) (answer_of result) self.new };

    /// Peels the object.
    fn peel_until(&mut self, kind: PeelTo<'_>) -> Result<(), Exn>
        // The call for this target, with the answer that it got, is a `step` from the old state to
        // the new one.
        ensures { Self.step self.old (peel (target_of kind.entry)) (answer_of result) self.new };

    /// Finds the youngest commit whose message the regex matches, or does not match if `negated`.
    fn find(&mut self, regex: &[u8], negated: bool) -> Result<(), Exn>
        // The call for this regex, negated or not, with the answer that it got, is a `step` from
        // the old state to the new one.
        ensures { Self.step self.old (find regex.now negated) (answer_of result) self.new };

    /// Looks up a path in the index, at a stage from 0 to 3.
    fn index_lookup(&mut self, path: &[u8], stage: u8) -> Result<(), Exn>
        // The call for this path and stage, with the answer that it got, is a `step` from the old
        // state to the new one.
        ensures { Self.step self.old (index path.now stage) (answer_of result) self.new };
}

/// The receiver of the parser's calls: where a revision begins, its steps, and what it spans.
pub trait Delegate: Revision + Navigate + Kind {
    /// Receives the end of the expression. This call may come twice, if a closer such as `^!` ends
    /// the second revision.
    fn done(&mut self) -> Result<(), Exn>
        // The call of `done`, with the answer that it got, is a `step` from the old state to the
        // new one.
        ensures { Self.step self.old done (answer_of result) self.new };
}
