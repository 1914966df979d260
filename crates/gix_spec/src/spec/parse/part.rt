//! Parts of a text: the piece at its front, and the rest after it.

ghost use Rattle.std.specs.Prelude.{◌≡◌};
ghost use Rattle.gix_spec.specs.Part.{nothing, piece, closing, refusal};
ghost use Rattle.gix_spec.specs.Found.{piece_of, part_of, slice_of};

use super::delegate::{PeelTo, PrefixHint, ReflogLookup, SiblingBranch, Traversal};
use super::fault::Fault;
use crate::spec::Kind;
use gix_base::hash::Prefix;

/// What follows a part of a text.
#[derive(Clone, Copy)]
pub(crate) enum Way {
    /// More may be read.
    Onward,
    /// The part was a closer, such as `^!`.
    Closed,
}

/// The prefix call that is tried first for a name.
#[derive(Clone, Copy)]
pub(crate) struct Attempt<'a> {
    pub(crate) prefix: Prefix,
    pub(crate) hint: Option<PrefixHint<'a>>,
}

/// A piece of a text, with the parts of the text that its calls and their faults name.
///
/// `inner` is the text between braces as it is written, `own` is the name of the revision, `after`
/// is the text after the mark of a step, `rest` is the text after the piece, and `whole` is the
/// text from the start of the revision on.
///
/// A regex or a date in braces has no piece here: without escapes, it is not a part of the text.
#[derive(Clone, Copy)]
pub(crate) enum Piece<'a> {
    /// `^` in front of the whole text.
    Exclude,
    /// A regex: `raw` as it is written after its mark, and `wanted`, which is looked for.
    Regex {
        wanted: &'a [u8],
        raw: &'a [u8],
        negated: bool,
    },
    /// A path in the index.
    Index {
        path: &'a [u8],
        stage: u8,
    },
    /// HEAD: written `@`, or implied by an empty side of a range.
    Head,
    /// A name, and the prefix call that is tried first, if any.
    Name {
        text: &'a [u8],
        whole: &'a [u8],
        attempt: Option<Attempt<'a>>,
    },
    /// `@{-n}`.
    Branch {
        number: usize,
        inner: &'a [u8],
    },
    /// `@{n}`.
    Reflog {
        query: ReflogLookup,
        own: &'a [u8],
        inner: &'a [u8],
    },
    /// `@{upstream}`, `@{push}`.
    Sibling {
        branch: SiblingBranch,
        own: &'a [u8],
        inner: &'a [u8],
    },
    /// `~n`, `^n`.
    Step {
        step: Traversal,
        after: &'a [u8],
    },
    /// `^0`, `^{tree}`, `^{}` and the like.
    Peel {
        target: PeelTo<'a>,
        after: &'a [u8],
    },
    /// `:PATH` after a revision.
    Path(&'a [u8]),
    /// `^!`, `^@`.
    Closer {
        kind: Kind,
        rest: &'a [u8],
    },
    /// `^-n`.
    WithoutParent {
        number: usize,
        after: &'a [u8],
        rest: &'a [u8],
    },
    /// `..`, `...`.
    Range(Kind),
    /// The end of a text.
    Finish,
}

/// A fault of the text, and the part that it names.
#[derive(Clone, Copy)]
pub(crate) struct Refusal<'a> {
    pub(crate) fault: Fault,
    pub(crate) input: Option<&'a [u8]>,
}

/// The result of reading the front of a text.
pub(crate) type Found<'a> = Result<Part<'a>, Refusal<'a>>;

/// The front of a text: at most one piece, the rest after it, and whether more may be read.
#[derive(Clone, Copy)]
pub(crate) struct Part<'a> {
    pub(crate) piece: Option<Piece<'a>>,
    pub(crate) rest: &'a [u8],
    pub(crate) way: Way,
}

impl<'a> Part<'a> {
    /// Returns a part without a piece.
    pub(crate) fn nothing(text: &'a [u8]) -> Found<'a>
        ensures { part_of result ≡ nothing text.now }
    {
        Ok(Part {
            piece: None,
            rest: text,
            way: Way::Onward,
        })
    }

    /// Returns a part with one piece, after which more may be read.
    pub(crate) fn piece(found: Piece<'a>, rest: &'a [u8]) -> Found<'a>
        ensures { part_of result ≡ piece (piece_of found.entry) rest.now }
    {
        Ok(Part {
            piece: Some(found),
            rest,
            way: Way::Onward,
        })
    }

    /// Returns a part that is a closer.
    pub(crate) fn closing(found: Piece<'a>, rest: &'a [u8]) -> Found<'a>
        ensures { part_of result ≡ closing (piece_of found.entry) rest.now }
    {
        Ok(Part {
            piece: Some(found),
            rest,
            way: Way::Closed,
        })
    }

    /// Returns a fault of the text.
    pub(crate) fn refusal(fault: Fault, input: Option<&'a [u8]>) -> Found<'a>
        ensures { part_of result ≡ refusal fault (slice_of input.entry) }
    {
        Err(Refusal { fault, input })
    }
}

/// The rest of a text after a part that was read without fault, and whether more may be read.
#[derive(Clone, Copy)]
pub(crate) struct Behind<'a> {
    pub(crate) rest: &'a [u8],
    pub(crate) way: Way,
}
