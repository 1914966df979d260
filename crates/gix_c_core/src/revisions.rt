//! Revision ranges and sets as C passes them.

ghost use Rattle.std.specs.Prelude.{◌≡◌, None, Some};
ghost use Rattle.gix_c_core.specs.Spans.{spec_at};

use crate::ids::bytes_of;
use gix_revision::hash::ObjectId;
use gix_revision::spec::Spec;

/// A revision range or set, by its kind and ids. The second id counts only for `RANGE` and `MERGE`.
#[repr(C)]
#[derive(Clone, Copy)]
pub struct Span {
    kind: u32,
    first: [u8; 20],
    second: [u8; 20],
}

const INCLUDE: u32 = 0;

const EXCLUDE: u32 = 1;

const RANGE: u32 = 2;

const MERGE: u32 = 3;

const ONLY_PARENTS: u32 = 4;

const WITHOUT_PARENTS: u32 = 5;

pub(crate) fn span_of(spec: Spec) -> Span
    ensures { spec_at result ≡ Some spec }
{
    let (kind, first, second) = match spec {
        Spec::Include(id) => (INCLUDE, id, id),
        Spec::Exclude(id) => (EXCLUDE, id, id),
        Spec::Range { from, to } => (RANGE, from, to),
        Spec::Merge { theirs, ours } => (MERGE, theirs, ours),
        Spec::IncludeOnlyParents(id) => (ONLY_PARENTS, id, id),
        Spec::ExcludeParents(id) => (WITHOUT_PARENTS, id, id),
    };
    let first = bytes_of(&first);
    let second = bytes_of(&second);
    Span {
        kind,
        first,
        second,
    }
}

/// Converts a span into a spec. Returns `None` if its kind is none of the known ones.
pub fn spec_of(span: &Span) -> Option<Spec>
    // The answer is the spec that the kind and the ids of the span stand for. It is `None` exactly
    // if the kind is not from 0 to 5.
    ensures { result ≡ spec_at span.now }
{
    let first = ObjectId(span.first);
    let second = ObjectId(span.second);
    match span.kind {
        INCLUDE => Some(Spec::Include(first)),
        EXCLUDE => Some(Spec::Exclude(first)),
        RANGE => Some(Spec::Range {
            from: first,
            to: second,
        }),
        MERGE => Some(Spec::Merge {
            theirs: first,
            ours: second,
        }),
        ONLY_PARENTS => Some(Spec::IncludeOnlyParents(first)),
        WITHOUT_PARENTS => Some(Spec::ExcludeParents(first)),
        _ => None,
    }
}
