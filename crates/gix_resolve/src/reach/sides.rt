//! Reads and joins the marks of a walk from two sides.
//!
//! `COMMIT1` marks what the first side reaches, `COMMIT2` what the second side reaches.

ghost use Rattle.std.specs.Prelude.{◌≡◌, ◌||◌};
ghost use Rattle.gix_merge_base.specs.Marks.{marks_of, has_marks, joined as joined_marks};
ghost use Rattle.gix_resolve.specs.ReachSides.{hides, shows, is_first_alone as first_alone, is_second_alone as second_alone};

use bitflags::Flags as BitFlags;
use gix_revision::merge_base::Flags;

/// The bits that are handed on to parents.
const HANDED_ON: u8 = 7;

/// Tests whether the first side reaches a commit with these marks.
pub(crate) fn is_first(marks: Flags) -> bool
    ensures { result ≡ (marks_of marks).one }
{
    marks.contains(Flags::COMMIT1)
}

/// Tests whether the second side reaches a commit with these marks.
pub(crate) fn is_second(marks: Flags) -> bool
    ensures { result ≡ (marks_of marks).two }
{
    marks.contains(Flags::COMMIT2)
}

/// Tests whether a commit is stale. No walk from two sides marks one.
fn is_stale(marks: Flags) -> bool
    ensures { result ≡ (marks_of marks).stale }
{
    marks.contains(Flags::STALE)
}

/// Tests whether `old` has each of the marks.
fn has(old: Flags, marks: Flags) -> bool
    ensures { result ≡ has_marks (marks_of old) (marks_of marks) }
{
    (!is_first(marks) || is_first(old))
        && (!is_second(marks) || is_second(old))
        && (!is_stale(marks) || is_stale(old))
}

/// Joins the marks with those of `old`.
pub(crate) fn joined(marks: Flags, old: Flags) -> Flags
    ensures { marks_of result ≡ joined_marks (marks_of marks) (marks_of old) }
{
    Flags::from_bits_retain((HANDED_ON & marks.bits()) | old.bits())
}

/// Tests whether a commit with these marks is not wanted, whatever further marks it gets.
///
/// That is so if the second side reaches it. If `both` is set, it is so if both sides reach it.
pub(crate) fn is_hidden(both: bool, marks: Flags) -> bool
    ensures { result ≡ hides both (marks_of marks) }
{
    if both {
        is_first(marks) && is_second(marks)
    } else {
        is_second(marks)
    }
}

/// Tests whether a commit with these marks, and no further ones, is wanted.
///
/// That is so if only the first side reaches it or, if `both` is set, only the second side.
pub(crate) fn is_shown(both: bool, marks: Flags) -> bool
    ensures { result ≡ shows both (marks_of marks) }
{
    if is_first(marks) {
        !is_second(marks)
    } else {
        both && is_second(marks)
    }
}

/// Tests whether a commit with the marks `old` needs none of `marks`: it has them all, or is
/// hidden.
pub(crate) fn is_full(both: bool, old: Flags, marks: Flags) -> bool
    ensures { result ≡ (hides both (marks_of old) || has_marks (marks_of old) (marks_of marks)) }
{
    is_hidden(both, old) || has(old, marks)
}

/// Tests whether only the first side reaches a commit with these marks.
pub(crate) fn is_first_alone(marks: Flags) -> bool
    ensures { result ≡ first_alone (marks_of marks) }
{
    is_first(marks) && !is_second(marks)
}

/// Tests whether only the second side reaches a commit with these marks.
pub(crate) fn is_second_alone(marks: Flags) -> bool
    ensures { result ≡ second_alone (marks_of marks) }
{
    is_second(marks) && !is_first(marks)
}
