//! The marks of a commit: which sides reach it, and what became of it.

ghost use Rattle.std.specs.Prelude.{⊤, ◌≡◌, [], ◌∷◌, codes};
ghost use Rattle.gix_merge_base.specs.Marks.{marks_of, joined as joined_marks, has_marks, handed_on as marks_handed_on};
ghost use Rattle.gix_merge_base.specs.Marks.{noted as noted_marks, becomes_result as becomes_one};

use bitflags::{Flag, Flags as BitFlags};

/// Holds the marks of a commit. Its operations are those of the trait `bitflags::Flags`.
#[derive(Clone, Copy, Debug, PartialEq, Eq, Default)]
pub struct Flags(u8);

impl Flags {
    /// Marks a commit that is reachable from the first commit.
    pub const COMMIT1: Flags = Flags(1);

    /// Marks a commit that is reachable from one of the others.
    pub const COMMIT2: Flags = Flags(2);

    /// Marks a commit that is reachable from a commit that both sides reach.
    pub const STALE: Flags = Flags(4);

    /// Marks a commit that was found as a common ancestor.
    pub const RESULT: Flags = Flags(8);

    /// The marks that a commit can hand on: all but `RESULT`.
    const HANDED_ON: u8 = 7;

    /// Tests whether the first commit reaches the commit.
    pub(crate) fn is_ours(self) -> bool
        ensures { result ≡ (marks_of self).one }
    {
        self.contains(Flags::COMMIT1)
    }

    /// Tests whether one of the others reaches the commit.
    pub(crate) fn is_theirs(self) -> bool
        ensures { result ≡ (marks_of self).two }
    {
        self.contains(Flags::COMMIT2)
    }

    /// Tests whether the commit is stale.
    pub(crate) fn is_stale(self) -> bool
        ensures { result ≡ (marks_of self).stale }
    {
        self.contains(Flags::STALE)
    }

    /// Tests whether the commit was found as a common ancestor.
    fn is_result(self) -> bool
        ensures { result ≡ (marks_of self).result }
    {
        self.contains(Flags::RESULT)
    }

    /// Returns these marks, except `RESULT`, together with `old`.
    pub(crate) fn joined(self, old: Flags) -> Flags
        ensures { marks_of result ≡ joined_marks (marks_of self) (marks_of old) }
    {
        Flags((Flags::HANDED_ON & self.0) | old.0)
    }

    /// Tests whether each of `marks` is set, except `RESULT`.
    pub(crate) fn has(self, marks: Flags) -> bool
        ensures { result ≡ has_marks (marks_of self) (marks_of marks) }
    {
        (!marks.is_ours() || self.is_ours())
            && (!marks.is_theirs() || self.is_theirs())
            && (!marks.is_stale() || self.is_stale())
    }

    /// Returns the marks that a commit with these marks hands on to its parents. Parents of a
    /// commit that both sides reach become stale.
    pub(crate) fn handed_on(self) -> Flags
        ensures { marks_of result ≡ marks_handed_on (marks_of self) }
    {
        let marks = Flags::HANDED_ON & self.0;
        if self.is_ours() && self.is_theirs() {
            Flags(marks | Flags::STALE.0)
        } else {
            Flags(marks)
        }
    }

    /// Tests whether a commit with these marks becomes a result.
    pub(crate) fn becomes_result(self) -> bool
        ensures { result ≡ becomes_one (marks_of self) }
    {
        self.is_ours() && self.is_theirs() && !self.is_stale() && !self.is_result()
    }

    /// Returns these marks and `RESULT`.
    pub(crate) fn noted(self) -> Flags
        ensures { marks_of result ≡ noted_marks (marks_of self) }
    {
        Flags(Flags::RESULT.0 | self.0)
    }
}

const NAMED: [Flag<Flags>; 4] = [
    Flag {
        name: "COMMIT1",
        value: Flags::COMMIT1,
    },
    Flag {
        name: "COMMIT2",
        value: Flags::COMMIT2,
    },
    Flag {
        name: "STALE",
        value: Flags::STALE,
    },
    Flag {
        name: "RESULT",
        value: Flags::RESULT,
    },
];

impl BitFlags for Flags {
    type Bits = u8;

    ghost exact = { ⊤ };

    ghost table = { (codes "COMMIT1", 1) ∷ (codes "COMMIT2", 2) ∷ (codes "STALE", 4) ∷ (codes "RESULT", 8) ∷ [] };

    ghost set_of = { λ f. f.0 };

    fn flags<'a>() -> &'a [Flag<Flags>] {
        &NAMED
    }

    fn bits(&self) -> u8 {
        self.0
    }

    fn from_bits_retain(bits: u8) -> Flags {
        Flags(bits)
    }
}
