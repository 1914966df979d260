//! The faults of revision expressions.

ghost use Rattle.std.specs.Prelude.{◌≡◌, Some, IfSome};
ghost use Rattle.gix_spec.specs.FaultTexts.{fault_text, number_of};

use super::delegate::Traversal;
use crate::spec::Kind;
use std::fmt;
use thiserror::Error;

/// What is wrong with a revision expression: a fault of its text, or a call that was refused.
#[derive(Clone, Copy, Debug, PartialEq, Eq, Error)]
pub enum Fault {
    /// The delegate refused the kind.
    KindRefused(Kind),
    /// The delegate refused HEAD, which is written `@` or implied.
    HeadRefused,
    /// A range mark follows an exclude mark.
    KindTwice { was: Kind, now: Kind },
    /// Text is left over, or a negated regex is empty, or `^-` has nothing to repeat.
    Unconsumed,
    /// The delegate refused `done` at the end.
    DoneRefused,
    /// The delegate refused `done` after `^!`, `^@` or `^-`.
    DoneRefusedInNavigation,
    /// `:` is alone.
    LoneColon,
    /// `:/` is alone.
    LoneColonSlash,
    /// A regex begins with `!`, but no `-` or `!` follows it.
    RegexPrefix,
    /// The delegate refused the regex.
    FindRefused,
    /// The delegate refused the path in the index, at this stage.
    IndexRefused(u8),
    /// The delegate accepted no way to read the name.
    NameRefused,
    /// An `@` follows a name, and no `{` follows the `@`.
    AtWithoutBraces,
    /// A pair of braces never closes.
    UnclosedBrace,
    /// A minus sign precedes zeros.
    NegativeZero,
    /// The braces after a name have a negative number.
    NegativeEntry,
    /// A reflog entry or date follows an accepted prefix.
    ReflogWithoutName,
    /// A sibling branch follows an accepted prefix.
    SiblingWithoutName,
    /// The text in the braces is not a date.
    Date,
    /// The delegate refused what the braces ask for.
    AtRefused,
    /// A revision begins with `~`.
    TildeFirst,
    /// A sign is in a place that allows none.
    Sign,
    /// The digits are not a number in range.
    Number,
    /// The delegate refused the step.
    TraverseRefused(Traversal),
    /// The delegate refused to peel the object.
    PeelRefused,
    /// The target in `^{..}` is unknown.
    UnknownTarget,
    /// The delegate refused the call that `^-` repeats.
    RepeatRefused,
}

impl Fault {
    /// Returns the number of this fault: the place of its variant, from 1 to 27.
    pub fn number(&self) -> u8
        // The answer is the place of the fault among its cases, from 1 to 27.
        ensures { result ≡ number_of self.now }
    {
        match self {
            Fault::KindRefused(_) => 1,
            Fault::HeadRefused => 2,
            Fault::KindTwice { .. } => 3,
            Fault::Unconsumed => 4,
            Fault::DoneRefused => 5,
            Fault::DoneRefusedInNavigation => 6,
            Fault::LoneColon => 7,
            Fault::LoneColonSlash => 8,
            Fault::RegexPrefix => 9,
            Fault::FindRefused => 10,
            Fault::IndexRefused(_) => 11,
            Fault::NameRefused => 12,
            Fault::AtWithoutBraces => 13,
            Fault::UnclosedBrace => 14,
            Fault::NegativeZero => 15,
            Fault::NegativeEntry => 16,
            Fault::ReflogWithoutName => 17,
            Fault::SiblingWithoutName => 18,
            Fault::Date => 19,
            Fault::AtRefused => 20,
            Fault::TildeFirst => 21,
            Fault::Sign => 22,
            Fault::Number => 23,
            Fault::TraverseRefused(_) => 24,
            Fault::PeelRefused => 25,
            Fault::UnknownTarget => 26,
            Fault::RepeatRefused => 27,
        }
    }

    /// Returns the text that is printed, or an empty text if a debug form is part of it.
    fn text(&self) -> &'static str
        ensures { IfSome (fault_text self.now) (λ text. result.now ≡ text) }
    {
        match self {
            Fault::HeadRefused => "delegate did not find the HEAD reference",
            Fault::Unconsumed => "unconsumed input",
            Fault::DoneRefused => "No revision was produced after all input was consumed",
            Fault::DoneRefusedInNavigation =>
                "navigation succeeded, but no revision was produced as intermediate step",
            Fault::LoneColon =>
                "':' must be followed by either slash and regex or path to lookup in HEAD tree",
            Fault::LoneColonSlash => "':/' must be followed by a regular expression",
            Fault::RegexPrefix => "need one character after /!, typically -",
            Fault::FindRefused => "the delegate found no commit for the regex",
            Fault::IndexRefused(_) => "the delegate found no index entry",
            Fault::NameRefused => "couldn't parse revision",
            Fault::AtWithoutBraces => "@ character must be standalone or followed by {<content>}",
            Fault::UnclosedBrace => "unclosed brace pair",
            Fault::NegativeZero => "negative zero is invalid - remove the minus sign",
            Fault::NegativeEntry => "reference name must be followed by positive numbers in @{n}",
            Fault::ReflogWithoutName => "reflog entries require a ref name",
            Fault::SiblingWithoutName =>
                "sibling branches like 'upstream' or 'push' require a branch name with remote configuration",
            Fault::Date => "could not parse time for reflog lookup",
            Fault::AtRefused => "the delegate refused the content of the braces",
            Fault::TildeFirst => "tilde needs to follow an anchor, like @~",
            Fault::Sign => "a sign is invalid here",
            Fault::Number => "could not parse number",
            Fault::PeelRefused => "the delegate could not peel the object",
            Fault::UnknownTarget => "cannot peel to unknown target",
            Fault::RepeatRefused => "the delegate refused the repeated anchor",
            Fault::KindRefused(_) | Fault::KindTwice { .. } | Fault::TraverseRefused(_) => "",
        }
    }
}

impl fmt::Display for Fault {
    ghost output = { fault_text };

    fn fmt<W: fmt::Write>(&self, f: &mut fmt::Formatter<W>) -> fmt::Result {
        match self {
            Fault::KindRefused(kind) => write!(f, "delegate.kind({kind:?}) failed"),
            Fault::KindTwice { was, now } => write!(
                f,
                "cannot set spec kind more than once (was {was:?}, now {now:?})"
            ),
            Fault::TraverseRefused(step) => write!(f, "delegate.traverse({step:?}) failed"),
            _ => f.write_str(self.text()),
        }
    }
}
