//! Says what a word is, as long as options may follow.

ghost use Rattle.parse_options.specs.Word.{IsWord};

use crate::text::after_front;

/// What a word is.
#[derive(Clone, Copy)]
pub(crate) enum Sort<'w> {
    /// An argument.
    Argument,
    /// The end of the options.
    End,
    /// A long option, without its dashes.
    Long(&'w [u8]),
    /// Short options.
    Short,
}

/// Says what a word is.
pub(crate) fn sort_of(word: &[u8]) -> Sort<'_>
    ensures { IsWord word.now result }
{
    if word == b"--".as_slice() || word == b"--end-of-options".as_slice() {
        return Sort::End;
    }
    if let Some(text) = after_front(word, b"--") {
        return Sort::Long(text);
    }
    match after_front(word, b"-") {
        Some(letters) if !letters.is_empty() => Sort::Short,
        _ => Sort::Argument,
    }
}
