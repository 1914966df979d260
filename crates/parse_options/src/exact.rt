//! Reads options by their exact names, as `git rev-list` and `git rev-parse` do.

ghost use Rattle.std.specs.Prelude.{◌≡◌, ℕ, MatchOption};
ghost use Rattle.parse_options.specs.Exact.{Held, held_of, IsHeld, Reads, ReadsAt, IsFirst};

use crate::text::after_front;

/// Says where an option has its value.
#[derive(Clone, Copy)]
pub enum Takes {
    /// It has none: `NAME`.
    Nothing,
    /// It may have one, joined to the name by `=`: `NAME` or `NAME=TEXT`.
    Joined,
    /// It has one, joined to the name by `=`: `NAME=TEXT`.
    Text,
    /// It has one, joined to the name by `=`, or the next word: `NAME=TEXT` or `NAME TEXT`.
    Word,
    /// It has one, the next word: `NAME TEXT`.
    NextWord,
    /// It has one, right behind the name, or the next word: `-n3` or `-n 3`.
    Glued,
}

/// Describes an option: its name with its dashes, where it has its value, and which option it is.
#[derive(Clone, Copy)]
pub struct Exact<K>(pub &'static str, pub Takes, pub K);

/// Says what the word of an option holds of the value.
#[derive(Clone, Copy)]
pub enum Holds<'w> {
    /// Nothing: the option has no value.
    Nothing,
    /// The value.
    Text(&'w [u8]),
    /// Nothing: the value is the next word.
    NextWord,
}

/// Returns what the word of an option holds of the value, by what is behind the name in the word.
///
/// Returns `None` if this cannot be behind the name.
fn value_behind(takes: Takes, rest: &[u8]) -> Option<Holds<'_>>
    ensures { MatchOption result ((held : Held) → IsHeld takes rest.now held → ⊥)
        (λ h. IsHeld takes rest.now (held_of h)) }
{
    match takes {
        Takes::Nothing | Takes::Joined if rest.is_empty() => Some(Holds::Nothing),
        Takes::Word | Takes::NextWord | Takes::Glued if rest.is_empty() => Some(Holds::NextWord),
        Takes::Nothing | Takes::NextWord => None,
        Takes::Glued => Some(Holds::Text(rest)),
        Takes::Joined | Takes::Text | Takes::Word => match after_front(rest, b"=") {
            Some(text) => Some(Holds::Text(text)),
            None => None,
        },
    }
}

/// Returns what a word holds of the value of an option; `None` if the word is not this option.
fn value_in<'w, K>(option: &Exact<K>, word: &'w [u8]) -> Option<Holds<'w>>
    ensures { MatchOption result ((held : Held) → Reads option.now word.now held → ⊥)
        (λ h. Reads option.now word.now (held_of h)) }
{
    match after_front(word, option.0.as_bytes()) {
        Some(rest) => value_behind(option.1, rest),
        None => None,
    }
}

/// Returns the first option of a table that a word is, and what the word holds of the value.
///
/// Returns `None` if the word is no option of the table.
pub fn exact_option<'w, K: Copy>(options: &[Exact<K>], word: &'w [u8]) -> Option<(K, Holds<'w>)>
    // The answer is the key of the first option of the table that the word is, and what the word
    // holds of the value. It is `None` exactly if the word is no option of the table.
    ensures { MatchOption result ((place : ℕ) → ReadsAt options.now place word.now → ⊥)
        (λ r. IsFirst options.now word.now r.0 (held_of r.1)) }
{
    for (place, option) in options.iter().enumerate() {
        if let Some(holds) = value_in(option, word) {
            return Some((option.2, holds));
        }
    }
    None
}
