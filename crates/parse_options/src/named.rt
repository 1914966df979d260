//! Finds the option that a long name means.

ghost use Rattle.std.specs.Prelude.{◌≡◌, ◌↔◌, ℕ, Bool, IsTrue, MatchOption};
ghost use Rattle.parse_options.specs.Names.{HasForm, IsNamed, IsBegun, HasName, HasNone, IsOnly, Means};
ghost use Rattle.parse_options.specs.Found.{also, one_of};

use crate::choice::Choice;
use crate::text::{begins, begins_negated, is_negated};

/// An option that a name means.
#[derive(Clone, Copy)]
pub struct Meant {
    /// Its place among the options.
    pub place: usize,
    /// Whether the name is of the form `no-NAME`.
    pub is_no: bool,
}

/// What was found so far.
#[derive(Clone, Copy)]
enum Found {
    Nothing,
    One(Meant),
    Many,
}

/// Tells whether an option has a form: its long name, or `no-` before it.
fn has_form<K>(choice: &Choice<K>, is_no: bool) -> bool
    ensures { IsTrue result ↔ HasForm choice.now is_no }
{
    !choice.long.is_empty() && (!is_no || choice.has_no)
}

/// Tells whether an option has this name in a form.
fn has_name<K>(choice: &Choice<K>, is_no: bool, name: &[u8]) -> bool
    ensures { IsTrue result ↔ IsNamed choice.now is_no name.now }
{
    let long = choice.long.as_bytes();
    let is_same = if is_no {
        is_negated(name, long)
    } else {
        long == name
    };
    has_form(choice, is_no) && is_same
}

/// Tells whether the name of an option in a form begins so.
fn has_beginning<K>(choice: &Choice<K>, is_no: bool, name: &[u8]) -> bool
    ensures { IsTrue result ↔ IsBegun choice.now is_no name.now }
{
    let long = choice.long.as_bytes();
    let is_begun = if is_no {
        begins_negated(name, long)
    } else {
        begins(long, name)
    };
    has_form(choice, is_no) && is_begun
}

/// Returns an option with this whole name.
fn whole<K>(choices: &[Choice<K>], name: &[u8]) -> Option<Meant>
    ensures { MatchOption result (HasNone choices.now name.now)
        (λ m. HasName choices.now name.now m.place m.is_no) }
{
    for (place, choice) in choices.iter().enumerate() {
        if has_name(choice, false, name) {
            return Some(Meant {
                place,
                is_no: false,
            });
        }
        if has_name(choice, true, name) {
            return Some(Meant { place, is_no: true });
        }
    }
    None
}

/// Notes an option, if its name begins as wanted.
fn also(found: Found, is_begun: bool, place: usize, is_no: bool) -> Found
    ensures { result ≡ also found is_begun place is_no }
{
    if is_begun {
        match found {
            Found::Nothing => Found::One(Meant { place, is_no }),
            Found::One(_) | Found::Many => Found::Many,
        }
    } else {
        found
    }
}

/// Returns the option that was found alone.
fn one(found: Found) -> Option<Meant>
    ensures { result ≡ one_of found }
{
    match found {
        Found::One(meant) => Some(meant),
        Found::Nothing | Found::Many => None,
    }
}

/// Returns the only option whose name begins so, alone or behind `no-`.
fn only_begun<K>(choices: &[Choice<K>], name: &[u8]) -> Option<Meant>
    ensures { MatchOption result
        ((place : ℕ) (is_no : Bool) → IsOnly choices.now name.now place is_no → ⊥)
        (λ m. IsOnly choices.now name.now m.place m.is_no) }
{
    let mut found = Found::Nothing;
    for (place, choice) in choices.iter().enumerate() {
        found = also(found, has_beginning(choice, false, name), place, false);
        found = also(found, has_beginning(choice, true, name), place, true);
    }
    one(found)
}

/// Returns the option with this whole name, or the only one whose name begins so.
///
/// The name is a long name, alone or behind `no-`. Returns `None` if no option has the name, and
/// none or several have a name that begins so.
pub fn option_named<K>(choices: &[Choice<K>], name: &[u8]) -> Option<Meant>
    // The name means the option at the place of the answer, in the form of the answer. The answer
    // is `None` exactly if the name means no option.
    ensures { MatchOption result
        ((place : ℕ) (is_no : Bool) → Means choices.now name.now place is_no → ⊥)
        (λ m. Means choices.now name.now m.place m.is_no) }
{
    match whole(choices, name) {
        Some(found) => Some(found),
        None => only_begun(choices, name),
    }
}
