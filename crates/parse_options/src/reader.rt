//! Reads the words of a command line, one option or argument after another.

ghost use Rattle.std.specs.Prelude.{◌≡◌, ◌≢◌, ◌↔◌, ◌∷◌, [], ℕ, List, drop, length, None, Some, MatchOption, MatchResult, IsTrue, slice_get, true, false};
ghost use Rattle.parse_options.specs.Line.{left, slice_of, next_of, first_of, value_of, kind_of, joined_of, Gives, GivesShort, IsShort, HasLetter, Reads, Refuses, IsBadValue, IsNext, IsRefused};
ghost use Rattle.parse_options.specs.Line.{long, short};
ghost use Rattle.parse_options.specs.Reader.{texts, text_at, first, first_text};
ghost use Rattle.parse_options.specs.declared.choice.Choice.{Choice};

use crate::choice::{Choice, Given, Item, Value};
use crate::error::Error;
use crate::named::option_named;
use crate::sorts::{Sort, sort_of};
use crate::text::cut_value;
use std::marker::Model;

/// Reads the words of a command line, one after another.
#[derive(Drop)]
pub struct Reader<'w, K: 'static> {
    choices: &'static [Choice<K>],
    words: &'w [&'w [u8]],
    /// The place of the next word.
    next: usize,
    /// The place of the next letter in the word before, if that has short options; else 0.
    letter: usize,
    /// Whether the options have ended.
    is_after_end: bool,
}

impl<'w, K: 'static> Model for Reader<'w, K> {
    ghost use Rattle.parse_options.specs.Line.{Line};
    ghost use Rattle.parse_options.specs.Reader.{line_of};

    ghost Value = { Line K };

    ghost view = { line_of };
}

/// Returns the word at a place; an empty one past the end.
fn text_at<'w>(words: &'w [&'w [u8]], place: usize) -> &'w [u8]
    ensures { result.now ≡ text_at words.now place }
{
    words.get(place).copied().unwrap_or(&[])
}

/// Returns what follows a place of a text.
fn from(text: &[u8], place: usize) -> &[u8]
    ensures { result.now ≡ drop place text.now }
{
    text.get(place..).unwrap_or(&[])
}

/// Tells whether a letter is the short form of an option.
fn has_letter<K>(choice: &Choice<K>, letter: u8) -> bool
    ensures { IsTrue result ↔ IsShort choice.now letter }
{
    choice.short == letter && letter != 0
}

/// Returns the first option with a short form of this letter.
fn with_letter<K>(choices: &[Choice<K>], letter: u8) -> Option<&Choice<K>>
    ensures { MatchOption result ((choice : Choice K) → HasLetter choices.now letter choice → ⊥)
        (λ x. HasLetter choices.now letter x.now) }
{
    for (place, choice) in choices.iter().enumerate() {
        if has_letter(choice, letter) {
            return Some(choice);
        }
    }
    None
}

/// Returns the option at a place.
fn at<K>(choices: &[Choice<K>], place: usize) -> Option<&Choice<K>>
    ensures { MatchOption result (slice_get choices.now place ≡ None)
        (λ x. slice_get choices.now place ≡ Some x.now) }
{
    choices.get(place)
}

/// Returns the first letter.
fn first_letter(letters: &[u8]) -> Option<u8>
    ensures { MatchOption result (letters.now ≡ []) (λ b. letters.now ≡ b ∷ drop 1 letters.now) }
{
    letters.first().copied()
}

/// Tells whether an option has no value.
fn is_never(value: Value) -> bool
    ensures { IsTrue result ↔ (value ≡ Value.Never) }
{
    match value {
        Value::Never => true,
        Value::Always | Value::Joined | Value::UnlessLast => false,
    }
}

/// Returns the letters behind a short option, if there are any.
fn joined(letters: &[u8]) -> Option<&[u8]>
    ensures { slice_of result ≡ joined_of letters.now }
{
    if letters.is_empty() {
        None
    } else {
        Some(letters)
    }
}

/// Returns whether an option in a form has a value.
fn kind<K>(choice: &Choice<K>, is_no: bool) -> Value
    ensures { result ≡ kind_of choice.now is_no }
{
    if is_no { Value::Never } else { choice.value }
}

impl<'w, K: Copy + 'static> Reader<'w, K> {
    /// Begins with the first word. The table says which options there are.
    pub fn new(choices: &'static [Choice<K>], words: &'w [&'w [u8]]) -> Reader<'w, K>
        // All words are left to read, and no letters of short options. The options have not ended.
        // The table is `choices`.
        ensures { result ≡ record { choices = choices.now; letters = []; words = texts words.now; only_arguments = false } }
    {
        Reader {
            choices,
            words,
            next: 0,
            letter: 0,
            is_after_end: false,
        }
    }

    /// Returns the word that was read last; before any was read, the first one.
    pub fn last_word(&self) -> &'w [u8] {
        text_at(self.words, self.next.saturating_sub(1))
    }

    /// Returns the letters that are left of a word.
    fn letters(&self) -> &'w [u8]
        ensures { result.now ≡ self.now.letters }
    {
        if self.letter == 0 {
            &[]
        } else {
            from(
                text_at(self.words, self.next.saturating_sub(1)),
                self.letter,
            )
        }
    }

    /// Leaves the first of the letters behind.
    fn pass_letter(&mut self)
        ensures { self.new ≡ left self.old (drop 1 self.old.letters) self.old.words self.old.only_arguments }
    {
        let word = text_at(self.words, self.next.saturating_sub(1));
        if self.letter != 0 && self.letter < word.len() {
            self.letter += 1;
        }
    }

    /// Whether no letters are left.
    fn is_at_word(&self) -> bool
        ensures { IsTrue result ↔ (self.now.letters ≡ []) }
    {
        first_letter(self.letters()).is_none()
    }

    /// Returns the next word.
    fn peek(&self) -> Option<&'w [u8]>
        ensures { MatchOption result (self.now.words ≡ []) (λ x. self.now.words ≡ x.now ∷ drop 1 self.now.words) }
    {
        if self.next < self.words.len() {
            Some(self.words[self.next])
        } else {
            None
        }
    }

    /// Takes the next word.
    #[tactic(auto, using(crate::proofs::Words::drop_more, crate::proofs::Words::first_drop))]
    fn take(&mut self) -> Option<&'w [u8]>
        ensures word { slice_of result ≡ first self.old.words }
        ensures after { self.new ≡ left self.old [] (drop 1 self.old.words) self.old.only_arguments }
    {
        self.letter = 0;
        if self.next < self.words.len() {
            let word = self.words[self.next];
            self.next += 1;
            return Some(word);
        }
        None
    }

    /// Takes the next word, and leaves the letters behind its dash.
    fn enter(&mut self)
        requires { self.old.words ≢ [] }
        ensures { self.new ≡ left self.old (drop 1 (first_text self.old.words)) (drop 1 self.old.words) self.old.only_arguments }
    {
        self.next += 1;
        self.letter = 1;
    }

    /// Ends the options.
    fn end_options(&mut self)
        ensures { self.new ≡ left self.old self.old.letters self.old.words true }
    {
        self.is_after_end = true;
    }

    /// Takes the next word as an argument.
    fn argument(&mut self) -> Option<Item<'w, K>>
        ensures next { next_of result ≡ first_of self.old.words }
        ensures after { self.new ≡ left self.old [] (drop 1 self.old.words) self.old.only_arguments }
    {
        match self.take() {
            Some(word) => Some(Item::Argument(word)),
            None => None,
        }
    }

    /// Leaves the letters behind.
    fn leave_letters(&mut self)
        ensures { self.new ≡ left self.old [] self.old.words self.old.only_arguments }
    {
        self.letter = 0;
    }

    /// Returns the value of an option, which the next word may be.
    ///
    /// Returns `None` if the value is missing or not allowed.
    fn value(&mut self, kind: Value, joined: Option<&'w [u8]>) -> Option<Option<&'w [u8]>>
        ensures value { MatchOption result (value_of kind (slice_of joined.entry) self.old.words ≡ None)
            (λ x. value_of kind (slice_of joined.entry) self.old.words ≡ Some (slice_of x, self.new.words)) }
        ensures after { self.new ≡ left self.old [] self.new.words self.old.only_arguments }
    {
        self.leave_letters();
        match kind {
            Value::Joined => Some(joined),
            Value::Never => if joined.is_some() { None } else { Some(None) },
            Value::Always | Value::UnlessLast if joined.is_some() => Some(joined),
            Value::UnlessLast => Some(self.take()),
            Value::Always => match self.take() {
                Some(word) => Some(Some(word)),
                None => None,
            },
        }
    }

    /// Reads an option in a form, with a text joined to it or none. An error quotes the text.
    fn option(
        &mut self,
        choice: &Choice<K>,
        is_no: bool,
        joined: Option<&'w [u8]>,
        text: &'w [u8],
    ) -> Result<Option<Item<'w, K>>, Error<'w>>
        ensures { MatchResult result
            (λ x. Gives self.old choice.now is_no (slice_of joined.entry) self.old.words (next_of x) self.new)
            (λ e. IsBadValue e text.now
            × (value_of (kind_of choice.now is_no) (slice_of joined.entry) self.old.words ≡ None)) }
    {
        match self.value(kind(choice, is_no), joined) {
            Some(value) => Ok(Some(Item::Option(Given {
                key: choice.key,
                value,
                is_no,
            }))),
            None => Err(Error::BadValue(text)),
        }
    }

    /// Reads a long option, without its dashes.
    fn long(&mut self, text: &'w [u8]) -> Result<Option<Item<'w, K>>, Error<'w>>
        ensures { MatchResult result
            (λ x. Reads self.old (long text.now) self.old.words (next_of x) self.new)
            (λ e. Refuses self.old (long text.now) self.old.words e) }
    {
        let choices = self.choices;
        let (name, joined) = cut_value(text);
        let Some(meant) = option_named(choices, name) else {
            return Err(Error::Unread(text));
        };
        let Some(choice) = at(choices, meant.place) else {
            return Err(Error::Unread(text));
        };
        self.option(choice, meant.is_no, joined, text)
    }

    /// Reads a short option. The letters behind it are its value or the next options. An error quotes
    /// all letters.
    fn lettered(
        &mut self,
        choice: &Choice<K>,
        rest: &'w [u8],
        letters: &'w [u8],
    ) -> Result<Option<Item<'w, K>>, Error<'w>>
        requires { rest.now ≡ drop 1 self.old.letters }
        ensures { MatchResult result
            (λ x. GivesShort self.old choice.now rest.now self.old.words (next_of x) self.new)
            (λ e. IsBadValue e letters.now × (choice.now.value ≢ Value.Never)
            × (value_of choice.now.value (joined_of rest.now) self.old.words ≡ None)) }
    {
        if is_never(choice.value) {
            self.pass_letter();
            return Ok(Some(Item::Option(Given {
                key: choice.key,
                value: None,
                is_no: false,
            })));
        }
        self.option(choice, false, joined(rest), letters)
    }

    /// Reads the first of the letters.
    fn short(&mut self) -> Result<Option<Item<'w, K>>, Error<'w>>
        ensures { (letter : ℕ) (rest : List ℕ) → self.old.letters ≡ letter ∷ rest → MatchResult result
            (λ x. Reads self.old (short letter rest) self.old.words (next_of x) self.new)
            (λ e. Refuses self.old (short letter rest) self.old.words e) }
    {
        let choices = self.choices;
        let letters = self.letters();
        let Some(letter) = first_letter(letters) else {
            return Ok(None);
        };
        let Some(choice) = with_letter(choices, letter) else {
            return Err(Error::Unread(letters));
        };
        self.lettered(choice, from(letters, 1), letters)
    }

    /// Reads the next word.
    fn word(&mut self, word: &'w [u8]) -> Result<Option<Item<'w, K>>, Error<'w>>
        requires letters { self.old.letters ≡ [] }
        requires words { self.old.words ≡ word.now ∷ drop 1 self.old.words }
        ensures { MatchResult result
            (λ x. IsNext self.old (next_of x) self.new)
            (λ e. IsRefused self.old e) }
    {
        if self.is_after_end {
            return Ok(self.argument());
        }
        match sort_of(word) {
            Sort::Argument => Ok(self.argument()),
            Sort::End => {
                self.take();
                self.end_options();
                Ok(self.argument())
            }
            Sort::Long(text) => {
                self.take();
                self.long(text)
            }
            Sort::Short => {
                self.enter();
                self.short()
            }
        }
    }

    /// Returns the next option or argument; `None` after the last.
    ///
    /// After an error, what is left to read is not promised.
    ///
    /// # Errors
    ///
    /// - `Unread` for an option that is not in the table, and for a name that begins several.
    /// - `BadValue` for a value that is missing or that the option cannot have.
    pub fn read(&mut self) -> Result<Option<Item<'w, K>>, Error<'w>>
        // The answer is the next option or argument of the line, or `None` at the end, and the rest
        // of the line is left. `Unread` and `BadValue` quote the next option, which means none of
        // the table, or whose value is missing or not allowed.
        ensures { MatchResult result
            (λ x. IsNext self.old (next_of x) self.new)
            (λ e. IsRefused self.old e) }
    {
        if !self.is_at_word() {
            return self.short();
        }
        match self.peek() {
            Some(word) => self.word(word),
            None => Ok(None),
        }
    }
}
