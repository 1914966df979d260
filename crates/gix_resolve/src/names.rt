//! Resolves names in git's own order: an id, then a ref, then an abbreviated object name.

ghost use Rattle.std.specs.Prelude.{◌≡◌, ◌+◌, ◌≤◌, IfSome, None, option_map, length, drop};
ghost use Rattle.std.specs.List.{list_all};
ghost use Rattle.hex.specs.Hex.{is_hex_digit};
ghost use Rattle.gix_revision.specs.DescribeText.{prefix_with};
ghost use Rattle.gix_revision.specs.Marks.{greatest_below};
ghost use Rattle.gix_revision.specs.Prefix.{prefix_text};
ghost use Rattle.gix_resolve.specs.Known.{known_by};
ghost use Rattle.gix_resolve.specs.RevParse.{is_id_mark, digits_in, attempt_by, is_whole_id};
ghost use Rattle.gix_resolve.specs.RevParse.{by_digits, by_reference, by_rev_name};

use crate::lookup::Ids;
use crate::refusal::Refusal;
use crate::state::State;
use crate::table::Table;
use gix_revision::hash::Prefix;
use std::alloc::Allocator;

/// Tests whether a name has `-g` at a place, and something before it.
fn is_id_mark(name: &[u8], place: usize) -> bool
    requires { place ≤ length name.now }
    ensures { result ≡ is_id_mark name.now place }
{
    place > 0 && name[place..].starts_with(b"-g")
}

/// Finds the last place of a name that has `-g`, and something before it.
fn last_id_mark(name: &[u8]) -> Option<usize>
    ensures place { result ≡ greatest_below (is_id_mark name.now) (length name.now) }
    ensures within { IfSome result (λ k. k + 2 ≤ length name.now) }
{
    for place in (0..name.len()).rev() {
        if is_id_mark(name, place) {
            return Some(place);
        }
    }
    None
}

/// Returns what may be an abbreviated object name in a name.
///
/// It is the text after the last `-g` that has something before it, as in what `git describe`
/// prints, or else the whole name.
#[tactic(auto, unfolding(crate::specs::RevParse::digits_in))]
fn digits_in(name: &[u8]) -> &[u8]
    ensures { result.now ≡ digits_in name.now }
{
    match last_id_mark(name) {
        Some(place) => &name[place + 2..],
        None => name,
    }
}

fn are_hex_digits(text: &[u8]) -> bool
    ensures { result ≡ list_all is_hex_digit text.now }
{
    text.iter().all(|byte| byte.is_ascii_hexdigit())
}

fn is_whole_id(name: &[u8]) -> bool
    ensures { result ≡ is_whole_id name.now }
{
    name.len() == 40 && are_hex_digits(name)
}

/// Reads a prefix of 4 to 40 hex digits.
fn prefix_of(digits: &[u8]) -> Option<Prefix>
    ensures { option_map attempt_by result ≡ prefix_with digits.now None }
{
    if !are_hex_digits(digits) {
        return None;
    }
    match Prefix::from_hex(digits) {
        Ok(prefix) => Some(prefix),
        Err(_) => None,
    }
}

impl State {
    /// Returns the state after a text that may be an abbreviated object name.
    fn abbreviated<A: Allocator, I: Ids>(
        self,
        table: &Table<A, I>,
        digits: &[u8],
    ) -> Result<State, Refusal>
        ensures { result ≡ by_digits (known_by I.ids table.now) self digits.now }
    {
        match prefix_of(digits) {
            Some(prefix) => self.completed(table, prefix),
            None => Err(Refusal::NoName),
        }
    }

    /// Returns the state after a ref name or, if there is no such ref, an abbreviated object name.
    fn referred<A: Allocator, I: Ids>(
        self,
        table: &Table<A, I>,
        name: &[u8],
    ) -> Result<State, Refusal>
        ensures { result ≡ by_reference (known_by I.ids table.now) self name.now }
    {
        match self.named(table, name) {
            Ok(next) => Ok(next),
            Err(_) => self.abbreviated(table, digits_in(name)),
        }
    }

    /// Returns the state after a name. 40 hex digits are that id, whatever refs exist.
    pub(crate) fn called<A: Allocator, I: Ids>(
        self,
        table: &Table<A, I>,
        name: &[u8],
    ) -> Result<State, Refusal>
        ensures { result ≡ by_rev_name (known_by I.ids table.now) self name.now }
    {
        if is_whole_id(name) {
            self.abbreviated(table, name)
        } else {
            self.referred(table, name)
        }
    }
}
