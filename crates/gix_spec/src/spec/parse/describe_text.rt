//! Reads names that `git describe` prints, such as `v1.2-5-g0a1b2c3`.

ghost use Rattle.std.specs.Prelude.{◌≡◌, ◌<◌, ◌≤◌, ◌+◌, IfSome, option_map, length, drop};
ghost use Rattle.std.specs.List.{list_all, list_any, prefix_len};
ghost use Rattle.hex.specs.Hex.{is_hex_digit};
ghost use Rattle.gix_spec.specs.Call.{hint_of};
ghost use Rattle.gix_spec.specs.DescribeText.{prefix_with, is_no_dash, last_dash, token_of, is_id_token};
ghost use Rattle.gix_spec.specs.DescribeText.{last_id_dash, hint_of_text, short_form, describe_form, describe_attempt};
ghost use Rattle.gix_spec.specs.Found.{attempt_found};

use super::delegate::PrefixHint;
use super::number::number;
use super::part::Attempt;
use gix_base::hash::Prefix;

/// Returns the prefix call for 4 to 40 hex digits, with the given hint; `None` for other texts.
pub(crate) fn prefix_with<'a>(digits: &'a [u8], hint: Option<PrefixHint<'a>>) -> Option<Attempt<'a>>
    ensures { option_map attempt_found result
        ≡ prefix_with digits.now (option_map hint_of hint.entry) }
{
    if !are_hex_digits(digits) {
        return None;
    }
    match Prefix::from_hex(digits) {
        Ok(prefix) => Some(Attempt { prefix, hint }),
        Err(_) => None,
    }
}

/// Finds the last dash of a text.
fn last_dash(text: &[u8]) -> Option<usize>
    ensures place { result ≡ last_dash text.now }
    ensures within { IfSome result (λ k. k < length text.now) }
{
    for place in (0..text.len()).rev() {
        if text[place] == b'-' {
            return Some(place);
        }
    }
    None
}

/// Counts the bytes before the first dash.
fn token_len(text: &[u8]) -> usize
    ensures len { result ≡ prefix_len is_no_dash text.now }
    ensures within { result ≤ length text.now }
{
    text.iter().take_while(|byte| **byte != b'-').count()
}

/// Returns the bytes before the first dash.
fn token(text: &[u8]) -> &[u8]
    ensures { result.now ≡ token_of text.now }
{
    &text[..token_len(text)]
}

/// Tests whether all bytes are hex digits.
fn are_hex_digits(text: &[u8]) -> bool
    ensures { result ≡ list_all is_hex_digit text.now }
{
    text.iter().all(|byte| byte.is_ascii_hexdigit())
}

/// Tests whether the token at the front of a text is a `g` and hex digits.
#[tactic(auto, unfolding(crate::specs::DescribeText::is_id_token))]
fn is_id_token(text: &[u8]) -> bool
    ensures { result ≡ is_id_token text.now }
{
    match text {
        [b'g', rest @ ..] => are_hex_digits(token(rest)),
        _ => false,
    }
}

/// Finds the last dash that a token of a `g` and hex digits follows.
fn last_id_dash(text: &[u8]) -> Option<usize>
    ensures place { result ≡ last_id_dash text.now }
    ensures within { IfSome result (λ k. k + 1 < length text.now) }
{
    for place in (0..text.len()).rev() {
        if text[place] == b'-' && is_id_token(&text[place + 1..]) {
            return Some(place);
        }
    }
    None
}

/// Reads the text before the dash of the id: a name, a dash and a number, or any other text.
#[tactic(auto, unfolding(crate::specs::DescribeText::hint_of_text))]
fn hint(before: &[u8]) -> PrefixHint<'_>
    ensures { hint_of result ≡ hint_of_text before.now }
{
    let Some(place) = last_dash(before) else {
        return PrefixHint::MustBeCommit;
    };
    match number(&before[place + 1..]) {
        Some(generation) => PrefixHint::DescribeAnchor {
            ref_name: &before[..place],
            generation,
        },
        None => PrefixHint::MustBeCommit,
    }
}

/// Tests whether a text has a byte that is not a dash.
fn has_token(text: &[u8]) -> bool
    ensures { result ≡ list_any is_no_dash text.now }
{
    text.iter().any(|byte| *byte != b'-')
}

/// Returns the prefix call for 4 to 40 hex digits before the last dash.
fn short_form(text: &[u8]) -> Option<Attempt<'_>>
    ensures { option_map attempt_found result ≡ short_form text.now (last_dash text.now) }
{
    let place = last_dash(text)?;
    prefix_with(&text[..place], None)
}

/// Returns the prefix call for a describe text: that of the long form, or else of the short form.
#[tactic(auto, unfolding(crate::specs::DescribeText::describe_attempt))]
pub(crate) fn describe_attempt(text: &[u8]) -> Option<Attempt<'_>>
    ensures { option_map attempt_found result ≡ describe_attempt text.now }
{
    if let Some(place) = last_id_dash(text) {
        let before = &text[..place];
        if has_token(before) {
            return prefix_with(token(&text[place + 2..]), Some(hint(before)));
        }
    }
    short_form(text)
}
