//! Counts units back: the months and the seconds of `1 year 2 weeks ago`.

ghost use Rattle.gix_date.specs.Ago.{unit_of, ago_of};
ghost use Rattle.gix_date.specs.AgoSteps.{total, more, with_more, with_count};
ghost use Rattle.gix_date.specs.Numerals.{number_of};
ghost use Rattle.gix_date.specs.Shape.{is_word};
ghost use Rattle.std.specs.Prelude.{◌≡◌, ◌+◌, ◌*◌, ◌≤◌, ◌||◌, IfSome};

use super::DateError;
use super::numerals::{is_digits, number};
use super::shape::is_named;
use super::words::first_word;

/// Is a number of months back, and a number of seconds.
#[derive(Clone, Copy)]
pub struct Ago {
    pub months: u64,
    pub seconds: u64,
}

/// Tests whether a word is one of two.
fn is_either(word: &[u8], one: &[u8], many: &[u8]) -> bool
    ensures { result ≡ (is_word one.now word.now || is_word many.now word.now) }
{
    is_named(word, one) || is_named(word, many)
}

/// Returns one of the unit that a word names, in the singular or the plural.
#[tactic(auto, unfolding(crate::specs::Ago::unit_of))]
fn unit_named(word: &[u8]) -> Option<Ago>
    ensures value { result ≡ unit_of word.now }
    ensures some { IfSome result (λ each. 1 ≤ each.months + each.seconds) }
{
    let (months, seconds) = if is_either(word, b"second", b"seconds") {
        (0, 1)
    } else if is_either(word, b"minute", b"minutes") {
        (0, 60)
    } else if is_either(word, b"hour", b"hours") {
        (0, 3600)
    } else if is_either(word, b"day", b"days") {
        (0, 86400)
    } else if is_either(word, b"week", b"weeks") {
        (0, 604_800)
    } else if is_either(word, b"month", b"months") {
        (1, 0)
    } else if is_either(word, b"year", b"years") {
        (12, 0)
    } else {
        return None;
    };
    Some(Ago { months, seconds })
}

/// Adds a number of units to a total, up to the greatest `i64`.
#[tactic(auto, unfolding(crate::specs::AgoSteps::total))]
fn total(before: u64, number: u64, each: u64) -> Result<u64, DateError>
    ensures { result ≡ total (before + number * each) }
{
    let Some(product) = number.checked_mul(each) else {
        return Err(DateError::OutOfRange);
    };
    match product.checked_add(before) {
        Some(sum) if sum < 1 << 63 => Ok(sum),
        _ => Err(DateError::OutOfRange),
    }
}

/// Adds a number of units. A number that 64 bits cannot hold gives a total out of range, too.
#[tactic(auto, unfolding(crate::specs::AgoSteps::more, crate::specs::AgoSteps::total))]
fn more(ago: Ago, digits: &[u8], each: Ago) -> Result<Ago, DateError>
    requires { 1 ≤ each.months + each.seconds }
    ensures { result ≡ more ago (number_of digits.now) each }
{
    let number = number(digits).ok_or(DateError::OutOfRange)?;
    let months = total(ago.months, number, each.months)?;
    let seconds = total(ago.seconds, number, each.seconds)?;
    Ok(Ago { months, seconds })
}

/// Adds one more count to the sum of the counts before.
#[tactic(auto, unfolding(crate::specs::AgoSteps::with_more))]
fn with_more(
    sum: Option<Result<Ago, DateError>>,
    digits: &[u8],
    each: Ago,
) -> Result<Ago, DateError>
    requires { 1 ≤ each.months + each.seconds }
    ensures { result ≡ with_more sum (number_of digits.now) each }
{
    let ago = match sum {
        None => Ago {
            months: 0,
            seconds: 0,
        },
        Some(sum) => sum?,
    };
    more(ago, digits, each)
}

/// Adds one more count, if two words are a number and a unit.
#[tactic(auto, unfolding(crate::specs::AgoSteps::with_count))]
fn with_count(
    sum: Option<Result<Ago, DateError>>,
    number: &[u8],
    unit: &[u8],
) -> Option<Result<Ago, DateError>>
    ensures { result ≡ with_count sum number.now unit.now }
{
    if !is_digits(number) {
        return None;
    }
    let each = unit_named(unit)?;
    Some(with_more(sum, number, each))
}

/// Reads how far back a text counts: one or more numbers of units, then `ago`.
///
/// The answer is `None` for another text. A text whose sum is out of range is read to its end, too,
/// because it may turn out not to be such a text.
#[tactic(auto, unfolding(crate::specs::AgoSteps::ago_from))]
pub fn ago_of(text: &[u8]) -> Option<Result<Ago, DateError>>
    ensures { result ≡ ago_of text.now }
{
    let mut sum = None;
    let mut rest = text;
    loop {
        let (word, after) = first_word(rest);
        let Some(after) = after else {
            return if is_named(word, b"ago") { sum } else { None };
        };
        let (unit, after) = first_word(after);
        sum = Some(with_count(sum, word, unit)?);
        rest = after?;
    }
}
