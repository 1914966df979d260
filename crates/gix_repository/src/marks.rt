//! Tells how far git's reading of a mark such as `@{yesterday}` may be from the parser's
//! (gitrevisions, `<refname>@{<date>}`, `<refname>@{<n>}`).
//!
//! git reads dates by the local clock and time zone, which are not known here.

use gix_spec::spec::parse::delegate::ReflogLookup;
use memchr::{memchr, memchr2, memmem};

/// The units of a fixed length that are counted back.
static UNITS: [&str; 5] = ["second", "minute", "hour", "day", "week"];

/// The units that depend on the date.
static LONG_UNITS: [&str; 2] = ["month", "year"];

/// The second of a date in the form `1234567890 +0200` is less than this. git knows no date after
/// 2099.
const MOST_SECONDS: u64 = 4_000_000_000;

/// Returns what stands in the first braces behind `@` of a revision: `2` of `main@{2}`.
pub(crate) fn first_mark(text: &[u8]) -> &[u8] {
    let Some(at) = memmem::find(text, b"@{") else {
        return b"";
    };
    let rest = text.get(at.saturating_add(2)..).unwrap_or(&[]);
    match memchr(b'}', rest) {
        Some(len) => rest.get(..len).unwrap_or(rest),
        None => rest,
    }
}

/// Returns the number that a text is, if it has digits only and fits 64 bits.
fn number(text: &[u8]) -> Option<u64> {
    if text.is_empty() {
        return None;
    }
    let mut number = 0u64;
    for byte in text {
        let digit = char::from(*byte).to_digit(10)?;
        number = number.checked_mul(10)?.checked_add(u64::from(digit))?;
    }
    Some(number)
}

/// Returns the word before the first space or dot of a text, and what is behind that.
fn cut_word(text: &[u8]) -> Option<(&[u8], &[u8])> {
    let at = memchr2(b' ', b'.', text)?;
    Some((text.get(..at)?, text.get(at.saturating_add(1)..)?))
}

/// Tests whether a word names one of the units, in the singular or with an `s`.
fn is_unit(word: &[u8], units: &[&str]) -> bool {
    let bare = match word.strip_suffix(b"s") {
        Some(bare) => bare,
        None => word,
    };
    units
        .iter()
        .any(|unit| bare.eq_ignore_ascii_case(unit.as_bytes()))
}

/// Tests whether a text counts back, as in `2 weeks ago`: one number from 1 to 9999, and one unit.
fn counts_back(text: &[u8], units: &[&str]) -> bool {
    let Some((count, rest)) = cut_word(text) else {
        return false;
    };
    let Some((unit, rest)) = cut_word(rest) else {
        return false;
    };
    count.len() <= 4
        && !count.starts_with(b"0")
        && number(count).is_some()
        && is_unit(unit, units)
        && rest.eq_ignore_ascii_case(b"ago")
}

/// Tests whether a text is an offset from UTC, such as `+0200` and `+02:00`. To git -00:01 is none.
fn is_offset(text: &[u8]) -> bool {
    match text {
        [b'+', ..] => true,
        [b'-', b'0', b'0', rest @ ..] => rest.ends_with(b"00"),
        [b'-', ..] => true,
        _ => false,
    }
}

/// Tests whether a text is in the form `1234567890 +0200`, where git reads seconds.
fn has_seconds(text: &[u8]) -> bool {
    match cut_word(text) {
        Some((seconds, zone)) => {
            matches!(zone, [b'+' | b'-', ..])
                && seconds.len() >= 9
                && !seconds.starts_with(b"0")
                && number(seconds).is_some_and(|seconds| seconds < MOST_SECONDS)
        }
        None => false,
    }
}

/// Tests whether a text begins with a day such as `1979-02-26`, in a year that git knows.
fn begins_with_day(text: &[u8]) -> bool {
    let Some(year) = text.get(..4) else {
        return false;
    };
    text.get(4) == Some(&b'-') && number(year).is_some_and(|year| (1971..2099).contains(&year))
}

/// Returns what is behind a day and a time of day, without a space; empty if nothing is.
fn zone_of(text: &[u8]) -> &[u8] {
    let zone = text.get(19..).unwrap_or(&[]);
    zone.strip_prefix(b" ").unwrap_or(zone)
}

/// Tests whether a text has a day and a time of day with an offset, as in `1979-02-26 18:30:00
/// +0100`.
fn has_zone(text: &[u8]) -> bool {
    let zone = zone_of(text);
    begins_with_day(text) && (zone == b"Z".as_slice() || is_offset(zone))
}

/// Tests whether git reads a date as the parser does, if the parser reads it.
fn is_date_alike(text: &[u8]) -> bool {
    text.eq_ignore_ascii_case(b"now")
        || text.eq_ignore_ascii_case(b"yesterday")
        || counts_back(text, &UNITS)
        || has_seconds(text)
        || has_zone(text)
}

/// By how many seconds the date that git reads in a mark may be before or after the one that the
/// parser reads.
#[derive(Clone, Copy)]
pub(crate) struct Doubt {
    pub(crate) before: i64,
    pub(crate) after: i64,
}

/// There is no doubt.
const NO_DOUBT: Doubt = Doubt {
    before: 0,
    after: 0,
};

/// The local clock is at most 14 hours ahead of UTC, and at most 12 hours behind it.
const DOUBT_OF_ZONE: Doubt = Doubt {
    before: 50_400,
    after: 43_200,
};

/// The time of a day without one is that of the moment, by the local clock.
const DOUBT_OF_DAY: Doubt = Doubt {
    before: 50_400,
    after: 129_600,
};

/// A day that a month does not have is its last day, or to git one of the first three of the next.
/// The local date may be another one.
const DOUBT_OF_MONTH: Doubt = Doubt {
    before: 432_000,
    after: 432_000,
};

/// Returns how far the entry or date that git reads in a mark may be from the one that the parser
/// reads; `None` if they may have nothing in common.
pub(crate) fn doubt_about(mark: &[u8], query: ReflogLookup) -> Option<Doubt> {
    if number(mark).is_some() {
        return Some(NO_DOUBT);
    }
    match query {
        ReflogLookup::Date(_) if is_date_alike(mark) => Some(NO_DOUBT),
        ReflogLookup::Date(_) if begins_with_day(mark) => match mark.len() {
            10 => Some(DOUBT_OF_DAY),
            19 => Some(DOUBT_OF_ZONE),
            _ => None,
        },
        ReflogLookup::Date(_) if counts_back(mark, &LONG_UNITS) => Some(DOUBT_OF_MONTH),
        _ => None,
    }
}
