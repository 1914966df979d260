//! Reads the dates that limit a list (git-rev-list, "Commit Limiting").
//!
//! Supported are dates that depend neither on the local time nor on the calendar.

use git_session::integer::whole;
use git_session::session::Session;
use git_session::stop::{Stop, not_supported};
use gix_date::date::{Time, parse};
use std::alloc::Global;

/// The units whose length is fixed.
static UNITS: [&str; 5] = ["second", "minute", "hour", "day", "week"];

/// The first moment of the year 2100, which git does not read.
const LAST: i64 = 4_102_444_800;

/// Tells whether a text is a number, a unit and `ago`.
fn is_age(text: &[u8]) -> bool {
    let mut words = text.split(|byte| matches!(*byte, b'.' | b' '));
    let (Some(number), Some(unit)) = (words.next(), words.next()) else {
        return false;
    };
    let unit = unit.strip_suffix(b"s").unwrap_or(unit);
    let is_last = words.next() == Some(b"ago".as_slice()) && words.next().is_none();
    // git reads no count of more than two digits that begins with 0.
    let is_padded = number.len() > 2 && number.starts_with(b"0");
    is_last
        && !is_padded
        && number.len() <= 4
        && whole(number).is_some()
        && UNITS.iter().any(|one| one.as_bytes() == unit)
}

/// Tells whether a text is a day, a time of the day and a time zone.
fn is_zoned(text: &[u8]) -> bool {
    let (Some(day), Some(time)) = (text.get(..10), text.get(10..)) else {
        return false;
    };
    let has_zone = time.ends_with(b"Z") || time.iter().any(|byte| matches!(*byte, b'+' | b'-'));
    has_zone
        && day
            .iter()
            .all(|byte| byte.is_ascii_digit() || *byte == b'-')
}

/// Returns the end for a date that is not supported.
fn unsupported(alloc: Global, text: &[u8]) -> Stop {
    not_supported(alloc, &[b"the date '", text, b"' is not supported"])
}

/// Returns the number that at most ten digits say.
fn number_of(text: &[u8]) -> Option<i64> {
    if text.len() > 10 {
        return None;
    }
    whole(text)
}

/// Returns the moment of `--max-age` or `--min-age`, in seconds since 1970.
///
/// # Errors
///
/// `NotSupported` for another text than digits, and for a number that does not fit 31 bits.
pub(crate) fn seconds(alloc: Global, text: &[u8]) -> Result<i64, Stop> {
    match number_of(text) {
        Some(seconds) if seconds <= i64::from(i32::MAX) => Ok(seconds),
        _ => Err(unsupported(alloc, text)),
    }
}

/// Returns the seconds since 1970 that a text says; `None` if it is not supported.
fn moment_of(now: i64, text: &[u8]) -> Option<i64> {
    if let Some(seconds) = number_of(text) {
        return Some(seconds);
    }
    if !is_age(text) && !is_zoned(text) {
        return None;
    }
    let now = Time {
        seconds: now,
        offset: 0,
    };
    let moment = parse(text, now).ok()?;
    // To git the offset -0001 is none.
    if moment.offset == -60 {
        return None;
    }
    Some(moment.seconds)
}

/// Returns the moment of `--since` or `--until`, in seconds since 1970.
///
/// # Errors
///
/// `NotSupported` for a date of another form, and for one before 1973 or after 2099.
pub(crate) fn moment(session: &Session<'_>, text: &[u8]) -> Result<i64, Stop> {
    match moment_of(session.asker.now, text) {
        Some(seconds) if (100_000_000..LAST).contains(&seconds) => Ok(seconds),
        _ => Err(unsupported(session.alloc, text)),
    }
}
