//! Writes dates as git does (git-log, "--date").

use crate::error::{Refusal, Unsupported};
use jiff_core::civil::DateTime;
use jiff_core::{Offset, Timestamp};
use std::alloc::Allocator;
use std::io::Write;

/// The names of the days of the week.
static DAYS: [&str; 7] = ["Mon", "Tue", "Wed", "Thu", "Fri", "Sat", "Sun"];

/// The names of the months.
static MONTHS: [&str; 12] = [
    "Jan", "Feb", "Mar", "Apr", "May", "Jun", "Jul", "Aug", "Sep", "Oct", "Nov", "Dec",
];

/// Returns how many seconds a time zone is ahead of UTC, of which `zone` has the digits: 130 for
/// `+0130`.
pub(crate) fn offset_of(zone: i64) -> Option<i64> {
    let minutes = (zone / 100).checked_mul(60)?.checked_add(zone % 100)?;
    minutes.checked_mul(60)
}

/// Returns what a clock shows that is so many seconds ahead of UTC.
fn clock(seconds: i64, offset: i64) -> Option<DateTime> {
    let nanoseconds = i128::from(seconds).checked_mul(1_000_000_000)?;
    let timestamp = Timestamp::from_nanosecond(nanoseconds).ok()?;
    let offset = Offset::from_seconds(offset).ok()?;
    Some(offset.to_datetime(timestamp))
}

/// Returns the year, month and day of a moment in a time zone.
fn date_of(seconds: i64, offset: i64) -> Option<(i16, u8, u8)> {
    let date = clock(seconds, offset)?.date;
    Some((date.year, date.month, date.day))
}

/// Adds a date in the form 2005-04-07. A date that has none is that of the epoch, as in git.
pub(crate) fn push_date<A: Allocator>(
    to: &mut Vec<u8, A>,
    seconds: i64,
    offset: i64,
) -> Result<(), Refusal> {
    let (year, month, day) = date_of(seconds, offset).unwrap_or((1970, 1, 1));
    match write!(to, "{year:04}-{month:02}-{day:02}") {
        Ok(()) => Ok(()),
        Err(_) => Err(Refusal::OutOfMemory),
    }
}

/// Adds the day of a clock in the form `Thu, 7 Apr 2005`.
fn push_day<A: Allocator>(to: &mut Vec<u8, A>, clock: DateTime) -> Result<(), Refusal> {
    let date = clock.date;
    let name = DAYS.get(date.weekday().index() as usize).unwrap_or(&"");
    let month = MONTHS.get((date.month as usize).saturating_sub(1));
    let month = month.unwrap_or(&"");
    let (day, year) = (date.day, date.year);
    match write!(to, "{name}, {day} {month} {year}") {
        Ok(()) => Ok(()),
        Err(_) => Err(Refusal::OutOfMemory),
    }
}

/// Adds the time of a clock with its time zone, in the form ` 15:13:13 -0700`.
fn push_time<A: Allocator>(to: &mut Vec<u8, A>, clock: DateTime, zone: i32) -> Result<(), Refusal> {
    let (hour, minute, second) = (clock.time.hour, clock.time.minute, clock.time.second);
    let sign = if zone < 0 { '-' } else { '+' };
    let zone = zone.unsigned_abs();
    match write!(to, " {hour:02}:{minute:02}:{second:02} {sign}{zone:04}") {
        Ok(()) => Ok(()),
        Err(_) => Err(Refusal::OutOfMemory),
    }
}

/// Adds a date in the form `Thu, 7 Apr 2005 15:13:13 -0700`, of which `zone` is -700.
///
/// # Errors
///
/// - `NotSupported` if its clock shows a year before 1970 or after 9999. git refuses some of these
///   dates.
/// - `OutOfMemory` if an allocation failed.
pub(crate) fn push_full_date<A: Allocator>(
    to: &mut Vec<u8, A>,
    seconds: u64,
    zone: i32,
) -> Result<(), Refusal> {
    let offset = offset_of(i64::from(zone)).unwrap_or(0);
    let seconds = i64::try_from(seconds).unwrap_or(i64::MAX);
    if seconds.saturating_add(offset) < 0 {
        return Err(Refusal::NotSupported(Unsupported::Year));
    }
    let Some(clock) = clock(seconds, offset) else {
        return Err(Refusal::NotSupported(Unsupported::Year));
    };
    push_day(to, clock)?;
    push_time(to, clock, zone)
}
