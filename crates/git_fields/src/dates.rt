//! Reads dates of commits and tags, and writes them as git does (git-log, `--date`).

use git_session::integer::whole;
use git_session::session::{Asker, Session};
use git_session::stop::{Stop, not_supported};
use jiff_core::civil::DateTime;
use jiff_core::{Offset, Timestamp};
use std::alloc::Global;
use std::io::Write;

/// Says how a date is written.
#[derive(Clone, Copy, PartialEq, Eq)]
pub enum Style {
    /// `Thu Apr 7 22:13:13 2005 +0200`
    Usual,
    /// `2005-04-07 22:13:13 +0200`
    Iso,
    /// `2005-04-07T22:13:13+02:00`
    IsoStrict,
    /// `Thu, 7 Apr 2005 22:13:13 +0200`
    Rfc,
    /// `2005-04-07`
    Short,
    /// `1112904793 +0200`
    Raw,
    /// `1112904793`
    Unix,
    /// `2 days ago`
    Relative,
}

/// The names of the days of the week.
static DAYS: [&str; 7] = ["Mon", "Tue", "Wed", "Thu", "Fri", "Sat", "Sun"];

/// The names of the months.
static MONTHS: [&str; 12] = [
    "Jan", "Feb", "Mar", "Apr", "May", "Jun", "Jul", "Aug", "Sep", "Oct", "Nov", "Dec",
];

/// Returns the style with this name behind the colon of a field; `None` if it is not supported. All
/// but these depend on the local time.
pub fn style_of(name: &[u8]) -> Option<Style> {
    for (word, style) in [
        (b"default".as_slice(), Style::Usual),
        (b"iso", Style::Iso),
        (b"iso8601", Style::Iso),
        (b"iso-strict", Style::IsoStrict),
        (b"iso8601-strict", Style::IsoStrict),
        (b"rfc", Style::Rfc),
        (b"rfc2822", Style::Rfc),
        (b"short", Style::Short),
        (b"raw", Style::Raw),
        (b"unix", Style::Unix),
        (b"relative", Style::Relative),
    ] {
        if name == word {
            return Some(style);
        }
    }
    None
}

/// A date.
#[derive(Clone, Copy)]
pub struct Date {
    /// Seconds since 1970.
    pub seconds: i64,
    /// The digits of the time zone: -700 for `-0700`.
    zone: i32,
}

/// Returns the number of decimal digits alone, of which there are at most 12.
fn number(digits: &[u8]) -> Option<i64> {
    if digits.len() > 12 {
        return None;
    }
    whole(digits)
}

/// Returns the number of a time zone: a sign and four digits.
fn zone_of(text: &[u8]) -> Option<i32> {
    let (sign, digits) = text.split_first()?;
    if digits.len() != 4 {
        return None;
    }
    let zone = i32::try_from(number(digits)?).ok()?;
    match *sign {
        b'+' => Some(zone),
        b'-' => zone.checked_neg(),
        _ => None,
    }
}

/// Returns the date at the end of a line of a person: seconds and time zone behind `> `.
pub fn date_in(line: &[u8]) -> Option<Date> {
    let end = line.windows(2).position(|two| two == b"> ".as_slice())?;
    let text = line.get(end.checked_add(2)?..)?;
    let blank = text.iter().position(|byte| *byte == b' ')?;
    Some(Date {
        seconds: number(text.get(..blank)?)?,
        zone: zone_of(text.get(blank.checked_add(1)?..)?)?,
    })
}

/// Returns how many seconds a time zone is ahead of UTC.
fn offset_of(zone: i32) -> Option<i64> {
    let zone = i64::from(zone);
    let minutes = (zone / 100).checked_mul(60)?.checked_add(zone % 100)?;
    minutes.checked_mul(60)
}

/// Returns what a clock of the time zone shows; `None` for a year before 1970 or after 9999.
fn clock(date: Date) -> Option<DateTime> {
    let nanoseconds = i128::from(date.seconds).checked_mul(1_000_000_000)?;
    let timestamp = Timestamp::from_nanosecond(nanoseconds).ok()?;
    let offset = Offset::from_seconds(offset_of(date.zone)?).ok()?;
    let clock = offset.to_datetime(timestamp);
    if clock.date.year < 1970 || clock.date.year > 9999 {
        return None;
    }
    Some(clock)
}

/// Returns the text of a date in a style that shows a clock.
fn clock_text(alloc: Global, style: Style, at: DateTime, zone: i32) -> Result<Vec<u8>, Stop> {
    let (year, month, day) = (at.date.year, at.date.month, at.date.day);
    let (hour, minute, second) = (at.time.hour, at.time.minute, at.time.second);
    let name = DAYS.get(at.date.weekday().index() as usize).unwrap_or(&"");
    let title = MONTHS
        .get((month as usize).saturating_sub(1))
        .unwrap_or(&"");
    let sign = if zone < 0 { '-' } else { '+' };
    let zone = zone.unsigned_abs();
    let (hours, minutes) = (zone / 100, zone % 100);
    let mut text = Vec::new(alloc);
    let written = match style {
        Style::Iso => write!(
            text,
            "{year:04}-{month:02}-{day:02} {hour:02}:{minute:02}:{second:02} {sign}{zone:04}"
        ),
        Style::IsoStrict => write!(
            text,
            "{year:04}-{month:02}-{day:02}T{hour:02}:{minute:02}:{second:02}{sign}{hours:02}:{minutes:02}"
        ),
        Style::Rfc => write!(
            text,
            "{name}, {day} {title} {year} {hour:02}:{minute:02}:{second:02} {sign}{zone:04}"
        ),
        Style::Short => write!(text, "{year:04}-{month:02}-{day:02}"),
        _ => write!(
            text,
            "{name} {title} {day} {hour:02}:{minute:02}:{second:02} {year} {sign}{zone:04}"
        ),
    };
    match written {
        Ok(()) => Ok(text),
        Err(_) => Err(Stop::OutOfMemory),
    }
}

/// Returns the text of a date that shows its seconds.
fn raw_text(alloc: Global, style: Style, date: Date) -> Result<Vec<u8>, Stop> {
    let seconds = date.seconds;
    let sign = if date.zone < 0 { '-' } else { '+' };
    let zone = date.zone.unsigned_abs();
    let mut text = Vec::new(alloc);
    let written = if style == Style::Unix {
        write!(text, "{seconds}")
    } else {
        write!(text, "{seconds} {sign}{zone:04}")
    };
    match written {
        Ok(()) => Ok(text),
        Err(_) => Err(Stop::OutOfMemory),
    }
}

/// Returns how long ago something was: a number and a unit.
fn ago(alloc: Global, count: i64, unit: &str) -> Result<Vec<u8>, Stop> {
    let end = if count == 1 { "" } else { "s" };
    let mut text = Vec::new(alloc);
    match write!(text, "{count} {unit}{end} ago") {
        Ok(()) => Ok(text),
        Err(_) => Err(Stop::OutOfMemory),
    }
}

/// Returns how many years and months ago something was, which was less than five years ago.
fn years_ago(alloc: Global, days: i64) -> Result<Vec<u8>, Stop> {
    let total = days.saturating_mul(24).saturating_add(365) / 730;
    let (years, months) = (total / 12, total % 12);
    if months == 0 {
        return ago(alloc, years, "year");
    }
    let end = if years == 1 { "" } else { "s" };
    let mut text = Vec::new(alloc);
    match write!(text, "{years} year{end}, ") {
        Ok(()) => {}
        Err(_) => return Err(Stop::OutOfMemory),
    }
    text.extend_from_slice(&ago(alloc, months, "month")?)?;
    Ok(text)
}

/// Returns how many days, weeks, months or years ago something was.
fn days_ago(alloc: Global, days: i64) -> Result<Vec<u8>, Stop> {
    if days < 14 {
        ago(alloc, days, "day")
    } else if days < 70 {
        ago(alloc, days.saturating_add(3) / 7, "week")
    } else if days < 365 {
        ago(alloc, days.saturating_add(15) / 30, "month")
    } else if days < 1825 {
        years_ago(alloc, days)
    } else {
        ago(alloc, days.saturating_add(183) / 365, "year")
    }
}

/// Returns how long before the present a moment is, as git rounds it.
///
/// # Errors
///
/// `NotSupported` if git would not write English.
fn relative_text(alloc: Global, asker: Asker, seconds: i64) -> Result<Vec<u8>, Stop> {
    if !asker.is_english {
        return Err(not_supported(
            alloc,
            &[b"a relative date in another language is not supported"],
        ));
    }
    if asker.now < seconds {
        return Ok(b"in the future".to_vec(alloc)?);
    }
    let past = asker.now.saturating_sub(seconds);
    let minutes = past.saturating_add(30) / 60;
    let hours = minutes.saturating_add(30) / 60;
    if past < 90 {
        ago(alloc, past, "second")
    } else if minutes < 90 {
        ago(alloc, minutes, "minute")
    } else if hours < 36 {
        ago(alloc, hours, "hour")
    } else {
        days_ago(alloc, hours.saturating_add(12) / 24)
    }
}

/// Returns the text of a date.
///
/// # Errors
///
/// - `NotSupported` if a clock is to be shown whose year is before 1970 or after 9999.
/// - `NotSupported` for a relative date, if git would not write English.
pub fn date_text(session: &Session<'_>, style: Style, date: Date) -> Result<Vec<u8>, Stop> {
    let alloc = session.alloc;
    match style {
        Style::Raw | Style::Unix => return raw_text(alloc, style, date),
        Style::Relative => return relative_text(alloc, session.asker, date.seconds),
        _ => {}
    }
    match clock(date) {
        Some(at) => clock_text(alloc, style, at, date.zone),
        None => Err(not_supported(
            alloc,
            &[b"a date before 1970 or after 9999 is not supported"],
        )),
    }
}
