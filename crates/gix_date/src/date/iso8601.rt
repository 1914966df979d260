//! Reads a time of a day: `1979-02-26 18:30:00 +0100`.

ghost use Rattle.gix_date.specs.Civil.{seconds_at};
ghost use Rattle.gix_date.specs.Iso8601Date.{is_day_and_clock, without_space, is_zone, zone_of, civil_time, iso8601_date};
ghost use Rattle.jiff_core.specs.Calendar.{IsBetween, IsEpochDay};
ghost use Rattle.std.specs.Prelude.{◌≡◌, ◌≤◌, ◌⊎◌, length, drop, pos, IsTrue};

use super::DateError;
use super::civil::{clock_at, day_at, seconds_at};
use super::offset::offset_at;
use super::shape::is_shaped;
use gix_base::date::Time;

/// Tests whether a text is a day and a time of day.
fn is_civil(text: &[u8]) -> bool
    ensures value { result ≡ is_day_and_clock text.now }
    ensures len { IsTrue result → length text.now ≡ 19 }
{
    is_shaped(text, b"0000-00-00T00:00:00") || is_shaped(text, b"0000-00-00 00:00:00")
}

/// Removes a space at the beginning of a text.
fn after_space(text: &[u8]) -> &[u8]
    ensures { result.now ≡ without_space text.now }
{
    match text {
        [b' ', rest @ ..] => rest,
        _ => text,
    }
}

/// Tests whether a text says the offset of a clock.
#[tactic(auto, unfolding(crate::specs::Iso8601Date::is_zone))]
fn is_zoned(text: &[u8]) -> bool
    ensures value { result ≡ is_zone text.now }
    ensures len { IsTrue result → (length text.now ≤ 1) ⊎ (5 ≤ length (without_space text.now)) }
{
    let offset = after_space(text);
    is_shaped(text, b"")
        || is_shaped(text, b"Z")
        || is_shaped(offset, b"+0000")
        || is_shaped(offset, b"+00:00")
}

/// Returns the offset that such a text says.
#[tactic(auto, unfolding(crate::specs::Iso8601Date::zone_of))]
fn zone(text: &[u8], now: Time) -> Result<i32, DateError>
    requires { (length text.now ≤ 1) ⊎ (5 ≤ length (without_space text.now)) }
    ensures { result ≡ zone_of now text.now }
{
    match text {
        [] => Ok(now.offset),
        [_] => Ok(0),
        _ => offset_at(after_space(text)),
    }
}

/// Returns the time at a second of a day, by a clock at an offset.
fn timed_at(day: i64, second: i64, offset: i32) -> Time
    requires day { IsEpochDay day }
    requires second { IsBetween (pos 0) (pos 86_399) second }
    ensures seconds { result.seconds ≡ seconds_at day second offset }
    ensures offset { result.offset ≡ offset }
{
    Time {
        seconds: seconds_at(day, second, offset),
        offset,
    }
}

/// Reads a day and a time of day, by a clock at an offset.
#[tactic(auto, unfolding(crate::specs::Iso8601Date::civil_time))]
fn civil_time(text: &[u8], now: Time) -> Result<Time, DateError>
    requires long { 19 ≤ length text.now }
    requires zone { let back = drop 19 text.now in
        (length back ≤ 1) ⊎ (5 ≤ length (without_space back)) }
    ensures { result ≡ civil_time text.now now }
{
    let day = day_at(text)?;
    let second = clock_at(&text[11..])?;
    let offset = zone(&text[19..], now)?;
    Ok(timed_at(day, second, offset))
}

/// Reads a day, a time of day and perhaps an offset; `None` if the text has another shape.
#[tactic(auto, unfolding(crate::specs::Iso8601Date::iso8601_date))]
pub fn read(text: &[u8], now: Time) -> Option<Result<Time, DateError>>
    ensures { result ≡ iso8601_date text.now now }
{
    let (front, back) = text.split_at(text.len().min(19));
    if !is_civil(front) || !is_zoned(back) {
        return None;
    }
    Some(civil_time(text, now))
}
