//! Reads days of the calendar and times of a day.

ghost use Rattle.gix_date.specs.Civil.{day_number, day_of, second_of_day, clock_of, seconds_at};
ghost use Rattle.jiff_core.specs.Calendar.{IsBetween, IsEpochDay};
ghost use Rattle.jiff_core.specs.Date.{epoch_day};
ghost use Rattle.std.specs.Prelude.{◌≡◌, ◌≤◌, length, pos, IfOk};

use super::DateError;
use super::numerals::number;
use jiff_core::civil::Date;

/// Returns the day number of a date.
pub fn epoch_day(date: Date) -> i64
    ensures value { result ≡ epoch_day date }
    ensures bound { IsEpochDay result }
{
    i64::from(date.to_unix_epoch_day())
}

/// Returns the day number of a date, if the calendar has that date in the years 0 to 9999.
#[tactic(auto, unfolding(crate::specs::Civil::day_number))]
fn day_number(year: u64, month: u64, day: u64) -> Result<i64, DateError>
    ensures value { result ≡ day_number year month day }
    ensures bound { IfOk result IsEpochDay }
{
    if year > 9999 || month > 12 || day > 31 {
        return Err(DateError::OutOfRange);
    }
    match Date::new(year as i16, month as i8, day as i8) {
        Ok(date) => Ok(epoch_day(date)),
        Err(_) => Err(DateError::OutOfRange),
    }
}

/// Reads the day with which a text begins, as `YYYY-MM-DD`.
#[tactic(auto, unfolding(crate::specs::Civil::day_of, crate::specs::Civil::day_number))]
pub fn day_at(text: &[u8]) -> Result<i64, DateError>
    requires { 10 ≤ length text.now }
    ensures value { result ≡ day_of text.now }
    ensures bound { IfOk result IsEpochDay }
{
    let year = number(&text[0..4]).ok_or(DateError::OutOfRange)?;
    let month = number(&text[5..7]).ok_or(DateError::OutOfRange)?;
    let day = number(&text[8..10]).ok_or(DateError::OutOfRange)?;
    day_number(year, month, day)
}

/// Returns the second of the day at a time of day, if there is that time.
#[tactic(auto, unfolding(crate::specs::Civil::second_of_day))]
fn second_of_day(hour: u64, minute: u64, second: u64) -> Result<i64, DateError>
    ensures value { result ≡ second_of_day hour minute second }
    ensures bound { IfOk result (IsBetween (pos 0) (pos 86_399)) }
{
    if hour > 23 || minute > 59 || second > 59 {
        return Err(DateError::OutOfRange);
    }
    Ok((hour * 3600 + minute * 60 + second) as i64)
}

/// Reads the second of the day with which a text begins, as `HH:MM:SS`.
#[tactic(auto, unfolding(crate::specs::Civil::clock_of, crate::specs::Civil::second_of_day))]
pub fn clock_at(text: &[u8]) -> Result<i64, DateError>
    requires { 8 ≤ length text.now }
    ensures value { result ≡ clock_of text.now }
    ensures bound { IfOk result (IsBetween (pos 0) (pos 86_399)) }
{
    let hour = number(&text[0..2]).ok_or(DateError::OutOfRange)?;
    let minute = number(&text[3..5]).ok_or(DateError::OutOfRange)?;
    let second = number(&text[6..8]).ok_or(DateError::OutOfRange)?;
    second_of_day(hour, minute, second)
}

/// Returns the seconds since 1970-01-01 00:00:00 UTC at a second of a day, by a clock at an offset.
pub fn seconds_at(day: i64, second: i64, offset: i32) -> i64
    requires day { IsEpochDay day }
    requires second { IsBetween (pos 0) (pos 86_399) second }
    ensures { result ≡ seconds_at day second offset }
{
    day * 86400 + second - i64::from(offset)
}
