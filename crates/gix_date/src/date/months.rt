//! Counts months back by the calendar.

ghost use Rattle.gix_date.specs.Months.{months_before};
ghost use Rattle.jiff_core.specs.Calendar.{IsWithin, IsEpochDay};
ghost use Rattle.std.specs.Prelude.{◌≡◌, ◌≤◌, neg_ℤ, pos, IfOk};

use super::DateError;
use super::civil::epoch_day;
use jiff_core::civil::Date;
use jiff_span::date::add_months;

/// Returns a number of months as a step back.
fn backward(months: u64) -> i32
    requires { months ≤ 500_000 }
    ensures value { result ≡ neg_ℤ (pos months) }
    ensures bound { IsWithin 500_000 result }
{
    -(months as i32)
}

/// Returns the day a number of months before a day, at the same place of its month.
///
/// A month that does not have this place gives its last day.
///
/// More than 500,000 months lead out of the calendar from each of its days.
pub fn months_before(day: i64, months: u64) -> Result<i64, DateError>
    ensures value { result ≡ months_before day months }
    ensures bound { IfOk result IsEpochDay }
{
    let Ok(date) = Date::from_unix_epoch_day(day) else {
        return Err(DateError::OutOfRange);
    };
    if months > 500_000 {
        return Err(DateError::OutOfRange);
    }
    match add_months(date, backward(months)) {
        Ok(end) => Ok(epoch_day(end)),
        Err(_) => Err(DateError::OutOfRange),
    }
}
