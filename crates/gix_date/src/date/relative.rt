//! Reads a moment in the past: `2 weeks ago`.

ghost use Rattle.gix_date.specs.RelativeDate.{seconds_before, time_before, time_before_sum, relative_date};
ghost use Rattle.std.specs.Prelude.{◌≡◌};

use super::DateError;
use super::ago::{Ago, ago_of};
use super::civil::seconds_at;
use super::months::months_before;
use super::seconds::earlier;
use gix_base::date::Time;

/// Returns the seconds a number of months before a moment, at the same time of day by its clock.
#[tactic(auto, unfolding(crate::specs::RelativeDate::seconds_before))]
fn seconds_before(now: Time, months: u64) -> Result<i64, DateError>
    ensures { result ≡ seconds_before now months }
{
    if months == 0 {
        return Ok(now.seconds);
    }
    let Some(local) = now.seconds.checked_add(i64::from(now.offset)) else {
        return Err(DateError::OutOfRange);
    };
    let day = months_before(local.div_euclid(86400), months)?;
    Ok(seconds_at(day, local.rem_euclid(86400), now.offset))
}

/// Returns the time that is so far before a moment.
#[tactic(auto, unfolding(crate::specs::RelativeDate::time_before))]
fn time_before(now: Time, ago: Ago) -> Result<Time, DateError>
    ensures { result ≡ time_before now ago }
{
    let start = seconds_before(now, ago.months)?;
    earlier(start, ago.seconds, now.offset)
}

/// Returns the time that is a sum before a moment, if the sum is in range.
#[tactic(auto, unfolding(crate::specs::RelativeDate::time_before_sum))]
fn time_before_sum(now: Time, sum: Result<Ago, DateError>) -> Result<Time, DateError>
    ensures { result ≡ time_before_sum now sum }
{
    time_before(now, sum?)
}

/// Reads units counted back from a moment; `None` if the text does not count back.
#[tactic(auto, unfolding(crate::specs::RelativeDate::relative_date))]
pub fn read(text: &[u8], now: Time) -> Option<Result<Time, DateError>>
    ensures { result ≡ relative_date text.now now }
{
    let sum = ago_of(text)?;
    Some(time_before_sum(now, sum))
}
