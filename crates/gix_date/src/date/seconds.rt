//! Makes times of seconds that an `i64` may not hold.

ghost use Rattle.gix_date.specs.DateReading.{time_at, time_if};
ghost use Rattle.std.specs.Prelude.{◌≡◌, ◌-ℤ◌, pos};

use super::DateError;
use gix_base::date::Time;

/// Makes a time of the seconds of a checked sum, if the sum has any.
pub fn timed(seconds: Option<i64>, offset: i32) -> Result<Time, DateError>
    ensures { result ≡ time_if seconds offset }
{
    match seconds {
        Some(seconds) => Ok(Time { seconds, offset }),
        None => Err(DateError::OutOfRange),
    }
}

/// Makes the time that is a number of seconds before `start`, if an `i64` holds its seconds.
pub fn earlier(start: i64, seconds: u64, offset: i32) -> Result<Time, DateError>
    ensures { result ≡ time_at (start -ℤ pos seconds) offset }
{
    timed(start.checked_sub_unsigned(seconds), offset)
}
