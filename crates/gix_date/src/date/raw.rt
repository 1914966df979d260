//! Reads seconds and an offset: `1234567890 +0200`.

ghost use Rattle.gix_date.specs.RawDate.{raw_time, raw_date};
ghost use Rattle.std.specs.Prelude.{◌≡◌, ◌≤◌, length};

use super::DateError;
use super::numerals::{integer, is_signed_digits};
use super::offset::offset_at;
use super::seconds::timed;
use super::shape::is_shaped;
use gix_base::date::Time;

/// Makes the time of the seconds and the offset that two texts have.
#[tactic(auto, unfolding(crate::specs::RawDate::raw_time))]
fn raw_time(seconds: &[u8], zone: &[u8]) -> Result<Time, DateError>
    requires { 5 ≤ length zone.now }
    ensures { result ≡ raw_time seconds.now zone.now }
{
    let offset = offset_at(zone)?;
    timed(integer(seconds), offset)
}

/// Reads seconds, a space and an offset; `None` if the text has another shape.
#[tactic(auto, unfolding(crate::specs::RawDate::raw_date))]
pub fn read(text: &[u8]) -> Option<Result<Time, DateError>>
    ensures { result ≡ raw_date text.now }
{
    let (seconds, zone) = text.split_at(text.len().saturating_sub(6));
    if !is_signed_digits(seconds) || !is_shaped(zone, b" +0000") {
        return None;
    }
    Some(raw_time(seconds, &zone[1..]))
}
