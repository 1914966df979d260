//! Reads RFC 2822: `Thu, 18 Aug 2022 12:45:06 +0800`.

ghost use Rattle.gix_date.specs.Rfc2822Date.{rfc2822_date};
ghost use Rattle.std.specs.Prelude.{◌≡◌};

use super::DateError;
use gix_base::date::Time;
use jiff_fmt::rfc2822::DateTimeParser;

/// Returns the whole seconds and the offset of the instant that `jiff` reads.
#[tactic(auto, unfolding(crate::specs::Rfc2822Date::rfc2822_date))]
pub fn read(text: &[u8]) -> Result<Time, DateError>
    ensures { result ≡ rfc2822_date text.now }
{
    match DateTimeParser::new().parse_timestamp_with_offset(text) {
        Ok((timestamp, offset)) => Ok(Time {
            seconds: timestamp.floor_second(),
            offset: offset.seconds,
        }),
        Err(_) => Err(DateError::NotADate),
    }
}
