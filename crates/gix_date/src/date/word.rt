//! Reads `now` and `yesterday`.

ghost use Rattle.gix_date.specs.WordDate.{word_date};
ghost use Rattle.std.specs.Prelude.{◌≡◌};

use super::DateError;
use super::seconds::earlier;
use super::shape::is_named;
use gix_base::date::Time;

/// Reads `now` as the moment, and `yesterday` as 86400 seconds before it; `None` for another text.
#[tactic(auto, unfolding(crate::specs::WordDate::word_date))]
pub fn read(text: &[u8], now: Time) -> Option<Result<Time, DateError>>
    ensures { result ≡ word_date text.now now }
{
    if is_named(text, b"now") {
        Some(Ok(now))
    } else if is_named(text, b"yesterday") {
        Some(earlier(now.seconds, 86400, now.offset))
    } else {
        None
    }
}
