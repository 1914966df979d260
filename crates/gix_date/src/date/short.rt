//! Reads a day: `1979-02-26`.

ghost use Rattle.gix_date.specs.ShortDate.{midnight_of, short_date};
ghost use Rattle.std.specs.Prelude.{◌≡◌, ◌≤◌, length};

use super::DateError;
use super::civil::day_at;
use super::shape::is_shaped;
use gix_base::date::Time;

/// Returns the midnight that begins a day, in UTC.
#[tactic(auto, unfolding(crate::specs::ShortDate::midnight_of))]
fn midnight(text: &[u8]) -> Result<Time, DateError>
    requires { 10 ≤ length text.now }
    ensures { result ≡ midnight_of text.now }
{
    let day = day_at(text)?;
    Ok(Time {
        seconds: day * 86400,
        offset: 0,
    })
}

/// Reads a day alone; `None` if the text has another shape.
#[tactic(auto, unfolding(crate::specs::ShortDate::short_date))]
pub fn read(text: &[u8]) -> Option<Result<Time, DateError>>
    ensures { result ≡ short_date text.now }
{
    if !is_shaped(text, b"0000-00-00") {
        return None;
    }
    Some(midnight(text))
}
