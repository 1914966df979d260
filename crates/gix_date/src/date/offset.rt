//! Reads offsets from UTC.

ghost use Rattle.gix_date.specs.Offset.{offset_by, offset_of};
ghost use Rattle.std.specs.Prelude.{◌≡◌, ◌≤◌, length};

use super::DateError;
use super::numerals::number;

/// Returns the seconds of some hours and minutes, ahead of UTC or behind it.
#[tactic(auto, unfolding(crate::specs::Offset::offset_by))]
fn offset_by(behind: bool, hours: u64, minutes: u64) -> Result<i32, DateError>
    ensures { result ≡ offset_by behind hours minutes }
{
    if hours > 23 || minutes > 59 {
        return Err(DateError::OutOfRange);
    }
    let seconds = (hours * 3600 + minutes * 60) as i32;
    Ok(if behind { -seconds } else { seconds })
}

/// Reads the seconds of an offset such as `+0100` or `-01:00`.
#[tactic(auto, unfolding(crate::specs::Offset::offset_of, crate::specs::Offset::offset_by))]
pub fn offset_at(text: &[u8]) -> Result<i32, DateError>
    requires { 5 ≤ length text.now }
    ensures { result ≡ offset_of text.now }
{
    let hours = number(&text[1..3]).ok_or(DateError::OutOfRange)?;
    let minutes = number(&text[text.len() - 2..]).ok_or(DateError::OutOfRange)?;
    offset_by(text[0] == b'-', hours, minutes)
}
