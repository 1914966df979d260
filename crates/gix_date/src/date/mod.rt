//! Has moments in time, and reads dates.

ghost use Rattle.gix_date.specs.Date.{date_of};
ghost use Rattle.std.specs.Prelude.{◌≡◌};

mod ago;
mod civil;
mod error;
mod iso8601;
mod months;
mod numerals;
mod offset;
mod raw;
mod relative;
mod rfc2822;
mod seconds;
mod shape;
mod short;
mod word;
mod words;

pub use error::DateError;
pub use gix_base::date::Time;

/// Reads a date, as it stands at the moment `now`.
///
/// The forms are those of git's date-formats, and words of git's approxidate. A word may be in any
/// ASCII letter case:
///
/// - `1234567890 +0200`: seconds since 1970-01-01 00:00:00 UTC, perhaps negative, and an offset;
/// - `1979-02-26`: the midnight that begins the day, in UTC;
/// - `1979-02-26 18:30:00`, `1979-02-26T18:30:00Z`, `1979-02-26 18:30:00 +0100` or `+01:00`: a time
///   of a day at that offset, or at the offset of `now` if none is given;
/// - `now`, and `yesterday`, which is 86400 seconds before it;
/// - `2 weeks ago`, `1.year.3.months.ago`: one or more numbers of units (second, minute, hour, day,
///   week, month, year) before `now`. Months and years go back by the calendar, to the same day of
///   the month, or to its last day if the month is too short, at the same time of day. Then the
///   seconds of the other units are subtracted;
/// - `Thu, 18 Aug 2022 12:45:06 +0800`: RFC 2822 as `jiff` reads it, cut to whole seconds.
///
/// The offset of the answer, in seconds, is the one that the text gives, and otherwise that of
/// `now`. A day alone and `Z` have offset 0. RFC 2822 accepts the offsets that `jiff` accepts; the
/// other forms accept offsets below 24 hours.
///
/// # Errors
///
/// - [`DateError::OutOfRange`]: the text has one of the first five forms, and a number is out of
///   its range: no such day, an hour past 23, a minute or second past 59, an offset of 24 hours, or
///   a total past the greatest `i64`. Or the seconds of the time do not fit into an `i64`, or a
///   year on the way to it is outside -9999 to 9999.
/// - [`DateError::NotADate`]: every other text, and bytes that are not UTF-8.
///
/// `parse` allocates nothing, so it never returns [`DateError::OutOfMemory`].
#[tactic(auto, unfolding(crate::specs::Date::date_of))]
pub fn parse(text: &[u8], now: Time) -> Result<Time, DateError>
    // The answer is what the text stands for at the moment `now`: the time, `NotADate` or
    // `OutOfRange` (`date_of`).
    ensures { result ≡ date_of text.now now }
{
    if !shape::is_text(text) {
        return Err(DateError::NotADate);
    }
    if let Some(read) = raw::read(text) {
        return read;
    }
    if let Some(read) = short::read(text) {
        return read;
    }
    if let Some(read) = iso8601::read(text, now) {
        return read;
    }
    if let Some(read) = word::read(text, now) {
        return read;
    }
    if let Some(read) = relative::read(text, now) {
        return read;
    }
    rfc2822::read(text)
}
