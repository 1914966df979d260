//! Reads reflogs (git-reflog; gitrepository-layout, "logs").

ghost use Rattle.std.specs.Prelude.{◌≡◌};
ghost use Rattle.std.specs.Option.{option_map};
ghost use Rattle.gix_ref_text.specs.Changes.{is_null, last_old, last_new, changes_ago};

use crate::lines::{cut, id_of};
use gix_base::hash::ObjectId;
use std::alloc::{AllocError, Allocator, Global};

/// An entry of a reflog.
#[derive(Drop)]
pub struct LogEntry<A: Allocator = Global> {
    /// The id before the change. It has zeros only if there was none.
    pub old: ObjectId,
    /// The id after the change.
    pub new: ObjectId,
    /// When it changed, in seconds since 1970. A negative number counts down from 2^64, as in git.
    pub seconds: u64,
    /// The digits of the time zone as one number: 130 for `+0130`.
    pub zone: i32,
    /// The message, without the line feed.
    pub message: Vec<u8, A>,
}

/// A reflog. The oldest entry comes first.
#[derive(Drop)]
pub struct Reflog<A: Allocator = Global> {
    pub entries: Vec<LogEntry<A>, A>,
}

/// What a reflog says of a date.
#[derive(Clone, Copy)]
pub enum AtDate {
    /// The date is after the newest entry, or between an entry and the next one, which has no old
    /// id. git answers with the id that the reference has now.
    Now,
    /// The reference had this id.
    Id(ObjectId),
    /// The date is before the oldest entry, which is of this second. The id is its old one, or its
    /// new one if the old one has zeros only. git warns that the log only goes back to then.
    Before(ObjectId, u64),
}

/// What a line of a reflog says.
#[derive(Clone, Copy)]
struct Line<'a> {
    old: ObjectId,
    new: ObjectId,
    seconds: u64,
    zone: i32,
    message: &'a [u8],
}

/// Tests whether a byte is white space for C, which passes over it in front of a number.
fn is_space(byte: u8) -> bool {
    byte == b' ' || matches!(byte, 9..=13)
}

/// Returns what comes after the white space at the front.
fn without_space(text: &[u8]) -> &[u8] {
    let len = text
        .iter()
        .position(|b| !is_space(*b))
        .unwrap_or(text.len());
    text.get(len..).unwrap_or(&[])
}

/// Returns the digits at the front of a text, and what comes after them.
fn digits_and_rest(text: &[u8]) -> (&[u8], &[u8]) {
    let len = text
        .iter()
        .position(|b| !b.is_ascii_digit())
        .unwrap_or(text.len());
    text.split_at_checked(len).unwrap_or((text, &[]))
}

/// Returns the number that decimal digits say, if it fits. It is 0 if there are none.
fn number(digits: &[u8]) -> Option<u64> {
    let mut value = 0u64;
    for digit in digits {
        value = value
            .checked_mul(10)?
            .checked_add((*digit as u64).saturating_sub(48))?;
    }
    Some(value)
}

/// Returns whether a text begins with a minus, and what comes after a sign.
fn sign_and_rest(text: &[u8]) -> (bool, &[u8]) {
    match text.split_first() {
        Some((b'-', rest)) => (true, rest),
        Some((b'+', rest)) => (false, rest),
        _ => (false, text),
    }
}

/// Returns the number at the front of a text, and what comes after it, as `strtoumax` of C does.
///
/// White space and a sign may be in front. A number that does not fit is the greatest one, and a
/// negative one counts down from 2^64. It is 0 if there are no digits.
fn date_and_rest(text: &[u8]) -> (u64, &[u8]) {
    let (is_negative, text) = sign_and_rest(without_space(text));
    let (digits, rest) = digits_and_rest(text);
    match number(digits) {
        Some(value) if is_negative => (0u64.wrapping_sub(value), rest),
        Some(value) => (value, rest),
        None => (u64::MAX, rest),
    }
}

/// Returns the number that a time zone such as `+0130` says. It has four digits or more.
fn zone_of(text: &[u8]) -> Option<i32> {
    let (sign, rest) = text.split_first()?;
    let (digits, _) = digits_and_rest(rest);
    if digits.len() < 4 {
        return None;
    }
    let value = i32::try_from(number(digits).unwrap_or(u64::MAX)).unwrap_or(i32::MAX);
    match *sign {
        b'+' => Some(value),
        b'-' => value.checked_neg(),
        _ => None,
    }
}

/// Returns the date, the time zone and the message of what comes after the two ids.
///
/// The message begins after the fourth digit of the time zone, or after a tab there.
fn date_and_message(text: &[u8]) -> Option<(u64, i32, &[u8])> {
    let rest = cut(text, b'>').1?.strip_prefix(b" ")?;
    let (seconds, rest) = date_and_rest(rest);
    let rest = rest.strip_prefix(b" ")?;
    let zone = zone_of(rest)?;
    let (_, message) = rest.split_at_checked(5)?;
    let message = message.strip_prefix(b"\t").unwrap_or(message);
    (seconds != 0).then_some((seconds, zone, message))
}

/// Returns the id at the front of a text, and what comes after a blank.
fn id_and_rest(text: &[u8]) -> Option<(ObjectId, &[u8])> {
    let (digits, rest) = text.split_at_checked(40)?;
    let rest = rest.strip_prefix(b" ")?;
    Some((id_of(digits)?, rest))
}

/// Returns what a line says: `OLD NEW NAME <MAIL> SECONDS ZONE`, a tab and the message.
///
/// git passes over a line of another form, and over one of second 0. A zero byte ends the line.
fn line_of(line: &[u8]) -> Option<Line<'_>> {
    let (old, rest) = id_and_rest(cut(line, 0).0)?;
    let (new, rest) = id_and_rest(rest)?;
    let (seconds, zone, message) = date_and_message(rest)?;
    Some(Line {
        old,
        new,
        seconds,
        zone,
        message,
    })
}

impl<A: Allocator + Copy> Reflog<A> {
    /// Adds the entry of a line, if it has one.
    fn add(&mut self, alloc: A, line: &[u8]) -> Result<(), AllocError> {
        if let Some(
            Line {
                old,
                new,
                seconds,
                zone,
                message,
            },
        ) = line_of(line)
        {
            let message = message.to_vec(alloc)?;
            self.entries.push(LogEntry {
                old,
                new,
                seconds,
                zone,
                message,
            })?;
        }
        Ok(())
    }

    /// Reads the lines of a reflog. A line that does not end with a line feed is passed over.
    pub fn parse(alloc: A, bytes: &[u8]) -> Result<Reflog<A>, AllocError> {
        let mut log = Reflog {
            entries: Vec::new(alloc),
        };
        let mut rest = bytes;
        for _ in 0..bytes.len() {
            let (line, after) = cut(rest, b'\n');
            let Some(after) = after else {
                break;
            };
            log.add(alloc, line)?;
            rest = after;
        }
        Ok(log)
    }
}

/// Tests whether an id has zeros only.
fn is_null(id: &ObjectId) -> bool
    ensures { result ≡ is_null id.now.0 }
{
    for byte in id.as_bytes() {
        if *byte != 0 {
            return false;
        }
    }
    true
}

/// Returns the new id of the last entry.
fn last_new<A: Allocator>(entries: &[LogEntry<A>]) -> Option<ObjectId>
    ensures { option_map (λ id. id.0) result ≡ last_new entries.now }
{
    match entries.split_last() {
        Some((entry, _)) => Some(entry.new),
        None => None,
    }
}

/// Returns the old id of the last entry whose old id does not have only zeros.
fn last_old<A: Allocator>(entries: &[LogEntry<A>]) -> Option<ObjectId>
    ensures { option_map (λ id. id.0) result ≡ last_old entries.now }
{
    let mut rest = entries;
    for _ in 0..entries.len() {
        let Some((entry, front)) = rest.split_last() else {
            return None;
        };
        if !is_null(&entry.old) {
            return Some(entry.old);
        }
        rest = front;
    }
    None
}

/// Returns the old id of an entry, unless it has zeros only.
fn old_of<A: Allocator>(entry: Option<&LogEntry<A>>) -> Option<ObjectId> {
    match entry {
        Some(entry) if !is_null(&entry.old) => Some(entry.old),
        _ => None,
    }
}

impl<A: Allocator> Reflog<A> {
    /// Returns the id that the reference had `n` changes ago (gitrevisions, `<refname>@{<n>}`).
    ///
    /// That is the new id of the newest entry if `n` is 0. Otherwise it is the old id of the `n`th
    /// newest entry, or of the next older one whose old id is not zeros only, as in git. It is
    /// `None` if there is no such entry.
    pub fn nth(&self, n: usize) -> Option<ObjectId>
        // The newest entry's new id if `n` is 0. Otherwise the old id of the `n`th newest entry, or
        // of the next older one whose old id does not have only zeros. `None` exactly if there is
        // no such entry.
        ensures { option_map (λ id. id.0) result ≡ changes_ago n self.now.entries.items }
    {
        let entries = self.entries.as_slice();
        match n.checked_sub(1) {
            None => last_new(entries),
            Some(before) => {
                let (older, _) = entries.split_at(entries.len().saturating_sub(before));
                last_old(older)
            }
        }
    }

    /// Returns the place of the entry whose old id [`Reflog::nth`] returns; `None` if `n` is 0, or if
    /// there is no such entry.
    pub fn place_of_nth(&self, n: usize) -> Option<usize> {
        let len = self.entries.len().saturating_sub(n.checked_sub(1)?);
        let older = self.entries.get(..len)?;
        older.iter().rposition(|entry| !is_null(&entry.old))
    }

    /// Returns the place of the newest entry that is not after a date; `None` if there is none.
    pub fn place_at(&self, seconds: u64) -> Option<usize> {
        self.entries
            .iter()
            .rposition(|entry| entry.seconds <= seconds)
    }

    /// Returns the old id of the entry after the one at a place, unless it has zeros only.
    fn old_after(&self, place: usize) -> Option<ObjectId> {
        old_of(self.entries.get(place.saturating_add(1)))
    }

    /// Tests whether changes are missing after the entry at a place.
    ///
    /// They are if the next entry has another old id than this one's new id. As in git, an old id
    /// that has zeros only is not compared.
    pub fn has_gap_after(&self, place: usize) -> bool {
        match (self.entries.get(place), self.old_after(place)) {
            (Some(entry), Some(old)) => old != entry.new,
            _ => false,
        }
    }

    /// Returns the id that the reference had at a date (gitrevisions, `<refname>@{<date>}`).
    ///
    /// It is `None` if there is no entry.
    pub fn at(&self, seconds: u64) -> Option<AtDate> {
        let Some(place) = self.place_at(seconds) else {
            let oldest = self.entries.first()?;
            let id = old_of(Some(oldest)).unwrap_or(oldest.new);
            return Some(AtDate::Before(id, oldest.seconds));
        };
        let entry = self.entries.get(place)?;
        if self.old_after(place).is_none() && entry.seconds != seconds {
            Some(AtDate::Now)
        } else {
            Some(AtDate::Id(entry.new))
        }
    }

    /// Returns the `n`th branch or commit that was checked out before (gitrevisions, `@{-<n>}`).
    ///
    /// The reflog has to be that of `HEAD`. It is `None` if there are fewer, or if `n` is 0.
    pub fn checked_out_before(&self, n: usize) -> Option<&[u8]> {
        let mut left = n;
        for entry in self.entries.iter().rev() {
            if let Some(from) = moved_from(&entry.message) {
                if left == 1 {
                    return Some(from);
                }
                left = left.saturating_sub(1);
            }
        }
        None
    }
}

/// Returns X of a message `checkout: moving from X to Y`.
fn moved_from(message: &[u8]) -> Option<&[u8]> {
    let rest = message.strip_prefix(b"checkout: moving from ")?;
    let to = rest.windows(4).position(|word| word == b" to ".as_slice())?;
    rest.get(..to)
}
