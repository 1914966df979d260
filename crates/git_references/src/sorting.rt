//! Sorts references (git-for-each-ref, `--sort`).

use crate::list::Candidate;
use crate::objects::Objects;
use git_fields::persons::{Who, date_of};
use git_session::session::Session;
use git_session::stop::{Stop, not_supported};
use std::alloc::Global;
use std::cmp::Ordering;

/// Says by what references are sorted.
#[derive(Clone, Copy)]
enum By {
    Name,
    /// By name, with numbers in it compared as numbers.
    Version,
    Date(Who),
}

/// A key of `--sort`.
#[derive(Clone, Copy)]
pub struct SortKey {
    by: By,
    is_falling: bool,
}

/// Returns what the name of a key means.
fn key_of(name: &[u8]) -> Option<By> {
    if name == b"refname".as_slice() {
        Some(By::Name)
    } else if name == b"version:refname".as_slice() || name == b"v:refname".as_slice() {
        Some(By::Version)
    } else if name == b"authordate".as_slice() {
        Some(By::Date(Who::Author))
    } else if name == b"committerdate".as_slice() {
        Some(By::Date(Who::Committer))
    } else if name == b"taggerdate".as_slice() {
        Some(By::Date(Who::Tagger))
    } else if name == b"creatordate".as_slice() {
        Some(By::Date(Who::Creator))
    } else {
        None
    }
}

/// Tells whether a setting says how versions before a release are sorted.
fn has_suffixes(session: &Session<'_>) -> bool {
    let settings = session.repository.settings();
    [b"suffix".as_slice(), b"prereleasesuffix"]
        .iter()
        .any(|key| settings.value(b"versionsort", None, key).is_some())
}

/// Reads a key of `--sort`.
///
/// # Errors
///
/// `NotSupported` for another key, and for versions if a setting says how they are sorted.
pub fn sort_key(session: &Session<'_>, text: &[u8]) -> Result<SortKey, Stop> {
    let (name, is_falling) = match text.strip_prefix(b"-") {
        Some(name) => (name, true),
        None => (text, false),
    };
    match key_of(name) {
        Some(By::Version) if has_suffixes(session) => Err(not_supported(
            session.alloc,
            &[b"the setting versionsort.suffix is not supported"],
        )),
        Some(by) => Ok(SortKey { by, is_falling }),
        None => Err(not_supported(
            session.alloc,
            &[b"the sort key '", text, b"' is not supported"],
        )),
    }
}

/// Says what the digits are that two names have in common before they differ.
#[derive(Clone, Copy, PartialEq, Eq)]
enum Digits {
    /// There are none.
    None,
    /// They begin an integer.
    Integer,
    /// They are zeros.
    Zeros,
    /// They begin with a zero, as digits behind a decimal point.
    Fraction,
}

/// Returns the digits at the end of what two names have in common.
fn digits_at_end(common: &[u8]) -> Digits {
    let begin = common.iter().rposition(|byte| !byte.is_ascii_digit());
    let digits = match begin {
        Some(place) => common.get(place.saturating_add(1)..).unwrap_or(&[]),
        None => common,
    };
    if digits.is_empty() {
        Digits::None
    } else if !digits.starts_with(b"0") {
        Digits::Integer
    } else if digits.iter().all(|byte| *byte == b'0') {
        Digits::Zeros
    } else {
        Digits::Fraction
    }
}

/// Returns how many digits a text begins with.
fn digits_before(text: &[u8]) -> usize {
    text.iter().take_while(|byte| byte.is_ascii_digit()).count()
}

/// Compares the rests of two names from the first byte in which they differ, behind some digits.
fn compare_rests(digits: Digits, one: &[u8], other: &[u8]) -> Ordering {
    let (first, second) = (
        one.first().copied().unwrap_or(0),
        other.first().copied().unwrap_or(0),
    );
    let by_byte = first.cmp(&second);
    let are_digits = (first.is_ascii_digit(), second.is_ascii_digit());
    let has_zero = first == b'0' || second == b'0';
    match (digits, are_digits) {
        (Digits::None, (true, true)) if !has_zero => {}
        (Digits::Integer, (true, true)) => {}
        (Digits::Integer, (false, true)) => return Ordering::Less,
        (Digits::Integer, (true, false)) => return Ordering::Greater,
        (Digits::Zeros, (false, true)) => return Ordering::Greater,
        (Digits::Zeros, (true, false)) => return Ordering::Less,
        _ => return by_byte,
    }
    // The longer number is the greater one.
    digits_before(one).cmp(&digits_before(other)).then(by_byte)
}

/// Returns how many bytes two texts have in common at their beginning.
fn common_bytes(one: &[u8], other: &[u8]) -> usize {
    let mut common = 0usize;
    for (first, second) in one.iter().zip(other.iter()) {
        if first != second {
            break;
        }
        common = common.saturating_add(1);
    }
    common
}

/// Returns the bytes of a text before a place.
fn front_of(text: &[u8], place: usize) -> &[u8] {
    match text.get(..place) {
        Some(front) => front,
        None => text,
    }
}

/// Returns the bytes of a text from a place on.
fn behind(text: &[u8], place: usize) -> &[u8] {
    match text.get(place..) {
        Some(rest) => rest,
        None => &[],
    }
}

/// Compares names, with numbers in them compared as numbers. Digits that begin with a zero are
/// compared as those behind a decimal point (git-config, `versionsort.suffix`).
fn compare_versions(one: &[u8], other: &[u8]) -> Ordering {
    let common = common_bytes(one, other);
    if common == one.len() && common == other.len() {
        return Ordering::Equal;
    }
    let front = front_of(one, common);
    let digits = digits_at_end(front);
    let first = behind(one, common);
    let second = behind(other, common);
    compare_rests(digits, first, second)
}

/// Reads the dates of the references' objects. One without a date has 0.
fn look_up_dates(
    session: &mut Session<'_>,
    objects: &mut Objects,
    who: Who,
    candidates: &mut [Candidate],
) -> Result<(), Stop> {
    for candidate in candidates {
        let read = objects.own(session, candidate)?;
        candidate.seconds = match date_of(session.alloc, &read, who)? {
            Some(date) => date.seconds,
            None => 0,
        };
    }
    Ok(())
}

/// Turns an order round if it is falling.
fn turned(order: Ordering, is_falling: bool) -> Ordering {
    if is_falling { order.reverse() } else { order }
}

/// Sorts by one key. References that are equal by it stay in their order.
fn sort_by_key(
    session: &mut Session<'_>,
    objects: &mut Objects,
    key: SortKey,
    candidates: &mut Vec<Candidate>,
) -> Result<(), Stop> {
    let falls = key.is_falling;
    match key.by {
        By::Name => candidates.sort_by(|a, b| turned(a.name.cmp(&b.name), falls))?,
        By::Version => {
            candidates.sort_by(|a, b| turned(compare_versions(&a.name, &b.name), falls))?
        }
        By::Date(who) => {
            look_up_dates(session, objects, who, candidates)?;
            candidates.sort_by(|a, b| turned(a.seconds.cmp(&b.seconds), falls))?;
        }
    }
    Ok(())
}

/// Sorts references, which are sorted by name, by keys. The last key counts most.
///
/// # Errors
///
/// - `Fatal` with git's message if an object is missing whose date counts.
/// - `NotSupported` if a date is malformed.
pub(crate) fn sort(
    session: &mut Session<'_>,
    objects: &mut Objects,
    keys: &[SortKey],
    candidates: &mut Vec<Candidate>,
) -> Result<(), Stop> {
    for key in keys {
        sort_by_key(session, objects, *key, candidates)?;
    }
    Ok(())
}
