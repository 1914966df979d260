//! Finds the position of an id (gitformat-pack, "A table of sorted object names").

ghost use Rattle.std.specs.Prelude.{◌≡◌, ◌+◌, ◌*◌, ◌≤◌, ◌<◌, ◌^◌, MatchOption, MatchResult, length};
ghost use Rattle.gix_ids.specs.TableForm.{IsSorted};
ghost use Rattle.gix_ids.specs.TableLookup.{IsAt, IsAbsent, IsGap, IsIn, IsGapIn};

use crate::bytes::{id_at, word_at};
use crate::table::{Table, below};
use gix_base::hash::ObjectId;
use std::cmp::Ordering;

/// The number of guesses before the search bisects.
const GUESSES: u32 = 6;

/// Reads the four bytes after the first byte of an id as a number.
fn number_of(id: ObjectId) -> usize {
    u32::from_be_bytes([id.0[1], id.0[2], id.0[3], id.0[4]]) as usize
}

/// The positions from `low` on and before `high`.
#[derive(Clone, Copy)]
pub struct Span {
    pub low: usize,
    pub high: usize,
}

/// The positions at which an id may be stored, and the numbers between which those of their ids
/// lie.
#[derive(Clone, Copy)]
struct Candidates {
    low: usize,
    high: usize,
    least: usize,
    most: usize,
}

impl Candidates {
    /// Returns one of the positions. While guesses are left, it interpolates by `number`, which
    /// comes near the id if ids are as even as hashes are. After that it returns the middle.
    fn place(self, guesses: u32, number: usize) -> usize
        requires { self.low < self.high }
        ensures low { self.low ≤ result }
        ensures high { result < self.high }
    {
        let room = self.high - self.low;
        if guesses == 0 {
            return self.low + room / 2;
        }
        let way = number.saturating_sub(self.least);
        let whole = self.most.saturating_sub(self.least).max(1);
        let part = way.saturating_mul(room) / whole;
        self.low + part.min(room - 1)
    }
}

/// Returns the position of an id in a span, or as an error the position before which it would be
/// stored there. If the ids of the span do not rise, an error may be the answer although they have
/// the id. A few guesses narrow the span, and bisection ends the search.
pub fn narrow(bytes: &[u8], t: Table, span: Span, id: ObjectId) -> Result<usize, usize>
    // The ids at all positions before `span.high` are inside `bytes`.
    requires ids { t.ids + 20 * span.high ≤ length bytes.now }

    // `span.low` is at most `span.high`.
    requires order { span.low ≤ span.high }

    // `Ok` has the position of `id` in the span. `Err` has a position from `span.low` to
    // `span.high`: if the ids of the span rise, those before this position are less than `id`, and
    // those from this position on are greater.
    ensures { MatchResult result (IsIn bytes.now t span id) (IsGapIn bytes.now t span id) }
{
    let number = number_of(id);
    let mut guesses = GUESSES;
    let mut left = Candidates {
        low: span.low,
        high: span.high,
        least: 0,
        most: u32::MAX as usize,
    };
    'search: while left.low < left.high {
        let place = left.place(guesses, number);
        guesses = guesses.saturating_sub(1);
        let found = id_at(bytes, t.ids + 20 * place);
        match found.cmp(&id) {
            Ordering::Less => {
                left.low = place + 1;
                left.least = number_of(found);
            }
            Ordering::Equal => return Ok(place),
            Ordering::Greater => {
                left.high = place;
                left.most = number_of(found);
            }
        }
    }
    Err(left.low)
}

/// Returns the position of an id, or as an error the position before which it would be stored. The
/// fanout table gives the span.
pub fn search(bytes: &[u8], t: Table, id: ObjectId) -> Result<usize, usize>
    // The fanout table and the ids are as a look-up needs them (`IsSorted`).
    requires { IsSorted bytes.now t }

    // `Ok` has the position of `id`. `Err` has a position, at most the number of ids: the ids
    // before this position are less than `id`, and those from this position on are greater.
    ensures place { MatchResult result (IsAt bytes.now t id) (IsGap bytes.now t id) }

    // The position in `Ok` or `Err` is less than `2^32`.
    ensures small { MatchResult result (λ k. k < 2 ^ 32) (λ k. k < 2 ^ 32) }
{
    let b = id.0[0];
    let span = Span {
        low: below(bytes, t, b),
        high: word_at(bytes, t.fanout + 4 * b as usize),
    };
    narrow(bytes, t, span, id)
}

/// Returns the position of an id.
pub fn position(bytes: &[u8], t: Table, id: ObjectId) -> Option<usize>
    // The fanout table and the ids are as a look-up needs them (`IsSorted`).
    requires { IsSorted bytes.now t }

    // `Some` has the position of `id`. `None` means that `id` is stored at no position.
    ensures { MatchOption result (IsAbsent bytes.now t id) (IsAt bytes.now t id) }
{
    match search(bytes, t, id) {
        Ok(place) => Some(place),
        Err(_) => None,
    }
}
