//! Finds the position of an id that a walk has met before.

ghost use Rattle.std.specs.Prelude.{MatchOption};
ghost use Rattle.gix_ids.specs.TableForm.{IsSorted};
ghost use Rattle.gix_ids.specs.TableLookup.{IsAt, IsAbsent};

use gix_base::hash::ObjectId;
use gix_ids::{Table, id_at, position};

/// Returns the position of an id, and tries the position `guess` first.
pub(crate) fn position_near(bytes: &[u8], t: Table, id: ObjectId, guess: usize) -> Option<usize>
    requires { IsSorted bytes.now t }
    ensures { MatchOption result (IsAbsent bytes.now t id) (IsAt bytes.now t id) }
{
    if guess < t.count && id_at(bytes, t.ids + 20 * guess) == id {
        return Some(guess);
    }
    position(bytes, t, id)
}
