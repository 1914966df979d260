//! C function that abbreviates an id.

ghost use Rattle.std.specs.Prelude.{◌≡◌, max, min};
ghost use Rattle.gix_c_core.specs.Abbreviated.{IsShort};
ghost use Rattle.gix_c_core.specs.Answers.{id_of};

use gix_c_core::abbreviate::shortest;
use gix_c_core::handle::Handle;
use gix_revision::hash::ObjectId;

/// Returns how many digits of `id` are needed, so that no other id of the history begins with them.
#[unsafe(no_mangle)]
pub extern "C" fn gix_history_abbreviate(history: &mut Handle, id: &[u8; 20], least: usize) -> usize
    // The result is the least number of digits, from `least` on and from 4 to 40, with which no
    // other id begins, or 40. Other ids are those that abbreviated object names stand for.
    ensures short { IsShort history.old.value.table.ids.keys (id_of id.now) (min (max least 4) 40) result }

    // The history is unchanged.
    ensures kept { history.new.value ≡ history.old.value }
{
    shortest(
        &history.get_mut().table.ids,
        ObjectId(*id),
        least.max(4).min(40),
    )
}
