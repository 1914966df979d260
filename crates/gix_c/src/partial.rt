//! C functions for partial histories, of which not all commits were put in.

ghost use Rattle.std.specs.Prelude.{◌≡◌, None, Some, if◌then◌else◌};
ghost use Rattle.gix_c_core.specs.Answers.{ByCode, id_of};
ghost use Rattle.gix_c_core.specs.Partial.{wanted_in};

use gix_c_core::extent::Extent;
use gix_c_core::handle::Handle;
use gix_c_core::ids::bytes_of;
use gix_c_core::status::{NONE, OK};

/// Makes a history partial, or complete again.
#[unsafe(no_mangle)]
pub extern "C" fn gix_history_set_partial(history: &mut Handle, partial: bool)
    // If `partial` is true, the history is partial, and no commit is wanted. Otherwise the history
    // is complete.
    ensures extent { history.new.value.extent ≡ (if partial then Extent.Partial None else Extent.Complete) }

    // The graph is unchanged, with its commits and all that it holds.
    ensures graph { history.new.value.graph ≡ history.old.value.graph }

    // The list of noted parents is unchanged.
    ensures named { history.new.value.named ≡ history.old.value.named }

    // Ref names and the ids of abbreviated object names are unchanged.
    ensures table { history.new.value.table ≡ history.old.value.table }
{
    history.get_mut().extent = if partial {
        Extent::Partial(None)
    } else {
        Extent::Complete
    };
}

/// Writes the id of the commit that a question about a partial history wanted last.
#[unsafe(no_mangle)]
pub extern "C" fn gix_history_wanted(history: &mut Handle, out: &mut [u8; 20]) -> i32
    // The code is `OK`, and `out` is the id of the wanted commit. Or the code is `NONE`, no commit
    // is wanted, and `out` is unchanged.
    ensures wanted { ByCode result (wanted_in history.old.value.extent ≡ Some (id_of out.new))
        ((wanted_in history.old.value.extent ≡ None) × (out.new ≡ out.old)) ⊥ }

    // The history is unchanged.
    ensures kept { history.new.value ≡ history.old.value }
{
    match history.get_mut().extent {
        Extent::Partial(Some(id)) => {
            *out = bytes_of(&id);
            OK
        }
        _ => NONE,
    }
}
