//! C functions that free what a program keeps apart from a history.

ghost use Rattle.std.specs.Borrow.{sem};
ghost use Rattle.gix_c_core.specs.declared.stock_handle.StockHandle.{StockHandle};
ghost use Rattle.gix_c_core.specs.StockOwned.{owns_stock_unless_null};

use gix_c_core::loose::Loose;
use gix_c_core::stock_handle::{IdsHandle, NamesHandle, StockHandle};
use std::alloc::Global;

fn dispose(handle: Loose<StockHandle, Global>) {
    drop(handle.into_box());
}

/// Frees a table of names that this library made. Does nothing if the pointer is null.
#[unsafe(no_mangle)]
pub unsafe extern "C" fn gix_names_free(alloc: Global, names: *mut NamesHandle)
    ghost value: { StockHandle }
    // Unless the pointer is null, the caller hands over the handle there, with all that it owns,
    // and the right to free it.
    requires* { sem 𝓛 (owns_stock_unless_null alloc names value) }
{
    if names.is_null() {
        return;
    }
    dispose(Loose { at: names, alloc });
}

/// Frees a list of ids that this library made. Does nothing if the pointer is null.
#[unsafe(no_mangle)]
pub unsafe extern "C" fn gix_ids_free(alloc: Global, ids: *mut IdsHandle)
    ghost value: { StockHandle }
    // Unless the pointer is null, the caller hands over the handle there, with all that it owns,
    // and the right to free it.
    requires* { sem 𝓛 (owns_stock_unless_null alloc ids value) }
{
    if ids.is_null() {
        return;
    }
    dispose(Loose { at: ids, alloc });
}
