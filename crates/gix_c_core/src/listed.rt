//! Lists of ids that a C program keeps.

ghost use Rattle.std.specs.Prelude.{◌≡◌, ◌++◌, IfOk, Some, drop, length, map, min, take};
ghost use Rattle.gix_c_core.specs.Answers.{bytes_in};
ghost use Rattle.gix_c_core.specs.declared.stock_handle.StockHandle.{StockHandle};

use crate::ids::bytes_of_each;
use crate::stock::Stock;
use crate::stock_place::StockPlace;
use gix_revision::Seed;
use gix_revision::hash::ObjectId;
use std::alloc::{AllocError, Global};
use std::collections::HashMap;

/// Returns the items from the place `from` on.
pub fn behind(bytes: &[[u8; 20]], from: usize) -> &[[u8; 20]]
    // The answer has the items from the place `from` on, in the same order.
    ensures { result.now ≡ drop from bytes.now }
{
    &bytes[from.min(bytes.len())..]
}

/// Writes as many first items as fit into `out`. Returns how many it wrote.
pub fn copy_front(bytes: &[[u8; 20]], out: &mut [[u8; 20]]) -> usize
    // The answer is the number of the items or the length of `out`, whichever is less.
    ensures counted { result ≡ min (length bytes.now) (length out.old) }

    // `out` begins with so many first items, and its rest is unchanged.
    ensures written { out.new ≡ take result bytes.now ++ drop result out.old }
{
    let len = bytes.len().min(out.len());
    out[..len].copy_from_slice(&bytes[..len]);
    len
}

/// Makes the place of a list of ids.
pub fn place_of(alloc: Global, ids: &[ObjectId]) -> Result<StockPlace, AllocError>
    // The answer holds a handle, whose list has the bytes of each id, in the same order.
    ensures { IfOk result (λ place. (list : StockHandle) × (place.value ≡ Some list)
        × (list.value.ids.items ≡ map bytes_in ids.now)) }
{
    let ids = bytes_of_each(alloc, ids)?;
    let stock = Stock {
        names: HashMap::with_hasher(alloc, Seed::default()),
        ids,
    };
    let place = StockPlace::holding(alloc, stock)?;
    Ok(place)
}
