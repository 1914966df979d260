//! The place in which a C program receives the handle of a stock.

ghost use Rattle.std.specs.Prelude.{◌≡◌, IfOk, Option, Some};
ghost use Rattle.gix_c_core.specs.declared.stock_handle.StockHandle.{StockHandle};
ghost use Rattle.gix_c_core.specs.StockPlaceCode.{stock_place_coded};

use crate::loose::Loose;
use crate::stock::Stock;
use crate::stock_handle::StockHandle;
use std::alloc::{AllocError, Global};
use std::marker::Model;

/// A pointer in C, which owns the boxed handle that it points to, or nothing. Dropping it frees
/// nothing.
#[repr(C)]
#[derive(Drop)]
pub struct StockPlace {
    at: *mut StockHandle,
    alloc: Global,
    pub ghost value: { Option StockHandle } by { stock_place_coded },
}

impl Model for StockPlace {
    ghost use Rattle.gix_c_core.specs.StockOwned.{owns_some_stock};

    ghost also_owns = { λ p. owns_some_stock p.alloc p.at p.value };
}

impl StockPlace {
    /// Makes the place of a boxed handle.
    pub(crate) fn of(l: Loose<StockHandle, Global>) -> StockPlace
        ensures { result.value ≡ Some l.value }
    {
        let Loose { at, alloc } = l;
        StockPlace { at, alloc }
    }

    /// Boxes a stock, and makes the place of its handle.
    pub fn holding(alloc: Global, stock: Stock) -> Result<StockPlace, AllocError>
        // The answer holds a handle of this stock.
        ensures { IfOk result (λ place.
            (handle : StockHandle) × (place.value ≡ Some handle) × (handle.value ≡ stock)) }
    {
        let stock = Box::new(alloc, stock)?;
        let handle = Box::new(alloc, StockHandle::new(stock))?;
        Ok(StockPlace::of(Loose::of(handle)))
    }
}

/// The place in which a C program receives a table of names.
pub type NamesPlace = StockPlace;

/// The place in which a C program receives a list of ids.
pub type IdsPlace = StockPlace;
