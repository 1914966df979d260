//! A stock as C holds it: a pointer to a box, whose value C cannot see.

ghost use Rattle.std.specs.Prelude.{◌≡◌};
ghost use Rattle.gix_c_core.specs.declared.stock.Stock.{Stock};
ghost use Rattle.gix_c_core.specs.StockCode.{stock_coded};

use crate::loose::Loose;
use crate::stock::Stock;
use std::alloc::{Allocator, Global};
use std::marker::Model;

/// A stock as a C program holds it. The handle owns the box that `at` points to.
#[repr(C)]
pub struct StockHandle {
    at: *mut u8,
    alloc: Global,
    pub ghost value: { Stock } by { stock_coded },
}

impl Model for StockHandle {
    ghost use Rattle.std.specs.Box.Ownership.{box_owns};
    ghost use Rattle.gix_c_core.specs.contracts.stock.Stock.{the_row};

    ghost also_owns = { λ h. box_owns
        (⟦<Global as Allocator>⟧.dealloc_token h.alloc) the_row h.at h.value };
}

impl StockHandle {
    ghost use Rattle.std.specs.Borrow.{sem};
    ghost use Rattle.gix_c_core.specs.StockLends.{lends_stock};

    /// Makes the handle of a boxed stock.
    pub(crate) fn new(value: Box<Stock>) -> StockHandle
        ensures { result.value ≡ value.value }
    {
        StockHandle::of(Loose::of(value))
    }

    /// Turns a handle back into its boxed stock.
    pub(crate) fn into_box(self) -> Box<Stock>
        ensures { result.value ≡ self.value }
    {
        self.into_loose().into_box()
    }

    fn of(l: Loose<Stock, Global>) -> StockHandle
        ensures { result.value ≡ l.value }
    {
        let Loose { at, alloc } = l;
        StockHandle {
            at: at as *mut u8,
            alloc,
        }
    }

    fn into_loose(self) -> Loose<Stock, Global>
        ensures { result.value ≡ self.value }
    {
        let StockHandle { at, alloc } = self;
        Loose {
            at: at as *mut Stock,
            alloc,
        }
    }

    /// Borrows the stock.
    pub fn get_mut(&mut self) -> &mut Stock
        // When the borrow ends, the handle has the last stock behind the answer, and is otherwise
        // unchanged.
        ensures* writes_back { sem 𝓛 (lends_stock self.entry result) }

        // The answer is the stock of the handle.
        ensures value { result.now ≡ self.old.value }
    {
        unsafe { &mut *(self.at as *mut Stock) }
    }
}

impl Drop for StockHandle {
    fn drop(self) {
        drop(self.into_box());
    }
}

/// A table of names as a C program holds it.
pub type NamesHandle = StockHandle;

/// A list of ids as a C program holds it.
pub type IdsHandle = StockHandle;
