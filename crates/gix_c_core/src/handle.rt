//! A history as C holds it: a pointer to a box, whose value C cannot see.

ghost use Rattle.std.specs.Prelude.{◌≡◌};
ghost use Rattle.gix_c_core.specs.declared.history.History.{History};
ghost use Rattle.gix_c_core.specs.Code.{history_coded};

use crate::history::History;
use crate::loose::Loose;
use std::alloc::{Allocator, Global};
use std::marker::Model;

/// A history as a C program holds it. The handle owns the box that `at` points to.
#[repr(C)]
pub struct Handle {
    at: *mut u8,
    alloc: Global,
    pub ghost value: { History } by { history_coded },
}

impl Model for Handle {
    ghost use Rattle.std.specs.Box.Ownership.{box_owns};
    ghost use Rattle.gix_c_core.specs.contracts.history.History.{the_row};

    ghost also_owns = { λ h. box_owns
        (⟦<Global as Allocator>⟧.dealloc_token h.alloc) the_row h.at h.value };
}

impl Handle {
    ghost use Rattle.std.specs.Borrow.{sem};
    ghost use Rattle.gix_c_core.specs.Lends.{lends_value};

    /// Makes the handle of a boxed history.
    pub(crate) fn new(value: Box<History>) -> Handle
        ensures { result.value ≡ value.value }
    {
        Handle::of(Loose::of(value))
    }

    /// Turns a handle back into its boxed history.
    pub(crate) fn into_box(self) -> Box<History>
        ensures { result.value ≡ self.value }
    {
        self.into_loose().into_box()
    }

    fn of(l: Loose<History, Global>) -> Handle
        ensures { result.value ≡ l.value }
    {
        let Loose { at, alloc } = l;
        Handle {
            at: at as *mut u8,
            alloc,
        }
    }

    fn into_loose(self) -> Loose<History, Global>
        ensures { result.value ≡ self.value }
    {
        let Handle { at, alloc } = self;
        Loose {
            at: at as *mut History,
            alloc,
        }
    }

    /// Borrows the history.
    pub fn get_mut(&mut self) -> &mut History
        // When the borrow ends, the handle has the last history behind the answer, and is otherwise
        // unchanged.
        ensures* writes_back { sem 𝓛 (lends_value self.entry result) }

        // The answer is the history of the handle.
        ensures value { result.now ≡ self.old.value }
    {
        unsafe { &mut *(self.at as *mut History) }
    }
}

impl Drop for Handle {
    fn drop(self) {
        drop(self.into_box());
    }
}
