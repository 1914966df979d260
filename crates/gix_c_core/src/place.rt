//! The place in which a C program receives a handle.

ghost use Rattle.std.specs.Prelude.{◌≡◌, IfOk, Option, Some};
ghost use Rattle.gix_c_core.specs.declared.handle.Handle.{Handle};
ghost use Rattle.gix_c_core.specs.PlaceCode.{place_coded};

use crate::handle::Handle;
use crate::history::History;
use crate::loose::Loose;
use std::alloc::{AllocError, Global};
use std::marker::Model;

/// A pointer in C, which owns the boxed handle that it points to, or nothing. Dropping it frees
/// nothing.
#[repr(C)]
#[derive(Drop)]
pub struct Place {
    at: *mut Handle,
    alloc: Global,
    pub ghost value: { Option Handle } by { place_coded },
}

impl Model for Place {
    ghost use Rattle.gix_c_core.specs.Owned.{owns_some};

    ghost also_owns = { λ p. owns_some p.alloc p.at p.value };
}

impl Place {
    /// Makes the place of a boxed handle.
    pub(crate) fn of(l: Loose<Handle, Global>) -> Place
        ensures { result.value ≡ Some l.value }
    {
        let Loose { at, alloc } = l;
        Place { at, alloc }
    }

    /// Boxes a history, and makes the place of its handle.
    pub fn holding(alloc: Global, history: History) -> Result<Place, AllocError>
        // The answer holds a handle of this history.
        ensures { IfOk result (λ place.
            (handle : Handle) × (place.value ≡ Some handle) × (handle.value ≡ history)) }
    {
        let history = Box::new(alloc, history)?;
        let handle = Box::new(alloc, Handle::new(history))?;
        Ok(Place::of(Loose::of(handle)))
    }
}
