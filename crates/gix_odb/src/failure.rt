//! The reasons why a copy of an object is not taken.

ghost use Rattle.gix_base.specs.declared.hash.ObjectId.{ObjectId};
ghost use Rattle.std.specs.Prelude.{◌≡◌};
ghost use Rattle.gix_odb.specs.Refusals.{IsFailure, IsRefused};
ghost use Rattle.gix_odb.specs.declared.failure.Failure.TheVariants.{InFile};
ghost use Rattle.gix_odb.specs.declared.failure.Fault.TheVariants.{OutOfMemory};

use crate::error::{Damage, Error, Feature, FileName};
use gix_base::hash::ObjectId;
use std::alloc::{AllocError, AllocFailed};
use std::io::ErrorKind;

/// Says why a file is not read, or not as it should be.
#[derive(Clone, Copy)]
pub(crate) enum Fault {
    Damaged(FileName, u64, Damage),
    Unsupported(FileName, Feature),
    Failed(FileName, ErrorKind),
    OutOfMemory,
}

/// Says why a copy of an object is not taken. The caller knows the id.
#[derive(Clone, Copy)]
pub(crate) enum Failure {
    /// There is no copy.
    Missing,
    /// Its bytes have this other id.
    Altered(ObjectId),
    InFile(Fault),
}

impl From<AllocError> for Fault {
    fn from(_e: AllocError) -> Fault {
        Fault::OutOfMemory
    }
}

impl<T: Drop> From<AllocFailed<T>> for Fault {
    fn from(_e: AllocFailed<T>) -> Fault {
        Fault::OutOfMemory
    }
}

impl From<Fault> for Failure {
    ghost from_gives = { λ fault failure. failure ≡ InFile fault };

    fn from(fault: Fault) -> Failure {
        Failure::InFile(fault)
    }
}

impl From<AllocError> for Failure {
    ghost from_gives = { λ _ failure. failure ≡ InFile OutOfMemory };

    fn from(_e: AllocError) -> Failure {
        Failure::InFile(Fault::OutOfMemory)
    }
}

impl Fault {
    /// Returns the error for a fault.
    pub(crate) fn error(self) -> Error
        ensures { (id : ObjectId) → IsRefused id result }
    {
        match self {
            Fault::Damaged(file, at, damage) => Error::Damaged(file, at, damage),
            Fault::Unsupported(file, feature) => Error::Unsupported(file, feature),
            Fault::Failed(file, kind) => Error::Failed(file, kind),
            Fault::OutOfMemory => Error::OutOfMemory,
        }
    }
}

impl Failure {
    /// Tells whether an allocation failed. Then no other copy is tried.
    pub(crate) fn is_out_of_memory(self) -> bool {
        matches!(self, Failure::InFile(Fault::OutOfMemory))
    }

    /// Tells whether there is no copy.
    pub(crate) fn is_missing(self) -> bool {
        matches!(self, Failure::Missing)
    }

    /// Returns the failure of two copies: the first, unless that copy is missing.
    pub(crate) fn or(self, next: Failure) -> Failure
        ensures { (id : ObjectId) → IsFailure id self → IsFailure id next → IsFailure id result }
    {
        match self {
            Failure::Missing => next,
            first => first,
        }
    }

    /// Returns the error for the object with this id.
    pub(crate) fn error(self, id: ObjectId) -> Error
        requires { IsFailure id self }
        ensures { IsRefused id result }
    {
        match self {
            Failure::Missing => Error::Missing(id),
            Failure::Altered(other) => Error::Altered(id, other),
            Failure::InFile(fault) => fault.error(),
        }
    }
}
