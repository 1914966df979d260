//! Has the reasons why a delta is not applied.

ghost use Rattle.std.specs.Prelude.{◌≡◌, Some};
ghost use Rattle.gix_pack.specs.PackTexts.{delta_fault_text, apply_error_text};
ghost use Rattle.gix_pack.specs.declared.delta.fault.ApplyError.TheVariants.{Malformed, OutOfMemory};

use std::alloc::AllocError;
use std::fmt;
use thiserror::Error as StdError;

/// Says what is wrong with a delta.
#[derive(Clone, Copy, Debug, Drop, StdError)]
pub enum DeltaFault {
    /// The delta has fewer than 4 bytes, or does not begin with the size of the base.
    SourceSize,
    /// The delta does not say the size of the target that it makes.
    TargetSize,
    /// The delta ends within an instruction.
    Truncated,
    /// An instruction copies bytes that the base does not have.
    Outside,
    /// An instruction is the reserved one.
    Reserved,
}

impl fmt::Display for DeltaFault {
    ghost output = { λ e. Some (delta_fault_text e) };

    fn fmt<W: fmt::Write>(&self, f: &mut fmt::Formatter<W>) -> fmt::Result {
        f.write_str(match self {
            DeltaFault::SourceSize => "delta is not for a base of this size",
            DeltaFault::TargetSize => "delta makes another size than it says",
            DeltaFault::Truncated => "delta ends within an instruction",
            DeltaFault::Outside => "delta copies bytes that its base does not have",
            DeltaFault::Reserved => "delta has the reserved instruction",
        })
    }
}

/// Says why a delta is not applied.
#[derive(Clone, Copy, Debug, Drop, StdError)]
pub enum ApplyError {
    /// The delta has a fault.
    Malformed(DeltaFault),
    /// The delta says a target of more bytes than the limit.
    TooLarge,
    /// An allocation failed.
    OutOfMemory,
}

impl fmt::Display for ApplyError {
    ghost output = { λ e. Some (apply_error_text e) };

    fn fmt<W: fmt::Write>(&self, f: &mut fmt::Formatter<W>) -> fmt::Result {
        match self {
            ApplyError::Malformed(fault) => fault.fmt(f),
            ApplyError::TooLarge => f.write_str("target of a delta is larger than the limit"),
            ApplyError::OutOfMemory => f.write_str("out of memory"),
        }
    }
}

impl From<AllocError> for ApplyError {
    ghost from_gives = { λ _ error. error ≡ OutOfMemory };

    fn from(_error: AllocError) -> ApplyError {
        ApplyError::OutOfMemory
    }
}

impl From<DeltaFault> for ApplyError {
    ghost from_gives = { λ fault error. error ≡ Malformed fault };

    fn from(fault: DeltaFault) -> ApplyError {
        ApplyError::Malformed(fault)
    }
}
