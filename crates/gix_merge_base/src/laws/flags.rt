//! What the calls of the trait `bitflags::Flags` return for the marks of a commit, as numbers.
//!
//! Each function is named after the call whose answer it states.

ghost use Rattle.std.specs.Prelude.{◌≡◌, ◌==◌, [], ◌∷◌};
ghost use Rattle.std.specs.Int.RustNames.{bit_or};
ghost use Rattle.bitflags.specs.Sets.{without};
ghost use Rattle.gix_merge_base.specs.Flags.{bits_of, has_all};

use crate::merge_base::Flags;
use bitflags::Flags as BitFlags;

/// Returns the bits of the constants `COMMIT1`, `COMMIT2`, `STALE` and `RESULT`.
pub fn constants() -> [u8; 4]
    // The four numbers are 1, 2, 4 and 8.
    ensures { result ≡ 1 ∷ 2 ∷ 4 ∷ 8 ∷ [] }
{
    [
        Flags::COMMIT1.bits(),
        Flags::COMMIT2.bits(),
        Flags::STALE.bits(),
        Flags::RESULT.bits(),
    ]
}

/// Returns a set with exactly these bits.
pub fn from_bits_retain(bits: u8) -> Flags
    // The bits of the set are exactly `bits`.
    ensures { bits_of result ≡ bits }
{
    Flags::from_bits_retain(bits)
}

/// Returns the bits of the set.
pub fn bits(flags: Flags) -> u8
    // The answer is the bits of the set.
    ensures { result ≡ bits_of flags }
{
    flags.bits()
}

/// Returns a set with no bits.
pub fn empty() -> Flags
    // The set has no bits.
    ensures { bits_of result ≡ 0 }
{
    Flags::empty()
}

/// Returns a set with no bits.
pub fn default() -> Flags
    // The set has no bits.
    ensures { bits_of result ≡ 0 }
{
    Flags::default()
}

/// Returns a set with the bits of the four marks.
pub fn all() -> Flags
    // The bits of the set are 15, the bits of the four marks.
    ensures { bits_of result ≡ 15 }
{
    Flags::all()
}

/// Tests whether the set has no bits.
pub fn is_empty(flags: Flags) -> bool
    // The answer is `true` exactly if the set has no bits.
    ensures { result ≡ (bits_of flags == 0) }
{
    flags.is_empty()
}

/// Tests whether every bit of `other` is set.
pub fn contains(flags: Flags, other: Flags) -> bool
    // The answer is `true` exactly if `flags` has every bit of `other`.
    ensures { result ≡ has_all flags other }
{
    flags.contains(other)
}

/// Sets the bits of `other` as well.
pub fn insert(flags: &mut Flags, other: Flags)
    // After the call, `flags` has the bits that it had, and the bits of `other`.
    ensures { bits_of flags.new ≡ bit_or (bits_of flags.old) (bits_of other) }
{
    flags.insert(other);
}

/// Clears the bits of `other`.
pub fn remove(flags: &mut Flags, other: Flags)
    // After the call, `flags` has the bits that it had, without the bits of `other`.
    ensures { bits_of flags.new ≡ without 8 (bits_of flags.old) (bits_of other) }
{
    flags.remove(other);
}
