//! Applies a delta to its base.

ghost use Rattle.std.specs.Prelude.{◌≡◌, ◌≢◌, ◌<◌, ◌≤◌, length, IfOk, IfErr, MatchOption};
ghost use Rattle.gix_pack.specs.PackNumbers.{HasNumber, number_bytes, behind_number, low_first};
ghost use Rattle.gix_pack.specs.DeltaForm.{Makes, IsFor, IsDelta, IsRefused};
ghost use Rattle.gix_pack.specs.DeltaSteps.{IsStopped};

use crate::delta::fault::{ApplyError, DeltaFault};
use crate::delta::step::next_step;
use crate::numbers;
use std::alloc::Allocator;

/// Reads the number at the beginning of a text, and returns what follows it, too.
fn number(text: &[u8]) -> Option<(u64, &[u8])>
    ensures { MatchOption result (¬ HasNumber text.now) (λ p. HasNumber text.now × (p.0 ≡ low_first (number_bytes text.now)) × (p.1.now ≡ behind_number text.now)) }
{
    let n = numbers::number_length(text)?;
    Some((numbers::low_first(&text[..n]), &text[n..]))
}

/// Returns what follows the size of the base, or `None` if the delta is not for this base.
fn behind_source<'a>(base: &[u8], delta: &'a [u8]) -> Option<&'a [u8]>
    ensures { MatchOption result (¬ IsFor base.now delta.now) (λ rest. IsFor base.now delta.now × (rest.now ≡ behind_number delta.now)) }
{
    if delta.len() < 4 {
        return None;
    }
    let (size, rest) = number(delta)?;
    if size == base.len() as u64 {
        Some(rest)
    } else {
        None
    }
}

/// Makes the target of `size` bytes that the instructions of a text make.
///
/// Room is made for as many bytes as the base and the text have, or fewer. After that it grows with
/// the target, so that a text takes no memory by the size that it claims.
fn make<A: Allocator>(
    alloc: A,
    base: &[u8],
    text: &[u8],
    size: usize,
) -> Result<Vec<u8, A>, ApplyError>
    ensures made { IfOk result (λ target. Makes base.now text.now target.items × (size ≡ length target.items)) }
    ensures stopped { IfErr result (IsStopped base.now text.now size) }
{
    let room = size.min(base.len().saturating_add(text.len()));
    let mut target = Vec::with_capacity(alloc, room)?;
    let mut rest = text;
    'steps: while !rest.is_empty() {
        let step = next_step(base, rest)?;
        if step.added.len() > size - target.len() {
            return Err(ApplyError::Malformed(DeltaFault::TargetSize));
        }
        target.extend_from_slice(step.added)?;
        rest = step.rest;
    }
    if target.len() != size {
        return Err(ApplyError::Malformed(DeltaFault::TargetSize));
    }
    Ok(target)
}

/// Returns the target that a delta makes of `base`, in the memory of `alloc`.
///
/// Memory is requested as the target grows, and not by the size that a delta claims. See
/// gitformat-pack, "Deltified representation".
///
/// # Errors
///
/// - [`ApplyError::Malformed`]: the delta makes no target of this base, or says another size.
/// - [`ApplyError::TooLarge`]: the delta is for this base, and says a target of more than `limit`
///   bytes. Its instructions are not read.
/// - [`ApplyError::OutOfMemory`]: the target could not be allocated.
pub fn apply<A: Allocator>(
    alloc: A,
    base: &[u8],
    delta: &[u8],
    limit: usize,
) -> Result<Vec<u8, A>, ApplyError>
    // The delta makes the returned target of `base`, and the target has at most `limit` bytes.
    ensures made { IfOk result (λ target. IsDelta base.now delta.now target.items × (length target.items ≤ limit)) }

    // `Malformed` comes only with a fault that the delta has for `base`. `TooLarge` comes only if
    // the delta is for `base`, and says a target of more than `limit` bytes.
    ensures refused { IfErr result (IsRefused base.now delta.now limit) }
{
    let Some(rest) = behind_source(base, delta) else {
        return Err(ApplyError::Malformed(DeltaFault::SourceSize));
    };
    let Some((size, instructions)) = number(rest) else {
        return Err(ApplyError::Malformed(DeltaFault::TargetSize));
    };
    if size > limit as u64 {
        return Err(ApplyError::TooLarge);
    }
    make(alloc, base, instructions, size as usize)
}
