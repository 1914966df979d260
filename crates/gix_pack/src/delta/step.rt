//! Reads an instruction of a delta (gitformat-pack, "Instruction to copy from base object" and
//! "Instruction to add new data").

ghost use Rattle.std.specs.Prelude.{◌≡◌, ◌+◌, ◌/◌, ◌%◌, ◌^◌, ◌<◌, ◌≤◌, ◌==◌, length, drop, slice_index, IfOk, IfErr};
ghost use Rattle.gix_pack.specs.DeltaForm.{is_set, byte_if, two_at, offset_at, size_at, copied, copy_of, copy_at, insert_at, step_at};
ghost use Rattle.gix_pack.specs.DeltaSteps.{IsStep, IsStepFault};

use crate::delta::fault::DeltaFault;

/// What an instruction adds, which is a part of the base or of the delta, and what follows it.
#[derive(Clone, Copy)]
pub(crate) struct Step<'a> {
    pub(crate) added: &'a [u8],
    pub(crate) rest: &'a [u8],
}

/// Returns whether a bit of the first byte of an instruction is set.
fn is_set(command: u8, bit: u32) -> bool
    requires { bit < 8 }
    ensures { result ≡ is_set command bit }
{
    command >> bit & 1 == 1
}

/// Reads the next byte if its bit is set.
fn byte_if(set: bool, text: &[u8]) -> (usize, &[u8])
    ensures value { result.0 ≡ (byte_if set text.now).value }
    ensures rest { result.1.now ≡ (byte_if set text.now).rest }
    ensures byte { result.0 < 256 }
    ensures shorter { length result.1.now ≤ length text.now }
{
    match text {
        [byte, rest @ ..] if set => (*byte as usize, rest),
        _ => (0, text),
    }
}

/// Reads up to two bytes, by the bits from `bit` on.
#[tactic(auto, unfolding(crate::specs::DeltaForm::two_at))]
fn two(command: u8, bit: u32, text: &[u8]) -> (usize, &[u8])
    requires { bit < 7 }
    ensures value { result.0 ≡ (two_at command bit text.now).value }
    ensures rest { result.1.now ≡ (two_at command bit text.now).rest }
    ensures bound { result.0 < 2 ^ 16 }
    ensures shorter { length result.1.now ≤ length text.now }
{
    let (low, rest) = byte_if(is_set(command, bit), text);
    let (high, rest) = byte_if(is_set(command, bit + 1), rest);
    (low + 256 * high, rest)
}

/// Reads the offset of a copy.
#[tactic(auto, unfolding(crate::specs::DeltaForm::offset_at))]
fn offset(command: u8, text: &[u8]) -> (usize, &[u8])
    ensures value { result.0 ≡ (offset_at command text.now).value }
    ensures rest { result.1.now ≡ (offset_at command text.now).rest }
    ensures bound { result.0 < 2 ^ 32 }
    ensures shorter { length result.1.now ≤ length text.now }
{
    let (low, rest) = two(command, 0, text);
    let (high, rest) = two(command, 2, rest);
    (low + 0x1_0000 * high, rest)
}

/// Reads the size of a copy.
#[tactic(auto, unfolding(crate::specs::DeltaForm::size_at))]
fn size(command: u8, text: &[u8]) -> (usize, &[u8])
    ensures value { result.0 ≡ (size_at command text.now).value }
    ensures rest { result.1.now ≡ (size_at command text.now).rest }
    ensures bound { result.0 < 2 ^ 24 }
    ensures shorter { length result.1.now ≤ length text.now }
{
    let (low, rest) = two(command, 4, text);
    let (high, rest) = byte_if(is_set(command, 6), rest);
    (low + 0x1_0000 * high, rest)
}

/// Returns the number of bytes that a copy of a size adds.
fn copied(size: usize) -> usize
    ensures { result ≡ copied size }
{
    if size == 0 { 0x1_0000 } else { size }
}

/// Returns the copy of a part of the base.
fn copy_of<'a>(
    base: &'a [u8],
    offset: usize,
    size: usize,
    rest: &'a [u8],
) -> Result<Step<'a>, DeltaFault>
    requires { offset + size < 2 ^ 64 }
    ensures step { IsStep result (copy_of base.now offset size rest.now) }
    ensures fault { IfErr result IsStepFault }
    ensures shorter { IfOk result (λ s. length s.rest.now ≤ length rest.now) }
{
    if offset + size <= base.len() {
        Ok(Step {
            added: &base[offset..offset + size],
            rest,
        })
    } else {
        Err(DeltaFault::Outside)
    }
}

/// Reads an instruction to copy, after its first byte.
#[tactic(auto, unfolding(crate::specs::DeltaForm::copy_at))]
fn copy<'a>(base: &'a [u8], command: u8, text: &'a [u8]) -> Result<Step<'a>, DeltaFault>
    ensures step { IsStep result (copy_at base.now command text.now) }
    ensures fault { IfErr result IsStepFault }
    ensures shorter { IfOk result (λ s. length s.rest.now ≤ length text.now) }
{
    if (command % 128).count_ones() as usize > text.len() {
        return Err(DeltaFault::Truncated);
    }
    let (offset, rest) = offset(command, text);
    let (size, rest) = size(command, rest);
    copy_of(base, offset, copied(size), rest)
}

/// Reads an instruction to add the next `count` bytes.
#[tactic(auto, unfolding(crate::specs::DeltaForm::insert_at))]
fn insert(count: u8, text: &[u8]) -> Result<Step<'_>, DeltaFault>
    ensures step { IsStep result (insert_at count text.now) }
    ensures fault { IfErr result IsStepFault }
    ensures shorter { IfOk result (λ s. length s.rest.now ≤ length text.now) }
{
    let count = count as usize;
    if count == 0 {
        return Err(DeltaFault::Reserved);
    }
    if count > text.len() {
        return Err(DeltaFault::Truncated);
    }
    let (added, rest) = text.split_at(count);
    Ok(Step { added, rest })
}

/// Reads the instruction at the beginning of a text.
#[tactic(auto, unfolding(crate::specs::DeltaForm::step_at))]
pub(crate) fn next_step<'a>(base: &'a [u8], text: &'a [u8]) -> Result<Step<'a>, DeltaFault>
    requires { 0 < length text.now }
    ensures step { IsStep result (step_at base.now text.now) }
    ensures fault { IfErr result IsStepFault }
    ensures shorter { IfOk result (λ s. length s.rest.now < length text.now) }
{
    let command = text[0];
    if command < 128 {
        insert(command, &text[1..])
    } else {
        copy(base, command, &text[1..])
    }
}
