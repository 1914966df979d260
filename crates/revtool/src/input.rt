//! Reads a whole input with a bounded number of reads.

ghost use Rattle.std.specs.Prelude.{◌≡◌, ◌<◌, [], length, OnOk, IfOk, IsTrue, vec_len};
ghost use Rattle.std.specs.Io.KnownBytes.{IsAtEnd};
ghost use Rattle.revtool.specs.Reads.{TakesMore};

use crate::stop::Stop;
use std::alloc::{AllocError, Allocator};
use std::io::{ErrorKind, Read};

/// The greatest number of reads.
const READS: u32 = 16_777_216;

/// The greatest number of bytes that one read asks for.
const READ_SIZE: usize = 65_536;

/// Reads all bytes of the input, which must end within `READS` reads of up to `READ_SIZE` bytes.
pub(crate) fn read_all<R: Read, A: Allocator + Copy>(
    alloc: A,
    input: &mut R,
) -> Result<Vec<u8, A>, Stop>
    // If the input is a known stream, the answer has the bytes that the input lost, each once and
    // in order.
    ensures bytes { IfOk result (λ v. TakesMore (R.remaining input.old) (R.remaining input.new) [] v.items) }

    // After a success, no byte of the input is left, if it is a known stream.
    ensures end { OnOk result (IsAtEnd (R.remaining input.new)) }
{
    let mut text = Vec::new(alloc);
    let mut room = make_room(alloc)?;
    for _ in 0..READS {
        if read_once(input, room.as_mut_slice(), &mut text)? {
            return Ok(text);
        }
    }
    Err(Stop::UnreadableInput)
}

/// Allocates a buffer for one read.
fn make_room<A: Allocator>(alloc: A) -> Result<Vec<u8, A>, AllocError>
    ensures { IfOk result (λ v. vec_len v ≡ 65536) }
{
    vec![in alloc; 0u8; READ_SIZE]
}

/// Reads once, and tells whether the input has ended. A read that a signal interrupted counts, and
/// adds nothing.
fn read_once<R: Read, A: Allocator>(
    input: &mut R,
    room: &mut [u8],
    text: &mut Vec<u8, A>,
) -> Result<bool, Stop>
    requires { 0 < length room.old }
    ensures taken { OnOk result (TakesMore (R.remaining input.old) (R.remaining input.new) text.old.items text.new.items) }
    ensures end { IfOk result (λ ended. IsTrue ended → IsAtEnd (R.remaining input.new)) }
{
    match input.read(room) {
        Ok(0) => Ok(true),
        Ok(count) => {
            text.extend_from_slice(&room[..count])?;
            Ok(false)
        }
        Err(error) if error.kind() == ErrorKind::Interrupted => Ok(false),
        Err(_) => Err(Stop::UnreadableInput),
    }
}
