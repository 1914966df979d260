//! Inflates streams whose content has a known size.

use crate::error::Damage;
use crate::failure::Fault;
use crate::source::Source;
use gix_files::Opened;
use gix_zlib::{InflateError, inflate};
use std::alloc::Allocator;

/// How many bytes a stream may have that its content does not need.
const MOST_PADDING: usize = 1 << 24;

/// Returns after how many bytes of a file a stream is taken for malformed, if its content has this
/// size.
///
/// A compressor that gains nothing adds an eighth at most. Git reads empty blocks without end.
fn longest(size: usize) -> usize {
    size.saturating_add(size / 8).saturating_add(MOST_PADDING)
}

/// Inflates a stream from these bytes; `None` if they may end before it does.
fn inflated_part<A: Allocator + Copy>(
    alloc: A,
    bytes: &[u8],
    size: usize,
) -> Result<Option<Vec<u8, A>>, InflateError> {
    match inflate(alloc, bytes, size) {
        Ok((content, _)) if content.len() == size => Ok(Some(content)),
        Ok(_) => Err(InflateError::NotAStream),
        Err(InflateError::NotAStream) => Ok(None),
        Err(error) => Err(error),
    }
}

/// Inflates a stream of a file from `at` on. Each time it reads four times as many bytes as before.
fn inflated_far<O: Opened, A: Allocator + Copy>(
    alloc: A,
    source: &Source<O>,
    at: u64,
    size: usize,
    shown: usize,
) -> Result<Option<Vec<u8, A>>, Fault> {
    let mut bytes = Vec::new(alloc);
    let mut len = shown;
    for _ in 0..u64::BITS {
        if len >= longest(size) {
            break;
        }
        len = len.saturating_mul(4).max(1);
        source.read_into(at, len, &mut bytes)?;
        match inflated_part(alloc, &bytes, size) {
            Ok(Some(content)) => return Ok(Some(content)),
            Ok(None) if bytes.len() == len => {}
            Err(InflateError::OutOfMemory) => return Err(Fault::OutOfMemory),
            _ => return Ok(None),
        }
    }
    Ok(None)
}

/// Returns the content of the stream of a file that begins at `at`. It has to have this size.
///
/// The bytes of `shown` are those at the beginning. More are read only if the stream needs more.
pub(crate) fn inflated<O: Opened, A: Allocator + Copy>(
    alloc: A,
    source: &Source<O>,
    at: u64,
    shown: &[u8],
    size: usize,
) -> Result<Vec<u8, A>, Fault> {
    let found = match inflated_part(alloc, shown, size) {
        Ok(Some(content)) => Some(content),
        Ok(None) => inflated_far(alloc, source, at, size, shown.len())?,
        Err(InflateError::OutOfMemory) => return Err(Fault::OutOfMemory),
        Err(_) => None,
    };
    match found {
        Some(content) => Ok(content),
        None => Err(source.damaged(at, Damage::Stream)),
    }
}
