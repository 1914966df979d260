//! Keeps parts of a pack in memory.

use crate::failure::Fault;
use crate::source::Source;
use gix_files::Opened;
use std::alloc::Allocator;

/// How many bytes a window shows.
pub(crate) const WINDOW: usize = 1 << 16;

/// Windows begin at the multiples of this number, so that each place is in one with 32 kB after it.
const STEP: u64 = 1 << 15;

/// How many windows are kept.
const WINDOWS: u64 = 16;

/// A part of a file from `start` on.
#[derive(Drop)]
struct Window<A: Allocator> {
    start: u64,
    bytes: Vec<u8, A>,
}

/// Keeps the last windows of a file: each where the number of its step says.
#[derive(Drop)]
pub(crate) struct Windows<A: Allocator + Copy> {
    windows: Vec<Window<A>, A>,
}

impl<A: Allocator + Copy> Windows<A> {
    /// Returns no windows.
    pub(crate) fn new(alloc: A) -> Windows<A> {
        Windows {
            windows: Vec::new(alloc),
        }
    }

    /// Makes room for all windows.
    fn make_room(&mut self, alloc: A) -> Result<(), Fault> {
        for _ in (self.windows.len() as u64)..WINDOWS {
            self.windows.push(Window {
                start: u64::MAX,
                bytes: Vec::new(alloc),
            })?;
        }
        Ok(())
    }

    /// Returns the bytes of a file from `at` on: 32 kB or more, unless the file ends before.
    pub(crate) fn show<O: Opened>(
        &mut self,
        alloc: A,
        source: &Source<O>,
        at: u64,
    ) -> Result<&[u8], Fault> {
        self.make_room(alloc)?;
        let step = at / STEP;
        let Some(window) = self.windows.get_mut((step % WINDOWS) as usize) else {
            return Ok(&[]);
        };
        window.move_to(source, step.saturating_mul(STEP))?;
        Ok(window.bytes.get((at % STEP) as usize..).unwrap_or(&[]))
    }
}

impl<A: Allocator> Window<A> {
    /// Reads the part of a file from `start` on, unless it is already here.
    fn move_to<O: Opened>(&mut self, source: &Source<O>, start: u64) -> Result<(), Fault> {
        if self.start != start {
            self.start = u64::MAX;
            source.read_into(start, WINDOW, &mut self.bytes)?;
            self.start = start;
        }
        Ok(())
    }
}
