//! Keeps the blocks of a file that were read.

ghost use Rattle.std.specs.Prelude.{◌≡◌, ◌+◌, ◌<◌, ◌^◌, ℕ, List, IfOk, OnOk};
ghost use Rattle.gix_files.specs.Known.{IsPart};
ghost use Rattle.gix_graph_rows.specs.Kept.{IsWindow, AreBlocks};

use crate::error::{Damage, Error};
use crate::source::Source;
use gix_files::Opened;
use std::alloc::Allocator;

/// Blocks begin at the multiples of this number.
const STEP: u64 = 1 << 12;

/// How many bytes a block has. The bytes of a row are then in the block in which it begins.
const BLOCK: usize = (1 << 12) + 64;

/// How many blocks a window has.
const BLOCKS: u64 = 16;

/// How many windows of a file are kept at most: 64 MiB of its bytes.
const WINDOWS: u64 = 1 << 10;

/// Is a part of a file: blocks that follow each other. One that was not read is empty.
#[derive(Drop)]
struct Window<A: Allocator> {
    number: u64,
    blocks: Vec<Vec<u8, A>, A>,
}

/// Keeps windows of a file, each where its number says.
#[derive(Drop)]
pub(crate) struct Blocks<A: Allocator + Copy> {
    windows: Vec<Window<A>, A>,
}

/// Returns the bytes from a place on.
fn behind(bytes: &[u8], at: usize) -> &[u8]
    ensures { (s : List ℕ) → (base : ℕ) → IsPart s base bytes.now → IsPart s (base + at) result.now }
{
    if at <= bytes.len() { &bytes[at..] } else { &[] }
}

impl<A: Allocator + Copy> Window<A> {
    /// Drops all blocks, and makes room for those of the window with this number.
    fn move_to(&mut self, alloc: A, number: u64) -> Result<(), Error>
        ensures here { OnOk result (self.new.number ≡ number) }
        ensures kept { (s : List ℕ) → IsWindow s self.new }
    {
        self.number = u64::MAX;
        self.blocks.clear();
        for _ in 0..BLOCKS {
            self.blocks.push(Vec::new(alloc))?;
        }
        self.number = number;
        Ok(())
    }

    /// Reads a block of the window with this number, unless it is here.
    fn load<O: Opened>(&mut self, alloc: A, source: &Source<O>, number: u64) -> Result<(), Error>
        requires small { number < 2 ^ 52 }
        requires kept { O.keeps → IsWindow (O.content source.now.file) self.old }
        ensures { O.keeps → IsWindow (O.content source.now.file) self.new }
    {
        if self.number != number / BLOCKS {
            self.move_to(alloc, number / BLOCKS)?;
        }
        match self.blocks.get_mut((number % BLOCKS) as usize) {
            Some(block) if block.is_empty() => source.read_into(number * STEP, BLOCK, block),
            _ => Ok(()),
        }
    }
}

impl<A: Allocator + Copy> Blocks<A> {
    /// Returns room for the windows of a file of this size.
    pub(crate) fn new(alloc: A, size: u64) -> Result<Blocks<A>, Error>
        ensures { (s : List ℕ) → IfOk result (λ b. AreBlocks s b.windows.items) }
    {
        let mut windows = Vec::new(alloc);
        let needed = size / (STEP * BLOCKS) + 1;
        for _ in 0..needed.min(WINDOWS) {
            windows.push(Window {
                number: u64::MAX,
                blocks: Vec::new(alloc),
            })?;
        }
        Ok(Blocks { windows })
    }

    /// Returns where the window of a block is kept.
    fn slot(&self, number: u64) -> usize {
        (number / BLOCKS % (self.windows.len() as u64).max(1)) as usize
    }

    /// Reads the block with a number, unless it is here.
    fn load<O: Opened>(&mut self, alloc: A, source: &Source<O>, number: u64) -> Result<(), Error>
        requires small { number < 2 ^ 52 }
        requires kept { O.keeps → AreBlocks (O.content source.now.file) self.old.windows.items }
        ensures { O.keeps → AreBlocks (O.content source.now.file) self.new.windows.items }
    {
        let slot = self.slot(number);
        match self.windows.get_mut(slot) {
            Some(window) => window.load(alloc, source, number),
            None => Ok(()),
        }
    }

    /// Returns the bytes of a file from `at` on that are here: 64 or more, unless the file ends
    /// before.
    #[tactic(auto, using(crate::proofs::KnownBytes::part_at))]
    fn show(&self, at: u64) -> &[u8]
        ensures { (s : List ℕ) → AreBlocks s self.now.windows.items → IsPart s at result.now }
    {
        let number = at / STEP;
        match self.windows.get(self.slot(number)) {
            Some(window) if window.number == number / BLOCKS => {
                match window.blocks.get((number % BLOCKS) as usize) {
                    Some(block) => behind(block, (at % STEP) as usize),
                    None => &[],
                }
            }
            _ => &[],
        }
    }

    /// Reads bytes from `at` on until `buf`, which has 64 bytes at most, is full.
    pub(crate) fn fill<O: Opened>(
        &mut self,
        alloc: A,
        source: &Source<O>,
        at: u64,
        buf: &mut [u8],
    ) -> Result<(), Error>
        requires { O.keeps → AreBlocks (O.content source.now.file) self.old.windows.items }
        ensures kept { O.keeps → AreBlocks (O.content source.now.file) self.new.windows.items }
        ensures bytes { O.keeps → OnOk result (IsPart (O.content source.now.file) at buf.new) }
    {
        self.load(alloc, source, at / STEP)?;
        match self.show(at).get(..buf.len()) {
            Some(bytes) => {
                buf.copy_from_slice(bytes);
                Ok(())
            }
            None => Err(source.damaged(at, Damage::CutOff)),
        }
    }
}
