//! Abbreviates object names, and completes abbreviated ones.

use crate::error::{Refusal, Unsupported};
use crate::repository::Repository;
use gix_base::hash::{ObjectId, Prefix};
use gix_discover::Abbrev;
use gix_files::Folders;
use std::alloc::Allocator;

/// How many digits an abbreviated object name has at least, if the setting says nothing.
const LEAST_BY_DEFAULT: usize = 7;

/// How many digits two objects may share. git does not tell them apart if they share more.
const MOST_SHARED: usize = 31;

/// Returns how many digits git takes for this many objects in packs: half as many as the number of
/// objects has bits, rounded up, so that two objects seldom share them.
fn digits_for(objects: u64) -> usize {
    let bits = 64u32.saturating_sub(objects.leading_zeros());
    let digits = bits.saturating_add(1) / 2;
    (digits as usize).max(LEAST_BY_DEFAULT)
}

/// Returns the prefix of this many digits, at least 4.
fn prefix_of(id: ObjectId, digits: usize) -> Option<Prefix> {
    let mut text = [0u8; 40];
    let written = id.write_hex(digits.clamp(Prefix::MIN_HEX_LEN, 40), &mut text);
    Prefix::from_hex(&text[..written]).ok()
}

impl<F: Folders + Drop, A: Allocator + Copy> Repository<F, A> {
    /// Returns how many digits an abbreviated object name has at least (git-config,
    /// `core.abbrev`).
    ///
    /// # Errors
    ///
    /// - `NotSupported` if it hangs on a multi-pack-index, and on the packs that git has opened.
    /// - `OutOfMemory` if an allocation failed.
    pub fn least_digits(&mut self) -> Result<usize, Refusal> {
        match self.abbrev {
            Abbrev::Digits(digits) => Ok(digits),
            Abbrev::Auto => {
                let alloc = self.alloc;
                let (least, most) = self.history.reader.store.packed_len(alloc)?;
                let digits = digits_for(least);
                if digits == digits_for(most) {
                    Ok(digits)
                } else {
                    Err(Refusal::NotSupported(Unsupported::Digits))
                }
            }
        }
    }

    /// Returns whether another object begins with this many digits of an id.
    fn is_shared(&mut self, id: ObjectId, digits: usize) -> Result<bool, Refusal> {
        let Some(prefix) = prefix_of(id, digits) else {
            return Ok(false);
        };
        let alloc = self.alloc;
        let found = self.history.reader.store.completions(alloc, prefix, 2)?;
        Ok(match found.as_slice() {
            [] => false,
            [other] => *other != id,
            _ => true,
        })
    }

    /// Returns how many digits name an object and no other one, at least `least` (git-rev-parse,
    /// "--short").
    ///
    /// # Errors
    ///
    /// - `Object` if an index or a folder was not read.
    /// - `NotSupported` if another object shares more than 31 digits.
    /// - `OutOfMemory` if an allocation failed.
    pub fn unique_digits(&mut self, id: ObjectId, least: usize) -> Result<usize, Refusal> {
        for digits in least.clamp(Prefix::MIN_HEX_LEN, 40)..40 {
            if !self.is_shared(id, digits)? {
                return Ok(digits);
            }
            if digits > MOST_SHARED {
                return Err(Refusal::NotSupported(Unsupported::Digits));
            }
        }
        Ok(40)
    }
}
