//! A sieve of names: one bit shows for most unnamed commits, without hashing, that they have no
//! name.

ghost use Rattle.std.specs.Prelude.{◌≡◌, ◌==◌, ◌<◌, ◌%◌, ℕ, slice_index};
ghost use Rattle.std.specs.Int.{bit_at};
ghost use Rattle.gix_base.specs.declared.hash.ObjectId.{ObjectId};
ghost use Rattle.gix_describe.specs.Outcomes.{names_of};
ghost use Rattle.gix_describe.specs.Sieve.{bit_in, LetsPass};
ghost use Rattle.gix_describe.specs.Trace.{is_named};

use crate::describe::options::Names;
use gix_base::hash::ObjectId;
use std::alloc::Allocator;

/// The greatest number of names that the sieve is built for. With more, building it would cost more
/// than it saves, and every id passes.
const MOST_NAMES: usize = 256;

/// A table of bits. An id passes if its bit is set.
#[derive(Clone, Copy)]
pub(crate) struct Sieve {
    words: [u64; 64],
}

/// Returns the index of the word that has the bit of an id.
#[inline(always)]
fn word_of(id: &ObjectId) -> usize
    ensures value { result ≡ slice_index id.now.0 19 % 64 }
    ensures within { result < 64 }
{
    (id.0[19] % 64) as usize
}

/// Returns the place of the bit of an id in its word.
#[inline(always)]
fn place_of(id: &ObjectId) -> usize
    ensures value { result ≡ slice_index id.now.0 18 % 64 }
    ensures within { result < 64 }
{
    (id.0[18] % 64) as usize
}

/// Returns a word with the bit at a place set.
#[inline(always)]
fn with_bit(word: u64, place: usize) -> u64
    requires { place < 64 }
    ensures own { bit_at result place ≡ 1 }
    ensures others { (i : ℕ) → bit_at word i ≡ 1 → bit_at result i ≡ 1 }
{
    word | (1 << place)
}

impl Sieve {
    /// Tests whether an id passes.
    #[inline(always)]
    fn passes(&self, id: &ObjectId) -> bool
        ensures { result ≡ (bit_in self.now.words id.now == 1) }
    {
        (self.words[word_of(id)] >> place_of(id)) & 1 == 1
    }

    /// Lets an id pass from now on.
    fn let_pass(&mut self, id: &ObjectId)
        ensures own { bit_in self.new.words id.now ≡ 1 }
        ensures others { (c : ObjectId) → bit_in self.old.words c ≡ 1 → bit_in self.new.words c ≡ 1 }
    {
        let at = word_of(id);
        let word = with_bit(self.words[at], place_of(id));
        self.words[at] = word;
    }

    /// Returns a sieve that the named ids pass, and few others.
    fn of_few<'name, A: Allocator>(names: &Names<'name, A>) -> Sieve
        ensures { LetsPass result.words (names_of names.now.entries) }
    {
        let mut sieve = Sieve { words: [0u64; 64] };
        let mut ids = names.keys();
        while let Some(id) = ids.next() {
            sieve.let_pass(id);
        }
        sieve
    }

    /// Returns a sieve that the named ids pass. Few others pass, unless there are many names: then
    /// all do.
    pub(crate) fn of<'name, A: Allocator>(names: &Names<'name, A>) -> Sieve
        ensures { LetsPass result.words (names_of names.now.entries) }
    {
        if names.len() > MOST_NAMES {
            return Sieve {
                words: [u64::MAX; 64],
            };
        }
        Sieve::of_few(names)
    }
}

/// Tests whether a commit has a name. Looks up only an id that passes the sieve.
#[inline(always)]
pub(crate) fn has_name<'name, A: Allocator>(
    names: &Names<'name, A>,
    sieve: &Sieve,
    id: &ObjectId,
) -> bool
    requires { LetsPass sieve.now.words (names_of names.now.entries) }
    ensures { result ≡ is_named (names_of names.now.entries) id.now }
{
    if !sieve.passes(id) {
        return false;
    }
    names.contains_key(id)
}
