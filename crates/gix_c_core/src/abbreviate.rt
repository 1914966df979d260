//! Abbreviates ids.

ghost use Rattle.std.specs.Prelude.{◌≡◌, ◌↔◌, ◌≤◌, IsTrue, take};
ghost use Rattle.gix_base.specs.Hash.{id_text};
ghost use Rattle.gix_base.specs.Prefix.{prefix_text};
ghost use Rattle.gix_c_core.specs.Abbreviated.{IsAlone, IsShort, is_only};

use gix_resolve::{Found, Ids};
use gix_revision::hash::{ObjectId, Prefix};
use gix_revision::laws::base::is_id;
use std::collections::BTreeSet;

/// Returns whether nothing but `id` was found.
fn is_only(found: Found, id: ObjectId) -> bool
    ensures { result ≡ is_only found id }
{
    match found {
        Found::Nothing => true,
        Found::One(other) => other == id,
        Found::Many => false,
    }
}

/// Makes the prefix of the first `len` digits of an id.
fn prefix_of(id: ObjectId, len: usize) -> Prefix
    requires least { 4 ≤ len }
    requires most { len ≤ 40 }
    ensures { prefix_text result ≡ take len (id_text id) }
{
    is_id(&id);
    let mut digits = [0u8; 40];
    let count = id.write_hex(len, &mut digits);
    match Prefix::from_hex(&digits[..count]) {
        Ok(prefix) => prefix,
        // There are 4 to 40 digits.
        Err(_) => unreachable!(),
    }
}

/// Returns whether no other of the ids than `id` begins with its first `len` digits.
fn is_alone(ids: &BTreeSet<ObjectId>, id: ObjectId, len: usize) -> bool
    requires least { 4 ≤ len }
    requires most { len ≤ 40 }
    ensures { IsTrue result ↔ IsAlone ids.now.keys id len }
{
    is_only(ids.lookup_prefix(prefix_of(id, len)), id)
}

/// Returns the least number of digits from `least` on, with which no other of the ids than `id`
/// begins, or 40.
pub fn shortest(ids: &BTreeSet<ObjectId>, id: ObjectId, least: usize) -> usize
    // `least` is at least 4.
    requires least { 4 ≤ least }

    // `least` is at most 40.
    requires most { least ≤ 40 }

    // The answer is the least number, from `least` to 39, such that no other of the ids begins with
    // so many first digits of `id`. If there is no such number, the answer is 40.
    ensures { IsShort ids.now.keys id least result }
{
    for len in least..40 {
        if is_alone(ids, id, len) {
            return len;
        }
    }
    40
}
