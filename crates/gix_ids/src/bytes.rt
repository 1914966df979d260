//! Reads numbers and ids from the bytes of a file.

ghost use Rattle.std.specs.Prelude.{◌≡◌, ◌+◌, ◌^◌, ◌≤◌, ◌<◌, length};
ghost use Rattle.gix_ids.specs.TableBytes.{word, long, id_from};

use gix_base::hash::ObjectId;

/// Reads the big-endian number in the 4 bytes at offset `at`.
#[tactic(auto, unfolding(crate::specs::TableBytes::word))]
pub fn word_at(bytes: &[u8], at: usize) -> usize
    // `bytes` has 4 bytes from offset `at` on.
    requires { at + 4 ≤ length bytes.now }

    // The answer is the big-endian number in these 4 bytes.
    ensures value { result ≡ word bytes.now at }

    // The answer is less than `2^32`.
    ensures bound { result < 2 ^ 32 }
{
    u32::from_be_bytes([bytes[at], bytes[at + 1], bytes[at + 2], bytes[at + 3]]) as usize
}

/// Reads the big-endian number in the 8 bytes at offset `at`.
#[tactic(auto, unfolding(crate::specs::TableBytes::long))]
pub fn long_at(bytes: &[u8], at: usize) -> usize
    // `bytes` has 8 bytes from offset `at` on.
    requires { at + 8 ≤ length bytes.now }

    // The answer is the big-endian number in these 8 bytes.
    ensures { result ≡ long bytes.now at }
{
    u64::from_be_bytes([
        bytes[at],
        bytes[at + 1],
        bytes[at + 2],
        bytes[at + 3],
        bytes[at + 4],
        bytes[at + 5],
        bytes[at + 6],
        bytes[at + 7],
    ]) as usize
}

/// Reads the id in the 20 bytes at offset `at`.
#[tactic(auto, unfolding(crate::specs::TableBytes::id_from))]
pub fn id_at(bytes: &[u8], at: usize) -> ObjectId
    // `bytes` has 20 bytes from offset `at` on.
    requires { at + 20 ≤ length bytes.now }

    // The answer is the id in these 20 bytes.
    ensures { result ≡ id_from bytes.now at }
{
    let mut id = [0; 20];
    id.copy_from_slice(&bytes[at..at + 20]);
    ObjectId(id)
}
