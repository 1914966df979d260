//! Reads an entry of the index (gitformat-index, "Index entry").

ghost use Rattle.std.specs.Prelude.{◌≡◌, ℕ, List, ◌+◌, ◌++◌, ◌/◌, ◌%◌, ◌==◌, ◌≤◌, length, take, IfOk, IfSome};
ghost use Rattle.gix_ids.specs.TableBytes.{word, id_from};
ghost use Rattle.gix_index.specs.IndexBytes.{half};
ghost use Rattle.gix_index.specs.IndexEntry.{stat_in, is_extended, more_in, head_length, path_in, length_in, IsEntry};

use crate::bytes::half_at;
use crate::path::{Name, plain_name, short_name};
use gix_base::hash::ObjectId;
use gix_ids::{id_at, word_at};
use std::alloc::{AllocError, Allocator, Global};

/// The least number of bytes of an entry.
const LEAST: usize = 64;

/// What the system said of a file when its entry was written, each number modulo 2^32.
#[derive(Clone, Copy)]
pub struct Stat {
    pub ctime: u32,
    pub ctime_nanos: u32,
    pub mtime: u32,
    pub mtime_nanos: u32,
    pub dev: u32,
    pub ino: u32,
    pub uid: u32,
    pub gid: u32,
    /// The size of the file. It is 0 also if git has to compare the content.
    pub size: u32,
}

/// An entry of the index.
#[derive(Drop)]
pub struct Entry<A: Allocator = Global> {
    pub stat: Stat,
    /// The kind of the file, and whether it may be executed: `0o100644`, `0o100755`, `0o120000` or
    /// `0o160000`.
    pub mode: u32,
    pub id: ObjectId,
    /// The first field of flags.
    pub flags: u16,
    /// The second field of flags; 0 if there is none.
    pub more: u16,
    /// The path from the top of the working tree, without a slash at its front.
    pub path: Vec<u8, A>,
}

impl<A: Allocator> Entry<A> {
    /// Returns the stage: 0, or from 1 to 3 for an entry that is not merged.
    pub fn stage(&self) -> u16
        // The answer is the number in the bits 12 and 13 of the flags.
        ensures { result ≡ self.now.flags / 4096 % 4 }
    {
        self.flags / 4096 % 4
    }

    /// Returns whether the file counts as unchanged (git-update-index, "--assume-unchanged").
    pub fn is_assumed_valid(&self) -> bool
        // `true` exactly if bit 15 of the flags is set.
        ensures { result ≡ (self.now.flags / 32768 == 1) }
    {
        self.flags / 32768 == 1
    }

    /// Returns whether the file is left out of the working tree (git-update-index,
    /// "--skip-worktree").
    pub fn is_skipped(&self) -> bool
        // `true` exactly if bit 14 of the second field of flags is set.
        ensures { result ≡ (self.now.more / 16384 % 2 == 1) }
    {
        self.more / 16384 % 2 == 1
    }

    /// Returns whether the path will be added later (git-add, "--intent-to-add").
    pub fn is_intended(&self) -> bool
        // `true` exactly if bit 13 of the second field of flags is set.
        ensures { result ≡ (self.now.more / 8192 % 2 == 1) }
    {
        self.more / 8192 % 2 == 1
    }
}

/// Returns what stat(2) said of the file.
#[tactic(auto, unfolding(crate::specs::IndexEntry::stat_in))]
fn stat_of(bytes: &[u8]) -> Stat
    requires { 62 ≤ length bytes.now }
    ensures { result ≡ stat_in bytes.now }
{
    Stat {
        ctime: word_at(bytes, 0) as u32,
        ctime_nanos: word_at(bytes, 4) as u32,
        mtime: word_at(bytes, 8) as u32,
        mtime_nanos: word_at(bytes, 12) as u32,
        dev: word_at(bytes, 16) as u32,
        ino: word_at(bytes, 20) as u32,
        uid: word_at(bytes, 28) as u32,
        gid: word_at(bytes, 32) as u32,
        size: word_at(bytes, 36) as u32,
    }
}

/// Returns whether a second field of flags follows the first one.
fn is_extended(bytes: &[u8]) -> bool
    requires { 62 ≤ length bytes.now }
    ensures { result ≡ is_extended bytes.now }
{
    half_at(bytes, 60) / 16384 % 2 == 1
}

/// Returns the second field of flags; 0 if there is none.
#[tactic(auto, unfolding(crate::specs::IndexEntry::more_in))]
fn more(bytes: &[u8]) -> u16
    requires { 64 ≤ length bytes.now }
    ensures { result ≡ more_in bytes.now }
{
    if is_extended(bytes) {
        half_at(bytes, 62)
    } else {
        0
    }
}

/// Returns how many bytes come before the name.
#[tactic(auto, unfolding(crate::specs::IndexEntry::head_length))]
fn head_length(bytes: &[u8]) -> usize
    requires { 62 ≤ length bytes.now }
    ensures value { result ≡ head_length bytes.now }
    ensures most { result ≤ 64 }
{
    if is_extended(bytes) { 64 } else { 62 }
}

/// Returns the name of an entry, after an entry with the path `before`.
#[tactic(auto, unfolding(crate::specs::IndexEntry::length_in, crate::specs::IndexEntry::path_in))]
fn name<'t>(version: u32, before: &[u8], bytes: &'t [u8]) -> Option<Name<'t>>
    requires { 64 ≤ length bytes.now }
    ensures kept { IfSome result (λ n. n.kept ≤ length before.now) }
    ensures path { IfSome result (λ n. take n.kept before.now ++ n.rest.now
        ≡ path_in version before.now bytes.now) }
    ensures len { IfSome result (λ n. n.len ≡ length_in version bytes.now) }
    ensures within { IfSome result (λ n. n.len ≤ length bytes.now) }
{
    let head = head_length(bytes);
    if version == 4 {
        short_name(before.len(), head, bytes)
    } else {
        plain_name(head, bytes)
    }
}

/// Tests whether the flags say that a name has so many bytes. They say 4,095 of a longer one.
fn is_length(flags: u16, len: usize) -> bool {
    usize::from(flags % 4096) == len.min(4095)
}

/// Returns the path that begins with `kept` bytes of the path before it.
fn joined<A: Allocator>(alloc: A, before: &[u8], name: &Name<'_>) -> Result<Vec<u8, A>, AllocError>
    requires { name.now.kept ≤ length before.now }
    ensures { IfOk result (λ path. path.items ≡ take name.now.kept before.now ++ name.now.rest.now) }
{
    let mut path = Vec::with_capacity(alloc, name.kept.saturating_add(name.rest.len()))?;
    path.extend_from_slice(&before[..name.kept])?;
    path.extend_from_slice(name.rest)?;
    Ok(path)
}

/// Reads the entry at the front of `bytes`, and returns it with its length. `before` is the path of
/// the entry before it. Returns `None` if it is malformed or cut off.
pub(crate) fn read<A: Allocator>(
    alloc: A,
    version: u32,
    before: &[u8],
    bytes: &[u8],
) -> Result<Option<(Entry<A>, usize)>, AllocError>
    ensures entry { IfOk result (λ found. IfSome found
        (λ p. IsEntry version before.now bytes.now p.0 p.1)) }
    ensures within { IfOk result (λ found. IfSome found (λ p. p.1 ≤ length bytes.now)) }
{
    if bytes.len() < LEAST || (version == 2 && is_extended(bytes)) {
        return Ok(None);
    }
    let Some(name) = name(version, before, bytes) else {
        return Ok(None);
    };
    let path = joined(alloc, before, &name)?;
    let flags = half_at(bytes, 60);
    if !is_length(flags, path.len()) {
        return Ok(None);
    }
    let entry = Entry {
        stat: stat_of(bytes),
        mode: word_at(bytes, 24) as u32,
        id: id_at(bytes, 40),
        flags,
        more: more(bytes),
        path,
    };
    Ok(Some((entry, name.len)))
}
