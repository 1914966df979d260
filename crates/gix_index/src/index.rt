//! Reads an index file (gitformat-index).

ghost use Rattle.std.specs.Prelude.{◌≡◌, ◌+◌, ◌≤◌, true, length, take, drop, IfOk};
ghost use Rattle.gix_index.specs.IndexForm.{last_path, AreEntries, IsIndex, IsHeader};
ghost use Rattle.gix_ids.specs.TableBytes.{word};
ghost use Rattle.gix_index.specs.IndexPaths.{are_inside};

use crate::entry::{Entry, read};
use crate::error::Error;
use crate::path::is_inside;
use crate::root::root;
use gix_base::hash::ObjectId;
use gix_ids::word_at;
use sha1::Sha1;
use std::alloc::{Allocator, Global};

/// How many bytes come before the entries.
const HEADER: usize = 12;

/// How many bytes the checksum at the end has.
const CHECKSUM: usize = 20;

/// What an index file says.
#[derive(Drop)]
pub struct Index<A: Allocator = Global> {
    /// The entries, in the order of the file. git sorts them by their paths, and those of one path
    /// by their stages.
    pub entries: Vec<Entry<A>, A>,
    /// The tree that the entries make, if git has noted it since the last change.
    pub root: Option<ObjectId>,
}

/// Returns the version and the number of entries.
fn header(bytes: &[u8]) -> Result<(u32, u32), Error>
    requires { 12 ≤ length bytes.now }
    ensures { IfOk result (λ p. IsHeader bytes.now p.0 p.1) }
{
    if !bytes.starts_with(b"DIRC") {
        return Err(Error::Signature);
    }
    let version = word_at(bytes, 4) as u32;
    if version < 2 || version > 4 {
        return Err(Error::Version(version));
    }
    Ok((version, word_at(bytes, 8) as u32))
}

/// Returns the path of the last entry; an empty one if there is none.
fn last_path<A: Allocator>(entries: &Vec<Entry<A>, A>) -> &[u8]
    ensures { result.now ≡ last_path entries.now.items }
{
    match entries.last() {
        Some(entry) => entry.path.as_slice(),
        None => &[],
    }
}

/// Returns what comes behind so many bytes.
fn behind(bytes: &[u8], len: usize) -> &[u8]
    requires { len ≤ length bytes.now }
    ensures { result.now ≡ drop len bytes.now }
{
    let (_, rest) = bytes.split_at(len);
    rest
}

/// Reads so many entries, and returns them with what follows them.
fn read_entries<A: Allocator + Copy>(
    alloc: A,
    version: u32,
    count: u32,
    bytes: &[u8],
) -> Result<(Vec<Entry<A>, A>, &[u8]), Error>
    ensures entries { IfOk result (λ p. AreEntries version bytes.now p.0.items p.1.now) }
    ensures count { IfOk result (λ p. length p.0.items ≡ count) }
{
    let mut entries = Vec::new(alloc);
    let mut rest = bytes;
    for number in 0..count {
        let found = read(alloc, version, last_path(&entries), rest)?;
        let Some((entry, len)) = found else {
            return Err(Error::Entry(number));
        };
        entries.push(entry)?;
        rest = behind(rest, len);
    }
    Ok((entries, rest))
}

/// Returns the root in the extensions; `at` is their place in the file.
fn read_extensions(bytes: &[u8], at: usize, count: u32) -> Result<Option<ObjectId>, Error> {
    let mut found = None;
    let mut rest = bytes;
    for _ in 0..bytes.len() {
        let [a, b, c, d, e, f, g, h, data @ ..] = rest else {
            break;
        };
        let name = [*a, *b, *c, *d];
        let len = u32::from_be_bytes([*e, *f, *g, *h]) as usize;
        let place = at.saturating_add(bytes.len().saturating_sub(rest.len()));
        let Some((own, after)) = data.split_at_checked(len) else {
            return Err(Error::CutOff(place));
        };
        if name == *b"TREE" {
            found = root(own, count);
        } else if !a.is_ascii_uppercase() {
            return Err(Error::Extension(name));
        }
        rest = after;
    }
    if rest.is_empty() {
        Ok(found)
    } else {
        Err(Error::CutOff(at.saturating_add(bytes.len().saturating_sub(rest.len()))))
    }
}

/// Fails at the first entry with a path that an index may not have.
fn check_paths<A: Allocator>(entries: &[Entry<A>]) -> Result<(), Error>
    ensures { IfOk result (λ u. are_inside entries.now ≡ true) }
{
    for (number, entry) in entries.iter().enumerate() {
        if !is_inside(&entry.path) {
            return Err(Error::Path(number));
        }
    }
    Ok(())
}

/// Tests whether a checksum is that of these bytes, or zero (git-config, "index.skipHash").
fn is_checksum(checksum: &[u8], bytes: &[u8]) -> bool {
    checksum.iter().all(|b| *b == 0) || checksum == Sha1::digest(bytes).as_slice()
}

impl<A: Allocator + Copy> Index<A> {
    /// Has no entries, as if there is no index file.
    pub fn empty(alloc: A) -> Index<A> {
        Index {
            entries: Vec::new(alloc),
            root: None,
        }
    }

    /// Returns whether the entries make a tree: all are merged, and none is to be added later.
    pub fn is_merged(&self) -> bool {
        self.entries
            .iter()
            .all(|entry| entry.stage() == 0 && !entry.is_intended())
    }

    /// Reads the bytes of an index file of version 2, 3 or 4.
    ///
    /// # Errors
    ///
    /// - `TooShort`, `Signature`, `Entry` or `CutOff` if the bytes are no index.
    /// - `Version` if the version is another one.
    /// - `Checksum` if the checksum is wrong, and not zero.
    /// - `Extension` if the index is split or sparse, or needs another extension.
    /// - `Path` if a path is empty, or a part of it is empty, `.`, `..` or `.git`.
    /// - `OutOfMemory` if an allocation failed.
    pub fn parse(alloc: A, bytes: &[u8]) -> Result<Index<A>, Error>
        // The entries are those that follow the header of the bytes, one after another, as many as
        // the header says (`IsIndex`). In version 4 an entry shortens its path by the one before
        // it.
        ensures entries { IfOk result (λ index. IsIndex bytes.now index.entries.items) }

        // No path leads out of the working tree, or into the git folder: no part of a path is
        // empty, `.`, `..` or, in letters of either case, `.git`.
        ensures inside { IfOk result (λ index. are_inside index.entries.items ≡ true) }
    {
        if bytes.len() < HEADER + CHECKSUM {
            return Err(Error::TooShort);
        }
        let (version, count) = header(bytes)?;
        let (content, checksum) = bytes.split_at(bytes.len() - CHECKSUM);
        if !is_checksum(checksum, content) {
            return Err(Error::Checksum);
        }
        let (entries, rest) = read_entries(alloc, version, count, behind(content, HEADER))?;
        let at = content.len().saturating_sub(rest.len());
        let root = read_extensions(rest, at, count)?;
        check_paths(&entries)?;
        Ok(Index { entries, root })
    }
}
