//! Lists the packs of `objects` folders.

use crate::alternates::{Folder, pass_over};
use crate::error::{FileKind, FileName};
use crate::failure::Fault;
use crate::pack::Pack;
use crate::paths::joined;
use crate::source::fault_of;
use gix_files::Folders;
use std::alloc::{AllocError, Allocator};

/// The name of an index of several packs (gitformat-pack, "multi-pack-index").
const MULTI_PACK_INDEX: &[u8] = b"multi-pack-index";

/// The packs of all folders, and what else was seen when they were listed.
#[derive(Drop)]
pub(crate) struct Listing<F: Folders, A: Allocator + Copy> {
    /// The packs, folder by folder.
    pub(crate) packs: Vec<Pack<F, A>, A>,
    /// The first fault of a folder whose packs were not listed.
    pub(crate) fault: Option<Fault>,
    /// Whether a folder has a multi-pack-index.
    pub(crate) has_multi_pack_index: bool,
    /// Whether other packs are there than were listed before.
    pub(crate) has_changed: bool,
}

/// Moves a pack from the old packs to the listed ones, or adds it to these if it is new.
fn keep<F: Folders, A: Allocator + Copy>(
    alloc: A,
    old: &mut Vec<Pack<F, A>, A>,
    listing: &mut Listing<F, A>,
    folder: usize,
    name: &[u8],
) -> Result<(), Fault> {
    let place = old.iter().position(|pack| pack.folder == folder && pack.name.as_slice() == name);
    match place {
        Some(place) if place < old.len() => listing.packs.push(old.swap_remove(place))?,
        _ => {
            listing.has_changed = true;
            listing.packs.push(Pack::new(folder, name.to_vec(alloc)?))?;
        }
    }
    Ok(())
}

/// Returns the names that end in `.pack`, without this end, sorted.
fn stems<A: Allocator + Copy>(alloc: A, names: &[u8]) -> Result<Vec<&[u8], A>, AllocError> {
    let mut stems = Vec::new(alloc);
    for name in names.split(|b| *b == 0) {
        if let Some(stem) = name.strip_suffix(b".pack") {
            stems.push(stem)?;
        }
    }
    stems.sort_unstable();
    Ok(stems)
}

/// Keeps each pack that is among the names of a folder together with its index.
fn keep_named<F: Folders, A: Allocator + Copy>(
    alloc: A,
    old: &mut Vec<Pack<F, A>, A>,
    listing: &mut Listing<F, A>,
    folder: usize,
    names: &[u8],
) -> Result<(), Fault> {
    let stems = stems(alloc, names)?;
    for name in names.split(|b| *b == 0) {
        if let Some(stem) = name.strip_suffix(b".idx") {
            if stems.binary_search(&stem).is_ok() {
                keep(alloc, old, listing, folder, stem)?;
            }
        }
    }
    Ok(())
}

/// Keeps all packs of a folder that cannot be listed.
fn keep_all<F: Folders, A: Allocator + Copy>(
    old: &mut Vec<Pack<F, A>, A>,
    new: &mut Vec<Pack<F, A>, A>,
    folder: usize,
) -> Result<(), Fault> {
    for _ in 0..old.len() {
        match old.iter().position(|pack| pack.folder == folder) {
            Some(place) if place < old.len() => new.push(old.swap_remove(place))?,
            _ => break,
        }
    }
    Ok(())
}

/// Adds the packs of a folder to the list.
fn list<F: Folders, A: Allocator + Copy>(
    alloc: A,
    files: &F,
    old: &mut Vec<Pack<F, A>, A>,
    listing: &mut Listing<F, A>,
    number: usize,
    folder: &[u8],
) -> Result<(), Fault> {
    let path = joined(alloc, folder, b"/pack", b"", b"")?;
    let mut names = Vec::new(alloc);
    match files.names(&path, &mut names) {
        Ok(()) => {
            if names
                .split(|b| *b == 0)
                .any(|name| name == MULTI_PACK_INDEX)
            {
                listing.has_multi_pack_index = true;
            }
            keep_named(alloc, old, listing, number, &names)
        }
        Err(error) => {
            let name = FileName {
                folder: number,
                kind: FileKind::Packs,
            };
            keep_all(old, &mut listing.packs, number)?;
            pass_over(&mut listing.fault, Err(fault_of(name, error)))
        }
    }
}

/// Returns the packs that are in the folders now. Those of the old ones that are there stay open.
///
/// If a folder cannot be listed, its old packs stay.
pub(crate) fn listed<F: Folders, A: Allocator + Copy>(
    alloc: A,
    files: &F,
    folders: &[Folder<A>],
    old: &mut Vec<Pack<F, A>, A>,
) -> Result<Listing<F, A>, Fault> {
    let mut listing = Listing {
        packs: Vec::new(alloc),
        fault: None,
        has_multi_pack_index: false,
        has_changed: false,
    };
    for (number, folder) in folders.iter().enumerate() {
        if folder.is_reached {
            list(alloc, files, old, &mut listing, number, &folder.path)?;
        }
    }
    listing.has_changed |= !old.is_empty();
    Ok(listing)
}
