//! Reads the file that names the files of a chain (technical/commit-graph, "Commit-Graph Chains").

use crate::error::{Damage, Error, GraphFile, error_of};
use gix_base::hash::ObjectId;
use gix_files::{Folders, Limit, read_file};
use std::alloc::{AllocError, Allocator};

/// Joins three parts of a path.
pub(crate) fn joined<A: Allocator>(
    alloc: A,
    folder: &[u8],
    below: &[u8],
    end: &[u8],
) -> Result<Vec<u8, A>, AllocError> {
    let mut path = Vec::new(alloc);
    path.extend_from_slice(folder)?;
    path.extend_from_slice(below)?;
    path.extend_from_slice(end)?;
    Ok(path)
}

/// Returns the path of the file of a chain with this hash.
pub(crate) fn layer_path<A: Allocator>(
    alloc: A,
    folder: &[u8],
    hash: ObjectId,
) -> Result<Vec<u8, A>, AllocError> {
    let mut digits = [0u8; 40];
    hash.write_hex(40, &mut digits);
    let mut path = joined(alloc, folder, b"/info/commit-graphs/graph-", &digits)?;
    path.extend_from_slice(b".graph")?;
    Ok(path)
}

/// Adds the hashes that the lines of a chain have, each in 40 digits.
fn add_lines<A: Allocator>(text: &[u8], hashes: &mut Vec<ObjectId, A>) -> Result<(), Error> {
    let mut at = 0u64;
    for line in text.split(|byte| *byte == b'\n') {
        match ObjectId::from_hex(line) {
            Ok(hash) => hashes.push(hash)?,
            Err(_) => return Err(Error::Damaged(GraphFile::Chain, at, Damage::ChainLine)),
        }
        at = at.saturating_add(41);
    }
    Ok(())
}

/// Returns the hashes of the files of a chain, the base first. Returns none if there is no chain.
pub(crate) fn hashes<F: Folders, A: Allocator + Copy>(
    alloc: A,
    files: &F,
    folder: &[u8],
) -> Result<Vec<ObjectId, A>, Error> {
    let path = joined(
        alloc,
        folder,
        b"/info/commit-graphs/commit-graph-chain",
        b"",
    )?;
    let mut text = Vec::new(alloc);
    if let Err(error) = read_file(files, &path, Limit::Text, &mut text) {
        return Err(error_of(GraphFile::Chain, error));
    }
    let mut hashes = Vec::new(alloc);
    if !text.is_empty() {
        add_lines(text.strip_suffix(b"\n").unwrap_or(&text), &mut hashes)?;
    }
    Ok(hashes)
}
