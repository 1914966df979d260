//! Makes paths of the files in an `objects` folder (gitrepository-layout, "objects").

use gix_base::hash::ObjectId;
use std::alloc::{AllocError, Allocator};

/// Joins four parts of a path. Parts may be empty.
pub(crate) fn joined<A: Allocator>(
    alloc: A,
    folder: &[u8],
    below: &[u8],
    name: &[u8],
    extension: &[u8],
) -> Result<Vec<u8, A>, AllocError> {
    let mut path = Vec::new(alloc);
    path.extend_from_slice(folder)?;
    path.extend_from_slice(below)?;
    path.extend_from_slice(name)?;
    path.extend_from_slice(extension)?;
    Ok(path)
}

/// Returns the path of an object's loose file: `FOLDER/XX/X..`, by the digits of its id.
pub(crate) fn loose_path<A: Allocator>(
    alloc: A,
    folder: &[u8],
    id: ObjectId,
) -> Result<Vec<u8, A>, AllocError> {
    let mut digits = [0u8; 40];
    id.write_hex(40, &mut digits);
    let (first, rest) = digits.split_at(2);
    let mut path = joined(alloc, folder, b"/", first, b"/")?;
    path.extend_from_slice(rest)?;
    Ok(path)
}

/// Returns the path of the folder that has the loose file of an object: `FOLDER/XX`.
pub(crate) fn loose_folder<A: Allocator>(
    alloc: A,
    folder: &[u8],
    id: ObjectId,
) -> Result<Vec<u8, A>, AllocError> {
    let mut digits = [0u8; 40];
    id.write_hex(40, &mut digits);
    joined(alloc, folder, b"/", &digits[..2], b"")
}

/// Returns the id of the object whose loose file has this name, in the folder that has the loose
/// file of `near`.
pub(crate) fn id_of_name<A: Allocator>(
    alloc: A,
    near: ObjectId,
    name: &[u8],
) -> Result<Option<ObjectId>, AllocError> {
    let mut digits = [0u8; 40];
    near.write_hex(40, &mut digits);
    if name.len() != 38 {
        return Ok(None);
    }
    let text = joined(alloc, &digits[..2], name, b"", b"")?;
    Ok(ObjectId::from_hex(&text).ok())
}
