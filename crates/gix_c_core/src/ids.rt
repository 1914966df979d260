//! Ids as C passes them: 20 bytes each.

ghost use Rattle.std.specs.Prelude.{◌≡◌, map, IfOk, OnErr, OnOk};
ghost use Rattle.gix_base.specs.declared.hash.ObjectId.{ObjectId};
ghost use Rattle.gix_merge_base.specs.Bases.{ids_of as ids_in};
ghost use Rattle.gix_c_core.specs.Answers.{id_of, bytes_in, IsWritten};

use gix_revision::error::NonEmpty;
use gix_revision::hash::ObjectId;
use std::alloc::{AllocError, Global};

/// Makes ids of 20 bytes each.
pub fn ids_of(alloc: Global, bytes: &[[u8; 20]]) -> Result<Vec<ObjectId>, AllocError>
    // The answer has the ids with these bytes, in the same order.
    ensures { IfOk result (λ ids. ids.items ≡ map id_of bytes.now) }
{
    bytes.iter().map(|id| ObjectId(*id)).collect(alloc)
}

/// Returns the bytes of an id.
pub fn bytes_of(id: &ObjectId) -> [u8; 20]
    // The answer is the 20 bytes of the id.
    ensures { result ≡ bytes_in id.now }
{
    let bytes = id.0;
    bytes
}

/// Returns the bytes of each id.
pub fn bytes_of_each(alloc: Global, ids: &[ObjectId]) -> Result<Vec<[u8; 20]>, AllocError>
    // The answer has the bytes of each id, in the same order.
    ensures { IfOk result (λ bytes. bytes.items ≡ map bytes_in ids.now) }
{
    let bytes = ids
        .iter()
        .map(
            |id: &ObjectId| -> [u8; 20]
                ensures { result ≡ bytes_in id.now }
            { bytes_of(id) },
        )
        .collect(alloc)?;
    Ok(bytes)
}

/// Returns the bytes of each id of an answer.
pub(crate) fn bytes_of_found(
    alloc: Global,
    found: &Option<NonEmpty<ObjectId>>,
) -> Result<Vec<[u8; 20]>, AllocError>
    ensures { IfOk result (λ bytes. bytes.items ≡ map bytes_in (ids_in found.now)) }
{
    let Some(list) = found else {
        return Ok(Vec::new(alloc));
    };
    let mut bytes = bytes_of_each(alloc, &list.tail)?;
    bytes.insert(0, bytes_of(&list.head))?;
    Ok(bytes)
}

/// Writes as many first items as fit into `out`, and stores in `count` how many there are.
pub fn write(bytes: &[[u8; 20]], out: &mut [[u8; 20]], count: &mut usize)
    // `count` is the number of the items. `out` begins with the first items, as many as fit, and
    // its rest is unchanged.
    ensures { IsWritten bytes.now out.old out.new count.new }
{
    let len = bytes.len().min(out.len());
    out[..len].copy_from_slice(&bytes[..len]);
    *count = bytes.len();
}

/// Writes the ids of an answer like [`write`].
pub fn write_found(
    alloc: Global,
    found: &Option<NonEmpty<ObjectId>>,
    out: &mut [[u8; 20]],
    count: &mut usize,
) -> Result<(), AllocError>
    // After a success, `count` is the number of the ids. `out` begins with the bytes of the first
    // ids, as many as fit, and its rest is unchanged.
    ensures written { OnOk result
        (IsWritten (map bytes_in (ids_in found.now)) out.old out.new count.new) }

    // After an error, `out` and `count` are unchanged.
    ensures refused { OnErr result ((out.new ≡ out.old) × (count.new ≡ count.old)) }
{
    let bytes = bytes_of_found(alloc, found)?;
    write(&bytes, out, count);
    Ok(())
}
