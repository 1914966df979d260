//! Reads loose objects (gitformat-loose).

ghost use Rattle.std.specs.Prelude.{IfOk, IfErr};
ghost use Rattle.gix_odb.specs.Refusals.{IsFailure};
ghost use Rattle.gix_odb.specs.Stores.{IsObject};

use crate::completions::Completions;
use crate::error::{Damage, Feature, FileKind, FileName};
use crate::failure::{Failure, Fault};
use crate::object::{Object, accepted};
use crate::paths::{id_of_name, loose_folder, loose_path};
use crate::source::{Source, fault_of, open};
use crate::stream::inflated;
use gix_base::hash::ObjectId;
use gix_base::object::Kind;
use gix_files::{FileError, Folders, Opened};
use gix_object::loose::{self, Header, MOST_HEADER, parse_header};
use gix_zlib::{InflateError, inflate_front};
use std::alloc::Allocator;
use std::io::ErrorKind;

/// How many bytes of a file are read first.
const FIRST: usize = 4096;

/// How many times four times as many bytes of a file are read to find the header, at most.
const MOST_TRIES: u32 = 8;

/// Inflates the front of a file, of which the first bytes are in `first`.
///
/// Reads more of the file into `first` if these bytes end before the header does.
fn front<O: Opened, A: Allocator + Copy>(
    alloc: A,
    source: &Source<O>,
    first: &mut Vec<u8, A>,
) -> Result<Vec<u8, A>, Fault> {
    for _ in 0..MOST_TRIES {
        match inflate_front(alloc, first, MOST_HEADER) {
            Ok(front) => return Ok(front),
            Err(InflateError::OutOfMemory) => return Err(Fault::OutOfMemory),
            Err(_) => {}
        }
        let len = first.len();
        source.read_into(0, len.saturating_mul(4), first)?;
        if first.len() <= len {
            break;
        }
    }
    Err(source.damaged(0, Damage::Stream))
}

/// Reads the header of a file, and its first bytes into `first`.
fn header<O: Opened, A: Allocator + Copy>(
    alloc: A,
    source: &Source<O>,
    first: &mut Vec<u8, A>,
) -> Result<Header, Fault> {
    source.read_into(0, FIRST, first)?;
    let front = front(alloc, source, first)?;
    match parse_header(&front) {
        Some(header) => Ok(header),
        None => Err(source.damaged(0, Damage::Header)),
    }
}

/// Returns how many bytes the header and the content have, if the header says a size in the limit.
///
/// Reads the first bytes of the file into `first`.
fn whole_size<O: Opened, A: Allocator + Copy>(
    alloc: A,
    source: &Source<O>,
    first: &mut Vec<u8, A>,
    limit: usize,
) -> Result<usize, Fault> {
    let Header { size, len, .. } = header(alloc, source, first)?;
    if size <= limit as u64 {
        Ok(len.saturating_add(size as usize))
    } else {
        Err(source.unsupported(Feature::LargeObject))
    }
}

/// Reads the object of a loose file, and takes it if it has this id.
fn read_from<O: Opened, A: Allocator + Copy>(
    alloc: A,
    source: &Source<O>,
    id: ObjectId,
    limit: usize,
) -> Result<Object<A>, Failure>
    ensures found { IfOk result (λ o. IsObject id o.kind o.content.items) }
    ensures failed { IfErr result (IsFailure id) }
{
    let mut first = Vec::new(alloc);
    let size = whole_size(alloc, source, &mut first, limit)?;
    let bytes = inflated(alloc, source, 0, &first, size)?;
    match loose::parse(&bytes) {
        Some((kind, content)) => accepted(id, kind, content.to_vec(alloc)?),
        None => Err(Failure::InFile(source.damaged(0, Damage::Header))),
    }
}

/// Names the loose file of an object.
fn name(folder: usize, id: ObjectId) -> FileName {
    FileName {
        folder,
        kind: FileKind::Loose(id),
    }
}

/// Returns the failure for a loose file that was not there to open.
///
/// A link that leads to no file is a broken copy. git fails there, too.
fn absent<F: Folders, A: Allocator + Copy>(
    alloc: A,
    files: &F,
    number: usize,
    path: &[u8],
    id: ObjectId,
) -> Failure
    ensures { IsFailure id result }
{
    let mut text = Vec::new(alloc);
    match files.link(path, &mut text) {
        Ok(true) => Failure::InFile(Fault::Failed(name(number, id), ErrorKind::NotFound)),
        Ok(false) | Err(FileError::Failed(ErrorKind::NotADirectory)) => Failure::Missing,
        Err(error) => Failure::InFile(fault_of(name(number, id), error)),
    }
}

/// Reads the loose object with this id. Fails with `Missing` if its file is not there.
pub(crate) fn read<F: Folders, A: Allocator + Copy>(
    alloc: A,
    files: &F,
    number: usize,
    folder: &[u8],
    id: ObjectId,
    limit: usize,
) -> Result<Object<A>, Failure>
    ensures found { IfOk result (λ o. IsObject id o.kind o.content.items) }
    ensures failed { IfErr result (IsFailure id) }
{
    let path = loose_path(alloc, folder, id)?;
    match open(files, &path, name(number, id))? {
        Some(source) => read_from(alloc, &source, id, limit),
        None => Err(absent(alloc, files, number, &path, id)),
    }
}

/// Returns the kind that the header of the loose file for this id says. Fails with `Missing` if there
/// is none.
pub(crate) fn kind<F: Folders, A: Allocator + Copy>(
    alloc: A,
    files: &F,
    number: usize,
    folder: &[u8],
    id: ObjectId,
) -> Result<Kind, Failure> {
    let path = loose_path(alloc, folder, id)?;
    match open(files, &path, name(number, id))? {
        Some(source) => {
            let mut first = Vec::new(alloc);
            Ok(header(alloc, &source, &mut first)?.kind)
        }
        None => Err(absent(alloc, files, number, &path, id)),
    }
}

/// Succeeds if there is a loose file for this id. Fails with `Missing` if not.
pub(crate) fn has<F: Folders, A: Allocator + Copy>(
    alloc: A,
    files: &F,
    number: usize,
    folder: &[u8],
    id: ObjectId,
) -> Result<(), Failure> {
    let path = loose_path(alloc, folder, id)?;
    match open(files, &path, name(number, id))? {
        Some(_) => Ok(()),
        None => Err(absent(alloc, files, number, &path, id)),
    }
}

/// Adds the ids that loose files have and that begin with the prefix to those that were found.
pub(crate) fn complete<F: Folders, A: Allocator + Copy>(
    alloc: A,
    files: &F,
    number: usize,
    folder: &[u8],
    found: &mut Completions<A>,
) -> Result<(), Fault> {
    let near = found.least();
    let path = loose_folder(alloc, folder, near)?;
    let mut names = Vec::new(alloc);
    if let Err(error) = files.names(&path, &mut names) {
        return Err(fault_of(
            FileName {
                folder: number,
                kind: FileKind::Objects,
            },
            error,
        ));
    }
    for name in names.split(|b| *b == 0) {
        if let Some(id) = id_of_name(alloc, near, name)? {
            found.add(id)?;
        }
    }
    Ok(())
}
