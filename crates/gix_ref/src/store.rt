//! The references of a repository, and what an answer has read of them.

ghost use Rattle.std.specs.Prelude.{◌≡◌, ◌++◌, ◌∷◌, [], OnOk, is_some, true};
ghost use Rattle.std.specs.Option.{option_map, unwrap_or};
ghost use Rattle.gix_ref_text.specs.Known.{Grows, first_read, content_of};
ghost use Rattle.gix_ref.specs.Known.{known, read_of};

use crate::all::{Listing, Skipped};
use crate::error::{Error, ErrorName, Fault};
use crate::files::{fault_of, read};
use crate::place::located;
use gix_files::{FileError, Folders, Limit, read_file};
use gix_ref_text::loose::is_untrimmed;
use gix_ref_text::name::is_full_name;
use gix_ref_text::snapshot::{Snapshot, odd_line};
use std::alloc::{Allocator, Global};
use std::io::ErrorKind;

/// What an answer has read of a loose reference. The content is `None` if there is no file.
#[derive(Drop)]
pub(crate) struct Reading<A: Allocator> {
    pub(crate) name: Vec<u8, A>,
    pub(crate) content: Option<Vec<u8, A>>,
}

/// What is in place of a loose reference.
#[derive(Drop)]
enum LooseFile<A: Allocator> {
    /// A file with these bytes.
    Content(Vec<u8, A>),
    /// Nothing, or a folder.
    Missing,
    /// A link to no file, or a file in place of a folder of its path.
    Unreadable(ErrorKind),
}

/// Whether there is a symbolic link in place of a loose reference or a reflog.
#[derive(Drop)]
pub(crate) enum Link<A: Allocator> {
    Text(Vec<u8, A>),
    None,
    /// There can be none: the name is below that of a file, or too long.
    Below(ErrorKind),
}

/// Reads the references of a repository.
#[derive(Drop)]
pub struct References<F: Folders + Drop, A: Allocator + Copy = Global> {
    pub(crate) alloc: A,
    pub(crate) files: F,
    pub(crate) git_dir: Vec<u8, A>,
    pub(crate) common_dir: Vec<u8, A>,
    // What `packed-refs` has, if it was read: no bytes if there is no such file.
    pub(crate) packed: Option<Snapshot<A>>,
    // What the current answer has read. The first reading of a name counts.
    pub(crate) readings: Vec<Reading<A>, A>,
    // The references that the current answer has passed over.
    pub(crate) passed: Vec<Skipped<A>, A>,
    // All references, if names are shortened by a list.
    pub(crate) names: Option<Listing<A>>,
}

/// Tests whether a symbolic link with this text, in place of a reference, is a symbolic reference.
fn leads_by_text(name: &[u8], text: &[u8]) -> bool {
    !is_untrimmed(name) && text.starts_with(b"refs/") && is_full_name(text)
}

/// Returns copies of two paths.
fn copied<A: Allocator + Copy>(
    alloc: A,
    first: &[u8],
    second: &[u8],
) -> Result<(Vec<u8, A>, Vec<u8, A>), Fault> {
    Ok((first.to_vec(alloc)?, second.to_vec(alloc)?))
}

impl<F: Folders + Drop, A: Allocator + Copy> References<F, A> {
    /// Opens the references of a repository. Reads nothing yet.
    ///
    /// `git_dir` is the `.git` folder of the worktree, and `common_dir` the one that all worktrees
    /// share (git-worktree, "Details"). Both are the same in the main worktree.
    ///
    /// # Errors
    ///
    /// - `OutOfMemory` if an allocation failed.
    pub fn open(
        alloc: A,
        files: F,
        git_dir: &[u8],
        common_dir: &[u8],
    ) -> Result<References<F, A>, Error> {
        match copied(alloc, git_dir, common_dir) {
            Ok((git_dir, common_dir)) => Ok(References {
                alloc,
                files,
                git_dir,
                common_dir,
                packed: None,
                readings: Vec::new(alloc),
                passed: Vec::new(alloc),
                names: None,
            }),
            Err(fault) => Err(fault.error()),
        }
    }

    /// Forgets what was read of `packed-refs` and the list of all references, so that the next
    /// answer reads them anew.
    pub fn refresh(&mut self) {
        self.packed = None;
        self.names = None;
    }

    /// Forgets what the last answer has read of loose references.
    pub(crate) fn begin(&mut self)
        ensures { (known self.new).loose ≡ [] }
    {
        self.readings.clear();
        self.passed.clear();
    }

    /// Returns the path of a reference, or of its reflog if `logs` is `logs/`.
    pub(crate) fn path(&self, logs: &[u8], name: &[u8]) -> Result<Vec<u8, A>, Fault> {
        let place = located(name);
        let folder = if place.is_own {
            &self.git_dir
        } else {
            &self.common_dir
        };
        let mut path = folder.to_vec(self.alloc)?;
        path.push(b'/')?;
        path.extend_from_slice(place.folder)?;
        path.extend_from_slice(logs)?;
        path.extend_from_slice(place.below)?;
        Ok(path)
    }

    /// Reads the text of the symbolic link at the path of a reference or reflog, if there is one.
    pub(crate) fn link_at(&self, path: &[u8], name: &[u8]) -> Result<Link<A>, Fault> {
        let mut text = Vec::new(self.alloc);
        match self.files.link(path, &mut text) {
            Ok(true) => Ok(Link::Text(text)),
            Ok(false) => Ok(Link::None),
            Err(FileError::NotUtf8) if str::from_utf8(path).is_err() => Ok(Link::None),
            Err(
                FileError::Failed(kind @ (ErrorKind::NotADirectory | ErrorKind::InvalidFilename)),
            ) => Ok(Link::Below(kind)),
            Err(error) => Err(fault_of(name, error)),
        }
    }

    /// Reads what is in place of a loose reference.
    ///
    /// A symbolic link whose text is a name below `refs/` is a symbolic reference to this name,
    /// except in place of `FETCH_HEAD` or `MERGE_HEAD`.
    fn read_loose_file(&self, name: &[u8]) -> Result<LooseFile<A>, Fault> {
        let path = self.path(b"", name)?;
        let is_link = match self.link_at(&path, name)? {
            Link::Text(text) if leads_by_text(name, &text) => {
                let mut content = b"ref: ".to_vec(self.alloc)?;
                content.extend_from_slice(&text)?;
                return Ok(LooseFile::Content(content));
            }
            Link::Text(_) => true,
            Link::None => false,
            Link::Below(kind) => return Ok(LooseFile::Unreadable(kind)),
        };
        match read(self.alloc, &self.files, &path, name)? {
            Some(content) => Ok(LooseFile::Content(content)),
            None if is_link => Ok(LooseFile::Unreadable(ErrorKind::NotFound)),
            None => Ok(LooseFile::Missing),
        }
    }

    /// Fails if `packed-refs` has a reference, since its loose file cannot be read.
    ///
    /// git then takes none, neither the loose one nor the packed one.
    fn ensure_not_packed(&mut self, name: &[u8], kind: ErrorKind) -> Result<(), Fault>
        ensures grows { Grows (known self.old) (known self.new) }
    {
        self.read_packed()?;
        match &self.packed {
            Some(snapshot) if snapshot.find(name).is_some() => {
                Err(Fault::Failed(ErrorName::new(name), kind))
            }
            _ => Ok(()),
        }
    }

    /// Reads the content of a loose reference; `None` if there is none.
    fn loose_content(&mut self, name: &[u8]) -> Result<Option<Vec<u8, A>>, Fault>
        ensures grows { Grows (known self.old) (known self.new) }
    {
        match self.read_loose_file(name)? {
            LooseFile::Content(content) => Ok(Some(content)),
            LooseFile::Missing => Ok(None),
            LooseFile::Unreadable(kind) => {
                self.ensure_not_packed(name, kind)?;
                Ok(None)
            }
        }
    }

    /// Keeps what was read of a loose reference.
    pub(crate) fn keep(&mut self, name: &[u8], content: Option<Vec<u8, A>>) -> Result<(), Fault>
        ensures grows { Grows (known self.old) (known self.new) }
        ensures kept { OnOk result ((known self.new).loose ≡ (known self.old).loose ++ record { name = name.now; content = option_map (λ v. v.items) content } ∷ []) }
    {
        let name = Vec::from_slice(self.alloc, name)?;
        self.readings.push(Reading { name, content })?;
        Ok(())
    }

    /// Returns the first reading of a loose reference.
    fn reading(&self, name: &[u8]) -> Option<&Reading<A>>
        ensures { option_map (λ r. read_of r.now) result ≡ first_read (known self.now).loose name.now }
    {
        for reading in self.readings.as_slice() {
            if reading.name.as_slice() == name {
                return Some(reading);
            }
        }
        None
    }

    /// Returns the bytes of a loose reference's file, if one was read.
    pub(crate) fn content(&self, name: &[u8]) -> Option<&[u8]>
        ensures { option_map (λ b. b.now) result ≡ content_of (first_read (known self.now).loose name.now) }
    {
        match self.reading(name) {
            Some(reading) => bytes_of(&reading.content),
            None => None,
        }
    }

    /// Reads a loose reference, unless the answer has read it.
    pub(crate) fn read_loose(&mut self, name: &[u8]) -> Result<(), Fault>
        ensures grows { Grows (known self.old) (known self.new) }
        ensures read { OnOk result (is_some (first_read (known self.new).loose name.now) ≡ true) }
    {
        if self.reading(name).is_some() {
            return Ok(());
        }
        let content = self.loose_content(name)?;
        self.keep(name, content)?;
        Ok(())
    }

    /// Returns the bytes of `packed-refs`, which has this path; none if there is no such file.
    fn read_packed_file(&self, path: &[u8]) -> Result<Vec<u8, A>, Fault> {
        let mut bytes = Vec::new(self.alloc);
        match read_file(&self.files, path, Limit::Table, &mut bytes) {
            Ok(_) => Ok(bytes),
            Err(error) => Err(fault_of(path, error)),
        }
    }

    /// Returns why `packed-refs`, which has this path, counts as damaged.
    fn packed_fault(&self, path: &[u8]) -> Result<Fault, Fault> {
        let bytes = self.read_packed_file(path)?;
        let Some(line) = odd_line(&bytes) else {
            return Ok(Fault::Damaged(ErrorName::new(path)));
        };
        let mut name = path.to_vec(self.alloc)?;
        name.extend_from_slice(b": ")?;
        name.extend_from_slice(line)?;
        Ok(Fault::Unexpected(ErrorName::new(&name)))
    }

    /// Reads the file `packed-refs`. It has no bytes if there is no such file.
    fn packed_file(&self) -> Result<Snapshot<A>, Fault> {
        let mut path = self.common_dir.to_vec(self.alloc)?;
        path.extend_from_slice(b"/packed-refs")?;
        match Snapshot::new(self.alloc, self.read_packed_file(&path)?)? {
            Some(snapshot) => Ok(snapshot),
            None => Err(self.packed_fault(&path)?),
        }
    }

    /// Reads `packed-refs`, unless it was read.
    pub(crate) fn read_packed(&mut self) -> Result<(), Fault>
        ensures grows { Grows (known self.old) (known self.new) }
        ensures read { OnOk result (is_some (known self.new).packed ≡ true) }
    {
        if self.packed.is_some() {
            return Ok(());
        }
        let snapshot = self.packed_file()?;
        self.packed = Some(snapshot);
        Ok(())
    }

    /// Returns the bytes of `packed-refs`; none if it was not read.
    pub(crate) fn packed_bytes(&self) -> &[u8]
        ensures { result.now ≡ unwrap_or (known self.now).packed [] }
    {
        match &self.packed {
            Some(snapshot) => snapshot.bytes.as_slice(),
            None => &[],
        }
    }
}

/// Returns the bytes of a file, if there is one.
fn bytes_of<A: Allocator>(content: &Option<Vec<u8, A>>) -> Option<&[u8]>
    ensures { option_map (λ b. b.now) result ≡ option_map (λ v. v.items) content.now }
{
    match content {
        Some(bytes) => Some(bytes.as_slice()),
        None => None,
    }
}
