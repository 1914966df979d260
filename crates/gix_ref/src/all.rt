//! Lists references (git-for-each-ref).

use crate::error::{Error, ErrorName, Fault};
use crate::files::{ensure_missing, fault_of, read, read_listed};
use crate::find::MOST_READ;
use crate::store::References;
use gix_base::hash::ObjectId;
use gix_files::{FileError, Folders};
use gix_ref_text::leads::{Led, Reference};
use gix_ref_text::lines::cut;
use gix_ref_text::loose::{self, Said};
use gix_ref_text::name::is_full_name;
use gix_ref_text::packed::{peeled_after, peeled_in, record};
use memchr::memrchr;
use std::alloc::{Allocator, Global};
use std::io::ErrorKind;

/// The id that git takes for damage in a list.
const ZEROS: ObjectId = ObjectId([0u8; 20]);

/// A reference of a list.
#[derive(Drop)]
pub struct Listed<A: Allocator = Global> {
    /// The full name.
    pub name: Vec<u8, A>,
    /// The id at the end of symbolic references.
    pub id: ObjectId,
    /// The object to which the tag with this id leads, if `packed-refs` says it. It is the id
    /// itself if `packed-refs` says that the id is that of no tag.
    pub peeled: Option<ObjectId>,
    /// Whether it is symbolic.
    pub is_symbolic: bool,
}

/// Why a reference is left out of a list.
#[derive(Clone, Copy, Debug, PartialEq, Eq)]
pub enum Why {
    /// Its file says neither an id nor a reference, or the id with zeros only, or git refuses its
    /// name.
    Broken,
    /// It is symbolic, and leads to a reference that is not there or is broken, or to none among
    /// the first five.
    LeadsNowhere,
    /// The name of its file or folder is not UTF-8.
    NotUtf8,
}

/// A reference that is left out of a list, or passed over.
#[derive(Drop)]
pub struct Skipped<A: Allocator = Global> {
    pub name: Vec<u8, A>,
    pub why: Why,
}

/// A list of references.
#[derive(Drop)]
pub struct Listing<A: Allocator = Global> {
    /// Sorted by name, each name once.
    pub references: Vec<Listed<A>, A>,
    /// Those that are left out, sorted by name. git warns of them.
    pub skipped: Vec<Skipped<A>, A>,
}

/// What is known of a reference.
#[derive(Clone, Copy)]
enum Outcome {
    Found(ObjectId, Option<ObjectId>, bool),
    LeftOut(Why),
}

/// A name, and the place of its outcome. Of two with the same name the first place counts.
#[derive(Drop)]
struct Item<A: Allocator> {
    name: Vec<u8, A>,
    place: usize,
}

/// Collects names with their outcomes.
#[derive(Drop)]
struct Items<A: Allocator> {
    items: Vec<Item<A>, A>,
    outcomes: Vec<Outcome, A>,
}

impl<A: Allocator + Copy> Items<A> {
    /// Returns no items.
    fn new(alloc: A) -> Items<A> {
        Items {
            items: Vec::new(alloc),
            outcomes: Vec::new(alloc),
        }
    }

    /// Adds a name with its outcome.
    fn add(&mut self, alloc: A, name: &[u8], outcome: Outcome) -> Result<(), Fault> {
        let name = name.to_vec(alloc)?;
        let place = self.outcomes.len();
        self.outcomes.push(outcome)?;
        self.items.push(Item { name, place })?;
        Ok(())
    }

    /// Takes out the last item, and returns whether it is the first of its name.
    fn pop(&mut self) -> Option<(Item<A>, bool)> {
        let item = self.items.pop()?;
        let is_first = match self.items.last() {
            Some(before) => before.name != item.name,
            None => true,
        };
        Some((item, is_first))
    }

    /// Returns the list. Of items with the same name the first that was added counts.
    fn listing(&mut self, alloc: A) -> Result<Listing<A>, Fault> {
        self.items.sort_by(|a, b| a
            .name
            .as_slice()
            .cmp(b.name.as_slice())
            .then(a.place.cmp(&b.place)))?;
        let mut listing = Listing {
            references: Vec::new(alloc),
            skipped: Vec::new(alloc),
        };
        for _ in 0..self.items.len() {
            if let Some((item, true)) = self.pop() {
                listing.add(item.name, self.outcomes.get(item.place).copied())?;
            }
        }
        listing.references.reverse();
        listing.skipped.reverse();
        Ok(listing)
    }
}

impl<A: Allocator + Copy> Listing<A> {
    /// Tests whether a list of all references has a name; `None` if it is left out.
    pub(crate) fn tells(&self, name: &[u8]) -> Option<bool> {
        let is_left_out = self
            .skipped
            .binary_search_by(|skipped| skipped.name.as_slice().cmp(name))
            .is_ok();
        let is_there = self
            .references
            .binary_search_by(|listed| listed.name.as_slice().cmp(name))
            .is_ok();
        (!is_left_out).then_some(is_there)
    }

    /// Adds a reference at the end.
    fn add(&mut self, name: Vec<u8, A>, outcome: Option<Outcome>) -> Result<(), Fault> {
        match outcome {
            Some(Outcome::Found(id, peeled, is_symbolic)) => {
                self.references.push(Listed {
                    name,
                    id,
                    peeled,
                    is_symbolic,
                })?;
            }
            Some(Outcome::LeftOut(why)) => self.skipped.push(Skipped { name, why })?,
            None => {}
        }
        Ok(())
    }
}

/// Returns the folder in which the loose references with a prefix lie, with its last slash.
fn folder_of(prefix: &[u8]) -> &[u8] {
    match memrchr(b'/', prefix) {
        Some(last) if prefix.starts_with(b"refs/") => {
            prefix.get(..last.saturating_add(1)).unwrap_or(b"refs/")
        }
        _ => b"refs/",
    }
}

/// Tests whether a name of a folder's entry is passed over, as git does.
fn is_hidden(name: &[u8]) -> bool {
    name.is_empty() || name.starts_with(b".") || name.ends_with(b".lock")
}

/// Returns why a file is left out that says neither an id nor a reference.
pub(crate) fn why_garbage(content: &[u8]) -> Why {
    if content.starts_with(b"ref:") {
        Why::LeadsNowhere
    } else {
        Why::Broken
    }
}

/// Returns the outcome of a loose reference with an id.
fn outcome_of(id: ObjectId) -> Outcome {
    if id == ZEROS {
        Outcome::LeftOut(Why::Broken)
    } else {
        Outcome::Found(id, None, false)
    }
}

/// Returns the outcome of a reference of `packed-refs`.
fn outcome_of_packed(id: ObjectId, name: &[u8], peeled: Option<ObjectId>) -> Outcome {
    if is_full_name(name) {
        Outcome::Found(id, peeled, false)
    } else {
        Outcome::LeftOut(Why::Broken)
    }
}

/// The folders of which each worktree has its own.
static OWN_FOLDERS: [&str; 3] = ["refs/bisect/", "refs/rewritten/", "refs/worktree/"];

/// Tests whether this is one of the folders of which each worktree has its own.
fn is_own_folder(folder: &[u8]) -> bool {
    OWN_FOLDERS.iter().any(|own| own.as_bytes() == folder)
}

/// Returns what is known of the object to which a tag of `packed-refs` leads: the id itself if the
/// id is that of no tag.
///
/// `said` is the id of the line `^ID`. As in git, an id with zeros only says that there is no tag.
fn known_peeled(id: ObjectId, said: Option<ObjectId>, is_told: bool) -> Option<ObjectId> {
    match said {
        Some(object) if object != ZEROS => Some(object),
        None if !is_told => None,
        _ => Some(id),
    }
}

/// Tests whether a part of a name is empty, `.` or `..`. As a path it may lead to another folder.
fn leads_away(name: &[u8]) -> bool {
    name.split(|b| *b == b'/').any(|part| part.is_empty()
        || part == b".".as_slice()
        || part == b"..".as_slice())
}

/// Fails if a part of a name of `packed-refs` is empty, `.` or `..`: git then lists no reference.
///
/// git still looks up a single name in such a file, so reading the file does not fail.
fn ensure_below(name: &[u8]) -> Result<(), Fault> {
    if leads_away(name) {
        return Err(Fault::Damaged(ErrorName::new(b"packed-refs")));
    }
    Ok(())
}

impl<F: Folders + Drop, A: Allocator + Copy> References<F, A> {
    /// Tests whether this is a linked worktree, which has some folders of its own.
    fn is_linked(&self) -> bool {
        self.git_dir != self.common_dir
    }

    /// Reads an entry of a folder. Adds it to the folders if it is no file.
    fn read_entry(
        &mut self,
        items: &mut Items<A>,
        folders: &mut Vec<Vec<u8, A>, A>,
        name: &[u8],
    ) -> Result<(), Fault> {
        let path = self.path(b"", name)?;
        match read_listed(self.alloc, &self.files, &path) {
            Ok(Some(content)) => self.keep(name, Some(content)),
            Ok(None) => {
                let mut folder = name.to_vec(self.alloc)?;
                folder.push(b'/')?;
                if !(self.is_linked() && is_own_folder(&folder)) {
                    folders.push(folder)?;
                }
                Ok(())
            }
            Err(FileError::NotUtf8) => {
                items.add(self.alloc, name, Outcome::LeftOut(Why::NotUtf8))
            }
            Err(error) => Err(fault_of(name, error)),
        }
    }

    /// Lists a folder. Its name ends with a slash.
    fn names_of(&self, folder: &[u8]) -> Result<Vec<u8, A>, Fault> {
        let path = self.path(b"", folder)?;
        let mut names = Vec::new(self.alloc);
        match self.files.names(&path, &mut names) {
            Ok(()) => Ok(names),
            Err(FileError::NotUtf8) => {
                ensure_missing(self.alloc, &self.files, &path, folder)?;
                Ok(names)
            }
            // It is a link that leads below a file. git lists nothing there.
            Err(FileError::Failed(ErrorKind::NotADirectory)) => Ok(names),
            Err(error) => Err(fault_of(folder, error)),
        }
    }

    /// Reads the files of a folder that may have a prefix, and adds its folders that may.
    fn read_folder(
        &mut self,
        items: &mut Items<A>,
        folders: &mut Vec<Vec<u8, A>, A>,
        folder: &[u8],
        prefix: &[u8],
    ) -> Result<(), Fault> {
        let names = self.names_of(folder)?;
        for entry in names.split(|b| *b == 0) {
            if !is_hidden(entry) {
                let mut name = folder.to_vec(self.alloc)?;
                name.extend_from_slice(entry)?;
                if name.starts_with(prefix) || prefix.starts_with(&name) {
                    self.read_entry(items, folders, &name)?;
                }
            }
        }
        Ok(())
    }

    /// Returns the folders in which the loose references with a prefix lie. There are none if the
    /// prefix leads to a folder by another path than the names of references, as `refs/../x` does.
    fn first_folders(&self, prefix: &[u8]) -> Result<Vec<Vec<u8, A>, A>, Fault> {
        let mut folders = Vec::new(self.alloc);
        let first = folder_of(prefix);
        if leads_away(first.strip_suffix(b"/").unwrap_or(first)) {
            return Ok(folders);
        }
        folders.push(first.to_vec(self.alloc)?)?;
        if self.is_linked() {
            for own in &OWN_FOLDERS {
                if own.as_bytes().starts_with(first) && own.as_bytes() != first {
                    folders.push(own.as_bytes().to_vec(self.alloc)?)?;
                }
            }
        }
        Ok(folders)
    }

    /// Reads the loose references with a prefix, and maybe some more.
    fn read_all(&mut self, items: &mut Items<A>, prefix: &[u8]) -> Result<(), Fault> {
        let mut folders = self.first_folders(prefix)?;
        for _ in 0..u64::MAX {
            let Some(folder) = folders.pop() else {
                break;
            };
            self.read_folder(items, &mut folders, &folder, prefix)?;
        }
        Ok(())
    }

    /// Returns the outcome of a symbolic reference that leads to a name.
    fn outcome_of_symbolic(&mut self, next: &[u8]) -> Result<Outcome, Fault> {
        match self.follow_on(next, MOST_READ.saturating_sub(1)) {
            // git looks at the object itself, whatever `packed-refs` says of the last reference.
            Ok(Led::Ends(Reference { id, .. })) if id != ZEROS => Ok(Outcome::Found(
                id, None, true,
            )),
            Ok(_) => Ok(Outcome::LeftOut(Why::LeadsNowhere)),
            Err(Fault::NotUtf8(_)) => Ok(Outcome::LeftOut(Why::NotUtf8)),
            Err(fault) => Err(fault),
        }
    }

    /// Returns a copy of the name and the content of a reading.
    fn reading_at(&self, place: usize) -> Result<(Vec<u8, A>, Vec<u8, A>), Fault> {
        match self.readings.get(place) {
            Some(reading) => {
                let name = reading.name.to_vec(self.alloc)?;
                match &reading.content {
                    Some(content) => Ok((name, content.to_vec(self.alloc)?)),
                    None => Ok((name, Vec::new(self.alloc))),
                }
            }
            None => Ok((Vec::new(self.alloc), Vec::new(self.alloc))),
        }
    }

    /// Adds a loose reference that was read.
    fn add_loose(
        &mut self,
        items: &mut Items<A>,
        place: usize,
        prefix: &[u8],
    ) -> Result<(), Fault> {
        let (name, content) = self.reading_at(place)?;
        if !name.starts_with(prefix) {
            return Ok(());
        }
        let outcome = match loose::read(&name, &content) {
            _ if !is_full_name(&name) => Outcome::LeftOut(Why::Broken),
            Said::Id(id) => outcome_of(id),
            Said::LeadsTo(next) => self.outcome_of_symbolic(next)?,
            Said::Garbage => Outcome::LeftOut(why_garbage(&content)),
        };
        items.add(self.alloc, &name, outcome)
    }

    /// Adds the references of `packed-refs` with a prefix.
    ///
    /// Fails if [`ensure_below`] refuses any name, whatever the prefix. git reads all lines for
    /// some lists, and at least the line behind those with the prefix.
    fn add_packed(&self, items: &mut Items<A>, prefix: &[u8]) -> Result<(), Fault> {
        let bytes = self.packed_bytes();
        let peeled = peeled_in(bytes);
        let mut rest = bytes;
        for _ in 0..bytes.len() {
            let (line, after) = cut(rest, b'\n');
            if let Some((id, name)) = record(line) {
                ensure_below(name)?;
                if name.starts_with(prefix) {
                    let said = known_peeled(id, peeled_after(after), peeled.has(name));
                    items.add(self.alloc, name, outcome_of_packed(id, name, said))?;
                }
            }
            match after {
                Some(after) => rest = after,
                None => break,
            }
        }
        Ok(())
    }

    /// Returns the references below `refs/` whose names begin with a prefix.
    ///
    /// They are sorted by name. A loose reference hides one of `packed-refs`, and each name comes
    /// once. References that are broken or lead nowhere are listed apart, as git skips them.
    ///
    /// # Errors
    ///
    /// - `Failed` if a file or a folder cannot be read.
    /// - `Damaged` if `packed-refs` has a line that git does not write, or a name twice.
    /// - `OutOfMemory` if an allocation failed.
    pub fn all(&mut self, prefix: &[u8]) -> Result<Listing<A>, Error> {
        self.begin();
        match self.all_by_files(prefix) {
            Ok(listing) => Ok(listing),
            Err(fault) => Err(fault.error()),
        }
    }

    /// Returns the references whose names begin with a prefix.
    fn all_by_files(&mut self, prefix: &[u8]) -> Result<Listing<A>, Fault> {
        let mut items = Items::new(self.alloc);
        self.read_all(&mut items, prefix)?;
        self.read_packed()?;
        for place in 0..self.readings.len() {
            self.add_loose(&mut items, place, prefix)?;
        }
        self.add_packed(&mut items, prefix)?;
        items.listing(self.alloc)
    }

    /// Lists the folder `worktrees`, which has a folder for each linked worktree.
    fn worktree_names(&self) -> Result<Vec<u8, A>, Fault> {
        let mut path = self.common_dir.as_slice().to_vec(self.alloc)?;
        path.extend_from_slice(b"/worktrees")?;
        let mut names = Vec::new(self.alloc);
        match self.files.names(&path, &mut names) {
            Ok(()) => Ok(names),
            Err(error) => Err(fault_of(b"worktrees", error)),
        }
    }

    /// Reads a file in the folder of a linked worktree; `None` if there is none.
    fn worktree_file(&self, worktree: &[u8], name: &[u8]) -> Result<Option<Vec<u8, A>>, Fault> {
        let mut path = self.common_dir.as_slice().to_vec(self.alloc)?;
        path.extend_from_slice(b"/worktrees/")?;
        path.extend_from_slice(worktree)?;
        path.push(b'/')?;
        path.extend_from_slice(name)?;
        read(self.alloc, &self.files, &path, name)
    }

    /// Tests whether a linked worktree shares this repository, by the text of its `commondir`.
    fn is_shared(&self, text: &[u8]) -> bool {
        let path = text.strip_suffix(b"\n").unwrap_or(text);
        path == b"../..".as_slice() || path == self.common_dir.as_slice()
    }

    /// Tests whether a folder of `worktrees` is that of a linked worktree: it has a file `gitdir`
    /// that is not empty, as git wants it.
    ///
    /// Fails if its `commondir` is not the one that git writes. git then looks for the references
    /// of this worktree in another folder, or fails.
    fn is_worktree(&self, worktree: &[u8]) -> Result<bool, Fault> {
        match self.worktree_file(worktree, b"gitdir")? {
            Some(text) if !text.is_empty() => {}
            _ => return Ok(false),
        }
        match self.worktree_file(worktree, b"commondir")? {
            Some(text) if self.is_shared(&text) => Ok(true),
            _ => Err(Fault::Damaged(ErrorName::new(b"commondir"))),
        }
    }

    /// Returns the full name of a worktree's `HEAD`.
    fn worktree_head(&self, name: &[u8]) -> Result<Vec<u8, A>, Fault> {
        let mut head = b"worktrees/".to_vec(self.alloc)?;
        head.extend_from_slice(name)?;
        head.extend_from_slice(b"/HEAD")?;
        Ok(head)
    }

    /// Fails if the folder that worktrees share has a file `commondir` itself. git then looks for
    /// the references of the main worktree in another folder, or fails.
    fn expect_main_worktree(&self) -> Result<(), Fault> {
        let mut path = self.common_dir.as_slice().to_vec(self.alloc)?;
        path.extend_from_slice(b"/commondir")?;
        match read(self.alloc, &self.files, &path, b"commondir")? {
            Some(_) => Err(Fault::Damaged(ErrorName::new(b"commondir"))),
            None => Ok(()),
        }
    }

    /// Returns what the `HEAD`s of the other worktrees stand for, and of linked ones that of this.
    fn heads_by_files(&mut self) -> Result<Vec<ObjectId, A>, Fault> {
        self.expect_main_worktree()?;
        let names = self.worktree_names()?;
        let mut ids = Vec::new(self.alloc);
        if self.is_linked() {
            if let Some(reference) = self.sound(b"main-worktree/HEAD")? {
                ids.push(reference.id)?;
            }
        }
        for name in names.split(|b| *b == 0) {
            if !is_hidden(name) && self.is_worktree(name)? {
                let head = self.worktree_head(name)?;
                if let Some(reference) = self.sound(&head)? {
                    ids.push(reference.id)?;
                }
            }
        }
        Ok(ids)
    }

    /// Returns what `HEAD` of each linked worktree stands for and, in a linked worktree, that of the
    /// main one. Those that are broken or lead nowhere are left out (git-worktree, "Details").
    ///
    /// # Errors
    ///
    /// - Those of [`References::all`].
    /// - `Damaged` if the file `commondir` of a worktree leads to another folder, or if the folder
    ///   that they share has one.
    pub fn worktree_heads(&mut self) -> Result<Vec<ObjectId, A>, Error> {
        self.begin();
        match self.heads_by_files() {
            Ok(ids) => Ok(ids),
            Err(fault) => Err(fault.error()),
        }
    }
}
