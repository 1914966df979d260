//! Follows tags to the objects that they name.

use crate::error::{Refusal, Unsupported};
use crate::open::Mode;
use crate::repository::Repository;
use gix_base::hash::ObjectId;
use gix_base::object::Kind;
use gix_files::Folders;
use gix_history::ReadError;
use gix_odb::{Object, Tag};
use std::alloc::{AllocError, Allocator};

/// How many tags are followed from one object. git follows any number, also in a circle that
/// replacements make.
const MOST_TAGS: u32 = 1024;

/// The object to which a tag leads through all tags.
#[derive(Clone, Copy)]
pub(crate) struct Peeled {
    id: ObjectId,
    kind: Kind,
    /// How many tags lead to it, with this one.
    tags: u32,
}

/// Returns the id in the line `tree ID` with which the content of a commit begins.
fn tree_line(content: &[u8]) -> Option<ObjectId> {
    let rest = content.strip_prefix(b"tree ".as_slice())?;
    ObjectId::from_hex(rest.get(..40)?).ok()
}

/// Returns a copy of what a tag says.
fn copied<A: Allocator + Copy>(alloc: A, tag: &Tag<A>) -> Result<Tag<A>, AllocError> {
    Ok(Tag {
        target: tag.target,
        kind: tag.kind,
        name: tag.name.to_vec(alloc)?,
        date: tag.date,
    })
}

/// Returns why the object `by` was not read, which stands for `id`.
fn not_read(id: ObjectId, by: ObjectId, error: gix_odb::Error) -> Refusal {
    match error {
        // git fails if the object in place of another one is missing.
        gix_odb::Error::Missing(_) if by != id => Refusal::Replaced(id),
        error => Refusal::from(error),
    }
}

impl<F: Folders + Drop, A: Allocator + Copy> Repository<F, A> {
    /// Returns the object that stands for `id`.
    ///
    /// # Errors
    ///
    /// `Fatal`, with git's message, if it is replaced too many times in turn.
    fn stand_in(&mut self, id: ObjectId) -> Result<ObjectId, Refusal> {
        if let Some(by) = self.history.reader.changes.stand_in(id) {
            return Ok(by);
        }
        let mut digits = [0u8; 40];
        let written = id.write_hex(40, &mut digits);
        self.say_even_quietly(
            b"fatal: replace depth too high for object ",
            &digits[..written],
            b"",
        )?;
        Err(Refusal::Fatal)
    }

    /// Returns whether another object stands for `id` (git-replace).
    pub fn is_replaced(&self, id: ObjectId) -> bool {
        self.history.reader.changes.stand_in(id) != Some(id)
    }

    /// Returns the kind that an object has. Its header says it, as in git; if only objects are believed
    /// whose SHA-1 is their id, the whole object is read.
    fn stored_kind(&mut self, id: ObjectId) -> Result<Kind, gix_odb::Error> {
        let alloc = self.alloc;
        if self.mode == Mode::Usual {
            self.history.reader.store.told_kind(alloc, id)
        } else {
            self.history.reader.store.kind(alloc, id)
        }
    }

    /// Returns the kind of an object, of the one that stands for it if it is replaced.
    ///
    /// # Errors
    ///
    /// - `Object` if the object was not read.
    /// - `Replaced` if it is replaced by an object that is missing.
    /// - `Fatal` if it is replaced too many times in turn. The message is among the messages.
    /// - `OutOfMemory` if an allocation failed.
    pub fn kind(&mut self, id: ObjectId) -> Result<Kind, Refusal> {
        let by = self.stand_in(id)?;
        if self.history.reader.checked.contains(&by) {
            return Ok(Kind::Commit);
        }
        match self.stored_kind(by) {
            Ok(kind) => Ok(kind),
            Err(error) => Err(not_read(id, by, error)),
        }
    }

    /// Reads the object of a commit that a question or a reference names, as git does, whatever was
    /// read of the commit before.
    ///
    /// If the row of the commit is damaged, the question goes on without the commit-graph.
    ///
    /// # Errors
    ///
    /// - `Object` if the object was not read, or is no well-formed commit.
    /// - `Differs` if the commit-graph says something else of the commit.
    /// - `Replaced` and `Fatal` as for [`Repository::kind`].
    /// - `OutOfMemory` if an allocation failed.
    pub fn check(&mut self, id: ObjectId) -> Result<(), Refusal> {
        let by = self.stand_in(id)?;
        match self.history.reader.check(by) {
            Err(Refusal::Graph(_)) => {
                self.leave_graph();
                Ok(())
            }
            Err(Refusal::Object(error)) => Err(not_read(id, by, error)),
            checked => checked,
        }
    }

    /// Returns what an annotated tag says. Its object is read once.
    ///
    /// # Errors
    ///
    /// - `Object` if the tag was not read, or if the object is no tag.
    /// - `Replaced` and `Fatal` as for [`Repository::kind`].
    /// - `OutOfMemory` if an allocation failed.
    pub fn tag(&mut self, id: ObjectId) -> Result<Tag<A>, Refusal> {
        if let Some(tag) = self.tags.get(&id) {
            return Ok(copied(self.alloc, tag)?);
        }
        let alloc = self.alloc;
        let by = self.stand_in(id)?;
        match self.history.reader.store.tag(alloc, by) {
            Ok(tag) => {
                self.tags.insert(id, copied(alloc, &tag)?)?;
                Ok(tag)
            }
            Err(error) => Err(not_read(id, by, error)),
        }
    }

    /// Returns an object, or the one that stands for it if it is replaced.
    ///
    /// # Errors
    ///
    /// - `Object` if the object was not read.
    /// - `Replaced` and `Fatal` as for [`Repository::kind`].
    /// - `OutOfMemory` if an allocation failed.
    pub fn read_object(&mut self, id: ObjectId) -> Result<Object<A>, Refusal> {
        let alloc = self.alloc;
        let by = self.stand_in(id)?;
        match self.history.reader.store.read(alloc, by) {
            Ok(object) => Ok(object),
            Err(error) => Err(not_read(id, by, error)),
        }
    }

    /// Returns the tree of a commit.
    ///
    /// # Errors
    ///
    /// - `Object` if the commit or the tree was not read.
    /// - `Unknown` if the commit does not begin with the line of a tree, or if the object that the
    ///   line names is no tree. In the latter case git's message says so.
    /// - `OutOfMemory` if an allocation failed.
    pub fn tree(&mut self, commit: ObjectId) -> Result<ObjectId, Refusal> {
        let object = self.read_object(commit)?;
        let Some(tree) = tree_line(&object.content) else {
            return Err(Refusal::Unknown);
        };
        match self.kind(tree)? {
            Kind::Tree => Ok(tree),
            kind => {
                self.say_no_tree(tree, kind)?;
                Err(Refusal::Unknown)
            }
        }
    }

    /// Returns the object that a tag names, and its kind.
    ///
    /// # Errors
    ///
    /// - `TagKind` if the tag says another kind. git then fails, or passes over the tag.
    /// - Those of [`Repository::tag`] and [`Repository::kind`].
    fn tagged(&mut self, tag: ObjectId) -> Result<(ObjectId, Kind), Refusal> {
        let Tag { target, kind, .. } = self.tag(tag)?;
        if self.kind(target)? == kind {
            Ok((target, kind))
        } else {
            Err(Refusal::TagKind(tag))
        }
    }

    /// Returns where an object leads, through tags until one of which this is known. Adds the tags on
    /// the way to `passed`.
    fn end_of(&mut self, id: ObjectId, passed: &mut Vec<ObjectId, A>) -> Result<Peeled, Refusal> {
        let mut at = (id, self.kind(id)?);
        for _ in 0..=MOST_TAGS {
            if let Some(known) = self.peeled.get(&at.0) {
                return Ok(*known);
            }
            match at {
                (tag, Kind::Tag) => {
                    at = self.tagged(tag)?;
                    passed.push(tag)?;
                }
                (id, Kind::Commit) => {
                    return Ok(Peeled {
                        id,
                        kind: Kind::Commit,
                        tags: 0,
                    });
                }
                (id, _) => return self.read_end(id),
            }
        }
        Err(Refusal::NotSupported(Unsupported::Tags))
    }

    /// Reads a tree or a blob, once, and returns that it leads to itself. If its pack is damaged, its
    /// header may be that of another kind of object.
    fn read_end(&mut self, id: ObjectId) -> Result<Peeled, Refusal> {
        let Object { kind, content: _ } = self.read_object(id)?;
        let end = Peeled { id, kind, tags: 0 };
        self.peeled.insert(id, end)?;
        Ok(end)
    }

    /// Returns where an object leads, and notes it of each tag on the way.
    fn followed(&mut self, id: ObjectId) -> Result<Peeled, Refusal> {
        let mut passed = Vec::new(self.alloc);
        let mut end = self.end_of(id, &mut passed)?;
        for tag in passed.iter().rev() {
            if end.tags >= MOST_TAGS {
                return Err(Refusal::NotSupported(Unsupported::Tags));
            }
            end.tags = end.tags.saturating_add(1);
            self.peeled.insert(*tag, end)?;
        }
        Ok(end)
    }

    /// Returns the object to which `id` leads through all tags, and its kind (gitrevisions,
    /// `<rev>^{}`). A commit is read as by [`Repository::check`].
    ///
    /// # Errors
    ///
    /// - `Object` if an object on the way was not read, or a commit is malformed.
    /// - `Differs` if the commit-graph says something else of the commit.
    /// - `TagKind` if a tag says another kind than that of its object.
    /// - `NotSupported` if there are more than 1,024 tags on the way.
    /// - `OutOfMemory` if an allocation failed.
    pub fn peeled(&mut self, id: ObjectId) -> Result<(ObjectId, Kind), Refusal> {
        let Peeled { id, kind, tags: _ } = self.followed(id)?;
        if kind == Kind::Commit {
            self.check(id)?;
        }
        Ok((id, kind))
    }

    /// Returns the commit to which an object leads through tags; `None` if it is another kind of
    /// object.
    ///
    /// # Errors
    ///
    /// Those of [`Repository::peeled`].
    pub fn commit(&mut self, id: ObjectId) -> Result<Option<ObjectId>, Refusal> {
        match self.peeled(id)? {
            (id, Kind::Commit) => Ok(Some(id)),
            _ => Ok(None),
        }
    }

    /// Returns the commit to which what a reference names leads through tags. As git does, it passes
    /// over another kind of object, and one that is missing.
    ///
    /// # Errors
    ///
    /// - `Commit` if only the commit-graph has the commit. git takes it in some questions, and in
    ///   others not.
    /// - Those of [`Repository::peeled`], but for a missing object that no remote has promised.
    pub fn commit_of_reference(&mut self, id: ObjectId) -> Result<Option<ObjectId>, Refusal> {
        match self.commit(id) {
            Err(Refusal::Object(gix_odb::Error::Missing(lost))) if !self.is_partial() => {
                if self.history.reader.has_row(lost)? {
                    return Err(Refusal::Commit(ReadError::Missing(lost)));
                }
                Ok(None)
            }
            found => found,
        }
    }
}
