//! The repository, and the questions about its history.

ghost use Rattle.std.specs.Prelude.{◌≡◌, IfOk};
ghost use Rattle.gix_history.specs.Origins.{AreFromObjects};
ghost use Rattle.gix_repository.specs.Answers.{answered_over};
ghost use Rattle.gix_repository.specs.declared.open.Mode.TheVariants.{Authentic};

use crate::commits::Commits;
use crate::error::{Refusal, Unsupported};
use crate::open::Mode;
use crate::peel::Peeled;
use gix_base::hash::ObjectId;
use gix_date::date::Time;
use gix_discover::{Abbrev, Layout, Settings};
use gix_files::Folders;
use gix_history::{Beyond, History, Loaded, Question, ReadError};
use gix_odb::Tag;
use gix_ref::{Listing, References, Skipped, Why};
use gix_revwalk::Seed;
use gix_revwalk::graph::SourceCommit;
use std::alloc::{Allocator, Global};
use std::collections::BTreeMap;

/// Reads a repository, and answers questions about it.
///
/// What one question has read, the next one uses.
#[derive(Drop)]
pub struct Repository<F: Folders + Drop, A: Allocator + Copy = Global> {
    pub(crate) alloc: A,
    /// The memory of refusals, which take none.
    pub(crate) refusals: Global,
    pub(crate) seed: Seed,
    /// The moment from which relative dates count.
    pub(crate) now: Time,
    pub(crate) abbrev: Abbrev,
    /// Whether ambiguous names are warned of.
    pub(crate) warns: bool,
    /// Whether git is to be quiet about names.
    pub(crate) is_quiet: bool,
    /// Whether nothing is said about names, since all was said before.
    pub(crate) is_silent: bool,
    pub(crate) layout: Layout<A>,
    pub(crate) settings: Settings<A>,
    pub(crate) references: References<F, A>,
    pub(crate) history: History<Commits<F, A>, A>,
    /// Which files are believed.
    pub(crate) mode: Mode,
    /// If all that a question's commits reach is read first, the commits that were loaded.
    pub(crate) loaded: Option<Loaded<A>>,
    /// What the tags say that were read.
    pub(crate) tags: BTreeMap<ObjectId, Tag<A>, A>,
    /// Where the tags lead that were followed, and the trees and blobs at their ends.
    pub(crate) peeled: BTreeMap<ObjectId, Peeled, A>,
    /// What git would print on standard error.
    pub(crate) messages: Vec<u8, A>,
}

/// Returns whether a file with a name that is not UTF-8 was passed over.
fn has_unopened<A: Allocator>(skipped: &[Skipped<A>]) -> bool {
    for one in skipped {
        if one.why == Why::NotUtf8 {
            return true;
        }
    }
    false
}

impl<F: Folders + Drop, A: Allocator + Copy> Repository<F, A> {
    /// Returns the allocator of the repository's memory.
    pub fn alloc(&self) -> A {
        self.alloc
    }

    /// Returns the seed of hash maps over ids.
    pub fn seed(&self) -> Seed {
        self.seed
    }

    /// Returns where the repository is.
    pub fn layout(&self) -> &Layout<A> {
        &self.layout
    }

    /// Returns the settings of the repository.
    pub fn settings(&self) -> &Settings<A> {
        &self.settings
    }

    /// Returns whether ambiguous names are warned of (git-config, `core.warnAmbiguousRefs`).
    pub fn warns_of_ambiguous_names(&self) -> bool {
        self.warns
    }

    /// Turns off, or on again, the messages about names that are looked up (git-rev-parse,
    /// "--quiet"). Those that git prints even so stay on.
    pub fn set_quiet(&mut self, is_quiet: bool) {
        self.is_quiet = is_quiet;
    }

    /// Turns off, or on again, all messages about names, for a name that is looked up once more.
    pub fn set_silent(&mut self, is_silent: bool) {
        self.is_silent = is_silent;
    }

    /// Lists the references whose full names begin with a text. If only objects are believed it tells
    /// of no reference where its tag leads: `packed-refs` says it, and nothing vouches for this file.
    ///
    /// # Errors
    ///
    /// - `NotUtf8` if the file of a reference has a name that is not UTF-8, and is not opened.
    /// - `Reference` if a file or a folder was not read.
    /// - `OutOfMemory` if an allocation failed.
    pub fn list_references(&mut self, front: &[u8]) -> Result<Listing<A>, Refusal> {
        let mut listing = self.references.all(front)?;
        if has_unopened(&listing.skipped) {
            return Err(Refusal::NotUtf8);
        }
        if self.mode != Mode::Usual {
            for listed in listing.references.iter_mut() {
                listed.peeled = None;
            }
        }
        Ok(listing)
    }

    /// Returns the shortest name that the rules read as a reference (git-rev-parse,
    /// "--abbrev-ref").
    ///
    /// # Errors
    ///
    /// - `Reference` if a file was not read.
    /// - `OutOfMemory` if an allocation failed.
    pub fn shortest_name(&mut self, name: &[u8], strict: bool) -> Result<Vec<u8, A>, Refusal> {
        Ok(self.references.shortest(name, strict)?.to_vec(self.alloc)?)
    }

    /// Returns the full name of the reference to which this one leads: its own if it is not
    /// symbolic, or leads nowhere.
    ///
    /// # Errors
    ///
    /// - `Reference` if a file was not read.
    /// - `OutOfMemory` if an allocation failed.
    pub fn last_name(&mut self, name: &[u8]) -> Result<Vec<u8, A>, Refusal> {
        match self.references.follow(name)? {
            Some(reference) => Ok(reference.name),
            None => Ok(name.to_vec(self.alloc)?),
        }
    }

    /// Lists all references once, so that files are not read for each name that is shortened.
    ///
    /// # Errors
    ///
    /// - `Reference` if a file or a folder was not read.
    /// - `OutOfMemory` if an allocation failed.
    pub fn list_names_once(&mut self) -> Result<(), Refusal> {
        self.references.list_once()?;
        Ok(())
    }

    /// Returns what the HEAD of the work tree stands for, and the HEAD of each other one.
    ///
    /// # Errors
    ///
    /// - `Reference` if a file was not read.
    /// - `OutOfMemory` if an allocation failed.
    pub fn heads(&mut self) -> Result<Vec<ObjectId, A>, Refusal> {
        let mut ids = Vec::new(self.alloc);
        if let Some(reference) = self.references.follow(b"HEAD")? {
            ids.push(reference.id)?;
        }
        let found = self.references.worktree_heads()?;
        for id in found.iter() {
            ids.push(*id)?;
        }
        Ok(ids)
    }

    /// Returns what git would have printed on standard error so far.
    pub fn messages(&self) -> &[u8] {
        &self.messages
    }

    /// Forgets the messages, whether some are left out, which commits were checked, and what was read
    /// of `packed-refs`. A batch does so before each question.
    pub fn refresh(&mut self) {
        self.messages.clear();
        self.is_quiet = false;
        self.is_silent = false;
        self.history.reader.checked.clear();
        self.history.reader.error = None;
        self.references.refresh();
        // What was read without the commit-graph is not for the next question, which uses it.
        if self.history.reader.is_without_rows {
            self.history.reader.is_without_rows = false;
            self.history.forget(self.alloc);
        }
    }

    /// Returns why a commit was not read: what the object database says of it, if it is there.
    fn cause_of(&self, error: ReadError) -> Refusal {
        match (error, self.history.reader.error) {
            (ReadError::Failed(id), None | Some(gix_odb::Error::Missing(_))) if self.is_changed() =>
                Refusal::Replaced(id),
            (ReadError::Altered(_) | ReadError::Malformed(_) | ReadError::Failed(_), Some(cause)) =>
                Refusal::Object(cause),
            (error, _) => Refusal::from(error),
        }
    }

    /// Forgets the commits that were read, and goes on without the commit-graph, since it is damaged.
    pub(crate) fn leave_graph(&mut self)
        ensures loaded { self.new.loaded ≡ self.old.loaded }
        ensures mode { self.new.mode ≡ self.old.mode }
    {
        self.history.reader.is_without_rows = true;
        self.history.reader.damage = None;
        self.history.forget(self.alloc);
    }

    /// Answers a question about the history.
    ///
    /// Commits are read as the question needs them; in the mode `Whole` all that the question's
    /// commits reach is loaded first. If the commit-graph is damaged where it is needed, the answer
    /// is made again from objects, as git would read them without the file.
    ///
    /// # Errors
    ///
    /// - `Commit` if a commit was not read that the answer needs.
    /// - `OutOfMemory` if an allocation failed.
    pub fn ask<K: Beyond, Q: Question>(&mut self, question: &Q) -> Result<Q::Answer, Refusal>
        // The answer is right for every history that has the commits that were read, whatever lies
        // beyond them; in the mode `Whole` for the commits that were loaded.
        ensures means { IfOk result (Q.means question.now
            (answered_over self.new.loaded self.new.history.known.commits K.beyond)) }

        // In the mode `Authentic`, each commit that was read is what a content says whose hash is
        // its id, and has no generation number.
        ensures authentic { self.new.mode ≡ Authentic
            → IfOk result (λ _. AreFromObjects self.new.history.known.commits) }

        // The mode is unchanged.
        ensures mode { self.new.mode ≡ self.old.mode }
    {
        let answer = self.ask_in_mode::<K, Q>(question)?;
        match (self.mode, self.history.known.foreign()) {
            (Mode::Authentic, Some(id)) => Err(Refusal::from(ReadError::NotAuthentic(id))),
            _ => Ok(answer),
        }
    }

    /// Answers a question about the commits that the mode lets it read.
    fn ask_in_mode<K: Beyond, Q: Question>(&mut self, question: &Q) -> Result<Q::Answer, Refusal>
        ensures means { IfOk result (Q.means question.now
            (answered_over self.new.loaded self.new.history.known.commits K.beyond)) }
        ensures mode { self.new.mode ≡ self.old.mode }
    {
        if self.loaded.is_some() {
            return self.ask_loaded::<K, Q>(question);
        }
        match self.history.ask::<K, Q>(self.alloc, question) {
            Ok(answer) => Ok(answer),
            Err(_) if self.history.reader.damage.is_some() => {
                self.leave_graph();
                match self.history.ask::<K, Q>(self.alloc, question) {
                    Ok(answer) => Ok(answer),
                    Err(error) => Err(self.cause_of(error)),
                }
            }
            Err(error) => Err(self.cause_of(error)),
        }
    }

    /// Loads all that the commits of a question reach, and answers the question about it.
    fn ask_loaded<K: Beyond, Q: Question>(&mut self, question: &Q) -> Result<Q::Answer, Refusal>
        ensures means { IfOk result (Q.means question.now
            (answered_over self.new.loaded self.new.history.known.commits K.beyond)) }
        ensures mode { self.new.mode ≡ self.old.mode }
    {
        let mut tips = Vec::new(self.alloc);
        for number in 0..usize::MAX {
            let Some(id) = question.named(number) else {
                break;
            };
            tips.push(id)?;
        }
        let Some(loaded) = self.loaded.as_mut() else {
            return Err(Refusal::NotSupported(Unsupported::Form));
        };
        // What a question does not name is loaded when it wants it.
        loaded.load(self.alloc, &tips, &mut self.history.reader)?;
        match loaded.ask::<K, Q, _>(self.alloc, question, &mut self.history.reader) {
            Ok(answer) => Ok(answer),
            Err(error) => Err(self.cause_of(error)),
        }
    }

    /// Returns whether objects may be missing that a remote has promised (gitglossary, "promisor").
    pub fn is_partial(&self) -> bool {
        self.settings
            .value(b"extensions", None, b"partialclone")
            .is_some()
    }

    /// Returns whether commits are changed: by grafts, by replace references, or since the history
    /// is shallow. Otherwise no commit reaches a cycle, unless a commit-graph says so or contents name
    /// each other's hashes in a circle (`gix_authentic`).
    pub fn is_changed(&self) -> bool {
        !self.history.reader.changes.is_empty()
    }

    /// Returns whether ancestry is best asked early (`gix_range`): no commit is changed, and none has a
    /// generation number, since no commit-graph is used and nothing is loaded.
    pub fn asks_early(&self) -> bool {
        self.loaded.is_none() && self.history.reader.reads_only_objects()
    }

    /// Returns the parents and the date of a commit, and reads it if need be.
    ///
    /// # Errors
    ///
    /// - `Commit` if the commit was not read.
    /// - `OutOfMemory` if an allocation failed.
    pub fn entry(&mut self, id: ObjectId) -> Result<SourceCommit<A>, Refusal> {
        match self.history.commit(self.alloc, id) {
            Ok(commit) => Ok(commit),
            Err(_) if self.history.reader.damage.is_some() => {
                self.leave_graph();
                match self.history.commit(self.alloc, id) {
                    Ok(commit) => Ok(commit),
                    Err(error) => Err(self.cause_of(error)),
                }
            }
            Err(error) => Err(self.cause_of(error)),
        }
    }
}
