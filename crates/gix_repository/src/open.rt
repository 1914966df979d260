//! Opens a repository.

ghost use Rattle.std.specs.Prelude.{◌≡◌, IfOk};

use crate::commits::{Changes, Commits};
use crate::repository::Repository;
use gix_base::hash::ObjectId;
use gix_date::date::Time;
use gix_discover::{
    Abbrev, DiscoverError, Environment, Layout, Places, Settings, SmallFileError, Variable,
    discover, grafts, shallow,
};
use gix_files::{FileError, Folders, Limit, read_file};
use gix_graph_rows::GraphRows;
use gix_history::{History, Loaded};
use gix_odb::Store;
use gix_ref::References;
use gix_revwalk::Seed;
use std::alloc::{AllocError, AllocFailed, Allocator, Global};
use std::collections::{BTreeMap, BTreeSet};

/// The id with zeros only, which no object has.
const ZEROS: ObjectId = ObjectId([0u8; 20]);

/// Where the references of replacements are, unless `GIT_REPLACE_REF_BASE` is set.
const REPLACEMENTS: &[u8] = b"refs/replace/";

/// Which files are believed.
#[derive(Clone, Copy, PartialEq, Eq)]
pub enum Mode {
    /// The commit-graph is, and so are changes of commits: grafts, replace references, shallow
    /// histories.
    Usual,
    /// Only objects are, and only if their SHA-1 is their id. Such a history is acyclic, unless
    /// contents name each other's hashes in a circle (`gix_authentic`).
    Authentic,
    /// As `Authentic`, and all that a question's commits reach is read first. Of the premises of an
    /// answer only *older parents* is left, for the depth of a description.
    Whole,
}

/// Why a repository is not opened.
#[derive(Drop)]
pub enum OpenError<A: Allocator = Global> {
    /// It is not found, or it or its settings are refused.
    Discover(DiscoverError<A>),
    /// The object database is not opened.
    Object(gix_odb::Error),
    /// References are not read.
    Reference(gix_ref::Error),
    /// The file `shallow` or `info/grafts` is not read, or is malformed.
    Changes,
    /// `GIT_REPLACE_REF_BASE`, or the name of a replacement, is none that git writes.
    Replacements,
    /// The file `shallow` or `info/grafts` changes an object that is no commit, or an object is
    /// replaced by one of another kind.
    WrongKind,
    /// Only objects are believed, and the repository changes commits.
    IsChanged,
    /// An allocation failed.
    OutOfMemory,
}

impl<A: Allocator> From<AllocError> for OpenError<A> {
    fn from(_e: AllocError) -> OpenError<A> {
        OpenError::OutOfMemory
    }
}

impl<T: Drop, A: Allocator> From<AllocFailed<T>> for OpenError<A> {
    fn from(_e: AllocFailed<T>) -> OpenError<A> {
        OpenError::OutOfMemory
    }
}

impl<A: Allocator> From<DiscoverError<A>> for OpenError<A> {
    fn from(error: DiscoverError<A>) -> OpenError<A> {
        OpenError::Discover(error)
    }
}

impl<A: Allocator> From<gix_odb::Error> for OpenError<A> {
    fn from(error: gix_odb::Error) -> OpenError<A> {
        OpenError::Object(error)
    }
}

impl<A: Allocator> From<gix_ref::Error> for OpenError<A> {
    fn from(error: gix_ref::Error) -> OpenError<A> {
        OpenError::Reference(error)
    }
}

impl<A: Allocator> From<FileError> for OpenError<A> {
    fn from(error: FileError) -> OpenError<A> {
        match error {
            FileError::OutOfMemory => OpenError::OutOfMemory,
            _ => OpenError::Changes,
        }
    }
}

impl<A: Allocator + Copy> Changes<A> {
    /// Takes the parents of the commits at which a shallow history ends (gitrepository-layout,
    /// "shallow").
    fn add_shallow<F: Folders>(
        &mut self,
        alloc: A,
        files: &F,
        path: &[u8],
    ) -> Result<(), OpenError<A>> {
        let mut text = Vec::new(alloc);
        read_file(files, path, Limit::Text, &mut text)?;
        match shallow(alloc, &text) {
            Ok(ids) => {
                for id in ids.iter() {
                    self.graft(*id, Vec::new(alloc))?;
                }
                Ok(())
            }
            Err(SmallFileError::OutOfMemory) => Err(OpenError::OutOfMemory),
            Err(_) => Err(OpenError::Changes),
        }
    }

    /// Gives commits the parents that `info/grafts` says (gitrepository-layout, "info/grafts").
    fn add_grafts<F: Folders>(
        &mut self,
        alloc: A,
        files: &F,
        path: &[u8],
    ) -> Result<(), OpenError<A>> {
        let mut text = Vec::new(alloc);
        read_file(files, path, Limit::Text, &mut text)?;
        // Of two lines about one commit git takes the first.
        for graft in grafts(alloc, &text)?.into_iter().rev() {
            self.graft(graft.id, graft.parents)?;
        }
        Ok(())
    }

    /// Puts an object in the place of the one that the name of a reference below `base` says.
    ///
    /// A name that does not begin with 40 digits says none. git reads the 40 bytes behind the last
    /// slash, so another base than its own, a further slash, or more than 40 digits is refused.
    fn add_named(&mut self, base: &[u8], name: &[u8], by: ObjectId) -> Result<(), OpenError<A>> {
        let name = name.get(base.len()..).unwrap_or(&[]);
        match ObjectId::from_hex(name.get(..40).unwrap_or(name)) {
            Ok(id) if name.len() == 40 => Ok(self.replace(id, by)?),
            Err(_) if base == REPLACEMENTS && !name.contains(&b'/') => Ok(()),
            _ => Err(OpenError::Replacements),
        }
    }

    /// Puts objects in the place of others, as the references below `base` say (git-replace).
    ///
    /// A broken reference replaces an object by none, so that the object is not read, as in git.
    fn add_replaced<F: Folders + Drop>(
        &mut self,
        references: &mut References<F, A>,
        base: &[u8],
    ) -> Result<(), OpenError<A>> {
        if !base.starts_with(b"refs/") || !base.ends_with(b"/") {
            return Err(OpenError::Replacements);
        }
        let listing = references.all(base)?;
        for listed in listing.references.iter() {
            self.add_named(base, &listed.name, listed.id)?;
        }
        for skipped in listing.skipped.iter() {
            self.add_named(base, &skipped.name, ZEROS)?;
        }
        Ok(())
    }
}

/// Returns what a repository changes.
fn changes_of<F: Folders + Drop, A: Allocator + Copy>(
    alloc: A,
    files: &F,
    environment: &Environment<A>,
    layout: &Layout<A>,
    settings: &Settings<A>,
    references: &mut References<F, A>,
) -> Result<Changes<A>, OpenError<A>> {
    let mut changes = Changes::new(alloc);
    // A commit in both files has no parents, as in git.
    changes.add_grafts(alloc, files, &layout.grafts)?;
    // With an empty name there is no such file, as in git.
    if environment.get(Variable::ShallowFile) != Some(b"".as_slice()) {
        changes.add_shallow(alloc, files, &layout.shallow)?;
    }
    let is_switched_off = environment.get(Variable::NoReplaceObjects).is_some();
    if settings.uses_replace_refs(alloc)? && !is_switched_off {
        let base = environment.get(Variable::ReplaceRefBase);
        changes.add_replaced(references, base.unwrap_or(REPLACEMENTS))?;
    }
    Ok(changes)
}

/// Fails if only objects are believed, and the repository changes commits.
fn expect_unchanged<A: Allocator + Copy>(
    changes: &Changes<A>,
    mode: Mode,
) -> Result<(), OpenError<A>> {
    if mode != Mode::Usual && !changes.is_empty() {
        Err(OpenError::IsChanged)
    } else {
        Ok(())
    }
}

/// Opens the commit-graph. As git does, it passes over one that cannot be used.
fn rows_of<F: Folders + Drop, A: Allocator + Copy>(
    alloc: A,
    files: F,
    objects: &[u8],
) -> Result<Option<GraphRows<F, A>>, OpenError<A>> {
    match GraphRows::open(alloc, files, objects) {
        Ok(rows) => Ok(rows),
        Err(gix_graph_rows::Error::OutOfMemory) => Err(OpenError::OutOfMemory),
        Err(_) => Ok(None),
    }
}

/// Opens the object database.
fn store_of<F: Folders + Drop, A: Allocator + Copy>(
    alloc: A,
    files: F,
    layout: &Layout<A>,
) -> Result<Store<F, A>, OpenError<A>> {
    let mut more = Vec::new(alloc);
    for path in layout.alternates.iter() {
        more.push(path.as_slice())?;
    }
    Ok(Store::open_with(alloc, files, &layout.objects, &more)?)
}

/// Opens the object database, in which the objects of all changes have to be of the right kind.
fn sound_store<F: Folders + Copy + Drop, A: Allocator + Copy>(
    alloc: A,
    files: F,
    layout: &Layout<A>,
    changes: &Changes<A>,
) -> Result<Store<F, A>, OpenError<A>> {
    let mut store = store_of(alloc, files, layout)?;
    if changes.are_of_right_kind(alloc, &mut store)? {
        Ok(store)
    } else {
        Err(OpenError::WrongKind)
    }
}

/// Opens the commit-graph, if commits may be read from it.
fn usable_rows<F: Folders + Copy + Drop, A: Allocator + Copy>(
    alloc: A,
    files: F,
    layout: &Layout<A>,
    settings: &Settings<A>,
    changes: &Changes<A>,
    mode: Mode,
) -> Result<Option<GraphRows<F, A>>, OpenError<A>> {
    if mode == Mode::Usual && changes.is_empty() && settings.uses_commit_graph(alloc)? {
        rows_of(alloc, files, &layout.objects)
    } else {
        Ok(None)
    }
}

/// Opens what commits are read from. Fails if only objects are believed, and the repository changes
/// commits.
fn commits_of<F: Folders + Copy + Drop, A: Allocator + Copy>(
    alloc: A,
    files: F,
    layout: &Layout<A>,
    settings: &Settings<A>,
    changes: Changes<A>,
    mode: Mode,
) -> Result<Commits<F, A>, OpenError<A>> {
    expect_unchanged(&changes, mode)?;
    let store = sound_store(alloc, files, layout, &changes)?;
    let rows = usable_rows(alloc, files, layout, settings, &changes, mode)?;
    Ok(Commits {
        alloc,
        store,
        rows,
        changes,
        error: None,
        damage: None,
        is_without_rows: false,
        checked: BTreeSet::new(alloc),
    })
}

/// What a repository is opened with.
#[derive(Clone, Copy)]
pub struct Opening {
    /// The memory of refusals, which take none.
    pub refusals: Global,
    /// The seed of hash maps over ids. A program takes a random one.
    pub seed: Seed,
    /// The moment from which relative dates count.
    pub now: Time,
    pub mode: Mode,
}

impl<F: Folders + Drop, A: Allocator + Copy> Repository<F, A> {
    /// Makes a repository of which nothing was asked so far.
    fn made(
        alloc: A,
        opening: Opening,
        layout: Layout<A>,
        settings: Settings<A>,
        references: References<F, A>,
        commits: Commits<F, A>,
    ) -> Repository<F, A>
        ensures mode { result.mode ≡ opening.mode }
    {
        Repository {
            alloc,
            refusals: opening.refusals,
            seed: opening.seed,
            now: opening.now,
            abbrev: Abbrev::Auto,
            warns: true,
            is_quiet: false,
            is_silent: false,
            layout,
            settings,
            references,
            history: History::new(alloc, opening.seed, commits),
            mode: opening.mode,
            loaded: match opening.mode {
                Mode::Whole => Some(Loaded::new(alloc, opening.seed)),
                _ => None,
            },
            tags: BTreeMap::new(alloc),
            peeled: BTreeMap::new(alloc),
            messages: Vec::new(alloc),
        }
    }
}

impl<F: Places + Copy + Drop, A: Allocator + Copy> Repository<F, A> {
    /// Opens the repository of the current folder, as `environment` says where it is.
    ///
    /// # Errors
    ///
    /// - `Discover` if it is not found, or if it or its settings are refused.
    /// - `Object`, `Reference` or `Changes` if files were not read.
    /// - `Replacements` if replacements are named as git does not name them.
    /// - `WrongKind` if a change is about an object of another kind.
    /// - `IsChanged` if commits are changed, and only objects are believed.
    /// - `OutOfMemory` if an allocation failed.
    pub fn open(
        alloc: A,
        files: F,
        environment: &Environment<A>,
        opening: Opening,
    ) -> Result<Repository<F, A>, OpenError<A>>
        // Questions are asked in the mode that was passed.
        ensures mode { IfOk result (λ repository. repository.mode ≡ opening.mode) }
    {
        let layout = discover(alloc, &files, environment)?;
        let settings = Settings::read(alloc, &files, environment, &layout)?;
        let mut references = References::open(alloc, files, &layout.git_dir, &layout.common_dir)?;
        let changes = changes_of(
            alloc,
            &files,
            environment,
            &layout,
            &settings,
            &mut references,
        )?;
        let commits = commits_of(alloc, files, &layout, &settings, changes, opening.mode)?;
        let mut repository = Repository::made(
            alloc, opening, layout, settings, references, commits,
        );
        repository.abbrev = repository.settings.abbrev(alloc)?;
        repository.warns = repository.settings.warns_ambiguous_refs(alloc)?;
        Ok(repository)
    }
}
