//! Finds the repository of the current folder (git, "Environment variables"; git-worktree).
//!
//! # Algorithm
//!
//! 1. Look for `.git` and for a git folder in the current folder, then in `..`, `../..` and so on.
//!    The path of the current folder may have any bytes. It only says how often to go up, and where
//!    a ceiling is.
//! 2. A file `.git` leads to another folder, and `commondir` to the one that worktrees share
//!    (`gitfile.rt`).
//! 3. Compare the owner of the folders with the user (`owner.rt`). `safe.directory` counts only if
//!    it is in the files of the system or the user, or in the environment.
//! 4. Read `config` without its includes, for the version and the extensions (`format.rt`).

use crate::environment::{Environment, Variable};
use crate::error::{DiscoverError, Reason, about};
use crate::format::{Format, read_format};
use crate::gitfile::{Common, common_dir, is_git_dir, read_gitfile};
use crate::layout::Layout;
use crate::owner::{check_bare, check_named, is_own};
use crate::paths::{absolute, folder_of, is_absolute, resolved, within};
use crate::places::{PathKind, Places};
use crate::refspec::is_namespace;
use crate::source::{is_folder, is_known, place, reason_of};
use memchr::memrchr;
use std::alloc::Allocator;

/// Says how a git folder was found.
#[derive(Clone, Copy, PartialEq, Eq)]
enum Way {
    /// By `GIT_DIR`.
    Explicit,
    /// As `.git` in a folder.
    InFolder,
    /// As a folder that is the git folder itself.
    Bare,
}

/// Is a git folder that was found, in or above the current folder.
#[derive(Drop)]
struct Found<A: Allocator> {
    way: Way,
    git_dir: Vec<u8, A>,
    /// The path of the folder in which it was found, relative to the current one.
    top: Vec<u8, A>,
    /// How many bytes the absolute path of that folder has.
    top_len: usize,
}

/// Says what is needed to look for a repository.
#[derive_where(Clone, Copy)]
struct Search<'a, F: Places, A: Allocator + Copy> {
    alloc: A,
    files: &'a F,
    environment: &'a Environment<A>,
}

/// Returns the error about a file `.git` that leads to no repository. Its path is in `top`, whose
/// absolute path is `folder`.
fn leads_nowhere<A: Allocator + Copy>(
    alloc: A,
    folder: &[u8],
    top: &[u8],
    git_dir: &[u8],
) -> DiscoverError<A> {
    if is_absolute(git_dir) {
        return about(alloc, Reason::GitfileTarget, git_dir);
    }
    let rest = git_dir.get(top.len()..).unwrap_or(git_dir);
    match within(alloc, folder, rest.strip_prefix(b"/").unwrap_or(rest)) {
        Ok(path) => about(alloc, Reason::GitfileTarget, &path),
        Err(error) => DiscoverError::from(error),
    }
}

/// Returns the top folder of a work tree in which the current folder is, or else an empty path.
fn inside<A: Allocator>(work_tree: &Option<Vec<u8, A>>, is_inside: bool) -> &[u8] {
    match work_tree {
        Some(top) if is_inside => top.as_slice(),
        _ => &[],
    }
}

/// Returns what follows the path of a folder in the path of one that it is or has; `None` if it is
/// another one.
fn rest_below<'p>(path: &'p [u8], folder: &[u8]) -> Option<&'p [u8]> {
    match path.strip_prefix(folder)? {
        [] => Some(&[]),
        [b'/', rest @ ..] => Some(rest),
        rest if folder.ends_with(b"/") => Some(rest),
        _ => None,
    }
}

impl<'a, F: Places, A: Allocator + Copy> Search<'a, F, A> {
    /// Returns how many bytes the longest ceiling above the current folder has.
    fn ceiling(&self) -> Result<Option<usize>, DiscoverError<A>> {
        let Some(text) = self.environment.get(Variable::CeilingDirectories) else {
            return Ok(None);
        };
        let mut longest = None;
        let mut is_literal = false;
        for path in text.split(|b| *b == b':') {
            if path.is_empty() {
                is_literal = true;
            } else if is_absolute(path) {
                longest = longest.max(self.ceiling_len(path, is_literal)?);
            }
        }
        Ok(longest)
    }

    /// Returns how many bytes a ceiling has, if it is above the current folder.
    fn ceiling_len(
        &self,
        path: &[u8],
        is_literal: bool,
    ) -> Result<Option<usize>, DiscoverError<A>> {
        let mut real = Vec::new(self.alloc);
        if is_literal {
            real = absolute(self.alloc, b"", path)?;
        } else {
            match self.files.real_path(path, &mut real) {
                Ok(true) => {}
                Ok(false) => return Ok(None),
                Err(error) => return Err(about(self.alloc, reason_of(error), path)),
            }
        }
        let folder = self.environment.folder();
        if real.as_slice() == b"/".as_slice() {
            return Ok(Some(0).filter(|_| folder != b"/".as_slice()));
        }
        match folder.strip_prefix(real.as_slice()) {
            Some([b'/', ..]) => Ok(Some(real.len())),
            _ => Ok(None),
        }
    }

    /// Returns the number of the file system on which a folder is; empty is the current folder.
    fn device(&self, folder: &[u8]) -> Result<Option<u64>, DiscoverError<A>> {
        let path = if folder.is_empty() { b"." } else { folder };
        match place(self.alloc, self.files, path)? {
            Some(place) => Ok(Some(place.device)),
            None => Ok(None),
        }
    }

    /// Checks the owner of the paths of a repository, of which the first two may be missing.
    fn check_owner(
        &self,
        gitfile: Option<&[u8]>,
        top: Option<&[u8]>,
        git_dir: &[u8],
        folder: &[u8],
    ) -> Result<(), DiscoverError<A>> {
        let owned = self.is_own(gitfile)? && self.is_own(top)? && self.is_own(Some(git_dir))?;
        if owned {
            return Ok(());
        }
        check_named(self.alloc, self.files, self.environment, folder)
    }

    /// Tells whether a path, if there is one, belongs to the user.
    fn is_own(&self, path: Option<&[u8]>) -> Result<bool, DiscoverError<A>> {
        match path {
            Some(path) => is_own(self.alloc, self.files, self.environment, path),
            None => Ok(true),
        }
    }

    /// Looks for `.git` in a folder.
    fn in_folder(&self, top: &[u8], len: usize) -> Result<Option<Vec<u8, A>>, DiscoverError<A>> {
        let path = within(self.alloc, top, b".git")?;
        let folder = self.environment.folder().get(..len).unwrap_or(&[]);
        let own = if top.is_empty() { b"." } else { top };
        match place(self.alloc, self.files, &path)? {
            Some(place) if place.kind == PathKind::File => {
                let git_dir = read_gitfile(self.alloc, self.files, top, &path)?;
                if !is_git_dir(self.alloc, self.files, self.environment, &git_dir)? {
                    return Err(leads_nowhere(self.alloc, folder, top, &git_dir));
                }
                self.check_owner(Some(&path), Some(own), &git_dir, folder)?;
                Ok(Some(git_dir))
            }
            Some(_) if is_git_dir(self.alloc, self.files, self.environment, &path)? => {
                self.check_owner(None, Some(own), &path, folder)?;
                Ok(Some(path))
            }
            _ => Ok(None),
        }
    }

    /// Looks whether a folder is a git folder itself.
    fn as_folder(&self, top: &[u8], len: usize) -> Result<Option<Vec<u8, A>>, DiscoverError<A>> {
        let path = if top.is_empty() { b"." } else { top };
        if !is_git_dir(self.alloc, self.files, self.environment, path)? {
            return Ok(None);
        }
        let folder = self.environment.folder().get(..len).unwrap_or(&[]);
        check_bare(self.alloc, self.files, self.environment, folder)?;
        self.check_owner(None, None, path, folder)?;
        Ok(Some(path.to_vec(self.alloc)?))
    }

    /// Looks for a repository in one folder.
    fn at(&self, top: &[u8], len: usize) -> Result<Option<(Way, Vec<u8, A>)>, DiscoverError<A>> {
        if let Some(git_dir) = self.in_folder(top, len)? {
            return Ok(Some((Way::InFolder, git_dir)));
        }
        match self.as_folder(top, len)? {
            Some(git_dir) => Ok(Some((Way::Bare, git_dir))),
            None => Ok(None),
        }
    }

    /// Returns how many bytes the path of the parent of a folder has; `None` at the ceiling.
    fn parent_len(&self, len: usize, ceiling: Option<usize>) -> Option<usize> {
        if len <= 1 {
            return None;
        }
        let folder = self.environment.folder().get(..len)?;
        let slash = memrchr(b'/', folder)?;
        match ceiling {
            Some(ceiling) if slash <= ceiling => None,
            _ => Some(slash.max(1)),
        }
    }

    /// Looks in the current folder and then in each above it.
    fn upwards(&self) -> Result<Found<A>, DiscoverError<A>> {
        let ceiling = self.ceiling()?;
        let crosses = self
            .environment
            .is_set(Variable::DiscoveryAcrossFilesystem, false);
        let device = self.device(b"")?;
        let mut top = Vec::new(self.alloc);
        let mut len = self.environment.folder().len();
        for _ in 0..u64::MAX {
            if let Some((way, git_dir)) = self.at(&top, len)? {
                return Ok(Found {
                    way,
                    git_dir,
                    top,
                    top_len: len,
                });
            }
            match self.parent_len(len, ceiling) {
                Some(parent) => len = parent,
                None => break,
            }
            top.extend_from_slice(if top.is_empty() { b".." } else { b"/.." })?;
            if !crosses && self.device(&top)? != device {
                let folder = self.environment.folder().get(..len).unwrap_or(&[]);
                return Err(about(self.alloc, Reason::NoRepositoryUpToMount, folder));
            }
        }
        Err(DiscoverError::from(Reason::NoRepository))
    }

    /// Returns the git folder that `GIT_DIR` names.
    fn explicit(&self, path: &[u8]) -> Result<Found<A>, DiscoverError<A>> {
        let (git_dir, reason) = match place(self.alloc, self.files, path)? {
            Some(place) if place.kind == PathKind::File => {
                let git_dir = read_gitfile(self.alloc, self.files, folder_of(path), path)?;
                (git_dir, Reason::GitfileTarget)
            }
            _ => (path.to_vec(self.alloc)?, Reason::NotARepository),
        };
        if !is_git_dir(self.alloc, self.files, self.environment, &git_dir)? {
            return Err(about(self.alloc, reason, &git_dir));
        }
        Ok(Found {
            way: Way::Explicit,
            git_dir,
            top: Vec::new(self.alloc),
            top_len: self.environment.folder().len(),
        })
    }

    /// Finds the git folder.
    fn find(&self) -> Result<Found<A>, DiscoverError<A>> {
        match self.environment.get(Variable::GitDir) {
            Some([]) => Err(about(self.alloc, Reason::NotARepository, b"")),
            Some(path) => self.explicit(path),
            None => self.upwards(),
        }
    }

    /// Checks the path of a work tree, of which only the last name may be missing.
    fn check_work_tree(&self, path: &[u8]) -> Result<(), DiscoverError<A>> {
        if is_known(self.alloc, self.files, path)? {
            Ok(())
        } else {
            Err(about(self.alloc, Reason::NoWorkTree, path))
        }
    }

    /// Returns the work tree that `core.worktree` names. A relative path has to lead to a folder.
    fn configured_work_tree(
        &self,
        git_dir: &[u8],
        path: &[u8],
    ) -> Result<Vec<u8, A>, DiscoverError<A>> {
        let top = resolved(self.alloc, git_dir, path)?;
        if is_absolute(path) {
            self.check_work_tree(path)?;
        } else if path.is_empty()
            || !is_folder(self.alloc, self.files, &within(self.alloc, &top, b".")?)?
        {
            return Err(about(self.alloc, Reason::NoWorkTree, path));
        }
        Ok(top)
    }

    /// Returns the top folder of the work tree, as for `GIT_DIR`; `None` if there is none.
    fn explicit_work_tree(
        &self,
        git_dir: &[u8],
        format: &Format<A>,
        is_bare: bool,
    ) -> Result<Option<Vec<u8, A>>, DiscoverError<A>> {
        if let Some(path) = self.environment.get(Variable::WorkTree) {
            self.check_work_tree(path)?;
            return Ok(Some(path.to_vec(self.alloc)?));
        }
        if is_bare {
            return Ok(None);
        }
        if let Some(path) = &format.work_tree {
            return Ok(Some(self.configured_work_tree(git_dir, path)?));
        }
        if self.environment.is_set(Variable::ImplicitWorkTree, true) {
            Ok(Some(Vec::new(self.alloc)))
        } else {
            Ok(None)
        }
    }

    /// Tells whether a variable or the setting names a work tree.
    fn names_work_tree(&self, format: &Format<A>) -> bool {
        self.environment.get(Variable::WorkTree).is_some() || format.work_tree.is_some()
    }

    /// Returns the top folder of the work tree; `None` if there is none.
    fn work_tree(
        &self,
        found: &Found<A>,
        format: &Format<A>,
        is_bare: bool,
    ) -> Result<Option<Vec<u8, A>>, DiscoverError<A>> {
        if self.names_work_tree(format) || found.way == Way::Explicit {
            return self.explicit_work_tree(&found.git_dir, format, is_bare);
        }
        if found.way == Way::InFolder && !is_bare {
            Ok(Some(found.top.as_slice().to_vec(self.alloc)?))
        } else {
            Ok(None)
        }
    }

    /// Returns the path of the current folder below a folder, with a slash, or empty.
    ///
    /// Returns `None` if it is not below that folder.
    fn below(&self, folder: &[u8]) -> Result<Option<Vec<u8, A>>, DiscoverError<A>> {
        let Some(rest) = rest_below(self.environment.folder(), folder) else {
            return Ok(None);
        };
        let mut prefix = rest.to_vec(self.alloc)?;
        if !rest.is_empty() {
            prefix.push(b'/')?;
        }
        Ok(Some(prefix))
    }

    /// Tells whether the current folder, or the top of the work tree if the current folder is below
    /// it, is inside of the git folder. `prefix` is the path from that top to the current folder.
    ///
    /// As git does, it compares the path that was given if git goes nowhere, and the path without
    /// symbolic links if git goes to the top of the work tree, or has gone up to find the git folder.
    fn is_in_git_dir(
        &self,
        found: &Found<A>,
        format: &Format<A>,
        prefix: &[u8],
    ) -> Result<bool, DiscoverError<A>> {
        if found.way == Way::InFolder && !self.names_work_tree(format) {
            return Ok(false);
        }
        let folder = self.environment.folder();
        if prefix.is_empty() && found.top.is_empty() {
            return Ok(rest_below(folder, &found.git_dir).is_some());
        }
        let top = folder.get(..folder.len().saturating_sub(prefix.len()));
        let mut real = Vec::new(self.alloc);
        match self.files.real_path(&found.git_dir, &mut real) {
            Ok(is_there) => Ok(is_there && rest_below(top.unwrap_or(&[]), &real).is_some()),
            Err(error) => Err(about(self.alloc, reason_of(error), &found.git_dir)),
        }
    }

    /// Returns the path of the current folder in a work tree.
    fn prefix(&self, found: &Found<A>, top: &[u8]) -> Result<Option<Vec<u8, A>>, DiscoverError<A>> {
        if top.is_empty() {
            return Ok(Some(Vec::new(self.alloc)));
        }
        if top == found.top.as_slice() {
            let folder = self.environment.folder().get(..found.top_len);
            return self.below(folder.unwrap_or(&[]));
        }
        let mut real = Vec::new(self.alloc);
        match self.files.real_path(top, &mut real) {
            Ok(true) => self.below(&real),
            Ok(false) => Ok(None),
            Err(error) => Err(about(self.alloc, reason_of(error), top)),
        }
    }

    /// Returns the folders of objects that the environment adds.
    fn alternates(&self, top: &[u8]) -> Result<Vec<Vec<u8, A>, A>, DiscoverError<A>> {
        let mut list = Vec::new(self.alloc);
        let text = self
            .environment
            .get(Variable::AlternateObjectDirectories)
            .unwrap_or(&[]);
        for path in text.split(|b| *b == b':') {
            match path {
                [] | [b'#', ..] => {}
                [b'"', ..] => return Err(about(self.alloc, Reason::QuotedPath, path)),
                _ => list.push(resolved(self.alloc, top, path)?)?,
            }
        }
        Ok(list)
    }

    /// Returns the path of a file or folder, unless a variable names it. The path of a variable counts
    /// from `top`.
    fn part(
        &self,
        variable: Variable,
        top: &[u8],
        common_dir: &[u8],
        name: &[u8],
    ) -> Result<Vec<u8, A>, DiscoverError<A>> {
        match self.environment.get(variable) {
            Some(path) => Ok(resolved(self.alloc, top, path)?),
            None => Ok(within(self.alloc, common_dir, name)?),
        }
    }

    /// Fails if `GIT_NAMESPACE` is no namespace (gitnamespaces).
    fn check_namespace(&self) -> Result<(), DiscoverError<A>> {
        match self.environment.get(Variable::Namespace) {
            Some(path) if !is_namespace(path) => {
                Err(about(self.alloc, Reason::BadNamespace, path))
            }
            _ => Ok(()),
        }
    }

    /// Returns the layout of the repository that was found.
    fn layout(&self, found: &Found<A>) -> Result<Layout<A>, DiscoverError<A>> {
        let Common { path, is_named } = common_dir(
            self.alloc,
            self.files,
            self.environment,
            &found.git_dir,
        )?;
        let format = read_format(self.alloc, self.files, &found.git_dir, &path, is_named)?;
        let is_bare = format.is_bare == Some(true) && !is_named;
        let work_tree = self.work_tree(found, &format, is_bare)?;
        let prefix = match &work_tree {
            Some(top) => self.prefix(found, top)?,
            None => None,
        };
        let is_in_git_dir = match &prefix {
            Some(prefix) => self.is_in_git_dir(found, &format, prefix)?,
            None => false,
        };
        self.check_namespace()?;
        let top = inside(&work_tree, prefix.is_some());
        Ok(Layout {
            git_dir: found.git_dir.as_slice().to_vec(self.alloc)?,
            objects: self.part(Variable::ObjectDirectory, top, &path, b"objects")?,
            alternates: self.alternates(top)?,
            is_bare: format.is_bare != Some(false) && work_tree.is_none(),
            shallow: self.part(Variable::ShallowFile, top, &path, b"shallow")?,
            grafts: self.part(Variable::GraftFile, top, &path, b"info/grafts")?,
            worktree_config: format.worktree_config,
            common_dir: path,
            work_tree,
            prefix,
            is_in_git_dir,
        })
    }
}

/// Finds the repository of the current folder, and returns where its parts are.
///
/// `GIT_DIR` names the git folder. If it is not set, the current folder is looked at, and then each
/// folder above it, up to a ceiling or to another file system (git, "Environment variables").
///
/// # Errors
///
/// - `NoRepository` or `NoRepositoryUpToMount` if there is no repository.
/// - `NotARepository`, `GitfileTarget`, `GitfileFormat`, `GitfileNoPath`, `GitfileTooLarge` or
///   `EmptyCommonDir` if `GIT_DIR` or a file does not lead to one.
/// - `OtherCommonDir` if `GIT_COMMON_DIR` names another folder than the repository.
/// - `NoWorkTree` if `GIT_WORK_TREE` or `core.worktree` does not lead to a work tree.
/// - `BadNamespace` if `GIT_NAMESPACE` is no namespace.
/// - `DubiousOwnership` if it belongs to another user.
/// - `BareRepositoryRefused` or `BadBareRepository`, by `safe.bareRepository`.
/// - `FormatVersion`, `UnknownExtension`, `ExtensionNeedsVersion1`, `ObjectFormat` or `RefStorage` if
///   the format of the repository is not supported.
/// - Those of [`Settings::read`](crate::Settings::read) if a config file is refused; `BadBoolean` or
///   `BadNumber` if a setting of the format is. `BadBoolean` also if a variable has to be a boolean
///   and is none.
/// - `QuotedPath` if `GIT_ALTERNATE_OBJECT_DIRECTORIES` has a path in quotes.
/// - `NotUtf8` or `Failed` if a file or folder cannot be read.
/// - `OutOfMemory` if an allocation failed.
pub fn discover<F: Places, A: Allocator + Copy>(
    alloc: A,
    files: &F,
    environment: &Environment<A>,
) -> Result<Layout<A>, DiscoverError<A>> {
    environment.check_values(alloc)?;
    let search = Search {
        alloc,
        files,
        environment,
    };
    search.layout(&search.find()?)
}
