//! Finds the branches that belong to a branch (gitrevisions, `[<branchname>]@{upstream}`,
//! `[<branchname>]@{push}`).

use crate::error::{Refusal, Unsupported};
use crate::names::{Named, read, unabbreviated};
use crate::repository::Repository;
use gix_base::hash::ObjectId;
use gix_discover::{is_fetch, is_push};
use gix_files::Folders;
use gix_ref::Reference;
use gix_spec::spec::parse::delegate::SiblingBranch;
use memchr::{memchr, memrchr};
use std::alloc::{AllocError, Allocator, Global};

/// Returns the name to which a refspec such as `+refs/heads/*:refs/remotes/origin/*` maps another;
/// `None` if it is about other names (git-fetch, "<refspec>").
fn mapped<A: Allocator>(
    alloc: A,
    refspec: &[u8],
    name: &[u8],
) -> Result<Option<Vec<u8, A>>, AllocError> {
    let refspec = refspec.strip_prefix(b"+".as_slice()).unwrap_or(refspec);
    let Some(colon) = memchr(b':', refspec) else {
        return Ok(None);
    };
    let from = unabbreviated(refspec.get(..colon).unwrap_or(&[]));
    let to = refspec.get(colon.saturating_add(1)..).unwrap_or(&[]);
    match (split_star(from), split_star(to)) {
        (None, None) if from == name => Ok(Some(to.to_vec(alloc)?)),
        (Some(from), Some(to)) => map_star(alloc, from, to, name),
        _ => Ok(None),
    }
}

/// Returns the refspec that is the value of a remote's setting `fetch` or `push`.
///
/// # Errors
///
/// Those of [`Repository::mapped_by`].
fn refspec_of<'a>(value: Option<&'a [u8]>, key: &[u8]) -> Result<&'a [u8], Refusal> {
    match value {
        Some(refspec) if refspec.starts_with(b"^") => {
            Err(Refusal::NotSupported(Unsupported::Refspec))
        }
        Some(refspec) if key == b"push".as_slice() && is_push(refspec) => Ok(refspec),
        Some(refspec) if key != b"push".as_slice() && is_fetch(refspec) => Ok(refspec),
        _ => Err(Refusal::Sibling),
    }
}

/// Returns the object of a reference that was looked up. One that is broken, or leads too far, counts
/// as none.
fn found_id<A: Allocator>(
    found: Result<Option<Reference<A>>, gix_ref::Error>,
) -> Result<Option<ObjectId>, Refusal> {
    match found {
        Ok(Some(reference)) => Ok(Some(reference.id)),
        Ok(None) | Err(gix_ref::Error::Broken(_) | gix_ref::Error::TooDeep(_)) => Ok(None),
        Err(error) => Err(Refusal::from(error)),
    }
}

/// Splits one side of a refspec at its star.
fn split_star(side: &[u8]) -> Option<(&[u8], &[u8])> {
    let star = memchr(b'*', side)?;
    Some((side.get(..star)?, side.get(star.checked_add(1)?..)?))
}

/// Puts what the star of one side stands for in the place of the other side's star.
fn map_star<A: Allocator>(
    alloc: A,
    from: (&[u8], &[u8]),
    to: (&[u8], &[u8]),
    name: &[u8],
) -> Result<Option<Vec<u8, A>>, AllocError> {
    let Some(rest) = name.strip_prefix(from.0) else {
        return Ok(None);
    };
    let Some(middle) = rest.strip_suffix(from.1) else {
        return Ok(None);
    };
    let mut mapped = to.0.to_vec(alloc)?;
    mapped.extend_from_slice(middle)?;
    mapped.extend_from_slice(to.1)?;
    Ok(Some(mapped))
}

/// Tests whether git reads no name here, since a part before a slash is empty or has dots alone.
fn is_odd_path(name: &[u8]) -> bool {
    let Some(slash) = memrchr(b'/', name) else {
        return false;
    };
    let folders = name.get(..slash).unwrap_or(&[]);
    folders
        .split(|b| *b == b'/')
        .any(|part| part.iter().all(|b| *b == b'.'))
}

/// Tests whether git reads `branch.<name>.merge` as a revision, or cuts it at a blank.
fn is_odd_merge(name: &[u8]) -> bool {
    name == b"@".as_slice()
        || name.windows(2).any(|two| two == b"@{".as_slice())
        || name.iter().any(|byte| *byte <= b' ')
}

/// Returns whether there are two names, and they are the same.
fn are_same<A: Allocator>(first: &Option<Vec<u8, A>>, second: &Option<Vec<u8, A>>) -> bool {
    match (first, second) {
        (Some(first), Some(second)) => first.as_slice() == second.as_slice(),
        _ => false,
    }
}

/// Returns the short name of a branch; `None` if another reference has the full name.
///
/// # Errors
///
/// `NotSupported` for a branch named `HEAD`, for which git takes the current one.
fn short_of(name: &[u8]) -> Result<Option<&[u8]>, Refusal> {
    match name.strip_prefix(b"refs/heads/".as_slice()) {
        Some(short) if short == b"HEAD".as_slice() => {
            Err(Refusal::NotSupported(Unsupported::Form))
        }
        short => Ok(short),
    }
}

/// The branch that belongs to a branch.
#[derive(Drop)]
pub struct Sibling<A: Allocator = Global> {
    /// Its full name.
    pub name: Vec<u8, A>,
    /// The object that it names; `None` if there is no such branch now.
    pub id: Option<ObjectId>,
}

impl<F: Folders + Drop, A: Allocator + Copy> Repository<F, A> {
    /// Returns the last value of a setting; `None` if there is none.
    ///
    /// # Errors
    ///
    /// `Sibling` if it has no `=`.
    fn setting(
        &self,
        section: &[u8],
        subsection: Option<&[u8]>,
        key: &[u8],
    ) -> Result<Option<&[u8]>, Refusal> {
        match self.settings.value(section, subsection, key) {
            Some(None) => Err(Refusal::Sibling),
            value => Ok(value.flatten()),
        }
    }

    /// Returns the first name to which one of a remote's refspecs maps another.
    ///
    /// git ignores the settings of a remote whose name begins with a slash.
    ///
    /// # Errors
    ///
    /// - `Sibling` if one of the values is not a refspec.
    /// - `NotSupported` if one begins with `^`, and leaves names out.
    /// - `OutOfMemory` if an allocation failed.
    fn mapped_by(
        &self,
        remote: &[u8],
        key: &[u8],
        name: &[u8],
    ) -> Result<Option<Vec<u8, A>>, Refusal> {
        if remote.starts_with(b"/") {
            return Ok(None);
        }
        let refspecs = self
            .settings
            .values(self.alloc, b"remote", Some(remote), key)?;
        let mut found = None;
        for refspec in refspecs.iter() {
            let refspec = refspec_of(*refspec, key)?;
            if found.is_none() {
                found = mapped(self.alloc, refspec, name)?;
            }
        }
        Ok(found)
    }

    /// Returns the remote and the branch there from which a local branch is merged, whose short
    /// name is `short` (git-config, `branch.<name>.remote`, `branch.<name>.merge`).
    ///
    /// # Errors
    ///
    /// - `Sibling` if a setting has no `=`.
    /// - `NotSupported` if the setting does not name the branch as it is.
    /// - `OutOfMemory` if an allocation failed.
    fn merged_from(&self, short: &[u8]) -> Result<Option<(&[u8], &[u8])>, Refusal> {
        let Some(remote) = self.setting(b"branch", Some(short), b"remote")? else {
            return Ok(None);
        };
        // Of several branches the first one is the upstream.
        let merged = self
            .settings
            .values(self.alloc, b"branch", Some(short), b"merge")?;
        match merged.first() {
            Some(Some(name)) if is_odd_merge(name) => {
                Err(Refusal::NotSupported(Unsupported::Merge))
            }
            Some(Some(name)) => Ok(Some((remote, *name))),
            Some(None) => Err(Refusal::Sibling),
            None => Ok(None),
        }
    }

    /// Returns the upstream branch of a local branch, whose short name is `short`: the branch to which
    /// the remote's settings `fetch` map the merged one. Without one, the branch of the remote `.` is
    /// what its name means here.
    fn upstream(&mut self, short: &[u8]) -> Result<Option<Vec<u8, A>>, Refusal> {
        let Some((remote, name)) = self.merged_from(short)? else {
            return Ok(None);
        };
        let mapped = self.mapped_by(remote, b"fetch", name)?;
        if mapped.is_some() || remote != b".".as_slice() {
            return Ok(mapped);
        }
        let name = name.to_vec(self.alloc)?;
        Ok(Some(self.meant_by(name)?))
    }

    /// Returns the full name of the reference that a name means by the rules of short names; the name
    /// itself if it means none or several.
    fn meant_by(&mut self, name: Vec<u8, A>) -> Result<Vec<u8, A>, Refusal> {
        let warns = self.warns_of_ambiguous_names();
        match self.references.short(&name)? {
            Some(named) if !(warns && named.is_ambiguous) => Ok(named.reference.name),
            _ => Ok(name),
        }
    }

    /// Returns the remote to which a branch is pushed (git-config, `branch.<name>.pushRemote`).
    fn push_remote(&self, short: &[u8]) -> Result<&[u8], Refusal> {
        if let Some(remote) = self.setting(b"branch", Some(short), b"pushremote")? {
            return Ok(remote);
        }
        if let Some(remote) = self.setting(b"remote", None, b"pushdefault")? {
            return Ok(remote);
        }
        match self.setting(b"branch", Some(short), b"remote")? {
            Some(remote) => Ok(remote),
            None if self.has_origin() => Ok(b"origin"),
            // git takes the only remote, and else this one.
            None => Err(Refusal::NotSupported(Unsupported::Push)),
        }
    }

    /// Returns whether a remote `origin` is configured.
    fn has_origin(&self) -> bool {
        for key in [b"url".as_slice(), b"pushurl", b"fetch", b"push", b"mirror"] {
            let value = self.settings.value(b"remote", Some(b"origin"), key);
            if value.is_some() {
                return true;
            }
        }
        false
    }

    /// Returns whether a remote says itself what is pushed to it.
    fn says_push(&self, remote: &[u8]) -> Result<bool, Refusal> {
        let settings = &self.settings;
        let refspecs = settings.values(self.alloc, b"remote", Some(remote), b"push")?;
        Ok(!refspecs.is_empty())
    }

    /// Returns whether all references are pushed to a remote (git-config, `remote.<name>.mirror`).
    fn is_mirror(&self, remote: &[u8]) -> Result<bool, Refusal> {
        let settings = &self.settings;
        match settings.boolean(self.alloc, b"remote", Some(remote), b"mirror", false) {
            Ok(is_mirror) => Ok(is_mirror),
            Err(_) => Err(Refusal::Sibling),
        }
    }

    /// Returns the branch that a branch is pushed to, as its remote's settings `push` say.
    fn pushed_by_refspec(
        &self,
        remote: &[u8],
        branch: &[u8],
    ) -> Result<Option<Vec<u8, A>>, Refusal> {
        match self.mapped_by(remote, b"push", branch)? {
            Some(mapped) => self.mapped_by(remote, b"fetch", &mapped),
            None => Ok(None),
        }
    }

    /// Returns the branch that a branch is pushed to.
    fn pushed(&mut self, branch: &[u8], short: &[u8]) -> Result<Option<Vec<u8, A>>, Refusal> {
        let remote = self.push_remote(short)?.to_vec(self.alloc)?;
        if self.says_push(&remote)? {
            self.pushed_by_refspec(&remote, branch)
        } else if self.is_mirror(&remote)? {
            self.mapped_by(&remote, b"fetch", branch)
        } else {
            self.pushed_by_default(&remote, branch, short)
        }
    }

    /// Returns the branch that a branch is pushed to (git-config, `push.default`).
    fn pushed_by_default(
        &mut self,
        remote: &[u8],
        branch: &[u8],
        short: &[u8],
    ) -> Result<Option<Vec<u8, A>>, Refusal> {
        let how = match self.setting(b"push", None, b"default")? {
            Some(how) => how.to_vec(self.alloc)?,
            None => b"simple".to_vec(self.alloc)?,
        };
        let how = how.as_slice();
        if how == b"upstream".as_slice() || how == b"tracking".as_slice() {
            return self.upstream(short);
        }
        let own = self.mapped_by(remote, b"fetch", branch)?;
        if how == b"current".as_slice() || how == b"matching".as_slice() {
            return Ok(own);
        }
        if how == b"simple".as_slice() {
            let upstream = self.upstream(short)?;
            return Ok(if are_same(&upstream, &own) { own } else { None });
        }
        if how == b"nothing".as_slice() {
            return Ok(None);
        }
        Err(Refusal::Sibling)
    }

    /// Returns the full name of the sibling of a branch, whose short name is `short`; `None` if none
    /// is configured.
    fn sibling_name(
        &mut self,
        short: &[u8],
        kind: SiblingBranch,
    ) -> Result<Option<Vec<u8, A>>, Refusal> {
        match kind {
            SiblingBranch::Upstream => self.upstream(short),
            SiblingBranch::Push => {
                let mut branch = b"refs/heads/".to_vec(self.alloc)?;
                branch.extend_from_slice(short)?;
                self.pushed(&branch, short)
            }
        }
    }

    /// Returns the sibling of the reference with this full name; `None` if it is no branch, or if no
    /// sibling is configured.
    ///
    /// # Errors
    ///
    /// - `Sibling` if a setting is malformed.
    /// - `NotSupported` if a setting does not name the sibling as it is.
    /// - Those of reading references, and of allocations.
    pub fn sibling_branch(
        &mut self,
        name: &[u8],
        kind: SiblingBranch,
    ) -> Result<Option<Sibling<A>>, Refusal> {
        let Some(short) = short_of(name)? else {
            return Ok(None);
        };
        let Some(name) = self.sibling_name(short, kind)? else {
            return Ok(None);
        };
        let id = found_id(self.references.follow(&name))?;
        Ok(Some(Sibling { name, id }))
    }

    /// Returns the remote and the branch there from which the reference with this full name is
    /// merged. The errors are those of [`Repository::sibling_branch`].
    pub fn merged_branch(&self, name: &[u8]) -> Result<Option<(&[u8], &[u8])>, Refusal> {
        match short_of(name)? {
            Some(short) => self.merged_from(short),
            None => Ok(None),
        }
    }

    /// Says why a branch has no sibling.
    fn no_sibling(&mut self, short: &[u8], kind: SiblingBranch) -> Result<Refusal, Refusal> {
        if kind == SiblingBranch::Push {
            // git has several reasons.
            return Ok(Refusal::NotSupported(Unsupported::Push));
        }
        if let Some((_, merge)) = self.merged_from(short)? {
            let merge = merge.to_vec(self.alloc)?;
            self.say(
                b"fatal: upstream branch '",
                &merge,
                b"' not stored as a remote-tracking branch",
            )?;
        } else if self.has_branch(short)? {
            self.say(b"fatal: no upstream configured for branch '", short, b"'")?;
        } else {
            self.say(b"fatal: no such branch: '", short, b"'")?;
        }
        Ok(Refusal::Fatal)
    }

    /// Returns whether there is a branch with this short name.
    fn has_branch(&mut self, short: &[u8]) -> Result<bool, Refusal> {
        let mut branch = b"refs/heads/".to_vec(self.alloc)?;
        branch.extend_from_slice(short)?;
        Ok(found_id(self.references.follow(&branch))?.is_some())
    }

    /// Returns what the sibling of a branch stands for, whose short name is `short`.
    ///
    /// Its settings count even if there is no such branch. As git does, it shortens the full name
    /// of the sibling, and reads it again by the rules.
    fn sibling(&mut self, short: &[u8], kind: SiblingBranch) -> Result<Named<A>, Refusal> {
        let Some(name) = self.sibling_name(short, kind)? else {
            return Err(self.no_sibling(short, kind)?);
        };
        let text = self.references.shortest(&name, false)?;
        match self.references.short(text)? {
            Some(named) => Ok(read(named)),
            None => Err(Refusal::Unknown),
        }
    }

    /// Returns what the sibling of the branch stands for whose short name is written.
    pub(crate) fn sibling_of(
        &mut self,
        written: &[u8],
        kind: SiblingBranch,
    ) -> Result<Named<A>, Refusal> {
        if is_odd_path(written) {
            Err(Refusal::Unknown)
        } else if unabbreviated(written) == b"HEAD".as_slice() {
            self.sibling_here(kind)
        } else {
            self.sibling(written, kind)
        }
    }

    /// Says that HEAD leads to no branch.
    fn no_branch(&mut self) -> Result<Named<A>, Refusal> {
        self.say(b"fatal: HEAD does not point to a branch", b"", b"")?;
        Err(Refusal::Fatal)
    }

    /// Returns what the sibling of the current branch stands for.
    pub(crate) fn sibling_here(&mut self, kind: SiblingBranch) -> Result<Named<A>, Refusal> {
        let Some(branch) = self.branch()? else {
            return self.no_branch();
        };
        match branch.strip_prefix(b"refs/heads/".as_slice()) {
            Some(short) => self.sibling(short, kind),
            None => self.no_branch(),
        }
    }
}
