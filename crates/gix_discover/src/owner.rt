//! Checks to whom a repository belongs (git-config, "safe.directory").

use crate::environment::{Environment, Variable};
use crate::error::{DiscoverError, Reason, about};
use crate::include::Reader;
use crate::paths::joined;
use crate::places::Places;
use crate::source::reason_of;
use gix_config::{Entry, decimal, is_name};
use std::alloc::Allocator;

/// Tells whether a path belongs to the user of the program, or to root's `SUDO_UID`.
pub(crate) fn is_own<F: Places, A: Allocator + Copy>(
    alloc: A,
    files: &F,
    environment: &Environment<A>,
    path: &[u8],
) -> Result<bool, DiscoverError<A>> {
    let owner = match files.link_place(path) {
        Ok(Some(place)) => place.owner,
        Ok(None) => return Ok(false),
        Err(error) => return Err(about(alloc, reason_of(error), path)),
    };
    let user = match files.own_user() {
        Ok(user) => user,
        Err(error) => return Err(about(alloc, reason_of(error), b"/proc/self")),
    };
    if user != 0 || owner == 0 {
        return Ok(owner == user);
    }
    let text = environment.get(Variable::SudoUid).unwrap_or(&[]);
    match decimal(text) {
        Some(user) => Ok(user == owner),
        None if text.is_empty() => Ok(false),
        // git reads more texts as a number.
        None => Err(about(alloc, Reason::BadNumber, b"SUDO_UID")),
    }
}

/// Returns a path of `safe.directory` with the home folder in place of `~`.
fn expanded<A: Allocator + Copy>(
    alloc: A,
    environment: &Environment<A>,
    path: &[u8],
) -> Result<Vec<u8, A>, DiscoverError<A>> {
    match (path, environment.get(Variable::Home)) {
        ([b'~'] | [b'~', b'/', ..], Some(home)) => {
            Ok(joined(alloc, home, b"", path.get(1..).unwrap_or(&[]))?)
        }
        ([b'~', ..], _) => Err(about(alloc, Reason::UnexpandedPath, path)),
        _ => Ok(path.to_vec(alloc)?),
    }
}

/// Tells whether the values of `safe.directory` name a folder. An empty value undoes those before.
fn is_named<A: Allocator + Copy>(
    alloc: A,
    environment: &Environment<A>,
    list: &[Entry<A>],
    folder: &[u8],
) -> Result<bool, DiscoverError<A>> {
    let mut found = false;
    for entry in list {
        if !is_name(&entry.name, b"safe", None, b"directory") {
            continue;
        }
        match &entry.value {
            None => found = false,
            Some(value) if value.is_empty() => found = false,
            Some(value) => {
                let path = expanded(alloc, environment, value)?;
                found = found || value.as_slice() == b"*".as_slice() || path.as_slice() == folder;
            }
        }
    }
    Ok(found)
}

/// Returns the settings in which no repository has a part.
fn protected<'a, F: Places, A: Allocator + Copy>(
    alloc: A,
    files: &'a F,
    environment: &'a Environment<A>,
) -> Result<Vec<Entry<A>, A>, DiscoverError<A>> {
    let reader = Reader {
        alloc,
        files,
        environment,
        known: None,
    };
    reader.protected()
}

/// Checks that `safe.directory` names a folder, whose path is absolute.
pub(crate) fn check_named<F: Places, A: Allocator + Copy>(
    alloc: A,
    files: &F,
    environment: &Environment<A>,
    folder: &[u8],
) -> Result<(), DiscoverError<A>> {
    let list = protected(alloc, files, environment)?;
    if is_named(alloc, environment, &list, folder)? {
        Ok(())
    } else {
        Err(about(alloc, Reason::DubiousOwnership, folder))
    }
}

/// Reads `safe.bareRepository`; true if it is not set.
fn allows_bare<A: Allocator + Copy>(alloc: A, list: &[Entry<A>]) -> Result<bool, DiscoverError<A>> {
    let mut allowed = true;
    for entry in list {
        if is_name(&entry.name, b"safe", None, b"barerepository") {
            allowed = match &entry.value {
                Some(value) if value.as_slice() == b"explicit".as_slice() => false,
                Some(value) if value.as_slice() == b"all".as_slice() => true,
                _ => return Err(about(alloc, Reason::BadBareRepository, &entry.name)),
            };
        }
    }
    Ok(allowed)
}

/// Checks that `safe.bareRepository` allows a bare repository that discovery found.
pub(crate) fn check_bare<F: Places, A: Allocator + Copy>(
    alloc: A,
    files: &F,
    environment: &Environment<A>,
    folder: &[u8],
) -> Result<(), DiscoverError<A>> {
    let list = protected(alloc, files, environment)?;
    if allows_bare(alloc, &list)? {
        Ok(())
    } else {
        Err(about(alloc, Reason::BareRepositoryRefused, folder))
    }
}
