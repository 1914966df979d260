//! Opens the index and the working tree.

use git_session::session::Session;
use git_session::stop::{Stop, failed, fatal, joined, not_supported, unread};
use gix_discover::{PathKind, Places, Variable};
use gix_files::{FileError, Limit, System, read_file};
use gix_index::{Checks, Conversion, FileKind, Index, Statuses, WorkTree, add_conversion};
use std::io::Write;

/// Returns the top folder of the working tree; empty is the current one.
///
/// # Errors
///
/// `Fatal`, with git's message, if there is none.
pub(crate) fn top_of(session: &Session<'_>) -> Result<Vec<u8>, Stop> {
    let alloc = session.alloc;
    if let Some(top) = &session.repository.layout().work_tree {
        let path = if top.is_empty() { b"." } else { top.as_slice() };
        match session.files.place(path) {
            Ok(Some(place)) if place.kind == PathKind::Folder => {
                return Ok(top.as_slice().to_vec(alloc)?);
            }
            Ok(_) => {}
            Err(error) => return Err(unread(session.alloc, path, error)),
        }
    }
    Err(fatal(alloc, &[b"this operation must be run in a work tree"]))
}

/// Returns the path of the index file.
fn index_path(session: &Session<'_>, top: &[u8]) -> Result<Vec<u8>, Stop> {
    let alloc = session.alloc;
    match session.environment.get(Variable::IndexFile) {
        None => {
            let folder = &session.repository.layout().git_dir;
            Ok(joined(alloc, &[folder, b"/index"])?)
        }
        Some(path) if path.starts_with(b"/") || top.is_empty() => Ok(path.to_vec(alloc)?),
        Some(path) => Ok(joined(alloc, &[top, b"/", path])?),
    }
}

/// Returns the end for an index that is not read.
fn unparsed(session: &Session<'_>, error: gix_index::Error) -> Stop {
    if matches!(error, gix_index::Error::OutOfMemory) {
        return Stop::OutOfMemory;
    }
    let mut text = Vec::new(session.alloc);
    match write!(text, "{error}") {
        Ok(()) if error.is_not_supported() => not_supported(session.alloc, &[&text]),
        Ok(()) => failed(session.alloc, &[&text]),
        Err(_) => Stop::OutOfMemory,
    }
}

/// Returns the index, and when it was written. Without a file it has no entries.
pub(crate) fn read_index(session: &Session<'_>, top: &[u8]) -> Result<(Index, u32), Stop> {
    let alloc = session.alloc;
    let path = index_path(session, top)?;
    let status = match session.files.status(&path) {
        Ok(Some(status)) => status,
        Ok(None) => return Ok((Index::empty(alloc), 0)),
        Err(error) => return Err(unread(session.alloc, &path, error)),
    };
    if FileKind::of(status.mode) != FileKind::File {
        return Err(not_supported(
            alloc,
            &[b"an index that is a symbolic link is not supported"],
        ));
    }
    let mut bytes = Vec::new(alloc);
    if let Err(error) = read_file(&session.files, &path, Limit::Table, &mut bytes) {
        return Err(unread(session.alloc, &path, error));
    }
    match Index::parse(alloc, &bytes) {
        Ok(index) => Ok((index, status.mtime)),
        Err(error) => Err(unparsed(session, error)),
    }
}

/// Returns a boolean setting of the section `core`.
fn setting(session: &Session<'_>, key: &[u8], usual: bool) -> Result<bool, Stop> {
    let settings = session.repository.settings();
    match settings.boolean(session.alloc, b"core", None, key, usual) {
        Ok(value) => Ok(value),
        Err(_) => Err(not_supported(
            session.alloc,
            &[b"the setting core.", key, b" is not supported"],
        )),
    }
}

/// Returns whether a setting of the section `core` has this value.
fn has_value(session: &Session<'_>, key: &[u8], value: &[u8]) -> bool {
    match session.repository.settings().value(b"core", None, key) {
        Some(Some(text)) => text.eq_ignore_ascii_case(value),
        _ => false,
    }
}

/// Returns what is compared.
fn checks(session: &Session<'_>) -> Result<Checks, Stop> {
    let is_minimal = has_value(session, b"checkstat", b"minimal");
    let is_set = session
        .repository
        .settings()
        .value(b"core", None, b"checkstat")
        .is_some();
    if is_set && !is_minimal && !has_value(session, b"checkstat", b"default") {
        return Err(not_supported(
            session.alloc,
            &[b"the setting core.checkStat is not supported"],
        ));
    }
    Ok(Checks {
        mode: setting(session, b"filemode", true)?,
        ctime: setting(session, b"trustctime", true)?,
        owner: !is_minimal,
    })
}

/// Returns what git may do to any file together with the attributes in a file.
fn with_file(
    session: &Session<'_>,
    parts: &[&[u8]],
    conversion: Conversion,
) -> Result<Conversion, Stop> {
    let path = joined(session.alloc, parts)?;
    match add_conversion(session.alloc, &session.files, &path, conversion) {
        Ok(conversion) => Ok(conversion),
        Err(FileError::OutOfMemory) => Err(Stop::OutOfMemory),
        Err(_) => Ok(Conversion::Any),
    }
}

/// Returns what git may do to any file by the user's attributes (gitattributes).
fn with_user(session: &Session<'_>, conversion: Conversion) -> Result<Conversion, Stop> {
    let settings = session.repository.settings();
    if settings.value(b"core", None, b"attributesfile").is_some() {
        return Ok(Conversion::Any);
    }
    match session.environment.get(Variable::XdgConfigHome) {
        Some([]) | None => {}
        Some(folder) => return with_file(session, &[folder, b"/git/attributes"], conversion),
    }
    match session.environment.get(Variable::Home) {
        Some(folder) => with_file(session, &[folder, b"/.config/git/attributes"], conversion),
        None => Ok(conversion),
    }
}

/// Returns what git may do to any file by its settings.
fn conversion(session: &Session<'_>) -> Result<Conversion, Stop> {
    let has_line_ends = has_value(session, b"autocrlf", b"input")
        || setting(session, b"autocrlf", false)?;
    let conversion = if has_line_ends {
        Conversion::LineEnds
    } else {
        Conversion::Nothing
    };
    let conversion = with_file(session, &[b"/etc/gitattributes"], conversion)?;
    let conversion = with_user(session, conversion)?;
    let folder = &session.repository.layout().common_dir;
    with_file(session, &[folder, b"/info/attributes"], conversion)
}

/// Returns the working tree, and whether it is a sparse checkout.
pub(crate) fn open_tree<'s>(
    session: &Session<'s>,
    top: &[u8],
    written: u32,
) -> Result<(WorkTree<System<'s>>, bool), Stop> {
    let alloc = session.alloc;
    // A monitor of the file system says which files git looks at.
    if setting(session, b"fsmonitor", false)? {
        return Err(not_supported(alloc, &[b"the setting core.fsmonitor is not supported"]));
    }
    let checks = checks(session)?;
    let has_links = setting(session, b"symlinks", true)?;
    let conversion = conversion(session)?;
    let is_sparse = setting(session, b"sparsecheckout", false)?;
    let tree = WorkTree::new(
        alloc,
        session.files,
        top,
        checks,
        has_links,
        written,
        conversion,
    )?;
    Ok((tree, is_sparse))
}
