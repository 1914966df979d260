//! Reads the command line, the environment and the clock.

use crate::front::Front;
use git_session::integer::leading;
use git_session::stop::{Stop, failed, fatal, not_supported, refused, unread};
use gix_date::date::Time;
use gix_discover::{Environment, Variable};
use gix_files::FileError;
use gix_revwalk::Seed;
use std::alloc::AllocError;
use std::env::{Env, FillError};
use std::io::{self, ErrorKind};
use std::random::RandomSource;
use std::time::SystemTime;

/// Reads a word of the command line into a buffer of this size.
fn read_short(
    rt: &HostRuntime,
    place: usize,
    most: usize,
) -> Result<Result<Vec<u8>, FillError>, AllocError> {
    let mut bytes = Vec::new(rt.alloc());
    bytes.resize(most, 0u8)?;
    match rt.arg(place, bytes.as_mut_slice()) {
        Ok(n) => {
            bytes.truncate(n);
            Ok(Ok(bytes))
        }
        Err(error) => Ok(Err(error)),
    }
}

/// Reads the word of the command line at a place; `None` after the last.
fn read_word(rt: &HostRuntime, place: usize) -> Result<Option<Vec<u8>>, AllocError> {
    let mut most = 256usize;
    for _ in 0..usize::BITS {
        match read_short(rt, place, most)? {
            Ok(bytes) => return Ok(Some(bytes)),
            Err(FillError::NotPresent) => return Ok(None),
            Err(FillError::TooLong) => most = most.saturating_add(most),
        }
    }
    Err(AllocError)
}

/// Reads the words behind the name of the program.
pub fn read_words(rt: &HostRuntime) -> Result<Vec<Vec<u8>>, AllocError> {
    let mut words = Vec::new(rt.alloc());
    for place in 1..usize::MAX {
        match read_word(rt, place)? {
            Some(word) => words.push(word)?,
            None => break,
        }
    }
    Ok(words)
}

/// Returns what the system says of an error; `None` of one that folders seldom have.
fn reason(error: io::Error) -> Option<&'static [u8]> {
    match error.kind() {
        ErrorKind::NotFound => Some(b"No such file or directory"),
        ErrorKind::NotADirectory => Some(b"Not a directory"),
        ErrorKind::PermissionDenied => Some(b"Permission denied"),
        _ => None,
    }
}

/// Returns git's end for a folder of `-C` that is not entered, with the reason.
fn cannot_change<'t>(rt: &HostRuntime, folder: &'t [u8], reason: &'t [u8]) -> Stop {
    fatal(rt.alloc(), &[b"cannot change to '", folder, b"': ", reason])
}

/// Returns the end for a folder of `-C` that is not entered.
fn not_entered(rt: &HostRuntime, folder: &[u8], error: io::Error) -> Stop {
    match reason(error) {
        Some(reason) => cannot_change(rt, folder, reason),
        None => unread(rt.alloc(), folder, FileError::Failed(error.kind())),
    }
}

/// Goes to a folder of `-C`.
fn enter(rt: &HostRuntime, folder: &[u8]) -> Result<(), Stop> {
    let Ok(path) = str::from_utf8(folder) else {
        return Err(unread(rt.alloc(), folder, FileError::NotUtf8));
    };
    match rt.set_current_dir(path) {
        Ok(()) => Ok(()),
        Err(error) => Err(not_entered(rt, folder, error)),
    }
}

/// Goes to the folders of `-C`, one after another.
pub fn enter_all(rt: &HostRuntime, folders: &[&[u8]]) -> Result<(), Stop> {
    for folder in folders {
        enter(rt, folder)?;
    }
    Ok(())
}

/// Reads the environment, with what the options before the word say.
pub fn environment(rt: &HostRuntime, front: &Front<'_>) -> Result<Environment, Stop> {
    let mut environment = match Environment::read(rt.alloc(), rt) {
        Ok(environment) => environment,
        Err(error) => return Err(refused(rt.alloc(), &error)),
    };
    if let Some(folder) = front.git_dir {
        environment.set(rt.alloc(), Variable::GitDir, folder)?;
    }
    if let Some(folder) = front.work_tree {
        environment.set(rt.alloc(), Variable::WorkTree, folder)?;
    }
    if environment.get(Variable::WorkTree) == Some(b"".as_slice()) {
        return Err(not_supported(
            rt.alloc(),
            &[b"a work tree with an empty name is not supported"],
        ));
    }
    Ok(environment)
}

/// Returns a short variable of the environment; zero bytes if it is too long.
fn variable(rt: &HostRuntime, name: &str) -> Result<Option<Vec<u8>>, AllocError> {
    let mut bytes = Vec::new(rt.alloc());
    bytes.resize(64, 0u8)?;
    match rt.var(name, bytes.as_mut_slice()) {
        Ok(n) => bytes.truncate(n),
        Err(FillError::NotPresent) => return Ok(None),
        Err(FillError::TooLong) => {}
    }
    Ok(Some(bytes))
}

/// Tells whether a locale is one in which nothing is translated.
fn is_untranslated(locale: &[u8]) -> bool {
    locale == b"C".as_slice() || locale == b"POSIX".as_slice()
}

/// Tells whether git has no translation for a language.
fn is_english(language: &[u8]) -> bool {
    language.is_empty() || language.starts_with(b"C.") || language.starts_with(b"en")
}

/// Tells whether git writes English if `LANGUAGE` has these languages. The first that has a
/// translation counts.
fn are_english(languages: &[u8]) -> bool {
    for language in languages.split(|byte| *byte == b':') {
        if is_untranslated(language) {
            return true;
        }
        if !is_english(language) {
            return false;
        }
    }
    true
}

/// Tells whether git writes English in a locale.
fn speaks_english_in(rt: &HostRuntime, locale: &[u8]) -> Result<bool, AllocError> {
    if is_untranslated(locale) {
        return Ok(true);
    }
    match variable(rt, "LANGUAGE")? {
        Some(languages) if !languages.is_empty() => Ok(are_english(&languages)),
        _ => Ok(is_english(locale)),
    }
}

/// Tells whether git would write English (locale(7), gettext(3)).
pub fn speaks_english(rt: &HostRuntime) -> Result<bool, AllocError> {
    for name in ["LC_ALL", "LC_MESSAGES", "LANG"] {
        match variable(rt, name)? {
            Some(locale) if !locale.is_empty() => return speaks_english_in(rt, &locale),
            _ => {}
        }
    }
    Ok(true)
}

/// Returns a random seed; the default one if the system has no random bytes.
pub fn seed(rt: &HostRuntime) -> Seed {
    let mut bytes = [0; 8];
    match rt.fill_bytes(&mut bytes) {
        Ok(()) => Seed::new(u64::from_le_bytes(bytes)),
        Err(_) => Seed::default(),
    }
}

/// Returns the time of the clock, in seconds since 1970. If it is set to a time before 1970 it is
/// 1970.
fn clock(rt: &HostRuntime) -> Result<i64, Stop> {
    let Ok(time) = SystemTime::now(rt) else {
        return Err(failed(rt.alloc(), &[b"cannot read the clock"]));
    };
    match time.duration_since(SystemTime::UNIX_EPOCH) {
        Ok(since) => Ok(since.as_secs().cast_signed()),
        Err(_) => Ok(0),
    }
}

/// Returns the current time, which git reads from `GIT_TEST_DATE_NOW` if this is set.
pub fn now(rt: &HostRuntime) -> Result<Time, Stop> {
    let seconds = match variable(rt, "GIT_TEST_DATE_NOW")? {
        Some(text) => match leading(&text) {
            Some(seconds) => i64::from(seconds),
            None => {
                return Err(not_supported(
                    rt.alloc(),
                    &[b"this value of GIT_TEST_DATE_NOW is not supported"],
                ));
            }
        },
        None => clock(rt)?,
    };
    Ok(Time { seconds, offset: 0 })
}
