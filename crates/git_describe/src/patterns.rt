//! Tells which references `--match` and `--exclude` choose.

use crate::asked::Asked;
use git_session::stop::{Stop, not_supported};
use gix_discover::wildmatch::{Rules, is_match};
use std::alloc::Global;

/// Says that a pattern is compared as a whole: `*` matches a slash as well.
const RULES: Rules = Rules {
    ignores_case: false,
    is_path: false,
};

/// The classes that git knows by name, with what stands behind them.
static CLASSES: [&[u8]; 12] = [
    b"alnum:]",
    b"alpha:]",
    b"blank:]",
    b"cntrl:]",
    b"digit:]",
    b"graph:]",
    b"lower:]",
    b"print:]",
    b"punct:]",
    b"space:]",
    b"upper:]",
    b"xdigit:]",
];

/// Tells whether a text begins with the name of a class.
fn begins_with_class(text: &[u8]) -> bool {
    CLASSES.iter().any(|class| text.starts_with(class))
}

/// Tells whether each `[:` of a pattern begins a class with a name, and does not end a range.
fn is_plain(pattern: &[u8]) -> bool {
    let mut rest = pattern;
    let mut before = 0u8;
    for _ in 0..pattern.len() {
        if let Some(class) = rest.strip_prefix(b"[:") {
            if before == b'-' || !begins_with_class(class) {
                return false;
            }
        }
        let Some((first, after)) = rest.split_first() else {
            break;
        };
        before = *first;
        rest = after;
    }
    true
}

/// Ends if a pattern has a class that git reads in a way of its own.
pub(crate) fn refuse_odd(alloc: Global, patterns: &[&[u8]]) -> Result<(), Stop> {
    for pattern in patterns {
        if !is_plain(pattern) {
            return Err(not_supported(alloc, &[b"the pattern '", pattern, b"' is not supported"]));
        }
    }
    Ok(())
}

/// Tells whether a text matches one of some patterns.
fn matches_any(alloc: Global, patterns: &[&[u8]], text: &[u8]) -> Result<bool, Stop> {
    for pattern in patterns {
        if is_match(alloc, pattern, text, RULES)? {
            return Ok(true);
        }
    }
    Ok(false)
}

/// Returns what patterns are compared with: the name of a tag, or of a branch if any reference
/// counts. `None` if the reference does not count.
fn compared<'n>(asked: &Asked<'_>, name: &'n [u8]) -> Option<&'n [u8]> {
    if let Some(tag) = name.strip_prefix(b"refs/tags/") {
        return Some(tag);
    }
    if !asked.all {
        return None;
    }
    if !asked.has_patterns() {
        return Some(name);
    }
    match name.strip_prefix(b"refs/heads/") {
        Some(branch) => Some(branch),
        None => name.strip_prefix(b"refs/remotes/"),
    }
}

/// Tells whether a reference counts.
pub(crate) fn counts(alloc: Global, asked: &Asked<'_>, name: &[u8]) -> Result<bool, Stop> {
    let Some(text) = compared(asked, name) else {
        return Ok(false);
    };
    if matches_any(alloc, &asked.excluded, text)? {
        return Ok(false);
    }
    Ok(asked.matched.is_empty() || matches_any(alloc, &asked.matched, text)?)
}
