//! Compares names of references with patterns (git-for-each-ref, `<pattern>`).

use gix_discover::wildmatch::{Rules, is_match};
use std::alloc::{AllocError, Global};

/// Says how a name is compared with a pattern that has signs: as a path.
const RULES: Rules = Rules {
    ignores_case: false,
    is_path: true,
};

/// Returns what a pattern has before its first sign.
fn before_signs(pattern: &[u8]) -> &[u8] {
    let at = pattern
        .iter()
        .position(|b| matches!(*b, b'*' | b'?' | b'[' | b'\\'));
    match at {
        Some(at) => pattern.get(..at).unwrap_or(&[]),
        None => pattern,
    }
}

/// Returns the beginnings of the names that patterns can match, sorted. None begins with another.
/// Without a pattern it is the empty one.
pub(crate) fn fronts<'p>(
    alloc: Global,
    patterns: &[&'p [u8]],
) -> Result<Vec<&'p [u8]>, AllocError> {
    let mut all = Vec::new(alloc);
    for pattern in patterns {
        all.push(before_signs(pattern))?;
    }
    if all.is_empty() {
        all.push(b"".as_slice())?;
    }
    all.sort_unstable();
    outermost(alloc, &all)
}

/// Returns those of sorted texts that begin with no other one.
fn outermost<'p>(alloc: Global, sorted: &[&'p [u8]]) -> Result<Vec<&'p [u8]>, AllocError> {
    let mut found: Vec<&'p [u8]> = Vec::new(alloc);
    for text in sorted {
        let is_covered = match found.last() {
            Some(last) => text.starts_with(last),
            None => false,
        };
        if !is_covered {
            found.push(*text)?;
        }
    }
    Ok(found)
}

/// Tells whether a name is that of a pattern without signs, or lies below it.
fn is_below(pattern: &[u8], name: &[u8]) -> bool {
    match name.strip_prefix(pattern) {
        Some(rest) => rest.is_empty() || rest.starts_with(b"/") || pattern.ends_with(b"/"),
        None => false,
    }
}

/// Tells whether a name matches one of the patterns, or whether there is none.
///
/// # Errors
///
/// Fails if an allocation failed.
pub(crate) fn is_wanted(
    alloc: Global,
    patterns: &[&[u8]],
    name: &[u8],
) -> Result<bool, AllocError> {
    for pattern in patterns {
        if is_below(pattern, name) || is_match(alloc, pattern, name, RULES)? {
            return Ok(true);
        }
    }
    Ok(patterns.is_empty())
}
