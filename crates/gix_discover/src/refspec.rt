//! Decides what is a refspec, or a namespace (gitnamespaces).

use memchr::memrchr;

/// Tells whether two bytes are beside each other somewhere.
fn has_pair(name: &[u8], first: u8, second: u8) -> bool {
    let mut last = 0u8;
    for byte in name {
        if last == first && *byte == second {
            return true;
        }
        last = *byte;
    }
    false
}

/// Tells whether all bytes may be in the name of a reference, in which there is one star at most.
fn are_plain(name: &[u8]) -> bool {
    let mut has_star = false;
    for byte in name {
        match *byte {
            0..=32 | 127 | b':' | b'?' | b'[' | b'\\' | b'^' | b'~' => return false,
            b'*' if has_star => return false,
            b'*' => has_star = true,
            _ => {}
        }
    }
    true
}

/// Tells whether all parts between slashes have a good beginning and end. They may be empty.
fn are_parts(name: &[u8]) -> bool {
    for part in name.split(|b| *b == b'/') {
        if part.starts_with(b".") || part.ends_with(b".lock") {
            return false;
        }
    }
    !name.ends_with(b"/")
        && !name.ends_with(b".")
        && !has_pair(name, b'.', b'.')
        && !has_pair(name, b'@', b'{')
}

/// Tells whether a text is the name of a reference, or a pattern with one star
/// (git-check-ref-format, `--allow-onelevel --refspec-pattern`).
fn is_name(name: &[u8]) -> bool {
    !matches!(name, [] | [b'@'] | [b'/', ..])
        && !has_pair(name, b'/', b'/')
        && are_plain(name)
        && are_parts(name)
}

/// Tells whether a text is a path of namespaces, or empty. Slashes may be beside each other, or begin
/// it, as in git.
pub(crate) fn is_namespace(path: &[u8]) -> bool {
    !path.contains(&b'*') && are_plain(path) && are_parts(path)
}

/// Tells whether the left side of a refspec is a name. `@` is `HEAD` there.
fn is_source(name: &[u8]) -> bool {
    name == b"@".as_slice() || is_name(name)
}

/// Splits a refspec at its last colon, if it has one.
fn sides(text: &[u8]) -> (&[u8], Option<&[u8]>) {
    match memrchr(b':', text) {
        Some(colon) => (
            text.get(..colon).unwrap_or(&[]),
            Some(text.get(colon.saturating_add(1)..).unwrap_or(&[])),
        ),
        None => (text, None),
    }
}

/// Tells whether a text is a refspec of `remote.NAME.fetch` that does not begin with `^`
/// (git-fetch, "<refspec>").
pub fn is_fetch(text: &[u8]) -> bool {
    let (from, to) = sides(text.strip_prefix(b"+").unwrap_or(text));
    let to = to.unwrap_or(&[]);
    let is_paired = from.contains(&b'*') == to.contains(&b'*');
    is_paired && (from.is_empty() || is_source(from)) && (to.is_empty() || is_name(to))
}

/// Tells whether a text is a refspec of `remote.NAME.push` that does not begin with `^`
/// (git-push, "<refspec>...").
pub fn is_push(text: &[u8]) -> bool {
    let text = text.strip_prefix(b"+").unwrap_or(text);
    if text == b":".as_slice() {
        return true;
    }
    let (from, to) = sides(text);
    let Some(to) = to else {
        return is_source(from);
    };
    let has_star = from.contains(&b'*');
    has_star == to.contains(&b'*') && (!has_star || is_name(from)) && is_name(to)
}
