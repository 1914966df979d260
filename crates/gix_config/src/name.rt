//! Has the letters of names, and compares names.

ghost use Rattle.std.specs.Prelude.{◌≡◌, ◌≢◌, ◌↔◌, ◌++◌, ◌∷◌, ◌≤◌, ℕ, List, IsTrue, MatchOption, length};
ghost use Rattle.gix_config.specs.Names.{name_of};
ghost use Rattle.gix_config.specs.Values.{shown};

use std::alloc::{AllocError, Allocator};

/// Tells whether a byte is a blank, as git has them: space, tab, line feed or carriage return.
pub fn is_blank(byte: u8) -> bool {
    byte == b' ' || byte == b'\t' || byte == b'\n' || byte == b'\r'
}

/// Tells whether a byte may be in a section or a key: a letter, a digit or `-`.
pub(crate) fn is_name_byte(byte: u8) -> bool {
    byte.is_ascii_alphanumeric() || byte == b'-'
}

/// Returns how many bytes at the front of a text are in a key.
pub(crate) fn name_len(text: &[u8]) -> usize
    ensures { result ≤ length text.now }
{
    match text.iter().position(|b| !is_name_byte(*b)) {
        Some(len) => len,
        None => text.len(),
    }
}

/// Returns what follows a front of a text; `None` if the text does not begin with it.
fn after_front<'a>(text: &'a [u8], front: &[u8]) -> Option<&'a [u8]>
    ensures { MatchOption result ((rest : List ℕ) → text.now ≢ front.now ++ rest)
        (λ x. text.now ≡ front.now ++ x.now) }
{
    text.strip_prefix(front)
}

/// Returns what follows a part of a name and a dot.
fn after_part<'a>(name: &'a [u8], part: &[u8]) -> Option<&'a [u8]>
    ensures { MatchOption result ((rest : List ℕ) → name.now ≢ part.now ++ (46 ∷ rest))
        (λ x. name.now ≡ part.now ++ (46 ∷ x.now)) }
{
    match after_front(name, part) {
        Some(rest) => after_front(rest, b"."),
        None => None,
    }
}

/// Tells whether a name is a part and a key, with a dot between them.
fn is_pair(name: &[u8], part: &[u8], key: &[u8]) -> bool
    ensures { IsTrue result ↔ (name.now ≡ part.now ++ (46 ∷ key.now)) }
{
    match after_part(name, part) {
        Some(rest) => rest == key,
        None => false,
    }
}

/// Tells whether a name is a section, a subsection and a key, with dots between them.
fn is_triple(name: &[u8], section: &[u8], subsection: &[u8], key: &[u8]) -> bool
    ensures { IsTrue result
        ↔ (name.now ≡ section.now ++ (46 ∷ (subsection.now ++ (46 ∷ key.now)))) }
{
    match after_part(name, section) {
        Some(rest) => is_pair(rest, subsection, key),
        None => false,
    }
}

/// Tells whether a name has this section, this subsection, if there is one, and this key.
///
/// Letter case counts: names of settings have their section and their key in lower case.
pub fn is_name(name: &[u8], section: &[u8], subsection: Option<&[u8]>, key: &[u8]) -> bool
    // `true` exactly if the name is the section, the subsection if there is one, and the key, with
    // dots between them. Letter case counts.
    ensures { IsTrue result ↔ (name.now ≡ name_of section.now (shown subsection.entry) key.now) }
{
    match subsection {
        Some(subsection) => is_triple(name, section, subsection, key),
        None => is_pair(name, section, key),
    }
}

/// Adds bytes in lower case.
pub(crate) fn add_lower<A: Allocator>(
    name: &mut Vec<u8, A>,
    bytes: &[u8],
) -> Result<(), AllocError> {
    for byte in bytes {
        name.push(byte.to_ascii_lowercase())?;
    }
    Ok(())
}

/// Returns the name that a text outside of a file means: its section and its key in lower case.
///
/// Returns `None` if git refuses the text, as one without a dot or with an odd letter.
pub fn key_name<A: Allocator>(alloc: A, text: &[u8]) -> Result<Option<Vec<u8, A>>, AllocError> {
    let Some(last) = text.iter().rposition(|b| *b == b'.') else {
        return Ok(None);
    };
    let Some(first) = text.iter().position(|b| *b == b'.') else {
        return Ok(None);
    };
    let (front, key) = text.split_at(last);
    let section = front.get(..first).unwrap_or(front);
    let middle = front.get(first..).unwrap_or(&[]);
    let key = key.strip_prefix(b".").unwrap_or(key);
    if !are_parts(section, middle, key) {
        return Ok(None);
    }
    let mut name = Vec::new(alloc);
    add_lower(&mut name, section)?;
    name.extend_from_slice(middle)?;
    name.push(b'.')?;
    add_lower(&mut name, key)?;
    Ok(Some(name))
}

/// Tells whether git takes these parts of a key.
fn are_parts(section: &[u8], middle: &[u8], key: &[u8]) -> bool {
    let starts = match key.first() {
        Some(byte) => byte.is_ascii_alphabetic(),
        None => false,
    };
    starts
        && !section.is_empty()
        && name_len(section) == section.len()
        && name_len(key) == key.len()
        && !middle.contains(&b'\n')
}
