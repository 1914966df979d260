//! Compares a text with a pattern (gitignore, "Pattern format"; git's wildmatch).
//!
//! The pattern becomes a list of parts. The parts that may come next are a set, which each byte of
//! the text moves on, so that no pattern makes the comparison slow.

mod class;

use class::{Class, read_class};
use std::alloc::{AllocError, Allocator};
use std::mem::swap;

/// Says how a text is compared with a pattern.
#[derive(Clone, Copy)]
pub struct Rules {
    /// Whether the case of letters does not count.
    pub ignores_case: bool,
    /// Whether the text is a path: only `**` matches a slash, and not `*`, `?` or a class.
    pub is_path: bool,
}

/// Is a part of a pattern.
#[derive(Clone, Copy)]
enum Part {
    /// This byte.
    Byte(u8),
    /// Any byte; of a path, any but a slash.
    One,
    /// A byte of a class; of a path, no slash.
    Class(Class),
    /// Any bytes; of a path, any but slashes.
    Star,
    /// Any bytes.
    Any,
    /// The next two parts, or neither.
    Optional,
}

impl Rules {
    /// Returns a byte as it is compared.
    fn folded(self, byte: u8) -> u8 {
        if self.ignores_case {
            byte.to_ascii_lowercase()
        } else {
            byte
        }
    }

    /// Tells whether a byte may stand for a part that is no single byte.
    fn is_free(self, byte: u8) -> bool {
        byte != b'/' || !self.is_path
    }
}

/// Adds the parts of stars at a place of a pattern. Returns how many bytes they have.
fn add_stars<A: Allocator>(
    pattern: &[u8],
    at: usize,
    rules: Rules,
    parts: &mut Vec<Part, A>,
) -> Result<usize, AllocError> {
    let rest = pattern.get(at..).unwrap_or(&[]);
    let count = match rest.iter().position(|b| *b != b'*') {
        Some(count) => count,
        None => rest.len(),
    };
    let before = pattern.get(..at).unwrap_or(&[]);
    let begins = rules.is_path && (before.is_empty() || before.ends_with(b"/"));
    let after = rest.get(count..).unwrap_or(&[]);
    if count > 1 && begins && after.starts_with(b"/") {
        add_folders(parts)?;
        return Ok(count.saturating_add(1));
    }
    if count > 1 && begins && (after.is_empty() || after.starts_with(b"\\/")) {
        parts.push(Part::Any)?;
    } else {
        parts.push(Part::Star)?;
    }
    Ok(count.max(1))
}

/// Adds the parts of any folders, unless they are the last ones: `**/**/` is `**/`.
fn add_folders<A: Allocator>(parts: &mut Vec<Part, A>) -> Result<(), AllocError> {
    if !matches!(
        parts.as_slice(),
        [.., Part::Optional, Part::Any, Part::Byte(b'/')]
    ) {
        parts.push(Part::Optional)?;
        parts.push(Part::Any)?;
        parts.push(Part::Byte(b'/'))?;
    }
    Ok(())
}

/// Returns the part at a place of a pattern, other than stars, and the place after it; `None` if git
/// takes no text for the pattern.
fn next_part(pattern: &[u8], at: usize, rules: Rules) -> Option<(Part, usize)> {
    let after = at.saturating_add(1);
    match pattern.get(at..)? {
        [b'?', ..] => Some((Part::One, after)),
        [b'\\', rest @ ..] => Some((Part::Byte(*rest.first()?), after.saturating_add(1))),
        [b'[', ..] => {
            let (class, end) = read_class(pattern, after, rules.ignores_case)?;
            Some((Part::Class(class), end))
        }
        [byte, ..] => Some((Part::Byte(rules.folded(*byte)), after)),
        [] => None,
    }
}

/// Returns the parts of a pattern; `None` if it matches no text of `len` bytes.
fn parts_of<A: Allocator>(
    alloc: A,
    pattern: &[u8],
    len: usize,
    rules: Rules,
) -> Result<Option<Vec<Part, A>>, AllocError> {
    let mut parts = Vec::new(alloc);
    let mut at = 0usize;
    let mut bytes = 0usize;
    for _ in 0..pattern.len() {
        if at >= pattern.len() {
            break;
        }
        if pattern.get(at) == Some(&b'*') {
            at = at.saturating_add(add_stars(pattern, at, rules, &mut parts)?);
            continue;
        }
        match next_part(pattern, at, rules) {
            Some((part, end)) if bytes < len => {
                parts.push(part)?;
                at = end;
            }
            _ => return Ok(None),
        }
        bytes = bytes.saturating_add(1);
    }
    Ok(Some(parts))
}

/// The parts that may come next, by their numbers. All are from `low` on, and before `high`.
#[derive(Drop)]
struct Places<A: Allocator> {
    marks: Vec<bool, A>,
    low: usize,
    high: usize,
}

impl<A: Allocator> Places<A> {
    /// Returns no places, for this many parts. The end of the pattern is a place as well.
    fn new(alloc: A, parts: usize) -> Result<Places<A>, AllocError> {
        let mut marks = Vec::new(alloc);
        marks.resize(parts.saturating_add(1), false)?;
        Ok(Places {
            marks,
            low: usize::MAX,
            high: 0,
        })
    }

    /// Tells whether a place is among them.
    fn has(&self, at: usize) -> bool {
        self.marks.get(at) == Some(&true)
    }

    /// Tells whether there are none.
    fn is_empty(&self) -> bool {
        self.low >= self.high
    }

    /// Adds a place, if there is one with this number.
    fn add(&mut self, at: usize) {
        if let Some(place) = self.marks.get_mut(at) {
            *place = true;
            self.low = self.low.min(at);
            self.high = self.high.max(at.saturating_add(1));
        }
    }

    /// Takes all places away.
    fn clear(&mut self) {
        if let Some(marks) = self.marks.as_mut_slice().get_mut(self.low..self.high) {
            marks.fill(false);
        }
        self.low = usize::MAX;
        self.high = 0;
    }

    /// Adds the places that need no further byte.
    fn add_ahead(&mut self, parts: &[Part]) {
        for at in self.low..parts.len() {
            if at >= self.high {
                break;
            }
            let next = at.saturating_add(1);
            match parts.get(at) {
                _ if !self.has(at) => {}
                Some(Part::Star | Part::Any) => self.add(next),
                Some(Part::Optional) => {
                    self.add(next);
                    self.add(at.saturating_add(3));
                }
                _ => {}
            }
        }
    }

    /// Adds the place to which a byte leads from one with this part.
    fn add_next(&mut self, part: Part, at: usize, byte: u8, rules: Rules) {
        let next = at.saturating_add(1);
        match part {
            Part::Byte(own) if own == byte => self.add(next),
            Part::One if rules.is_free(byte) => self.add(next),
            Part::Class(class) if rules.is_free(byte) && class.has(byte) => self.add(next),
            Part::Star if rules.is_free(byte) => self.add(at),
            Part::Any => self.add(at),
            _ => {}
        }
    }

    /// Becomes the places to which a byte leads from those of `from`.
    fn step(&mut self, parts: &[Part], from: &Places<A>, byte: u8, rules: Rules) {
        self.clear();
        for at in from.low..from.high {
            match parts.get(at) {
                Some(part) if from.has(at) => self.add_next(*part, at, byte, rules),
                _ => {}
            }
        }
        self.add_ahead(parts);
    }
}

/// Tells whether a text matches a pattern as a whole.
///
/// # Errors
///
/// Fails if an allocation failed.
pub fn is_match<A: Allocator + Copy>(
    alloc: A,
    pattern: &[u8],
    text: &[u8],
    rules: Rules,
) -> Result<bool, AllocError> {
    let Some(parts) = parts_of(alloc, pattern, text.len(), rules)? else {
        return Ok(false);
    };
    let mut places = Places::new(alloc, parts.len())?;
    let mut next = Places::new(alloc, parts.len())?;
    places.add(0);
    places.add_ahead(&parts);
    for byte in text {
        if places.is_empty() {
            break;
        }
        next.step(&parts, &places, rules.folded(*byte), rules);
        swap(&mut places, &mut next);
    }
    Ok(places.has(parts.len()))
}
