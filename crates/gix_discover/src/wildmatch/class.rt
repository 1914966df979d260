//! Reads a class of a pattern, such as `[a-z]` (gitignore, "Pattern format"; git's wildmatch).
//!
//! A class becomes the set of its bytes when the pattern is read. Each byte of the pattern is read
//! once, and so is each end of a named class.

use memchr::memchr;

/// The bytes that a class matches, one bit each.
#[derive(Clone, Copy)]
pub(crate) struct Class {
    words: [u64; 4],
    is_negated: bool,
}

/// A class with a name, such as `[:alpha:]`.
#[derive(Clone, Copy)]
enum Named {
    Alnum,
    Alpha,
    Blank,
    Cntrl,
    Digit,
    Graph,
    Lower,
    Print,
    Punct,
    Space,
    Upper,
    Xdigit,
}

/// The classes with their names.
static NAMES: [(&str, Named); 12] = [
    ("alnum", Named::Alnum),
    ("alpha", Named::Alpha),
    ("blank", Named::Blank),
    ("cntrl", Named::Cntrl),
    ("digit", Named::Digit),
    ("graph", Named::Graph),
    ("lower", Named::Lower),
    ("print", Named::Print),
    ("punct", Named::Punct),
    ("space", Named::Space),
    ("upper", Named::Upper),
    ("xdigit", Named::Xdigit),
];

/// A part of the text of a class.
#[derive(Clone, Copy)]
enum Member {
    One(u8),
    /// The bytes from the first to the last. There are none if the last is less.
    Range(u8, u8),
    Named(Named),
}

impl Named {
    /// Tells whether a byte is in the class.
    fn has(self, byte: u8) -> bool {
        match self {
            Named::Alnum => byte.is_ascii_alphanumeric(),
            Named::Alpha => byte.is_ascii_alphabetic(),
            Named::Blank => byte == b' ' || byte == b'\t',
            Named::Cntrl => byte.is_ascii_control(),
            Named::Digit => byte.is_ascii_digit(),
            Named::Graph => byte.is_ascii_graphic(),
            Named::Lower => byte.is_ascii_lowercase(),
            Named::Print => byte.is_ascii_graphic() || byte == b' ',
            Named::Punct => byte.is_ascii_punctuation(),
            Named::Space => byte.is_ascii_whitespace() || byte == 11,
            Named::Upper => byte.is_ascii_uppercase(),
            Named::Xdigit => byte.is_ascii_hexdigit(),
        }
    }
}

impl Member {
    /// Tells whether a byte is among those of the member.
    fn has(self, byte: u8) -> bool {
        match self {
            Member::One(own) => byte == own,
            Member::Range(from, to) => from <= byte && byte <= to,
            Member::Named(named) => named.has(byte),
        }
    }
}

impl Class {
    /// Tells whether the class matches a byte.
    pub(crate) fn has(&self, byte: u8) -> bool {
        let word = match self.words.get((byte / 64) as usize) {
            Some(word) => *word,
            None => 0,
        };
        ((word >> (byte % 64)) % 2 == 1) != self.is_negated
    }

    /// Adds a byte to those of the text.
    fn add(&mut self, byte: u8) {
        if let Some(word) = self.words.get_mut((byte / 64) as usize) {
            *word |= 1u64 << (byte % 64);
        }
    }

    /// Adds the bytes of a member. If case does not count, the text that is compared has small letters,
    /// and git takes a small letter also for the capital of a range or a named class.
    fn add_member(&mut self, member: Member, ignores_case: bool) {
        if let Member::One(byte) = member {
            self.add(byte);
            return;
        }
        for byte in 0..=u8::MAX {
            if member.has(byte) {
                self.add(byte);
                if ignores_case {
                    self.add(byte.to_ascii_lowercase());
                }
            }
        }
    }
}

/// Returns the member that begins with `[:`, and its length. `after` is what follows these bytes, and
/// `close` the number of bytes before the next `]` there. An unknown name is refused.
fn named_member(after: &[u8], close: usize) -> Option<(Member, usize)> {
    let Some(name) = after.get(..close)?.strip_suffix(b":") else {
        return Some((Member::One(b'['), 1));
    };
    let (_, named) = NAMES.iter().find(|(own, _)| own.as_bytes() == name)?;
    Some((Member::Named(*named), close.saturating_add(3)))
}

/// Returns the range from a byte on, of which a text has the rest, and the length of this rest.
fn range(from: u8, text: &[u8]) -> Option<(Member, usize)> {
    match text {
        [b'-', b'\\', to, ..] => Some((Member::Range(from, *to), 3)),
        [b'-', b'\\', ..] => None,
        [b'-', b']', ..] => None,
        [b'-', to, ..] => Some((Member::Range(from, *to), 2)),
        _ => None,
    }
}

/// Returns the first member of a text, and its length; `None` if git takes no text for the pattern.
///
/// `close` is the number of bytes before the next `]`.
fn first_member(text: &[u8], close: usize) -> Option<(Member, usize)> {
    match text {
        [b'\\', only, ..] => Some((Member::One(*only), 2)),
        [b'\\'] => None,
        [b'[', b':', after @ ..] => named_member(after, close.saturating_sub(2)),
        [only, ..] => Some((Member::One(*only), 1)),
        [] => None,
    }
}

/// Returns the next member of a text, as [`first_member`] does. `last` is the byte before it, if a range
/// can begin there.
fn next_member(text: &[u8], last: Option<u8>, close: usize) -> Option<(Member, usize)> {
    match last {
        Some(from) => match range(from, text) {
            Some(found) => Some(found),
            None => first_member(text, close),
        },
        None => first_member(text, close),
    }
}

/// Returns the place of the next `]` from a place of a pattern on.
fn next_close(pattern: &[u8], from: usize) -> Option<usize> {
    let len = memchr(b']', pattern.get(from..)?)?;
    Some(from.saturating_add(len))
}

/// Returns the class that begins at a place of a pattern, after its bracket, and the place after it.
///
/// Returns `None` if the class does not end, or has an unknown name. git then takes no text for the
/// pattern.
pub(crate) fn read_class(
    pattern: &[u8],
    from: usize,
    ignores_case: bool,
) -> Option<(Class, usize)> {
    let is_negated = matches!(pattern.get(from), Some(b'!' | b'^'));
    let begin = from.saturating_add(is_negated as usize);
    let mut class = Class {
        words: [0; 4],
        is_negated,
    };
    let mut at = begin;
    let mut close = next_close(pattern, begin)?;
    let mut last = None;
    for _ in begin..pattern.len() {
        if close < at {
            close = next_close(pattern, at)?;
        }
        if at == close && at > begin {
            return Some((class, at.saturating_add(1)));
        }
        let (member, len) = next_member(pattern.get(at..)?, last, close.saturating_sub(at))?;
        class.add_member(member, ignores_case);
        last = match member {
            Member::One(byte) => Some(byte),
            Member::Range(..) | Member::Named(_) => None,
        };
        at = at.saturating_add(len);
    }
    None
}
