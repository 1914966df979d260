//! Reads texts in braces.

ghost use Rattle.std.specs.Prelude.{◌≡◌, ℕ, ◌<◌, ◌+◌, ◌==◌, ◌&&◌, ◌||◌, not, cond, true, [], ◌∷◌, ◌++◌, length};
ghost use Rattle.std.specs.Prelude.{IfSome, IfNone, IfOk};
ghost use Rattle.gix_spec.specs.Marks.{brace, starts_with};
ghost use Rattle.gix_spec.specs.Braces.{is_special, has_escape, meant_of};
ghost use Rattle.gix_spec.specs.Opens.{IsLevel, IsClose, Opens, unopened_error};
ghost use Rattle.gix_spec.specs.Parens.{ParensGives};

use super::Error;
use super::fault::Fault;
use std::alloc::{AllocError, Allocator};
use std::borrow::CowSlice;

/// Tests whether a backslash escapes the byte.
fn is_special(byte: u8) -> bool
    ensures { result ≡ is_special byte }
{
    byte == b'{' || byte == b'}' || byte == b'\\'
}

// In this file, `escaping` says that an escape precedes the byte.

/// Tests whether the byte is escaped.
fn is_escaped(byte: u8, escaping: bool) -> bool
    ensures { result ≡ (is_special byte && escaping) }
{
    is_special(byte) && escaping
}

/// Tests whether a byte so far was escaped, or this one is.
fn escapes_so_far(escapes: bool, byte: u8, escaping: bool) -> bool
    ensures { result ≡ (escapes || (is_special byte && escaping)) }
{
    escapes || is_escaped(byte, escaping)
}

/// Tests whether the byte is a backslash that may escape the next byte.
fn begins_escape(byte: u8, escaping: bool) -> bool
    ensures { result ≡ ((byte == 92) && not escaping) }
{
    byte == b'\\' && !escaping
}

/// Returns 1 if the byte is this mark and is not escaped, else 0.
fn counted(byte: u8, mark: u8, escaping: bool) -> usize
    ensures { result ≡ cond ((byte == mark) && not (is_special byte && escaping)) 1 0 }
{
    if byte == mark && !is_escaped(byte, escaping) {
        1
    } else {
        0
    }
}

/// Tests whether a text begins with an opening brace.
pub(crate) fn begins(text: &[u8]) -> bool
    ensures { result ≡ starts_with brace text.now }
{
    matches!(text, [b'{', ..])
}

/// The place where a pair of braces closes, and whether a byte of the pair is escaped.
#[derive(Clone, Copy)]
struct Close {
    place: usize,
    escapes: bool,
}

/// Finds the place where the pair at the front of a text closes.
fn find_close(text: &[u8]) -> Option<Close>
    requires { starts_with brace text.now ≡ true }
    ensures place { IfSome result (λ c. IsClose text.now c.place) }
    ensures behind { IfSome result (λ c. 0 < c.place) }
    ensures escapes { IfSome result (λ c. c.escapes ≡ has_escape text.now (c.place + 1)) }
    ensures none { IfNone result
        ((k : ℕ) → k < length text.now → IsLevel text.now k → ⊥) }
{
    let mut open: usize = 0;
    let mut escaping = false;
    let mut escapes = false;
    for (place, byte) in text.iter().enumerate() {
        let opened = counted(*byte, b'{', escaping);
        let closed = counted(*byte, b'}', escaping);
        open = open + opened - closed;
        escapes = escapes_so_far(escapes, *byte, escaping);
        if open == 0 {
            return Some(Close { place, escapes });
        }
        escaping = begins_escape(*byte, escaping);
    }
    None
}

/// Appends the byte, unless it is left out.
fn push_unless<A: Allocator>(
    left_out: bool,
    byte: u8,
    bytes: &mut Vec<u8, A>,
) -> Result<(), AllocError>
    ensures { IfOk result (λ x. bytes.new.items
        ≡ bytes.old.items ++ cond left_out [] (byte ∷ [])) }
{
    if left_out {
        return Ok(());
    }
    bytes.push(byte)?;
    Ok(())
}

/// Copies the first `len` bytes after the opening brace, without the backslashes that escape.
fn without_escapes<A: Allocator>(
    alloc: A,
    text: &[u8],
    len: usize,
) -> Result<Vec<u8, A>, AllocError>
    requires begins { starts_with brace text.now ≡ true }
    requires room { len + 1 < length text.now }
    ensures { IfOk result (λ v. v.items ≡ meant_of text.now len) }
{
    let mut meant = Vec::new(alloc);
    let mut escaping = false;
    for place in 0..len {
        escaping = begins_escape(text[place + 1], escaping);
        let left_out = is_escaped(text[place + 2], escaping);
        push_unless(left_out, text[place + 1], &mut meant)?;
    }
    Ok(meant)
}

/// The contents of a pair of braces: the text as it is written, the text without escapes, whether
/// an escape was removed, and the text after the pair.
#[derive(Drop)]
pub(crate) struct Braced<'a, A: Allocator> {
    pub(crate) raw: &'a [u8],
    pub(crate) meant: CowSlice<'a, u8, A>,
    pub(crate) escapes: bool,
    pub(crate) rest: &'a [u8],
}

/// Why a pair of braces could not be read.
#[derive(Clone, Copy)]
pub(crate) enum Unopened {
    /// The pair never closes.
    Unclosed,
    /// The pair has an escape, and the allocation of the text without escapes failed.
    OutOfMemory,
}

impl Unopened {
    /// Returns the error for a text that begins with a brace.
    pub(crate) fn error(self, text: &[u8]) -> Error<'_>
        ensures { result ≡ unopened_error self text.entry }
    {
        match self {
            Unopened::Unclosed => Error::Refused {
                fault: Fault::UnclosedBrace,
                input: Some(text),
                first: None,
                second: None,
            },
            Unopened::OutOfMemory => Error::OutOfMemory,
        }
    }
}

/// Reads the pair of braces at the front of a text. Copies the inner text only to remove an escape.
pub(crate) fn opened<A: Allocator>(alloc: A, text: &[u8]) -> Result<Braced<'_, A>, Unopened>
    requires { starts_with brace text.now ≡ true }
    ensures { Opens text.now result }
{
    let Some(Close { place, escapes }) = find_close(text) else {
        return Err(Unopened::Unclosed);
    };
    let raw = &text[1..place];
    let rest = &text[place + 1..];
    if !escapes {
        return Ok(Braced {
            raw,
            meant: CowSlice::Borrowed(raw),
            escapes,
            rest,
        });
    }
    let Ok(copied) = without_escapes(alloc, text, place - 1) else {
        return Err(Unopened::OutOfMemory);
    };
    Ok(Braced {
        raw,
        meant: CowSlice::Owned(copied),
        escapes,
        rest,
    })
}

/// Returns the pair of braces at the front of a text: inner text, rest, and length of the pair.
///
/// The length counts both braces and all backslashes. The answer is `None` if the first byte is not
/// `{`. A backslash before `{`, `}` or a backslash is an escape: the inner text omits it, and takes
/// the byte after it as it is, so that a brace there neither opens nor closes a pair. See
/// gitrevisions, `<rev>^{<type>}` and `<refname>@{<date>}`.
///
/// The inner text is borrowed from `text` if nothing is omitted from it.
///
/// # Errors
///
/// - [`Error::Refused`] with `Fault::UnclosedBrace` and the whole text: the pair never closes.
/// - [`Error::OutOfMemory`]: an allocation failed. This can happen only if the pair has an escape.
pub fn parens<'a, A: Allocator>(
    alloc: A,
    text: &'a [u8],
) -> Result<Option<(CowSlice<'a, u8, A>, &'a [u8], usize)>, Error<'a>>
    // `None` exactly if the text does not begin with `{`. `UnclosedBrace`, with the whole text,
    // exactly if the pair never closes. `OutOfMemory` only if the pair has an escape. A pair has
    // its text without escapes (borrowed if it has none), the text after it, and its length.
    ensures { ParensGives text.now result }
{
    if !begins(text) {
        return Ok(None);
    }
    match opened(alloc, text) {
        Ok(
            Braced {
                raw,
                meant,
                rest,
                ..
            },
        ) => Ok(Some((meant, rest, raw.len() + 2))),
        Err(why) => Err(why.error(text)),
    }
}
