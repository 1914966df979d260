//! Reads what the file of a loose reference says (gitrepository-layout, "refs"; git-symbolic-ref).

ghost use Rattle.std.specs.Prelude.{◌≡◌};
ghost use Rattle.std.specs.Option.{option_map};
ghost use Rattle.gix_ref_text.specs.Loose.{is_blank, trimmed_end, trimmed_start, ends_digits, id_at_front, says_name, says_id, text_says, is_untrimmed, text_of, loose_says};
ghost use Rattle.gix_ref_text.specs.Said.{said};

use crate::lines::{cut, id_of};
use crate::name::is_full_name;
use gix_base::hash::ObjectId;

/// What a file of a reference says.
#[derive(Clone, Copy)]
pub enum Said<'a> {
    Id(ObjectId),
    LeadsTo(&'a [u8]),
    /// Neither.
    Garbage,
}

/// Tests whether a byte is white space for git.
fn is_blank(byte: u8) -> bool
    ensures { result ≡ is_blank byte }
{
    byte == b' ' || byte == b'\t' || byte == b'\n' || byte == b'\r'
}

/// Returns what comes before the white space at the end.
fn trimmed_end(bytes: &[u8]) -> &[u8]
    ensures { result.now ≡ trimmed_end bytes.now }
{
    let mut rest = bytes;
    for _ in 0..bytes.len() {
        match rest.split_last() {
            Some((byte, front)) if is_blank(*byte) => rest = front,
            _ => return rest,
        }
    }
    rest
}

/// Returns what comes after the white space at the front.
fn trimmed_start(bytes: &[u8]) -> &[u8]
    ensures { result.now ≡ trimmed_start bytes.now }
{
    let mut rest = bytes;
    for _ in 0..bytes.len() {
        match rest.split_first() {
            Some((byte, after)) if is_blank(*byte) => rest = after,
            _ => return rest,
        }
    }
    rest
}

/// Tests whether the digits of an id may end before this.
fn ends_digits(rest: &[u8]) -> bool
    ensures { result ≡ ends_digits rest.now }
{
    match rest.split_first() {
        Some((byte, _)) => is_blank(*byte),
        None => true,
    }
}

/// Returns the id at the front of a text, if the text ends there or white space follows.
fn id_at_front(text: &[u8]) -> Option<ObjectId>
    ensures { option_map (λ id. id.0) result ≡ id_at_front text.now }
{
    let Some((digits, rest)) = text.split_at_checked(40) else {
        return None;
    };
    if ends_digits(rest) {
        id_of(digits)
    } else {
        None
    }
}

/// Returns what the name of a reference says after `ref:`.
fn said_by_name(name: &[u8]) -> Said<'_>
    ensures { said result ≡ says_name name.now }
{
    if is_full_name(name) {
        Said::LeadsTo(name)
    } else {
        Said::Garbage
    }
}

/// Returns what an id says, if there is one.
fn said_by_id<'a>(id: Option<ObjectId>) -> Said<'a>
    ensures { said result ≡ says_id (option_map (λ id. id.0) id) }
{
    match id {
        Some(id) => Said::Id(id),
        None => Said::Garbage,
    }
}

/// Returns what the text in the file of a reference says.
fn said_by(text: &[u8]) -> Said<'_>
    ensures { said result ≡ text_says text.now }
{
    match text.strip_prefix(b"ref:") {
        Some(name) => said_by_name(trimmed_start(name)),
        None => said_by_id(id_at_front(text)),
    }
}

/// Tests whether git does not trim the file of a reference: that of `FETCH_HEAD` or `MERGE_HEAD`.
pub fn is_untrimmed(name: &[u8]) -> bool
    // `true` exactly if the name is `FETCH_HEAD` or `MERGE_HEAD`.
    ensures { result ≡ is_untrimmed name.now }
{
    name == b"FETCH_HEAD".as_slice() || name == b"MERGE_HEAD".as_slice()
}

/// Returns the text in the file of the loose reference with a name. It ends before a zero byte.
fn text_of<'a>(name: &[u8], bytes: &'a [u8]) -> &'a [u8]
    ensures { result.now ≡ text_of name.now bytes.now }
{
    if is_untrimmed(name) {
        cut(bytes, 0).0
    } else {
        cut(trimmed_end(bytes), 0).0
    }
}

/// Returns what the file of the loose reference with a name says.
pub fn read<'a>(name: &[u8], bytes: &'a [u8]) -> Said<'a>
    // The answer is what the bytes of the file say (`loose_says`): an id, the name of a reference
    // after `ref:`, or neither.
    ensures { said result ≡ loose_says name.now bytes.now }
{
    said_by(text_of(name, bytes))
}
