//! Reads the content of a tag (git-mktag, "TAG FORMAT"), as git's own readers of tags do.

ghost use Rattle.std.specs.Prelude.{◌≡◌, Some, MatchOption, IfOk, IfErr};
ghost use Rattle.gix_object.specs.Lines.{before, after, id_at};
ghost use Rattle.gix_object.specs.TagForm.{HasObject, HasType, type_of, HasName, name_of, tagged_at, date_in, IsTag, IsRefused};
ghost use Rattle.gix_object.specs.ErrorTexts.{tag_error_text};

use crate::bytes::{after, after_line, before, begins, line_id, place_of};
use crate::digits::date;
use crate::kinds::kind_of_name;
use gix_base::hash::ObjectId;
use gix_base::object::Kind;
use std::fmt;
use thiserror::Error as StdError;

/// What a tag says of its target, and its own name and date.
#[derive(Clone, Copy)]
pub struct Tag<'a> {
    /// The id of the object that is tagged.
    pub target: ObjectId,
    /// The kind of the target.
    pub kind: Kind,
    /// The name in the tag line, which may be empty.
    pub name: &'a [u8],
    /// The tagger's date in seconds since the Unix epoch. It is 0 if git finds none.
    ///
    /// A date before the epoch counts down from 2^64. What 64 bits cannot hold is `u64::MAX`.
    pub date: u64,
}

/// Says why the content of a tag is not read.
#[derive(Clone, Copy, Debug, Drop, StdError)]
pub enum ParseError {
    /// The content does not begin with a line `object ID`, or it has fewer than 64 bytes.
    BadObject,
    /// The second line is not a `type` line, or its type has 20 bytes or more.
    BadType,
    /// The type is not `commit`, `tree`, `blob` or `tag`.
    UnknownType,
    /// The third line is not a `tag` line.
    NoName,
}

impl fmt::Display for ParseError {
    ghost output = { λ e. Some (tag_error_text e) };

    fn fmt<W: fmt::Write>(&self, f: &mut fmt::Formatter<W>) -> fmt::Result {
        f.write_str(match self {
            ParseError::BadObject => "tag has no well-formed object line",
            ParseError::BadType => "tag has no well-formed type line",
            ParseError::UnknownType => "tag has an unknown type",
            ParseError::NoName => "tag has no tag line",
        })
    }
}

/// Returns the object that the first line names.
fn object(text: &[u8]) -> Option<ObjectId>
    ensures { MatchOption result (¬ HasObject text.now)
        (λ id. HasObject text.now × (id ≡ id_at text.now 7)) }
{
    if text.len() < 64 {
        return None;
    }
    line_id(text, b"object ")
}

/// Returns the bytes before the first byte 0, or all bytes if there is none.
fn before_nul(text: &[u8]) -> &[u8]
    ensures { result.now ≡ before 0 text.now }
{
    &text[..place_of(text, 0)]
}

/// Returns the type in the line at the front of `text`; `None` if this is not a type line.
fn type_name(text: &[u8]) -> Option<&[u8]>
    ensures { MatchOption result (¬ HasType text.now)
        (λ name. HasType text.now × (name.now ≡ type_of text.now)) }
{
    if !begins(text, b"type ") {
        return None;
    }
    let line = before(&text[5..], b'\n')?;
    if line.len() < 20 {
        Some(before_nul(line))
    } else {
        None
    }
}

/// Returns the date in the tagger's line, or 0 if `text` does not begin with one.
#[tactic(auto, unfolding(crate::specs::TagForm::tagged_at))]
fn tagged(text: &[u8]) -> u64
    ensures { result ≡ tagged_at text.now }
{
    if begins(text, b"tagger ") {
        date(after(text, b'>'))
    } else {
        0
    }
}

/// Returns the name in the tag line at the front of `text`, and the date after this line.
fn name_and_date(text: &[u8]) -> Option<(&[u8], u64)>
    ensures { MatchOption result (¬ HasName text.now)
        (λ p. HasName text.now × (p.0.now ≡ name_of text.now) × (p.1 ≡ date_in text.now)) }
{
    if !begins(text, b"tag ") {
        return None;
    }
    let line = &text[4..];
    let name = before(line, b'\n')?;
    Some((name, tagged(after(line, b'\n'))))
}

/// Returns what a tag says, read from the tag's content.
///
/// Malformed contents are read as git reads them. Nothing is checked after the line of the name. If
/// no well-formed line of a tagger follows, the date is 0.
///
/// # Errors
///
/// Git rejects the content in each case, too.
///
/// - [`ParseError::BadObject`]: no `object` line is first, or there are fewer than 64 bytes.
/// - [`ParseError::BadType`]: no `type` line follows, or its type has 20 bytes or more.
/// - [`ParseError::UnknownType`]: the type is not one of the four.
/// - [`ParseError::NoName`]: no `tag` line follows.
pub fn parse(text: &[u8]) -> Result<Tag<'_>, ParseError>
    // The content is the one of a tag of this object and this kind, with this name and this date.
    ensures read { IfOk result (λ tag. IsTag text.now tag.target tag.kind tag.name.now tag.date) }

    // `BadObject`: the content has fewer than 64 bytes, or does not begin with the line of an
    // object. `BadType`, `NoName`: this line is missing or malformed, and those before it are not.
    // `UnknownType`: the line of the type is well-formed, and names none of the four kinds.
    ensures refused { IfErr result (IsRefused text.now) }
{
    let Some(target) = object(text) else {
        return Err(ParseError::BadObject);
    };
    let text = after_line(text, 48);
    let Some(type_name) = type_name(text) else {
        return Err(ParseError::BadType);
    };
    let Some(kind) = kind_of_name(type_name) else {
        return Err(ParseError::UnknownType);
    };
    match name_and_date(after(text, b'\n')) {
        Some((name, date)) => Ok(Tag {
            target,
            kind,
            name,
            date,
        }),
        None => Err(ParseError::NoName),
    }
}
