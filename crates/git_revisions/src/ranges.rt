//! Reads the words that name objects, one or several (gitrevisions).

use crate::bases::bases_in_order;
use crate::forms::{Form, before_path, form_of, may_be_date};
use crate::unpeeled::{say_lost, say_no_commit, say_unpeeled};
use git_session::integer::whole;
use git_session::session::Session;
use git_session::stop::{Stop, fatal, not_supported};
use gix_base::hash::ObjectId;
use gix_base::object::Kind;
use gix_repository::Refusal;
use memchr::memmem;
use std::alloc::Global;

/// The name of an end that is left out.
const HEAD: &[u8] = b"HEAD";

/// Says by which name a word means an object.
#[derive(Clone, Copy)]
pub enum Name<'w> {
    /// By this text.
    Text(&'w [u8]),
    /// As the parent with this number, from 1 on, of the commit that a text names.
    Parent(&'w [u8], usize),
    /// By none: the object is a merge base.
    Base,
}

/// An object that a word means.
#[derive(Clone, Copy)]
pub struct Tip<'w> {
    /// The object as the name means it: a tag is not peeled.
    pub id: ObjectId,
    pub name: Name<'w>,
    /// Tells whether what the object reaches is left out.
    pub is_excluded: bool,
}

/// The texts of a range, `A..B` or `A...B`.
#[derive(Clone, Copy)]
pub struct Range<'w> {
    pub start: &'w [u8],
    pub end: &'w [u8],
    pub is_symmetric: bool,
}

/// The ends of a range whose texts both name objects.
#[derive(Clone, Copy)]
pub struct Ends<'w> {
    pub range: Range<'w>,
    pub start: ObjectId,
    pub end: ObjectId,
}

/// Says which parents a word means.
#[derive(Clone, Copy)]
pub enum Marked {
    /// All parents and not the commit: `A^@`.
    Parents,
    /// The commit without its parents: `A^!`.
    Itself,
    /// The commit without the parent of this number: `A^-n`.
    Without(usize),
}

/// The text of a commit, and the mark behind it.
#[derive(Clone, Copy)]
pub struct Shorthand<'w> {
    pub text: &'w [u8],
    pub marked: Marked,
}

/// Returns a text before the first of two bytes, and what is behind them.
fn cut<'w>(word: &'w [u8], mark: &[u8]) -> Option<(&'w [u8], &'w [u8])> {
    let at = memmem::find(word, mark)?;
    Some((word.get(..at)?, word.get(at.saturating_add(2)..)?))
}

/// Returns the text of an end; HEAD if it is left out.
fn end_text(text: &[u8]) -> &[u8] {
    if text.is_empty() { HEAD } else { text }
}

/// Returns the texts of a range; `None` if a word is none, as `..` is, which is a folder.
pub fn range_of<'w>(word: &'w [u8]) -> Option<Range<'w>> {
    let (start, rest) = cut(word, b"..")?;
    let (end, is_symmetric) = match rest.strip_prefix(b".") {
        Some(end) => (end, true),
        None => (rest, false),
    };
    if start.is_empty() && rest.is_empty() {
        return None;
    }
    Some(Range {
        start: end_text(start),
        end: end_text(end),
        is_symmetric,
    })
}

/// Returns the number behind `^-`: 1 if there is none, and `None` if it is another text.
///
/// # Errors
///
/// `NotSupported` for what C reads as a number in other forms, as with signs.
fn parent_number(alloc: Global, text: &[u8]) -> Result<Option<usize>, Stop> {
    if text.is_empty() {
        return Ok(Some(1));
    }
    let is_odd = text.starts_with(b"+")
        || text.starts_with(b"-")
        || text
            .first()
            .is_some_and(|b| b.is_ascii_whitespace() || *b == 11);
    if is_odd || text.len() > 9 {
        return Err(not_supported(alloc, &[b"the number '", text, b"' is not supported"]));
    }
    Ok(match whole(text) {
        Some(0) | None => None,
        Some(number) => usize::try_from(number).ok(),
    })
}

/// Returns the text before a mark at the end of a word; `None` if the mark is not there, or if it
/// stands in the word before.
fn before_mark<'w>(word: &'w [u8], mark: &[u8]) -> Option<&'w [u8]> {
    match cut(word, mark) {
        Some((text, [])) => Some(text),
        _ => None,
    }
}

/// Returns the text of a word that ends in `^-` or `^-n`, and the number.
fn without_parent<'w>(alloc: Global, word: &'w [u8]) -> Result<Option<Shorthand<'w>>, Stop> {
    let Some((text, rest)) = cut(word, b"^-") else {
        return Ok(None);
    };
    Ok(match parent_number(alloc, rest)? {
        Some(number) => Some(Shorthand {
            text,
            marked: Marked::Without(number),
        }),
        None => None,
    })
}

/// Returns the text and the mark of a word that ends in `^@`, `^!`, `^-` or `^-n`, as `rev-list`
/// reads it: each mark by itself, in this order.
///
/// # Errors
///
/// `NotSupported` for a number that C reads in another form.
pub fn shorthand_of<'w>(alloc: Global, word: &'w [u8]) -> Result<Option<Shorthand<'w>>, Stop> {
    let (text, marked) = if let Some(text) = before_mark(word, b"^@") {
        (text, Marked::Parents)
    } else if let Some(text) = before_mark(word, b"^!") {
        (text, Marked::Itself)
    } else {
        return without_parent(alloc, word);
    };
    Ok(Some(Shorthand { text, marked }))
}

/// Returns whether `rev-parse` reads the mark at the end of a word. It looks for `^!`, then for
/// `^@`, and takes no other mark if the one that it finds is not at the end.
fn is_mark_read(word: &[u8]) -> bool {
    match cut(word, b"^!").or(cut(word, b"^@")) {
        Some((_, rest)) => rest.is_empty(),
        None => true,
    }
}

/// Ends if git may read as a date what names nothing.
fn unless_date(alloc: Global, text: &[u8]) -> Result<(), Stop> {
    if may_be_date(text) {
        return Err(not_supported(
            alloc,
            &[b"'", text, b"': this form of a date is not supported"],
        ));
    }
    Ok(())
}

/// Returns the end for a text that needs what is not supported.
fn unsupported<'t>(alloc: Global, text: &'t [u8], reason: &'t [u8]) -> Stop {
    not_supported(alloc, &[b"'", text, b"': ", reason])
}

/// Returns the object of a look-up; `None` if the text names none, or if it is ambiguous. If a step
/// wants another kind of object, git's message says so.
fn found(
    session: &mut Session<'_>,
    text: &[u8],
    looked_up: Result<ObjectId, Refusal>,
) -> Result<Option<ObjectId>, Stop> {
    match looked_up {
        Ok(id) => Ok(Some(id)),
        Err(Refusal::Unknown) => {
            say_unpeeled(session, before_path(text))?;
            unless_date(session.alloc, text)?;
            Ok(None)
        }
        Err(Refusal::Ambiguous) => Ok(None),
        Err(Refusal::Object(gix_odb::Error::Missing(id))) if !session.repository.is_partial() => {
            say_lost(session, text, id)?;
            Ok(None)
        }
        Err(Refusal::NotSupported(what)) => Err(unsupported(
            session.alloc,
            text,
            what.text().as_bytes(),
        )),
        Err(refusal) => Err(Stop::from(refusal)),
    }
}

/// Tells whether a text has a step behind a name, or a path.
fn has_step(text: &[u8]) -> bool {
    text.iter().any(|b| matches!(*b, b'~' | b'^' | b':'))
}

/// Returns the commit to which an object leads through tags. If it is another kind of object, git's
/// message says so, and the answer is `None`, as it is if there is no such object.
///
/// # Errors
///
/// `Refused` if an object on the way is not read.
pub fn commit_reference(session: &mut Session<'_>, id: ObjectId) -> Result<Option<ObjectId>, Stop> {
    match session.repository.peeled(id) {
        Ok((id, Kind::Commit)) => Ok(Some(id)),
        Ok((id, kind)) => {
            say_no_commit(session, id, kind)?;
            Ok(None)
        }
        Err(Refusal::Object(gix_odb::Error::Missing(_))) if !session.repository.is_partial() => {
            Ok(None)
        }
        Err(refusal) => Err(Stop::from(refusal)),
    }
}

/// Returns whether a text names nothing by its form.
///
/// # Errors
///
/// - `NotSupported` for paths in the index and odd forms.
/// - `Fatal` if git ends there with a message.
fn is_nothing(session: &Session<'_>, text: &[u8]) -> Result<bool, Stop> {
    let alloc = session.alloc;
    if text.starts_with(b":/") && text.len() > 2 {
        return Ok(false);
    }
    if text.starts_with(b":") {
        return Err(not_supported(
            alloc,
            &[b"'", text, b"': paths in the index are not supported"],
        ));
    }
    match form_of(text) {
        Form::Usual => Ok(false),
        Form::Nothing => {
            unless_date(alloc, text)?;
            Ok(true)
        }
        Form::NoBranch(name) => Err(fatal(alloc, &[b"no such branch: '", name, b"'"])),
        Form::Odd => Err(not_supported(
            alloc,
            &[b"'", text, b"': this form of a revision is not supported"],
        )),
    }
}

/// Returns the object that a text names that is no range; `None` if it names none, or if it is
/// ambiguous.
///
/// # Errors
///
/// `Fatal` or `Said` if git ends there with a message, and `NotSupported` for forms that are not
/// supported.
pub fn revision(session: &mut Session<'_>, text: &[u8]) -> Result<Option<ObjectId>, Stop> {
    if is_nothing(session, text)? {
        return Ok(None);
    }
    let looked_up = session.repository.object(text);
    found(session, text, looked_up)
}

/// Returns the object that the end of a range names, or the text before a mark; `None` if it names
/// none, or if it is ambiguous. The digits of several objects mean the one that leads to a commit.
///
/// # Errors
///
/// Those of [`revision`].
pub fn committish(session: &mut Session<'_>, text: &[u8]) -> Result<Option<ObjectId>, Stop> {
    if has_step(text) {
        return revision(session, text);
    }
    if is_nothing(session, text)? {
        return Ok(None);
    }
    let looked_up = session.repository.committish(text);
    found(session, text, looked_up)
}

/// Returns the ends of a range; `None` if a word is no range, or if a text of it names no object.
///
/// # Errors
///
/// Those of [`revision`].
pub fn ends_of<'w>(session: &mut Session<'_>, word: &'w [u8]) -> Result<Option<Ends<'w>>, Stop> {
    let Some(range) = range_of(word) else {
        return Ok(None);
    };
    let Some(start) = committish(session, range.start)? else {
        return Ok(None);
    };
    let Some(end) = committish(session, range.end)? else {
        return Ok(None);
    };
    Ok(Some(Ends { range, start, end }))
}

/// Returns a tip with a name of its own.
fn tip_of<'w>(id: ObjectId, text: &'w [u8], is_excluded: bool) -> Tip<'w> {
    Tip {
        id,
        name: Name::Text(text),
        is_excluded,
    }
}

/// Adds the merge bases of the ends of `A...B`. Returns whether both ends lead to commits.
fn add_bases<'w>(
    session: &mut Session<'_>,
    ends: &Ends<'w>,
    tips: &mut Vec<Tip<'w>>,
) -> Result<bool, Stop> {
    let start = commit_reference(session, ends.start)?;
    let end = commit_reference(session, ends.end)?;
    let (Some(start), Some(end)) = (start, end) else {
        return Ok(false);
    };
    for id in bases_in_order(session, start, &[end])?.iter() {
        tips.push(Tip {
            id: *id,
            name: Name::Base,
            is_excluded: true,
        })?;
    }
    Ok(true)
}

/// Returns the tips of a range: its end, its start, and for `A...B` the merge bases; `None` if a
/// word is no range.
///
/// # Errors
///
/// Those of [`revision`], and `NotSupported` if the merge bases of objects are asked for that are no
/// commits: git has printed the ends before it says so.
pub fn range_tips<'w>(
    session: &mut Session<'_>,
    word: &'w [u8],
) -> Result<Option<Vec<Tip<'w>>>, Stop> {
    let Some(ends) = ends_of(session, word)? else {
        return Ok(None);
    };
    let mut tips = Vec::new(session.alloc);
    tips.push(tip_of(ends.end, ends.range.end, false))?;
    tips.push(tip_of(ends.start, ends.range.start, !ends.range.is_symmetric))?;
    if ends.range.is_symmetric && !add_bases(session, &ends, &mut tips)? {
        return Err(not_supported(
            session.alloc,
            &[b"'", word, b"': ends that are no commits are not supported"],
        ));
    }
    Ok(Some(tips))
}

/// Returns the tips for a commit that is written with a mark; `None` if it lacks the parent.
fn marked_tips<'w>(
    alloc: Global,
    id: ObjectId,
    parents: &[ObjectId],
    shorthand: &Shorthand<'w>,
) -> Result<Option<Vec<Tip<'w>>>, Stop> {
    let mut tips = Vec::new(alloc);
    let (is_excluded, only) = match shorthand.marked {
        Marked::Parents => (false, None),
        Marked::Itself => (true, None),
        Marked::Without(number) if number > parents.len() => return Ok(None),
        Marked::Without(number) => (true, Some(number)),
    };
    if is_excluded {
        tips.push(tip_of(id, shorthand.text, false))?;
    }
    for (place, parent) in parents.iter().enumerate() {
        let number = place.saturating_add(1);
        if only.is_none() || only == Some(number) {
            tips.push(Tip {
                id: *parent,
                name: Name::Parent(shorthand.text, number),
                is_excluded,
            })?;
        }
    }
    Ok(Some(tips))
}

/// Returns the tips of `A^@`, `A^!` and `A^-n`; `None` if the text names no commit, or if the commit
/// lacks the parent.
///
/// # Errors
///
/// Those of [`revision`].
pub fn shorthand_tips<'w>(
    session: &mut Session<'_>,
    shorthand: &Shorthand<'w>,
) -> Result<Option<Vec<Tip<'w>>>, Stop> {
    let Some(id) = committish(session, shorthand.text)? else {
        return Ok(None);
    };
    let Some(commit) = commit_reference(session, id)? else {
        return Ok(None);
    };
    let entry = session.repository.entry(commit)?;
    marked_tips(session.alloc, id, &entry.parents, shorthand)
}

/// Returns the tips of a word that means several objects to `rev-parse`; `None` if it is no such
/// word.
///
/// # Errors
///
/// Those of [`range_tips`].
pub fn several_tips<'w>(
    session: &mut Session<'_>,
    word: &'w [u8],
) -> Result<Option<Vec<Tip<'w>>>, Stop> {
    if let Some(tips) = range_tips(session, word)? {
        return Ok(Some(tips));
    }
    if !is_mark_read(word) {
        return Ok(None);
    }
    match shorthand_of(session.alloc, word)? {
        Some(shorthand) => shorthand_tips(session, &shorthand),
        None => Ok(None),
    }
}

/// Returns the tip of `A` or `^A`; `None` if the text names no object.
///
/// # Errors
///
/// Those of [`revision`].
pub fn single_tip<'w>(session: &mut Session<'_>, word: &'w [u8]) -> Result<Option<Tip<'w>>, Stop> {
    let (text, is_excluded) = match word.strip_prefix(b"^") {
        Some(text) => (text, true),
        None => (word, false),
    };
    Ok(match revision(session, text)? {
        Some(id) => Some(tip_of(id, text, is_excluded)),
        None => None,
    })
}
