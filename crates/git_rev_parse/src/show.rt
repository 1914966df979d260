//! Prints revisions and other words.

use crate::asked::{Asked, Digits, Symbolic};
use git_revisions::ranges::{Name, Tip, revision};
use git_session::session::Session;
use git_session::stop::Stop;
use gix_base::hash::ObjectId;
use gix_repository::Refusal;
use std::alloc::{AllocError, Global};
use std::io::Write;

/// Prints a text in the quotes of a shell, and a space behind it.
fn print_quoted(session: &mut Session<'_>, text: &[u8]) -> Result<(), AllocError> {
    session.print(b"'")?;
    for byte in text {
        if *byte == b'\'' {
            session.print(b"'\\'")?;
        }
        session.print(&[*byte])?;
    }
    session.print(b"' ")
}

/// Prints a text, with `^` before it if that is wanted.
pub(super) fn show_text(
    session: &mut Session<'_>,
    asked: &Asked<'_>,
    has_caret: bool,
    text: &[u8],
) -> Result<(), Stop> {
    if has_caret {
        session.print(b"^")?;
    }
    if asked.is_quoted {
        print_quoted(session, text)?;
    } else {
        session.print_line(text)?;
    }
    Ok(())
}

/// Says what is printed for an object.
#[derive(Clone, Copy)]
enum Shown<'w> {
    /// Its id.
    Id,
    /// The name by which it was written.
    Name(Name<'w>),
    /// The name of the reference that this text names, if it names one.
    Reference(&'w [u8]),
    /// Nothing: its name is no reference.
    Nothing,
}

/// Returns what is printed for an object with this name.
fn shown_by<'w>(asked: &Asked<'_>, name: Name<'w>) -> Shown<'w> {
    let wants_reference = asked.symbolic == Symbolic::Full || asked.short_names.is_some();
    match name {
        Name::Base => Shown::Id,
        Name::Parent(..) if asked.symbolic == Symbolic::No => Shown::Id,
        Name::Parent(..) if wants_reference => Shown::Nothing,
        Name::Text(text) if wants_reference => Shown::Reference(text),
        Name::Text(_) if asked.symbolic == Symbolic::No => Shown::Id,
        name => Shown::Name(name),
    }
}

/// Returns a name as it was written.
fn name_text(alloc: Global, name: Name<'_>) -> Result<Vec<u8>, Stop> {
    let mut text = Vec::new(alloc);
    match name {
        Name::Base => {}
        Name::Text(written) => text.extend_from_slice(written)?,
        Name::Parent(written, number) => {
            text.extend_from_slice(written)?;
            if write!(text, "^{number}").is_err() {
                return Err(Stop::OutOfMemory);
            }
        }
    }
    Ok(text)
}

/// Returns how many digits of an id are printed.
fn digits_of(session: &mut Session<'_>, digits: Digits, id: ObjectId) -> Result<usize, Stop> {
    let least = match digits {
        Digits::All => return Ok(40),
        Digits::Usual => session.repository.least_digits()?,
        Digits::AtLeast(least) => least,
    };
    Ok(session.repository.unique_digits(id, least)?)
}

/// Prints an id, or as many digits of it as are wanted.
fn show_id(
    session: &mut Session<'_>,
    asked: &Asked<'_>,
    has_caret: bool,
    id: ObjectId,
) -> Result<(), Stop> {
    let count = digits_of(session, asked.digits, id)?;
    let mut digits = [0u8; 40];
    let written = id.write_hex(count, &mut digits);
    show_text(session, asked, has_caret, &digits[..written])
}

/// Returns the full name of a reference, also of one that is named like an id.
fn reference_of(session: &mut Session<'_>, text: &[u8]) -> Result<Option<Vec<u8>>, Refusal> {
    if ObjectId::from_hex(text).is_err() {
        return session.repository.reference_of(text);
    }
    match session.repository.reference_of_digits(text)? {
        Some((_, name)) => Ok(Some(name)),
        None => Ok(None),
    }
}

/// Returns the full name of the reference that a text names; `None` if it names none, or if it is
/// ambiguous, which is said then.
fn full_name(session: &mut Session<'_>, text: &[u8]) -> Result<Option<Vec<u8>>, Stop> {
    match reference_of(session, text) {
        Ok(found) => Ok(found),
        Err(Refusal::Ambiguous) => {
            session.say(&[b"error: refname '", text, b"' is ambiguous"])?;
            Ok(None)
        }
        Err(Refusal::Unknown) => Ok(None),
        Err(refusal) => Err(Stop::from(refusal)),
    }
}

/// Prints the name of the reference that a text names, if it names one.
fn show_reference(
    session: &mut Session<'_>,
    asked: &Asked<'_>,
    has_caret: bool,
    text: &[u8],
) -> Result<(), Stop> {
    let Some(full) = full_name(session, text)? else {
        return Ok(());
    };
    let Some(strict) = asked.short_names else {
        return show_text(session, asked, has_caret, &full);
    };
    let strict = strict.unwrap_or(session.repository.warns_of_ambiguous_names());
    let short = session.repository.shortest_name(&full, strict)?;
    show_text(session, asked, has_caret, &short)
}

/// Prints a tip, if revisions are printed.
pub(super) fn show_tip(
    session: &mut Session<'_>,
    asked: &mut Asked<'_>,
    tip: &Tip<'_>,
) -> Result<(), Stop> {
    if !asked.filter.revisions {
        return Ok(());
    }
    asked.default = None;
    let has_caret = tip.is_excluded != asked.is_turned;
    match shown_by(asked, tip.name) {
        Shown::Id => show_id(session, asked, has_caret, tip.id),
        Shown::Name(name) => {
            let text = name_text(session.alloc, name)?;
            show_text(session, asked, has_caret, &text)
        }
        Shown::Reference(text) => show_reference(session, asked, has_caret, text),
        Shown::Nothing => Ok(()),
    }
}

/// Prints the revision of `--default`, if nothing was printed in its place. Returns whether it
/// names an object.
pub(super) fn show_default(session: &mut Session<'_>, asked: &mut Asked<'_>) -> Result<bool, Stop> {
    let Some(text) = asked.default else {
        return Ok(false);
    };
    asked.default = None;
    let Some(id) = revision(session, text)? else {
        return Ok(false);
    };
    let tip = Tip {
        id,
        name: Name::Text(text),
        is_excluded: false,
    };
    show_tip(session, asked, &tip)?;
    Ok(true)
}
