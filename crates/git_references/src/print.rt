//! Prints references by formats (git-for-each-ref, "FIELD NAMES").

use crate::blocks::Blocks;
use crate::fields::{Field, field_text};
use crate::format::{Format, Part};
use crate::list::Candidate;
use crate::names::{Form, print_name, print_symref};
use crate::objects::{Objects, missing};
use crate::quoting::{Language, quote_from};
use crate::siblings::{Shown, distance, print_sibling};
use crate::sorting::{SortKey, sort};
use git_fields::read::{Extent, Read};
use git_session::commits::commit_of;
use git_session::session::Session;
use git_session::stop::{Stop, failed};
use gix_base::hash::ObjectId;
use gix_repository::{Refusal, kind_name};
use std::io::Write;

/// How many names are shortened at least, if all references are listed for it.
const MANY: usize = 16;

/// Looks up the kind of a reference's object. Returns whether the object is there.
fn look_up_kind(session: &mut Session<'_>, candidate: &mut Candidate) -> Result<bool, Stop> {
    match session.repository.kind(candidate.id) {
        Ok(kind) => {
            candidate.kind = Some(kind);
            Ok(true)
        }
        Err(Refusal::Object(gix_odb::Error::Missing(_))) if !session.repository.is_partial() => {
            Ok(false)
        }
        Err(refusal) => Err(Stop::from(refusal)),
    }
}

/// Looks up the kinds of all references. git does so for all while it sorts them, also for those
/// that it does not print, and ends with the first that is missing.
fn look_up_all_kinds(session: &mut Session<'_>, candidates: &mut [Candidate]) -> Result<(), Stop> {
    let mut end = None;
    for candidate in candidates {
        if look_up_kind(session, candidate)? {
            continue;
        }
        if end.is_some() {
            return Err(failed(
                session.alloc,
                &[b"the objects of several references are missing"],
            ));
        }
        end = Some(missing(session, candidate.id, candidate));
    }
    match end {
        Some(end) => Err(end),
        None => Ok(()),
    }
}

/// Looks up what a format wants to know of references before the first is printed.
///
/// # Errors
///
/// `Fatal` if the kind of an object is wanted that is missing, and `Failure` if there are several:
/// in which order git looks is not told.
fn look_up(
    session: &mut Session<'_>,
    format: &[Part],
    candidates: &mut [Candidate],
) -> Result<(), Stop> {
    if format.iter().any(|part| matches!(part, Part::Type)) {
        look_up_all_kinds(session, candidates)
    } else {
        Ok(())
    }
}

/// Prints the kind of a reference's object.
fn print_type(session: &mut Session<'_>, candidate: &Candidate) -> Result<(), Stop> {
    match candidate.kind {
        Some(kind) => Ok(session.print(kind_name(kind))?),
        None => Err(missing(session, candidate.id, candidate)),
    }
}

/// Tells whether a part shortens a name.
fn is_shortened(part: &Part) -> bool {
    matches!(
        part,
        Part::Name(Form::Short)
            | Part::Symref(Form::Short)
            | Part::Sibling(_, Shown::Name(Form::Short))
    )
}

/// Lists all references once if the names of many are to be shortened.
fn expect_names(session: &mut Session<'_>, format: &[Part], count: usize) -> Result<(), Stop> {
    if count >= MANY && format.iter().any(is_shortened) {
        session.repository.list_names_once()?;
    }
    Ok(())
}

/// Prints the abbreviated id of a reference.
fn print_short_id(
    session: &mut Session<'_>,
    least: Option<usize>,
    candidate: &Candidate,
) -> Result<(), Stop> {
    let least = match least {
        Some(least) => least,
        None => session.repository.least_digits()?,
    };
    let digits = session.repository.unique_digits(candidate.id, least)?;
    session.print_digits(candidate.id, digits)?;
    Ok(())
}

/// Prints two numbers.
fn print_counts(session: &mut Session<'_>, counts: (usize, usize)) -> Result<(), Stop> {
    match write!(session.output, "{} {}", counts.0, counts.1) {
        Ok(()) => Ok(()),
        Err(_) => Err(Stop::OutOfMemory),
    }
}

/// Prints how many commits only a reference reaches, and how many only a commit reaches; nothing if
/// the reference leads to no commit.
fn print_ahead_behind(
    session: &mut Session<'_>,
    base: ObjectId,
    candidate: &Candidate,
) -> Result<(), Stop> {
    let Some(commit) = commit_of(session, candidate.id)? else {
        return Ok(());
    };
    let counts = distance(session, commit, base)?;
    print_counts(session, counts)
}

/// The objects of a reference, as far as the format has fields of them.
#[derive(Drop)]
struct Both {
    own: Option<Read>,
    target: Option<Read>,
}

impl Both {
    /// Reads the objects of which a format has fields.
    fn read(
        session: &mut Session<'_>,
        objects: &mut Objects,
        format: &[Part],
        candidate: &Candidate,
    ) -> Result<Both, Stop> {
        let wants_target = format.iter().any(|part| matches!(part, Part::Target(_)));
        if !wants_target && !format.iter().any(|part| matches!(part, Part::Own(_))) {
            return Ok(Both {
                own: None,
                target: None,
            });
        }
        let own = objects.own(session, candidate)?;
        let target = if wants_target {
            objects.target(session, &own, candidate)?
        } else {
            None
        };
        Ok(Both {
            own: Some(own),
            target,
        })
    }
}

/// Returns how much of each object a format wants.
fn extent_of(format: &[Part]) -> Extent {
    let mut most = Extent::Header;
    for part in format {
        if let Part::Own(field) | Part::Target(field) = part {
            most = most.max(field.extent());
        }
    }
    most
}

/// Prints a field of an object; nothing if there is no object.
fn print_field(session: &mut Session<'_>, read: &Option<Read>, field: Field) -> Result<(), Stop> {
    if let Some(read) = read {
        let text = field_text(session, read, field)?;
        session.print(&text)?;
    }
    Ok(())
}

/// Prints a star for the current branch, and a blank for another reference.
fn print_head(
    session: &mut Session<'_>,
    branch: &Option<Vec<u8>>,
    candidate: &Candidate,
) -> Result<(), Stop> {
    let is_current = match branch {
        Some(branch) => branch == &candidate.name,
        None => false,
    };
    session.print(if is_current { b"*" } else { b" " })?;
    Ok(())
}

/// Prints a part of the line for a reference.
fn print_part(
    session: &mut Session<'_>,
    part: &Part,
    candidate: &Candidate,
    read: &Both,
) -> Result<(), Stop> {
    match part {
        Part::Head(branch) => print_head(session, branch, candidate),
        Part::Own(field) => print_field(session, &read.own, *field),
        Part::Target(field) => print_field(session, &read.target, *field),
        Part::Text(text) => Ok(session.print(text)?),
        Part::Name(form) => print_name(session, &candidate.name, *form),
        Part::Symref(form) => print_symref(session, &candidate.name, *form),
        Part::Sibling(kind, shown) => print_sibling(session, *kind, *shown, candidate),
        Part::Id => Ok(session.print_id(candidate.id)?),
        Part::ShortId(least) => print_short_id(session, *least, candidate),
        Part::Type => print_type(session, candidate),
        Part::AheadBehind(base) => print_ahead_behind(session, *base, candidate),
        Part::Mark(_) => Ok(()),
    }
}

/// Prints a part, or passes the mark of a block. Returns where the field begins in the output that
/// ends here, if it is in no block: a block is one field.
fn pass_part<'f>(
    session: &mut Session<'_>,
    part: &'f Part,
    blocks: &mut Blocks<'f>,
    candidate: &Candidate,
    read: &Both,
) -> Result<Option<usize>, Stop> {
    let begin = match part {
        Part::Mark(mark) => blocks.pass(session.alloc, mark, &mut session.output)?,
        part => {
            let begin = session.output.len();
            print_part(session, part, candidate, read)?;
            match part {
                Part::Text(_) => None,
                _ => Some(begin),
            }
        }
    };
    Ok(if blocks.is_outside() { begin } else { None })
}

/// Prints a reference on a line, by a format for which it was looked up.
///
/// # Errors
///
/// `NotSupported` if a block of the format does not end, and if a text cannot be quoted or aligned.
fn print_reference(
    session: &mut Session<'_>,
    objects: &mut Objects,
    format: &[Part],
    language: Option<Language>,
    candidate: &Candidate,
) -> Result<(), Stop> {
    let read = Both::read(session, objects, format, candidate)?;
    let mut blocks = Blocks::new(session.alloc);
    for part in format {
        let begin = pass_part(session, part, &mut blocks, candidate, &read)?;
        if let (Some(begin), Some(language)) = (begin, language) {
            quote_from(session.alloc, language, &mut session.output, begin)?;
        }
    }
    blocks.finish(session.alloc)?;
    session.print(b"\n")?;
    Ok(())
}

/// Says how references are printed.
#[derive(Clone, Copy)]
pub struct Printing<'p> {
    pub format: &'p Format,
    /// By what references are sorted. The last key counts most.
    pub keys: &'p [SortKey],
    /// The language as whose strings fields are printed, if one is given.
    pub language: Option<Language>,
    /// How many references are printed at most.
    pub most: usize,
}

/// Sorts references, and prints each on a line.
///
/// # Errors
///
/// - `Fatal`, as in git, if an object is missing that is printed or by which references are sorted.
/// - `NotSupported` if git's text of a field is not known.
pub fn print_references(
    session: &mut Session<'_>,
    printing: Printing<'_>,
    candidates: &mut Vec<Candidate>,
) -> Result<(), Stop> {
    let format = printing.format.parts.as_slice();
    look_up(session, format, candidates)?;
    let mut objects = Objects::new(session.alloc, extent_of(format));
    sort(session, &mut objects, printing.keys, candidates)?;
    expect_names(session, format, candidates.len())?;
    candidates.truncate(printing.most);
    for candidate in candidates.iter() {
        print_reference(session, &mut objects, format, printing.language, candidate)?;
    }
    Ok(())
}
