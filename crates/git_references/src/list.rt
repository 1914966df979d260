//! Lists the references that match patterns.

use crate::patterns::{fronts, is_wanted};
use git_session::session::Session;
use git_session::stop::Stop;
use gix_base::hash::ObjectId;
use gix_base::object::Kind;
use gix_ref::{Listed, Skipped, Why, is_full_name};
use gix_repository::Refusal;

/// A reference that may be printed.
#[derive(Drop)]
pub struct Candidate {
    /// The full name.
    pub name: Vec<u8>,
    /// The object at the end of symbolic references.
    pub id: ObjectId,
    /// The commit to which the object leads, once it was looked up.
    pub commit: Option<ObjectId>,
    /// The kind of the object, once it was looked up.
    pub kind: Option<Kind>,
    /// The date by which references are sorted, in seconds since 1970.
    pub seconds: i64,
    /// Tells whether the object was asked for.
    pub is_wanted: bool,
}

/// Warns of a reference that is left out. As git does, it says nothing of one that leads nowhere.
fn warn(session: &mut Session<'_>, skipped: &Skipped) -> Result<(), Stop> {
    match skipped.why {
        Why::LeadsNowhere => {}
        Why::NotUtf8 => {
            return Err(Stop::from(Refusal::NotUtf8));
        }
        Why::Broken if is_full_name(&skipped.name) => {
            session.say(&[b"warning: ignoring broken ref ", &skipped.name])?;
        }
        Why::Broken => session.say(&[b"warning: ignoring ref with broken name ", &skipped.name])?,
    }
    Ok(())
}

/// Warns of references that are left out.
fn warn_of_all(session: &mut Session<'_>, skipped: &[Skipped]) -> Result<(), Stop> {
    for one in skipped {
        warn(session, one)?;
    }
    Ok(())
}

/// Adds those of some references that match the patterns.
fn add_wanted(
    session: &Session<'_>,
    patterns: &[&[u8]],
    references: &[Listed],
    candidates: &mut Vec<Candidate>,
) -> Result<(), Stop> {
    for listed in references {
        if is_wanted(session.alloc, patterns, &listed.name)? {
            candidates.push(Candidate {
                name: listed.name.as_slice().to_vec(session.alloc)?,
                id: listed.id,
                commit: None,
                kind: None,
                seconds: 0,
                is_wanted: true,
            })?;
        }
    }
    Ok(())
}

/// Returns the references that match patterns, or all if there is none, sorted by name. As git
/// does, it warns of those that are broken and whose names begin as those of the patterns.
pub fn list_wanted(session: &mut Session<'_>, patterns: &[&[u8]]) -> Result<Vec<Candidate>, Stop> {
    let mut candidates = Vec::new(session.alloc);
    let fronts = fronts(session.alloc, patterns)?;
    for front in fronts.iter() {
        let listing = session.repository.list_references(front)?;
        warn_of_all(session, &listing.skipped)?;
        add_wanted(session, patterns, &listing.references, &mut candidates)?;
    }
    Ok(candidates)
}
