//! Finds the commits to which objects lead.

use crate::session::Session;
use crate::stop::Stop;
use gix_base::hash::ObjectId;
use gix_repository::Refusal;

/// Returns the commit to which an object leads through tags; `None` if it is another kind of
/// object, or if there is no such object.
///
/// # Errors
///
/// `Refused` if an object on the way is not read.
pub fn commit_of(session: &mut Session<'_>, id: ObjectId) -> Result<Option<ObjectId>, Stop> {
    match session.repository.commit(id) {
        Ok(found) => Ok(found),
        Err(Refusal::Object(gix_odb::Error::Missing(_))) if !session.repository.is_partial() => {
            Ok(None)
        }
        Err(refusal) => Err(Stop::from(refusal)),
    }
}
