//! Reads commits whose ids are the hashes of their contents.

ghost use Rattle.std.specs.Prelude.{◌≡◌, Some, IfOk, IfErr};
ghost use Rattle.gix_revwalk.specs.Held.{entry_of};
ghost use Rattle.gix_object.specs.Authentic.{IsAuthentic};
ghost use Rattle.gix_object.specs.AuthenticErrors.{IsRefused};
ghost use Rattle.gix_object.specs.ErrorTexts.{read_error_text};

use crate::commit::{ParseError, parse};
use crate::object::verify;
use gix_base::hash::ObjectId;
use gix_base::object::Kind;
use gix_revwalk::graph::SourceCommit;
use std::alloc::Allocator;
use std::fmt;
use thiserror::Error as StdError;

/// Says why a content is not read as the commit of an id.
#[derive(Clone, Copy, Debug, Drop, StdError)]
pub enum ReadError {
    /// The content, as that of a commit, has another id.
    WrongId,
    /// The content has the id, and is not read as a commit for this reason.
    Parse(ParseError),
}

impl fmt::Display for ReadError {
    ghost output = { λ e. Some (read_error_text e) };

    fn fmt<W: fmt::Write>(&self, f: &mut fmt::Formatter<W>) -> fmt::Result {
        match self {
            ReadError::WrongId => f.write_str("content of the commit has another id"),
            ReadError::Parse(error) => fmt::Display::fmt(error, f),
        }
    }
}

/// Returns the commit that `content` is, if `id` is the hash of this content.
///
/// The commit has no generation number.
///
/// # Errors
///
/// - [`ReadError::WrongId`]: the content, as that of a commit, has another id. Git's walks compare
///   no hash.
/// - [`ReadError::Parse`]: it has the id, and what [`parse`] says of this error is so of it.
pub fn read<A: Allocator>(
    alloc: A,
    id: ObjectId,
    content: &[u8],
) -> Result<SourceCommit<A>, ReadError>
    // The content is the one of this commit, and `id` is the hash of the content. The commit has no
    // generation number.
    ensures read { IfOk result (λ c. IsAuthentic content.now id (entry_of c)) }

    // `WrongId`: the content, as that of a commit, has another id. `Parse`: the content has this
    // id, and it has the cause of the error that `commit::parse` names.
    ensures refused { IfErr result (IsRefused content.now id) }
{
    if verify(id, Kind::Commit, content).is_err() {
        return Err(ReadError::WrongId);
    }
    match parse(alloc, content) {
        Ok(commit) => Ok(commit.into_source()),
        Err(error) => Err(ReadError::Parse(error)),
    }
}
