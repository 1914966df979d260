//! Reads the content of a commit (git-commit-tree, "DESCRIPTION"), as git's own walks do.

ghost use Rattle.std.specs.Prelude.{◌≡◌, ◌++◌, ◌<◌, ◌^◌, pos, MatchOption, Some, None, SomeIff, IfOk, IfErr, OnOk, ◌∷◌, []};
ghost use Rattle.gix_object.specs.Lines.{id_at};
ghost use Rattle.gix_object.specs.CommitTime.{committed_at, seconds_at};
ghost use Rattle.gix_object.specs.CommitForm.{is_parent, IsParent, AreParents, IsUnread, IsCommit, IsRefused};
ghost use Rattle.gix_object.specs.ErrorTexts.{commit_error_text};

use crate::bytes::{after, after_line, begins, line_id};
use crate::digits::date;
use gix_base::hash::ObjectId;
use gix_revwalk::graph::SourceCommit;
use std::alloc::{AllocError, Allocator, Global};
use std::fmt;
use thiserror::Error as StdError;

/// What git's walks take from a commit.
#[derive(Drop)]
#[derive_where(Debug, PartialEq, Eq)]
pub struct Commit<A: Allocator = Global> {
    /// The ids of the parents, in order.
    pub parents: Vec<ObjectId, A>,
    /// The time of the committer, in seconds since the Unix epoch.
    pub time: i64,
}

impl<A: Allocator> Commit<A> {
    /// Returns the commit as a source has it, without a generation number.
    pub fn into_source(self) -> SourceCommit<A>
        // The commit has the same parents, in order.
        ensures parents { result.parents ≡ self.parents }

        // The commit has the same time.
        ensures time { result.time ≡ self.time }

        // The commit has no generation number.
        ensures no_generation { result.generation ≡ None }
    {
        SourceCommit {
            parents: self.parents,
            time: self.time,
            generation: None,
        }
    }
}

/// Says why the content of a commit is not read.
#[derive(Clone, Copy, Debug, Drop, StdError)]
pub enum ParseError {
    /// The content does not begin with a line `tree ID`, or nothing follows this line.
    BadTree,
    /// A `parent` line does not have an id, or it has the id of the tree, or nothing follows it.
    BadParent,
    /// The time, as git's walks read it, is 2^63 seconds or more.
    ///
    /// Git accepts such times. It counts negative times down from 2^64, so that dates before 1970
    /// are among them.
    TimeOutOfRange,
    /// An allocation for the parents failed.
    OutOfMemory,
}

impl fmt::Display for ParseError {
    ghost output = { λ e. Some (commit_error_text e) };

    fn fmt<W: fmt::Write>(&self, f: &mut fmt::Formatter<W>) -> fmt::Result {
        f.write_str(match self {
            ParseError::BadTree => "commit has no well-formed tree line",
            ParseError::BadParent => "commit has a malformed parent line",
            ParseError::TimeOutOfRange => "time of the commit is 2^63 seconds or more",
            ParseError::OutOfMemory => "out of memory",
        })
    }
}

impl From<AllocError> for ParseError {
    ghost use Rattle.gix_object.specs.declared.commit.ParseError.TheVariants.{OutOfMemory};

    ghost from_gives = { λ _ error. error ≡ OutOfMemory };

    fn from(_error: AllocError) -> ParseError {
        ParseError::OutOfMemory
    }
}

/// Returns whether git reads the front of `text` as a parent line.
#[tactic(auto, unfolding(crate::specs::CommitForm::is_parent))]
fn is_parent(text: &[u8]) -> bool
    ensures { result ≡ is_parent text.now }
{
    47 < text.len() && begins(text, b"parent ")
}

/// Returns the parent in the line at the front of `text`; `None` if the line is malformed.
fn parent_id(text: &[u8], tree: ObjectId) -> Option<ObjectId>
    ensures { MatchOption result (¬ IsParent tree text.now)
        (λ id. IsParent tree text.now × (id ≡ id_at text.now 7)) }
{
    let id = line_id(text, b"parent ")?;
    if id == tree { None } else { Some(id) }
}

/// Adds an id to a list.
fn add<A: Allocator>(ids: &mut Vec<ObjectId, A>, id: ObjectId) -> Result<(), AllocError>
    ensures { OnOk result (ids.new.items ≡ ids.old.items ++ id ∷ []) }
{
    ids.push(id)?;
    Ok(())
}

/// Returns the parents in the lines at the front of `text`, and the bytes after these lines.
fn parents<A: Allocator>(
    alloc: A,
    text: &[u8],
    tree: ObjectId,
) -> Result<(Vec<ObjectId, A>, &[u8]), ParseError>
    ensures read { IfOk result (λ p. AreParents tree text.now p.0.items p.1.now) }
    ensures unread { IfErr result (IsUnread tree text.now) }
{
    let mut ids = Vec::new(alloc);
    let mut rest = text;
    'lines: while is_parent(rest) {
        let Some(id) = parent_id(rest, tree) else {
            return Err(ParseError::BadParent);
        };
        add(&mut ids, id)?;
        rest = after_line(rest, 48);
    }
    Ok((ids, rest))
}

/// Returns the date in the committer's line, or 0 if `text` does not begin with one.
#[tactic(auto, unfolding(crate::specs::CommitTime::committed_at))]
fn committed(text: &[u8]) -> u64
    ensures { result ≡ committed_at text.now }
{
    if begins(text, b"committer") {
        date(after(text, b'>'))
    } else {
        0
    }
}

/// Returns the time that git reads from the bytes after the parents' lines.
#[tactic(auto, unfolding(crate::specs::CommitTime::seconds_at))]
fn seconds(text: &[u8]) -> u64
    ensures { result ≡ seconds_at text.now }
{
    if begins(text, b"author") {
        committed(after(text, b'\n'))
    } else {
        0
    }
}

/// Returns that time, if an `i64` holds it.
fn time(text: &[u8]) -> Option<i64>
    ensures { SomeIff result (seconds_at text.now < 2 ^ 63) (pos (seconds_at text.now)) }
{
    0i64.checked_add_unsigned(seconds(text))
}

/// Returns the parents of a commit and the time of its committer, read from the commit's content.
///
/// Malformed contents are read as git's walks read them: only what parents and time depend on is
/// checked. A parent is listed as often as it has lines. The time is 0 if git finds none, for
/// instance if there is no line of the author, or if the committer's line is the last.
///
/// # Errors
///
/// - [`ParseError::BadTree`]: the content does not begin with the line of a tree. Git rejects it.
/// - [`ParseError::BadParent`]: a parent line is malformed. Git rejects the content.
/// - [`ParseError::TimeOutOfRange`]: the time is 2^63 seconds or more. Git reads the commit.
/// - [`ParseError::OutOfMemory`]: an allocation for the parents failed.
pub fn parse<A: Allocator>(alloc: A, text: &[u8]) -> Result<Commit<A>, ParseError>
    // The content is the one of a commit with these parents, in order, and this time.
    ensures read { IfOk result (λ c. IsCommit text.now c.parents.items c.time) }

    // `BadTree`: the content does not begin with the line of a tree. `BadParent`: this line is
    // there, and a parent line is malformed. `TimeOutOfRange`: the time is 2^63 or more.
    ensures refused { IfErr result (IsRefused text.now) }
{
    let Some(tree) = line_id(text, b"tree ") else {
        return Err(ParseError::BadTree);
    };
    let (parents, rest) = parents(alloc, after_line(text, 46), tree)?;
    match time(rest) {
        Some(time) => Ok(Commit { parents, time }),
        None => Err(ParseError::TimeOutOfRange),
    }
}
