//! Reads what annotated tags say.

ghost use Rattle.std.specs.Prelude.{IfOk, IfErr};
ghost use Rattle.gix_odb.specs.Stores.{IsObject, IsTagOf};
ghost use Rattle.gix_odb.specs.Refusals.{IsNoTag};

use crate::error::Error;
use crate::object::Object;
use gix_base::hash::ObjectId;
use gix_base::object::Kind;
use gix_object::tag::parse;
use std::alloc::{Allocator, Global};

/// What an annotated tag says.
#[derive(Drop)]
pub struct Tag<A: Allocator = Global> {
    /// The id of the object that is tagged.
    pub target: ObjectId,
    /// The kind of the target.
    pub kind: Kind,
    /// The tag's name.
    pub name: Vec<u8, A>,
    /// The tagger's date in seconds since the Unix epoch. It is 0 if git finds none.
    ///
    /// A date before the epoch counts down from 2^64. What 64 bits cannot hold is `u64::MAX`.
    pub date: u64,
}

/// Returns what an object says as a tag.
pub(crate) fn tagged<A: Allocator + Copy>(
    alloc: A,
    id: ObjectId,
    object: &Object<A>,
) -> Result<Tag<A>, Error>
    requires { IsObject id object.now.kind object.now.content.items }
    ensures found { IfOk result (λ t. IsTagOf id t.target t.kind t.name.items t.date) }
    ensures refused { IfErr result (IsNoTag id) }
{
    if object.kind != Kind::Tag {
        return Err(Error::NotATag(id, object.kind));
    }
    match parse(&object.content) {
        Ok(tag) => Ok(Tag {
            target: tag.target,
            kind: tag.kind,
            name: tag.name.to_vec(alloc)?,
            date: tag.date,
        }),
        Err(error) => Err(Error::MalformedTag(id, error)),
    }
}
