//! Compares objects with their ids.

ghost use Rattle.std.specs.Prelude.{IfOk, IfErr};
ghost use Rattle.gix_odb.specs.Stores.{IsObject};
ghost use Rattle.gix_odb.specs.Refusals.{IsFailure};

use crate::failure::Failure;
use gix_base::hash::ObjectId;
use gix_base::object::Kind;
use gix_object::verify;
use std::alloc::{Allocator, Global};

/// An object: its kind and its content.
#[derive(Drop)]
pub struct Object<A: Allocator = Global> {
    pub kind: Kind,
    pub content: Vec<u8, A>,
}

/// Takes what was read as the object with this id, if its id is this one.
pub(crate) fn accepted<A: Allocator>(
    id: ObjectId,
    kind: Kind,
    content: Vec<u8, A>,
) -> Result<Object<A>, Failure>
    ensures found { IfOk result (λ o. IsObject id o.kind o.content.items) }
    ensures failed { IfErr result (IsFailure id) }
{
    match verify(id, kind, &content) {
        Ok(()) => Ok(Object { kind, content }),
        Err(own) => Err(Failure::Altered(own)),
    }
}
