//! Computes the ids of objects (git-hash-object).

ghost use Rattle.std.specs.Prelude.{◌≡◌, ◌≢◌, IfErr, OnOk};
ghost use Rattle.gix_object.specs.ObjectForm.{id_of_object};

use crate::kinds::name;
use gix_base::hash::ObjectId;
use gix_base::object::Kind;
use itoa::Buffer;
use sha1::Sha1;

/// Returns the id of an object: the SHA-1 of its header and its content.
///
/// The header has the kind and the size (gitglossary, "object name").
#[tactic(auto, unfolding(crate::specs::ObjectForm::id_of_object))]
pub fn object_id(kind: Kind, content: &[u8]) -> ObjectId
    // The answer is the SHA-1 of the object with its header.
    ensures { result ≡ id_of_object kind content.now }
{
    let mut size = Buffer::new();
    let mut hasher = Sha1::new();
    hasher.update(name(kind));
    hasher.update(b" ");
    hasher.update(size.format(content.len()).as_bytes());
    hasher.update(b"\0");
    hasher.update(content);
    ObjectId(hasher.finalize())
}

/// Compares the id of an object with the id that it was read by.
///
/// # Errors
///
/// The object's own id, if it is another one.
pub fn verify(id: ObjectId, kind: Kind, content: &[u8]) -> Result<(), ObjectId>
    // After a success, the SHA-1 of the object with its header is `id`.
    ensures same { OnOk result (id_of_object kind content.now ≡ id) }

    // After an error, the error is this SHA-1, and it is not `id`.
    ensures other { IfErr result
        (λ own. (own ≡ id_of_object kind content.now) × (own ≢ id)) }
{
    let own = object_id(kind, content);
    if own == id { Ok(()) } else { Err(own) }
}
