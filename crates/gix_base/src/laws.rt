//! Laws of ids, prefixes, object kinds and times: each is the contract of a function.

ghost use Rattle.std.specs.Prelude.{◌≡◌, Ok};
ghost use Rattle.hex.specs.Hex.{IsBytes};
ghost use Rattle.gix_base.specs.Laws.{OrderAgrees, HashAgrees, EqualIsSame, OrderIs, IdsReadBack, PrefixesReadBack, IdsHaveFullPrefixes, EqualIsBeginning};
ghost use Rattle.gix_base.specs.Hash.{IsId, id_order};
ghost use Rattle.gix_base.specs.Prefix.{prefix_order};
ghost use Rattle.gix_base.specs.Time.{time_order};
ghost use Rattle.gix_base.specs.Kind.{kind_order};

use crate::date::Time;
use crate::hash::{HexError, ObjectId, Prefix};
use crate::object::Kind;
use std::hash::Hash;

/// Every order agrees with its equality.
pub fn order_agrees<T: Ord>()
    // `Ord` answers `Equal` exactly for two values that are equal by `==`.
    ensures { OrderAgrees T.cmp T.eq }
{}

/// Every hash agrees with its equality.
pub fn hash_agrees<T: Hash>()
    // Two values that are equal by `==` are hashed by the same writes.
    ensures { HashAgrees T.hash_input T.eq }
{}

/// Ids: `==` says whether they are the same, and `Ord` and `Hash` agree with it.
pub fn ids_agree()
    // Two ids are equal by `==` exactly if they are the same.
    ensures same { EqualIsSame ⟦<ObjectId as PartialEq>⟧.eq }

    // `Ord` answers `Equal` exactly for two ids that are equal by `==`.
    ensures order { OrderAgrees ⟦<ObjectId as Ord>⟧.cmp ⟦<ObjectId as PartialEq>⟧.eq }

    // Two ids that are equal by `==` are hashed by the same writes.
    ensures hash { HashAgrees ⟦<ObjectId as Hash>⟧.hash_input ⟦<ObjectId as PartialEq>⟧.eq }
{
    order_agrees::<ObjectId>();
    hash_agrees::<ObjectId>();
}

/// Prefixes: `==` says whether they are the same, and `Ord` and `Hash` agree with it.
#[tactic(auto, using(crate::proofs::PrefixBack::equal_is_same))]
pub fn prefixes_agree()
    // Two prefixes are equal by `==` exactly if they are the same.
    ensures same { EqualIsSame ⟦<Prefix as PartialEq>⟧.eq }

    // `Ord` answers `Equal` exactly for two prefixes that are equal by `==`.
    ensures order { OrderAgrees ⟦<Prefix as Ord>⟧.cmp ⟦<Prefix as PartialEq>⟧.eq }

    // Two prefixes that are equal by `==` are hashed by the same writes.
    ensures hash { HashAgrees ⟦<Prefix as Hash>⟧.hash_input ⟦<Prefix as PartialEq>⟧.eq }
{
    order_agrees::<Prefix>();
    hash_agrees::<Prefix>();
}

/// Times: `==` says whether they are the same, and `Ord` and `Hash` agree with it.
pub fn times_agree()
    // Two times are equal by `==` exactly if they are the same.
    ensures same { EqualIsSame ⟦<Time as PartialEq>⟧.eq }

    // `Ord` answers `Equal` exactly for two times that are equal by `==`.
    ensures order { OrderAgrees ⟦<Time as Ord>⟧.cmp ⟦<Time as PartialEq>⟧.eq }

    // Two times that are equal by `==` are hashed by the same writes.
    ensures hash { HashAgrees ⟦<Time as Hash>⟧.hash_input ⟦<Time as PartialEq>⟧.eq }
{}

/// Object kinds: `==` says whether they are the same, and `Ord` and `Hash` agree with it.
pub fn kinds_agree()
    // Two object kinds are equal by `==` exactly if they are the same.
    ensures same { EqualIsSame ⟦<Kind as PartialEq>⟧.eq }

    // `Ord` answers `Equal` exactly for two object kinds that are equal by `==`.
    ensures order { OrderAgrees ⟦<Kind as Ord>⟧.cmp ⟦<Kind as PartialEq>⟧.eq }

    // Two object kinds that are equal by `==` are hashed by the same writes.
    ensures hash { HashAgrees ⟦<Kind as Hash>⟧.hash_input ⟦<Kind as PartialEq>⟧.eq }
{}

/// Ids are ordered by their bytes.
pub fn ids_are_ordered()
    // Ids are ordered by their bytes: the first byte that differs decides.
    ensures { OrderIs ⟦<ObjectId as Ord>⟧.cmp id_order }
{}

/// Prefixes are ordered by their padded bytes, then by their number of digits.
#[tactic(auto, using(crate::proofs::PrefixBack::order_is))]
pub fn prefixes_are_ordered()
    // Prefixes are ordered by the bytes of their digits, filled up with the digit 0, then by the
    // number of digits.
    ensures { OrderIs ⟦<Prefix as Ord>⟧.cmp prefix_order }
{}

/// Times are ordered by seconds, then by offset.
pub fn times_are_ordered()
    // Times are ordered by seconds, then by offset.
    ensures { OrderIs ⟦<Time as Ord>⟧.cmp time_order }
{}

/// Object kinds are ordered as their cases stand: tree, blob, commit, tag.
pub fn kinds_are_ordered()
    // Object kinds are ordered as tree, blob, commit, tag.
    ensures { OrderIs ⟦<Kind as Ord>⟧.cmp kind_order }
{}

/// Every id has 20 bytes.
pub fn is_id(id: &ObjectId)
    // The id has 20 bytes.
    ensures { IsId id.now }
{
    are_bytes(&id.0);
}

/// Each item of a slice of bytes is a byte.
fn are_bytes(bytes: &[u8])
    ensures { IsBytes bytes.now }
{}

/// What an id of 20 bytes prints reads back as that id.
#[tactic(auto, using(crate::proofs::ReadBack::reads_back))]
pub fn ids_read_back()
    // If an id has 20 bytes, its text can be read as an id, and the digits say the bytes of the id.
    ensures { IdsReadBack }
{}

/// What a prefix prints reads back as that prefix, whatever its number of digits.
#[tactic(auto, using(crate::proofs::PrefixBack::prefix_reads_back))]
pub fn prefixes_read_back()
    // The text of a prefix can be read as a prefix and is in lower case. No other prefix has this
    // text.
    ensures { PrefixesReadBack }
{}

/// Each id of 20 bytes has a prefix of all its digits.
pub fn ids_have_full_prefixes()
    // If an id has 20 bytes, there is a prefix of all its digits.
    ensures { IdsHaveFullPrefixes }
{}

/// [`Prefix::cmp_oid`] says `Equal` exactly for the ids that begin with the prefix.
#[tactic(auto, using(crate::proofs::PrefixBack::equal_is_beginning))]
pub fn equal_is_beginning()
    // A prefix compares as `Equal` with an id exactly if the id begins with the prefix.
    ensures { EqualIsBeginning }
{}

/// Writing the digits of an id and reading them gives the id.
pub fn id_reads_back(id: &ObjectId) -> Result<ObjectId, HexError>
    // The call succeeds, and the answer is the id that was passed.
    ensures { result ≡ Ok id.now }
{
    is_id(id);
    let mut digits = [0u8; 40];
    id.write_hex(40, &mut digits);
    ObjectId::from_hex(&digits)
}

/// Writing the digits of a prefix and reading them gives the prefix.
pub fn prefix_reads_back(prefix: &Prefix) -> Result<Prefix, HexError>
    // The call succeeds, and the answer is the prefix that was passed.
    ensures { result ≡ Ok prefix.now }
{
    let mut digits = [0u8; 40];
    let count = prefix.as_oid().write_hex(prefix.hex_len(), &mut digits);
    Prefix::from_hex(&digits[..count])
}
