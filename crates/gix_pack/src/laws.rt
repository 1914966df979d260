//! States laws of packs, each as the contract of a function.

ghost use Rattle.gix_pack.specs.PackLaws.{OneHeader, OneTarget, OneObject, RefusedIsNoDelta, FaultyIsNoIndex, PartsFind};

/// States that a text begins with one header of an entry at most.
pub fn one_header()
    // A text begins with at most one header of an entry.
    ensures { OneHeader }
{}

/// States that a delta makes one target at most of a base.
pub fn one_target()
    // A delta makes at most one target of a base.
    ensures { OneTarget }
{}

/// States that a delta makes no target within the limit if [`delta::apply`](crate::delta::apply)
/// refuses it, except for memory.
pub fn refused_is_no_delta()
    // A delta that is refused, except for memory, makes no target of the base within the limit.
    ensures { RefusedIsNoDelta }
{}

/// States that bytes are no index if what a fault says of them is true.
pub fn faulty_is_no_index()
    // Bytes are not an index if what some fault says of them is true.
    ensures { FaultyIsNoIndex }
{}

/// States that one object at most is at an offset of a pack.
pub fn one_object()
    // There is at most one object at an offset of a pack, with one kind and one content.
    ensures { OneObject }
{}

/// States that an id is found in the part of an index that has its first byte exactly as in the
/// whole index.
pub fn parts_find()
    // If the first byte of an id is less than 256, a look-up in the part of an index for this byte
    // finds exactly what a look-up in the whole index finds. The ids of the part rise.
    ensures { PartsFind }
{}
