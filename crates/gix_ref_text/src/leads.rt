//! Decides where references lead (git-symbolic-ref).

ghost use Rattle.std.specs.Prelude.{◌≡◌, ℕ, List};
ghost use Rattle.std.specs.Option.{option_map};
ghost use Rattle.gix_ref_text.specs.Leads.{Leads, leads_by};
ghost use Rattle.gix_ref_text.specs.Found.{found_says, step_to};

use gix_base::hash::ObjectId;
use std::alloc::{Allocator, Global};

/// A reference that says an id.
#[derive(Drop)]
pub struct Reference<A: Allocator = Global> {
    /// The full name of the last reference, to which the symbolic ones lead.
    pub name: Vec<u8, A>,
    pub id: ObjectId,
    /// The object to which the tag with this id leads, if `packed-refs` says it.
    pub peeled: Option<ObjectId>,
}

/// What a reference says, or that it says garbage.
#[derive(Drop)]
pub enum Found<A: Allocator> {
    Id(ObjectId, Option<ObjectId>),
    LeadsTo(Vec<u8, A>),
    Garbage,
}

/// Where symbolic references lead.
#[derive(Drop)]
pub enum Led<A: Allocator> {
    Ends(Reference<A>),
    Nowhere,
    /// To a broken reference of this name.
    Breaks(Vec<u8, A>),
    TooFar,
}

/// Where one reference leads.
#[derive(Drop)]
pub enum Step<A: Allocator> {
    Done(Led<A>),
    /// Wherever the reference of this name leads.
    Next(Vec<u8, A>),
}

/// Returns where the reference with a name leads by what was found of it.
///
/// If nothing was found it leads nowhere, and if it says garbage, it is broken.
pub fn next_step<A: Allocator>(name: Vec<u8, A>, found: Option<Found<A>>) -> Step<A>
    // The step leads where a reference of this name leads by what was found, wherever the
    // references after it lead (`leads_by`).
    ensures { (further : List ℕ → Leads) → step_to result further ≡ leads_by (option_map found_says found) name.items further }
{
    match found {
        Some(Found::Id(id, peeled)) => Step::Done(Led::Ends(Reference { name, id, peeled })),
        Some(Found::LeadsTo(next)) => Step::Next(next),
        Some(Found::Garbage) => Step::Done(Led::Breaks(name)),
        None => Step::Done(Led::Nowhere),
    }
}
