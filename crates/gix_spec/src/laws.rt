//! States laws of the definitions. Each law is the contract of a function without parameters.

ghost use Rattle.gix_spec.specs.Ends.{DoneIsLast, ReadsAll, PiecesSpell, FaultIsLast, TakesNone};
ghost use Rattle.gix_spec.specs.Ends.{CallsAreNumbered, NamesPart, SecondIsOfName};
ghost use Rattle.gix_spec.specs.Heard.{PrintedReadsBack};
ghost use Rattle.gix_base.specs.Laws.{OrderAgrees, HashAgrees, OrderIs};
ghost use Rattle.std.specs.Prelude.{◌≡◌};
ghost use Rattle.gix_spec.specs.Orders.{spec_order, kind_order, step_order, sibling_order, hint_order, lookup_order, target_order};

use crate::spec::parse::Delegate;
use crate::spec::parse::delegate::{PeelTo, PrefixHint, ReflogLookup, SiblingBranch, Traversal};
use crate::spec::{Kind, Spec};
use gix_base::laws::{hash_agrees, order_agrees};
use std::hash::Hash;

/// Proves that `done` is the last call of a parse that ends well, and that it was accepted.
///
/// The delegate may have answered anything before.
#[tactic(auto, using(crate::proofs::Promises::done_is_last))]
pub fn done_is_last()
    // The last call of a parse that succeeds is `done`, and it was accepted.
    ensures { DoneIsLast }
{}

/// Proves that a parse that ends well read the whole text.
///
/// The pieces of the text then spell it, and none of them is a fault.
#[tactic(auto, using(crate::proofs::Promises::reads_all))]
pub fn reads_all<D: Delegate>()
    // If a parse succeeds, the pieces of the text spell the whole text, and no piece is a fault.
    ensures { ReadsAll D.step }
{}

/// Proves that the pieces of a text, written one after another, are the text.
///
/// A fault stands for the rest of the text. The text in a pair of braces, without its escapes, says
/// the number, branch, date, target or regex of the piece.
#[tactic(auto, using(crate::proofs::Spelled::pieces_spelled))]
pub fn pieces_spell_texts()
    // The pieces of a text, one after another, are the text. The text in a pair of braces, without
    // escapes, says the number, branch, date, target or regex. A fault stands for the rest of the
    // text.
    ensures { PiecesSpell }
{}

/// Proves that a fault is the last piece of a text.
#[tactic(auto, using(crate::proofs::Promises::fault_is_last))]
pub fn fault_is_last()
    // No piece of a text follows a fault.
    ensures { FaultIsLast }
{}

/// Proves that the parser allocates nothing for a text without an escape.
///
/// An escape is a backslash before a brace or a backslash. Without one, only the delegate can run
/// out of memory.
#[tactic(auto, using(crate::proofs::Promises::texts_take_none))]
pub fn texts_take_no_memory()
    // If no backslash of a text precedes a brace or a backslash, no piece of the text takes memory.
    ensures { TakesNone }
{}

/// Proves that no call asks for a parent or a branch of number 0, or for an index stage above 3.
#[tactic(auto, using(crate::proofs::Promises::calls_are_numbered))]
pub fn calls_are_numbered()
    // No call of a parse is for a parent or a branch of number 0, or for an index stage above 3.
    ensures { CallsAreNumbered }
{}

/// Proves that the part that a fault names is a part of the text.
#[tactic(auto, using(crate::proofs::Promises::names_part))]
pub fn faults_name_parts<D: Delegate>()
    // If a parse ends in a fault that names some bytes, these bytes are a part of the text.
    ensures { NamesPart D.step }
{}

/// Proves that an error has a second refusal only if a name was refused.
#[tactic(auto, using(crate::proofs::Promises::second_is_of_name))]
pub fn second_refusal_is_of_name<D: Delegate>()
    // If a parse ends in a fault with a second refusal, the fault is `NameRefused`.
    ensures { SecondIsOfName D.step }
{}

/// Proves that parsing a printed spec gives the spec back.
///
/// A delegate that accepts every call receives exactly these calls: for each id, in order, a prefix
/// of 40 digits; the kind of the spec, except for `Include`; and `done`.
#[tactic(auto, using(crate::proofs::Printed::printed_reads_back))]
pub fn printed_specs_read_back()
    // If the ids of a spec have 20 bytes and the delegate accepts every call, parsing the printed
    // spec succeeds. The calls are a prefix of 40 digits for each id in order, the kind of the spec
    // (none for `Include`) at its place, and `done`.
    ensures { PrintedReadsBack }
{}

/// Proves that `Ord` and `Hash` of specs agree with `==`.
pub fn specs_agree()
    // `Ord` answers `Equal` exactly for two specs that are equal by `==`.
    ensures order { OrderAgrees
        ⟦<Spec as Ord>⟧.cmp
        ⟦<Spec as PartialEq>⟧.eq }

    // Two specs that are equal by `==` are hashed by the same writes.
    ensures hash { HashAgrees
        ⟦<Spec as Hash>⟧.hash_input
        ⟦<Spec as PartialEq>⟧.eq }
{
    order_agrees::<Spec>();
    hash_agrees::<Spec>();
}

/// Proves that `Ord` and `Hash` of kinds of specs agree with `==`.
pub fn kinds_agree()
    // `Ord` answers `Equal` exactly for two kinds that are equal by `==`.
    ensures order { OrderAgrees
        ⟦<Kind as Ord>⟧.cmp
        ⟦<Kind as PartialEq>⟧.eq }

    // Two kinds that are equal by `==` are hashed by the same writes.
    ensures hash { HashAgrees
        ⟦<Kind as Hash>⟧.hash_input
        ⟦<Kind as PartialEq>⟧.eq }
{}

/// Proves that `Ord` and `Hash` of hints of prefixes agree with `==`.
pub fn hints_agree()
    // `Ord` answers `Equal` exactly for two hints that are equal by `==`.
    ensures order { OrderAgrees
        ⟦<PrefixHint<'static> as Ord>⟧.cmp
        ⟦<PrefixHint<'static> as PartialEq>⟧.eq }

    // Two hints that are equal by `==` are hashed by the same writes.
    ensures hash { HashAgrees
        ⟦<PrefixHint<'static> as Hash>⟧.hash_input
        ⟦<PrefixHint<'static> as PartialEq>⟧.eq }
{
    order_agrees::<PrefixHint<'static>>();
    hash_agrees::<PrefixHint<'static>>();
}

/// Proves that `Ord` and `Hash` of look-ups in a reflog agree with `==`.
pub fn lookups_agree()
    // `Ord` answers `Equal` exactly for two look-ups that are equal by `==`.
    ensures order { OrderAgrees
        ⟦<ReflogLookup as Ord>⟧.cmp
        ⟦<ReflogLookup as PartialEq>⟧.eq }

    // Two look-ups that are equal by `==` are hashed by the same writes.
    ensures hash { HashAgrees
        ⟦<ReflogLookup as Hash>⟧.hash_input
        ⟦<ReflogLookup as PartialEq>⟧.eq }
{}

/// Proves that `Ord` and `Hash` of steps agree with `==`.
pub fn traversals_agree()
    // `Ord` answers `Equal` exactly for two steps that are equal by `==`.
    ensures order { OrderAgrees
        ⟦<Traversal as Ord>⟧.cmp
        ⟦<Traversal as PartialEq>⟧.eq }

    // Two steps that are equal by `==` are hashed by the same writes.
    ensures hash { HashAgrees
        ⟦<Traversal as Hash>⟧.hash_input
        ⟦<Traversal as PartialEq>⟧.eq }
{}

/// Proves that `Ord` and `Hash` of peel targets agree with `==`.
pub fn targets_agree()
    // `Ord` answers `Equal` exactly for two peel targets that are equal by `==`.
    ensures order { OrderAgrees
        ⟦<PeelTo<'static> as Ord>⟧.cmp
        ⟦<PeelTo<'static> as PartialEq>⟧.eq }

    // Two peel targets that are equal by `==` are hashed by the same writes.
    ensures hash { HashAgrees
        ⟦<PeelTo<'static> as Hash>⟧.hash_input
        ⟦<PeelTo<'static> as PartialEq>⟧.eq }
{
    order_agrees::<PeelTo<'static>>();
    hash_agrees::<PeelTo<'static>>();
}

/// Proves that `Ord` and `Hash` of sibling branches agree with `==`.
pub fn siblings_agree()
    // `Ord` answers `Equal` exactly for two sibling branches that are equal by `==`.
    ensures order { OrderAgrees
        ⟦<SiblingBranch as Ord>⟧.cmp
        ⟦<SiblingBranch as PartialEq>⟧.eq }

    // Two sibling branches that are equal by `==` are hashed by the same writes.
    ensures hash { HashAgrees
        ⟦<SiblingBranch as Hash>⟧.hash_input
        ⟦<SiblingBranch as PartialEq>⟧.eq }
{}

/// Proves that specs are ordered by kind, then by the bytes of their ids.
pub fn specs_are_ordered()
    // Specs are ordered by kind, then by the bytes of the first id, then by those of the second id.
    ensures { OrderIs ⟦<Spec as Ord>⟧.cmp spec_order }
{}

/// Proves that kinds of specs are ordered as their variants are declared.
pub fn kinds_are_ordered()
    // Kinds of specs are ordered as their variants are declared.
    ensures { OrderIs ⟦<Kind as Ord>⟧.cmp kind_order }
{}

/// Proves that steps are ordered by variant, then by number.
pub fn traversals_are_ordered()
    // Steps are ordered by variant, `NthParent` first, then by number.
    ensures { OrderIs ⟦<Traversal as Ord>⟧.cmp step_order }
{}

/// Proves that sibling branches are ordered as their variants are declared.
pub fn siblings_are_ordered()
    // `Upstream` comes before `Push`.
    ensures { OrderIs ⟦<SiblingBranch as Ord>⟧.cmp sibling_order }
{}

/// Proves that hints are ordered by variant, then by the bytes of the name, then by generation.
pub fn hints_are_ordered()
    // `MustBeCommit` comes before anchors. Anchors are ordered by the bytes of the name, then by
    // generation.
    ensures { OrderIs ⟦<PrefixHint<'static> as Ord>⟧.cmp hint_order }
{}

/// Proves that look-ups in a reflog are ordered by variant, then by number or time.
pub fn lookups_are_ordered()
    // Entries come before dates. Entries are ordered by number, and dates by time.
    ensures { OrderIs ⟦<ReflogLookup as Ord>⟧.cmp lookup_order }
{}

/// Proves that peel targets are ordered by variant, then by kind or by the bytes of the path.
pub fn targets_are_ordered()
    // Peel targets are ordered by variant, object kinds then by kind, and paths by their bytes.
    ensures { OrderIs ⟦<PeelTo<'static> as Ord>⟧.cmp target_order }
{}
