//! Laws of histories and merge bases: what follows from the definitions for every history.
//!
//! The functions here do nothing. The contract of each is the law.

ghost use Rattle.gix_merge_base.specs.HistoryLaws.{EdgesJoinCommits, AncestorsHoldTheStart};
ghost use Rattle.gix_merge_base.specs.HistoryLaws.{AncestorsGoOn, AncestorsAreCommits};
ghost use Rattle.gix_merge_base.specs.HistoryLaws.{AncestorsAreLeast, NoneAreMutualAncestors};
ghost use Rattle.gix_merge_base.specs.HistoryLaws.{MaximalAboveEach, MaximalExists};
ghost use Rattle.gix_merge_base.specs.HistoryLaws.{LackedChangesNoBases, BasesCover};
ghost use Rattle.gix_merge_base.specs.HistoryLaws.{SameIdsSameOctopusBase, OctopusBaseInAnyOrder};
ghost use Rattle.gix_merge_base.specs.HistoryLaws.{WholeHistoriesMeet, FewerIdsAskLess, FallingKeysSuffice};
ghost use Rattle.gix_merge_base.specs.HistoryLaws.{OrderedIdsFall, OrderedBasesAreOne};
ghost use Rattle.gix_base.specs.Laws.{OrderAgrees, OrderIs};
ghost use Rattle.gix_merge_base.specs.GenThenTime.{key_order};

use crate::merge_base::GenThenTime;
use gix_base::laws::order_agrees;

pub mod flags;

/// States that edges lead from commit to commit: a parent that the history does not have is on no
/// edge.
pub fn edges_join_commits()
    // The history has both ends of every edge.
    ensures { EdgesJoinCommits }
{}

/// States that a commit of the history is its own ancestor.
pub fn ancestors_are_reflexive()
    // A commit that the history has is its own ancestor.
    ensures { AncestorsHoldTheStart }
{}

/// States that an ancestor of an ancestor is an ancestor.
pub fn ancestors_are_transitive()
    // An ancestor of an ancestor of a commit is an ancestor of that commit.
    ensures { AncestorsGoOn }
{}

/// States that an id which the history does not have has no ancestors and is no ancestor.
pub fn ancestors_are_commits()
    // The history has every ancestor, and every commit that has an ancestor.
    ensures { AncestorsAreCommits }
{}

/// States that the ancestors of a commit are the least set that has the commit and follows edges.
pub fn ancestors_are_least()
    // A set that has a commit, and the end of each edge that starts in the set, has all ancestors
    // of that commit.
    ensures { AncestorsAreLeast }
{}

/// States that no two commits that acyclic ids reach are ancestors of each other.
pub fn ancestors_are_antisymmetric()
    // Premise: acyclic. Two commits that the ids reach are ancestors of each other only if they are
    // equal.
    ensures { NoneAreMutualAncestors }
{}

/// States that of finitely many commits which reach no cycle, each has a maximal one as a
/// descendant.
///
/// So a nonempty list of such commits has a maximal one. A commit is its own descendant.
pub fn maximal_ones_exist()
    // Premise: acyclic. If the history has all of some ids, each of these ids is an ancestor of one
    // that no other of these ids reaches.
    ensures above { MaximalAboveEach }

    // Premise: acyclic. If the history has all of some ids, and there is at least one id, then
    // there is one that no other of these ids reaches.
    ensures some { MaximalExists }
{}

/// States that an id which the history does not have changes no merge bases as one of the others.
///
/// It must not be the first commit, nor the only one of the others.
pub fn lacked_changes_no_bases()
    // An id that the history does not have changes no merge base as one of the others, unless the
    // id is the first one, or the only one of the others.
    ensures { LackedChangesNoBases }
{}

/// States that two commits have the ancestors of their merge bases in common, and no others.
///
/// The two commits must reach no cycle.
pub fn bases_cover()
    // Premise: acyclic. The ancestors of the merge bases of two commits are exactly the common
    // ancestors of both commits.
    ensures { BasesCover }
{}

/// States that the octopus base depends on the set of ids alone.
///
/// Two calls for the same ids have the same answer, in any order of `first` and `others` together.
pub fn octopus_base_is_of_the_set()
    // The same ids have the same octopus base, in any order and however often each is given.
    ensures same_ids { SameIdsSameOctopusBase }

    // The same ids in another order, each as often as before, have the same octopus base.
    ensures any_order { OctopusBaseInAnyOrder }
{}

/// States that a premise which holds of every edge of a history holds of what any ids reach.
pub fn whole_histories_meet()
    // If a history is acyclic, or has ordered generations, falling keys or never-rising keys, it
    // has the same property for what any ids reach.
    ensures { WholeHistoriesMeet }
{}

/// States that a premise which holds for some ids holds for fewer of them.
///
/// If each of some ids is also one of others, then a premise that holds for what the others reach
/// holds for what these ids reach.
pub fn fewer_ids_ask_less()
    // If a premise holds for what some ids reach, it also holds for what any of these ids reach.
    // The premises are acyclic, ordered generations, falling keys and never-rising keys.
    ensures { FewerIdsAskLess }
{}

/// States that falling keys imply acyclic and ordered generations, for what the same ids reach.
pub fn falling_keys_suffice()
    // Premise: falling keys. What the ids reach is acyclic and has ordered generations.
    ensures { FallingKeysSuffice }
{}

/// States that in the order of answers no id has a greater key than an earlier id.
pub fn ordered_ids_fall()
    // In the order of answers, no id has a greater key than an earlier id.
    ensures { OrderedIdsFall }
{}

/// States that the sorted merge bases are one list.
///
/// An answer that has exactly the merge bases therefore depends on the history and the arguments
/// alone, and not on what the graph held.
pub fn ordered_bases_are_one()
    // Two lists of exactly the merge bases, both in the order of answers, are equal.
    ensures { OrderedBasesAreOne }
{}

/// States that keys are ordered by generation number, then by time, and that `Ord` agrees with
/// `==`.
pub fn keys_are_ordered()
    // Keys are compared by generation number, then by time.
    ensures order { OrderIs ⟦<GenThenTime as Ord>⟧.cmp key_order }

    // Two keys compare as equal exactly if `==` says that the keys are equal.
    ensures agrees { OrderAgrees ⟦<GenThenTime as Ord>⟧.cmp ⟦<GenThenTime as PartialEq>⟧.eq }
{
    order_agrees::<GenThenTime>();
}
