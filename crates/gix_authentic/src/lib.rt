//! States what the ids of commits determine, each law as the contract of a function.
//!
//! A history is authentic if every id is the hash of the commit's content. Such a history meets the
//! premises of all answers, unless contents name each other's hashes in a circle.
//!
//! The laws on what ids determine are about two authentic histories, which have all parents of
//! their commits. If both have the ids of a question, the answers are the same, or two contents that
//! were read under one id collide.
#![tactic(auto)]

ghost use Rattle.gix_authentic.specs.Determined.{AncestryIsDetermined, BasesAreDetermined};
ghost use Rattle.gix_authentic.specs.Determined.{RangesAreDetermined, ListsAreDetermined, CountsAreDetermined};
ghost use Rattle.gix_authentic.specs.Determined.{OctopusBasesAreDetermined, OctopusBaseIsDetermined};
ghost use Rattle.gix_authentic.specs.Determined.{DescriptionsAreDetermined};
ghost use Rattle.gix_authentic.specs.Sound.{CyclesAreCircles, GenerationsAreOrdered};

/// States that an authentic history is acyclic, with ordered generations.
pub fn premises_are_met()
    // If a commit of an authentic history is an ancestor of one of its parents, contents name each
    // other's hashes in a circle.
    ensures acyclic { CyclesAreCircles }

    // An authentic history has ordered generations.
    ensures ordered { GenerationsAreOrdered }
{}

/// States that ids determine which commits they reach.
pub fn ancestry_is_determined()
    // Let two histories be authentic and closed. A commit that both have reaches the same commits
    // in both, or two contents that were read under one id collide.
    ensures { AncestryIsDetermined }
{}

/// States that ids determine the commits that some of them reach and others do not, the list of
/// these commits, and how many there are.
pub fn ranges_are_determined()
    // Let two histories be authentic and closed. A range of ids that both have is the same in both,
    // or two contents that were read under one id collide.
    ensures all { RangesAreDetermined }

    // Let two histories be authentic and closed. The list of a range of ids that both have is the
    // same in both, or two contents that were read under one id collide.
    ensures list { ListsAreDetermined }

    // Let two histories be authentic and closed. The number of commits in a range of ids that both
    // have is the same in both, or two contents that were read under one id collide.
    ensures count { CountsAreDetermined }
{}

/// States that ids determine their merge bases.
pub fn bases_are_determined()
    // Let two histories be authentic and closed. The merge bases of ids that both have are the same
    // in both, or two contents that were read under one id collide.
    ensures { BasesAreDetermined }
{}

/// States that ids determine their octopus bases, and which of these is the octopus base.
pub fn octopus_bases_are_determined()
    // Let two histories be authentic and closed. The octopus bases of ids that both have are the
    // same in both, or two contents that were read under one id collide.
    ensures all { OctopusBasesAreDetermined }

    // Let two histories be authentic and closed. The octopus base of ids that both have is the same
    // in both, or two contents that were read under one id collide.
    ensures one { OctopusBaseIsDetermined }
{}

/// States that the id of a commit determines its descriptions by the same names.
pub fn descriptions_are_determined()
    // Let two histories be authentic and closed. With the same names, number of candidates and
    // fallback, a commit that both have has the same descriptions in both, or two contents that
    // were read under one id collide.
    ensures { DescriptionsAreDetermined }
{}
