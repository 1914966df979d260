//! States a law of partial histories, as the contract of a function.

ghost use Rattle.gix_c_core.specs.Partial.{EachIsWhole};

/// States that each history that has the commits that were put in is one that a partial history
/// may be.
pub fn each_is_whole()
    // If the history `more` has all commits of `h`, then `h` followed by `more` has the same
    // commits as `more`.
    ensures { EachIsWhole }
{}
