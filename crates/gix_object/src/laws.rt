//! States laws of objects and of authentic histories, each as the contract of a function.

ghost use Rattle.gix_object.specs.Authentic.{AuthenticAgree, TipsDetermine};
ghost use Rattle.gix_object.specs.ObjectLaws.{OneCommit, OneCommitError, OneHeader, OneLoose, OneTag, OneTagError, RefusedIsNoCommit, RefusedIsNoTag};

/// States that a content is the content of at most one commit, by parents and time.
pub fn one_commit()
    // A content is the one of at most one commit, by parents and time.
    ensures { OneCommit }
{}

/// States that a content with an error other than `OutOfMemory` is not the content of a commit, and
/// that it has at most one such error.
pub fn refused_is_no_commit()
    // A content with an error other than `OutOfMemory` is not the one of a commit.
    ensures none { RefusedIsNoCommit }

    // A content has at most one error other than `OutOfMemory`.
    ensures one { OneCommitError }
{}

/// States that a content is the content of at most one tag, by target, kind, name and date.
pub fn one_tag()
    // A content is the one of at most one tag, by target, kind, name and date.
    ensures { OneTag }
{}

/// States that a content with an error is not the content of a tag, and has at most one error.
pub fn refused_is_no_tag()
    // A content with an error is not the one of a tag.
    ensures none { RefusedIsNoTag }

    // A content has at most one error as the content of a tag.
    ensures one { OneTagError }
{}

/// States that bytes begin with at most one header, and are at most one loose object.
///
/// The size in the header is below 2^64, and the bytes of the loose object are fewer than 2^63.
pub fn one_loose()
    // Bytes begin with at most one header of a size below 2^64.
    ensures header { OneHeader }

    // Fewer than 2^63 bytes are at most one loose object.
    ensures object { OneLoose }
{}

/// States that two authentic histories have the same commit under each id that both have, or a
/// collision is at hand.
pub fn authentic_agree()
    // Two authentic histories have the same commit under each id that both have, or two contents
    // that were read under one id collide (`Collides`).
    ensures { AuthenticAgree }
{}

/// States that a tip reaches in a second authentic history what it reaches in the first, or a
/// collision is at hand.
///
/// The second history must have the tip, and all parents of its commits.
pub fn tips_determine()
    // If the second of two authentic histories has all parents of its commits: each tip that it has
    // reaches in it the commits that the tip reaches in the first, and they are the same commits.
    // Or two contents that were read under one id collide (`Collides`).
    ensures { TipsDetermine }
{}
