//! States laws of histories in authentic mode, each as the contract of a function.

ghost use Rattle.gix_history.specs.HistoryLaws.{PlainIsAuthentic, TipsDetermine};

/// States that loaded commits, without their levels, are an authentic history.
///
/// So the laws of `gix_object` and `gix_authentic` on authentic histories hold of them.
pub fn plain_is_authentic()
    // If each commit of a history is what a content says whose hash is its id, the history without
    // generation numbers is authentic. If the history is closed, it stays closed.
    ensures { PlainIsAuthentic }
{}

/// States that a tip of a loaded history reaches in it all that it reaches in another one, or that
/// two different contents have one id.
pub fn tips_determine()
    // Let each commit of two histories be what a content says whose hash is its id, and let the
    // second be closed. Then each tip that the second has reaches in it all commits that the tip
    // reaches in the first, with the same parents and dates, or two different contents have one id.
    ensures { TipsDetermine }
{}
