//! Questions about a history.

ghost use Rattle.std.specs.Prelude.{◌≡◌, IfOk};

use gix_history::Refused;
use gix_revision::graph::{Commit, Find, Graph};
use gix_revision::merge_base::Flags;

/// A question that is asked of a graph, which keeps what it has looked up for the next one.
///
/// An implementor names what an answer means (`means`), for any history.
pub trait Ask {
    ghost use Rattle.gix_revwalk.specs.History.{History};

    type Answer: Drop;

    ghost means: { Self → History → Self.Answer → Type 0 };

    /// Answers over a graph.
    fn ask_graph<S: Find>(
        &self,
        graph: &mut Graph<S, Commit<Flags>>,
    ) -> Result<Self::Answer, Refused>
        ensures means { IfOk result (means self.now (S.history graph.old.source)) }
        ensures history { S.history graph.new.source ≡ S.history graph.old.source };
}
