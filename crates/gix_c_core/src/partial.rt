//! Questions about partial histories, of which not all commits were put in.

ghost use Rattle.std.specs.Prelude.{◌≡◌, ◌++◌, IfErr, IfOk, None, OnOk, Some};
ghost use Rattle.gix_c_core.specs.Behind.{commits_in};
ghost use Rattle.gix_c_core.specs.Partial.{IsUnanswered, IsTold, whole_in};

use crate::ask::Ask;
use crate::extent::Extent;
use crate::history::History;
use crate::status::{OUT_OF_MEMORY, WANTS};
use gix_history::{Beyond, Partial, Refused};
use gix_revision::commit_graph::Commits;
use gix_revision::graph::Graph;
use gix_revision::hash::ObjectId;
use std::alloc::Global;

impl History {
    /// Answers a question over the commits that were put in, as if there were no others.
    fn answer_complete<Q: Ask>(&mut self, question: &Q) -> Result<Q::Answer, i32>
        ensures means { IfOk result (Q.means question.now (commits_in self.old)) }
        ensures refused { IfErr result (λ code. code ≡ OUT_OF_MEMORY) }
        ensures commits { commits_in self.new ≡ commits_in self.old }
        ensures named { self.new.named ≡ self.old.named }
        ensures table { self.new.table ≡ self.old.table }
        ensures extent { self.new.extent ≡ self.old.extent }
    {
        match question.ask_graph(&mut self.graph) {
            Ok(answer) => Ok(answer),
            // A source in memory does not fail.
            Err(_) => Err(OUT_OF_MEMORY),
        }
    }

    /// Notes that a question wanted this commit, unless it was put in. Returns the code.
    pub(crate) fn want(&mut self, alloc: Global, wanted: Option<ObjectId>) -> i32
        ensures told { IsTold result self.old self.new }
        ensures same { result ≡ OUT_OF_MEMORY → self.new ≡ self.old }
        ensures graph { self.new.graph ≡ self.old.graph }
        ensures named { self.new.named ≡ self.old.named }
        ensures table { self.new.table ≡ self.old.table }
    {
        let Some(id) = wanted else {
            return OUT_OF_MEMORY;
        };
        match self.graph.source().get(alloc, id) {
            Ok(None) => {}
            _ => return OUT_OF_MEMORY,
        }
        self.extent = Extent::Partial(Some(id));
        WANTS
    }

    /// Answers a question over the commits that were put in, whatever lies beyond them.
    fn answer_partial<K: Beyond, Q: Ask>(
        &mut self,
        alloc: Global,
        question: &Q,
    ) -> Result<Q::Answer, i32>
        ensures means { IfOk result (Q.means question.now (commits_in self.old ++ K.beyond)) }
        ensures refused { IfErr result (λ code. IsTold code self.old self.new) }
        ensures graph { self.new.graph ≡ self.old.graph }
        ensures named { self.new.named ≡ self.old.named }
        ensures table { self.new.table ≡ self.old.table }
        ensures extent { OnOk result (self.new.extent ≡ self.old.extent) }
    {
        let source = Partial::<&Commits<Global>, K>::new(self.graph.source());
        let mut graph = Graph::with_seed(alloc, source, self.graph.seed());
        let asked = question.ask_graph(&mut graph);
        let wanted = graph.source().wanted;
        drop(graph);
        match asked {
            Ok(answer) => Ok(answer),
            Err(Refused::OutOfMemory) => Err(OUT_OF_MEMORY),
            Err(Refused::Source) => Err(self.want(alloc, wanted)),
        }
    }

    /// Answers a question, or returns a code. If it wants a commit, the history notes which.
    pub fn answer<K: Beyond, Q: Ask>(
        &mut self,
        alloc: Global,
        question: &Q,
    ) -> Result<Q::Answer, i32>
        // The answer is what `Q.means` allows for the question in the whole history. If the history
        // is partial, the whole history also has the commits of `K.beyond`.
        ensures means { IfOk result (Q.means question.now (whole_in self.old K.beyond)) }

        // After `OUT_OF_MEMORY`, the history is complete or partial as before, and the wanted
        // commit is unchanged. The only other error code is `WANTS`, of a partial history, which
        // then notes as wanted a commit that was neither added nor in its files.
        ensures refused { IfErr result (λ code. IsUnanswered code self.old self.new) }

        // Also after an error, the commits of the history are unchanged.
        ensures commits { commits_in self.new ≡ commits_in self.old }

        // Also after an error, the noted parents are unchanged.
        ensures named { self.new.named ≡ self.old.named }

        // Also after an error, the ref names, and the ids that abbreviated object names stand for,
        // are unchanged.
        ensures table { self.new.table ≡ self.old.table }

        // After a success, the history is complete or partial as before, and the wanted commit is
        // unchanged.
        ensures extent { OnOk result (self.new.extent ≡ self.old.extent) }
    {
        match self.extent {
            Extent::Complete => self.answer_complete(question),
            Extent::Partial(_) => self.answer_partial::<K, Q>(alloc, question),
        }
    }
}
