//! Describes commits of complete and partial histories.

ghost use Rattle.std.specs.Prelude.{◌≡◌, ◌⊎◌, ◌++◌, IfErr, IfOk, IfSome, IsTrue, OnOk};
ghost use Rattle.gix_describe.specs.Lent.{options_by, outcomes_by};
ghost use Rattle.gix_describe.specs.Outcomes.{Describes};
ghost use Rattle.gix_c_core.specs.Behind.{commits_in};
ghost use Rattle.gix_c_core.specs.Descriptions.{IsUndescribed, TellsWalk};
ghost use Rattle.gix_c_core.specs.Partial.{Wants, is_partial, whole_in};

use crate::extent::Extent;
use crate::history::History;
use crate::status::{NO_COMMIT, OUT_OF_MEMORY, TOO_MANY, WANTS};
use gix_history::{Beyond, Partial};
use gix_revision::commit_graph::Commits;
use gix_revision::describe::{Manner, Names, Nearest, counted_by};
use gix_revision::error::Message;
use gix_revision::graph::Graph;
use gix_revision::hash::ObjectId;
use std::alloc::Global;

impl History {
    /// Describes a commit over the commits that were put in, as if there were no others. Returns a
    /// code if it cannot.
    #[tactic(auto, unfolding(crate::specs::Descriptions::TellsWalk))]
    fn describe_complete<'a>(
        &self,
        alloc: Global,
        commit: ObjectId,
        names: &Names<'a>,
        manner: Manner,
    ) -> Result<Option<Nearest<'a>>, i32>
        ensures described { IfOk result (λ r. Describes (commits_in self.now) commit
            (options_by names.now manner) (outcomes_by names.now r)) }
        ensures kept { IfOk result (λ r. IfSome r (λ n. n.id ≡ commit)) }
        ensures refused { IfErr result
            (IsUndescribed (commits_in self.now) commit manner.first_parent) }
        ensures walk { IfErr result (TellsWalk commit (options_by names.now manner)) }
    {
        let mut marks = Graph::with_seed(alloc, self.graph.source(), self.graph.seed());
        match counted_by(alloc, &commit, &mut marks, names, manner) {
            Ok((found, _pops)) => Ok(found),
            Err(Message::MissingStart(_)) => Err(NO_COMMIT),
            Err(Message::CounterFull) => Err(TOO_MANY),
            // A source in memory does not fail.
            Err(Message::ParentsOf(_) | Message::OutOfMemory) => Err(OUT_OF_MEMORY),
        }
    }

    /// Describes a commit over the commits that were put in, whatever lies beyond them. Returns a
    /// code if it cannot.
    #[tactic(auto, unfolding(crate::specs::Descriptions::TellsWalk))]
    fn describe_partial<'a, K: Beyond>(
        &mut self,
        alloc: Global,
        commit: ObjectId,
        names: &Names<'a>,
        manner: Manner,
    ) -> Result<Option<Nearest<'a>>, i32>
        ensures described { IfOk result (λ r. Describes (commits_in self.old ++ K.beyond) commit
            (options_by names.now manner) (outcomes_by names.now r)) }
        ensures kept { IfOk result (λ r. IfSome r (λ n. n.id ≡ commit)) }
        ensures refused { IfErr result (λ code. ((code ≡ WANTS) × Wants self.old self.new)
            ⊎ (IsUndescribed (commits_in self.old ++ K.beyond) commit manner.first_parent code
            × (self.new ≡ self.old))) }
        ensures walk { IfErr result (TellsWalk commit (options_by names.now manner)) }
        ensures same { OnOk result (self.new ≡ self.old) }
        ensures graph { self.new.graph ≡ self.old.graph }
        ensures named { self.new.named ≡ self.old.named }
        ensures table { self.new.table ≡ self.old.table }
    {
        let source = Partial::<&Commits<Global>, K>::new(self.graph.source());
        let mut marks = Graph::with_seed(alloc, source, self.graph.seed());
        let error = match counted_by(alloc, &commit, &mut marks, names, manner) {
            Ok((found, _pops)) => return Ok(found),
            Err(error) => error,
        };
        let wanted = marks.source().wanted;
        drop(marks);
        match error {
            Message::MissingStart(_) => Err(NO_COMMIT),
            Message::CounterFull => Err(TOO_MANY),
            Message::OutOfMemory => Err(OUT_OF_MEMORY),
            Message::ParentsOf(_) => Err(self.want(alloc, wanted)),
        }
    }

    /// Describes a commit, or returns a code. If a commit is wanted, the history notes which.
    pub(crate) fn describe<'a, K: Beyond>(
        &mut self,
        alloc: Global,
        commit: ObjectId,
        names: &Names<'a>,
        manner: Manner,
    ) -> Result<Option<Nearest<'a>>, i32>
        ensures described { IfOk result (λ r. Describes (whole_in self.old K.beyond) commit
            (options_by names.now manner) (outcomes_by names.now r)) }
        ensures kept { IfOk result (λ r. IfSome r (λ n. n.id ≡ commit)) }
        ensures refused { IfErr result (λ code. ((code ≡ WANTS)
            × IsTrue (is_partial self.old.extent) × Wants self.old self.new)
            ⊎ (IsUndescribed (whole_in self.old K.beyond) commit manner.first_parent code
            × (self.new ≡ self.old))) }
        ensures walk { IfErr result (TellsWalk commit (options_by names.now manner)) }
        ensures same { OnOk result (self.new ≡ self.old) }
        ensures graph { self.new.graph ≡ self.old.graph }
        ensures named { self.new.named ≡ self.old.named }
        ensures table { self.new.table ≡ self.old.table }
    {
        match self.extent {
            Extent::Complete => self.describe_complete(alloc, commit, names, manner),
            Extent::Partial(_) => self.describe_partial::<K>(alloc, commit, names, manner),
        }
    }
}
