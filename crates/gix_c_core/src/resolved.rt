//! Resolves revisions over complete and partial histories.

ghost use Rattle.std.specs.Prelude.{◌≡◌, ◌++◌, false, IfErr, IfOk, OnOk};
ghost use Rattle.std.specs.BTreeSet.{keys};
ghost use Rattle.gix_resolve.specs.Known.{known_by};
ghost use Rattle.gix_resolve.specs.Resolved.{is_fault};
ghost use Rattle.gix_revwalk.specs.Faults.{count_after};
ghost use Rattle.gix_c_core.specs.Behind.{commits_in, known_in};
ghost use Rattle.gix_c_core.specs.Partial.{IsTold, IsUnanswered, whole_in};
ghost use Rattle.gix_c_core.specs.Readings.{IsReading, MeansBy, NamesPart, ReadsAs};

use crate::extent::Extent;
use crate::faults::{FaultPlace, fault_place};
use crate::history::History;
use crate::revisions::{Span, span_of};
use crate::status::OUT_OF_MEMORY;
use gix_history::{Beyond, Partial, Refused};
use gix_resolve::{Table, resolve, rev_parse};
use gix_revision::commit_graph::Commits;
use gix_revision::date::Time;
use gix_revision::graph::{Commit, Find, Graph};
use gix_revision::merge_base::Flags;
use gix_revision::spec::Spec;
use gix_revision::spec::parse::Error;
use std::alloc::Global;

/// What a revision was found to mean.
#[derive(Clone, Copy)]
pub enum Reading {
    /// It means this set.
    Set(Span),
    /// It has a fault.
    Fault(FaultPlace),
    OutOfMemory,
}

/// Resolves a revision over a graph. If `refs_first` is set, a ref name wins over an abbreviated
/// object name, as in git.
#[tactic(auto, using(crate::proofs::Parts::part_named))]
fn answer_of<'a, S: Find>(
    alloc: Global,
    text: &'a [u8],
    now: Time,
    refs_first: bool,
    table: &Table,
    graph: &mut Graph<S, Commit<Flags>>,
) -> Result<Spec, Error<'a>>
    ensures means { is_fault result ≡ false
        → MeansBy refs_first text.now now
        (known_by keys table.now) (S.history graph.old.source) result }
    ensures count { S.fault_count graph.new.source
        ≡ count_after (is_fault result) (S.fault_count graph.old.source) }
    ensures history { S.history graph.new.source ≡ S.history graph.old.source }
    ensures part { NamesPart text.now result }
{
    if refs_first {
        return rev_parse(alloc, alloc, text, now, table, graph);
    }
    resolve(alloc, alloc, text, now, table, graph)
}

/// Makes what C receives of an answer.
fn reading_of<'a>(text: &'a [u8], answer: Result<Spec, Error<'a>>) -> Reading
    requires { NamesPart text.now answer }
    ensures { ReadsAs text.now answer.entry result }
{
    match answer {
        Ok(spec) => Reading::Set(span_of(spec)),
        Err(Error::OutOfMemory) => Reading::OutOfMemory,
        Err(Error::Refused { fault, input, .. }) => {
            Reading::Fault(fault_place(text, fault.number(), input))
        }
    }
}

/// Reads a revision over a graph.
fn read_over<S: Find>(
    alloc: Global,
    text: &[u8],
    now: Time,
    refs_first: bool,
    table: &Table,
    graph: &mut Graph<S, Commit<Flags>>,
) -> Result<Reading, Refused>
    ensures reading { IfOk result (IsReading
        (MeansBy refs_first text.now now
        (known_by keys table.now) (S.history graph.old.source)) text.now) }
    ensures history { S.history graph.new.source ≡ S.history graph.old.source }
{
    let before = graph.source().faults();
    let answer = answer_of(alloc, text, now, refs_first, table, graph);
    let after = graph.source().faults();
    if before == after && before < u64::MAX {
        return Ok(reading_of(text, answer));
    }
    Err(Refused::Source)
}

impl History {
    /// Reads a revision over the commits that were put in, as if there were no others.
    fn read_complete(
        &mut self,
        alloc: Global,
        text: &[u8],
        now: Time,
        refs_first: bool,
    ) -> Result<Reading, i32>
        ensures reading { IfOk result (IsReading
            (MeansBy refs_first text.now now
            (known_in self.old) (commits_in self.old)) text.now) }
        ensures refused { IfErr result (λ code. code ≡ OUT_OF_MEMORY) }
        ensures commits { commits_in self.new ≡ commits_in self.old }
        ensures named { self.new.named ≡ self.old.named }
        ensures table { self.new.table ≡ self.old.table }
        ensures extent { self.new.extent ≡ self.old.extent }
    {
        match read_over(alloc, text, now, refs_first, &self.table, &mut self.graph) {
            Ok(reading) => Ok(reading),
            // A source in memory does not fail.
            Err(_) => Err(OUT_OF_MEMORY),
        }
    }

    /// Reads a revision over the commits that were put in, whatever lies beyond them.
    fn read_partial<K: Beyond>(
        &mut self,
        alloc: Global,
        text: &[u8],
        now: Time,
        refs_first: bool,
    ) -> Result<Reading, i32>
        ensures reading { IfOk result (IsReading
            (MeansBy refs_first text.now now
            (known_in self.old) (commits_in self.old ++ K.beyond)) text.now) }
        ensures refused { IfErr result (λ code. IsTold code self.old self.new) }
        ensures graph { self.new.graph ≡ self.old.graph }
        ensures named { self.new.named ≡ self.old.named }
        ensures table { self.new.table ≡ self.old.table }
        ensures extent { OnOk result (self.new.extent ≡ self.old.extent) }
    {
        let source = Partial::<&Commits<Global>, K>::new(self.graph.source());
        let mut graph = Graph::with_seed(alloc, source, self.graph.seed());
        let read = read_over(alloc, text, now, refs_first, &self.table, &mut graph);
        let wanted = graph.source().wanted;
        drop(graph);
        match read {
            Ok(reading) => Ok(reading),
            Err(Refused::OutOfMemory) => Err(OUT_OF_MEMORY),
            Err(Refused::Source) => Err(self.want(alloc, wanted)),
        }
    }

    /// Reads a revision, or returns a code. If it wants a commit, the history notes which.
    pub fn read<K: Beyond>(
        &mut self,
        alloc: Global,
        text: &[u8],
        now: Time,
        refs_first: bool,
    ) -> Result<Reading, i32>
        // The answer is the set that the text means over the names and the whole history, the fault
        // that it has there with its place, or `OutOfMemory`. If `refs_first` is set, the rules are
        // those of `rev_parse`, otherwise those of `resolve`.
        ensures reading { IfOk result (IsReading
            (MeansBy refs_first text.now now
            (known_in self.old) (whole_in self.old K.beyond)) text.now) }

        // After `OUT_OF_MEMORY`, the history is complete or partial as before, and the wanted
        // commit is unchanged. The only other error code is `WANTS`, of a partial history, which
        // then notes as wanted a commit that was neither added nor in its files.
        ensures refused { IfErr result (λ code. IsUnanswered code self.old self.new) }

        // Also after an error, the commits of the history are unchanged.
        ensures commits { commits_in self.new ≡ commits_in self.old }

        // Also after an error, the noted parents are unchanged.
        ensures named { self.new.named ≡ self.old.named }

        // Also after an error, the ref names, and the ids that abbreviated object names stand for,
        // are unchanged.
        ensures table { self.new.table ≡ self.old.table }

        // After a success, the history is complete or partial as before, and the wanted commit is
        // unchanged.
        ensures extent { OnOk result (self.new.extent ≡ self.old.extent) }
    {
        match self.extent {
            Extent::Complete => self.read_complete(alloc, text, now, refs_first),
            Extent::Partial(_) => self.read_partial::<K>(alloc, text, now, refs_first),
        }
    }
}
