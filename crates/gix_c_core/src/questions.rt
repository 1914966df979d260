//! The questions that C functions ask. No answer is made early: its premise is ordered generations.

use crate::ask::Ask;
use gix_history::Refused;
use gix_questions::{AheadBehind, CountCommits, Independent, IsAncestor, MergeBases, Octopus};
use gix_resolve::{ListError, ahead_behind, commits, count_commits, newest_first, page};
use gix_revision::error::NonEmpty;
use gix_revision::graph::{Commit, Find, Graph};
use gix_revision::hash::ObjectId;
use gix_revision::merge_base::{Error, Flags, is_ancestor, merge_base, octopus, reduce};
use gix_revision::spec::Spec;
use std::alloc::Global;

/// Returns why a question about merge bases has no answer.
fn refused_for(error: Error) -> Refused {
    match error {
        Error::Source(_) => Refused::Source,
        Error::OutOfMemory => Refused::OutOfMemory,
    }
}

/// Returns why a question about lists has no answer.
fn list_refused(error: ListError) -> Refused {
    match error {
        ListError::Source => Refused::Source,
        ListError::OutOfMemory => Refused::OutOfMemory,
    }
}

impl Ask for MergeBases<'_> {
    ghost use Rattle.gix_questions.specs.BaseQuestions.{MeansBases};

    type Answer = Option<NonEmpty<ObjectId>>;

    ghost means = { λ q h found. MeansBases h q.first q.others.now found };

    fn ask_graph<S: Find>(
        &self,
        graph: &mut Graph<S, Commit<Flags>>,
    ) -> Result<Option<NonEmpty<ObjectId>>, Refused> {
        match merge_base(self.alloc, self.first, self.others, graph) {
            Ok(found) => Ok(found),
            Err(error) => Err(refused_for(error)),
        }
    }
}

impl Ask for Octopus<'_> {
    ghost use Rattle.gix_questions.specs.BaseQuestions.{MeansOctopus};

    type Answer = Option<ObjectId>;

    ghost means = { λ q h found. MeansOctopus h q.first q.others.now found };

    fn ask_graph<S: Find>(
        &self,
        graph: &mut Graph<S, Commit<Flags>>,
    ) -> Result<Option<ObjectId>, Refused> {
        match octopus(self.alloc, self.first, self.others, graph) {
            Ok(found) => Ok(found),
            Err(error) => Err(refused_for(error)),
        }
    }
}

impl Ask for Independent<'_> {
    ghost use Rattle.gix_questions.specs.BaseQuestions.{MeansIndependent};

    type Answer = Vec<ObjectId>;

    ghost means = { λ q h left. MeansIndependent h q.ids.now left.items };

    fn ask_graph<S: Find>(
        &self,
        graph: &mut Graph<S, Commit<Flags>>,
    ) -> Result<Vec<ObjectId>, Refused> {
        match reduce(self.alloc, self.ids, graph) {
            Ok(left) => Ok(left),
            Err(error) => Err(refused_for(error)),
        }
    }
}

impl Ask for IsAncestor {
    ghost use Rattle.std.specs.Prelude.{false};
    ghost use Rattle.gix_questions.specs.AncestryQuestions.{MeansAncestor};

    type Answer = bool;

    ghost means = { λ q h yes. MeansAncestor h false q.ancestor q.of yes };

    fn ask_graph<S: Find>(&self, graph: &mut Graph<S, Commit<Flags>>) -> Result<bool, Refused> {
        match is_ancestor(self.alloc, self.ancestor, self.of, graph) {
            Ok(yes) => Ok(yes),
            Err(error) => Err(refused_for(error)),
        }
    }
}

impl Ask for AheadBehind {
    ghost use Rattle.std.specs.Prelude.{false};
    ghost use Rattle.gix_questions.specs.ReachQuestions.{MeansAheadBehind};

    type Answer = (usize, usize);

    ghost means = { λ q h counts. MeansAheadBehind h false q.ours q.theirs counts.0 counts.1 };

    fn ask_graph<S: Find>(
        &self,
        graph: &mut Graph<S, Commit<Flags>>,
    ) -> Result<(usize, usize), Refused> {
        match ahead_behind(self.alloc, self.ours, self.theirs, graph) {
            Ok(counts) => Ok(counts),
            Err(error) => Err(list_refused(error)),
        }
    }
}

impl Ask for CountCommits {
    ghost use Rattle.gix_revwalk.specs.Sizes.{HasSize};
    ghost use Rattle.gix_resolve.specs.ListMeaning.{IsMeant};

    type Answer = usize;

    ghost means = { λ q h n. HasSize (IsMeant h q.spec) n };

    fn ask_graph<S: Find>(&self, graph: &mut Graph<S, Commit<Flags>>) -> Result<usize, Refused> {
        match count_commits(self.alloc, &self.spec, graph) {
            Ok(n) => Ok(n),
            Err(error) => Err(list_refused(error)),
        }
    }
}

/// Asks for a page of the commits in `spec`, by rising id: the first `limit` that are greater than
/// `after`.
#[derive(Clone, Copy)]
pub struct Page {
    pub alloc: Global,
    pub spec: Spec,
    pub after: Option<ObjectId>,
    pub limit: usize,
}

impl Ask for Page {
    ghost use Rattle.gix_resolve.specs.ListMeaning.{IsPage};

    type Answer = Vec<ObjectId>;

    ghost means = { λ q h ids. IsPage h q.spec q.after q.limit ids.items };

    fn ask_graph<S: Find>(
        &self,
        graph: &mut Graph<S, Commit<Flags>>,
    ) -> Result<Vec<ObjectId>, Refused> {
        match page(self.alloc, &self.spec, graph, self.after, self.limit) {
            Ok(ids) => Ok(ids),
            Err(error) => Err(list_refused(error)),
        }
    }
}

/// Asks for the commits in `spec`, each once, by rising id.
#[derive(Clone, Copy)]
pub struct All {
    pub alloc: Global,
    pub spec: Spec,
}

impl Ask for All {
    ghost use Rattle.gix_resolve.specs.ListMeaning.{ListsMeant};

    type Answer = Vec<ObjectId>;

    ghost means = { λ q h ids. ListsMeant h q.spec ids.items };

    fn ask_graph<S: Find>(
        &self,
        graph: &mut Graph<S, Commit<Flags>>,
    ) -> Result<Vec<ObjectId>, Refused> {
        match commits(self.alloc, &self.spec, graph) {
            Ok(ids) => Ok(ids),
            Err(error) => Err(list_refused(error)),
        }
    }
}

/// Asks for those of `ids` that the history has, each once and newest first.
#[derive(Clone, Copy)]
pub struct NewestFirst<'a> {
    pub alloc: Global,
    pub ids: &'a [ObjectId],
}

impl Ask for NewestFirst<'_> {
    ghost use Rattle.gix_c_core.specs.Answers.{AreNewest};

    type Answer = Vec<ObjectId>;

    ghost means = { λ q h found. AreNewest h q.ids.now found.items };

    fn ask_graph<S: Find>(
        &self,
        graph: &mut Graph<S, Commit<Flags>>,
    ) -> Result<Vec<ObjectId>, Refused> {
        match newest_first(self.alloc, self.ids, graph) {
            Ok(found) => Ok(found),
            Err(error) => Err(list_refused(error)),
        }
    }
}
