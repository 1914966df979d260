//! Resolves revisions in git's own order: names before abbreviated object names.

ghost use Rattle.std.specs.Prelude.{◌≡◌, ℕ, List, Option, IsErrOf, false};
ghost use Rattle.gix_revision.specs.Answer.{answer_of};
ghost use Rattle.gix_revision.specs.Call.{Hint, find_ref, prefix, peel, target_of};
ghost use Rattle.gix_revision.specs.Faults.{count_after};
ghost use Rattle.gix_revision.specs.Graph.{KeepsHeld};
ghost use Rattle.gix_revision.specs.Reading.{pieces_of};
ghost use Rattle.gix_resolve.specs.Known.{known_by};
ghost use Rattle.gix_resolve.specs.Resolved.{is_fault};
ghost use Rattle.gix_resolve.specs.ResolverStep.{known_of, state_of};
ghost use Rattle.gix_resolve.specs.RevParse.{RevParsed, RevParsedOrFault, RevWalkedTo};
ghost use Rattle.gix_resolve.specs.RevParse.{rev_may_want_memory};
ghost use Rattle.gix_resolve.specs.RevStep.{AnswersByNames, RevAnswers, resolver_of};
ghost use Rattle.gix_resolve.specs.Steps.{start};

use super::Resolver;
use crate::history::peeled_to_commit;
use crate::lookup::Ids;
use crate::refusal::{Refusal, Trouble, answer, without_source};
use crate::table::Table;
use gix_revision::date::Time;
use gix_revision::error::Exn;
use gix_revision::graph::{Commit, Find, Graph};
use gix_revision::hash::Prefix;
use gix_revision::laws;
use gix_revision::merge_base::Flags;
use gix_revision::spec::parse::delegate::{
    Kind, Listener, Navigate, PeelTo, PrefixHint, ReflogLookup, Revision, SiblingBranch, Traversal,
};
use gix_revision::spec::parse::{Delegate, Error, parse};
use gix_revision::spec::{self, Spec};
use std::alloc::{Allocator, Global};

/// A resolver that refuses each prefix, and resolves each name in git's own order.
#[derive(Drop)]
pub(crate) struct NamesFirst<'a, S: Find, A: Allocator, I: Ids> {
    resolver: Resolver<'a, S, A, I>,
}

impl<'a, S: Find, A: Allocator + Copy, I: Ids> Resolver<'a, S, A, I> {
    /// Resolves a name in git's own order.
    fn call_name(&mut self, name: &[u8]) -> Result<(), Exn>
        ensures { AnswersByNames I.ids S.history S.fault_count
            self.old (find_ref name.now) (answer_of result) self.new }
    {
        let next = self.state.called(self.table, name);
        answer(self.refusals, &mut self.state, without_source(next))
    }

    /// Refuses a prefix. The parser then asks for the name.
    fn pass_prefix(&mut self) -> Result<(), Exn>
        ensures { (digits : List ℕ) (hint : Option Hint) → AnswersByNames I.ids S.history
            S.fault_count self.old (prefix digits hint) (answer_of result) self.new }
    {
        let next = Err(Trouble::Refused(Refusal::NameFirst));
        answer(self.refusals, &mut self.state, next)
    }

    /// Resolves a peel, such as `^{commit}`.
    fn peel_to_commit(&mut self, kind: PeelTo<'_>) -> Result<(), Exn>
        ensures { AnswersByNames I.ids S.history S.fault_count
            self.old (peel (target_of kind.entry)) (answer_of result) self.new }
    {
        let next = peeled_to_commit(*self.alloc, self.state, kind, self.graph);
        answer(self.refusals, &mut self.state, next)
    }
}

impl<S: Find, A: Allocator + Copy, I: Ids> Listener for NamesFirst<'_, S, A, I> {
    ghost step = { RevAnswers I.ids S.history S.fault_count };
}

impl<S: Find, A: Allocator + Copy, I: Ids> Revision for NamesFirst<'_, S, A, I> {
    fn find_ref(&mut self, name: &[u8]) -> Result<(), Exn> {
        self.resolver.call_name(name)
    }

    fn disambiguate_prefix(
        &mut self,
        prefix: Prefix,
        hint: Option<PrefixHint<'_>>,
    ) -> Result<(), Exn> {
        self.resolver.pass_prefix()
    }

    fn reflog(&mut self, query: ReflogLookup) -> Result<(), Exn> {
        self.resolver.refuse()
    }

    fn nth_checked_out_branch(&mut self, branch_no: usize) -> Result<(), Exn> {
        self.resolver.refuse()
    }

    fn sibling_branch(&mut self, kind: SiblingBranch) -> Result<(), Exn> {
        self.resolver.refuse()
    }
}

impl<S: Find, A: Allocator + Copy, I: Ids> Kind for NamesFirst<'_, S, A, I> {
    fn kind(&mut self, kind: spec::Kind) -> Result<(), Exn> {
        self.resolver.kind(kind)
    }
}

impl<S: Find, A: Allocator + Copy, I: Ids> Navigate for NamesFirst<'_, S, A, I> {
    fn traverse(&mut self, kind: Traversal) -> Result<(), Exn> {
        self.resolver.traverse(kind)
    }

    fn peel_until(&mut self, kind: PeelTo<'_>) -> Result<(), Exn> {
        self.resolver.peel_to_commit(kind)
    }

    fn find(&mut self, regex: &[u8], negated: bool) -> Result<(), Exn> {
        self.resolver.refuse()
    }

    fn index_lookup(&mut self, path: &[u8], stage: u8) -> Result<(), Exn> {
        self.resolver.refuse()
    }
}

impl<S: Find, A: Allocator + Copy, I: Ids> Delegate for NamesFirst<'_, S, A, I> {
    fn done(&mut self) -> Result<(), Exn> {
        self.resolver.done()
    }
}

/// Parses a text with a resolver that has received no call yet, and returns the spec.
fn tell_names<'a, S: Find, A: Allocator + Copy, I: Ids>(
    alloc: A,
    text: &'a [u8],
    now: Time,
    names: &mut NamesFirst<'_, S, A, I>,
) -> Result<Spec, Error<'a>>
    requires { state_of (resolver_of names.now) ≡ start }
    ensures resolved { is_fault result ≡ false
        → RevParsed text.now now (known_of I.ids (resolver_of names.old))
        (S.history (resolver_of names.old).graph.now.source) result }
    ensures fault { RevParsedOrFault text.now now (known_of I.ids (resolver_of names.old))
        (S.history (resolver_of names.old).graph.now.source) result }
    ensures memory { rev_may_want_memory (pieces_of text.now) ≡ false
        → IsErrOf result Error.OutOfMemory → ⊥ }
    ensures count { S.fault_count (resolver_of names.new).graph.now.source
        ≡ count_after (is_fault result) (S.fault_count (resolver_of names.old).graph.now.source) }
    ensures history { S.history (resolver_of names.new).graph.now.source
        ≡ S.history (resolver_of names.old).graph.now.source }
    ensures held { KeepsHeld (resolver_of names.old).graph.now (resolver_of names.new).graph.now }
    ensures walked { RevWalkedTo text.now now (known_of I.ids (resolver_of names.old))
        (S.history (resolver_of names.old).graph.now.source) (resolver_of names.old).graph.now
        result (resolver_of names.new).graph.now }
    ensures same_reference { (resolver_of names.new).graph.ghost_name
        ≡ (resolver_of names.old).graph.ghost_name }
{
    laws::spec::done_is_last();
    if let Err(error) = parse(alloc, text, now, names) {
        return Err(error);
    }
    // A text that was parsed without an error has ended, so there is a spec.
    match names.resolver.spec() {
        Some(spec) => Ok(spec),
        None => unreachable!(),
    }
}

/// Resolves a revision like git: a ref name wins over an abbreviated object name.
///
/// See git-rev-parse, "Specifying Revisions". A name is read as the first of these that applies:
///
/// 1. 40 hex digits are that id alone, whatever refs exist.
/// 2. The ref with exactly these bytes.
/// 3. The one id that begins with the hex digits in the name. There must be at least 4. They are
///    what follows the last `-g` of the name that has something before it, or else the whole name.
///
/// A branch `1059-login` is therefore a branch here, while [`resolve`](super::resolve) reads it as
/// an id that begins with `1059`. `^{}`, `^{object}` and `^{commit}` of a commit that the source
/// has are that commit. All else is as in [`resolve`](super::resolve).
///
/// # Graph
///
/// Held commits stay held, also on an error. The call loads only commits on the steps of the text:
/// for `~n` the commits on the way, for `^n` the commit and that parent, for `^{commit}`,
/// `^{object}` and `^{}` the commit.
///
/// # Errors
///
/// Those of [`resolve`](super::resolve), with these differences:
///
/// - If [`resolve`](super::resolve) would read an abbreviated object name in a name, the first
///   message is `a name comes first`, and the second says why the name is none.
/// - `^{tag}`, `^{tree}` and `^{blob}` are refused with `commits alone are known`.
/// - [`Error::OutOfMemory`] can come of `^{}` and `^{object}`, too.
pub fn rev_parse<'a, S: Find, A: Allocator + Copy, I: Ids>(
    alloc: A,
    refusals: Global,
    text: &'a [u8],
    now: Time,
    table: &Table<A, I>,
    graph: &mut Graph<S, Commit<Flags, A>, A>,
) -> Result<Spec, Error<'a>>
    // Unless the first refusal says that the source failed, the result is the spec or the error
    // with which a run of the text over the table and the history, in git's order, ends. Such a run
    // can end with `OutOfMemory` only at a call that asks the source, or at an escape in braces.
    ensures resolved { is_fault result ≡ false
        → RevParsed text.now now (known_by I.ids table.now) (S.history graph.old.source) result }

    // In any case the result is the spec or the error with which a run of the text in git's order
    // ends, if a call that asks the source may also be refused with `the source failed`.
    ensures fault { RevParsedOrFault text.now now (known_by I.ids table.now)
        (S.history graph.old.source) result }

    // The result is not `OutOfMemory` if no piece of the text is a step, a `^-n`, a `^{commit}`
    // (also written `^0`), a `^{object}`, a `^{}` or an escape in braces.
    ensures memory { rev_may_want_memory (pieces_of text.now) ≡ false
        → IsErrOf result Error.OutOfMemory → ⊥ }

    // The fault count is one more exactly if the first refusal says that the source failed. At
    // `u64::MAX` the count stays.
    ensures count { S.fault_count graph.new.source
        ≡ count_after (is_fault result) (S.fault_count graph.old.source) }

    // The history of the source is unchanged, also after an error.
    ensures history { S.history graph.new.source ≡ S.history graph.old.source }

    // The graph keeps every commit that it holds, also after an error.
    ensures held { KeepsHeld graph.old graph.new }

    // A run as in `fault` leads from the old graph to the new one. Each call keeps held commits and
    // loads only commits on its way. An accepted call that asks the source leaves both its ends
    // held. If the source does not answer a call, a commit that the call may ask for is not held.
    ensures walked { RevWalkedTo text.now now (known_by I.ids table.now) (S.history graph.old.source)
        graph.old result graph.new }
{
    let resolver = Resolver::new(&alloc, refusals, table, graph);
    let mut names = NamesFirst { resolver };
    tell_names(alloc, text, now, &mut names)
}
