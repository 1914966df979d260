//! Makes the calls of the pieces of a text.

ghost use Rattle.std.specs.Prelude.{◌≡◌, Some, None, [], ◌∷◌, option_map};
ghost use Rattle.std.specs.Option.{IsSomeAnd};
ghost use Rattle.gix_spec.specs.Call.{target_of};
ghost use Rattle.gix_spec.specs.Pieces;
ghost use Rattle.gix_spec.specs.Pieces.{exclude, regex, index, head, name, branch, peel, range, finish};
ghost use Rattle.gix_spec.specs.Context.{context_of, call_of, stopped};
ghost use Rattle.gix_spec.specs.Opens.{unopened_error};
ghost use Rattle.gix_spec.specs.Found.{piece_of, attempt_found, slice_of};
ghost use Rattle.gix_spec.specs.Trees.{at_time, repeat, closing_calls, without_parent_calls};
ghost use Rattle.gix_spec.specs.Asked.{without_name, asked_calls};
ghost use Rattle.gix_spec.specs.Performs.{Performs, Asks, TellsOf, Demanded};

use super::Error;
use super::braces::Unopened;
use super::context::{Anchor, Context, Stopped};
use super::delegate::{Delegate, PeelTo, ReflogLookup, SiblingBranch, Traversal};
use super::fault::Fault;
use super::part::{Attempt, Piece};
use crate::spec::Kind;
use gix_base::date::Time;
use gix_base::error::Exn;

/// Stops the parse with a fault of the text itself.
#[cold]
pub(crate) fn fault<'a>(fault: Fault, input: Option<&'a [u8]>, context: &mut Context<'a>) -> Stopped
    ensures { context.new ≡ stopped context.old (Error.Refused fault input.entry None None) }
{
    context.stop(Error::Refused {
        fault,
        input,
        first: None,
        second: None,
    })
}

/// Stops the parse because the pair of braces at the front of a text could not be read.
#[cold]
pub(crate) fn unopened<'a>(why: Unopened, text: &'a [u8], context: &mut Context<'a>) -> Stopped
    ensures { context.new ≡ stopped context.old (unopened_error why text.entry) }
{
    context.stop(why.error(text))
}

/// Stops the parse because memory ran out.
#[cold]
fn without_memory(context: &mut Context<'_>) -> Stopped
    ensures { context.new ≡ stopped context.old Error.OutOfMemory }
{
    context.stop(Error::OutOfMemory)
}

/// Stops the parse because the delegate refused a call that it has to accept.
#[cold]
fn refused<'a>(
    refusal: Exn,
    fault: Fault,
    input: Option<&'a [u8]>,
    context: &mut Context<'a>,
) -> Stopped
    ensures tells { IsSomeAnd context.new.error (TellsOf refusal fault (slice_of input.entry)) }
    ensures known { context_of context.new ≡ context_of context.old }
{
    if refusal.out_of_memory {
        return without_memory(context);
    }
    context.stop(Error::Refused {
        fault,
        input,
        first: Some(refusal),
        second: None,
    })
}

/// Stops the parse because the delegate refused a name both as a prefix and as a ref.
#[cold]
fn refused_twice<'a>(first: Exn, second: Exn, whole: &'a [u8], context: &mut Context<'a>) -> Stopped
    ensures { context.new ≡ stopped context.old
        (Error.Refused Fault.NameRefused (Some whole.entry) (Some first) (Some second)) }
{
    context.stop(Error::Refused {
        fault: Fault::NameRefused,
        input: Some(whole),
        first: Some(first),
        second: Some(second),
    })
}

/// Goes on if the delegate accepted the call, and else stops the parse with the fault.
#[inline(always)]
fn demanded<'a>(
    answer: Result<(), Exn>,
    fault: Fault,
    input: Option<&'a [u8]>,
    context: &mut Context<'a>,
) -> Result<(), Stopped>
    ensures told { Demanded answer fault (slice_of input.entry) result context.new.error }
    ensures known { context_of context.new ≡ context_of context.old }
{
    match answer {
        Ok(()) => Ok(()),
        Err(refusal) => Err(refused(refusal, fault, input, context)),
    }
}

/// Makes the call for the exclude mark in front of a text.
#[inline(always)]
fn call_exclude<'a, D: Delegate>(context: &mut Context<'a>, delegate: &mut D) -> Result<(), Stopped>
    ensures { Performs D.step (exclude ∷ [])
        delegate.old (context_of context.old) delegate.new (context_of context.new)
        result context.new.error }
{
    let kind = Kind::ExcludeReachable;
    demanded(delegate.kind(kind), Fault::KindRefused(kind), None, context)
}

/// Makes the call for HEAD, written or implied.
#[inline(always)]
fn call_head<'a, D: Delegate>(context: &mut Context<'a>, delegate: &mut D) -> Result<(), Stopped>
    ensures { Performs D.step (head ∷ [])
        delegate.old (context_of context.old) delegate.new (context_of context.new)
        result context.new.error }
{
    let answer = delegate.find_ref(b"HEAD");
    demanded(answer, Fault::HeadRefused, None, context)?;
    context.anchor = Some(Anchor::Head);
    context.own_prefix = false;
    Ok(())
}

/// Makes the call for a name that cannot be an abbreviated object name.
#[inline(always)]
fn call_reference<'a, D: Delegate>(
    text: &'a [u8],
    whole: &'a [u8],
    context: &mut Context<'a>,
    delegate: &mut D,
) -> Result<(), Stopped>
    ensures { Performs D.step (name text.now whole.now None ∷ [])
        delegate.old (context_of context.old) delegate.new (context_of context.new)
        result context.new.error }
{
    let answer = delegate.find_ref(text);
    demanded(answer, Fault::NameRefused, Some(whole), context)?;
    context.anchor = Some(Anchor::Reference(text));
    context.own_prefix = false;
    Ok(())
}

/// Makes the calls for a name that can be an abbreviated object name: first as a prefix, then, if
/// that is refused, as a ref.
#[inline(always)]
fn call_prefix<'a, D: Delegate>(
    text: &'a [u8],
    whole: &'a [u8],
    attempt: Attempt<'a>,
    context: &mut Context<'a>,
    delegate: &mut D,
) -> Result<(), Stopped>
    ensures { Performs D.step (name text.now whole.now (Some (attempt_found attempt.entry)) ∷ [])
        delegate.old (context_of context.old) delegate.new (context_of context.new)
        result context.new.error }
{
    let Attempt { prefix, hint } = attempt;
    let Err(first) = delegate.disambiguate_prefix(prefix, hint) else {
        context.anchor = Some(Anchor::ByPrefix(prefix, hint));
        context.own_prefix = true;
        return Ok(());
    };
    if first.out_of_memory {
        return Err(without_memory(context));
    }
    let Err(second) = delegate.find_ref(text) else {
        context.anchor = Some(Anchor::Reference(text));
        context.own_prefix = false;
        return Ok(());
    };
    if second.out_of_memory {
        return Err(without_memory(context));
    }
    Err(refused_twice(first, second, whole, context))
}

/// Makes the calls for a name: as a prefix if it can be one, and, if it cannot or is refused, as a
/// ref.
#[inline(always)]
fn call_name<'a, D: Delegate>(
    text: &'a [u8],
    whole: &'a [u8],
    attempt: Option<Attempt<'a>>,
    context: &mut Context<'a>,
    delegate: &mut D,
) -> Result<(), Stopped>
    ensures { Performs D.step (name text.now whole.now (option_map attempt_found attempt.entry) ∷ [])
        delegate.old (context_of context.old) delegate.new (context_of context.new)
        result context.new.error }
{
    match attempt {
        Some(attempt) => call_prefix(text, whole, attempt, context, delegate),
        None => call_reference(text, whole, context, delegate),
    }
}

/// Makes the call for a regex: `raw` is the regex as it is written, `wanted` is without escapes.
pub(crate) fn call_find<'a, D: Delegate>(
    wanted: &[u8],
    raw: &'a [u8],
    negated: bool,
    context: &mut Context<'a>,
    delegate: &mut D,
) -> Result<(), Stopped>
    ensures { Performs D.step (regex wanted.now raw.now negated ∷ [])
        delegate.old (context_of context.old) delegate.new (context_of context.new)
        result context.new.error }
{
    let answer = delegate.find(wanted, negated);
    demanded(answer, Fault::FindRefused, Some(raw), context)
}

/// Makes the call for a path in the index.
#[inline(always)]
fn call_index<'a, D: Delegate>(
    path: &'a [u8],
    stage: u8,
    context: &mut Context<'a>,
    delegate: &mut D,
) -> Result<(), Stopped>
    ensures { Performs D.step (index path.now stage ∷ [])
        delegate.old (context_of context.old) delegate.new (context_of context.new)
        result context.new.error }
{
    let answer = delegate.index_lookup(path, stage);
    demanded(answer, Fault::IndexRefused(stage), Some(path), context)
}

/// Makes the call for a branch that was checked out before.
#[inline(always)]
fn call_branch<'a, D: Delegate>(
    number: usize,
    inner: &'a [u8],
    context: &mut Context<'a>,
    delegate: &mut D,
) -> Result<(), Stopped>
    ensures { Performs D.step (branch number inner.now ∷ [])
        delegate.old (context_of context.old) delegate.new (context_of context.new)
        result context.new.error }
{
    let answer = delegate.nth_checked_out_branch(number);
    demanded(answer, Fault::AtRefused, Some(inner), context)
}

/// What braces after an `@` ask for, about the ref in front of them or the current branch.
#[derive(Clone, Copy)]
pub(crate) enum Asked {
    /// An entry of the reflog, or a date that is written as a number.
    Entry(ReflogLookup),
    /// The reflog entry at the time that the text means. `None` if the text is not a date.
    Date(Option<Time>),
    /// A branch that belongs to another branch.
    Sibling(SiblingBranch),
}

/// Returns the fault for asking this after an accepted prefix, which names no ref.
fn without_name(asked: Asked) -> Fault
    ensures { result ≡ without_name asked }
{
    match asked {
        Asked::Entry(_) | Asked::Date(_) => Fault::ReflogWithoutName,
        Asked::Sibling(_) => Fault::SiblingWithoutName,
    }
}

/// Makes the call for the reflog entry at the time that the braces `inner` mean, if any.
fn call_time<'a, D: Delegate>(
    time: Option<Time>,
    inner: &'a [u8],
    context: &mut Context<'a>,
    delegate: &mut D,
) -> Result<(), Stopped>
    ensures asks { Asks D.step (at_time time inner.now)
        delegate.old delegate.new result context.new.error }
    ensures known { context_of context.new ≡ context_of context.old }
{
    let Some(time) = time else {
        return Err(fault(Fault::Date, Some(inner), context));
    };
    let answer = delegate.reflog(ReflogLookup::Date(time));
    demanded(answer, Fault::AtRefused, Some(inner), context)
}

/// Makes the call for what the braces `inner` after the name `own` ask for.
pub(crate) fn call_asked<'a, D: Delegate>(
    asked: Asked,
    own: &'a [u8],
    inner: &'a [u8],
    context: &mut Context<'a>,
    delegate: &mut D,
) -> Result<(), Stopped>
    ensures asks { Asks D.step (asked_calls asked own.now inner.now context.old.own_prefix)
        delegate.old delegate.new result context.new.error }
    ensures known { context_of context.new ≡ context_of context.old }
{
    if context.own_prefix {
        return Err(fault(without_name(asked), Some(own), context));
    }
    match asked {
        Asked::Entry(query) => {
            let answer = delegate.reflog(query);
            demanded(answer, Fault::AtRefused, Some(inner), context)
        }
        Asked::Date(time) => call_time(time, inner, context, delegate),
        Asked::Sibling(branch) => {
            let answer = delegate.sibling_branch(branch);
            demanded(answer, Fault::AtRefused, Some(inner), context)
        }
    }
}

/// Makes the call for a step along the history.
#[inline(always)]
fn call_step<'a, D: Delegate>(
    step: Traversal,
    after: &'a [u8],
    context: &mut Context<'a>,
    delegate: &mut D,
) -> Result<(), Stopped>
    ensures { Performs D.step (Pieces.step step after.now ∷ [])
        delegate.old (context_of context.old) delegate.new (context_of context.new)
        result context.new.error }
{
    let answer = delegate.traverse(step);
    demanded(answer, Fault::TraverseRefused(step), Some(after), context)
}

/// Makes the call for peeling an object.
#[inline(always)]
fn call_peel<'a, D: Delegate>(
    target: PeelTo<'a>,
    after: &'a [u8],
    context: &mut Context<'a>,
    delegate: &mut D,
) -> Result<(), Stopped>
    ensures { Performs D.step (peel (target_of target.entry) after.now ∷ [])
        delegate.old (context_of context.old) delegate.new (context_of context.new)
        result context.new.error }
{
    let answer = delegate.peel_until(target);
    demanded(answer, Fault::PeelRefused, Some(after), context)
}

/// Makes the call for a path in the tree of a revision.
#[inline(always)]
fn call_path<'a, D: Delegate>(
    path: &'a [u8],
    context: &mut Context<'a>,
    delegate: &mut D,
) -> Result<(), Stopped>
    ensures { Performs D.step (Pieces.path path.now ∷ [])
        delegate.old (context_of context.old) delegate.new (context_of context.new)
        result context.new.error }
{
    let answer = delegate.peel_until(PeelTo::Path(path));
    demanded(answer, Fault::PeelRefused, Some(path), context)
}

/// Makes the call for a range mark, after which the second revision begins.
#[inline(always)]
fn call_range<'a, D: Delegate>(
    kind: Kind,
    context: &mut Context<'a>,
    delegate: &mut D,
) -> Result<(), Stopped>
    ensures { Performs D.step (range kind ∷ [])
        delegate.old (context_of context.old) delegate.new (context_of context.new)
        result context.new.error }
{
    let answer = delegate.kind(kind);
    demanded(answer, Fault::KindRefused(kind), None, context)?;
    context.own_prefix = false;
    Ok(())
}

/// Makes the calls for `^!` or `^@`.
#[inline(always)]
fn call_closer<'a, D: Delegate>(
    kind: Kind,
    rest: &'a [u8],
    context: &mut Context<'a>,
    delegate: &mut D,
) -> Result<(), Stopped>
    ensures asks { Asks D.step (closing_calls kind rest.now)
        delegate.old delegate.new result context.new.error }
    ensures known { context_of context.new ≡ context_of context.old }
{
    let fault = Fault::KindRefused(kind);
    demanded(delegate.kind(kind), fault, Some(rest), context)?;
    let fault = Fault::DoneRefusedInNavigation;
    demanded(delegate.done(), fault, Some(rest), context)
}

/// Repeats the latest accepted call for a name.
fn call_again<'a, D: Delegate>(
    after: &'a [u8],
    context: &mut Context<'a>,
    delegate: &mut D,
) -> Result<(), Stopped>
    ensures asks { Asks D.step (repeat (option_map call_of context.old.anchor) after.now)
        delegate.old delegate.new result context.new.error }
    ensures known { context_of context.new ≡ context_of context.old }
{
    let Some(anchor) = context.anchor else {
        return Err(fault(Fault::Unconsumed, Some(after), context));
    };
    let fault = Fault::RepeatRefused;
    match anchor {
        Anchor::Head => demanded(delegate.find_ref(b"HEAD"), fault, Some(after), context),
        Anchor::Reference(name) => demanded(delegate.find_ref(name), fault, Some(after), context),
        Anchor::ByPrefix(prefix, hint) => {
            let answer = delegate.disambiguate_prefix(prefix, hint);
            demanded(answer, fault, Some(after), context)
        }
    }
}

/// Makes the calls for `^-n`.
fn call_without_parent<'a, D: Delegate>(
    number: usize,
    after: &'a [u8],
    rest: &'a [u8],
    context: &mut Context<'a>,
    delegate: &mut D,
) -> Result<(), Stopped>
    ensures asks { Asks D.step
        (without_parent_calls number after.now rest.now (option_map call_of context.old.anchor))
        delegate.old delegate.new result context.new.error }
    ensures known { context_of context.new ≡ context_of context.old }
{
    let step = Traversal::NthParent(number);
    let fault = Fault::TraverseRefused(step);
    demanded(delegate.traverse(step), fault, Some(after), context)?;
    let kind = Kind::RangeBetween;
    let fault = Fault::KindRefused(kind);
    demanded(delegate.kind(kind), fault, Some(after), context)?;
    call_again(after, context, delegate)?;
    let fault = Fault::DoneRefusedInNavigation;
    demanded(delegate.done(), fault, Some(rest), context)
}

/// Makes the call for the end of a text.
#[inline(always)]
fn call_finish<'a, D: Delegate>(context: &mut Context<'a>, delegate: &mut D) -> Result<(), Stopped>
    ensures { Performs D.step (finish ∷ [])
        delegate.old (context_of context.old) delegate.new (context_of context.new)
        result context.new.error }
{
    demanded(delegate.done(), Fault::DoneRefused, None, context)
}

/// Makes the calls of a piece.
#[inline(always)]
pub(crate) fn perform<'a, D: Delegate>(
    piece: Piece<'a>,
    context: &mut Context<'a>,
    delegate: &mut D,
) -> Result<(), Stopped>
    ensures { Performs D.step (piece_of piece.entry ∷ [])
        delegate.old (context_of context.old) delegate.new (context_of context.new)
        result context.new.error }
{
    match piece {
        Piece::Exclude => call_exclude(context, delegate),
        Piece::Regex {
            wanted,
            raw,
            negated,
        } => { call_find(wanted, raw, negated, context, delegate) }
        Piece::Index { path, stage } => call_index(path, stage, context, delegate),
        Piece::Head => call_head(context, delegate),
        Piece::Name {
            text,
            whole,
            attempt,
        } => { call_name(text, whole, attempt, context, delegate) }
        Piece::Branch { number, inner } => call_branch(number, inner, context, delegate),
        Piece::Reflog { query, own, inner } => {
            call_asked(Asked::Entry(query), own, inner, context, delegate)
        }
        Piece::Sibling { branch, own, inner } => {
            call_asked(Asked::Sibling(branch), own, inner, context, delegate)
        }
        Piece::Step { step, after } => call_step(step, after, context, delegate),
        Piece::Peel { target, after } => call_peel(target, after, context, delegate),
        Piece::Path(path) => call_path(path, context, delegate),
        Piece::Closer { kind, rest } => call_closer(kind, rest, context, delegate),
        Piece::WithoutParent {
            number,
            after,
            rest,
        } => { call_without_parent(number, after, rest, context, delegate) }
        Piece::Range(kind) => call_range(kind, context, delegate),
        Piece::Finish => call_finish(context, delegate),
    }
}
