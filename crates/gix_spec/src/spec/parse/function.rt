//! Reads a revision expression from its front, and calls the delegate on the way.
//!
//! # Algorithm
//!
//! 1. Read `^`, then a side: a text that begins with `:`, or a name and what follows it.
//! 2. `cut` finds where the name ends; `@{...}` may follow it.
//! 3. Read `~n`, `^n`, `^{...}` and `:path`, one after the other, until none follows.
//! 4. After `..` or `...`, read the second side. An empty side stands for `HEAD`.
//! 5. Make the delegate's calls for each piece before reading the next one, and `done` at the end.
//!
//! There is one file for each kind of piece. Each function has the contract "these pieces were
//! performed, whatever pieces follow", and returns `Result<_, Stopped>`. The context keeps the
//! reason (`context.rt`), so that no function passes on an `Error` of 264 bytes; only `parse` makes
//! its result of it.

ghost use Rattle.std.specs.Prelude.{◌≡◌, Some, None, option_map, false, IsErrOf};
ghost use Rattle.gix_spec.specs.Trees.{takes_memory};
ghost use Rattle.gix_spec.specs.Run.{IsRun, IsBeginning, without_memory};
ghost use Rattle.gix_spec.specs.Context.{context_of};
ghost use Rattle.gix_spec.specs.Found.{part_of};
ghost use Rattle.gix_spec.specs.Names.{anchor_at};
ghost use Rattle.gix_spec.specs.Steps.{navigation};
ghost use Rattle.gix_spec.specs.Parse.{Parses, meaning_of};
ghost use Rattle.gix_spec.specs.Performs.{Performs, Reads};
ghost use Rattle.gix_spec.specs.Reading.{named_revision, revision_at, range_mark, implied_head};
ghost use Rattle.gix_spec.specs.Reading.{end_at, second_side, range_at, ranged};
ghost use Rattle.gix_spec.specs.Reading.{sides_at, exclude_mark, excluded_at, pieces_of};

use super::Error;
use super::at_part::{at_part, without_name};
use super::calls::{fault, perform};
use super::colon_form::colon_form;
use super::context::{Context, Stopped};
use super::cut::{after_mark, cut};
use super::delegate::Delegate;
use super::fault::Fault;
use super::name::named;
use super::part::{Behind, Found, Part, Piece, Way};
use super::step::next_step;
use crate::spec::Kind;
use gix_base::date::Time;
use std::alloc::Allocator;

/// Makes the calls of the part that was found at the front of a text.
#[inline(always)]
pub(crate) fn read<'a, D: Delegate>(
    found: Found<'a>,
    context: &mut Context<'a>,
    delegate: &mut D,
) -> Result<Behind<'a>, Stopped>
    ensures { Reads D.step (part_of found.entry)
        delegate.old (context_of context.old) delegate.new (context_of context.new)
        result context.new.error }
{
    let part = match found {
        Ok(part) => part,
        Err(refusal) => {
            return Err(fault(refusal.fault, refusal.input, context));
        }
    };
    if let Some(piece) = part.piece {
        perform(piece, context, delegate)?;
    }
    Ok(Behind {
        rest: part.rest,
        way: part.way,
    })
}

/// Reads the name of a revision, and an `@` after it.
#[inline(always)]
fn anchor<'a, A: Allocator, D: Delegate>(
    alloc: A,
    text: &'a [u8],
    context: &mut Context<'a>,
    delegate: &mut D,
) -> Result<Behind<'a>, Stopped>
    ensures { Reads D.step (anchor_at text.now)
        delegate.old (context_of context.old) delegate.new (context_of context.new)
        result context.new.error }
{
    let len = cut(text);
    if len == 0 {
        return without_name(alloc, text, context, delegate);
    }
    let name = read(named(text, len), context, delegate)?;
    at_part(alloc, &text[..len], name.rest, context, delegate)
}

/// Reads steps until none follows, or a closer ends them.
#[inline(always)]
fn navigate<'a, A: Allocator + Copy, D: Delegate>(
    alloc: A,
    text: &'a [u8],
    context: &mut Context<'a>,
    delegate: &mut D,
) -> Result<Behind<'a>, Stopped>
    ensures { Reads D.step (navigation text.now)
        delegate.old (context_of context.old) delegate.new (context_of context.new)
        result context.new.error }
{
    let mut rest = text;
    'steps: loop {
        let step = next_step(alloc, rest, context, delegate)?;
        if step.rest.len() >= rest.len() {
            return Ok(step);
        }
        match step.way {
            Way::Onward => rest = step.rest,
            Way::Closed => return Ok(step),
        }
    }
}

/// Reads a name and its steps.
#[inline(always)]
fn named_revision<'a, A: Allocator + Copy, D: Delegate>(
    alloc: A,
    text: &'a [u8],
    context: &mut Context<'a>,
    delegate: &mut D,
) -> Result<Behind<'a>, Stopped>
    ensures { Reads D.step (named_revision text.now)
        delegate.old (context_of context.old) delegate.new (context_of context.new)
        result context.new.error }
{
    let name = anchor(alloc, text, context, delegate)?;
    match name.way {
        Way::Onward => navigate(alloc, name.rest, context, delegate),
        Way::Closed => Ok(name),
    }
}

/// Reads a revision.
fn revision<'a, A: Allocator + Copy, D: Delegate>(
    alloc: A,
    text: &'a [u8],
    context: &mut Context<'a>,
    delegate: &mut D,
) -> Result<Behind<'a>, Stopped>
    ensures { Reads D.step (revision_at text.now)
        delegate.old (context_of context.old) delegate.new (context_of context.new)
        result context.new.error }
{
    if let Some(after) = after_mark(text, b':') {
        return read(colon_form(after, text), context, delegate);
    }
    if let Some(_) = after_mark(text, b'~') {
        return read(Part::refusal(Fault::TildeFirst, None), context, delegate);
    }
    named_revision(alloc, text, context, delegate)
}

/// Reads the range mark at the front of a text: its kind, and the text after it.
#[tactic(auto, unfolding(crate::specs::Reading::range_mark))]
fn mark(text: &[u8]) -> Option<(Kind, &[u8])>
    ensures { option_map (λ x. (x.0, x.1.now)) result ≡ range_mark text.now }
{
    if let Some(rest) = text.strip_prefix(b"...") {
        return Some((Kind::ReachableToMergeBase, rest));
    }
    if let Some(rest) = text.strip_prefix(b"..") {
        return Some((Kind::RangeBetween, rest));
    }
    None
}

/// Makes the call for HEAD if a side of a range is empty.
fn imply_head<'a, D: Delegate>(
    text: &'a [u8],
    rest: &'a [u8],
    context: &mut Context<'a>,
    delegate: &mut D,
) -> Result<(), Stopped>
    ensures { Performs D.step (implied_head text.now rest.now)
        delegate.old (context_of context.old) delegate.new (context_of context.new)
        result context.new.error }
{
    if rest.len() == text.len() {
        return perform(Piece::Head, context, delegate);
    }
    Ok(())
}

/// Makes the call for the end of the text, or stops with a fault if text is left.
fn end<'a, D: Delegate>(
    rest: &'a [u8],
    context: &mut Context<'a>,
    delegate: &mut D,
) -> Result<(), Stopped>
    ensures { Performs D.step (end_at rest.now)
        delegate.old (context_of context.old) delegate.new (context_of context.new)
        result context.new.error }
{
    if rest.is_empty() {
        return perform(Piece::Finish, context, delegate);
    }
    Err(fault(Fault::Unconsumed, Some(rest), context))
}

/// Reads the second side of a range, after the mark.
fn second<'a, A: Allocator + Copy, D: Delegate>(
    alloc: A,
    text: &'a [u8],
    context: &mut Context<'a>,
    delegate: &mut D,
) -> Result<(), Stopped>
    ensures { Performs D.step (second_side text.now)
        delegate.old (context_of context.old) delegate.new (context_of context.new)
        result context.new.error }
{
    let side = revision(alloc, text, context, delegate)?;
    imply_head(text, side.rest, context, delegate)?;
    end(side.rest, context, delegate)
}

/// The first side of a text: whether an exclude mark precedes it, the text from its start on, and
/// the rest after it.
#[derive(Clone, Copy)]
struct First<'a> {
    excluded: bool,
    text: &'a [u8],
    rest: &'a [u8],
}

/// Reads a range from its mark on.
fn range_side<'a, A: Allocator + Copy, D: Delegate>(
    alloc: A,
    first: First<'a>,
    kind: Kind,
    after: &'a [u8],
    context: &mut Context<'a>,
    delegate: &mut D,
) -> Result<(), Stopped>
    ensures { Performs D.step
        (range_at first.entry.excluded first.entry.text.now first.entry.rest.now (kind, after.now))
        delegate.old (context_of context.old) delegate.new (context_of context.new)
        result context.new.error }
{
    if first.excluded {
        let was = Kind::ExcludeReachable;
        let twice = Fault::KindTwice { was, now: kind };
        return Err(fault(twice, None, context));
    }
    imply_head(first.text, first.rest, context, delegate)?;
    perform(Piece::Range(kind), context, delegate)?;
    second(alloc, after, context, delegate)
}

/// Reads the text after the first side.
fn after_side<'a, A: Allocator + Copy, D: Delegate>(
    alloc: A,
    first: First<'a>,
    context: &mut Context<'a>,
    delegate: &mut D,
) -> Result<(), Stopped>
    ensures { Performs D.step
        (ranged first.entry.excluded first.entry.text.now first.entry.rest.now
        (range_mark first.entry.rest.now))
        delegate.old (context_of context.old) delegate.new (context_of context.new)
        result context.new.error }
{
    match mark(first.rest) {
        Some((kind, after)) => range_side(alloc, first, kind, after, context, delegate),
        None => end(first.rest, context, delegate),
    }
}

/// Reads one side, or both sides of a range.
fn sides<'a, A: Allocator + Copy, D: Delegate>(
    alloc: A,
    excluded: bool,
    text: &'a [u8],
    context: &mut Context<'a>,
    delegate: &mut D,
) -> Result<(), Stopped>
    ensures { Performs D.step (sides_at excluded text.now)
        delegate.old (context_of context.old) delegate.new (context_of context.new)
        result context.new.error }
{
    let side = revision(alloc, text, context, delegate)?;
    let first = First {
        excluded,
        text,
        rest: side.rest,
    };
    match side.way {
        Way::Onward => after_side(alloc, first, context, delegate),
        Way::Closed if side.rest.is_empty() => Ok(()),
        Way::Closed => Err(fault(Fault::Unconsumed, Some(side.rest), context)),
    }
}

/// Tests whether a text begins with `^`, and returns the text without it.
fn strip_exclude(text: &[u8]) -> (bool, &[u8])
    ensures { (result.0, result.1.now) ≡ exclude_mark text.now }
{
    match text {
        [b'^', rest @ ..] => (true, rest),
        _ => (false, text),
    }
}

/// Makes the call for the exclude mark, if there is one.
fn exclude<'a, D: Delegate>(
    excluded: bool,
    context: &mut Context<'a>,
    delegate: &mut D,
) -> Result<(), Stopped>
    ensures { Performs D.step (excluded_at excluded)
        delegate.old (context_of context.old) delegate.new (context_of context.new)
        result context.new.error }
{
    if excluded {
        return perform(Piece::Exclude, context, delegate);
    }
    Ok(())
}

/// Reads a whole revision expression.
fn whole<'a, A: Allocator + Copy, D: Delegate>(
    alloc: A,
    text: &'a [u8],
    context: &mut Context<'a>,
    delegate: &mut D,
) -> Result<(), Stopped>
    ensures { Performs D.step (pieces_of text.now)
        delegate.old (context_of context.old) delegate.new (context_of context.new)
        result context.new.error }
{
    let (excluded, sides_text) = strip_exclude(text);
    exclude(excluded, context, delegate)?;
    sides(alloc, excluded, sides_text, context, delegate)
}

/// Parses the revision expression `input`, and reports its parts to `delegate` in order.
///
/// The syntax is that of gitrevisions, "Specifying Revisions" and "Specifying Ranges". The calls go
/// from the front of the text to its end. `now` is the moment from which relative dates count.
///
/// The answer is `Ok` if the text was read to its end and the delegate accepted each call that it
/// has to accept. The parser allocates memory only to remove an escape from a text in braces.
///
/// # Errors
///
/// - [`Error::Refused`]: the fault, the part of `input` that is wrong, and the delegate's refusals
///   that led to the fault.
/// - [`Error::OutOfMemory`]: the delegate reported that memory ran out, and is not called again; or
///   an allocation for removing an escape failed.
pub fn parse<'a, A: Allocator + Copy, D: Delegate>(
    alloc: A,
    input: &'a [u8],
    now: Time,
    delegate: &mut D,
) -> Result<(), Error<'a>>
    // The result and the delegate's new state are those of a run of the text's tree (`meaning_of`).
    // The run ends well for `Ok`, and for `Refused` in this fault, with its part and refusals. For
    // `OutOfMemory` it ends at a call with that answer, or where the parser takes memory.
    ensures run { Parses D.step delegate.old (meaning_of input.now now) delegate.new result }

    // Also after an error, a beginning of a run of this tree leads to the delegate's new state.
    ensures beginning { IsBeginning D.step delegate.old (meaning_of input.now now) delegate.new }

    // If no piece of the text takes memory: after `OutOfMemory`, the run ends at a call of the
    // delegate with that answer.
    ensures memory { takes_memory (pieces_of input.now) ≡ false
        → IsErrOf result Error.OutOfMemory
        → IsRun D.step delegate.old (meaning_of input.now now) delegate.new without_memory }
{
    let mut context = Context::new(now);
    match whole(alloc, input, &mut context, delegate) {
        Ok(()) => Ok(()),
        Err(Stopped) => Err(context.error.unwrap()),
    }
}
