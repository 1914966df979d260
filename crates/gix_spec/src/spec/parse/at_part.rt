//! Reads an `@` after the name of a revision, and the braces after it.

ghost use Rattle.std.specs.Prelude.{◌≡◌, ◌<◌, ◌^◌, true, None, [], ◌∷◌};
ghost use Rattle.gix_spec.specs.AtParts.{lookup_of, branch_at, number_at, word_at, inside_at, at_braces};
ghost use Rattle.gix_spec.specs.AtParts.{time_of};
ghost use Rattle.gix_spec.specs.Context.{context_of};
ghost use Rattle.gix_spec.specs.Found.{part_of, signed_found, FitsIsize};
ghost use Rattle.gix_spec.specs.Marks.{brace, starts_with};
ghost use Rattle.gix_spec.specs.Names.{at_part, without_name};
ghost use Rattle.gix_spec.specs.Number.{signed_of};
ghost use Rattle.gix_spec.specs.Opens.{braced_of};
ghost use Rattle.gix_spec.specs.Performs.{Performs, Reads};
ghost use Rattle.gix_spec.specs.Pieces;
ghost use Rattle.gix_date.specs.Date.{date_of};

use super::braces::{Braced, begins, opened};
use super::calls::{Asked, call_asked, unopened};
use super::context::{Context, Stopped};
use super::cut::after_mark;
use super::delegate::{Delegate, ReflogLookup, SiblingBranch};
use super::fault::Fault;
use super::function::read;
use super::number::{Signed, signed_number};
use super::part::{Behind, Found, Part, Piece, Way};
use gix_base::date::Time;
use gix_date::date;
use std::alloc::Allocator;

// In this file, `own` is the name of the revision, which may be empty.

/// The least number in braces that is a date: seconds since 1970-01-01 00:00:00 UTC.
const FIRST_DATE: usize = 100_000_000;

/// Returns the reflog entry of that number, or the date that the number means.
fn lookup(number: usize) -> ReflogLookup
    requires { number < 2 ^ 63 }
    ensures { result ≡ lookup_of number }
{
    if number < FIRST_DATE {
        return ReflogLookup::Entry(number);
    }
    ReflogLookup::Date(Time {
        seconds: number as i64,
        offset: 0,
    })
}

/// Reads a number after a minus sign: the branch that was checked out so many times ago. No name may
/// precede it.
fn branch<'a, A: Allocator>(own: &'a [u8], number: usize, braces: &Braced<'a, A>) -> Found<'a>
    ensures { part_of result ≡ branch_at own.now number (braced_of braces.now) }
{
    let inner = braces.raw;
    match own {
        [] => Part::piece(Piece::Branch { number, inner }, braces.rest),
        _ => Part::refusal(Fault::NegativeEntry, Some(inner)),
    }
}

/// Reads a number in braces.
fn numbered<'a, A: Allocator>(own: &'a [u8], number: Signed, braces: &Braced<'a, A>) -> Found<'a>
    requires { FitsIsize number }
    ensures { part_of result ≡ number_at own.now (signed_found number) (braced_of braces.now) }
{
    let inner = braces.raw;
    match number {
        Signed::Minus(0) => Part::refusal(Fault::NegativeZero, Some(inner)),
        Signed::Minus(number) => branch(own, number, braces),
        Signed::Plain(number) => {
            let query = lookup(number);
            Part::piece(Piece::Reflog { query, own, inner }, braces.rest)
        }
    }
}

/// Returns the time that a text means as a date, if it is one.
fn time_of(text: &[u8], now: Time) -> Option<Time>
    ensures { result ≡ time_of (date_of text.now now) }
{
    date::parse(text, now).ok()
}

/// Asks for the reflog entry at the time that a text means.
fn look_up<'a, D: Delegate>(
    meant: &[u8],
    own: &'a [u8],
    raw: &'a [u8],
    context: &mut Context<'a>,
    delegate: &mut D,
) -> Result<(), Stopped>
    ensures { Performs D.step
        (Pieces.date (λ now. time_of (date_of meant.now now)) own.now raw.now ∷ [])
        delegate.old (context_of context.old) delegate.new (context_of context.new)
        result context.new.error }
{
    let time = time_of(meant, context.now);
    call_asked(Asked::Date(time), own, raw, context, delegate)
}

/// Reads the text in braces as a date.
fn dated<'a, A: Allocator, D: Delegate>(
    own: &'a [u8],
    braces: &Braced<'a, A>,
    context: &mut Context<'a>,
    delegate: &mut D,
) -> Result<Behind<'a>, Stopped>
    ensures { Reads D.step (word_at own.now None (braced_of braces.now))
        delegate.old (context_of context.old) delegate.new (context_of context.new)
        result context.new.error }
{
    look_up(braces.meant.as_ref(), own, braces.raw, context, delegate)?;
    Ok(Behind {
        rest: braces.rest,
        way: Way::Onward,
    })
}

/// Reads the text in the braces after an `@`.
fn inside<'a, A: Allocator, D: Delegate>(
    own: &'a [u8],
    braces: &Braced<'a, A>,
    context: &mut Context<'a>,
    delegate: &mut D,
) -> Result<Behind<'a>, Stopped>
    ensures { Reads D.step
        (inside_at own.now (signed_of (braced_of braces.now).meant) (braced_of braces.now))
        delegate.old (context_of context.old) delegate.new (context_of context.new)
        result context.new.error }
{
    if let Some(number) = signed_number(braces.meant.as_ref()) {
        return read(numbered(own, number, braces), context, delegate);
    }
    let Some(branch) = SiblingBranch::parse(braces.meant.as_ref()) else {
        return dated(own, braces, context, delegate);
    };
    let inner = braces.raw;
    let piece = Piece::Sibling { branch, own, inner };
    read(Part::piece(piece, braces.rest), context, delegate)
}

/// Reads the braces after an `@`, from the opening brace on.
fn in_braces<'a, A: Allocator, D: Delegate>(
    alloc: A,
    own: &'a [u8],
    text: &'a [u8],
    context: &mut Context<'a>,
    delegate: &mut D,
) -> Result<Behind<'a>, Stopped>
    requires { starts_with brace text.now ≡ true }
    ensures { Reads D.step (at_braces own.now text.now)
        delegate.old (context_of context.old) delegate.new (context_of context.new)
        result context.new.error }
{
    match opened(alloc, text) {
        Ok(braces) => inside(own, &braces, context, delegate),
        Err(why) => Err(unopened(why, text, context)),
    }
}

/// Reads the `@` after the name `own`, if the text begins with one.
pub(crate) fn at_part<'a, A: Allocator, D: Delegate>(
    alloc: A,
    own: &'a [u8],
    text: &'a [u8],
    context: &mut Context<'a>,
    delegate: &mut D,
) -> Result<Behind<'a>, Stopped>
    ensures { Reads D.step (at_part own.now text.now)
        delegate.old (context_of context.old) delegate.new (context_of context.new)
        result context.new.error }
{
    let Some(after) = after_mark(text, b'@') else {
        return read(Part::nothing(text), context, delegate);
    };
    if begins(after) {
        return in_braces(alloc, own, after, context, delegate);
    }
    let fault = Part::refusal(Fault::AtWithoutBraces, Some(text));
    read(fault, context, delegate)
}

/// Reads the front of a revision that has no name.
pub(crate) fn without_name<'a, A: Allocator, D: Delegate>(
    alloc: A,
    text: &'a [u8],
    context: &mut Context<'a>,
    delegate: &mut D,
) -> Result<Behind<'a>, Stopped>
    ensures { Reads D.step (without_name text.now)
        delegate.old (context_of context.old) delegate.new (context_of context.new)
        result context.new.error }
{
    let Some(after) = after_mark(text, b'@') else {
        return read(Part::nothing(text), context, delegate);
    };
    if begins(after) {
        return in_braces(alloc, b"", after, context, delegate);
    }
    read(Part::piece(Piece::Head, after), context, delegate)
}
