//! Reads the steps after a name, such as `~2` and `^{tree}`.

ghost use Rattle.std.specs.Prelude.{◌≡◌, ◌≤◌, length, false};
ghost use Rattle.std.specs.Char.{is_ascii_digit};
ghost use Rattle.std.specs.List.{prefix_len};
ghost use Rattle.gix_spec.specs.Context.{context_of};
ghost use Rattle.gix_spec.specs.Marks.{brace, starts_with};
ghost use Rattle.gix_spec.specs.Performs.{Reads};
ghost use Rattle.gix_spec.specs.Steps.{ancestor_at, parent_by, without_by, without_at, run_at};
ghost use Rattle.gix_spec.specs.Steps.{is_digit_or_minus, marked_parent, parent_at, step_at};
ghost use Rattle.gix_spec.specs.Number.{number_of};
ghost use Rattle.gix_spec.specs.Found.{part_of};
ghost use Rattle.gix_spec.specs.Part.{piece, closing};
ghost use Rattle.gix_spec.specs.Pieces;

use super::context::{Context, Stopped};
use super::cut::after_mark;
use super::delegate::{Delegate, PeelTo, Traversal};
use super::fault::Fault;
use super::function::read;
use super::number::number;
use super::part::{Behind, Found, Part, Piece};
use super::target::target;
use crate::spec::Kind;
use gix_base::object;
use std::alloc::Allocator;

// In this file, `after` is the text after a `~` or a `^`, and `run` is the digits (and minus signs)
// at its front.

/// Counts the digits at the front of a text.
fn digits_len(text: &[u8]) -> usize
    ensures len { result ≡ prefix_len is_ascii_digit text.now }
    ensures within { result ≤ length text.now }
{
    text.iter().take_while(|byte| byte.is_ascii_digit()).count()
}

/// Tests whether a byte is a digit or a minus sign.
fn is_digit_or_minus(byte: u8) -> bool
    ensures { result ≡ is_digit_or_minus byte }
{
    byte.is_ascii_digit() || byte == b'-'
}

/// Counts the digits and minus signs at the front of a text.
fn run_len(text: &[u8]) -> usize
    ensures len { result ≡ prefix_len is_digit_or_minus text.now }
    ensures within { result ≤ length text.now }
{
    text.iter()
        .take_while(|byte| is_digit_or_minus(**byte))
        .count()
}

/// Returns the part that is one step.
fn step<'a>(step: Traversal, after: &'a [u8], rest: &'a [u8]) -> Found<'a>
    ensures { part_of result ≡ piece (Pieces.step step after.now) rest.now }
{
    Part::piece(Piece::Step { step, after }, rest)
}

/// Reads `~` or `~n`, after its mark.
#[inline(always)]
#[tactic(auto, unfolding(crate::specs::Steps::ancestor_at))]
fn ancestor(after: &[u8]) -> Found<'_>
    ensures { part_of result ≡ ancestor_at after.now }
{
    if let [b'+' | b'-', ..] = after {
        return Part::refusal(Fault::Sign, Some(after));
    }
    let (run, rest) = after.split_at(digits_len(after));
    if run.is_empty() {
        return step(Traversal::NthAncestor(1), after, after);
    }
    match number(run) {
        Some(number) => step(Traversal::NthAncestor(number), after, rest),
        None => Part::refusal(Fault::Number, Some(run)),
    }
}

/// Reads `^n`, after its mark. `^0` is the commit itself.
fn parent<'a>(run: &'a [u8], rest: &'a [u8], after: &'a [u8]) -> Found<'a>
    ensures { part_of result ≡ parent_by run.now rest.now after.now (number_of run.now) }
{
    match number(run) {
        Some(0) => {
            let target = PeelTo::ObjectKind(object::Kind::Commit);
            Part::piece(Piece::Peel { target, after }, rest)
        }
        Some(number) if number <= isize::MAX as usize => {
            step(Traversal::NthParent(number), after, rest)
        }
        _ => Part::refusal(Fault::Number, Some(run)),
    }
}

/// Returns the part that is `^-n`.
fn without_parent<'a>(number: usize, rest: &'a [u8], after: &'a [u8]) -> Found<'a>
    ensures { part_of result ≡ closing (Pieces.without_parent number after.now rest.now) rest.now }
{
    Part::closing(
        Piece::WithoutParent {
            number,
            after,
            rest,
        },
        rest,
    )
}

/// Reads `^-` or `^-n`, after its mark. `digits` is the run without its minus sign.
#[tactic(auto, unfolding(crate::specs::Steps::without_at))]
fn without<'a>(digits: &'a [u8], run: &'a [u8], rest: &'a [u8], after: &'a [u8]) -> Found<'a>
    ensures { part_of result ≡ without_at digits.now run.now rest.now after.now }
{
    if digits.is_empty() {
        return without_parent(1, rest, after);
    }
    match number(digits) {
        Some(0) => Part::refusal(Fault::NegativeZero, Some(run)),
        Some(number) if number <= isize::MAX as usize => without_parent(number, rest, after),
        _ => Part::refusal(Fault::Number, Some(run)),
    }
}

/// Reads the run after a `^`.
#[inline(always)]
#[tactic(auto, unfolding(crate::specs::Steps::run_at))]
fn numbered<'a>(run: &'a [u8], rest: &'a [u8], after: &'a [u8]) -> Found<'a>
    ensures { part_of result ≡ run_at run.now rest.now after.now }
{
    match run {
        [] => step(Traversal::NthParent(1), after, after),
        [b'-', digits @ ..] => without(digits, run, rest, after),
        _ => parent(run, rest, after),
    }
}

/// Returns the part that is `^!` or `^@`.
fn closer(kind: Kind, rest: &[u8]) -> Found<'_>
    ensures { part_of result ≡ closing (Pieces.closer kind rest.now) rest.now }
{
    Part::closing(Piece::Closer { kind, rest }, rest)
}

/// Reads the text after a `^` that no brace follows.
#[inline(always)]
#[tactic(auto, unfolding(crate::specs::Steps::parent_at))]
fn behind_caret(after: &[u8]) -> Found<'_>
    requires { starts_with brace after.now ≡ false }
    ensures { part_of result ≡ parent_at after.now }
{
    match after {
        [] => step(Traversal::NthParent(1), after, after),
        [b'+', ..] => Part::refusal(Fault::Sign, Some(after)),
        [b'!', rest @ ..] => closer(Kind::ExcludeReachableFromParents, rest),
        [b'@', rest @ ..] => closer(Kind::IncludeReachableFromParents, rest),
        _ => {
            let (run, rest) = after.split_at(run_len(after));
            numbered(run, rest, after)
        }
    }
}

/// Reads the text after a `^`.
#[inline(always)]
#[tactic(auto, unfolding(crate::specs::Steps::parent_at))]
fn parent_step<'a, A: Allocator, D: Delegate>(
    alloc: A,
    after: &'a [u8],
    context: &mut Context<'a>,
    delegate: &mut D,
) -> Result<Behind<'a>, Stopped>
    ensures { Reads D.step (parent_at after.now)
        delegate.old (context_of context.old) delegate.new (context_of context.new)
        result context.new.error }
{
    match after {
        [b'{', ..] => target(alloc, after, context, delegate),
        _ => read(behind_caret(after), context, delegate),
    }
}

/// Reads the step at the front of a text, if the text begins with one.
#[inline(always)]
pub(crate) fn next_step<'a, A: Allocator, D: Delegate>(
    alloc: A,
    text: &'a [u8],
    context: &mut Context<'a>,
    delegate: &mut D,
) -> Result<Behind<'a>, Stopped>
    ensures { Reads D.step (step_at text.now)
        delegate.old (context_of context.old) delegate.new (context_of context.new)
        result context.new.error }
{
    if let Some(after) = after_mark(text, b'~') {
        return read(ancestor(after), context, delegate);
    }
    if let Some(after) = after_mark(text, b'^') {
        return parent_step(alloc, after, context, delegate);
    }
    if let Some(path) = after_mark(text, b':') {
        return read(Part::piece(Piece::Path(path), b""), context, delegate);
    }
    read(Part::nothing(text), context, delegate)
}
