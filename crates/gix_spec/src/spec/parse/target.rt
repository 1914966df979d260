//! Reads the braces after a `^`.

ghost use Rattle.std.specs.Prelude.{◌≡◌, true, drop, option_map};
ghost use Rattle.gix_spec.specs.Call.{target_of};
ghost use Rattle.gix_spec.specs.Context.{context_of};
ghost use Rattle.gix_spec.specs.Found.{part_of};
ghost use Rattle.gix_spec.specs.Marks.{brace, starts_with};
ghost use Rattle.gix_spec.specs.Opens.{braced_of};
ghost use Rattle.gix_spec.specs.Performs.{Reads};
ghost use Rattle.gix_spec.specs.Targets.{target_named, banged_mark, regex_mark, marked_regex};
ghost use Rattle.gix_spec.specs.Targets.{peeled_to, inside_target, target_braces};

use super::braces::{Braced, opened};
use super::calls::{call_find, unopened};
use super::context::{Context, Stopped};
use super::cut::after_mark;
use super::delegate::{Delegate, PeelTo};
use super::fault::Fault;
use super::function::read;
use super::part::{Behind, Found, Part, Piece, Way};
use gix_base::object::Kind;
use std::alloc::Allocator;

/// Returns what an object is peeled to by a word, or by empty braces.
#[tactic(auto, unfolding(crate::specs::Targets::target_named))]
fn named(word: &[u8]) -> Option<PeelTo<'static>>
    ensures { option_map target_of result ≡ target_named word.now }
{
    if word == b"commit".as_slice() {
        return Some(PeelTo::ObjectKind(Kind::Commit));
    }
    if word == b"tree".as_slice() {
        return Some(PeelTo::ObjectKind(Kind::Tree));
    }
    if word == b"blob".as_slice() {
        return Some(PeelTo::ObjectKind(Kind::Blob));
    }
    if word == b"tag".as_slice() {
        return Some(PeelTo::ObjectKind(Kind::Tag));
    }
    if word == b"object".as_slice() {
        return Some(PeelTo::ValidObject);
    }
    if word.is_empty() {
        return Some(PeelTo::RecursiveTagObject);
    }
    None
}

/// Reads the mark before a regex, after its `!`: how many bytes it takes, and whether it negates.
fn banged(after: &[u8]) -> Option<(usize, bool)>
    ensures { result ≡ banged_mark after.now }
{
    match after {
        [b'-', ..] => Some((2, true)),
        [b'!', ..] => Some((1, false)),
        _ => None,
    }
}

/// Reads the mark in front of a regex, if there is one.
#[tactic(auto, unfolding(crate::specs::Targets::regex_mark))]
fn mark(text: &[u8]) -> Option<(usize, bool)>
    ensures { result ≡ regex_mark text.now }
{
    match text {
        [b'!', after @ ..] => banged(after),
        _ => Some((0, false)),
    }
}

/// Returns the text after its first `len` bytes.
fn behind(text: &[u8], len: usize) -> &[u8]
    ensures { result.now ≡ drop len text.now }
{
    &text[len.min(text.len())..]
}

/// Reads a regex after its slash: `raw` is the text as it is written, `meant` is without escapes.
fn regex<'a, D: Delegate>(
    raw: &'a [u8],
    meant: &[u8],
    rest: &'a [u8],
    context: &mut Context<'a>,
    delegate: &mut D,
) -> Result<Behind<'a>, Stopped>
    ensures { Reads D.step (marked_regex raw.now meant.now rest.now (regex_mark meant.now))
        delegate.old (context_of context.old) delegate.new (context_of context.new)
        result context.new.error }
{
    let Some((len, negated)) = mark(meant) else {
        let fault = Part::refusal(Fault::RegexPrefix, Some(raw));
        return read(fault, context, delegate);
    };
    let wanted = behind(meant, len);
    call_find(wanted, behind(raw, len), negated, context, delegate)?;
    Ok(Behind {
        rest,
        way: Way::Onward,
    })
}

/// Returns the part that peels to the target, or the fault of an unknown target.
fn peeled<'a, A: Allocator>(
    target: Option<PeelTo<'a>>,
    braces: &Braced<'a, A>,
    after: &'a [u8],
) -> Found<'a>
    ensures { part_of result
        ≡ peeled_to (option_map target_of target.entry) (braced_of braces.now) after.now }
{
    match target {
        Some(target) => Part::piece(Piece::Peel { target, after }, braces.rest),
        None => Part::refusal(Fault::UnknownTarget, Some(braces.raw)),
    }
}

/// Reads the text in the braces after a `^`. `after` begins with the braces.
fn inside<'a, A: Allocator, D: Delegate>(
    braces: &Braced<'a, A>,
    after: &'a [u8],
    context: &mut Context<'a>,
    delegate: &mut D,
) -> Result<Behind<'a>, Stopped>
    ensures { Reads D.step
        (inside_target (braced_of braces.now).meant (braced_of braces.now) after.now)
        delegate.old (context_of context.old) delegate.new (context_of context.new)
        result context.new.error }
{
    let meant = braces.meant.as_ref();
    match after_mark(meant, b'/') {
        Some(more) => regex(behind(braces.raw, 1), more, braces.rest, context, delegate),
        None => read(peeled(named(meant), braces, after), context, delegate),
    }
}

/// Reads the braces after a `^`, from the opening brace on.
pub(crate) fn target<'a, A: Allocator, D: Delegate>(
    alloc: A,
    after: &'a [u8],
    context: &mut Context<'a>,
    delegate: &mut D,
) -> Result<Behind<'a>, Stopped>
    requires { starts_with brace after.now ≡ true }
    ensures { Reads D.step (target_braces after.now)
        delegate.old (context_of context.old) delegate.new (context_of context.new)
        result context.new.error }
{
    match opened(alloc, after) {
        Ok(braces) => inside(&braces, after, context, delegate),
        Err(why) => Err(unopened(why, after, context)),
    }
}
