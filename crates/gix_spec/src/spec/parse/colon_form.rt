//! Reads revisions that begin with a colon.

ghost use Rattle.std.specs.Prelude.{◌≡◌, []};
ghost use Rattle.gix_spec.specs.ColonForms.{negated_regex, banged, regex_at, index_at, colon_form};
ghost use Rattle.gix_spec.specs.Found.{part_of};
ghost use Rattle.gix_spec.specs.Part.{piece};
ghost use Rattle.gix_spec.specs.Pieces.{regex, index};

use super::fault::Fault;
use super::part::{Found, Part, Piece};

/// Returns the part that is a regex.
fn regex(raw: &[u8], negated: bool) -> Found<'_>
    ensures { part_of result ≡ piece (regex raw.now raw.now negated) [] }
{
    let piece = Piece::Regex {
        wanted: raw,
        raw,
        negated,
    };
    Part::piece(piece, b"")
}

/// Reads a regex after `!-`.
fn negated<'a>(raw: &'a [u8], whole: &'a [u8]) -> Found<'a>
    ensures { part_of result ≡ negated_regex raw.now whole.now }
{
    match raw {
        [] => Part::refusal(Fault::Unconsumed, Some(whole)),
        _ => regex(raw, true),
    }
}

/// Reads the text after a `!` in front of a regex.
#[tactic(auto, unfolding(crate::specs::ColonForms::banged))]
fn banged<'a>(after: &'a [u8], raw: &'a [u8], whole: &'a [u8]) -> Found<'a>
    ensures { part_of result ≡ banged after.now raw.now whole.now }
{
    match after {
        [b'-', rest @ ..] => negated(rest, whole),
        [b'!', ..] => regex(after, false),
        _ => Part::refusal(Fault::RegexPrefix, Some(raw)),
    }
}

/// Reads the regex after `:/`.
#[tactic(auto, unfolding(crate::specs::ColonForms::regex_at))]
fn behind_slash<'a>(raw: &'a [u8], whole: &'a [u8]) -> Found<'a>
    ensures { part_of result ≡ regex_at raw.now whole.now }
{
    match raw {
        [] => Part::refusal(Fault::LoneColonSlash, None),
        [b'!', after @ ..] => banged(after, raw, whole),
        _ => regex(raw, false),
    }
}

/// Returns the part that is a path in the index.
fn index(path: &[u8], stage: u8) -> Found<'_>
    ensures { part_of result ≡ piece (index path.now stage) [] }
{
    Part::piece(Piece::Index { path, stage }, b"")
}

/// Reads the text after the colon that `whole` begins with.
#[tactic(auto, unfolding(crate::specs::ColonForms::colon_form))]
pub(crate) fn colon_form<'a>(after: &'a [u8], whole: &'a [u8]) -> Found<'a>
    ensures { part_of result ≡ colon_form after.now whole.now }
{
    match after {
        [] => Part::refusal(Fault::LoneColon, None),
        [b'/', raw @ ..] => behind_slash(raw, whole),
        [stage @ b'0'..=b'3', b':', path @ ..] => index(path, *stage - b'0'),
        _ => index(after, 0),
    }
}
