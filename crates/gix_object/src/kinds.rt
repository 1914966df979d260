//! Has the names of the kinds of objects.

ghost use Rattle.std.specs.Prelude.{◌≡◌, ◌≢◌, MatchOption};
ghost use Rattle.gix_base.specs.declared.object.Kind.{Kind};
ghost use Rattle.gix_object.specs.ObjectForm.{kind_name};

use gix_base::object::Kind;

/// Returns the name of a kind, as git writes it (gitglossary, "object type").
#[tactic(auto, unfolding(crate::specs::ObjectForm::kind_name))]
pub fn kind_name(kind: Kind) -> &'static str
    // The answer is the name of the kind.
    ensures { result.now ≡ kind_name kind }
{
    match kind {
        Kind::Tree => "tree",
        Kind::Blob => "blob",
        Kind::Commit => "commit",
        Kind::Tag => "tag",
    }
}

/// Returns the bytes of the name of a kind.
pub(crate) fn name(kind: Kind) -> &'static [u8]
    ensures { result.now ≡ kind_name kind }
{
    kind_name(kind).as_bytes()
}

/// Returns the kind that has the name `text`.
pub(crate) fn kind_of_name(text: &[u8]) -> Option<Kind>
    ensures { MatchOption result ((kind : Kind) → kind_name kind ≢ text.now)
        (λ kind. kind_name kind ≡ text.now) }
{
    if text == name(Kind::Commit) {
        Some(Kind::Commit)
    } else if text == name(Kind::Tag) {
        Some(Kind::Tag)
    } else if text == name(Kind::Tree) {
        Some(Kind::Tree)
    } else if text == name(Kind::Blob) {
        Some(Kind::Blob)
    } else {
        None
    }
}
