//! Reads the lines of `packed-refs` (git-pack-refs; gitrepository-layout, "packed-refs").

ghost use Rattle.std.specs.Prelude.{◌≡◌, ℕ, List, drop, None, IfSome};
ghost use Rattle.std.specs.Option.{option_map};
ghost use Rattle.gix_ref_text.specs.Lines.{lines, parts_after};
ghost use Rattle.gix_ref_text.specs.Packed.{is_named, told_by, peeled, peeled_first};
ghost use Rattle.gix_ref_text.specs.Snapshot.{first_says, IsTold, IsRecord};
ghost use Rattle.gix_ref_text.specs.Said.{packed_said};

use crate::lines::{cut, id_of};
use gix_base::hash::ObjectId;
use memchr::memchr;

/// What `packed-refs` says of a reference.
#[derive(Clone, Copy)]
pub struct Packed {
    pub id: ObjectId,
    /// The object to which the tag leads that the id names.
    pub peeled: Option<ObjectId>,
}

/// Returns the id and the name of a line `ID NAME`.
pub fn record(line: &[u8]) -> Option<(ObjectId, &[u8])> {
    let (digits, rest) = line.split_at_checked(40)?;
    let (blank, name) = rest.split_first()?;
    match id_of(digits) {
        Some(id) if *blank == b' ' => Some((id, name)),
        _ => None,
    }
}

/// Which references of `packed-refs` are known to be no tag if no line `^ID` is behind them.
#[derive(Clone, Copy)]
pub enum PeeledRefs {
    All,
    /// Those below `refs/tags/`.
    Tags,
    None,
}

impl PeeledRefs {
    /// Tests whether the reference with this name is one of them.
    pub fn has(self, name: &[u8]) -> bool {
        match self {
            PeeledRefs::All => true,
            PeeledRefs::Tags => name.starts_with(b"refs/tags/"),
            PeeledRefs::None => false,
        }
    }
}

/// Tests whether a header has a trait. The traits end before a zero byte, as in git.
fn has_trait(traits: &[u8], name: &[u8]) -> bool {
    cut(traits, 0)
        .0
        .split(|b| *b == b' ')
        .any(|one| one == name)
}

/// Returns the traits in a header.
fn traits_of(line: &[u8]) -> Option<&[u8]>
    ensures { IfSome result (λ traits. (name : List ℕ) → told_by line.now name ≡ None) }
{
    line.strip_prefix(b"# pack-refs with:")
}

/// Returns what follows a header, and whether it says that the names are sorted; `None` if git
/// refuses it.
pub(crate) fn without_header(bytes: &[u8]) -> Option<(&[u8], bool)>
    ensures { IfSome result (λ r. IsTold bytes.now r.0.now) }
{
    if !bytes.starts_with(b"#") {
        return Some((bytes, false));
    }
    let (line, after) = cut(bytes, b'\n');
    let traits = traits_of(line)?;
    match after {
        Some(after) => Some((after, has_trait(traits, b"sorted"))),
        None => None,
    }
}

/// Returns which references without a line `^ID` are no tag by the header; none without a header.
pub fn peeled_in(bytes: &[u8]) -> PeeledRefs {
    match traits_of(cut(bytes, b'\n').0) {
        Some(traits) if has_trait(traits, b"fully-peeled") => PeeledRefs::All,
        Some(traits) if has_trait(traits, b"peeled") => PeeledRefs::Tags,
        _ => PeeledRefs::None,
    }
}

/// Returns the name of a line `ID NAME`. It is below `refs/`, and has no zero byte, where git ends
/// it.
fn name_of(line: &[u8]) -> Option<&[u8]>
    ensures { IfSome result (λ name. name.now ≡ drop 41 line.now) }
{
    let (digits, rest) = line.split_at_checked(40)?;
    let name = rest.strip_prefix(b" ")?;
    if name.starts_with(b"refs/")
        && memchr(0, name).is_none()
        && digits.iter().all(|b| b.is_ascii_hexdigit())
    {
        Some(name)
    } else {
        None
    }
}

/// Returns what follows a line `^ID`, if such a line comes first; `None` if it is no such line.
fn after_peeled(rest: &[u8]) -> Option<&[u8]>
    ensures { IfSome result (λ after. IsTold rest.now after.now) }
{
    if !rest.starts_with(b"^") {
        return Some(rest);
    }
    let (line, after) = cut(rest, b'\n');
    peeled(line)?;
    after
}

/// Returns the name in the first line `ID NAME`, and what follows it and its line `^ID`.
pub(crate) fn first_record(rest: &[u8]) -> Option<(&[u8], &[u8])>
    ensures { IfSome result (λ r. IsRecord rest.now r.0.now r.1.now) }
{
    let (line, after) = cut(rest, b'\n');
    let name = name_of(line)?;
    Some((name, after_peeled(after?)?))
}

/// Tests whether a text is a blank and this name.
fn is_named(text: &[u8], name: &[u8]) -> bool
    ensures { result ≡ is_named text.now name.now }
{
    match text.split_first() {
        Some((blank, rest)) => *blank == b' ' && rest == name,
        None => false,
    }
}

/// Returns the id of a line `ID NAME` with this name.
fn told_by(line: &[u8], name: &[u8]) -> Option<ObjectId>
    ensures { option_map (λ id. id.0) result ≡ told_by line.now name.now }
{
    let Some((digits, rest)) = line.split_at_checked(40) else {
        return None;
    };
    if is_named(rest, name) {
        id_of(digits)
    } else {
        None
    }
}

/// Returns the id of a line `^ID`.
fn peeled(line: &[u8]) -> Option<ObjectId>
    ensures { option_map (λ id. id.0) result ≡ peeled line.now }
{
    match line.strip_prefix(b"^") {
        Some(digits) => id_of(digits),
        None => None,
    }
}

/// Returns the id of a line `^ID` that comes first in what follows a line.
pub fn peeled_after(rest: Option<&[u8]>) -> Option<ObjectId>
    // The id of the first line of `rest` if that is a line `^ID`. `None` exactly if there is no
    // such line.
    ensures { option_map (λ id. id.0) result ≡ peeled_first (parts_after 10 (option_map (λ r. r.now) rest.entry)) }
{
    match rest {
        Some(rest) => peeled(cut(rest, b'\n').0),
        None => None,
    }
}

/// Returns what the first line says, if it tells of this name.
pub(crate) fn first_told(bytes: &[u8], name: &[u8]) -> Option<Packed>
    ensures { option_map packed_said result ≡ first_says (lines bytes.now) name.now None }
{
    let (line, after) = cut(bytes, b'\n');
    match told_by(line, name) {
        Some(id) => {
            let peeled = peeled_after(after);
            Some(Packed { id, peeled })
        }
        None => None,
    }
}
