//! Describes commits by names that C passes, and prints the descriptions.

ghost use Rattle.std.specs.Prelude.{◌≡◌, ◌≢◌, ◌^◌, ◌⊎◌, ⊤, IfOk, IsTrue, OnErr, OnOk, None};
ghost use Rattle.gix_base.specs.declared.hash.ObjectId.{ObjectId};
ghost use Rattle.gix_revwalk.specs.Followed.{followed};
ghost use Rattle.gix_revwalk.specs.History.{Has, IsAncestor};
ghost use Rattle.gix_revwalk.specs.Sizes.{AtLeast};
ghost use Rattle.gix_describe.specs.Described.{Names as Given, name_at};
ghost use Rattle.gix_describe.specs.FormatText.{format_bytes};
ghost use Rattle.gix_describe.specs.Lent.{description_by};
ghost use Rattle.gix_describe.specs.Outcomes.{names_of};
ghost use Rattle.gix_c_core.specs.Answers.{ByCode, id_of};
ghost use Rattle.gix_c_core.specs.Descriptions.{AreNames, HasDescription, IsDescribedSo, IsManner, IsPrinted, IsText, NeedsWalkSo, first_of, names_given, named_by, printed_text};
ghost use Rattle.gix_c_core.specs.Partial.{Wants, is_partial, whole_in};

use crate::history::History;
use crate::status::{NO_COMMIT, NO_HOW, NONE, OK, OUT_OF_MEMORY, TOO_MANY, WANTS};
use gix_history::Beyond;
use gix_revision::Seed;
use gix_revision::describe::{Format, Manner, Names, Nearest, Tie};
use gix_revision::hash::ObjectId;
use std::alloc::{AllocError, Global};
use std::borrow::CowSlice;
use std::collections::HashMap;

/// A tag or ref, by the id of its commit and its text.
#[repr(C)]
#[derive(Clone, Copy)]
pub struct Name<'a> {
    id: [u8; 20],
    text: &'a [u8],
}

/// The size of [`How`] in bytes.
pub const HOW_SIZE: u32 = 32;

/// The options of a description. The first field is the size that the caller's struct has.
#[repr(C)]
#[derive(Clone, Copy)]
pub struct How {
    pub size: usize,
    max_candidates: usize,
    hex_len: usize,
    pub first_parent: bool,
    fallback_to_id: bool,
    long_form: bool,
    git_order: bool,
}

/// Adds a name to `map`, unless its commit already has one.
fn add_name<'a>(map: &mut Names<'a>, name: &Name<'a>) -> Result<(), AllocError>
    ensures { OnOk result ((q : ObjectId) → name_at (names_of map.new.entries) q
        ≡ first_of (name_at (names_of map.old.entries) q) (named_by name.now q)) }
{
    let id = ObjectId(name.id);
    if !map.contains_key(&id) {
        map.insert(id, CowSlice::Borrowed(name.text))?;
    }
    Ok(())
}

/// Collects the first name of each commit, in a map that is seeded with `seed`.
pub fn first_names<'a>(
    alloc: Global,
    seed: Seed,
    names: &[Name<'a>],
) -> Result<Names<'a>, AllocError>
    // The answer gives each commit the first name that `names` has for the commit, and gives the
    // other commits none.
    ensures { IfOk result (λ map. AreNames map.entries (names_given names.now)) }
{
    let mut map = HashMap::with_hasher(alloc, seed);
    for name in names {
        add_name(&mut map, name)?;
    }
    Ok(map)
}

/// Adds a copy of a name to `map`, unless its commit already has one.
fn add_copy(alloc: Global, map: &mut Names<'static>, name: &Name<'_>) -> Result<(), AllocError>
    ensures { OnOk result ((q : ObjectId) → name_at (names_of map.new.entries) q
        ≡ first_of (name_at (names_of map.old.entries) q) (named_by name.now q)) }
{
    let id = ObjectId(name.id);
    if !map.contains_key(&id) {
        let text = name.text.to_vec(alloc)?;
        map.insert(id, CowSlice::Owned(text))?;
    }
    Ok(())
}

/// Collects a copy of the first name of each commit, in a map that is seeded with `seed`.
pub fn copied_names(
    alloc: Global,
    seed: Seed,
    names: &[Name<'_>],
) -> Result<Names<'static>, AllocError>
    // The answer gives each commit the first name that `names` has for the commit, and gives the
    // other commits none.
    ensures { IfOk result (λ map. AreNames map.entries (names_given names.now)) }
{
    let mut map = HashMap::with_hasher(alloc, seed);
    for name in names {
        add_copy(alloc, &mut map, name)?;
    }
    Ok(map)
}

/// Returns the manner in which names are chosen.
fn manner_of(how: &How) -> Manner
    ensures { IsManner how.now result }
{
    Manner {
        max_candidates: how.max_candidates,
        fallback_to_oid: how.fallback_to_id,
        first_parent: how.first_parent,
        tie: if how.git_order {
            Tie::ByMeeting
        } else {
            Tie::ById
        },
    }
}

/// Copies as many first bytes of `text` as fit into `out`, and stores in `len` how many there are.
pub(crate) fn write_text(text: &[u8], out: &mut [u8], len: &mut usize)
    ensures { IsText text.now out.old out.new len.new }
{
    let room = text.len().min(out.len());
    out[..room].copy_from_slice(&text[..room]);
    *len = text.len();
}

/// Makes what is printed of a description. With 0 digits it is the name alone or, without a name, all
/// digits of the id.
fn format_of<'a>(nearest: Nearest<'a>, how: &How) -> Format<'a>
    ensures { format_bytes result
        ≡ printed_text nearest.entry.id (description_by nearest.entry) how.now }
{
    if how.hex_len == 0 {
        let mut format = nearest.into_format(40);
        format.depth = 0;
        return format;
    }
    let mut format = nearest.into_format(how.hex_len);
    format.long = how.long_form;
    format
}

/// Prints a description into the caller's buffer.
fn printed(
    alloc: Global,
    nearest: Nearest<'_>,
    how: &How,
    out: &mut [u8],
    len: &mut usize,
    depth: &mut u32,
) -> Result<(), AllocError>
    ensures printed { OnOk result (IsPrinted nearest.entry.id (description_by nearest.entry) how.now
        out.old out.new len.new depth.new) }
    ensures refused { OnErr result
        ((out.new ≡ out.old) × (len.new ≡ len.old) × (depth.new ≡ depth.old)) }
{
    let found = nearest.depth;
    let format = format_of(nearest, how);
    let mut text = Vec::new(alloc);
    match format.write_to(&mut text) {
        Ok(()) => {}
        Err(_) => return Err(AllocError),
    }
    write_text(&text, out, len);
    *depth = found;
    Ok(())
}

/// Describes `commit` by a map of names, and prints the description.
pub fn describe_by<K: Beyond>(
    alloc: Global,
    history: &mut History,
    commit: &[u8; 20],
    names: &Names<'_>,
    how: &How,
    out: &mut [u8],
    len: &mut usize,
    depth: &mut u32,
) -> i32
    // Let `given` name each commit as `names` does. After `OK`, text and depth describe the commit
    // by `given` in the whole history. After `NONE`, it has no name, `fallback_to_id` is not set,
    // and either no name can be taken, or the history has it and no followed ancestor has a name.
    ensures described { (given : Given) → AreNames names.now.entries given → ByCode result
        (HasDescription (whole_in history.old K.beyond) (id_of commit.now) given how.now
        out.old out.new len.new depth.new)
        (IsDescribedSo (whole_in history.old K.beyond) (id_of commit.now) given how.now None)
        ⊤ }

    // After `NONE` and after an error code, `out`, `len` and `depth` are unchanged.
    ensures unwritten { ByCode result ⊤
        ((out.new ≡ out.old) × (len.new ≡ len.old) × (depth.new ≡ depth.old))
        ((out.new ≡ out.old) × (len.new ≡ len.old) × (depth.new ≡ depth.old)) }

    // `NO_COMMIT` only if the whole history does not have the commit.
    ensures no_commit { result ≡ NO_COMMIT → ¬ Has (whole_in history.old K.beyond) (id_of commit.now) }

    // `TOO_MANY` only if the commit reaches 2^32 commits or more, along the followed parents.
    ensures too_many { result ≡ TOO_MANY → AtLeast (2 ^ 32)
        (IsAncestor (followed how.now.first_parent (whole_in history.old K.beyond)) (id_of commit.now)) }

    // `NO_COMMIT` and `TOO_MANY` only if the history has to be walked: the commit has no name,
    // there are names, and at least one may be taken.
    ensures walk { (given : Given) → AreNames names.now.entries given
        → (result ≡ NO_COMMIT) ⊎ (result ≡ TOO_MANY) → NeedsWalkSo (id_of commit.now) given how.now }

    // `NO_HOW` only if the size of the options is not 32.
    ensures no_how { result ≡ NO_HOW → how.now.size ≢ 32 }

    // `WANTS` only if the history is partial. The history then notes as wanted a commit that was
    // neither added nor in its files.
    ensures wants { result ≡ WANTS → IsTrue (is_partial history.old.extent)
        × Wants history.old history.new }

    // An error code is `NO_HOW`, `NO_COMMIT`, `TOO_MANY`, `WANTS` or `OUT_OF_MEMORY`.
    ensures refused { ByCode result ⊤ ⊤ ((result ≡ NO_HOW) ⊎ ((result ≡ NO_COMMIT)
        ⊎ ((result ≡ TOO_MANY) ⊎ ((result ≡ WANTS) ⊎ (result ≡ OUT_OF_MEMORY))))) }

    // Unless the code is `WANTS`, the history is unchanged.
    ensures kept { result ≢ WANTS → history.new ≡ history.old }

    // Also after an error, the graph is unchanged, and with it the commits of the history.
    ensures graph { history.new.graph ≡ history.old.graph }

    // Also after an error, the noted parents are unchanged.
    ensures named { history.new.named ≡ history.old.named }

    // Also after an error, the ref names, and the ids that abbreviated object names stand for, are
    // unchanged.
    ensures table { history.new.table ≡ history.old.table }
{
    if how.size != HOW_SIZE as usize {
        return NO_HOW;
    }
    match history.describe::<K>(alloc, ObjectId(*commit), names, manner_of(how)) {
        Ok(Some(nearest)) => match printed(alloc, nearest, how, out, len, depth) {
            Ok(()) => OK,
            Err(_) => OUT_OF_MEMORY,
        },
        Ok(None) => NONE,
        Err(code) => code,
    }
}
