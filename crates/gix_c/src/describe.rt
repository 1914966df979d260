//! C function that describes a commit.

ghost use Rattle.std.specs.Prelude.{◌≡◌, ◌≢◌, ◌^◌, ◌⊎◌, ⊤, IsTrue, None};
ghost use Rattle.gix_revwalk.specs.Followed.{followed};
ghost use Rattle.gix_revwalk.specs.History.{Has, History as Commits, IsAncestor};
ghost use Rattle.gix_revwalk.specs.Sizes.{AtLeast};
ghost use Rattle.gix_describe.specs.Described.{Names as Given};
ghost use Rattle.gix_c_core.specs.Answers.{ByCode, id_of};
ghost use Rattle.gix_c_core.specs.Descriptions.{HasDescription, IsDescribedSo, NeedsWalkSo, names_given};
ghost use Rattle.gix_c_core.specs.Partial.{Wants, is_partial, whole_of};
ghost use Rattle.gix_c_core.specs.Stocks.{HasNames, IsTable};

use gix_c_core::describe::{HOW_SIZE, How, Name, copied_names, describe_by, first_names};
use gix_c_core::handle::Handle;
use gix_c_core::status::{NO_COMMIT, NO_HOW, OK, OUT_OF_MEMORY, TOO_MANY, WANTS};
use gix_c_core::stock::Stock;
use gix_c_core::stock_handle::NamesHandle;
use gix_c_core::stock_place::{NamesPlace, StockPlace};
use gix_revision::Seed;
use std::alloc::Global;
use std::marker::Brand;

/// Describes `commit` by the names that are passed.
///
/// Of several names of one commit the first counts. The history is unchanged, and keeps all that it
/// holds.
#[unsafe(no_mangle)]
pub extern "C" fn gix_history_describe(
    alloc: Global,
    history: &mut Handle,
    commit: &[u8; 20],
    names: &[Name],
    how: &How,
    out: &mut [u8],
    len: &mut usize,
    depth: &mut u32,
) -> i32
    ghost beyond: { Commits }
    // After `OK`, `len` and `depth` are those of a text that describes the commit in the whole
    // history by `names`. It replaces the front of `out`, as far as it fits. After `NONE`, no name
    // is found, and `fallback_to_id` is not set.
    ensures described { ByCode result
        (HasDescription (whole_of history.old beyond) (id_of commit.now) (names_given names.now) how.now
        out.old out.new len.new depth.new)
        (IsDescribedSo (whole_of history.old beyond) (id_of commit.now) (names_given names.now) how.now None)
        ⊤ }

    // After `NONE` or an error, `out`, `len` and `depth` are unchanged.
    ensures unwritten { ByCode result ⊤
        ((out.new ≡ out.old) × (len.new ≡ len.old) × (depth.new ≡ depth.old))
        ((out.new ≡ out.old) × (len.new ≡ len.old) × (depth.new ≡ depth.old)) }

    // The code is `NO_COMMIT` only if the whole history does not have the commit.
    ensures no_commit { result ≡ NO_COMMIT → ¬ Has (whole_of history.old beyond) (id_of commit.now) }

    // The code is `TOO_MANY` only if the commit reaches 2^32 commits or more in the whole history.
    // If `first_parent` is set, these are the ones that it reaches along first parents.
    ensures too_many { result ≡ TOO_MANY → AtLeast (2 ^ 32)
        (IsAncestor (followed how.now.first_parent (whole_of history.old beyond)) (id_of commit.now)) }

    // The code is `NO_COMMIT` or `TOO_MANY` only if the commit has no name, `names` has names, and
    // `max_candidates` is not 0.
    ensures walk { (result ≡ NO_COMMIT) ⊎ (result ≡ TOO_MANY)
        → NeedsWalkSo (id_of commit.now) (names_given names.now) how.now }

    // The code is `NO_HOW` only if the size of `how` is not 32.
    ensures no_how { result ≡ NO_HOW → how.now.size ≢ 32 }

    // The code is `WANTS` only if the history is partial. The wanted commit is then one that was
    // not added.
    ensures wants { result ≡ WANTS → IsTrue (is_partial history.old.value.extent)
        × Wants history.old.value history.new.value }

    // The code is `OK`, `NONE`, `NO_HOW`, `NO_COMMIT`, `TOO_MANY`, `WANTS` or `OUT_OF_MEMORY`.
    ensures refused { ByCode result ⊤ ⊤ ((result ≡ NO_HOW) ⊎ ((result ≡ NO_COMMIT)
        ⊎ ((result ≡ TOO_MANY) ⊎ ((result ≡ WANTS) ⊎ (result ≡ OUT_OF_MEMORY))))) }

    // After any code other than `WANTS`, the history is unchanged, with all that its graph holds.
    ensures kept { result ≢ WANTS → history.new.value ≡ history.old.value }

    // Also after an error, the graph is unchanged, with its commits and all that it holds.
    ensures graph { history.new.value.graph ≡ history.old.value.graph }

    // Also after an error, the list of noted parents is unchanged.
    ensures named { history.new.value.named ≡ history.old.value.named }

    // Also after an error, ref names and the ids of abbreviated object names are unchanged.
    ensures table { history.new.value.table ≡ history.old.value.table }
{
    if how.size != HOW_SIZE as usize {
        return NO_HOW;
    }
    let history = history.get_mut();
    let Ok(names) = first_names(alloc, history.graph.seed(), names) else {
        return OUT_OF_MEMORY;
    };
    describe_by::<Brand>(alloc, history, commit, &names, how, out, len, depth)
}

/// Makes a table of names, which `*out` then owns. Its hash map is seeded with `seed`.
///
/// Of several names of one commit the first counts. The table has copies of the texts. What `*out`
/// owned before is not freed.
#[unsafe(no_mangle)]
pub extern "C" fn gix_names_new(
    alloc: Global,
    names: &[Name],
    seed: u64,
    out: &mut NamesPlace,
) -> i32
    // The code is `OK` or `OUT_OF_MEMORY`. After `OK`, `out` has a table with the name of each
    // commit, the first one if `names` has several. After an error, `out` is unchanged.
    ensures { ByCode result (IsTable (names_given names.now) out.new.value) ⊥
        ((result ≡ OUT_OF_MEMORY) × (out.new ≡ out.old)) }
{
    let Ok(names) = copied_names(alloc, Seed::new(seed), names) else {
        return OUT_OF_MEMORY;
    };
    let stock = Stock {
        names,
        ids: Vec::new(alloc),
    };
    let Ok(place) = StockPlace::holding(alloc, stock) else {
        return OUT_OF_MEMORY;
    };
    *out = place;
    OK
}

/// Describes `commit` by a table of names.
///
/// History and table are unchanged, and the history keeps all that it holds.
#[unsafe(no_mangle)]
pub extern "C" fn gix_history_describe_by(
    alloc: Global,
    history: &mut Handle,
    commit: &[u8; 20],
    names: &mut NamesHandle,
    how: &How,
    out: &mut [u8],
    len: &mut usize,
    depth: &mut u32,
) -> i32
    ghost beyond: { Commits }
    // If the table gives each commit its name in `given`: after `OK`, `len` and `depth` are those
    // of a text that describes the commit in the whole history by `given`. It replaces the front of
    // `out`, as far as it fits. After `NONE`, no name is found, and `fallback_to_id` is not set.
    ensures described { (given : Given) → HasNames names.old given → ByCode result
        (HasDescription (whole_of history.old beyond) (id_of commit.now) given how.now
        out.old out.new len.new depth.new)
        (IsDescribedSo (whole_of history.old beyond) (id_of commit.now) given how.now None)
        ⊤ }

    // After `NONE` or an error, `out`, `len` and `depth` are unchanged.
    ensures unwritten { ByCode result ⊤
        ((out.new ≡ out.old) × (len.new ≡ len.old) × (depth.new ≡ depth.old))
        ((out.new ≡ out.old) × (len.new ≡ len.old) × (depth.new ≡ depth.old)) }

    // The code is `NO_COMMIT` only if the whole history does not have the commit.
    ensures no_commit { result ≡ NO_COMMIT → ¬ Has (whole_of history.old beyond) (id_of commit.now) }

    // The code is `TOO_MANY` only if the commit reaches 2^32 commits or more in the whole history.
    // If `first_parent` is set, these are the ones that it reaches along first parents.
    ensures too_many { result ≡ TOO_MANY → AtLeast (2 ^ 32)
        (IsAncestor (followed how.now.first_parent (whole_of history.old beyond)) (id_of commit.now)) }

    // If the table gives each commit its name in `given`: the code is `NO_COMMIT` or `TOO_MANY`
    // only if the commit has no name, `given` has names, and `max_candidates` is not 0.
    ensures walk { (given : Given) → HasNames names.old given
        → (result ≡ NO_COMMIT) ⊎ (result ≡ TOO_MANY) → NeedsWalkSo (id_of commit.now) given how.now }

    // The code is `NO_HOW` only if the size of `how` is not 32.
    ensures no_how { result ≡ NO_HOW → how.now.size ≢ 32 }

    // The code is `WANTS` only if the history is partial. The wanted commit is then one that was
    // not added.
    ensures wants { result ≡ WANTS → IsTrue (is_partial history.old.value.extent)
        × Wants history.old.value history.new.value }

    // The code is `OK`, `NONE`, `NO_HOW`, `NO_COMMIT`, `TOO_MANY`, `WANTS` or `OUT_OF_MEMORY`.
    ensures refused { ByCode result ⊤ ⊤ ((result ≡ NO_HOW) ⊎ ((result ≡ NO_COMMIT)
        ⊎ ((result ≡ TOO_MANY) ⊎ ((result ≡ WANTS) ⊎ (result ≡ OUT_OF_MEMORY))))) }

    // Also after an error, the table of names is unchanged.
    ensures names { names.new.value ≡ names.old.value }

    // After any code other than `WANTS`, the history is unchanged, with all that its graph holds.
    ensures kept { result ≢ WANTS → history.new.value ≡ history.old.value }

    // Also after an error, the graph is unchanged, with its commits and all that it holds.
    ensures graph { history.new.value.graph ≡ history.old.value.graph }

    // Also after an error, the list of noted parents is unchanged.
    ensures named { history.new.value.named ≡ history.old.value.named }

    // Also after an error, ref names and the ids of abbreviated object names are unchanged.
    ensures table { history.new.value.table ≡ history.old.value.table }
{
    let names = &names.get_mut().names;
    let history = history.get_mut();
    describe_by::<Brand>(alloc, history, commit, names, how, out, len, depth)
}
