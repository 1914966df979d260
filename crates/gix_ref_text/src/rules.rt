//! Reads short names by git's six rules (gitrevisions, `<refname>`).

ghost use Rattle.std.specs.Prelude.{◌≡◌, ◌++◌, IfOk, map};
ghost use Rattle.std.specs.Option.{option_map};
ghost use Rattle.gix_ref_text.specs.Found.{led_to};
ghost use Rattle.gix_ref_text.specs.Short.{full_names, wins, meant};

use crate::leads::{Led, Reference};
use std::alloc::{AllocError, Allocator, Global};

/// The reference that a short name stands for.
#[derive(Drop)]
pub struct Named<A: Allocator = Global> {
    /// The full name by the rule. It may be that of a symbolic reference.
    pub name: Vec<u8, A>,
    /// The reference to which it leads.
    pub reference: Reference<A>,
    /// Whether a further rule leads to an id, too.
    pub is_ambiguous: bool,
}

/// Returns three texts one behind the other.
fn joined<A: Allocator>(
    alloc: A,
    front: &[u8],
    middle: &[u8],
    end: &[u8],
) -> Result<Vec<u8, A>, AllocError>
    ensures { IfOk result (λ name. name.items ≡ front.now ++ middle.now ++ end.now) }
{
    let mut name = Vec::new(alloc);
    name.extend_from_slice(front)?;
    name.extend_from_slice(middle)?;
    name.extend_from_slice(end)?;
    Ok(name)
}

/// Returns the full names of a short one by the six rules, the one that wins first.
pub fn full_names<A: Allocator + Copy>(
    alloc: A,
    short: &[u8],
) -> Result<Vec<Vec<u8, A>, A>, AllocError>
    // The answer has the full names of the short name by git's six rules, in the order of the
    // rules.
    ensures { IfOk result (λ names. map (λ n. n.items) names.items ≡ full_names short.now) }
{
    let mut names = Vec::new(alloc);
    names.push(joined(alloc, b"", short, b"")?)?;
    names.push(joined(alloc, b"refs/", short, b"")?)?;
    names.push(joined(alloc, b"refs/tags/", short, b"")?)?;
    names.push(joined(alloc, b"refs/heads/", short, b"")?)?;
    names.push(joined(alloc, b"refs/remotes/", short, b"")?)?;
    names.push(joined(alloc, b"refs/remotes/", short, b"/HEAD")?)?;
    Ok(names)
}

/// Returns the reference that a short name stands for by the rule with this full name, or else by
/// the further rules.
///
/// `led` says where the full name leads, and `others` what the further rules found. The rule wins if
/// its full name leads to an id.
pub fn winner<A: Allocator>(
    name: Vec<u8, A>,
    led: Led<A>,
    others: Option<Named<A>>,
) -> Option<Named<A>>
    // If `led` ends at an id: the name with where it leads, ambiguous exactly if `others` is not
    // `None`. Otherwise the answer is `others`.
    ensures { option_map meant result ≡ wins (led_to led) name.items (option_map meant others) }
{
    match led {
        Led::Ends(reference) => Some(Named {
            name,
            reference,
            is_ambiguous: others.is_some(),
        }),
        _ => others,
    }
}
