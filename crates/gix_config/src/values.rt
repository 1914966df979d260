//! Looks up the values of settings in a list.

ghost use Rattle.std.specs.Prelude.{◌≡◌, ◌++◌, ◌∷◌, [], IfOk, cond, nat_eq, Some};
ghost use Rattle.std.specs.Option.{option_map};
ghost use Rattle.std.specs.Cmp.Lexicographic.{pointwise};
ghost use Rattle.gix_config.specs.Names.{name_of};
ghost use Rattle.gix_config.specs.Values.{value_in, values_of, last_value as last_of, shown, all_shown};

use crate::{Entry, is_name};
use std::alloc::{AllocError, Allocator};

/// Returns the value of a setting; `None` if there is no `=`.
pub fn value_of<A: Allocator>(entry: &Entry<A>) -> Option<&[u8]>
    // The answer is the value of the setting. `None` exactly if the setting has no value.
    ensures { shown result ≡ value_in entry.now }
{
    match &entry.value {
        Some(value) => Some(value.as_slice()),
        None => None,
    }
}

/// Returns the value of a setting if it has this name, and else the value found before it.
fn value_after<'a, A: Allocator>(
    entry: &'a Entry<A>,
    section: &[u8],
    subsection: Option<&[u8]>,
    key: &[u8],
    found: Option<Option<&'a [u8]>>,
) -> Option<Option<&'a [u8]>>
    ensures { option_map shown result
        ≡ cond (pointwise nat_eq entry.now.name.items
        (name_of section.now (shown subsection.entry) key.now))
        (Some (value_in entry.now)) (option_map shown found.entry) }
{
    if is_name(&entry.name, section, subsection, key) {
        Some(value_of(entry))
    } else {
        found
    }
}

/// Returns the last value of the settings with this name, if there is one.
///
/// The inner value is `None` if that setting has no `=`.
pub fn last_value<'a, A: Allocator>(
    list: &'a [Entry<A>],
    section: &[u8],
    subsection: Option<&[u8]>,
    key: &[u8],
) -> Option<Option<&'a [u8]>>
    // The answer is the last value of the settings of the list with this name. `None` exactly if no
    // setting has this name.
    ensures { option_map shown result
        ≡ last_of (name_of section.now (shown subsection.entry) key.now) list.now }
{
    let mut found = None;
    let mut rest = list;
    'settings: while let Some((entry, after)) = rest.split_first() {
        found = value_after(entry, section, subsection, key, found);
        rest = after;
    }
    found
}

/// Adds the value of a setting to a list if it has this name.
fn add_value<'a, A: Allocator, B: Allocator>(
    entry: &'a Entry<B>,
    section: &[u8],
    subsection: Option<&[u8]>,
    key: &[u8],
    values: &mut Vec<Option<&'a [u8]>, A>,
) -> Result<(), AllocError>
    ensures { IfOk result (λ u. all_shown values.new.items
        ≡ all_shown values.old.items ++ values_of
        (name_of section.now (shown subsection.entry) key.now) (entry.now ∷ [])) }
{
    if is_name(&entry.name, section, subsection, key) {
        values.push(value_of(entry))?;
    }
    Ok(())
}

/// Returns the values of all settings with this name, in their order.
pub fn all_values<'a, A: Allocator, B: Allocator>(
    alloc: A,
    list: &'a [Entry<B>],
    section: &[u8],
    subsection: Option<&[u8]>,
    key: &[u8],
) -> Result<Vec<Option<&'a [u8]>, A>, AllocError>
    // The answer has the values of all settings of the list with this name, in their order.
    ensures { IfOk result (λ values. all_shown values.items
        ≡ values_of (name_of section.now (shown subsection.entry) key.now) list.now) }
{
    let mut values = Vec::new(alloc);
    let mut rest = list;
    'settings: while let Some((entry, after)) = rest.split_first() {
        add_value(entry, section, subsection, key, &mut values)?;
        rest = after;
    }
    Ok(values)
}
