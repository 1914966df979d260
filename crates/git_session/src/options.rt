//! Reads options and arguments (`parse_options`), and says which options a command has.

use crate::stop::{Stop, not_supported};
use parse_options::{Choice, Error, Exact, Item, Reader, Takes, Value};
use std::alloc::{AllocError, Global};

/// Returns the next option or argument; `None` after the last.
///
/// # Errors
///
/// `NotSupported` for an option that is not described, and for a value that is missing or that the
/// option cannot have.
pub fn next_item<'w, K: Copy + 'static>(
    alloc: Global,
    reader: &mut Reader<'w, K>,
) -> Result<Option<Item<'w, K>>, Stop> {
    match reader.read() {
        Ok(item) => Ok(item),
        Err(Error::Unread(_)) => Err(unsupported(alloc, reader.last_word())),
        Err(Error::BadValue(_)) => {
            Err(not_supported(
                alloc,
                &[
                    b"the option '",
                    reader.last_word(),
                    b"' lacks its value, or has one that is not supported",
                ],
            ))
        }
    }
}

/// Returns the end for an option that is not supported.
pub fn unsupported(alloc: Global, word: &[u8]) -> Stop {
    not_supported(alloc, &[b"the option '", word, b"' is not supported"])
}

/// Adds parts to a text.
fn add(text: &mut Vec<u8>, parts: &[&[u8]]) -> Result<(), AllocError> {
    for part in parts {
        text.extend_from_slice(part)?;
    }
    Ok(())
}

/// Adds a line about an option: its forms, and whether it has a value.
pub fn add_choice<K>(
    text: &mut Vec<u8>,
    choice: &Choice<K>,
    has_no: bool,
) -> Result<(), AllocError> {
    add(text, &[b"    "])?;
    if choice.short != 0 {
        add(text, &[b"-", &[choice.short], b", "])?;
    }
    let no = if has_no { b"[no-]".as_slice() } else { b"" };
    let value = match choice.value {
        Value::Never => b"".as_slice(),
        Value::Joined => b"[=VALUE]",
        Value::Always => b" VALUE",
        Value::UnlessLast => b" [VALUE]",
    };
    add(text, &[b"--", no, choice.long.as_bytes(), value, b"\n"])
}

/// Adds a line about an option that is read by its exact name.
pub fn add_exact<K>(text: &mut Vec<u8>, option: &Exact<K>) -> Result<(), AllocError> {
    let Exact(name, takes, _) = option;
    let value = match takes {
        Takes::Nothing => b"".as_slice(),
        Takes::Joined => b"[=VALUE]",
        Takes::Text => b"=VALUE",
        Takes::Word | Takes::NextWord | Takes::Glued => b" VALUE",
    };
    add(text, &[b"    ", name.as_bytes(), value, b"\n"])
}
