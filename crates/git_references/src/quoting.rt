//! Quotes texts as strings of a language (git-for-each-ref, `--shell`, `--perl`, `--python`,
//! `--tcl`).

use git_session::stop::{Stop, not_supported};
use std::alloc::{AllocError, Global};

/// Names a language.
#[derive(Clone, Copy, PartialEq, Eq)]
pub enum Language {
    Shell,
    Perl,
    Python,
    Tcl,
}

/// Says how a language writes a string.
#[derive(Clone, Copy)]
struct Rules {
    quote: u8,
    /// The bytes that are put between `before` and `after`.
    special: &'static [u8],
    before: &'static [u8],
    after: &'static [u8],
    /// The bytes that are written as a backslash and a letter, and their letters.
    named: &'static [u8],
    letters: &'static [u8],
}

/// Returns how a language writes a string.
fn rules_of(language: Language) -> Rules {
    match language {
        Language::Shell => Rules {
            quote: b'\'',
            special: b"'!",
            before: b"'\\",
            after: b"'",
            named: b"",
            letters: b"",
        },
        Language::Perl => Rules {
            quote: b'\'',
            special: b"'\\",
            before: b"\\",
            after: b"",
            named: b"",
            letters: b"",
        },
        Language::Python => Rules {
            quote: b'\'',
            special: b"'\\",
            before: b"\\",
            after: b"",
            named: b"\n",
            letters: b"n",
        },
        Language::Tcl => Rules {
            quote: b'"',
            special: b"[]{}$\\\"",
            before: b"\\",
            after: b"",
            named: b"\x0c\r\n\t\x0b",
            letters: b"frntv",
        },
    }
}

/// Adds a byte of a string.
fn add_byte(rules: &Rules, byte: u8, to: &mut Vec<u8>) -> Result<(), AllocError> {
    let letter = match rules.named.iter().position(|one| *one == byte) {
        Some(place) => rules.letters.get(place).copied(),
        None => None,
    };
    if let Some(letter) = letter {
        to.push(b'\\')?;
        to.push(letter)?;
        return Ok(());
    }
    let is_special = rules.special.contains(&byte);
    if is_special {
        to.extend_from_slice(rules.before)?;
    }
    to.push(byte)?;
    if is_special {
        to.extend_from_slice(rules.after)?;
    }
    Ok(())
}

/// Adds a text as a string of a language.
///
/// # Errors
///
/// `NotSupported` if the text has a zero byte.
fn add_string(
    alloc: Global,
    language: Language,
    text: &[u8],
    to: &mut Vec<u8>,
) -> Result<(), Stop> {
    if text.contains(&0) {
        return Err(not_supported(alloc, &[b"a string with a zero byte is not supported"]));
    }
    let rules = rules_of(language);
    to.push(rules.quote)?;
    for byte in text {
        add_byte(&rules, *byte, to)?;
    }
    to.push(rules.quote)?;
    Ok(())
}

/// Quotes what an output has from a place on.
///
/// # Errors
///
/// `NotSupported` if it has a zero byte.
pub(crate) fn quote_from(
    alloc: Global,
    language: Language,
    output: &mut Vec<u8>,
    begin: usize,
) -> Result<(), Stop> {
    let text = output.get(begin..).unwrap_or(&[]).to_vec(alloc)?;
    output.truncate(begin);
    add_string(alloc, language, &text, output)
}
