//! Reads the settings of `git -c`, which come by the environment.

use crate::environment::{Environment, Pair, Variable};
use crate::error::{DiscoverError, Reason, about};
use crate::head::after_blanks;
use gix_config::{Entry, is_blank, key_name};
use memchr::memchr;
use std::alloc::{AllocError, Allocator};

/// Returns the setting with a key and a value.
fn make_entry<A: Allocator + Copy>(
    alloc: A,
    key: &[u8],
    value: Option<&[u8]>,
) -> Result<Entry<A>, DiscoverError<A>> {
    let Some(name) = key_name(alloc, key)? else {
        return Err(about(alloc, Reason::BadConfigKey, key));
    };
    let value = match value {
        Some(value) => Some(value.to_vec(alloc)?),
        None => None,
    };
    Ok(Entry { name, value })
}

/// Adds the setting of a pair of variables with this number.
fn add_pair<A: Allocator + Copy>(
    alloc: A,
    pair: &Pair<A>,
    number: u64,
    list: &mut Vec<Entry<A>, A>,
) -> Result<(), DiscoverError<A>> {
    match (&pair.key, &pair.value) {
        (None, _) => Err(DiscoverError::from(Reason::MissingConfigKey(number))),
        (_, None) => Err(DiscoverError::from(Reason::MissingConfigValue(number))),
        (Some(key), Some(value)) => {
            list.push(make_entry(alloc, key, Some(value))?)?;
            Ok(())
        }
    }
}

/// Reads a text in single quotes, as a shell does, and adds it. Returns what follows it.
///
/// Outside of the quotes there may be `\'` and `\!`, if another quote follows.
fn unquoted<'a, A: Allocator>(
    text: &'a [u8],
    bytes: &mut Vec<u8, A>,
) -> Result<Option<&'a [u8]>, AllocError> {
    let Some(mut rest) = text.strip_prefix(b"'") else {
        return Ok(None);
    };
    for _ in 0..text.len() {
        match rest {
            [] => break,
            [b'\'', b'\\', byte, b'\'', after @ ..] if *byte == b'\'' || *byte == b'!' => {
                bytes.push(*byte)?;
                rest = after;
            }
            [b'\'', after @ ..] => return Ok(Some(after)),
            [byte, after @ ..] => {
                bytes.push(*byte)?;
                rest = after;
            }
        }
    }
    Ok(None)
}

/// Tells whether a text is empty or begins with a blank.
fn is_end(text: &[u8]) -> bool {
    match text.first() {
        Some(byte) => is_blank(*byte),
        None => true,
    }
}

/// Adds the setting of an older `'key=value'`.
fn add_older<A: Allocator + Copy>(
    alloc: A,
    text: &[u8],
    list: &mut Vec<Entry<A>, A>,
) -> Result<(), DiscoverError<A>> {
    let (key, value) = match memchr(b'=', text) {
        Some(at) => {
            let (key, rest) = text.split_at(at.min(text.len()));
            (key, rest.strip_prefix(b"="))
        }
        None => (text, None),
    };
    list.push(make_entry(alloc, key.trim_ascii(), value)?)?;
    Ok(())
}

/// Adds the setting of a key before `=`. Returns what follows its value; `None` if malformed.
fn add_newer<'a, A: Allocator + Copy>(
    alloc: A,
    key: &[u8],
    text: &'a [u8],
    list: &mut Vec<Entry<A>, A>,
) -> Result<Option<&'a [u8]>, DiscoverError<A>> {
    if is_end(text) {
        list.push(make_entry(alloc, key, None)?)?;
        return Ok(Some(text));
    }
    let mut value = Vec::new(alloc);
    match unquoted(text, &mut value)? {
        Some(rest) if is_end(rest) => {
            list.push(make_entry(alloc, key, Some(&value))?)?;
            Ok(Some(rest))
        }
        _ => Ok(None),
    }
}

/// Adds the first setting of `GIT_CONFIG_PARAMETERS`. Returns what follows; `None` if malformed.
fn add_parameter<'a, A: Allocator + Copy>(
    alloc: A,
    text: &'a [u8],
    list: &mut Vec<Entry<A>, A>,
) -> Result<Option<&'a [u8]>, DiscoverError<A>> {
    let mut key = Vec::new(alloc);
    match unquoted(text, &mut key)? {
        Some([b'=', rest @ ..]) => add_newer(alloc, &key, rest, list),
        Some(rest) if is_end(rest) => {
            add_older(alloc, &key, list)?;
            Ok(Some(rest))
        }
        _ => Ok(None),
    }
}

/// Adds the settings of `GIT_CONFIG_PARAMETERS`.
fn add_parameters<A: Allocator + Copy>(
    alloc: A,
    text: &[u8],
    list: &mut Vec<Entry<A>, A>,
) -> Result<(), DiscoverError<A>> {
    let mut rest = text;
    for _ in 0..text.len() {
        if rest.is_empty() {
            break;
        }
        match add_parameter(alloc, rest, list)? {
            Some(after) => rest = after_blanks(after),
            None => return Err(DiscoverError::from(Reason::BadConfigParameters)),
        }
    }
    Ok(())
}

/// Adds the settings of `GIT_CONFIG_KEY_n` and `GIT_CONFIG_VALUE_n`.
fn add_pairs<A: Allocator + Copy>(
    alloc: A,
    environment: &Environment<A>,
    list: &mut Vec<Entry<A>, A>,
) -> Result<(), DiscoverError<A>> {
    if environment.get(Variable::ConfigCount).is_some() && environment.config_count().is_none() {
        return Err(DiscoverError::from(Reason::BadConfigCount));
    }
    for (number, pair) in environment.pairs().iter().enumerate() {
        add_pair(alloc, pair, number as u64, list)?;
    }
    Ok(())
}

/// Returns the settings that the environment has, in git's order.
pub(crate) fn entries<A: Allocator + Copy>(
    alloc: A,
    environment: &Environment<A>,
) -> Result<Vec<Entry<A>, A>, DiscoverError<A>> {
    let mut list = Vec::new(alloc);
    add_pairs(alloc, environment, &mut list)?;
    if let Some(text) = environment.get(Variable::ConfigParameters) {
        add_parameters(alloc, text, &mut list)?;
    }
    Ok(list)
}
