//! Reads the numbers and booleans of settings (git-config, "Values").

/// Returns the factor of a unit: `k`, `m` or `g`, or 1 if there is none.
fn unit(text: &[u8]) -> Option<i64> {
    match text {
        [] => Some(1),
        [b'k' | b'K'] => Some(1 << 10),
        [b'm' | b'M'] => Some(1 << 20),
        [b'g' | b'G'] => Some(1 << 30),
        _ => None,
    }
}

/// Returns the digit that a byte is in a base.
fn digit(byte: u8, base: u32) -> Option<i64> {
    match char::from(byte).to_digit(16) {
        Some(value) if value < base => Some(i64::from(value)),
        _ => None,
    }
}

/// Splits a base from the digits that follow: `0x` is 16, `0` is 8, all else 10.
fn base_of(text: &[u8]) -> (u32, &[u8]) {
    match text {
        [b'0', b'x' | b'X', first, ..] if first.is_ascii_hexdigit() => {
            (16, text.get(2..).unwrap_or(text))
        }
        [b'0', ..] => (8, text),
        _ => (10, text),
    }
}

/// Reads digits, and returns their number, negated if `negative`, and what follows them.
///
/// Returns `None` if there is no digit, or the number does not fit.
fn digits(text: &[u8], base: u32, negative: bool) -> Option<(i64, &[u8])> {
    let mut rest = text;
    let mut value = 0i64;
    for _ in 0..text.len() {
        let Some((byte, after)) = rest.split_first() else {
            break;
        };
        let Some(next) = digit(*byte, base) else {
            break;
        };
        value = with_digit(value, base, next, negative)?;
        rest = after;
    }
    if rest.len() == text.len() {
        return None;
    }
    Some((value, rest))
}

/// Adds a digit to a number, or takes it away if the number is negative.
fn with_digit(value: i64, base: u32, next: i64, negative: bool) -> Option<i64> {
    let shifted = value.checked_mul(i64::from(base))?;
    if negative {
        shifted.checked_sub(next)
    } else {
        shifted.checked_add(next)
    }
}

/// Tells whether a byte is white space in C: a space, or one from tab to carriage return.
fn is_space(byte: u8) -> bool {
    byte == b' ' || (b'\t'..=b'\r').contains(&byte)
}

/// Returns a text without the white space at its front.
fn after_spaces(text: &[u8]) -> &[u8] {
    match text.iter().position(|b| !is_space(*b)) {
        Some(start) => text.get(start..).unwrap_or(&[]),
        None => &[],
    }
}

/// Splits the white space and the sign from a number.
fn signed(text: &[u8]) -> (bool, &[u8]) {
    match after_spaces(text) {
        [b'-', rest @ ..] => (true, rest),
        [b'+', rest @ ..] => (false, rest),
        rest => (false, rest),
    }
}

/// Reads a number as git does: decimal, octal or hexadecimal, with a unit `k`, `m` or `g`.
///
/// Returns `None` if the text is not a number, or if it does not fit.
pub fn number(text: &[u8]) -> Option<i64> {
    let (negative, rest) = signed(text);
    let (base, rest) = base_of(rest);
    let (value, rest) = digits(rest, base, negative)?;
    let number = value.checked_mul(unit(rest)?)?;
    (number != i64::MIN).then_some(number)
}

/// Reads the words for a boolean; `None` if the text is none of them.
fn boolean_word(text: &[u8]) -> Option<bool> {
    if text.is_empty() || is_word(text, b"false") || is_word(text, b"no") || is_word(text, b"off") {
        return Some(false);
    }
    if is_word(text, b"true") || is_word(text, b"yes") || is_word(text, b"on") {
        return Some(true);
    }
    None
}

/// Tells whether a text is a word, in any letter case.
pub fn is_word(text: &[u8], word: &[u8]) -> bool {
    text.eq_ignore_ascii_case(word)
}

/// Reads a boolean as git does: a word, or a number, which is true unless it is 0.
///
/// Returns `None` if the text is neither. A number has to fit 32 bits.
pub fn boolean(text: &[u8]) -> Option<bool> {
    match boolean_word(text) {
        Some(value) => Some(value),
        None => match number(text) {
            Some(value) if value.unsigned_abs() < 1 << 31 => Some(value != 0),
            _ => None,
        },
    }
}

/// Returns the number in a text of decimal digits; `None` if it is another text or does not fit.
pub fn decimal(text: &[u8]) -> Option<u32> {
    if text.is_empty() {
        return None;
    }
    let mut number = 0u32;
    for byte in text {
        let digit = char::from(*byte).to_digit(10)?;
        number = number.checked_mul(10)?.checked_add(digit)?;
    }
    Some(number)
}
