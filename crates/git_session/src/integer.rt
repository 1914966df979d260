//! Reads numbers, as git's option parser and the C library do.

/// Returns the number of a text: decimal digits, after spaces and a sign; `None` if there is more.
///
/// A number that does not fit 32 bits is none either: git wraps it.
pub fn integer(text: &[u8]) -> Option<i32> {
    let text = text.trim_ascii_start();
    let digits = text.strip_prefix(b"+").unwrap_or(text);
    if digits.starts_with(b"-") && digits.len() < text.len() {
        return None;
    }
    match str::from_utf8(digits) {
        Ok(digits) => digits.parse::<i32>().ok(),
        Err(_) => None,
    }
}

/// Returns the number of 1 to 18 digits; `None` for another text.
pub fn whole(digits: &[u8]) -> Option<i64> {
    if digits.len() > 18 || !digits.iter().all(|b| b.is_ascii_digit()) {
        return None;
    }
    match str::from_utf8(digits) {
        Ok(digits) => digits.parse::<i64>().ok(),
        Err(_) => None,
    }
}

/// Returns the number with which a text begins after white space, as C's `atoi` does: 0 if there is
/// none. A number that does not fit 32 bits is `None`: git wraps it.
pub fn leading(text: &[u8]) -> Option<i32> {
    let is_space = |b: &u8| b.is_ascii_whitespace() || *b == 11;
    let begin = text.iter().position(|b| !is_space(b)).unwrap_or(text.len());
    let text = text.get(begin..).unwrap_or(&[]);
    let (is_negative, text) = match text.split_first() {
        Some((b'-', rest)) => (true, rest),
        Some((b'+', rest)) => (false, rest),
        _ => (false, text),
    };
    let count = text.iter().take_while(|b| b.is_ascii_digit()).count();
    if count == 0 {
        return Some(0);
    }
    let number = i32::try_from(whole(text.get(..count)?)?).ok()?;
    if is_negative {
        number.checked_neg()
    } else {
        Some(number)
    }
}
