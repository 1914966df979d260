//! Reads decimal numbers.

ghost use Rattle.gix_date.specs.Numerals.{is_number, number_of, is_integer, integer_of};
ghost use Rattle.std.specs.Int.{w64};
ghost use Rattle.std.specs.Prelude.{◌≡◌, ◌<◌, ◌^◌, ◌+◌, ◌-◌, ◌*◌, SomeIff, FitsSigned};

/// Tests whether a text is one or more digits.
#[tactic(auto, unfolding(crate::specs::Numerals::is_number))]
pub fn is_digits(text: &[u8]) -> bool
    ensures { result ≡ is_number text.now }
{
    for byte in text {
        if !byte.is_ascii_digit() {
            return false;
        }
    }
    !text.is_empty()
}

/// Appends a digit to a number, if 64 bits hold the result.
fn with_digit(number: u64, byte: u8) -> Option<u64>
    ensures { SomeIff result (number * 10 + (byte - 48) < 2 ^ 64) (number * 10 + (byte - 48)) }
{
    let digit = u64::from(byte.saturating_sub(b'0'));
    number.checked_mul(10)?.checked_add(digit)
}

/// Reads a number, if 64 bits hold it.
#[tactic(auto, unfolding(crate::specs::Numerals::number_after))]
pub fn number(digits: &[u8]) -> Option<u64>
    ensures { SomeIff result (number_of digits.now < 2 ^ 64) (number_of digits.now) }
{
    let mut number = 0u64;
    let mut rest = digits;
    while let [byte, after @ ..] = rest {
        number = with_digit(number, *byte)?;
        rest = after;
    }
    Some(number)
}

/// Tests whether a text is digits after an optional minus.
pub fn is_signed_digits(text: &[u8]) -> bool
    ensures { result ≡ is_integer text.now }
{
    match text {
        [b'-', digits @ ..] => is_digits(digits),
        _ => is_digits(text),
    }
}

/// Reads an integer, digits after an optional minus, if an `i64` holds it.
pub fn integer(text: &[u8]) -> Option<i64>
    ensures { SomeIff result (FitsSigned w64 (integer_of text.now)) (integer_of text.now) }
{
    match text {
        [b'-', digits @ ..] => 0i64.checked_sub_unsigned(number(digits)?),
        _ => 0i64.checked_add_unsigned(number(text)?),
    }
}
