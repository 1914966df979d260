//! Reads numbers in a text.

ghost use Rattle.std.specs.Prelude.{◌≡◌, IfSome, option_map};
ghost use Rattle.gix_spec.specs.Number.{number_of, behind_minus, plain_by, signed_of};
ghost use Rattle.gix_spec.specs.Found.{signed_found, FitsIsize};

/// The least `isize`, without its minus sign.
const LEAST_ISIZE: usize = 1 << 63;

/// Returns the number that decimal digits say, if it fits a `usize`. A plus may precede them.
pub(crate) fn number(text: &[u8]) -> Option<usize>
    ensures { result ≡ number_of text.now }
{
    let Ok(digits) = str::from_utf8(text) else {
        return None;
    };
    match digits.parse::<usize>() {
        Ok(number) => Some(number),
        Err(_) => None,
    }
}

/// A number with a minus sign or without one, by its digits.
#[derive(Clone, Copy)]
pub(crate) enum Signed {
    Minus(usize),
    Plain(usize),
}

/// Returns the number after a minus sign, if an `isize` holds it.
fn behind_minus(text: &[u8]) -> Option<Signed>
    ensures value { option_map signed_found result ≡ behind_minus text.now }
    ensures within { IfSome result FitsIsize }
{
    if let [b'+', ..] = text {
        return None;
    }
    match number(text) {
        Some(number) if number <= LEAST_ISIZE => Some(Signed::Minus(number)),
        _ => None,
    }
}

/// Returns a number without a minus sign, if an `isize` holds it.
fn plain(number: Option<usize>) -> Option<Signed>
    ensures value { option_map signed_found result ≡ plain_by number }
    ensures within { IfSome result FitsIsize }
{
    match number {
        Some(number) if number < LEAST_ISIZE => Some(Signed::Plain(number)),
        _ => None,
    }
}

/// Returns the number that decimal digits say, if it fits an `isize`. A sign may precede them.
#[tactic(auto, unfolding(crate::specs::Number::signed_of))]
pub(crate) fn signed_number(text: &[u8]) -> Option<Signed>
    ensures value { option_map signed_found result ≡ signed_of text.now }
    ensures within { IfSome result FitsIsize }
{
    match text {
        [] => None,
        [b'-', digits @ ..] => behind_minus(digits),
        _ => plain(number(text)),
    }
}
