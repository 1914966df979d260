//! Reads numbers of a variable length (gitformat-pack, "Size encoding" and "offset encoding").

ghost use Rattle.std.specs.Prelude.{◌≡◌, ◌+◌, ◌*◌, ◌%◌, ◌^◌, ◌<◌, ◌≤◌, length, take, MatchOption, IfSome};
ghost use Rattle.gix_pack.specs.PackNumbers.{going_on, HasNumber, number_length, number_bytes, low_first, high_after, high_first};

/// Counts the bytes before the first one whose highest bit is clear.
#[tactic(auto, unfolding(crate::specs::PackNumbers::going_on))]
fn going_on(text: &[u8]) -> usize
    ensures { result ≡ going_on text.now }
{
    for (place, byte) in text.iter().enumerate() {
        if *byte < 128 {
            return place;
        }
    }
    text.len()
}

/// Returns the length of the number at the beginning of a text.
pub(crate) fn number_length(text: &[u8]) -> Option<usize>
    ensures number { MatchOption result (¬ HasNumber text.now) (λ n. HasNumber text.now × (n ≡ number_length text.now)) }
    ensures within { IfSome result (λ n. n ≤ length text.now) }
    ensures short { IfSome result (λ n. n ≤ 9) }
{
    let count = going_on(text);
    if count < text.len() && count < 9 {
        Some(count + 1)
    } else {
        None
    }
}

/// Reads a number of at most 9 bytes, the least significant byte first.
#[tactic(auto, unfolding(crate::specs::PackNumbers::low_first))]
pub(crate) fn low_first(bytes: &[u8]) -> u64
    requires { length bytes.now ≤ 9 }
    ensures value { result ≡ low_first bytes.now }
    ensures bound { result < 2 ^ 63 }
    ensures small { length bytes.now ≤ 8 → result < 2 ^ 56 }
{
    let mut value = 0;
    for place in 0..bytes.len() {
        value = value * 128 + u64::from(bytes[bytes.len() - 1 - place] % 128);
    }
    value
}

/// Reads on in a number, the most significant byte first.
#[tactic(auto, unfolding(crate::specs::PackNumbers::high_after))]
fn high_after(first: u64, rest: &[u8]) -> u64
    requires first { first < 128 }
    requires few { length rest.now ≤ 8 }
    ensures { result ≡ high_after first rest.now }
{
    let mut value = first;
    for byte in rest {
        value = (value + 1) * 128 + u64::from(*byte % 128);
    }
    value
}

/// Reads the distance that up to 9 bytes say, the most significant byte first.
fn high_first(bytes: &[u8]) -> u64
    requires some { 1 ≤ length bytes.now }
    requires few { length bytes.now ≤ 9 }
    ensures { result ≡ high_first bytes.now }
{
    let (_, rest) = bytes.split_at(1);
    high_after(u64::from(bytes[0] % 128), rest)
}

/// Reads the distance at the beginning of a text, the most significant byte first, and returns it with
/// the number of its bytes.
///
/// Returns `None` if the text does not begin with a number of at most 9 bytes.
pub fn distance(text: &[u8]) -> Option<(u64, usize)>
    // The answer is the distance with which the text begins, and its length in bytes. It is `None`
    // exactly if the text does not begin with a number of at most 9 bytes.
    ensures number { MatchOption result (¬ HasNumber text.now) (λ p. HasNumber text.now
        × (p.0 ≡ high_first (number_bytes text.now)) × (p.1 ≡ number_length text.now)) }

    // The length is at most that of the text.
    ensures within { IfSome result (λ p. p.1 ≤ length text.now) }

    // The length is at most 9.
    ensures short { IfSome result (λ p. p.1 ≤ 9) }
{
    let n = number_length(text)?;
    Some((high_first(&text[..n]), n))
}
