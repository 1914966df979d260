//! Tests for texts of a given shape, and for words.

ghost use Rattle.gix_date.specs.Shape.{fits, has_shape, is_word};
ghost use Rattle.std.specs.Prelude.{◌≡◌, length, IsTrue};
ghost use Rattle.std.specs.Str.{is_utf8};

/// Tests whether bytes are UTF-8.
pub fn is_text(bytes: &[u8]) -> bool
    ensures { result ≡ is_utf8 bytes.now }
{
    match str::from_utf8(bytes) {
        Ok(_) => true,
        Err(_) => false,
    }
}

/// Tests whether a mark of a shape stands for a byte.
fn is_marked(mark: u8, byte: u8) -> bool
    ensures { result ≡ fits mark byte }
{
    match mark {
        b'0' => byte.is_ascii_digit(),
        b'+' => byte == b'+' || byte == b'-',
        _ => byte == mark,
    }
}

/// Tests whether a text has a shape: `0` stands for any digit, `+` for either sign, and any other
/// byte for itself.
#[tactic(auto, unfolding(crate::specs::Shape::has_shape))]
pub fn is_shaped(text: &[u8], shape: &[u8]) -> bool
    ensures value { result ≡ has_shape shape.now text.now }
    ensures len { IsTrue result → length text.now ≡ length shape.now }
{
    let (mut marks, mut rest) = (shape, text);
    while let [mark, more @ ..] = marks {
        let [byte, after @ ..] = rest else {
            return false;
        };
        if !is_marked(*mark, *byte) {
            return false;
        }
        marks = more;
        rest = after;
    }
    rest.is_empty()
}

/// Tests whether a text is a word, in any ASCII letter case.
pub fn is_named(text: &[u8], word: &[u8]) -> bool
    ensures { result ≡ is_word word.now text.now }
{
    text.eq_ignore_ascii_case(word)
}
