//! Finds the end of the name at the front of a text.

ghost use Rattle.std.specs.Prelude.{◌≡◌, ◌<◌, ◌≤◌, ◌^◌, ◌+◌, length, slice_index, if◌then◌else◌, ◌==◌};
ghost use Rattle.gix_spec.specs.Marks.{dot};
ghost use Rattle.gix_spec.specs.Cut.{two_dots_at, at_ends, ends_name, cut_of};
ghost use Rattle.gix_spec.specs.Found.{slice_of, after_mark};

/// Returns the byte at a place, or 0 past the end.
fn byte_at(text: &[u8], place: usize) -> u8
    ensures { result ≡ slice_index text.now place }
{
    if place < text.len() { text[place] } else { 0 }
}

/// Tests whether two dots begin at a place.
fn two_dots_at(text: &[u8], place: usize) -> bool
    requires { place < 2 ^ 63 }
    ensures { result ≡ two_dots_at text.now place }
{
    byte_at(text, place) == b'.' && byte_at(text, place + 1) == b'.'
}

/// Tests whether an `@` ends the name, whose part after its last dot begins at `start`.
#[tactic(auto, unfolding(crate::specs::Cut::at_ends))]
fn at_ends(text: &[u8], start: usize, place: usize) -> bool
    requires place { place < length text.now }
    requires start { start < length text.now }
    ensures { result ≡ at_ends text.now start place }
{
    start + 1 == text.len()
        || (matches!(byte_at(text, place + 1), b'{' | b'~' | b'^' | b':' | b'.')
            && !(start < place && two_dots_at(text, place + 1)))
}

/// Tests whether the name, whose part after its last dot begins at `start`, ends at a place.
#[tactic(auto, unfolding(crate::specs::Cut::ends_name))]
fn ends_name(text: &[u8], start: usize, place: usize) -> bool
    requires place { place < length text.now }
    requires start { start < length text.now }
    ensures { result ≡ ends_name text.now start place }
{
    let byte = byte_at(text, place);
    matches!(byte, b'~' | b'^' | b':')
        || two_dots_at(text, place)
        || (byte == b'@' && at_ends(text, start, place))
}

/// Returns where the part after the last dot begins, one place further.
fn part_start(byte: u8, start: usize, place: usize) -> usize
    requires { place < 2 ^ 63 }
    ensures { result ≡ (if byte == dot then place + 1 else start) }
{
    if byte == b'.' { place + 1 } else { start }
}

/// Returns the length of the name at the front of a text.
pub(crate) fn cut(text: &[u8]) -> usize
    ensures place { result ≡ cut_of text.now }
    ensures within { result ≤ length text.now }
{
    let mut start = 0;
    for (place, byte) in text.iter().enumerate() {
        if ends_name(text, start, place) {
            return place;
        }
        start = part_start(*byte, start, place);
    }
    text.len()
}

/// Returns the text after a mark, if the text begins with the mark.
pub(crate) fn after_mark(text: &[u8], mark: u8) -> Option<&[u8]>
    ensures { slice_of result ≡ after_mark mark text.now }
{
    match text {
        [first, rest @ ..] if *first == mark => Some(rest),
        _ => None,
    }
}
