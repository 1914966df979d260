//! The place of a fault in a revision.

ghost use Rattle.std.specs.Prelude.{◌≡◌, IfSome, Some};
ghost use Rattle.std.specs.Option.{option_map};
ghost use Rattle.memchr.specs.Find.{FindsLastNeedle};
ghost use Rattle.gix_revision.specs.Ends.{IsPartOf};
ghost use Rattle.gix_c_core.specs.FaultPlaces.{IsPartAt};

use bstr::ByteSlice;

/// A fault of a revision: its number, and the offset and length of the part that it names.
#[repr(C)]
#[derive(Clone, Copy)]
pub struct FaultPlace {
    pub number: u8,
    start: usize,
    length: usize,
}

/// Finds the last occurrence of `part` in `text`.
fn last_place(text: &[u8], part: &[u8]) -> usize
    requires { IsPartOf part.now text.now }
    ensures { FindsLastNeedle text.now part.now (Some result) }
{
    match text.rfind(part) {
        Some(start) => start,
        // The text contains the part.
        None => unreachable!(),
    }
}

/// Makes the fault `number`, with the last occurrence in `text` of the part that it names.
pub(crate) fn fault_place(text: &[u8], number: u8, part: Option<&[u8]>) -> FaultPlace
    requires { IfSome part (λ p. IsPartOf p.now text.now) }
    ensures number { result.number ≡ number }
    ensures part { IsPartAt text.now (option_map (λ p. p.now) part.entry) result.start result.length }
{
    match part {
        Some(part) => FaultPlace {
            number,
            start: last_place(text, part),
            length: part.len(),
        },
        None => FaultPlace {
            number,
            start: 0,
            length: 0,
        },
    }
}
