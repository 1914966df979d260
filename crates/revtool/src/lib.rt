//! Answers lines about commits: reads them from an input, and writes one line for each question.
//!
//! [`run`] reads its whole input (`input`). It reads the lines (`lines`, `fields`, `manner`) into
//! commits and commands (`session`), and answers the commands in order (`answers`).
#![tactic(auto)]

ghost use Rattle.std.specs.Prelude.{◌≡◌, ◌≢◌, ◌≤◌, ◌⊎◌, OnOk, IfErr};
ghost use Rattle.std.specs.Io.KnownBytes.{IsAtEnd, Keeps};

mod answers;
mod fields;
mod input;
mod lines;
mod manner;
pub mod recorder;
mod session;
mod stop;

use answers::Outcome;
pub use gix_revision::Seed;
use std::alloc::{Allocator, Global};
use std::io::{Read, Write};
use stop::Stop;

/// Reads `input` to its end, writes the answers to `output`, and returns the exit status.
///
/// All memory comes from `alloc`. `refusals` is where a delegate's refusal would be built; refusals
/// take no memory.
///
/// # Status
///
/// - 0: all commands were answered.
/// - 1: a command was refused.
/// - 1: there was no memory before the first answer. `faults` gets the line `out of memory`, and
///   `output` gets nothing.
/// - 2: the input can't be read, or a line of it. `faults` gets the line `cannot read standard
///   input` or `line N is unreadable`, and `output` gets nothing.
/// - 2: `output` can't be written. Nothing more is written to it, and nothing to `faults`.
///
/// A failed write to `faults` does not change the status.
///
/// # Known streams
///
/// A stream is known if its contract says which bytes it has left or holds. Slices and `Vec` are
/// known streams. Files and the standard streams are not.
pub fn run<R: Read, W: Write, E: Write, A: Allocator + Copy>(
    alloc: A,
    refusals: Global,
    input: &mut R,
    output: &mut W,
    faults: &mut E,
) -> u8
    // The status is at most 2.
    ensures status { result ≤ 2 }

    // If the status is 0 and the input is a known stream, the input was read to its end.
    ensures read { result ≡ 0 → IsAtEnd (R.remaining input.new) }

    // If the status is 0 and `faults` is a known stream, the bytes of `faults` are unchanged.
    ensures quiet { result ≡ 0 → Keeps (E.contents faults.old) (E.contents faults.new) }

    // If `faults` and `output` are known streams, at least one of them has the same bytes
    // as before.
    ensures untouched { Keeps (E.contents faults.old) (E.contents faults.new)
        ⊎ Keeps (W.contents output.old) (W.contents output.new) }
{
    run_with_seed(alloc, refusals, Seed::default(), input, output, faults)
}

/// Answers like [`run`], with all hash maps over ids seeded with `seed`. No answer depends on it.
pub fn run_with_seed<R: Read, W: Write, E: Write, A: Allocator + Copy>(
    alloc: A,
    refusals: Global,
    seed: Seed,
    input: &mut R,
    output: &mut W,
    faults: &mut E,
) -> u8
    // The status is at most 2.
    ensures status { result ≤ 2 }

    // If the status is 0 and the input is a known stream, the input was read to its end.
    ensures read { result ≡ 0 → IsAtEnd (R.remaining input.new) }

    // If the status is 0 and `faults` is a known stream, the bytes of `faults` are unchanged.
    ensures quiet { result ≡ 0 → Keeps (E.contents faults.old) (E.contents faults.new) }

    // If `faults` and `output` are known streams, at least one of them has the same bytes
    // as before.
    ensures untouched { Keeps (E.contents faults.old) (E.contents faults.new)
        ⊎ Keeps (W.contents output.old) (W.contents output.new) }
{
    match answer_input(alloc, refusals, seed, input, output) {
        Ok(Outcome::Answered) => 0,
        Ok(Outcome::Refused) => 1,
        Err(stop) => {
            stop.report(faults);
            stop.status()
        }
    }
}

/// Answers all commands of the input.
fn answer_input<R: Read, W: Write, A: Allocator + Copy>(
    alloc: A,
    refusals: Global,
    seed: Seed,
    input: &mut R,
    output: &mut W,
) -> Result<Outcome, Stop>
    // After a success, the input was read to its end, if it is a known stream.
    ensures read { OnOk result (IsAtEnd (R.remaining input.new)) }

    // After an error other than a failed write, the bytes of `output` are unchanged, if it is a
    // known stream.
    ensures untouched { IfErr result (λ stop. stop ≢ Stop.UnwritableOutput
        → Keeps (W.contents output.old) (W.contents output.new)) }
{
    let text = input::read_all(alloc, input)?;
    let session = session::read_lines(alloc, seed, &text)?;
    answers::answer_all(alloc, refusals, session, output)
}
