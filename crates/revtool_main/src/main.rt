//! Is the program: passes the standard streams to `revtool`. The words of the command line are
//! ignored.
#![tactic(auto)]

use revtool::{Seed, run_with_seed};
use std::process::ExitCode;
use std::random::RandomSource;

/// Returns a random seed; the default one if the system has no random bytes.
fn seed(rt: &HostRuntime) -> Seed {
    let mut bytes = [0; 8];
    match rt.fill_bytes(&mut bytes) {
        Ok(()) => Seed::new(u64::from_le_bytes(bytes)),
        Err(_) => Seed::default(),
    }
}

fn main(rt: HostRuntime) -> ExitCode {
    ExitCode::from(run_with_seed(
        rt.alloc(),
        rt.alloc(),
        seed(&rt),
        &mut rt.stdin(),
        &mut rt.stdout(),
        &mut rt.stderr(),
    ))
}
