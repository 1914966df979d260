//! Keeps the standard streams apart from the files that the program opens.

use std::fs::File;
use std::io;
use std::os::fd::{AsRawFd, IntoRawFd};

/// The number of the last standard stream.
const LAST_STREAM: i32 = 2;

/// Opens `/dev/null` in the place of each standard stream that is closed, as git does. Otherwise the
/// next file that is opened would be taken for this stream.
///
/// `/dev/null` is opened for reading alone: what is written to a closed stream has to fail.
///
/// # Errors
///
/// Fails if `/dev/null` is not opened.
pub fn fill_streams(rt: &HostRuntime) -> io::Result<()> {
    for _ in 0..=LAST_STREAM {
        let file = File::open(rt, "/dev/null")?;
        if file.as_raw_fd() > LAST_STREAM {
            break;
        }
        // It stays open until the program ends.
        file.into_raw_fd();
    }
    Ok(())
}
