//! Runs `revtool` on inputs that are long or do not end. Unproved this would take minutes.

use revtool::run;
use std::alloc::Global;
use std::io::{self, Read};

/// Gives this many line feeds, one a read, and counts its reads.
#[derive(Drop)]
struct LineFeeds {
    left: u64,
    reads: u64,
}

impl Read for LineFeeds {
    fn read(&mut self, buf: &mut [u8]) -> io::Result<usize> {
        self.reads = self.reads.saturating_add(1);
        if self.left == 0 || buf.is_empty() {
            return Ok(0);
        }
        self.left -= 1;
        buf[0] = b'\n';
        Ok(1)
    }
}

/// Returns whether a run over this many line feeds ends with this status and these faults, and how
/// often it read.
fn line_feeds(alloc: Global, count: u64, status: u8, said: &[u8]) -> (bool, u64) {
    let mut input = LineFeeds {
        left: count,
        reads: 0,
    };
    let mut output = Vec::new(alloc);
    let mut faults = Vec::new(alloc);
    let ended = run(alloc, alloc, &mut input, &mut output, &mut faults);
    let is_so = ended == status && faults.as_slice() == said && output.is_empty();
    (is_so, input.reads)
}

const UNREAD: &str = "cannot read standard input\n";

/// The number of line feeds, the status, the faults, and the number of reads. The last possible
/// read finds the end, or one more byte; an input without end is read no further.
static LINE_FEEDS: [(u64, u8, &str, u64); 4] = [
    (0, 0, "", 1),
    (16_777_215, 0, "", 16_777_216),
    (16_777_216, 2, UNREAD, 16_777_216),
    (u64::MAX, 2, UNREAD, 16_777_216),
];

/// Returns the first number of line feeds that are read otherwise.
fn first_misread(alloc: Global) -> Option<u64> {
    for (count, status, said, reads) in &LINE_FEEDS {
        if line_feeds(alloc, *count, *status, said.as_bytes()) != (true, *reads) {
            return Some(*count);
        }
    }
    None
}

#[test]
fn an_input_may_not_end(rt: HostRuntime) {
    assert_eq!(rt; first_misread(rt.alloc()), None);
}
