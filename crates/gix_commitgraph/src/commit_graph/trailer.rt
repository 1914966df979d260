//! The hash at the end of a commit-graph file (gitformat-commit-graph, "TRAILER").

ghost use Rattle.std.specs.Prelude.{◌↔◌, ◌≤◌, length, IsTrue};
ghost use Rattle.gix_commitgraph.specs.FileHash.{HashIsRight};

use sha1::Sha1;

/// Returns whether the trailing hash is the SHA-1 of the bytes before it.
pub(crate) fn hash_is_right(bytes: &[u8]) -> bool
    requires { 20 ≤ length bytes.now }
    ensures { IsTrue result ↔ HashIsRight bytes.now }
{
    let end = bytes.len() - 20;
    &bytes[end..] == Sha1::digest(&bytes[..end]).as_slice()
}
