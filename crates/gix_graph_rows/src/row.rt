//! Reads what a row says (gitformat-commit-graph, "Commit Data").

ghost use Rattle.std.specs.Prelude.{◌≡◌, ◌+◌, ◌<◌, ◌^◌};
ghost use Rattle.gix_ids.specs.TableBytes.{word};
ghost use Rattle.gix_graph_rows.specs.RowForm.{level_in, date_in};

use gix_commitgraph::row;
use gix_ids::word_at;

/// The number that stands for no parent.
pub(crate) const NO_PARENT: u32 = 0x7000_0000;

/// The bit of a second parent that is a place in the chunk `EDGE`, and of the last number of a list
/// there.
pub(crate) const EDGE_BIT: u32 = 0x8000_0000;

/// A row of the chunk `CDAT`. It begins with the id of the commit's tree.
#[derive(Clone, Copy)]
pub(crate) struct Row {
    pub(crate) bytes: [u8; 36],
}

/// Reads 4 bytes of a row as a number.
fn number(row: &Row, at: usize) -> u32
    requires { at + 4 < 37 }
    ensures { result ≡ word row.now.bytes at }
{
    word_at(&row.bytes, at) as u32
}

impl Row {
    /// Returns the position of the first parent, or [`NO_PARENT`].
    pub(crate) fn first(&self) -> u32
        ensures { result ≡ word self.now.bytes 20 }
    {
        number(self, 20)
    }

    /// Returns the position of the second parent, or [`NO_PARENT`].
    ///
    /// If [`EDGE_BIT`] is set, the rest is the place in `EDGE` of the list of all further parents.
    pub(crate) fn second(&self) -> u32
        ensures { result ≡ word self.now.bytes 24 }
    {
        number(self, 24)
    }

    /// Returns the topological level, the generation number; 0 if git did not compute it.
    pub(crate) fn level(&self) -> u32
        ensures value { result ≡ level_in self.now.bytes }
        ensures bound { result < 2 ^ 30 }
    {
        row::level(number(self, 28))
    }

    /// Returns the commit date, in seconds since the Unix epoch. It has 34 bits.
    pub(crate) fn date(&self) -> i64
        ensures { result ≡ date_in self.now.bytes }
    {
        row::date(number(self, 28), number(self, 32))
    }
}
