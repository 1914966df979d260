//! Has the faults of tables of ids.

ghost use Rattle.std.specs.Prelude.{Some};

use std::fmt;
use thiserror::Error as StdError;

/// Says what is wrong with a table of ids.
#[derive(Clone, Copy, Debug, PartialEq, Eq, Drop, StdError)]
pub enum TableFault {
    /// A number of the fanout table is less than the one before it, or exceeds the number of ids.
    Fanout,
    /// An id is not where the fanout table says.
    IdPlace,
    /// An id is not greater than the one before it.
    IdOrder,
}

impl fmt::Display for TableFault {
    ghost use Rattle.gix_ids.specs.TableFaultText.{table_fault_text};

    ghost output = { λ e. Some (table_fault_text e) };

    fn fmt<W: fmt::Write>(&self, f: &mut fmt::Formatter<W>) -> fmt::Result {
        f.write_str(match self {
            TableFault::Fanout => "fanout table falls",
            TableFault::IdPlace => "id is not where the fanout table says",
            TableFault::IdOrder => "ids are not in ascending order",
        })
    }
}
