//! Has the errors of opening an index.

ghost use Rattle.std.specs.Prelude.{◌≡◌, Some};
ghost use Rattle.gix_pack.specs.PackTexts.{open_fault_text};
ghost use Rattle.gix_pack.specs.declared.index.fault.OpenFault.TheVariants.{Ids};

use gix_ids::TableFault;
use std::fmt;
use thiserror::Error as StdError;

/// Says what is wrong with bytes that were not opened.
#[derive(Clone, Copy, Debug, Drop, StdError)]
pub enum OpenFault {
    /// The bytes are too few for a header and a fanout table.
    TooShort,
    /// The bytes do not begin with the signature of an index.
    Signature,
    /// The version of the index is not 2.
    Version,
    /// The tables and the two hashes do not fill the file.
    Size,
    /// The fanout table falls, or the ids are not in order, or not where the table says.
    Ids(TableFault),
    /// The offset of an object is one of 8 bytes that the index does not have.
    NoOffset,
}

impl fmt::Display for OpenFault {
    ghost output = { λ e. Some (open_fault_text e) };

    fn fmt<W: fmt::Write>(&self, f: &mut fmt::Formatter<W>) -> fmt::Result {
        match self {
            OpenFault::TooShort => f.write_str("index is too short"),
            OpenFault::Signature => f.write_str("file is not an index of a pack"),
            OpenFault::Version => f.write_str("index has a version other than 2"),
            OpenFault::Size => f.write_str("index has another size than its tables"),
            OpenFault::Ids(fault) => fault.fmt(f),
            OpenFault::NoOffset => f.write_str("index lacks an offset of 8 bytes"),
        }
    }
}

impl From<TableFault> for OpenFault {
    ghost from_gives = { λ fault error. error ≡ Ids fault };

    fn from(fault: TableFault) -> OpenFault {
        OpenFault::Ids(fault)
    }
}

/// Bytes that were not opened, and what is wrong with them.
#[derive(Debug, Drop)]
pub struct OpenError<B> {
    /// The bytes that were passed to the call.
    pub bytes: B,
    pub fault: OpenFault,
}
