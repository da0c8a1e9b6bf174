// Why a table cannot be read.

ghost use Rattle.std.specs.Prelude.{◌≡◌};
ghost use Rattle.acpi_tables.specs.Causes.{table_cause_text};

use std::fmt;
use thiserror::Error;

/// What is wrong with a table.
#[derive(Clone, Copy, Debug, PartialEq, Eq)]
pub enum TableCause {
    /// Fewer bytes than the fixed part of such a table; its place is the number of bytes.
    Short,
    /// The length in the table is not the number of bytes; its place is that of the length.
    BadLength,
    /// A sum of bytes is not 0 modulo 256; its place is that of the checksum.
    BadSum,
    /// Not the signature that is asked for; its place is 0.
    BadSignature,
    /// An entry whose length is missing, too small for its type or past the end; its place is the
    /// entry's.
    BadEntry,
}

impl TableCause {
    /// The number and the name of what is wrong, as they are printed.
    pub fn text(self) -> &'static str
        ensures { result.now ≡ table_cause_text self }
    {
        match self {
            TableCause::Short => "E101 Short",
            TableCause::BadLength => "E102 BadLength",
            TableCause::BadSum => "E103 BadSum",
            TableCause::BadSignature => "E104 BadSignature",
            TableCause::BadEntry => "E105 BadEntry",
        }
    }
}

impl fmt::Display for TableCause {
    fn fmt<W: fmt::Write>(&self, f: &mut fmt::Formatter<W>) -> fmt::Result {
        f.write_str(self.text())
    }
}

impl std::error::Error for TableCause {}

/// A table that cannot be read: what is wrong, and at which byte.
#[derive(Clone, Copy, Debug, PartialEq, Eq, Error)]
#[error("{cause} {at}")]
pub struct TableFault {
    pub cause: TableCause,
    /// A place of at most the number of bytes that were handed in.
    pub at: usize,
}
