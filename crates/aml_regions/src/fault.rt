// Why a text makes no register file.

ghost use Rattle.std.specs.Prelude.{◌≡◌};
ghost use Rattle.aml_regions.specs.Causes.{registers_fault_text};

use thiserror::Error;

/// Why a text makes no register file.
#[derive(Clone, Copy, Debug, PartialEq, Eq, Error)]
pub enum RegistersFault {
    /// An allocation failed; the text may be read again.
    #[error("E524 NoMemory")]
    NoMemory,
    /// The first line that sets no bytes, by its number, from 1.
    #[error("E511 BadRegs {line}")]
    BadRegs { line: usize },
}

impl RegistersFault {
    /// The number and the name of what is wrong, as they are printed.
    pub fn text(self) -> &'static str
        ensures { result.now ≡ registers_fault_text self }
    {
        match self {
            RegistersFault::NoMemory => "E524 NoMemory",
            RegistersFault::BadRegs { .. } => "E511 BadRegs",
        }
    }
}
