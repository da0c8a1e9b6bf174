// Writing text out.

ghost use Rattle.std.specs.Prelude.{◌≡◌, IfErr};
ghost use Rattle.acpi_text.specs.Lists.{Lists};
ghost use Rattle.acpi_text.specs.declared.writing.RunFault.TheVariants as told;

use std::alloc::AllocError;
use std::io::Write;
use thiserror::Error;

/// Why a text could not be printed whole.
#[derive(Clone, Copy, Debug, PartialEq, Eq, Error)]
pub enum RunFault {
    /// The writer failed, or took nothing.
    #[error("write failed")]
    Write,
    /// A listing had no memory for a line.
    #[error("no memory")]
    NoMemory,
}

impl From<AllocError> for RunFault {
    ghost from_gives = { λ _ fault. fault ≡ told.NoMemory };

    fn from(_error: AllocError) -> RunFault {
        RunFault::NoMemory
    }
}

impl From<aml_paths::NoMemory> for RunFault {
    ghost from_gives = { λ _ fault. fault ≡ told.NoMemory };

    fn from(_error: aml_paths::NoMemory) -> RunFault {
        RunFault::NoMemory
    }
}

/// Writes the whole text, by as many writes as the writer wants. It takes no memory.
pub fn put<W: Write>(out: &mut W, text: &[u8]) -> Result<(), RunFault>
    ensures lists { Lists result (W.contents out.old) (W.contents out.new) text.now }
    ensures fault { IfErr result (λ fault. fault ≡ told.Write) }
{
    let mut rest = text;
    while !rest.is_empty() {
        match out.write(rest) {
            Ok(0) | Err(_) => return Err(RunFault::Write),
            Ok(n) => rest = &rest[n..],
        }
    }
    Ok(())
}
