// Why a text tells no kinds.

ghost use Rattle.std.specs.Prelude.{◌≡◌};
ghost use Rattle.aml_signatures.specs.Causes.{signature_fault_text};
ghost use Rattle.aml_signatures.specs.declared.fault.SignatureFault.TheVariants.{NoMemory};

use std::alloc::{AllocError, AllocFailed};
use thiserror::Error;

/// Why a text tells no kinds of arguments.
#[derive(Clone, Copy, Debug, PartialEq, Eq, Error)]
pub enum SignatureFault {
    /// An allocation failed; the text may be read again.
    #[error("E524 NoMemory")]
    NoMemory,
    /// The first line that is no signature, or whose path a line before it has, by its number, from
    /// 1.
    #[error("E501 BadKinds {line}")]
    BadKinds { line: usize },
}

impl SignatureFault {
    /// The number and the name of what is wrong, as they are printed.
    pub fn text(self) -> &'static str
        ensures { result.now ≡ signature_fault_text self }
    {
        match self {
            SignatureFault::NoMemory => "E524 NoMemory",
            SignatureFault::BadKinds { .. } => "E501 BadKinds",
        }
    }
}

impl From<AllocError> for SignatureFault {
    ghost from_gives = { λ _ fault. fault ≡ NoMemory };

    fn from(_error: AllocError) -> SignatureFault {
        SignatureFault::NoMemory
    }
}

impl<T: Drop> From<AllocFailed<T>> for SignatureFault {
    ghost from_gives = { λ _ fault. fault ≡ NoMemory };

    fn from(_error: AllocFailed<T>) -> SignatureFault {
        SignatureFault::NoMemory
    }
}
