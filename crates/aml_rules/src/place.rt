// Places of operands, and why a rule gives no value.

ghost use Rattle.std.specs.Prelude.{◌≡◌};
ghost use Rattle.aml_rules.specs.Tells.{error_at, place_of};
ghost use Rattle.aml_rules.specs.declared.place.RuleFault.TheVariants as fault;

use aml_meaning::{AmlCause, AmlError};
use aml_paths::NoMemory;
use std::alloc::AllocError;

/// A byte's place in a table: an operand's, a target's or an operator's.
#[derive(Clone, Copy, Debug, PartialEq, Eq)]
pub struct Place {
    /// The number of the table in the order of loading, from 0.
    pub table: usize,
    pub at: usize,
}

/// Why a rule gives no value.
#[derive(Clone, Copy, Debug, PartialEq, Eq)]
pub enum RuleFault {
    /// The rule's own error.
    Error(AmlError),
    /// Memory was wanted, and there was none.
    NoMemory,
}

/// An error at a place.
pub(crate) fn error_at(cause: AmlCause, place: Place) -> AmlError
    ensures { result ≡ error_at cause (place_of place) }
{
    AmlError {
        table: place.table,
        at: place.at,
        cause,
    }
}

impl From<AmlError> for RuleFault {
    ghost from_gives = { λ error rule. rule ≡ fault.Error error };

    fn from(error: AmlError) -> RuleFault {
        RuleFault::Error(error)
    }
}

impl From<AllocError> for RuleFault {
    ghost from_gives = { λ _ rule. rule ≡ fault.NoMemory };

    fn from(_: AllocError) -> RuleFault {
        RuleFault::NoMemory
    }
}

impl From<NoMemory> for RuleFault {
    ghost from_gives = { λ _ rule. rule ≡ fault.NoMemory };

    fn from(_: NoMemory) -> RuleFault {
        RuleFault::NoMemory
    }
}
