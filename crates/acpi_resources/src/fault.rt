// Why resource descriptors cannot be read.

ghost use Rattle.std.specs.Prelude.{◌≡◌};
ghost use Rattle.acpi_resources.specs.Causes.{resource_cause_text};
ghost use Rattle.acpi_resources.specs.Fault.{refusal};
ghost use Rattle.acpi_resources.specs.declared.fault.ResourceFault.TheVariants.{NoMemory};

use std::alloc::{AllocError, AllocFailed};
use std::fmt;
use thiserror::Error;

/// What is wrong with a list of descriptors.
#[derive(Clone, Copy, Debug, PartialEq, Eq)]
pub enum ResourceCause {
    /// The bytes end within a descriptor; its place is the descriptor's.
    Truncated,
    /// A length that the descriptor cannot have, or an extended interrupt's count that its length
    /// does not hold; its place is the descriptor's.
    BadItem,
    /// The bytes end without an end tag; its place is that end.
    NoEnd,
}

impl ResourceCause {
    /// The number and the name of what is wrong, as they are printed.
    pub fn text(self) -> &'static str
        ensures { result.now ≡ resource_cause_text self }
    {
        match self {
            ResourceCause::Truncated => "E401 Truncated",
            ResourceCause::BadItem => "E402 BadItem",
            ResourceCause::NoEnd => "E403 NoEnd",
        }
    }
}

impl fmt::Display for ResourceCause {
    fn fmt<W: fmt::Write>(&self, f: &mut fmt::Formatter<W>) -> fmt::Result {
        f.write_str(self.text())
    }
}

impl std::error::Error for ResourceCause {}

/// A list of descriptors that cannot be read: what is wrong, and at which byte.
#[derive(Clone, Copy, Debug, PartialEq, Eq, Error)]
#[error("{cause} {at}")]
pub struct ResourceRefusal {
    pub cause: ResourceCause,
    /// A place of at most the number of bytes that were handed in.
    pub at: usize,
}

/// Why there are no items: want of memory, which has no place, or a refusal, which has one.
#[derive(Clone, Copy, Debug, PartialEq, Eq, Error)]
pub enum ResourceFault {
    /// An allocation failed; the bytes may be read again.
    #[error("E524 NoMemory")]
    NoMemory,
    /// The first fault.
    #[error(transparent)]
    Refused(ResourceRefusal),
}

/// A refusal at a place.
pub(crate) fn refuse(cause: ResourceCause, at: usize) -> ResourceFault
    ensures { result ≡ ResourceFault.Refused (refusal cause at) }
{
    ResourceFault::Refused(ResourceRefusal { cause, at })
}

impl From<AllocError> for ResourceFault {
    ghost from_gives = { λ _ fault. fault ≡ NoMemory };

    fn from(_error: AllocError) -> ResourceFault {
        ResourceFault::NoMemory
    }
}

impl<T: Drop> From<AllocFailed<T>> for ResourceFault {
    ghost from_gives = { λ _ fault. fault ≡ NoMemory };

    fn from(_error: AllocFailed<T>) -> ResourceFault {
        ResourceFault::NoMemory
    }
}
