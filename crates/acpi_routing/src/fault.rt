// Why the links of a `_PRT` have no resource descriptors.

ghost use Rattle.std.specs.Prelude.{◌≡◌};
ghost use Rattle.acpi_routing.specs.Faults.{link_fault};
ghost use Rattle.acpi_routing.specs.declared.fault.LinkFault.TheVariants as fault;

use acpi_resources::{ResourceFault, ResourceRefusal};
use aml_paths::{NoMemory, ObjectId};
use std::alloc::{AllocError, AllocFailed};
use thiserror::Error;

/// A link whose `_CRS` gives bytes that are no list of resource descriptors.
#[derive(Clone, Copy, Debug, PartialEq, Eq, Error)]
#[error("{refusal}")]
pub struct LinkRefusal {
    /// The link device.
    pub device: ObjectId,
    /// What is wrong, and at which of these bytes.
    pub refusal: ResourceRefusal,
}

/// Why the links of a `_PRT` have no resource descriptors: want of memory, or the first link that
/// is at fault.
#[derive(Clone, Copy, Debug, PartialEq, Eq, Error)]
pub enum LinkFault {
    /// An allocation failed.
    #[error("E524 NoMemory")]
    NoMemory,
    /// The first fault.
    #[error(transparent)]
    Refused(LinkRefusal),
}

/// The fault of the bytes that a link's `_CRS` gives.
pub(crate) fn link_fault(device: ObjectId, fault: ResourceFault) -> LinkFault
    ensures { result ≡ link_fault device fault }
{
    match fault {
        ResourceFault::NoMemory => LinkFault::NoMemory,
        ResourceFault::Refused(refusal) => LinkFault::Refused(LinkRefusal { device, refusal }),
    }
}

impl From<AllocError> for LinkFault {
    ghost from_gives = { λ _ f. f ≡ fault.NoMemory };

    fn from(_error: AllocError) -> LinkFault {
        LinkFault::NoMemory
    }
}

impl<T: Drop> From<AllocFailed<T>> for LinkFault {
    ghost from_gives = { λ _ f. f ≡ fault.NoMemory };

    fn from(_error: AllocFailed<T>) -> LinkFault {
        LinkFault::NoMemory
    }
}

impl From<NoMemory> for LinkFault {
    ghost from_gives = { λ _ f. f ≡ fault.NoMemory };

    fn from(_error: NoMemory) -> LinkFault {
        LinkFault::NoMemory
    }
}
