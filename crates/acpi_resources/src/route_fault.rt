// Why there are no routes.

ghost use Rattle.std.specs.Prelude.{◌≡◌};
ghost use Rattle.acpi_resources.specs.Causes.{route_cause_text};
ghost use Rattle.acpi_resources.specs.RouteFaults.{route_refusal};
ghost use Rattle.acpi_resources.specs.declared.route_fault.RouteFault.TheVariants.{NoMemory};

use std::alloc::{AllocError, AllocFailed};
use std::fmt;
use thiserror::Error;

/// What is wrong with an element of a `_PRT`.
#[derive(Clone, Copy, Debug, PartialEq, Eq)]
pub enum RouteCause {
    /// It is no package of an address, a pin from 0 to 3, a source and an index.
    BadEntry,
    /// Its source names nothing, or a link with no interrupt.
    NoLink,
}

impl RouteCause {
    /// The number and the name of what is wrong, as they are printed.
    pub fn text(self) -> &'static str
        ensures { result.now ≡ route_cause_text self }
    {
        match self {
            RouteCause::BadEntry => "E411 BadEntry",
            RouteCause::NoLink => "E412 NoLink",
        }
    }
}

impl fmt::Display for RouteCause {
    fn fmt<W: fmt::Write>(&self, f: &mut fmt::Formatter<W>) -> fmt::Result {
        f.write_str(self.text())
    }
}

impl std::error::Error for RouteCause {}

/// A `_PRT` that cannot be followed: what is wrong, and with which element.
#[derive(Clone, Copy, Debug, PartialEq, Eq, Error)]
#[error("{cause} {element}")]
pub struct RouteRefusal {
    pub cause: RouteCause,
    /// The number of the element, from 0; 0 where there is no package.
    pub element: usize,
}

/// Why there are no routes: want of memory, or a refusal.
#[derive(Clone, Copy, Debug, PartialEq, Eq, Error)]
pub enum RouteFault {
    /// An allocation failed; the call may be made again.
    #[error("E524 NoMemory")]
    NoMemory,
    /// The first fault.
    #[error(transparent)]
    Refused(RouteRefusal),
}

/// The refusal of an element.
pub(crate) fn refuse_element(cause: RouteCause, element: usize) -> RouteFault
    ensures { result ≡ RouteFault.Refused (route_refusal cause element) }
{
    RouteFault::Refused(RouteRefusal { cause, element })
}

impl From<AllocError> for RouteFault {
    ghost from_gives = { λ _ fault. fault ≡ NoMemory };

    fn from(_error: AllocError) -> RouteFault {
        RouteFault::NoMemory
    }
}

impl<T: Drop> From<AllocFailed<T>> for RouteFault {
    ghost from_gives = { λ _ fault. fault ≡ NoMemory };

    fn from(_error: AllocFailed<T>) -> RouteFault {
        RouteFault::NoMemory
    }
}
