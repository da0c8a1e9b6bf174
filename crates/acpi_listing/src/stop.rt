// Why a command ends before its end.

ghost use Rattle.std.specs.Prelude.{◌≡◌};
ghost use Rattle.acpi_listing.specs.declared.stop.Stop.TheVariants as stop;

use acpi_sources::Fault;
use acpi_text::RunFault;

/// Why a command ends before its end.
#[derive(Clone, Copy, Debug, PartialEq, Eq)]
pub enum Stop {
    /// By a fault, whose line is still to be written.
    Fault(Fault),
    /// By a writer or a listing that failed.
    Run(RunFault),
}

impl From<Fault> for Stop {
    ghost from_gives = { λ f s. s ≡ stop.Fault f };

    fn from(fault: Fault) -> Stop {
        Stop::Fault(fault)
    }
}

impl From<RunFault> for Stop {
    ghost from_gives = { λ f s. s ≡ stop.Run f };

    fn from(fault: RunFault) -> Stop {
        Stop::Run(fault)
    }
}
