// Where the interrupts of devices go (ACPI 6.5, 6.2.13).

ghost use Rattle.std.specs.Prelude.{◌≡◌};
ghost use Rattle.acpi_resources.specs.Mappings.{pin_of};
ghost use Rattle.acpi_resources.specs.Interrupts.{by_signal};

use crate::signal::{Polarity, Signal, Trigger};

/// An interrupt pin of a PCI device.
#[derive(Clone, Copy, Debug, PartialEq, Eq)]
pub enum Pin {
    A,
    B,
    C,
    D,
}

/// The pin of a number, as a `_PRT` has it: 0 for the first to 3; None of any other.
pub(crate) fn pin_of(number: u64) -> Option<Pin>
    ensures { result ≡ pin_of number }
{
    match number {
        0 => Some(Pin::A),
        1 => Some(Pin::B),
        2 => Some(Pin::C),
        3 => Some(Pin::D),
        _ => None,
    }
}

/// An interrupt as an interrupt controller has it.
#[derive(Clone, Copy, Debug, PartialEq, Eq)]
pub struct GlobalInterrupt {
    /// Its number among all controllers' inputs; where there is no MADT, that of the ISA bus.
    pub number: u32,
    pub trigger: Trigger,
    pub polarity: Polarity,
}

/// The interrupt of a number that is signalled so.
pub(crate) fn by_signal(signal: Signal, number: u32) -> GlobalInterrupt
    ensures { result ≡ by_signal signal number }
{
    GlobalInterrupt {
        number,
        trigger: signal.trigger,
        polarity: signal.polarity,
    }
}

/// Where an interrupt pin goes.
#[derive(Clone, Copy, Debug, PartialEq, Eq)]
pub struct Route {
    /// The device behind the bus, in the form of `_ADR`: its number in the high word, and FFFF in
    /// the low one, for all of its functions.
    pub address: u64,
    pub pin: Pin,
    pub interrupt: GlobalInterrupt,
}
