// How interrupts are signalled (ACPI 6.5, 6.4.2.1 and 6.4.3.6).

ghost use Rattle.std.specs.Prelude.{◌≡◌};
ghost use Rattle.acpi_resources.specs.Signals.{trigger_of, polarity_of, sharing_of, irq_signal, interrupt_signal};

/// When an interrupt is taken.
#[derive(Clone, Copy, Debug, PartialEq, Eq)]
pub enum Trigger {
    Edge,
    Level,
}

/// At which level of its line an interrupt is active.
#[derive(Clone, Copy, Debug, PartialEq, Eq)]
pub enum Polarity {
    High,
    Low,
}

/// Whether other devices may have the same interrupt.
#[derive(Clone, Copy, Debug, PartialEq, Eq)]
pub enum Sharing {
    Exclusive,
    Shared,
}

/// How an interrupt is signalled.
#[derive(Clone, Copy, Debug, PartialEq, Eq)]
pub struct Signal {
    pub trigger: Trigger,
    pub polarity: Polarity,
    pub sharing: Sharing,
}

/// The signal of an IRQ descriptor without a third byte: as the ISA bus has it.
pub(crate) const ISA_SIGNAL: Signal = Signal {
    trigger: Trigger::Edge,
    polarity: Polarity::High,
    sharing: Sharing::Exclusive,
};

fn trigger_of(edge: bool) -> Trigger
    ensures { result ≡ trigger_of edge }
{
    if edge { Trigger::Edge } else { Trigger::Level }
}

fn polarity_of(low: bool) -> Polarity
    ensures { result ≡ polarity_of low }
{
    if low { Polarity::Low } else { Polarity::High }
}

fn sharing_of(shared: bool) -> Sharing
    ensures { result ≡ sharing_of shared }
{
    if shared {
        Sharing::Shared
    } else {
        Sharing::Exclusive
    }
}

/// The signal that the third byte of an IRQ descriptor tells.
pub(crate) fn irq_signal(information: u8) -> Signal
    ensures { result ≡ irq_signal information }
{
    Signal {
        trigger: trigger_of(information & 1 == 1),
        polarity: polarity_of(information >> 3 & 1 == 1),
        sharing: sharing_of(information >> 4 & 1 == 1),
    }
}

/// The signal that the flags of an extended interrupt descriptor tell.
pub(crate) fn interrupt_signal(flags: u8) -> Signal
    ensures { result ≡ interrupt_signal flags }
{
    Signal {
        trigger: trigger_of(flags >> 1 & 1 == 1),
        polarity: polarity_of(flags >> 2 & 1 == 1),
        sharing: sharing_of(flags >> 3 & 1 == 1),
    }
}
