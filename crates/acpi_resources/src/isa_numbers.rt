// Where the interrupts of the ISA bus go.

ghost use Rattle.std.specs.Prelude.{◌≡◌, ◌<◌, ℕ, slice_index};
ghost use Rattle.std.specs.Option.{option_map};
ghost use Rattle.acpi_resources.specs.Interrupts.{global_number};

use acpi_tables::Madt;

/// How many interrupts the ISA bus has.
pub(crate) const IRQS: u8 = 16;

/// The global interrupts of the sixteen interrupts of the ISA bus, each looked up once.
#[derive(Clone, Copy, Debug)]
pub(crate) struct IsaNumbers {
    numbers: [u32; 16],
}

impl IsaNumbers {
    /// By the overrides of a MADT; without one each interrupt keeps its number.
    pub(crate) fn of(madt: Option<&Madt<'_>>) -> IsaNumbers
        ensures { (irq : ℕ) → irq < 16 → slice_index result.numbers irq
            ≡ global_number (option_map (λ madt. madt.now) madt.entry) irq }
    {
        let mut numbers = [0; 16];
        for irq in 0..IRQS {
            numbers[irq as usize] = global_number(madt, irq);
        }
        IsaNumbers { numbers }
    }

    /// Where an interrupt goes.
    pub(crate) fn number(&self, irq: u8) -> u32
        requires { irq < 16 }
        ensures { result ≡ slice_index self.now.numbers irq }
    {
        self.numbers[irq as usize]
    }
}

// Where one interrupt goes.
fn global_number(madt: Option<&Madt<'_>>, irq: u8) -> u32
    ensures { result ≡ global_number (option_map (λ madt. madt.now) madt.entry) irq }
{
    match madt {
        Some(madt) => madt.isa_route(irq).number,
        None => u32::from(irq),
    }
}
