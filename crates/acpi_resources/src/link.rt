// The interrupt of a link device, by its resource descriptors.

ghost use Rattle.std.specs.Prelude.{◌≡◌, ◌<◌, ◌/◌, ◌^◌, ◌%◌, ◌==◌, ℕ, IfSome, Some, None, slice_index};
ghost use Rattle.acpi_resources.specs.Interrupts.{by_signal, first_interrupt, first_of, has_irq, irqs, is_of_interrupts, link_interrupt};

use crate::isa_numbers::{IRQS, IsaNumbers};
use crate::item::Item;
use crate::route::{GlobalInterrupt, by_signal};

/// Whether a mask has the bit of an interrupt of the ISA bus.
pub fn has_irq(mask: u16, irq: u8) -> bool
    requires { irq < 16 }
    ensures { result ≡ has_irq mask irq }
{
    mask >> irq & 1 == 1
}

// The least interrupt that a mask has.
fn first_irq(mask: u16) -> Option<u8>
    ensures first { result ≡ first_of (irqs mask) }
    ensures listed { IfSome result (λ irq. irq < 16) }
{
    for irq in 0..IRQS {
        let is_set = has_irq(mask, irq);
        if is_set {
            return Some(irq);
        }
    }
    None
}

/// The interrupt that a device has by its items: the first of the first of them that is of
/// interrupts. None where there is no such item, or it has no interrupt.
pub(crate) fn link_interrupt(items: &[Item], isa: &IsaNumbers) -> Option<GlobalInterrupt>
    ensures { result ≡ link_interrupt (slice_index isa.now.numbers) items.now }
{
    for item in items {
        let lists = is_of_interrupts(item);
        if lists {
            return first_interrupt(item, isa);
        }
    }
    None
}

// Whether an item lists interrupts.
fn is_of_interrupts(item: &Item) -> bool
    ensures { result ≡ is_of_interrupts item.now }
{
    matches!(item, Item::Irq { .. } | Item::Interrupt { .. })
}

// The first interrupt that an item lists.
fn first_interrupt(item: &Item, isa: &IsaNumbers) -> Option<GlobalInterrupt>
    ensures { result ≡ first_interrupt (slice_index isa.now.numbers) item.now }
{
    match item {
        Item::Irq { mask, signal } => {
            let irq = first_irq(*mask)?;
            Some(by_signal(*signal, isa.number(irq)))
        }
        Item::Interrupt { signal, numbers } => {
            let number = numbers.as_slice().first()?;
            Some(by_signal(*signal, *number))
        }
        _ => None,
    }
}
