// The line of a resource descriptor.

ghost use Rattle.std.specs.Prelude.{◌≡◌, IfOk, string_bytes};
ghost use Rattle.acpi_resource_text.specs.Lines.{fixed_line, interrupts_line, item_line, numbers_text, placed_line, space_line};

use crate::numbers::{irqs, numbers_text};
use crate::words::{polarity_text, sharing_text, trigger_text, width_text};
use acpi_resources::{AddressWidth, Item, Signal};
use std::alloc::{AllocError, Global};

/// The line of an item.
pub(crate) fn line_of(alloc: Global, item: &Item) -> Result<String, AllocError>
    ensures { IfOk result (λ line. string_bytes line ≡ item_line item.now) }
{
    match item {
        Item::Irq { mask, signal } => {
            let irqs = irqs(alloc, *mask)?;
            interrupts_line(alloc, "irq", irqs.as_slice(), *signal)
        }
        Item::Io {
            minimum,
            maximum,
            alignment,
            length,
        } => placed_line(
            alloc,
            "io",
            u32::from(*minimum),
            u32::from(*maximum),
            u32::from(*alignment),
            u32::from(*length),
        ),
        Item::FixedIo { base, length } => {
            fixed_line(alloc, "fixed-io", u32::from(*base), u32::from(*length))
        }
        Item::End => format!(in alloc; "end\n"),
        Item::Memory {
            minimum,
            maximum,
            alignment,
            length,
        } => placed_line(alloc, "memory", *minimum, *maximum, *alignment, *length),
        Item::FixedMemory { base, length } => fixed_line(alloc, "fixed-memory", *base, *length),
        Item::AddressSpace {
            width,
            kind,
            minimum,
            maximum,
            length,
            ..
        } => space_line(alloc, *width, *kind, *minimum, *maximum, *length),
        Item::Interrupt { signal, numbers } => {
            interrupts_line(alloc, "interrupt", numbers.as_slice(), *signal)
        }
        Item::Other { tag, length } => {
            fixed_line(alloc, "other", u32::from(*tag), u32::from(*length))
        }
    }
}

// `irq 3,4 edge high exclusive`.
#[tactic(auto, unfolding(crate::specs::Lines::interrupts_line))]
fn interrupts_line(
    alloc: Global,
    word: &str,
    numbers: &[u32],
    signal: Signal,
) -> Result<String, AllocError>
    ensures { IfOk result (λ line. string_bytes line
        ≡ interrupts_line word.now (numbers_text numbers.now) signal) }
{
    let numbers = numbers_text(alloc, numbers)?;
    let trigger = trigger_text(signal.trigger);
    let polarity = polarity_text(signal.polarity);
    let sharing = sharing_text(signal.sharing);
    format!(in alloc; "{word} {numbers} {trigger} {polarity} {sharing}\n")
}

// `io 0x3f8 0x3f8 align 1 length 8`.
#[tactic(auto, unfolding(crate::specs::Lines::placed_line))]
fn placed_line(
    alloc: Global,
    word: &str,
    minimum: u32,
    maximum: u32,
    alignment: u32,
    length: u32,
) -> Result<String, AllocError>
    ensures { IfOk result (λ line. string_bytes line
        ≡ placed_line word.now minimum maximum alignment length) }
{
    format!(in alloc; "{word} 0x{minimum:x} 0x{maximum:x} align {alignment} length {length}\n")
}

// `fixed-io 0x60 length 1`.
#[tactic(auto, unfolding(crate::specs::Lines::fixed_line))]
fn fixed_line(alloc: Global, word: &str, base: u32, length: u32) -> Result<String, AllocError>
    ensures { IfOk result (λ line. string_bytes line ≡ fixed_line word.now base length) }
{
    format!(in alloc; "{word} 0x{base:x} length {length}\n")
}

// `dword space type 0 0xe0000000 0xefffffff length 268435456`.
#[tactic(auto, unfolding(crate::specs::Lines::space_line))]
fn space_line(
    alloc: Global,
    width: AddressWidth,
    kind: u8,
    minimum: u64,
    maximum: u64,
    length: u64,
) -> Result<String, AllocError>
    ensures { IfOk result (λ line. string_bytes line
        ≡ space_line width kind minimum maximum length) }
{
    let word = width_text(width);
    format!(in alloc; "{word} space type {kind} 0x{minimum:x} 0x{maximum:x} length {length}\n")
}
