// The numbers of interrupts that an item lists.

ghost use Rattle.std.specs.Prelude.{◌≡◌, ◌<◌, [], ◌∷◌, ◌++◌, IfOk, OnOk, string_bytes};
ghost use Rattle.std.specs.List.{filter, flat_map};
ghost use Rattle.acpi_resources.specs.Interrupts.{has_irq, irqs};
ghost use Rattle.acpi_resource_text.specs.Lines.{behind_comma, numbers_text};

use acpi_resources::has_irq;
use std::alloc::{AllocError, Global};
use std::fmt::Write;

/// The interrupts of a mask, the least first.
pub(crate) fn irqs(alloc: Global, mask: u16) -> Result<Vec<u32>, AllocError>
    ensures { IfOk result (λ numbers. numbers.items ≡ irqs mask) }
{
    let mut numbers = Vec::new(alloc);
    for irq in 0..16 {
        push_irq(&mut numbers, mask, irq)?;
    }
    Ok(numbers)
}

// Adds an interrupt, if the mask has it.
fn push_irq(numbers: &mut Vec<u32>, mask: u16, irq: u8) -> Result<(), AllocError>
    requires { irq < 16 }
    ensures { OnOk result
        (numbers.new.items ≡ numbers.old.items ++ filter (has_irq mask) (irq ∷ [])) }
{
    if has_irq(mask, irq) {
        numbers.push(u32::from(irq))?;
    }
    Ok(())
}

/// Numbers with commas between them, `-` where there are none.
pub(crate) fn numbers_text(alloc: Global, numbers: &[u32]) -> Result<String, AllocError>
    ensures { IfOk result (λ text. string_bytes text ≡ numbers_text numbers.now) }
{
    let [first, rest @ ..] = numbers else {
        return format!(in alloc; "-");
    };
    let mut text = format!(in alloc; "{first}")?;
    push_numbers(&mut text, rest)?;
    Ok(text)
}

// Adds numbers, each behind a comma.
fn push_numbers(text: &mut String, numbers: &[u32]) -> Result<(), AllocError>
    ensures { OnOk result (string_bytes text.new
        ≡ string_bytes text.old ++ flat_map behind_comma numbers.now) }
{
    for number in numbers {
        push_number(text, *number)?;
    }
    Ok(())
}

fn push_number(text: &mut String, number: u32) -> Result<(), AllocError>
    ensures { OnOk result (string_bytes text.new ≡ string_bytes text.old ++ behind_comma number) }
{
    write!(text, ",{number}")
}
