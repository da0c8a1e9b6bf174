// The registers over which a method is evaluated.

ghost use Rattle.std.specs.Prelude.{◌≡◌, [], IfOk, option_map, vec_items};
ghost use Rattle.aml_regions.specs.Registers.{contents};
ghost use Rattle.aml_regions.specs.Text.{TextSets};
ghost use Rattle.acpi_listing.specs.Registers.{OpensRegisters, SetsRegisters};

use crate::tell::tell_registers;
use acpi_sources::{Fault, Source, read_within_limit};
use acpi_words::Notes;
use aml_registers::Registers;
use std::alloc::Global;

/// The registers that the text of the file of that name sets; without a name all are 0.
///
/// Faults: E523 of a file that cannot be read or is too large; E511 with the number of the first
/// bad line; E524.
pub(crate) fn read_registers<F: Source, N: Notes>(
    alloc: Global,
    name: Option<&str>,
    files: &mut F,
    notes: &N,
) -> Result<Registers, Fault>
    ensures read { OpensRegisters F.answers files.old (option_map (λ text. text.now) name.entry)
        result files.new }
    ensures set { IfOk result (λ r. TextSets r.text.items (contents r.file)) }
    ensures fresh { IfOk result (λ r. r.file.events.items ≡ []) }
{
    let Some(name) = name else {
        return Ok(Registers::new(alloc));
    };
    let text = read_within_limit(files, name)?;
    let read = set_registers(alloc, text);
    if let Err(fault) = &read {
        tell_registers(alloc, notes, name, *fault);
    }
    read
}

// The registers that a text sets.
fn set_registers(alloc: Global, text: Vec<u8>) -> Result<Registers, Fault>
    ensures sets { SetsRegisters (vec_items text) result }
    ensures set { IfOk result (λ r. TextSets r.text.items (contents r.file)) }
    ensures fresh { IfOk result (λ r. r.file.events.items ≡ []) }
{
    let registers = Registers::read_text(alloc, text)?;
    Ok(registers)
}
