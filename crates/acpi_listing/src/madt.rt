// The interrupt controllers of a file.

ghost use Rattle.std.specs.Prelude.{option_map};
ghost use Rattle.acpi_listing.specs.Madt.{OpensControllers, ReadsMadt, file_of, lent};

use crate::tell::tell_madt;
use acpi_sources::{Fault, Source, read_within_limit};
use acpi_tables::Madt;
use acpi_words::Notes;
use std::alloc::Global;

/// The bytes of the file of that name; without a name there are none.
///
/// Faults: E523 of a file that cannot be read or is too large; E524.
pub(crate) fn read_controllers<F: Source>(
    name: Option<&str>,
    files: &mut F,
) -> Result<Option<Vec<u8>>, Fault>
    ensures { OpensControllers F.answers files.old (option_map (λ text. text.now) name.entry)
        (file_of result) files.new }
{
    let Some(name) = name else {
        return Ok(None);
    };
    let bytes = read_within_limit(files, name)?;
    Ok(Some(bytes))
}

/// The MADT that fills the bytes of the file of that name, where there are some.
///
/// Faults: E101 to E105, with the byte alone.
pub(crate) fn madt_of<'a, N: Notes>(
    alloc: Global,
    name: Option<&str>,
    bytes: &'a Option<Vec<u8>>,
    notes: &N,
) -> Result<Option<Madt<'a>>, Fault>
    ensures { ReadsMadt (lent bytes.entry.now) result }
{
    let Some(bytes) = bytes else {
        return Ok(None);
    };
    match Madt::read(bytes) {
        Ok(madt) => Ok(Some(madt)),
        Err(fault) => {
            tell_madt(alloc, notes, name, bytes, fault);
            Err(Fault::of_bytes(fault))
        }
    }
}
