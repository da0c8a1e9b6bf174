// The kinds of methods' arguments, as a file tells them.

ghost use Rattle.std.specs.Prelude.{option_map};
ghost use Rattle.acpi_listing.specs.Signatures.{OpensSignatures, TellsKinds};

use crate::tell::tell_signatures;
use acpi_sources::{Fault, Source, read_within_limit};
use acpi_words::Notes;
use aml_signatures::Signatures;
use std::alloc::Global;

/// The kinds of arguments that the text of the file of that name tells; without a name nothing is
/// told.
///
/// Faults: E523 of a file that cannot be read or is too large; E501 with the number of the first
/// bad line; E524.
pub(crate) fn read_signatures<F: Source, N: Notes>(
    alloc: Global,
    name: Option<&str>,
    files: &mut F,
    notes: &N,
) -> Result<Signatures, Fault>
    ensures { OpensSignatures F.answers files.old (option_map (λ text. text.now) name.entry)
        result files.new }
{
    let Some(name) = name else {
        return Ok(Signatures::new(alloc));
    };
    let text = read_within_limit(files, name)?;
    let read = signatures_of(alloc, &text);
    if let Err(fault) = &read {
        tell_signatures(alloc, notes, name, *fault);
    }
    read
}

// The kinds that a text tells.
fn signatures_of(alloc: Global, text: &[u8]) -> Result<Signatures, Fault>
    ensures { TellsKinds text.now result }
{
    let signatures = Signatures::read(alloc, text)?;
    Ok(signatures)
}
