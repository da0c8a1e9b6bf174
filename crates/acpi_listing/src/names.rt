// The command `names`.

ghost use Rattle.acpi_listing.specs.Commands.{ListsNames};
ghost use Rattle.acpi_listing.specs.Steps.{Writes};

use crate::load::load;
use crate::stop::Stop;
use acpi_sources::{InputNames, Inputs, Source, Status};
use acpi_text::list_names;
use acpi_words::Notes;
use std::alloc::Global;
use std::io::Write;

/// Prints the names of a DSDT and its SSDTs.
pub(crate) fn list_names_of<F: Source, N: Notes, W: Write>(
    alloc: Global,
    names: &InputNames<'_>,
    files: &mut F,
    notes: &N,
    out: &mut W,
) -> Result<Status, Stop>
    ensures { Writes (ListsNames F.answers names.now)
        files.old files.new (W.contents out.old) (W.contents out.new) result }
{
    let inputs = Inputs::read(alloc, names, files)?;
    let namespace = load(alloc, &inputs, names, &[], notes)?;
    list_names(alloc, out, &namespace)?;
    Ok(Status::Done)
}
