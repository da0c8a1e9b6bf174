// The command `tables`: files that are read and listed one after the other.

ghost use Rattle.std.specs.Prelude.{map};
ghost use Rattle.acpi_listing.specs.Files.{ListsFile, ListsFiles};
ghost use Rattle.acpi_listing.specs.Steps.{Writes};

use crate::stop::Stop;
use crate::tell::tell_table;
use acpi_sources::{Fault, Source, Status, read_any_table, read_within_limit};
use acpi_text::list_tables;
use acpi_words::Notes;
use std::alloc::Global;
use std::io::Write;

/// Lists files one by one, each read when those before it were listed.
pub(crate) fn list_files<F: Source, N: Notes, W: Write>(
    alloc: Global,
    names: &[&str],
    files: &mut F,
    notes: &N,
    out: &mut W,
) -> Result<Status, Stop>
    ensures { Writes (ListsFiles F.answers 0 (map (λ name. name.now) names.now))
        files.old files.new (W.contents out.old) (W.contents out.new) result }
{
    for (number, name) in names.iter().enumerate() {
        list_file(alloc, number, name, files, notes, out)?;
    }
    Ok(Status::Done)
}

fn list_file<F: Source, N: Notes, W: Write>(
    alloc: Global,
    number: usize,
    name: &str,
    files: &mut F,
    notes: &N,
    out: &mut W,
) -> Result<(), Stop>
    ensures { Writes (ListsFile F.answers number name.now)
        files.old files.new (W.contents out.old) (W.contents out.new) result }
{
    let bytes = read_within_limit(files, name)?;
    match read_any_table(&bytes) {
        Ok(table) => Ok(list_tables(alloc, out, &[table])?),
        Err(fault) => {
            tell_table(alloc, notes, number, name, &bytes, fault);
            Err(Stop::Fault(Fault::of_table(number, fault)))
        }
    }
}
