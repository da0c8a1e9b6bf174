// The namespace of the tables that a command has read.

ghost use Rattle.std.specs.Prelude.{◌≡◌, IfOk, length, map, vec_items};
ghost use Rattle.acpi_sources.specs.Inputs.{tables_of};
ghost use Rattle.acpi_listing.specs.Loading.{FailsToLoad, IsNamespace};
ghost use Rattle.acpi_sources.specs.Faults.{Tries};
ghost use Rattle.aml_namespace.specs.Shows.{bytes_in, shown};

use crate::tell::tell_load;
use acpi_notes::Files;
use acpi_sources::{Fault, InputNames, Inputs};
use acpi_words::Notes;
use aml_namespace::{Host, LoadFault, Namespace};
use std::alloc::{AllocError, Global};

/// The text of `_OS_`.
const OS_NAME: &[u8] = b"acpicheck";

/// Loads the tables that were read from files of these names, each with its number in the order of
/// the files, with the texts that `_OSI` knows.
///
/// Faults: E101 to E104, E201 to E209, E301 to E304, with table and place; E524.
pub(crate) fn load<'a, N: Notes>(
    alloc: Global,
    inputs: &'a Inputs,
    names: &InputNames<'_>,
    osi: &'a [&'a [u8]],
    notes: &N,
) -> Result<Namespace<'a>, Fault>
    ensures { let tables = tables_of inputs.now in
        Tries (λ ns. IsNamespace (bytes_in osi.entry.now) tables (shown ns)) (FailsToLoad tables)
        result }
{
    let tables = slices_of(alloc, inputs.files.as_slice())?;
    let host = Host { os: OS_NAME, osi };
    match Namespace::load(alloc, tables.as_slice(), host) {
        Ok(namespace) => Ok(namespace),
        Err(fault) => {
            if let LoadFault::Refused(refusal) = fault {
                let names = names.files.as_slice();
                let tables = inputs.files.as_slice();
                tell_load(alloc, notes, Files { names, tables }, refusal);
            }
            Err(Fault::from(fault))
        }
    }
}

/// The same, for who reads bodies: it is counted once how many arguments the methods take that
/// tables declare as others'.
///
/// Faults: those of `load`.
pub(crate) fn load_counted<'a, N: Notes>(
    alloc: Global,
    inputs: &'a Inputs,
    names: &InputNames<'_>,
    osi: &'a [&'a [u8]],
    notes: &N,
) -> Result<Namespace<'a>, Fault>
    ensures { let tables = tables_of inputs.now in
        Tries (λ ns. IsNamespace (bytes_in osi.entry.now) tables (shown ns)) (FailsToLoad tables)
        result }
{
    let mut namespace = load(alloc, inputs, names, osi, notes)?;
    namespace.count_externals(alloc)?;
    Ok(namespace)
}

fn slices_of(alloc: Global, files: &[Vec<u8>]) -> Result<Vec<&[u8]>, AllocError>
    ensures same { IfOk result (λ slices. bytes_in slices.items ≡ map vec_items files.now) }
    ensures count { IfOk result (λ slices. length slices.items ≡ length files.now) }
{
    let mut slices = Vec::new(alloc);
    for file in files {
        slices.push(file.as_slice())?;
    }
    Ok(slices)
}
