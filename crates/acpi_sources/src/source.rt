// Where a command's files come from.

ghost use Rattle.std.specs.Prelude.{◌≡◌, ℕ, List, Result, IfOk, length, map};
ghost use Rattle.acpi_sources.specs.Files.{Opens, OpensAll, bytes_of, files_of, prepared};
ghost use Rattle.acpi_sources.specs.declared.source.SourceFault.{SourceFault};

use crate::fault::{Fault, FaultCause};
use crate::input::INPUT_LIMIT;
use aml_externals::open_dead_externals;
use std::alloc::Global;
use thiserror::Error;

/// Why a file has no bytes.
#[derive(Clone, Copy, Debug, PartialEq, Eq, Error)]
pub enum SourceFault {
    /// It cannot be read; of the disk also that it is larger than [`crate::INPUT_LIMIT`].
    #[error("the file cannot be read")]
    File,
    #[error("no memory")]
    NoMemory,
}

/// Where a command's files come from.
pub trait Source {
    // What a source may answer to a name, and the source that is then left. Where nothing is said,
    // anything.
    ghost answers: { Self → List ℕ → Result (List ℕ) SourceFault → Self → Type 0 } = { λ _ _ _ _. Unit {0} };

    /// The bytes of the file of that name.
    fn read(&mut self, name: &str) -> Result<Vec<u8>, SourceFault>
        ensures { answers self.old name.now (bytes_of result) self.new };
}

/// Reads a file of at most [`INPUT_LIMIT`] bytes.
///
/// Faults: E523 where it cannot be read or is larger, E524 where memory is wanted.
pub fn read_within_limit<F: Source>(files: &mut F, name: &str) -> Result<Vec<u8>, Fault>
    ensures { Opens F.answers files.old name.now (bytes_of result) files.new }
{
    let bytes = files.read(name)?;
    if bytes.len() > INPUT_LIMIT {
        return Err(Fault::nowhere(FaultCause::File));
    }
    Ok(bytes)
}

// Reads a table of at most `INPUT_LIMIT` bytes that is to be loaded.
fn read_table_file<F: Source>(
    files: &mut F,
    name: &str,
    dead_externals: bool,
) -> Result<Vec<u8>, Fault>
    ensures { Opens (prepared dead_externals F.answers) files.old name.now (bytes_of result)
        files.new }
{
    let table = read_prepared(files, name, dead_externals)?;
    if table.len() > INPUT_LIMIT {
        return Err(Fault::nowhere(FaultCause::File));
    }
    Ok(table)
}

// Reads a table; where that is wanted, with the Ifs round its Externals opened.
fn read_prepared<F: Source>(
    files: &mut F,
    name: &str,
    dead_externals: bool,
) -> Result<Vec<u8>, SourceFault>
    ensures { prepared dead_externals F.answers files.old name.now (bytes_of result) files.new }
{
    let mut bytes = files.read(name)?;
    if !dead_externals {
        return Ok(bytes);
    }
    open_dead_externals(&mut bytes);
    Ok(bytes)
}

/// Reads tables of at most [`INPUT_LIMIT`] bytes each, one after the other; where that is wanted,
/// with the Ifs round their Externals opened.
pub(crate) fn read_files<F: Source>(
    alloc: Global,
    names: &[&str],
    dead_externals: bool,
    files: &mut F,
) -> Result<Vec<Vec<u8>>, Fault>
    ensures read { OpensAll (prepared dead_externals F.answers) files.old
        (map (λ name. name.now) names.now) (files_of result) files.new }
    ensures count { IfOk result (λ read. length read.items ≡ length names.now) }
{
    let mut read = Vec::new(alloc);
    for name in names {
        read.push(read_table_file(files, name, dead_externals)?)?;
    }
    Ok(read)
}
