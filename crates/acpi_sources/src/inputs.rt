// The tables that a command reads.

ghost use Rattle.std.specs.Prelude.{◌<◌, length};

use crate::fault::Fault;
use crate::source::{Source, read_files};
use std::alloc::Global;

/// The names of the tables that a command reads, in the order of reading.
#[derive(Debug, Drop)]
pub struct InputNames<'a> {
    /// Whether Externals are read that stand in an If that never runs.
    pub dead_externals: bool,
    /// The file of the DSDT, and those of the SSDTs behind it.
    pub files: Vec<&'a str>,
    pub ghost some: { 0 < length files.items },
}

/// The tables that a command has read.
#[derive(Debug, Drop)]
pub struct Inputs {
    /// The bytes of the DSDT, and of the SSDTs behind it.
    pub files: Vec<Vec<u8>>,
    pub ghost some: { 0 < length files.items },
}

impl Inputs {
    ghost use Rattle.acpi_sources.specs.Inputs.{OpensInputs};

    /// Reads the files that are named, in their order; where that is wanted, with the Ifs round
    /// their Externals opened.
    ///
    /// The first fault ends it: E523 of a file that cannot be read or is too large, E524.
    pub fn read<F: Source>(
        alloc: Global,
        names: &InputNames<'_>,
        files: &mut F,
    ) -> Result<Self, Fault>
        ensures { OpensInputs F.answers files.old names.now result files.new }
    {
        Ok(Inputs {
            files: read_files(alloc, names.files.as_slice(), names.dead_externals, files)?,
        })
    }
}
