// Registers as a text sets them, and events as a letter, an address and a value.

use aml_paths::NoMemory;
use aml_regions::{Event, RegisterFile, RegistersFault};
use std::alloc::Global;

/// The registers that a text sets.
pub(crate) fn registers(alloc: Global, text: &str) -> Result<RegisterFile, NoMemory> {
    match RegisterFile::read_text(alloc, text.as_bytes()) {
        Ok(file) => Ok(file),
        Err(RegistersFault::NoMemory) => Err(NoMemory),
        Err(RegistersFault::BadRegs { .. }) => Ok(RegisterFile::new(alloc)),
    }
}

/// An event's letter, address and value.
pub(crate) fn part_of(event: &Event) -> (char, u64, u64) {
    match event {
        Event::Read(access, value) => ('r', access.address, *value),
        Event::Written(access, value) => ('w', access.address, *value),
        _ => ('?', 0, 0),
    }
}
