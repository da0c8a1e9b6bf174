//! ACPI tables, read where they lie (ACPI 6.5, chapter 5.2).
//!
//! Each reader answers Ok just where the bytes are such a table, and else the fault that comes
//! first. No call takes memory.
//!
//! Rooms: `header` has the header that most tables begin with, `rsdp`, `xsdt`, `fadt` and `madt` a
//! table each, `entry` the structures of a MADT, `isa` where an ISA interrupt goes; `table` reads a
//! table that is asked for by its signature, `fault` says why one cannot be read, `bytes` sums
//! bytes, `law` has the law of structures.
#![tactic(auto)]

mod bytes;
mod entry;
mod fadt;
mod fault;
mod header;
mod isa;
mod law;
mod madt;
mod rsdp;
mod table;
mod xsdt;

pub use entry::{Entries, Entry};
pub use fadt::Fadt;
pub use fault::{TableCause, TableFault};
pub use header::Header;
pub use isa::Isa;
pub use law::structures_are_found;
pub use madt::Madt;
pub use rsdp::{Rsdp, RsdpExtension};
pub use table::read_table;
pub use xsdt::{Addresses, Xsdt};
