// A table that was read.

use acpi_tables::{Fadt, Header, Madt, Rsdp, Xsdt};

/// A table that was read, with what is listed of it.
#[derive(Clone, Copy, Debug)]
pub enum Table<'a> {
    /// The pointer from which the others are found.
    Rsdp(Rsdp<'a>),
    /// The firmware control structure, which has no header's sum and is left out.
    Facs,
    /// An XSDT, with the addresses of the others.
    Xsdt(Xsdt<'a>),
    /// A FADT, with the fixed fields.
    Fadt(Fadt<'a>),
    /// A MADT, with the interrupt controllers.
    Madt(Madt<'a>),
    /// Any other table, by its header.
    Other(Header<'a>),
}
