// A file's bytes, read as the table that they are.

ghost use Rattle.std.specs.Prelude.{◌≡◌, ◌↔◌, ◌≤◌, IsOk, IfOk, IfErr, Some, length};
ghost use Rattle.acpi_tables.specs.Fault.{first_fault};
ghost use Rattle.acpi_sources.specs.Reading.{file_kind, IsReadable, Says, file_checks};

use acpi_tables::{Fadt, Header, Madt, Rsdp, TableFault, Xsdt};
use acpi_text::Table;

/// Which table a file is, by its first bytes.
#[derive(Clone, Copy, Debug, PartialEq, Eq)]
pub(crate) enum FileKind {
    /// It begins with `RSD PTR `.
    Rsdp,
    /// It begins with `FACS`.
    Facs,
    /// It begins with `XSDT`.
    Xsdt,
    /// It begins with `FACP`.
    Fadt,
    /// It begins with `APIC`.
    Madt,
    /// Any other.
    Other,
}

impl FileKind {
    /// The kind of a file.
    pub fn of(bytes: &[u8]) -> Self
        ensures { result ≡ file_kind bytes.now }
    {
        if bytes.starts_with(b"RSD PTR ") {
            FileKind::Rsdp
        } else if bytes.starts_with(b"FACS") {
            FileKind::Facs
        } else if bytes.starts_with(b"XSDT") {
            FileKind::Xsdt
        } else if bytes.starts_with(b"FACP") {
            FileKind::Fadt
        } else if bytes.starts_with(b"APIC") {
            FileKind::Madt
        } else {
            FileKind::Other
        }
    }
}

/// Reads a file as the table that its first bytes name: an RSDP, an XSDT, a FADT or a MADT with its
/// contents, an FACS not at all, any other by its header.
///
/// The faults are those of that table's reader, E101 to E105.
pub fn read_any_table(bytes: &[u8]) -> Result<Table<'_>, TableFault>
    ensures table { IsOk result ↔ IsReadable (file_kind bytes.now) bytes.now }
    ensures says { IfOk result (λ table. Says (file_kind bytes.now) bytes.now table) }
    ensures fault { IfErr result
        (λ fault. first_fault (file_checks (file_kind bytes.now) bytes.now) ≡ Some fault) }
    ensures place { IfErr result (λ fault. fault.at ≤ length bytes.now) }
{
    match FileKind::of(bytes) {
        FileKind::Rsdp => Ok(Table::Rsdp(Rsdp::read(bytes)?)),
        FileKind::Facs => Ok(Table::Facs),
        FileKind::Xsdt => Ok(Table::Xsdt(Xsdt::read(bytes)?)),
        FileKind::Fadt => Ok(Table::Fadt(Fadt::read(bytes)?)),
        FileKind::Madt => Ok(Table::Madt(Madt::read(bytes)?)),
        FileKind::Other => Ok(Table::Other(Header::read(bytes)?)),
    }
}
