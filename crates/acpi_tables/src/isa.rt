// Where an ISA interrupt goes (ACPI 6.5, 5.2.12.5).

ghost use Rattle.std.specs.Prelude.{◌≡◌, Some};
ghost use Rattle.acpi_tables.specs.Isa.{route, overrides};

use crate::entry::Entry;

/// The global interrupt of an ISA interrupt, and how it is signalled.
#[derive(Clone, Copy, Debug, PartialEq, Eq)]
pub struct Isa {
    pub number: u32,
    /// Edge triggered, else level triggered.
    pub edge: bool,
    /// Active low, else active high.
    pub low: bool,
}

/// Whether the structure is an override of this ISA source.
pub(crate) fn is_override_of(entry: &Entry, source: u8) -> bool
    ensures { result ≡ overrides source entry.now }
{
    match entry {
        Entry::InterruptSourceOverride {
            bus,
            source: from,
            ..
        } => *bus == 0 && *from == source,
        _ => false,
    }
}

/// Where an override sends the source; with none the source keeps its number, edge and active high.
pub(crate) fn routed(source: u8, entry: Option<Entry>) -> Isa
    ensures { result ≡ route source entry }
{
    match entry {
        Some(Entry::InterruptSourceOverride { number, flags, .. }) => Isa {
            number,
            edge: flags >> 2 & 3 != 3,
            low: flags & 3 == 3,
        },
        _ => Isa {
            number: u32::from(source),
            edge: true,
            low: false,
        },
    }
}
