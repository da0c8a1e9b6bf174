// Readers' calls that the program does not show. What it prints of tables, and their faults, are
// told by the rows of crates/acpicheck/rows.

use acpi_samples::{DSDT, table_of};
use acpi_tables::{
    Entry, Isa, Madt, TableCause, TableFault, Xsdt, read_table, structures_are_found,
};
use std::test::Fail;

/// A table is read as one of another signature.
#[test]
fn signatures(rt: HostRuntime) -> Result<(), Fail> {
    let other = TableFault {
        cause: TableCause::BadSignature,
        at: 0,
    };
    assert_eq!(rt; read_table(&DSDT, b"DSDT")?.length, 48);
    assert_eq!(rt; Madt::read(&DSDT).err(), Some(other));
    Ok(())
}

/// The addresses 10 and 2000000000000000.
const ADDRESSES: [u8; 16] = [0x10, 0, 0, 0, 0, 0, 0, 0, 0, 0, 0, 0, 0, 0, 0, 0x20];

#[test]
fn xsdts(rt: HostRuntime) -> Result<(), Fail> {
    let table = table_of(rt.alloc(), *b"XSDT", 1, &ADDRESSES)?;
    let xsdt = Xsdt::read(&table)?;
    let wanted = [Some(0x10), Some(0x2000_0000_0000_0000), None];
    let mut addresses = xsdt.entries();
    let found = [addresses.next(), addresses.next(), addresses.next()];
    assert!(rt; !xsdt.is_empty());
    assert_eq!(rt; found, wanted);
    assert_eq!(rt; [xsdt.entry(0), xsdt.entry(1), xsdt.entry(2)], wanted);
    Ok(())
}

/// A MADT: the local APICs at FEE00000, flags of 1, an override of the interrupt 9 by 20 with flags
/// of F, and four bytes of type 127.
const MADT: [u8; 58] = [
    0x41, 0x50, 0x49, 0x43, 0x3a, 0x00, 0x00, 0x00, 0x01, 0x0e, 0x00, 0x00, 0x00, 0x00, 0x00, 0x00,
    0x00, 0x00, 0x00, 0x00, 0x00, 0x00, 0x00, 0x00, 0x00, 0x00, 0x00, 0x00, 0x00, 0x00, 0x00, 0x00,
    0x00, 0x00, 0x00, 0x00, 0x00, 0x00, 0xe0, 0xfe, 0x01, 0x00, 0x00, 0x00, 0x02, 0x0a, 0x00, 0x09,
    0x14, 0x00, 0x00, 0x00, 0x0f, 0x00, 0x7f, 0x04, 0x00, 0x00,
];

#[test]
fn madts(rt: HostRuntime) -> Result<(), Fail> {
    let madt = Madt::read(&MADT)?;
    let first = Entry::InterruptSourceOverride {
        bus: 0,
        source: 9,
        number: 20,
        flags: 0xf,
    };
    let second = Entry::Other {
        kind: 127,
        length: 4,
    };
    let wanted = [Some(first), Some(second), None];
    let mut entries = madt.entries();
    let found = [entries.next(), entries.next(), entries.next()];
    assert_eq!(rt; found, wanted);
    assert_eq!(rt; [madt.entry(0), madt.entry(1), madt.entry(2)], wanted);
    structures_are_found();
    Ok(())
}

/// Interrupt 9 is 20, level and low; 4 is itself, edge and high.
#[test]
fn routes(rt: HostRuntime) -> Result<(), Fail> {
    let madt = Madt::read(&MADT)?;
    let level = Isa {
        number: 20,
        edge: false,
        low: true,
    };
    let own = Isa {
        number: 4,
        edge: true,
        low: false,
    };
    assert_eq!(rt; [madt.isa_route(9), madt.isa_route(4)], [level, own]);
    Ok(())
}
