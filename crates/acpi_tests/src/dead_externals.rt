// Tables whose Externals stand within an `If (Zero)`, as compilers write them.

use acpi_samples::{changed, table_of};
use aml_externals::{is_dead_if, open_dead_externals};
use std::alloc::{AllocError, Global};
use std::test::Fail;

/// What stands behind the header, and the places of the Ifs that are opened.
const ROWS: &[(&[u8], &[usize])] = &[
    // One External.
    (b"\xa0\x09\x00\x15FOO1\x08\x01", &[36]),
    // Externals of other names and types: FOO1, \_SB_.DEV0, ^UP01.
    (
        b"\xa0\x1e\x00\x15FOO1\x08\x01\x15\x5c\x2e_SB_DEV0\x06\x00\x15^UP01\x00\x00",
        &[36],
    ),
    // Two Ifs, and a Name between.
    (
        b"\xa0\x09\x00\x15FOO1\x08\x01\x08INT0\x0a\x07\xa0\x09\x00\x15FOO1\x08\x01",
        &[36, 53],
    ),
    // In a Device, and behind it.
    (
        b"\x5b\x82\x1dDEV0\x08INT0\x0a\x07\xa0\x09\x00\x15FOO1\x08\x01\x08INT1\x0a\x07\
        \xa0\x09\x00\x15FOO1\x08\x01",
        &[50, 67],
    ),
    // In a Device in a Scope.
    (
        b"\x10\x14\x5c\x00\x5b\x82\x0fDEV0\xa0\x09\x00\x15FOO1\x08\x01",
        &[47],
    ),
    // In a Processor.
    (
        b"\x5b\x83\x15CPU0\x01\x10\x08\x00\x00\x06\xa0\x09\x00\x15FOO1\x08\x01",
        &[49],
    ),
    // In a PowerResource.
    (
        b"\x5b\x84\x12PWR0\x01\x02\x00\xa0\x09\x00\x15FOO1\x08\x01",
        &[46],
    ),
    // In a ThermalZone.
    (b"\x5b\x85\x0fTHZ0\xa0\x09\x00\x15FOO1\x08\x01", &[43]),
    // Behind an Alias, a Mutex, an Event, an External and CreateField forms.
    (
        b"\x06_SB_ALS0\x5b\x01MUT0\x00\x5b\x02EVT0\x15FOO1\x08\x01\x8cBUF0\x0a\x02BYT0\
        \x5b\x13BUF0\x00\x0a\x04BIT0\xa0\x09\x00\x15FOO1\x08\x01",
        &[89],
    ),
    // Behind a region whose place is a sum, one of a table, and a field list.
    (
        b"\x5b\x80REG0\x00\x72FOO1\x0a\x10\x00\x0b\x00\x01\x5b\x88REG1\x0dABCD\x00\x0d\x00\
        \x0d\x00\x5b\x81\x0bREG0\x01FLD0\x08\xa0\x09\x00\x15FOO1\x08\x01",
        &[83],
    ),
    // Behind a region whose place is a Load in 62 Nots, as deep as a term may be: its target is
    // none.
    (
        b"\x5b\x80REG0\x00\
        \x80\x80\x80\x80\x80\x80\x80\x80\x80\x80\x80\x80\x80\x80\x80\x80\x80\x80\x80\x80\
        \x80\x80\x80\x80\x80\x80\x80\x80\x80\x80\x80\x80\x80\x80\x80\x80\x80\x80\x80\x80\
        \x80\x80\x80\x80\x80\x80\x80\x80\x80\x80\x80\x80\x80\x80\x80\x80\x80\x80\x80\x80\
        \x80\x80\
        \x5b\x20FOO1\x00\
        \x00\x00\x00\x00\x00\x00\x00\x00\x00\x00\x00\x00\x00\x00\x00\x00\x00\x00\x00\x00\
        \x00\x00\x00\x00\x00\x00\x00\x00\x00\x00\x00\x00\x00\x00\x00\x00\x00\x00\x00\x00\
        \x00\x00\x00\x00\x00\x00\x00\x00\x00\x00\x00\x00\x00\x00\x00\x00\x00\x00\x00\x00\
        \x00\x00\
        \x00\xa0\x09\x00\x15FOO1\x08\x01",
        &[175],
    ),
    // Behind a string, a buffer and a package, in which opcodes of an If are data.
    (
        b"\x08STR0\x0dab\x21\x00\x08BUF0\x11\x06\x0a\x03\xa0\x09\x00\x08PKG0\x12\x07\x02\
        \x00INT0\xa0\x09\x00\x15FOO1\x08\x01",
        &[71],
    ),
    // Twenty Externals, of 0 to 7 arguments: a package length of two bytes.
    (
        b"\xa0\x4f\x08\x00\x15FO00\x08\x00\x15FO01\x08\x01\x15FO02\x08\x02\x15FO03\x08\x03\
        \x15FO04\x08\x04\x15FO05\x08\x05\x15FO06\x08\x06\x15FO07\x08\x07\x15FO08\x08\x00\
        \x15FO09\x08\x01\x15FO10\x08\x02\x15FO11\x08\x03\x15FO12\x08\x04\x15FO13\x08\x05\
        \x15FO14\x08\x06\x15FO15\x08\x07\x15FO16\x08\x00\x15FO17\x08\x01\x15FO18\x08\x02\
        \x15FO19\x08\x03",
        &[36],
    ),
    // A Name behind the External.
    (b"\xa0\x10\x00\x15FOO1\x08\x01\x08INT0\x0a\x07", &[]),
    // A Name before it.
    (b"\xa0\x10\x00\x08INT0\x0a\x07\x15FOO1\x08\x01", &[]),
    // An Else; another If behind it stays too, as what stands behind any statement.
    (
        b"\xa0\x09\x00\x15FOO1\x08\x01\xa1\x01\xa0\x09\x00\x15FOO1\x08\x01",
        &[],
    ),
    // The test One.
    (b"\xa0\x09\x01\x15FOO1\x08\x01", &[]),
    // Zero in another spelling.
    (b"\xa0\x0a\x0a\x00\x15FOO1\x08\x01", &[]),
    // An If in an If.
    (b"\xa0\x0c\x00\xa0\x09\x00\x15FOO1\x08\x01", &[]),
    // No External.
    (b"\xa0\x02\x00", &[]),
    // A part of an External.
    (b"\xa0\x08\x00\x15FOO1\x08", &[]),
    // In a method, and another behind the method.
    (
        b"\x14\x10M000\x00\xa0\x09\x00\x15FOO1\x08\x01\xa0\x09\x00\x15FOO1\x08\x01",
        &[53],
    ),
    // Behind a statement.
    (b"\xa3\xa0\x09\x00\x15FOO1\x08\x01", &[]),
    // Behind a byte that is no opcode.
    (b"\x02\xa0\x09\x00\x15FOO1\x08\x01", &[]),
    // In a Device behind a statement, and another behind the Device.
    (
        b"\x5b\x82\x10DEV0\xa3\xa0\x09\x00\x15FOO1\x08\x01\xa0\x09\x00\x15FOO1\x08\x01",
        &[54],
    ),
    // Past the end of the Device in which it begins.
    (b"\x5b\x82\x09DEV0\xa0\x09\x00\x15FOO1\x08\x01", &[]),
];

/// A DSDT with such a module, and what becomes of it: each of the places holds a Scope's opcode,
/// and the checksum fits.
fn made(alloc: Global, module: &[u8], places: &[usize]) -> Result<(Vec<u8>, Vec<u8>), AllocError> {
    let table = table_of(alloc, *b"DSDT", 2, module)?;
    let mut wanted = module.to_vec(alloc)?;
    for place in places {
        if let Some(byte) = wanted.get_mut(place.saturating_sub(36)) {
            *byte = 0x10;
        }
    }
    Ok((table, table_of(alloc, *b"DSDT", 2, &wanted)?))
}

/// The places of a table at which an If stands that is opened.
fn dead_places(alloc: Global, table: &[u8]) -> Result<Vec<usize>, AllocError> {
    let mut places = Vec::new(alloc);
    for at in 0..table.len() {
        if is_dead_if(table, at) {
            places.push(at)?;
        }
    }
    Ok(places)
}

/// How many Ifs are opened, and whether the table is then the one that is wanted.
fn opened(table: &mut [u8], wanted: &[u8]) -> (usize, bool) {
    let count = open_dead_externals(table);
    (count, *table == *wanted)
}

#[test]
fn dead_ifs(rt: HostRuntime) -> Result<(), Fail> {
    for (module, places) in ROWS {
        let (mut table, wanted) = made(rt.alloc(), module, places)?;
        let told = dead_places(rt.alloc(), &table)?;
        let first = opened(&mut table, &wanted);
        let again = opened(&mut table, &wanted);
        assert_eq!(rt;
            (told.as_slice(), first, again),
            (*places, (places.len(), true), (0, true)),
            "{module:?}"
        );
    }
    Ok(())
}

/// A table, and the same twice of which a byte of the header is another.
fn faulty(alloc: Global, place: usize) -> Result<[Vec<u8>; 3], AllocError> {
    let table = table_of(alloc, *b"SSDT", 2, b"\xa0\x09\x00\x15FOO1\x08\x01")?;
    let faulty = changed(alloc, &table, &[(place, 0x99)])?;
    let other = changed(alloc, &table, &[(place, 0x99)])?;
    Ok([table, faulty, other])
}

/// A table of which a byte of the header is another stays as it is, and no If of it is told.
#[test]
fn faulty_headers(rt: HostRuntime) -> Result<(), Fail> {
    for place in [4, 9, 20] {
        let [table, faulty, mut other] = faulty(rt.alloc(), place)?;
        let told = [is_dead_if(&table, 36), is_dead_if(&faulty, 36)];
        assert_eq!(rt;
            (told, opened(&mut other, &faulty)),
            ([true, false], (0, true))
        );
    }
    Ok(())
}
