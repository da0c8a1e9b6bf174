// The fields of buffers of a table, by tables written by hand from the grammar (ACPI 6.5, 19.6 and
// 20.2.5.2), and stored bytes, worked out bit by bit. Values are told by the rows of
// crates/acpicheck/rows.

use acpi_samples::{HOST, table_of};
use aml_fields::{buffer_field_numbered, made_buffer_field, stored_byte, usable_buffer_field};
use aml_meaning::BufferField;
use aml_namespace::{CreatedFieldSize, Link, LoadFault, Namespace, Width};
use std::alloc::{AllocError, Global};
use std::test::Fail;

/// Name (BUF0, Buffer (8) {}).
const BUFFER: &[u8] = b"\x08BUF0\x11\x03\x0a\x08";

/// Name (INT0, 1) and Device (DEV0) {}.
const OTHERS: &[u8] = b"\x08INT0\x01\x5b\x82\x05DEV0";

/// A definition of FLD0; and whether its source is a data name, the byte and the bit there at which
/// it begins, and its number of bits.
const ROWS: [(&[u8], Option<(bool, u64, u8, u64)>); 19] = [
    (b"\x8dBUF0\x0a\x05FLD0", Some((true, 0, 5, 1))),
    (b"\x8dBUF0\x0a\x17FLD0", Some((true, 2, 7, 1))),
    (b"\x8cBUF0\x0a\x05FLD0", Some((true, 5, 0, 8))),
    (b"\x8bBUF0\x0a\x05FLD0", Some((true, 5, 0, 16))),
    (b"\x8aBUF0\x0a\x05FLD0", Some((true, 5, 0, 32))),
    (b"\x8fBUF0\x0a\x05FLD0", Some((true, 5, 0, 64))),
    (b"\x5b\x13BUF0\x0a\x05\x0a\x0bFLD0", Some((true, 0, 5, 11))),
    (b"\x5b\x13BUF0\x0a\x1c\x0a\x0bFLD0", Some((true, 3, 4, 11))),
    // no bit, 2,048 of them and 2,049
    (b"\x5b\x13BUF0\x00\x00FLD0", None),
    (
        b"\x5b\x13BUF0\x00\x0b\x00\x08FLD0",
        Some((true, 0, 0, 2048)),
    ),
    (b"\x5b\x13BUF0\x00\x0b\x01\x08FLD0", None),
    // at the greatest index of bits, and at indices of bytes whose bits lie past 2^64
    (
        b"\x8dBUF0\x0e\xff\xff\xff\xff\xff\xff\xff\xffFLD0",
        Some((true, 0x1fff_ffff_ffff_ffff, 7, 1)),
    ),
    (
        b"\x8cBUF0\x0e\xff\xff\xff\xff\xff\xff\xff\x1fFLD0",
        Some((true, 0x1fff_ffff_ffff_ffff, 0, 8)),
    ),
    (
        b"\x8cBUF0\x0e\x00\x00\x00\x00\x00\x00\x00\x20FLD0",
        Some((true, 0x2000_0000_0000_0000, 0, 8)),
    ),
    (
        b"\x8fBUF0\x0e\xff\xff\xff\xff\xff\xff\xff\xffFLD0",
        Some((true, u64::MAX, 0, 64)),
    ),
    (
        b"\x5b\x13BUF0\x0e\xff\xff\xff\xff\xff\xff\xff\xff\x0b\x00\x08FLD0",
        Some((true, 0x1fff_ffff_ffff_ffff, 7, 2048)),
    ),
    // a source that is missing, of another kind, and no data
    (b"\x8cBUF1\x00FLD0", Some((false, 0, 0, 8))),
    (b"\x8cINT0\x00FLD0", Some((true, 0, 0, 8))),
    (b"\x8cDEV0\x00FLD0", Some((false, 0, 0, 8))),
];

/// A table of these definitions.
fn table(alloc: Global, definition: &[u8]) -> Result<Vec<u8>, AllocError> {
    let mut behind = Vec::new(alloc);
    behind.extend_from_slice(BUFFER)?;
    behind.extend_from_slice(OTHERS)?;
    behind.extend_from_slice(definition)?;
    table_of(alloc, *b"DSDT", 2, &behind)
}

/// Whether a source is a data name.
fn is_data(source: Link) -> bool {
    match source {
        Link::Data(_) => true,
        _ => false,
    }
}

/// The field FLD0 of a table.
fn buffer_field_in(
    alloc: Global,
    definition: &[u8],
) -> Result<Option<(bool, u64, u8, u64)>, LoadFault> {
    let table = match table(alloc, definition) {
        Ok(table) => table,
        Err(AllocError) => return Err(LoadFault::NoMemory),
    };
    let ns = Namespace::load(alloc, &[&table], HOST)?;
    let Some(id) = ns.find(b"\\FLD0") else {
        return Ok(Some((false, 0, 0, 0)));
    };
    match buffer_field_numbered(&ns, id) {
        Some(field) => Ok(Some((is_data(field.source), field.byte, field.bit, field.bits))),
        None => Ok(None),
    }
}

#[test]
fn rows_of_buffer_fields(rt: HostRuntime) -> Result<(), Fail> {
    for (definition, wanted) in ROWS {
        let found = match buffer_field_in(rt.alloc(), definition) {
            Err(LoadFault::NoMemory) => buffer_field_in(rt.alloc(), definition)?,
            found => found?,
        };
        assert_eq!(rt; found, wanted);
    }
    Ok(())
}

/// How wide integers are, a size and an index; and the byte, the bit there and the number of bits
/// of the field that they make.
const MADE: [(Width, CreatedFieldSize, u64, u64, u8, u64); 12] = [
    (Width::Bits64, CreatedFieldSize::Bit, 12, 1, 4, 1),
    (Width::Bits64, CreatedFieldSize::Byte, 12, 12, 0, 8),
    (Width::Bits64, CreatedFieldSize::Word, 12, 12, 0, 16),
    (Width::Bits64, CreatedFieldSize::DWord, 12, 12, 0, 32),
    (Width::Bits64, CreatedFieldSize::QWord, 12, 12, 0, 64),
    (Width::Bits64, CreatedFieldSize::Bits(9), 12, 1, 4, 9),
    (
        Width::Bits64,
        CreatedFieldSize::Bits(0x1_0000_0009),
        0x1_0000_0004,
        0x2000_0000,
        4,
        0x1_0000_0009,
    ),
    (
        Width::Bits32,
        CreatedFieldSize::Bits(0x1_0000_0009),
        0x1_0000_000c,
        1,
        4,
        9,
    ),
    (Width::Bits32, CreatedFieldSize::Bit, 0x1_0000_000c, 1, 4, 1),
    (
        Width::Bits32,
        CreatedFieldSize::QWord,
        0x1_0000_000c,
        12,
        0,
        64,
    ),
    (
        Width::Bits32,
        CreatedFieldSize::Byte,
        u64::MAX,
        0xffff_ffff,
        0,
        8,
    ),
    (
        Width::Bits64,
        CreatedFieldSize::Bit,
        u64::MAX,
        0x1fff_ffff_ffff_ffff,
        7,
        1,
    ),
];

#[test]
fn buffer_fields_are_made_of_sizes_and_indices(rt: HostRuntime) -> Result<(), Fail> {
    for (width, size, index, byte, bit, bits) in MADE {
        let field = made_buffer_field(width, Link::Own(3), size, index);
        let wanted = BufferField {
            source: Link::Own(3),
            byte,
            bit,
            bits,
        };
        assert_eq!(rt; field, wanted);
    }
    Ok(())
}

#[test]
fn buffer_fields_of_1_to_2048_bits_can_be_used(rt: HostRuntime) -> Result<(), Fail> {
    for (count, usable) in [(0, false), (1, true), (2048, true), (2049, false)] {
        let size = CreatedFieldSize::Bits(count);
        let field = made_buffer_field(Width::Bits64, Link::Missing, size, u64::MAX);
        let wanted = if usable { Some(field) } else { None };
        assert_eq!(rt; usable_buffer_field(field), wanted);
    }
    Ok(())
}

/// The bytes in which the fields lie.
const BYTES: [u8; 10] = [0xa5, 0x5a, 0xff, 0x00, 0x12, 0x34, 0x56, 0x78, 0x9a, 0xbc];

/// The byte and the bit at which a field of the bytes begins, its number of bits, what is stored,
/// and the bytes behind that.
const STORED: &[(u64, u8, u64, u64, [u8; 10])] = &[
    (
        0,
        0,
        8,
        0x11,
        [0x11, 0x5a, 0xff, 0x00, 0x12, 0x34, 0x56, 0x78, 0x9a, 0xbc],
    ),
    (
        1,
        3,
        12,
        0xabc,
        [0xa5, 0xe2, 0xd5, 0x00, 0x12, 0x34, 0x56, 0x78, 0x9a, 0xbc],
    ),
    (
        0,
        3,
        1,
        1,
        [0xad, 0x5a, 0xff, 0x00, 0x12, 0x34, 0x56, 0x78, 0x9a, 0xbc],
    ),
    (
        0,
        13,
        2,
        0,
        [0xa5, 0x1a, 0xff, 0x00, 0x12, 0x34, 0x56, 0x78, 0x9a, 0xbc],
    ),
    (
        0,
        7,
        66,
        0xffffffffffffffff,
        [0xa5, 0xff, 0xff, 0xff, 0xff, 0xff, 0xff, 0xff, 0x7f, 0xbc],
    ),
    (
        9,
        0,
        8,
        0x1ff,
        [0xa5, 0x5a, 0xff, 0x00, 0x12, 0x34, 0x56, 0x78, 0x9a, 0xff],
    ),
    (
        9,
        7,
        2048,
        0,
        [0xa5, 0x5a, 0xff, 0x00, 0x12, 0x34, 0x56, 0x78, 0x9a, 0x3c],
    ),
    (
        0x2000000000000000,
        0,
        64,
        0,
        [0xa5, 0x5a, 0xff, 0x00, 0x12, 0x34, 0x56, 0x78, 0x9a, 0xbc],
    ),
];

/// Whether a field's value leaves these bytes.
fn are_stored(made: BufferField, value: u64, wanted: &[u8; 10]) -> bool {
    let Some(field) = usable_buffer_field(made) else {
        return false;
    };
    for place in 0..10 {
        if stored_byte(field, place as u64, BYTES[place], &value) != wanted[place] {
            return false;
        }
    }
    true
}

#[test]
fn bytes_of_buffer_fields_are_stored(rt: HostRuntime) -> Result<(), Fail> {
    for (byte, bit, bits, value, wanted) in STORED {
        let made = BufferField {
            source: Link::Missing,
            byte: *byte,
            bit: *bit,
            bits: *bits,
        };
        assert!(rt; are_stored(made, *value, wanted), "{byte} {bit} {bits}");
    }
    Ok(())
}
