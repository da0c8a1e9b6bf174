// A write that ends at its limit, by a row that `bench/fields.py limit` works out bit by bit; which
// fields are sound; and the bits of a buffer. What fields are given and what is read of them is
// told by `field_bits.rows` of crates/acpicheck/rows.

use crate::logs::{part_of, registers};
use aml_fields::{
    read_buffer_field, read_count, read_integer_field, sound, write_buffer_field, write_count,
    write_field,
};
use aml_paths::NoMemory;
use aml_regions::{AnyField, Event, FieldLayout, OtherBits, RegionField, RegisterFile, UnitWidth};
use std::test::Fail;

/// What the registers hold of which the field's three units are made.
const REGISTERS: &str = "mem 10 1d66aff8418ad31c65aef740";

/// The integer that the field is given.
const VALUE: u64 = 0xfedc_ba98_7654_3211;

/// 64 bits from bit 5 on, by units of 32 under Preserve.
const FIELD: AnyField = AnyField::Plain(RegionField {
    space: 0,
    place: 0x10,
    length: 280,
    layout: FieldLayout {
        at: 5,
        bits: 64,
        width: UnitWidth::DWord,
        others: OtherBits::Preserve,
    },
});

/// The first three of the five events of the write.
const FIRST: &[(char, u64, u64)] = &[
    ('r', 0x10, 0xf8af_661d),
    ('w', 0x10, 0xca86_423d),
    ('w', 0x14, 0xdb97_530e),
];

/// Whether the write is done with three events, and what is read then.
fn written_and_read(
    file: &mut RegisterFile,
    field: &AnyField,
) -> Result<(bool, Option<u64>), NoMemory> {
    if !sound(field) || field.layout().bits > 64 {
        return Ok((true, None));
    }
    let is_done = write_field(file, field, &VALUE, 3)?;
    Ok((is_done, read_integer_field(file, field, 1000)?))
}

/// Whether there are so many events, and the first are just these.
fn begin_with(events: &[Event], count: usize, first: &[(char, u64, u64)]) -> bool {
    for (event, part) in events.iter().zip(first) {
        if part_of(event) != *part {
            return false;
        }
    }
    events.len() == count
}

/// The events of a read and of a write.
fn counts(field: &AnyField) -> (u64, u64) {
    if !sound(field) {
        return (0, 0);
    }
    (read_count(field), write_count(field))
}

#[test]
fn a_write_ends_at_its_limit(rt: HostRuntime) -> Result<(), Fail> {
    let mut file = registers(rt.alloc(), REGISTERS)?;
    let found = written_and_read(&mut file, &FIELD)?;
    let is_begun = begin_with(file.events(), 6, FIRST);
    let told = (found, is_begun, counts(&FIELD));
    assert_eq!(rt; told, ((false, Some(0x2edc_ba98_7654_3211)), true, (3, 5)));
    Ok(())
}

/// First bit, bits, the region's place and length, its space, and whether the field is sound.
const SOUND: &[(u64, u64, u64, u64, u8, bool)] = &[
    (0, 32, 0, 4, 0, true),
    (0, 32, 0, 3, 0, false),
    (8, 16, 0, 4, 0, true),
    (8, 32, 0, 6, 0, false),
    (32, 8, 0, 6, 0, false),
    (32, 8, 0, 8, 0, true),
    (0, 0, 0, 4, 0, false),
    (0, 1, 0, 0, 0, false),
    (0, 2048, 0, 256, 0, true),
    (0, 2049, 0, 300, 0, false),
    (0, 8, 0xffff_ffff_ffff_fffc, 4, 1, true),
    (0, 8, 0xffff_ffff_ffff_fffc, 5, 1, false),
    (
        0xffff_ffff_ffff_fff8,
        16,
        0,
        0xffff_ffff_ffff_ffff,
        0,
        false,
    ),
    (0, 8, 0, 4, 4, false),
];

/// A field of units of 32 bits.
fn field_of(at: u64, bits: u64, place: u64, length: u64, space: u8) -> AnyField {
    AnyField::Plain(RegionField {
        space,
        place,
        length,
        layout: FieldLayout {
            at,
            bits,
            width: UnitWidth::DWord,
            others: OtherBits::Preserve,
        },
    })
}

#[test]
fn soundness_is_told(rt: HostRuntime) -> Result<(), Fail> {
    for (at, bits, place, length, space, wanted) in SOUND {
        let asked = field_of(*at, *bits, *place, *length, *space);
        assert_eq!(rt; sound(&asked), *wanted);
    }
    Ok(())
}

#[test]
fn buffers_have_fields(rt: HostRuntime) -> Result<(), Fail> {
    let mut buffer = [0xa5u8, 0x5a, 0xff, 0x00];
    let read = (
        read_buffer_field(&buffer, 4, 8),
        read_buffer_field(&buffer, 7, 18),
    );
    write_buffer_field(&mut buffer, 6, 12, &0x10f3u64);
    let found = (read, buffer);
    assert_eq!(rt; found, ((0xaa, 0x1feb5), [0xe5u8, 0x3c, 0xfc, 0x00]));
    Ok(())
}
