// Fields behind others in a world that refuses every call behind the k-th, for each k: the events
// so far are the first of those that are made otherwise. What the events are is told by
// `field_events.rows` of crates/acpicheck/rows.

use crate::logs::{part_of, registers};
use UnitWidth::{Byte, Word};
use aml_fields::{read_count, read_integer_field, sound, write_count, write_field};
use aml_paths::NoMemory;
use aml_regions::{
    AnyField, BankedField, Event, FieldLayout, IndexedField, OtherBits, Refusing, RegionField,
    UnitWidth, World,
};
use std::alloc::Global;
use std::test::Fail;

/// What the registers hold before each row.
const REGISTERS: &str = "io 70 005a\nio 80 11223344";

/// Where the bits of a field stand: units' width, first bit and bits.
type Place = (UnitWidth, u64, u64);

/// A field of ports 0x70 and 0x71, or of ports 0x80 to 0x83.
#[derive(Clone, Copy, Debug)]
enum Ports {
    Low(Place),
    High(Place),
}

/// A field behind an index field and a data field, or behind a bank field that is given 2.
#[derive(Clone, Copy, Debug)]
enum Row {
    Index(Place, Ports, Ports),
    Bank(Ports, Ports),
}

/// A field, and the value that it is given, or none where it is read.
const ROWS: &[(Row, Option<u64>)] = &[
    // 4 bits behind 20, through an index field and a data field of 8 bits
    (
        Row::Index(
            (Byte, 20, 4),
            Ports::Low((Byte, 0, 8)),
            Ports::Low((Byte, 8, 8)),
        ),
        Some(3),
    ),
    (
        Row::Index(
            (Byte, 20, 4),
            Ports::Low((Byte, 0, 8)),
            Ports::Low((Byte, 8, 8)),
        ),
        None,
    ),
    // a whole unit is not read
    (
        Row::Index(
            (Byte, 24, 8),
            Ports::Low((Byte, 0, 8)),
            Ports::Low((Byte, 8, 8)),
        ),
        Some(0x177),
    ),
    // two units of two bytes: the index is a number of bytes
    (
        Row::Index(
            (Word, 12, 8),
            Ports::Low((Byte, 0, 8)),
            Ports::High((Word, 0, 16)),
        ),
        None,
    ),
    // a data field of two bytes that are read one by one
    (
        Row::Index(
            (Word, 12, 8),
            Ports::Low((Byte, 0, 8)),
            Ports::High((Byte, 4, 16)),
        ),
        None,
    ),
    // an index field of 4 bits, behind 4 that are kept
    (
        Row::Index(
            (Byte, 20, 4),
            Ports::Low((Byte, 12, 4)),
            Ports::High((Byte, 0, 8)),
        ),
        None,
    ),
    // an index field of one bit: the byte's number is cut
    (
        Row::Index(
            (Byte, 24, 8),
            Ports::Low((Byte, 8, 1)),
            Ports::High((Byte, 0, 8)),
        ),
        Some(0x99),
    ),
    // behind a bank field
    (
        Row::Bank(Ports::High((Byte, 0, 8)), Ports::Low((Byte, 0, 8))),
        None,
    ),
    (
        Row::Bank(Ports::High((Byte, 0, 8)), Ports::Low((Byte, 0, 8))),
        Some(0x22),
    ),
    (
        Row::Bank(Ports::High((Byte, 2, 4)), Ports::Low((Byte, 0, 8))),
        Some(0xff),
    ),
    (
        Row::Bank(Ports::High((Byte, 12, 8)), Ports::Low((Byte, 0, 8))),
        None,
    ),
    // a bank field of 4 bits
    (
        Row::Bank(Ports::High((Byte, 0, 8)), Ports::Low((Byte, 12, 4))),
        None,
    ),
];

/// A layout whose other bits are preserved.
fn layout((width, at, bits): Place) -> FieldLayout {
    FieldLayout {
        at,
        bits,
        width,
        others: OtherBits::Preserve,
    }
}

fn part(ports: Ports) -> RegionField {
    let (place, length, bits) = match ports {
        Ports::Low(bits) => (0x70, 2, bits),
        Ports::High(bits) => (0x80, 4, bits),
    };
    RegionField {
        space: 1,
        place,
        length,
        layout: layout(bits),
    }
}

fn field(row: Row) -> AnyField {
    match row {
        Row::Index(bits, index, data) => AnyField::Indexed(IndexedField {
            layout: layout(bits),
            index_field: part(index),
            data_field: part(data),
        }),
        Row::Bank(behind, bank) => AnyField::Banked(BankedField {
            field: part(behind),
            bank: part(bank),
            value: 2,
        }),
    }
}

/// Reads a field, or gives it a value, and tells whether that was done.
fn is_done<W: World>(
    world: &mut W,
    field: &AnyField,
    value: Option<u64>,
) -> Result<bool, NoMemory> {
    if !sound(field) || field.layout().bits > 64 {
        return Ok(false);
    }
    match value {
        Some(value) => write_field(world, field, &value, 1000),
        None => match read_integer_field(world, field, 1000) {
            Ok(found) => Ok(found.is_some()),
            Err(NoMemory) => Err(NoMemory),
        },
    }
}

/// How many events that has.
fn count(field: &AnyField, value: Option<u64>) -> u64 {
    if !sound(field) {
        return 0;
    }
    match value {
        Some(_) => write_count(field),
        None => read_count(field),
    }
}

/// Whether events are the first of all.
fn are_first(events: &[Event], all: &[Event]) -> bool {
    for (event, other) in events.iter().zip(all) {
        if part_of(event) != part_of(other) {
            return false;
        }
    }
    events.len() <= all.len()
}

/// Whether a call in a world that answers so many of its events is refused behind them, and these
/// are the first of all.
fn is_refused_behind(
    alloc: Global,
    field: &AnyField,
    value: Option<u64>,
    answered: usize,
    all: &[Event],
) -> Result<bool, NoMemory> {
    let mut world = Refusing::new(registers(alloc, REGISTERS)?, answered as u64);
    let done = is_done(&mut world, field, value);
    let (wanted, refusals) = if answered < all.len() {
        (Err(NoMemory), 1)
    } else {
        (Ok(true), 0)
    };
    let made = world.inner().events();
    let is_told = done == wanted && world.refusals() == refusals;
    Ok(is_told && made.len() == answered && are_first(made, all))
}

/// Whether a call is refused behind each of its events, of which there are as many as is told.
fn is_refused_behind_each(
    alloc: Global,
    field: &AnyField,
    value: Option<u64>,
) -> Result<bool, NoMemory> {
    let mut file = registers(alloc, REGISTERS)?;
    let is_done = is_done(&mut file, field, value)?;
    let all = file.events();
    for answered in 0..all.len() + 1 {
        if !is_refused_behind(alloc, field, value, answered, all)? {
            return Ok(false);
        }
    }
    Ok(is_done && count(field, value) == all.len() as u64)
}

#[test]
fn refused_calls_leave_a_beginning(rt: HostRuntime) -> Result<(), Fail> {
    for (row, value) in ROWS {
        let is_refused = is_refused_behind_each(rt.alloc(), &field(*row), *value)?;
        assert!(rt; is_refused, "{row:?} {value:?}");
    }
    Ok(())
}

/// Fields behind others that are not sound.
const UNSOUND: &[Row] = &[
    // the data field is not as wide as a unit
    Row::Index(
        (Word, 12, 8),
        Ports::Low((Byte, 0, 8)),
        Ports::High((Byte, 0, 8)),
    ),
    Row::Index(
        (Byte, 12, 8),
        Ports::Low((Byte, 0, 8)),
        Ports::High((Byte, 0, 9)),
    ),
    // the index field lies outside its region
    Row::Index(
        (Byte, 12, 8),
        Ports::Low((Byte, 16, 8)),
        Ports::High((Byte, 0, 8)),
    ),
    // so does the bank field, or the field behind it
    Row::Bank(Ports::High((Byte, 0, 8)), Ports::Low((Byte, 9, 8))),
    Row::Bank(Ports::High((Byte, 32, 8)), Ports::Low((Byte, 0, 8))),
];

#[test]
fn fields_behind_unsound_ones_are_told(rt: HostRuntime) -> Result<(), Fail> {
    for row in UNSOUND {
        assert!(rt; !sound(&field(*row)));
    }
    Ok(())
}
