// What data names hold, each row written by hand from the definitions.

mod first;

use crate::kinds::{Sample, value_of};
use acpi_samples::{HOST, table_of};
use aml_contents::Names;
use aml_namespace::{Namespace, Width};
use aml_paths::{NoMemory, ObjectId};
use aml_values::{Value, is_same_value};
use std::alloc::{AllocError, Global};
use std::test::Fail;

/// Name (INT0, 5), Name (BUF0, Buffer (3) {1}), Name (STR0, "ab"), Name (PKG0, Package (2) {9,
/// INT0}), behind the nine predefined names: they have the numbers 9 to 12.
const MODULE: [u8; 40] = [
    0x08, 0x49, 0x4e, 0x54, 0x30, 0x0a, 0x05, 0x08, 0x42, 0x55, 0x46, 0x30, 0x11, 0x04, 0x0a, 0x03,
    0x01, 0x08, 0x53, 0x54, 0x52, 0x30, 0x0d, 0x61, 0x62, 0x00, 0x08, 0x50, 0x4b, 0x47, 0x30, 0x12,
    0x08, 0x02, 0x0a, 0x09, 0x49, 0x4e, 0x54, 0x30,
];

/// What its names hold first: `_REV`, `_OS_` and those four.
const FIRST: &[Option<Sample>] = &[
    None,
    None,
    None,
    None,
    None,
    Some(Sample::Int(2)),
    None,
    Some(Sample::Str(5)),
    None,
    Some(Sample::Int(5)),
    Some(Sample::Buf(3)),
    Some(Sample::Str(2)),
    Some(Sample::NineAndName),
];

/// A value of a sample, if there is one.
fn held_of(alloc: Global, sample: Option<Sample>) -> Result<Option<Value>, AllocError> {
    match sample {
        Some(sample) => Ok(Some(value_of(alloc, sample)?)),
        None => Ok(None),
    }
}

/// Names that hold these.
fn names_of(alloc: Global, width: Width, first: &[Option<Sample>]) -> Result<Names, Fail> {
    let mut names = Names::new(alloc);
    for sample in first {
        let held = held_of(alloc, *sample)?;
        names.push(alloc, width, held)?;
    }
    Ok(names)
}

/// Whether a name holds a value of this sample.
fn holds(alloc: Global, names: &Names, id: usize, sample: Option<Sample>) -> Result<bool, Fail> {
    let wanted = held_of(alloc, sample)?;
    match (names.get(ObjectId(id)), &wanted) {
        (Some(value), Some(other)) => Ok(is_same_value(value, other)),
        (None, None) => Ok(true),
        _ => Ok(false),
    }
}

/// Whether names hold just these.
fn hold_all(alloc: Global, names: &Names, first: &[Option<Sample>]) -> Result<bool, Fail> {
    for (i, sample) in first.iter().enumerate() {
        if !holds(alloc, names, i, *sample)? {
            return Ok(false);
        }
    }
    Ok(names.get(ObjectId(first.len())).is_none())
}

/// What a set answers: whether it was done; and whether the name then holds the new value, or else
/// the refused one came back and the name holds what it held.
fn is_set(alloc: Global, id: usize, sample: Sample) -> Result<(bool, bool), Fail> {
    let mut names = names_of(alloc, Width::Bits64, FIRST)?;
    match names.set(ObjectId(id), value_of(alloc, sample)?) {
        Ok(()) => Ok((true, holds(alloc, &names, id, Some(sample))?)),
        Err(back) => {
            let is_same = is_same_value(&back, &value_of(alloc, sample)?);
            Ok((false, is_same && hold_all(alloc, &names, FIRST)?))
        }
    }
}

#[test]
fn names_hold_what_fits(rt: HostRuntime) -> Result<(), Fail> {
    let rows: &[(usize, Sample, bool)] = &[
        (9, Sample::Int(0), true),
        (9, Sample::Int(u64::MAX), true),
        (9, Sample::Buf(3), false),
        (9, Sample::Str(2), false),
        (9, Sample::Unset(0), false),
        (10, Sample::Buf(3), true),
        (10, Sample::Buf(2), false),
        (10, Sample::Buf(4), false),
        (10, Sample::Str(3), false),
        (10, Sample::Int(3), false),
        (10, Sample::Unset(3), false),
        (11, Sample::Str(2), true),
        (11, Sample::Str(1), false),
        (11, Sample::Str(3), false),
        (11, Sample::Buf(2), false),
        (11, Sample::Int(2), false),
        (11, Sample::Unset(2), false),
        (12, Sample::NineAndName, true),
        (12, Sample::NineAndUnset, false),
        (12, Sample::Unset(2), false),
        (12, Sample::OfInt(9), false),
        (12, Sample::Int(9), false),
        (8, Sample::Int(0), false),
        (13, Sample::Int(0), false),
    ];
    for (i, (id, sample, is_done)) in rows.iter().enumerate() {
        let found = is_set(rt.alloc(), *id, *sample)?;
        assert!(rt; found == (*is_done, true), "row {i}");
    }
    Ok(())
}

/// An integer is taken modulo 2 to the width, and no greater one is set.
#[test]
fn narrow_integers(rt: HostRuntime) -> Result<(), Fail> {
    let alloc = rt.alloc();
    let mut names = names_of(alloc, Width::Bits32, &[Some(Sample::Int(0x1_0000_0007))])?;
    assert!(rt; holds(alloc, &names, 0, Some(Sample::Int(7)))?);
    assert!(rt; names.set(ObjectId(0), Value::Int(0x1_0000_0000)).is_err());
    assert!(rt; names.set(ObjectId(0), Value::Int(0xffff_ffff)).is_ok());
    Ok(())
}

/// Whether a byte was set, and the bytes of BUF0 behind it.
fn bytes_behind(alloc: Global, id: usize, at: usize) -> Result<(bool, [u8; 3]), Fail> {
    let mut names = names_of(alloc, Width::Bits64, FIRST)?;
    let is_done = names.set_byte(ObjectId(id), at, 1);
    match names.get(ObjectId(10)) {
        Some(Value::Buf(bytes)) => match bytes.as_slice() {
            [a, b, c] => Ok((is_done, [*a, *b, *c])),
            _ => Ok((is_done, [0; 3])),
        },
        _ => Ok((is_done, [0; 3])),
    }
}

#[test]
fn bytes_are_set(rt: HostRuntime) -> Result<(), Fail> {
    let rows: &[(usize, usize, bool, [u8; 3])] = &[
        (10, 0, true, [1, 7, 7]),
        (10, 2, true, [7, 7, 1]),
        (10, 3, false, [7, 7, 7]),
        (10, usize::MAX, false, [7, 7, 7]),
        (9, 0, false, [7, 7, 7]),
        (11, 0, false, [7, 7, 7]),
        (12, 0, false, [7, 7, 7]),
        (13, 0, false, [7, 7, 7]),
    ];
    for (id, at, is_done, bytes) in rows {
        let found = bytes_behind(rt.alloc(), *id, *at)?;
        assert_eq!(rt; found, (*is_done, *bytes));
    }
    Ok(())
}

/// What the names hold where one is another, or missing.
fn with_other(
    alloc: Global,
    id: usize,
    sample: Option<Sample>,
) -> Result<Vec<Option<Sample>>, AllocError> {
    let mut others = Vec::from_slice(alloc, FIRST)?;
    if let Some(other) = others.get_mut(id) {
        *other = sample;
    }
    Ok(others)
}

#[test]
fn names_belong(rt: HostRuntime) -> Result<(), Fail> {
    let alloc = rt.alloc();
    let table = table_of(alloc, *b"DSDT", 2, &MODULE)?;
    let ns = Namespace::load(alloc, &[&table], HOST)?;
    let rows: &[(usize, Option<Sample>, bool)] = &[
        (9, Some(Sample::Int(7)), true),
        (9, Some(Sample::Str(5)), false),
        (9, None, false),
        (10, Some(Sample::Buf(2)), false),
        (10, Some(Sample::Str(3)), false),
        (11, Some(Sample::Str(3)), false),
        (11, Some(Sample::Buf(2)), false),
        (12, Some(Sample::NineAndName), true),
        (12, Some(Sample::NineAndUnset), false),
        (12, Some(Sample::Unset(2)), false),
        (12, Some(Sample::Unset(3)), false),
        (12, Some(Sample::Int(2)), false),
        (0, Some(Sample::Int(0)), false),
        (6, Some(Sample::Int(0)), false),
    ];
    for (i, (id, sample, is_theirs)) in rows.iter().enumerate() {
        let names = names_of(alloc, Width::Bits64, &with_other(alloc, *id, *sample)?)?;
        assert!(rt; names.belong(&ns) == *is_theirs, "row {i}");
    }
    assert!(rt; !names_of(alloc, Width::Bits32, FIRST)?.belong(&ns));
    assert!(rt; !names_of(alloc, Width::Bits64, &FIRST[..12])?.belong(&ns));
    let mut names = names_of(alloc, Width::Bits64, FIRST)?;
    names.push(alloc, Width::Bits64, None)?;
    assert!(rt; !names.belong(&ns));
    Ok(())
}

/// Adds a content, again where memory is wanted the first time.
fn push_again(alloc: Global, names: &mut Names, sample: Option<Sample>) -> Result<(), Fail> {
    let held = match held_of(alloc, sample) {
        Ok(held) => held,
        Err(AllocError) => held_of(alloc, sample)?,
    };
    match names.push(alloc, Width::Bits64, held) {
        Ok(()) => Ok(()),
        Err(NoMemory) => Ok(names.push(alloc, Width::Bits64, held_of(alloc, sample)?)?),
    }
}

/// Also for a run in which an allocation fails: names and their copy are then asked for again, and
/// the copy holds what was copied.
#[test]
fn want_of_memory_in_names(rt: HostRuntime) -> Result<(), Fail> {
    let alloc = rt.alloc();
    let mut names = Names::new(alloc);
    for sample in FIRST {
        push_again(alloc, &mut names, *sample)?;
    }
    let copy = match names.copy(alloc) {
        Ok(copy) => copy,
        Err(NoMemory) => names.copy(alloc)?,
    };
    for i in 0..FIRST.len() {
        let id = ObjectId(i);
        let is_same = match (names.get(id), copy.get(id)) {
            (Some(value), Some(other)) => is_same_value(value, other),
            (None, None) => true,
            _ => false,
        };
        assert!(rt; is_same, "name {i}");
    }
    Ok(())
}
