// What definitions make within a device and its kin.

use super::{dsdt_of, is_own};
use acpi_samples::HOST;
use aml_namespace::{
    AccessType, Content, CreatedField, CreatedFieldSize, DataName, Field, FieldRule, Namespace,
    Object, Reference, Region, Source, Through, UpdateRule,
};
use aml_paths::{NamePlace, ObjectId, Scope};
use aml_tree::Span;
use std::test::Fail;

/// Name (BUF1, Buffer (1) { 1, 2, 3 }), Name (VPK1, Package (2) {}) as a VarPackage, and
/// Device (DEV0) {
/// OperationRegion (REG1, SystemMemory, Add (One, One), One),
/// Field (REG1, AnyAcc, NoLock, Preserve) { FLD2, 1, AccessAs (WordAcc), FLD3, 2,
/// Connection (CON1),
/// FLD4, 3, an extended AccessAs (ByteAcc), FLD5, 4 },
/// CreateBitField (BUF1, 9, BIT1), CreateWordField (BUF1, 0, WRD1),
/// CreateDWordField (BUF1, 1, DWD1),
/// CreateQWordField (BUF1, 0, QWD1), DataTableRegion (DTR1, "", "", ""),
/// BankField (REG1, FLD2, Add (One, One), AnyAcc, NoLock, 3) { BNK1, 1 },
/// Scope (\) { Event (EVT1) } },
/// ThermalZone (TZ01) { Name (INN0, One) }, PowerResource (PWR1, 0, 0) { Name (INN0, One) } and
/// Processor (CPU1, 0, 0, 0) { Name (INN0, One) }.
const WITHIN: &[u8] = b"\x08BUF1\x11\x06\x0a\x01\x01\x02\x03\x08VPK1\x13\x03\x0a\x02\
    \x5b\x82\x4e\x08DEV0\
    \x5b\x80REG1\x00\x72\x01\x01\x00\x01\
    \x5b\x81\x26REG1\x00FLD2\x01\x01\x02\x00FLD3\x02\x02CON1FLD4\x03\x03\x01\x00\x00FLD5\x04\
    \x8dBUF1\x0a\x09BIT1\x8bBUF1\x00WRD1\x8aBUF1\x01DWD1\x8fBUF1\x00QWD1\
    \x5b\x88DTR1\x0d\x00\x0d\x00\x0d\x00\
    \x5b\x87\x13REG1FLD2\x72\x01\x01\x00\x60BNK1\x01\
    \x10\x09\\\x00\x5b\x02EVT1\
    \x5b\x85\x0bTZ01\x08INN0\x01\
    \x5b\x84\x0ePWR1\x00\x00\x00\x08INN0\x01\
    \x5b\x83\x11CPU1\x00\x00\x00\x00\x00\x00\x08INN0\x01";

const BUF1: DataName = DataName {
    content: Content::Buffer(3),
    source: Source::Term {
        table: 0,
        span: Span { at: 41, end: 48 },
        scope: Scope::Root,
    },
};

const VPK1: DataName = DataName {
    content: Content::Package(2),
    source: Source::Term {
        table: 0,
        span: Span { at: 53, end: 57 },
        scope: Scope::Root,
    },
};

const REG1: Region = Region {
    space: 0,
    place: None,
    length: Some(1),
};

/// What a name names that stands in the device.
fn within_device(at: usize, object: usize) -> Reference {
    Reference {
        name: NamePlace {
            table: 0,
            at,
            scope: Scope::At(ObjectId(11)),
        },
        object: Some(ObjectId(object)),
    }
}

/// What an object of a row is.
#[derive(Clone, Copy)]
enum Made {
    /// A field of the region, by its first bit, its number of bits and its access type; whether it
    /// is connected.
    Field(u64, u64, AccessType, bool),
    /// A field of the region's bank.
    Banked,
    /// A field of the buffer, by the place of its name, its index and its size.
    BufferField(usize, u64, CreatedFieldSize),
    /// A name of the integer One, which stands at a place within an object.
    One(usize, usize),
    Other(Object),
}

/// A field that is reached so.
fn field(through: Through, bit: u64, bits: u64, access: AccessType, is_connected: bool) -> Field {
    Field {
        through,
        bit,
        bits,
        rule: FieldRule {
            access,
            lock: false,
            update: UpdateRule::Preserve,
        },
        is_connected,
    }
}

/// The first bit of the bank.
fn banked() -> Field {
    let through = Through::Bank {
        region: within_device(173, 12),
        bank: within_device(177, 13),
        value: None,
    };
    let plain = field(through, 0, 1, AccessType::Any, false);
    Field {
        rule: FieldRule {
            update: UpdateRule::Reserved,
            ..plain.rule
        },
        ..plain
    }
}

fn object_of(made: Made) -> Object {
    match made {
        Made::Field(bit, bits, access, is_connected) => {
            let through = Through::Region(within_device(80, 12));
            Object::Field(field(through, bit, bits, access, is_connected))
        }
        Made::Banked => Object::Field(banked()),
        Made::BufferField(at, index, size) => Object::BufferField(CreatedField {
            source: within_device(at, 9),
            index,
            size,
        }),
        Made::One(at, within) => Object::Data(DataName {
            content: Content::Integer,
            source: Source::Term {
                table: 0,
                span: Span {
                    at,
                    end: at.saturating_add(1),
                },
                scope: Scope::At(ObjectId(within)),
            },
        }),
        Made::Other(object) => object,
    }
}

/// A number, the path with it, and the object.
const OBJECTS: &[(usize, &[u8], Made)] = &[
    (9, b"\\BUF1", Made::Other(Object::Data(BUF1))),
    (10, b"\\VPK1", Made::Other(Object::Data(VPK1))),
    (11, b"\\DEV0", Made::Other(Object::Device)),
    (12, b"\\\x2eDEV0REG1", Made::Other(Object::Region(REG1))),
    (
        13,
        b"\\\x2eDEV0FLD2",
        Made::Field(0, 1, AccessType::Any, false),
    ),
    (
        14,
        b"\\\x2eDEV0FLD3",
        Made::Field(1, 2, AccessType::Word, false),
    ),
    (
        15,
        b"\\\x2eDEV0FLD4",
        Made::Field(3, 3, AccessType::Word, true),
    ),
    (
        16,
        b"\\\x2eDEV0FLD5",
        Made::Field(6, 4, AccessType::Byte, true),
    ),
    (
        17,
        b"\\\x2eDEV0BIT1",
        Made::BufferField(118, 9, CreatedFieldSize::Bit),
    ),
    (
        18,
        b"\\\x2eDEV0WRD1",
        Made::BufferField(129, 0, CreatedFieldSize::Word),
    ),
    (
        19,
        b"\\\x2eDEV0DWD1",
        Made::BufferField(139, 1, CreatedFieldSize::DWord),
    ),
    (
        20,
        b"\\\x2eDEV0QWD1",
        Made::BufferField(149, 0, CreatedFieldSize::QWord),
    ),
    (21, b"\\\x2eDEV0DTR1", Made::Other(Object::DataTableRegion)),
    (22, b"\\\x2eDEV0BNK1", Made::Banked),
    (23, b"\\EVT1", Made::Other(Object::Event)),
    (24, b"\\TZ01", Made::Other(Object::ThermalZone)),
    (25, b"\\\x2eTZ01INN0", Made::One(213, 24)),
    (26, b"\\PWR1", Made::Other(Object::PowerResource)),
    (27, b"\\\x2ePWR1INN0", Made::One(229, 26)),
    (28, b"\\CPU1", Made::Other(Object::Processor)),
    (29, b"\\\x2eCPU1INN0", Made::One(248, 28)),
];

#[test]
fn members(rt: HostRuntime) -> Result<(), Fail> {
    let table = dsdt_of(rt.alloc(), WITHIN)?;
    let ns = Namespace::load(rt.alloc(), &[&table], HOST)?;
    for (number, name, made) in OBJECTS {
        assert!(rt; is_own(&ns, *number, name, object_of(*made)), "{number}");
    }
    assert_eq!(rt; ns.len(), 30);
    Ok(())
}
