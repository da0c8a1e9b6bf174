// What each kind of definition makes.

use super::{dsdt_of, is_own};
use acpi_samples::HOST;
use aml_namespace::{
    AccessType, Content, CreatedField, CreatedFieldSize, DataName, Entry, Field, FieldRule, Link,
    Method, Namespace, Object, Reference, Region, Source, Through, UpdateRule,
};
use aml_paths::{NamePlace, ObjectId, Scope};
use aml_tree::Span;
use std::test::Fail;

/// Scope (\_SB) { Device (DEV0) {} }, Processor (CPU0, 1, 0x410, 6) {},
/// PowerResource (PWR0, 0, 1) {},
/// ThermalZone (TZ00) {}, Method (MTH0, 2, Serialized, 3) { Noop }, Name (INT0, 18),
/// Name (BUF0, Buffer (8) { 1, 2 }), Name (STR0, "abc"), Name (PKG0, Package (3) { 1, "x" }),
/// OperationRegion (REG0, SystemIO, 0x80, 0x10),
/// Field (REG0, ByteAcc, Lock, WriteAsOnes) { FLD0, 4, , 12, FLD1, 16 },
/// IndexField (FLD0, FLD1, ByteAcc, NoLock, Preserve) { IDX0, 8 },
/// BankField (REG0, FLD0, 2, WordAcc, NoLock, WriteAsZeros) { BNK0, 16 },
/// CreateByteField (BUF0, 3, BYT0), CreateField (BUF0, 5, 11, BIT0), Mutex (MTX0, 2), Event (EVT0),
/// Alias (INT0, ALS0) and External (EXT0, MethodObj).
const KINDS: &[u8] = b"\x10\x0d\\_SB_\x5b\x82\x05DEV0\
    \x5b\x83\x0bCPU0\x01\x10\x04\x00\x00\x06\
    \x5b\x84\x08PWR0\x00\x01\x00\
    \x5b\x85\x05TZ00\
    \x14\x07MTH0\x3a\xa3\
    \x08INT0\x0a\x12\
    \x08BUF0\x11\x05\x0a\x08\x01\x02\
    \x08STR0\x0dabc\x00\
    \x08PKG0\x12\x06\x03\x01\x0dx\x00\
    \x5b\x80REG0\x01\x0a\x80\x0a\x10\
    \x5b\x81\x12REG0\x31FLD0\x04\x00\x0cFLD1\x10\
    \x5b\x86\x0fFLD0FLD1\x01IDX0\x08\
    \x5b\x87\x11REG0FLD0\x0a\x02\x42BNK0\x10\
    \x8cBUF0\x0a\x03BYT0\
    \x5b\x13BUF0\x0a\x05\x0a\x0bBIT0\
    \x5b\x01MTX0\x02\
    \x5b\x02EVT0\
    \x06INT0ALS0\
    \x15EXT0\x08\x01";

const MTH0: Method = Method {
    args: 2,
    serialized: true,
    sync_level: 3,
    table: 0,
    at: 80,
    body: Span { at: 87, end: 88 },
};

const INT0: DataName = DataName {
    content: Content::Integer,
    source: Source::Term {
        table: 0,
        span: Span { at: 93, end: 95 },
        scope: Scope::Root,
    },
};

const BUF0: DataName = DataName {
    content: Content::Buffer(8),
    source: Source::Term {
        table: 0,
        span: Span { at: 100, end: 106 },
        scope: Scope::Root,
    },
};

const STR0: DataName = DataName {
    content: Content::String(3),
    source: Source::Term {
        table: 0,
        span: Span { at: 111, end: 116 },
        scope: Scope::Root,
    },
};

const PKG0: DataName = DataName {
    content: Content::Package(3),
    source: Source::Term {
        table: 0,
        span: Span { at: 121, end: 128 },
        scope: Scope::Root,
    },
};

const REG0: Region = Region {
    space: 1,
    place: Some(0x80),
    length: Some(0x10),
};

/// The region, by its name in the Field.
const REG0_OF_FIELD: Reference = Reference {
    name: NamePlace {
        table: 0,
        at: 142,
        scope: Scope::Root,
    },
    object: Some(ObjectId(18)),
};

const LOCKED_BYTES: FieldRule = FieldRule {
    access: AccessType::Byte,
    lock: true,
    update: UpdateRule::Ones,
};

const FLD0: Field = Field {
    through: Through::Region(REG0_OF_FIELD),
    bit: 0,
    bits: 4,
    rule: LOCKED_BYTES,
    is_connected: false,
};

const FLD1: Field = Field {
    through: Through::Region(REG0_OF_FIELD),
    bit: 16,
    bits: 16,
    rule: LOCKED_BYTES,
    is_connected: false,
};

const IDX0: Field = Field {
    through: Through::Index {
        index: Reference {
            name: NamePlace {
                table: 0,
                at: 162,
                scope: Scope::Root,
            },
            object: Some(ObjectId(19)),
        },
        data: Reference {
            name: NamePlace {
                table: 0,
                at: 166,
                scope: Scope::Root,
            },
            object: Some(ObjectId(20)),
        },
    },
    bit: 0,
    bits: 8,
    rule: FieldRule {
        access: AccessType::Byte,
        lock: false,
        update: UpdateRule::Preserve,
    },
    is_connected: false,
};

const BNK0: Field = Field {
    through: Through::Bank {
        region: Reference {
            name: NamePlace {
                table: 0,
                at: 179,
                scope: Scope::Root,
            },
            object: Some(ObjectId(18)),
        },
        bank: Reference {
            name: NamePlace {
                table: 0,
                at: 183,
                scope: Scope::Root,
            },
            object: Some(ObjectId(19)),
        },
        value: Some(2),
    },
    bit: 0,
    bits: 16,
    rule: FieldRule {
        access: AccessType::Word,
        lock: false,
        update: UpdateRule::Zeros,
    },
    is_connected: false,
};

const BYT0: CreatedField = CreatedField {
    source: Reference {
        name: NamePlace {
            table: 0,
            at: 196,
            scope: Scope::Root,
        },
        object: Some(ObjectId(15)),
    },
    index: 3,
    size: CreatedFieldSize::Byte,
};

const BIT0: CreatedField = CreatedField {
    source: Reference {
        name: NamePlace {
            table: 0,
            at: 208,
            scope: Scope::Root,
        },
        object: Some(ObjectId(15)),
    },
    index: 5,
    size: CreatedFieldSize::Bits(11),
};

/// A number, the path with it, and the object.
const OBJECTS: &[(usize, &[u8], Object)] = &[
    (9, b"\\\x2e_SB_DEV0", Object::Device),
    (10, b"\\CPU0", Object::Processor),
    (11, b"\\PWR0", Object::PowerResource),
    (12, b"\\TZ00", Object::ThermalZone),
    (13, b"\\MTH0", Object::Method(MTH0)),
    (14, b"\\INT0", Object::Data(INT0)),
    (15, b"\\BUF0", Object::Data(BUF0)),
    (16, b"\\STR0", Object::Data(STR0)),
    (17, b"\\PKG0", Object::Data(PKG0)),
    (18, b"\\REG0", Object::Region(REG0)),
    (19, b"\\FLD0", Object::Field(FLD0)),
    (20, b"\\FLD1", Object::Field(FLD1)),
    (21, b"\\IDX0", Object::Field(IDX0)),
    (22, b"\\BNK0", Object::Field(BNK0)),
    (23, b"\\BYT0", Object::BufferField(BYT0)),
    (24, b"\\BIT0", Object::BufferField(BIT0)),
    (25, b"\\MTX0", Object::Mutex { sync_level: 2 }),
    (26, b"\\EVT0", Object::Event),
];

/// An External makes nothing, and an Alias a path of the object that is there.
#[test]
fn each_kind(rt: HostRuntime) -> Result<(), Fail> {
    let table = dsdt_of(rt.alloc(), KINDS)?;
    let ns = Namespace::load(rt.alloc(), &[&table], HOST)?;
    for (number, name, object) in OBJECTS {
        assert!(rt; is_own(&ns, *number, name, *object), "{number}");
    }
    let alias = ObjectId(27);
    let entry = Entry::Alias(ObjectId(14));
    assert_eq!(rt;
        (
            ns.len(),
            ns.object(alias),
            ns.entry(alias),
            ns.entry(ObjectId(28))
        ),
        (28, None, Some(entry), None)
    );
    Ok(())
}

/// What a name means in the method.
#[test]
fn links(rt: HostRuntime) -> Result<(), Fail> {
    let table = dsdt_of(rt.alloc(), KINDS)?;
    let ns = Namespace::load(rt.alloc(), &[&table], HOST)?;
    let rows: &[(&[u8], Link)] = &[
        (b"MTH0", Link::Method(ObjectId(13))),
        (b"_OSI", Link::OsInterfaces),
        (b"_REV", Link::Data(ObjectId(5))),
        (b"PKG0", Link::Data(ObjectId(17))),
        (b"ALS0", Link::Data(ObjectId(14))),
        (b"FLD1", Link::Field(ObjectId(20))),
        (b"BIT0", Link::BufferField(ObjectId(24))),
        (b"_SB_", Link::Object(ObjectId(2))),
        (b"REG0", Link::Object(ObjectId(18))),
        (b"_GL_", Link::Object(ObjectId(8))),
        (b"\\\x2e_SB_DEV0", Link::Object(ObjectId(9))),
        (b"DEV0", Link::Missing),
        (b"EXT0", Link::Missing),
        (b"1234", Link::Missing),
        (b"", Link::Missing),
    ];
    for (name, link) in rows {
        assert_eq!(rt; ns.link(ObjectId(13), name, 0), *link);
    }
    Ok(())
}
