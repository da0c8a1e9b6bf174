// Methods and what they give, worked out by hand (ACPI 6.5, 5.5.2.4, 19.6 and 20.2).

use crate::methods::{Call, Method, Wanted, are_calls, evaluated, gives, registers};
use aml_namespace::LoadFault;
use aml_paths::NoMemory;
use std::alloc::Global;
use std::process::Abort;
use std::test::Fail;

/// A method, its value or none, and the calls that it makes.
type Row = (Method, Wanted, &'static [Call]);

/// The first method of a table, which has no arguments and no registers.
const FIRST: Method = Method {
    revision: 2,
    module: b"",
    number: 9,
    arguments: &[],
    registers: b"",
};

/// OperationRegion (GPIO, SystemIO, 0x60, 4), Field (GPIO, ByteAcc, NoLock, Preserve) {, 4, FLD0,
/// 8}, Method (M001) {Store (0xab, FLD0)}, which is object 11.
pub(crate) const PRESERVED: Method = Method {
    revision: 2,
    module: b"\x5b\x80GPIO\x01\x0a\x60\x0a\x04\x5b\x81\x0dGPIO\x01\x00\x04FLD0\x08\
        \x14\x0dM001\x00\x70\x0a\xabFLD0",
    number: 11,
    arguments: &[],
    registers: b"io 60 1527",
};

/// OperationRegion (RGN0, SystemIO, 0x70, 2), Field (RGN0, ByteAcc, NoLock, Preserve) {IDX0, 8,
/// DAT0, 8}, IndexField (IDX0, DAT0, ByteAcc, NoLock, Preserve) {, 20, RTC0, 4}, Method (M020)
/// {Store (3, RTC0)}, which is object 13.
pub(crate) const INDEXED: Method = Method {
    revision: 2,
    module: b"\x5b\x80RGN0\x01\x0a\x70\x0a\x02\x5b\x81\x10RGN0\x01IDX0\x08DAT0\x08\
        \x5b\x86\x11IDX0DAT0\x01\x00\x14RTC0\x04\x14\x0dM020\x00\x70\x0a\x03RTC0",
    number: 13,
    arguments: &[],
    registers: b"io 71 5a",
};

/// Name (BUF0, Buffer (16) {}), Method (M019) {Store (Zero, Local0) While (LLess (Local0, 16))
/// {Store (Local0, Index (BUF0, Local0)) Increment (Local0)} Return (BUF0)}, which is object 10.
pub(crate) const FILLED: Method = Method {
    revision: 2,
    module: b"\x08BUF0\x11\x03\x0a\x10\x14\x1fM019\x00\x70\x00\x60\xa2\x10\x95\x60\x0a\x10\
        \x70\x60\x88BUF0\x60\x00\x75\x60\xa4BUF0",
    number: 10,
    arguments: &[],
    registers: b"",
};

/// The bytes that it fills a buffer with.
pub(crate) const SIXTEEN: &[u8] = &[0, 1, 2, 3, 4, 5, 6, 7, 8, 9, 10, 11, 12, 13, 14, 15];

/// Method (M000, 1) {Return (Add (Arg0, One))}.
const ADDED: &[u8] = b"\x14\x0bM000\x01\xa4\x72\x68\x01\x00";

const ROWS: &[Row] = &[
    (
        Method {
            arguments: &[41],
            module: ADDED,
            ..FIRST
        },
        Wanted::Int(42),
        &[],
    ),
    (
        Method {
            arguments: &[u64::MAX],
            module: ADDED,
            ..FIRST
        },
        Wanted::Int(0),
        &[],
    ),
    (
        Method {
            revision: 1,
            arguments: &[4_294_967_295],
            module: ADDED,
            ..FIRST
        },
        Wanted::Int(0),
        &[],
    ),
    (
        PRESERVED,
        Wanted::Nothing,
        &[
            Call::Read(0x60, 0x15),
            Call::Written(0x60, 0xb5),
            Call::Read(0x61, 0x27),
            Call::Written(0x61, 0x2a),
        ],
    ),
    // the same with WriteAsOnes, and with WriteAsZeros
    (
        Method {
            module: b"\x5b\x80GPIO\x01\x0a\x60\x0a\x04\x5b\x81\x0dGPIO\x21\x00\x04FLD0\x08\
                \x14\x0dM001\x00\x70\x0a\xabFLD0",
            ..PRESERVED
        },
        Wanted::Nothing,
        &[Call::Written(0x60, 0xbf), Call::Written(0x61, 0xfa)],
    ),
    (
        Method {
            module: b"\x5b\x80GPIO\x01\x0a\x60\x0a\x04\x5b\x81\x0dGPIO\x41\x00\x04FLD0\x08\
                \x14\x0dM001\x00\x70\x0a\xabFLD0",
            ..PRESERVED
        },
        Wanted::Nothing,
        &[Call::Written(0x60, 0xb0), Call::Written(0x61, 0x0a)],
    ),
    // Store (Zero, Local0) While (LLess (Local0, 4)) {Increment (Local0)} Return (Local0)
    (
        Method {
            module: b"\x14\x13M002\x00\x70\x00\x60\xa2\x07\x95\x60\x0a\x04\x75\x60\xa4\x60",
            ..FIRST
        },
        Wanted::Int(4),
        &[],
    ),
    // Return (LAnd (Zero, FLD0))
    (
        Method {
            module: b"\x5b\x80GPIO\x01\x0a\x60\x0a\x04\x5b\x81\x0dGPIO\x01\x00\x04FLD0\x08\
                \x14\x0dM017\x00\xa4\x90\x00FLD0",
            ..PRESERVED
        },
        Wanted::Int(0),
        &[Call::Read(0x60, 0x15), Call::Read(0x61, 0x27)],
    ),
    // Divide (7, 2, Local0, Local0) Return (Local0)
    (
        Method {
            module: b"\x14\x0fM018\x00\x78\x0a\x07\x0a\x02\x60\x60\xa4\x60",
            ..FIRST
        },
        Wanted::Int(3),
        &[],
    ),
    (FILLED, Wanted::Buf(SIXTEEN), &[]),
    (
        INDEXED,
        Wanted::Nothing,
        &[
            Call::Written(0x70, 2),
            Call::Read(0x71, 0x5a),
            Call::Written(0x70, 2),
            Call::Written(0x71, 0x3a),
        ],
    ),
    // Return (Concatenate ("AB", "CD"))
    (
        Method {
            module: b"\x14\x11M016\x00\xa4\x73\x0dAB\x00\x0dCD\x00\x00",
            ..FIRST
        },
        Wanted::Str(b"ABCD"),
        &[],
    ),
    // Mutex (MTX0, 3), Method (M010) {Acquire (MTX0, 0xffff) Release (MTX0) Return (One)}
    (
        Method {
            number: 10,
            module: b"\x5b\x01MTX0\x03\x14\x16M010\x00\x5b\x23MTX0\xff\xff\x5b\x27MTX0\xa4\x01",
            ..FIRST
        },
        Wanted::Int(1),
        &[],
    ),
    // Device (DEV0) {}, Method (M022) {Notify (DEV0, 0x80) Sleep (One) Stall (One)}
    (
        Method {
            number: 10,
            module: b"\x5b\x82\x05DEV0\x14\x13M022\x00\x86DEV0\x0a\x80\x5b\x22\x01\x5b\x21\x01",
            ..FIRST
        },
        Wanted::Nothing,
        &[Call::Notified(9, 0x80), Call::Slept(1), Call::Stalled(1)],
    ),
    // Method (M030, 1) {Return (M031 (Arg0, Zero))}, Method (M031, 2) {Name (OWN0, 5) If (Arg1)
    // {Return (Zero)} Else {Increment (OWN0)} Return (Add (Arg0, OWN0))}
    (
        Method {
            arguments: &[7],
            module: b"\x14\x0dM030\x01\xa4M031\x68\x00\
                \x14\x21M031\x02\x08OWN0\x0a\x05\xa0\x04\x69\xa4\x00\xa1\x06\x75OWN0\xa4\x72\x68OWN0\x00",
            ..FIRST
        },
        Wanted::Int(13),
        &[],
    ),
];

/// A row is evaluated; or memory is wanted, and its calls are the first of those that it makes.
fn is_evaluated(rt: &impl Abort, alloc: Global, row: Row) -> Result<(), LoadFault> {
    let (method, wanted, calls) = row;
    let mut world = registers(alloc, method.registers)?;
    match evaluated(rt, alloc, method, &mut world)? {
        Ok(value) => {
            assert!(rt; gives(&value, wanted), "{method:?}");
            assert!(rt; are_calls(world.events(), calls), "{method:?}");
            Ok(())
        }
        Err(NoMemory) => {
            let made = world.events().len();
            assert!(rt; made <= calls.len(), "{method:?}");
            assert!(rt; are_calls(world.events(), &calls[..made]), "{method:?}");
            Err(LoadFault::NoMemory)
        }
    }
}

#[test]
fn rows_of_methods_refused_in_turn(rt: HostRuntime) -> Result<(), Fail> {
    for row in ROWS {
        match is_evaluated(&rt, rt.alloc(), *row) {
            Err(LoadFault::NoMemory) => is_evaluated(&rt, rt.alloc(), *row)?,
            told => told?,
        }
    }
    Ok(())
}
