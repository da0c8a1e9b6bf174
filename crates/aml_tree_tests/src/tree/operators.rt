// Each opcode of the specification once, with operands as short as can be (ACPI 6.5, 20.2.3 to
// 20.2.6).

use super::body_of;
use aml_tree::{Op, TreeFault};
use std::alloc::Global;
use std::process::Abort;
use std::test::Fail;

/// Bytes, what they are, and the number of its parts.
type Row = (&'static [u8], Op, usize);

/// Each row's bytes are one term and nothing else.
fn terms(rt: &impl Abort, alloc: Global, rows: &[Row]) -> Result<(), TreeFault> {
    for (bytes, op, parts) in rows {
        let statements = body_of(alloc, bytes)?;
        let found = match statements.as_slice() {
            [term] => Some((term.op, term.at, term.end, term.parts.len())),
            _ => None,
        };
        assert_eq!(rt; found, Some((*op, 0, bytes.len(), *parts)));
    }
    Ok(())
}

#[test]
fn literals_and_variables(rt: HostRuntime) -> Result<(), Fail> {
    terms(
        &rt,
        rt.alloc(),
        &[
            (&[0x00], Op::Zero, 0),
            (&[0x01], Op::One, 0),
            (&[0xFF], Op::Ones, 0),
            (&[0x0A, 0x80], Op::ByteConst, 1),
            (&[0x0B, 0x34, 0x12], Op::WordConst, 1),
            (&[0x0C, 0x78, 0x56, 0x34, 0x12], Op::DWordConst, 1),
            (
                &[0x0E, 0x08, 0x07, 0x06, 0x05, 0x04, 0x03, 0x02, 0x01],
                Op::QWordConst,
                1,
            ),
            (&[0x0D, b'A', 0x00], Op::String, 1),
            (&[0x11, 0x03, 0x01, 0xEE], Op::Buffer, 2),
            (&[0x12, 0x03, 0x01, 0xFF], Op::Package, 2),
            (&[0x13, 0x03, 0x60, 0xFF], Op::VarPackage, 2),
            (&[0x5B, 0x30], Op::Revision, 0),
            (&[0x60], Op::Local0, 0),
            (&[0x61], Op::Local1, 0),
            (&[0x62], Op::Local2, 0),
            (&[0x63], Op::Local3, 0),
            (&[0x64], Op::Local4, 0),
            (&[0x65], Op::Local5, 0),
            (&[0x66], Op::Local6, 0),
            (&[0x67], Op::Local7, 0),
            (&[0x68], Op::Arg0, 0),
            (&[0x69], Op::Arg1, 0),
            (&[0x6A], Op::Arg2, 0),
            (&[0x6B], Op::Arg3, 0),
            (&[0x6C], Op::Arg4, 0),
            (&[0x6D], Op::Arg5, 0),
            (&[0x6E], Op::Arg6, 0),
        ],
    )?;
    Ok(())
}

#[test]
fn arithmetic(rt: HostRuntime) -> Result<(), Fail> {
    terms(
        &rt,
        rt.alloc(),
        &[
            (&[0x72, 0x60, 0x61, 0x62], Op::Add, 3),
            (&[0x74, 0x60, 0x61, 0x62], Op::Subtract, 3),
            (&[0x75, 0x60], Op::Increment, 1),
            (&[0x76, 0x60], Op::Decrement, 1),
            (&[0x77, 0x60, 0x61, 0x62], Op::Multiply, 3),
            (&[0x78, 0x60, 0x61, 0x62, 0x63], Op::Divide, 4),
            (&[0x79, 0x60, 0x61, 0x62], Op::ShiftLeft, 3),
            (&[0x7A, 0x60, 0x61, 0x62], Op::ShiftRight, 3),
            (&[0x7B, 0x60, 0x61, 0x62], Op::And, 3),
            (&[0x7C, 0x60, 0x61, 0x62], Op::Nand, 3),
            (&[0x7D, 0x60, 0x61, 0x62], Op::Or, 3),
            (&[0x7E, 0x60, 0x61, 0x62], Op::Nor, 3),
            (&[0x7F, 0x60, 0x61, 0x62], Op::Xor, 3),
            (&[0x80, 0x60, 0x61], Op::Not, 2),
            (&[0x81, 0x60, 0x61], Op::FindSetLeftBit, 2),
            (&[0x82, 0x60, 0x61], Op::FindSetRightBit, 2),
            (&[0x85, 0x60, 0x61, 0x62], Op::Mod, 3),
            (&[0x90, 0x60, 0x61], Op::LAnd, 2),
            (&[0x91, 0x60, 0x61], Op::LOr, 2),
            (&[0x92, 0x60], Op::LNot, 1),
            (&[0x93, 0x60, 0x61], Op::LEqual, 2),
            (&[0x94, 0x60, 0x61], Op::LGreater, 2),
            (&[0x95, 0x60, 0x61], Op::LLess, 2),
            (&[0x5B, 0x28, 0x60, 0x61], Op::FromBcd, 2),
            (&[0x5B, 0x29, 0x60, 0x61], Op::ToBcd, 2),
        ],
    )?;
    Ok(())
}

#[test]
fn other_expressions(rt: HostRuntime) -> Result<(), Fail> {
    terms(
        &rt,
        rt.alloc(),
        &[
            (&[0x70, 0x60, 0x61], Op::Store, 2),
            (&[0x71, 0x60], Op::RefOf, 1),
            (&[0x73, 0x60, 0x61, 0x62], Op::Concatenate, 3),
            (&[0x83, 0x60], Op::DerefOf, 1),
            (&[0x84, 0x60, 0x61, 0x62], Op::ConcatenateResTemplate, 3),
            (&[0x87, 0x60], Op::SizeOf, 1),
            (&[0x88, 0x60, 0x61, 0x62], Op::Index, 3),
            (&[0x89, 0x60, 0x01, 0x61, 0x02, 0x62, 0x63], Op::Match, 6),
            (&[0x8E, 0x60], Op::ObjectType, 1),
            (&[0x96, 0x60, 0x61], Op::ToBuffer, 2),
            (&[0x97, 0x60, 0x61], Op::ToDecimalString, 2),
            (&[0x98, 0x60, 0x61], Op::ToHexString, 2),
            (&[0x99, 0x60, 0x61], Op::ToInteger, 2),
            (&[0x9C, 0x60, 0x61, 0x62], Op::ToString, 3),
            (&[0x9D, 0x60, 0x61], Op::CopyObject, 2),
            (&[0x9E, 0x60, 0x61, 0x62, 0x63], Op::Mid, 4),
            (&[0x5B, 0x12, 0x60, 0x61], Op::CondRefOf, 2),
            (
                &[0x5B, 0x1F, 0x60, 0x61, 0x62, 0x63, 0x64, 0x65],
                Op::LoadTable,
                6,
            ),
            (b"\x5B\x20ABC0\x60", Op::Load, 2),
            (b"\x5B\x23ABC0\xFF\xFF", Op::Acquire, 2),
            (b"\x5B\x25ABC0\x60", Op::Wait, 2),
            (&[0x5B, 0x33], Op::Timer, 0),
            (b"ABC0", Op::Invocation, 1),
        ],
    )?;
    Ok(())
}

#[test]
fn statements(rt: HostRuntime) -> Result<(), Fail> {
    terms(
        &rt,
        rt.alloc(),
        &[
            (b"\x86ABC0\x60", Op::Notify, 2),
            (&[0x9F], Op::Continue, 0),
            (&[0xA0, 0x02, 0x60], Op::If, 1),
            (&[0xA2, 0x02, 0x60], Op::While, 1),
            (&[0xA3], Op::Noop, 0),
            (&[0xA4, 0x60], Op::Return, 1),
            (&[0xA5], Op::Break, 0),
            (&[0xCC], Op::BreakPoint, 0),
            (&[0x5B, 0x21, 0x60], Op::Stall, 1),
            (&[0x5B, 0x22, 0x60], Op::Sleep, 1),
            (b"\x5B\x24ABC0", Op::Signal, 1),
            (b"\x5B\x26ABC0", Op::Reset, 1),
            (b"\x5B\x27ABC0", Op::Release, 1),
            (
                &[0x5B, 0x32, 0x01, 0x02, 0x00, 0x00, 0x00, 0x60],
                Op::Fatal,
                3,
            ),
        ],
    )?;
    Ok(())
}

#[test]
fn definitions(rt: HostRuntime) -> Result<(), Fail> {
    terms(
        &rt,
        rt.alloc(),
        &[
            (b"\x06ABC0DEF0", Op::Alias, 2),
            (b"\x08ABC0\x00", Op::Name, 2),
            (b"\x10\x05ABC0", Op::Scope, 1),
            (b"\x14\x06ABC0\x00", Op::Method, 3),
            (b"\x15ABC0\x08\x02", Op::External, 3),
            (b"\x8A\x60\x61ABC0", Op::CreateDWordField, 3),
            (b"\x8B\x60\x61ABC0", Op::CreateWordField, 3),
            (b"\x8C\x60\x61ABC0", Op::CreateByteField, 3),
            (b"\x8D\x60\x61ABC0", Op::CreateBitField, 3),
            (b"\x8F\x60\x61ABC0", Op::CreateQWordField, 3),
            (b"\x5B\x01ABC0\x0F", Op::Mutex, 2),
            (b"\x5B\x02ABC0", Op::Event, 1),
            (b"\x5B\x13\x60\x61\x62ABC0", Op::CreateField, 4),
            (b"\x5B\x80ABC0\x01\x60\x61", Op::OperationRegion, 4),
            (b"\x5B\x81\x06ABC0\x01", Op::Field, 2),
            (b"\x5B\x82\x05ABC0", Op::Device, 1),
            (
                b"\x5B\x83\x0BABC0\x01\x10\x04\x00\x00\x06",
                Op::Processor,
                4,
            ),
            (b"\x5B\x84\x08ABC0\x01\x02\x00", Op::PowerResource, 3),
            (b"\x5B\x85\x05ABC0", Op::ThermalZone, 1),
            (b"\x5B\x86\x0AABC0DEF0\x01", Op::IndexField, 3),
            (b"\x5B\x87\x0BABC0DEF0\x60\x01", Op::BankField, 4),
            (b"\x5B\x88ABC0\x60\x61\x62", Op::DataTableRegion, 4),
        ],
    )?;
    Ok(())
}
