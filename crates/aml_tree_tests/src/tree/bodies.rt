// Methods and their bodies.

use super::{Part, body_of, compare};
use aml_tree::{NoArguments, Op, Span, read_body, read_module};
use std::test::Fail;

/// A table of one method, Return (Add (Arg0, One)).
pub(super) const TABLE: [u8; 48] = [
    0x44, 0x53, 0x44, 0x54, 0x30, 0x00, 0x00, 0x00, 0x02, 0x1f, 0x41, 0x43, 0x50, 0x49, 0x43, 0x4b,
    0x52, 0x4f, 0x57, 0x53, 0x30, 0x30, 0x30, 0x31, 0x01, 0x00, 0x00, 0x00, 0x52, 0x4f, 0x57, 0x53,
    0x01, 0x00, 0x00, 0x00, 0x14, 0x0b, 0x4d, 0x30, 0x30, 0x30, 0x01, 0xa4, 0x72, 0x68, 0x01, 0x00,
];

#[test]
fn a_method(rt: HostRuntime) -> Result<(), Fail> {
    let alloc = rt.alloc();
    let definitions = read_module(alloc, &TABLE)?;
    compare(
        &rt,
        alloc,
        &definitions,
        &[
            (Op::Method, 36, 48, 3),
            (Op::NameString, 38, 42, 0),
            (Op::Number(1), 42, 43, 0),
            (Op::ByteList, 43, 48, 0),
        ],
    )?;
    let span = Span { at: 43, end: 48 };
    assert!(rt; span.is_within(&TABLE));
    let statements = read_body(alloc, &TABLE, span, &NoArguments)?;
    compare(
        &rt,
        alloc,
        &statements,
        &[
            (Op::Return, 43, 48, 1),
            (Op::Add, 44, 48, 3),
            (Op::Arg0, 45, 46, 0),
            (Op::One, 46, 47, 0),
            (Op::NullName, 47, 48, 0),
        ],
    )?;
    Ok(())
}

#[test]
fn rows(rt: HostRuntime) -> Result<(), Fail> {
    let rows: &[(&[u8], &[Part])] = &[
        // If (LEqual (Arg0, One)) { Return (MTH0 ()) } Else { Store (One, Local0) }
        (
            &[
                0xA0, 0x09, 0x93, 0x68, 0x01, 0xA4, b'M', b'T', b'H', b'0', 0xA1, 0x04, 0x70, 0x01,
                0x60,
            ],
            &[
                (Op::If, 0, 15, 3),
                (Op::LEqual, 2, 5, 2),
                (Op::Arg0, 3, 4, 0),
                (Op::One, 4, 5, 0),
                (Op::Return, 5, 10, 1),
                (Op::Invocation, 6, 10, 1),
                (Op::NameString, 6, 10, 0),
                (Op::Else, 10, 15, 1),
                (Op::Store, 12, 15, 2),
                (Op::One, 13, 14, 0),
                (Op::Local0, 14, 15, 0),
            ],
        ),
        // While (Local0) { If (LNot (Arg1)) { Continue } Store (MTH2 (..), Local1) Break }, where
        // the arguments are MTH0 () and MTH7 (Zero, One, Ones, Local0, Local1, Arg0, 5).
        (
            &[
                0xA2, 0x1E, 0x60, 0xA0, 0x04, 0x92, 0x69, 0x9F, 0x70, b'M', b'T', b'H', b'2', b'M',
                b'T', b'H', b'0', b'M', b'T', b'H', b'7', 0x00, 0x01, 0xFF, 0x60, 0x61, 0x68, 0x0A,
                0x05, 0x61, 0xA5,
            ],
            &[
                (Op::While, 0, 31, 4),
                (Op::Local0, 2, 3, 0),
                (Op::If, 3, 8, 2),
                (Op::LNot, 5, 7, 1),
                (Op::Arg1, 6, 7, 0),
                (Op::Continue, 7, 8, 0),
                (Op::Store, 8, 30, 2),
                (Op::Invocation, 9, 29, 3),
                (Op::NameString, 9, 13, 0),
                (Op::Invocation, 13, 17, 1),
                (Op::NameString, 13, 17, 0),
                (Op::Invocation, 17, 29, 8),
                (Op::NameString, 17, 21, 0),
                (Op::Zero, 21, 22, 0),
                (Op::One, 22, 23, 0),
                (Op::Ones, 23, 24, 0),
                (Op::Local0, 24, 25, 0),
                (Op::Local1, 25, 26, 0),
                (Op::Arg0, 26, 27, 0),
                (Op::ByteConst, 27, 29, 1),
                (Op::Number(5), 28, 29, 0),
                (Op::Local1, 29, 30, 0),
                (Op::Break, 30, 31, 0),
            ],
        ),
        // Before Name (ABC2, Zero) the name takes 2 arguments, behind it none, and `\ABC2` takes 2
        // still. CreateDWordField (Local0, Zero, DEF1) makes DEF1 an own name too, here spelled
        // with a count.
        (
            &[
                b'A', b'B', b'C', b'2', 0x01, 0x01, 0x08, b'A', b'B', b'C', b'2', 0x00, b'A', b'B',
                b'C', b'2', 0x5C, b'A', b'B', b'C', b'2', 0x01, 0x01, 0x8A, 0x60, 0x00, b'D', b'E',
                b'F', b'1', 0x2F, 0x01, b'D', b'E', b'F', b'1',
            ],
            &[
                (Op::Invocation, 0, 6, 3),
                (Op::NameString, 0, 4, 0),
                (Op::One, 4, 5, 0),
                (Op::One, 5, 6, 0),
                (Op::Name, 6, 12, 2),
                (Op::NameString, 7, 11, 0),
                (Op::Zero, 11, 12, 0),
                (Op::Invocation, 12, 16, 1),
                (Op::NameString, 12, 16, 0),
                (Op::Invocation, 16, 23, 3),
                (Op::NameString, 16, 21, 0),
                (Op::One, 21, 22, 0),
                (Op::One, 22, 23, 0),
                (Op::CreateDWordField, 23, 30, 3),
                (Op::Local0, 24, 25, 0),
                (Op::Zero, 25, 26, 0),
                (Op::NameString, 26, 30, 0),
                (Op::Invocation, 30, 36, 1),
                (Op::NameString, 30, 36, 0),
            ],
        ),
        // If (One) { Name (ABC1, Zero) } makes no own name, CreateField (Local0, Zero, One, GHI1)
        // makes one, and `^GHI1` is none. Name (ABC1, Revision) may stand in a body alone.
        (
            &[
                0xA0, 0x08, 0x01, 0x08, b'A', b'B', b'C', b'1', 0x00, b'A', b'B', b'C', b'1', 0x01,
                0x5B, 0x13, 0x60, 0x00, 0x01, b'G', b'H', b'I', b'1', b'G', b'H', b'I', b'1', 0x5E,
                b'G', b'H', b'I', b'1', 0x01, 0x08, b'A', b'B', b'C', b'1', 0x5B, 0x30, b'A', b'B',
                b'C', b'1',
            ],
            &[
                (Op::If, 0, 9, 2),
                (Op::One, 2, 3, 0),
                (Op::Name, 3, 9, 2),
                (Op::NameString, 4, 8, 0),
                (Op::Zero, 8, 9, 0),
                (Op::Invocation, 9, 14, 2),
                (Op::NameString, 9, 13, 0),
                (Op::One, 13, 14, 0),
                (Op::CreateField, 14, 23, 4),
                (Op::Local0, 16, 17, 0),
                (Op::Zero, 17, 18, 0),
                (Op::One, 18, 19, 0),
                (Op::NameString, 19, 23, 0),
                (Op::Invocation, 23, 27, 1),
                (Op::NameString, 23, 27, 0),
                (Op::Invocation, 27, 33, 2),
                (Op::NameString, 27, 32, 0),
                (Op::One, 32, 33, 0),
                (Op::Name, 33, 40, 2),
                (Op::NameString, 34, 38, 0),
                (Op::Revision, 38, 40, 0),
                (Op::Invocation, 40, 44, 1),
                (Op::NameString, 40, 44, 0),
            ],
        ),
    ];
    for (bytes, parts) in rows {
        compare(&rt, rt.alloc(), &body_of(rt.alloc(), bytes)?, parts)?;
    }
    Ok(())
}
