// What is there at once, and what is not (ACPI 6.5, 19.6 and 20.2). A term takes a step, and so
// does each in it; where there is no target, that takes none.

use crate::scenes::{Asked, answer};
use aml_namespace::LoadFault;
use aml_quick::Made;
use std::process::Abort;
use std::test::Fail;

/// Bytes, what is asked of them, the steps that are given, and the integer, the place behind it and
/// the steps that are left, if there is an answer.
type Row = (&'static [u8], Asked, u64, Option<(u64, usize, u64)>);

const ROWS: &[Row] = &[
    // Zero, One, Ones, 0x7F, 0x1234, 0x12345678 and 0x123456789ABCDEF0
    (b"\x00", Asked::Term, 9, Some((0, 1, 8))),
    (b"\x01", Asked::Term, 9, Some((1, 1, 8))),
    (b"\xFF", Asked::Term, 9, Some((u64::MAX, 1, 8))),
    (b"\x0A\x7F", Asked::Term, 9, Some((0x7F, 2, 8))),
    (b"\x0B\x34\x12", Asked::Term, 9, Some((0x1234, 3, 8))),
    (
        b"\x0C\x78\x56\x34\x12",
        Asked::Term,
        9,
        Some((0x12345678, 5, 8)),
    ),
    (
        b"\x0E\xF0\xDE\xBC\x9A\x78\x56\x34\x12",
        Asked::Term,
        9,
        Some((0x123456789ABCDEF0, 9, 8)),
    ),
    // Arg0 with its step, without one, and an argument and a local that hold nothing
    (b"\x68", Asked::Term, 1, Some((41, 1, 0))),
    (b"\x68", Asked::Term, 0, None),
    (b"\x6B", Asked::Term, 9, None),
    (b"\x60", Asked::Term, 9, None),
    // Add (Arg0, One), Add (Multiply (Arg0, 3), 7), and the latter with five steps and with four
    (b"\x72\x68\x01\x00", Asked::Term, 9, Some((42, 4, 6))),
    (
        b"\x72\x77\x68\x0A\x03\x00\x0A\x07\x00",
        Asked::Term,
        5,
        Some((130, 9, 0)),
    ),
    (
        b"\x72\x77\x68\x0A\x03\x00\x0A\x07\x00",
        Asked::Term,
        4,
        None,
    ),
    // Mod (Arg0, 7), and Mod (Arg0, Arg2), whose divisor is zero
    (b"\x85\x68\x0A\x07\x00", Asked::Term, 9, Some((6, 5, 6))),
    (b"\x85\x68\x6A\x00", Asked::Term, 9, None),
    // Not (Arg2), LLess (Arg0, 42), LEqual (Arg0, 42), LNot (Arg2), ToInteger (Arg0)
    (b"\x80\x6A\x00", Asked::Term, 9, Some((u64::MAX, 3, 7))),
    (b"\x95\x68\x0A\x2A", Asked::Term, 9, Some((u64::MAX, 4, 6))),
    (b"\x93\x68\x0A\x2A", Asked::Term, 9, Some((0, 4, 6))),
    (b"\x92\x6A", Asked::Term, 9, Some((u64::MAX, 2, 7))),
    (b"\x99\x68\x00", Asked::Term, 9, Some((41, 3, 7))),
    // Add (Arg0, One, Local0), which has a target, and SizeOf (Arg1)
    (b"\x72\x68\x01\x60", Asked::Term, 9, None),
    (b"\x87\x69", Asked::Term, 9, None),
    // DerefOf (Index (Arg1, Zero)), whose element is an integer, and of One, where it is a package
    (b"\x83\x88\x69\x00\x00", Asked::Term, 9, Some((5, 5, 5))),
    (b"\x83\x88\x69\x01\x00", Asked::Term, 9, None),
    // DerefOf (Index (DerefOf (Index (Arg1, One)), One)), and past the end of the inner package
    (
        b"\x83\x88\x83\x88\x69\x01\x00\x01\x00",
        Asked::Term,
        9,
        Some((9, 9, 2)),
    ),
    (
        b"\x83\x88\x83\x88\x69\x01\x00\x0A\x02\x00",
        Asked::Term,
        9,
        None,
    ),
    // eight LNots in one another, and nine
    (
        b"\x92\x92\x92\x92\x92\x92\x92\x92\x6A",
        Asked::Term,
        9,
        Some((0, 9, 0)),
    ),
    (
        b"\x92\x92\x92\x92\x92\x92\x92\x92\x92\x6A",
        Asked::Term,
        99,
        None,
    ),
    // Store (Arg0, Local0), Increment (Arg0), Decrement (Arg0), Add (Arg0, One, Local7), Not (Arg0,
    // Local1)
    (b"\x70\x68\x60", Asked::Statement, 9, Some((41, 2, 7))),
    (b"\x75\x68", Asked::Statement, 9, Some((42, 1, 7))),
    (b"\x76\x68", Asked::Statement, 9, Some((40, 1, 7))),
    (b"\x72\x68\x01\x67", Asked::Statement, 9, Some((42, 3, 6))),
    (b"\x80\x68\x61", Asked::Statement, 9, Some((!41, 2, 7))),
    // Store (Arg1, Local0), whose source is no integer, and Noop
    (b"\x70\x69\x60", Asked::Statement, 9, None),
    (b"\xA3", Asked::Statement, 9, None),
    // ONE1 (Arg0), whose call takes six steps, with six and with five, and with another argument;
    // and in the last method that may be active
    (b"ONE1\x68", Asked::Term, 6, Some((42, 5, 0))),
    (b"ONE1\x68", Asked::Term, 5, None),
    (b"ONE1\x69", Asked::Term, 9, None),
    (b"ONE1\x68", Asked::Deepest, 9, None),
    // TWO2 (Arg0, One), NEST (Arg0), HELD ()
    (b"TWO2\x68\x01", Asked::Term, 9, Some((40, 6, 2))),
    (b"NEST\x68", Asked::Term, 20, Some((43, 5, 6))),
    (b"HELD", Asked::Term, 9, Some((7, 4, 6))),
    // Store (ONE1 (Arg0), Local0), and calls of a method that begins with a Noop, and of one that
    // reads a local of its own
    (b"\x70ONE1\x68\x60", Asked::Statement, 9, Some((42, 6, 2))),
    (b"LATE", Asked::Term, 9, None),
    (b"FREE", Asked::Term, 9, None),
    // 7 into Local0 and into Local7, which are read then; without a step, and into Arg0
    (b"\x60\x60", Asked::Put, 9, Some((7, 2, 7))),
    (b"\x67\x72\x67\x01\x00", Asked::Put, 9, Some((8, 5, 5))),
    (b"\x60\x60", Asked::Put, 0, None),
    (b"\x68\x68", Asked::Put, 9, None),
    // the byte of INT0 by Arg0, and by Add (One, One) with the steps that it takes and with one
    // less
    (b"INT0\x68\x00", Asked::Written, 9, Some((41, 6, 8))),
    (
        b"INT0\x72\x01\x01\x00\x00",
        Asked::Written,
        3,
        Some((2, 9, 0)),
    ),
    (b"INT0\x72\x01\x01\x00\x00", Asked::Written, 2, None),
    // with a target of its own, by a package, of a method, and of a local
    (b"INT0\x68\x60", Asked::Written, 9, None),
    (b"INT0\x69\x00", Asked::Written, 9, None),
    (b"HELD\x68\x00", Asked::Written, 9, None),
    (b"\x60\x68\x00", Asked::Written, 9, None),
];

/// What an answer has.
fn parts(made: Option<Made>) -> Option<(u64, usize, u64)> {
    match made {
        Some(made) => Some((made.number, made.next, made.steps)),
        None => None,
    }
}

#[test]
fn rows_of_integers_at_once(rt: HostRuntime) -> Result<(), Fail> {
    for (bytes, asked, steps, wanted) in ROWS {
        let made = match answer(rt.alloc(), bytes, *asked, *steps) {
            Err(LoadFault::NoMemory) => answer(rt.alloc(), bytes, *asked, *steps)?,
            told => told?,
        };
        assert_eq!(rt; parts(made), *wanted);
    }
    Ok(())
}
