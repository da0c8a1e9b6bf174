// What names hold where memory is wanted within an evaluation: what they hold behind some number
// of its steps. The states that each evaluation goes through were worked out by hand (ACPI 6.5,
// 19.6, Store).

use crate::outcomes::{Wanted, ends, first_names, gives, outcome_in};
use acpi_samples::{HOST, table_of};
use aml_contents::Names;
use aml_meaning::{AmlCause, Outcome};
use aml_namespace::{LoadFault, Namespace};
use aml_paths::ObjectId;
use aml_regions::RegisterFile;
use std::alloc::Global;
use std::process::Abort;
use std::test::Fail;

/// What some names hold, by the numbers of their objects.
type State = &'static [(usize, Wanted)];

/// A module, the number of its method, steps, what is wanted, the states that it goes through, and
/// the number of the last one that it comes to, from 0.
type Row = (&'static [u8], usize, u64, Wanted, &'static [State], usize);

/// Whether names are in a state.
fn are_in(names: &Names, state: State) -> bool {
    for (number, wanted) in state {
        if !names
            .get(ObjectId(*number))
            .is_some_and(|value| gives(value, *wanted))
        {
            return false;
        }
    }
    true
}

/// Whether names are in one of some states, up to the one with that number.
fn are_in_one(names: &Names, states: &[State], last: usize) -> bool {
    for (i, state) in states.iter().enumerate() {
        if i <= last && are_in(names, state) {
            return true;
        }
    }
    false
}

/// Whether names are in the state with that number.
fn are_in_last(names: &Names, states: &[State], last: usize) -> bool {
    match states.get(last) {
        Some(state) => are_in(names, state),
        None => false,
    }
}

/// Whether an outcome is the wanted one and names are in the last state then; or memory is wanted,
/// and they are in one of the states.
fn is_right(found: &Result<Outcome, LoadFault>, names: &Names, row: Row) -> bool {
    let (_, _, _, wanted, states, last) = row;
    match found {
        Ok(outcome) => ends(outcome, wanted) && are_in_last(names, states, last),
        Err(_) => are_in_one(names, states, last),
    }
}

/// A row is evaluated, or memory is wanted.
fn is_evaluated(rt: &impl Abort, alloc: Global, row: Row) -> Result<(), LoadFault> {
    let (module, number, fuel, _, _, _) = row;
    let table = table_of(alloc, *b"DSDT", 2, module)?;
    let namespace = Namespace::load(alloc, &[&table], HOST)?;
    assert!(rt; namespace.method(ObjectId(number)).is_some());
    let id = ObjectId(number);
    let mut names = first_names(alloc, &namespace)?;
    let mut world = RegisterFile::new(alloc);
    let found = outcome_in(alloc, &namespace, id, &mut names, &mut world, fuel);
    assert!(rt; is_right(&found, &names, row), "{module:?} {fuel}");
    found.map(|_| ())
}

/// Each row is evaluated; once more where memory is wanted the first time.
fn each_is_evaluated(rt: &impl Abort, alloc: Global, rows: &[Row]) -> Result<(), LoadFault> {
    for row in rows {
        match is_evaluated(rt, alloc, *row) {
            Err(LoadFault::NoMemory) => is_evaluated(rt, alloc, *row)?,
            told => told?,
        }
    }
    Ok(())
}

/// Method (AAAA) {Return (BBBB ())}, Method (BBBB) {Return (AAAA ())}, Method (CCCC) {Return (AAAA
/// ())}.
const ONE_ANOTHER: &[u8] =
    b"\x14\x0bAAAA\x00\xa4BBBB\x14\x0bBBBB\x00\xa4AAAA\x14\x0bCCCC\x00\xa4AAAA";

/// What names hold first where a table defines none: `_REV` and `_OS_`.
const UNCHANGED: &[State] = &[&[(5, Wanted::Int(2)), (7, Wanted::Str(b"Other"))]];

/// Method (MAIN) {Divide (7, 2, Local0, Local0) Return (Local0)}.
const DIVIDED: &[u8] = b"\x14\x0fMAIN\x00\x78\x0a\x07\x0a\x02\x60\x60\xa4\x60";

/// Name (INT0, Zero), Name (INT1, Zero), Method (MAIN) {Divide (7, 2, INT0, INT1)}.
const DIVIDED_INTO_NAMES: &[u8] =
    b"\x08INT0\x00\x08INT1\x00\x14\x13MAIN\x00\x78\x0a\x07\x0a\x02INT0INT1";

/// Name (INT0, One), Method (MAIN) {Return (Store (5, INT0))}, whose Store may not stand there.
const NOT_STORED: &[u8] = b"\x08INT0\x01\x14\x0eMAIN\x00\xa4\x70\x0a\x05INT0";

/// INT0 holds what it held first.
const STILL_ONE: &[State] = &[&[(9, Wanted::Int(1))]];

/// The remainder is stored before the quotient.
const QUOTIENT_LAST: &[State] = &[
    &[(9, Wanted::Int(0)), (10, Wanted::Int(0))],
    &[(9, Wanted::Int(1)), (10, Wanted::Int(0))],
    &[(9, Wanted::Int(1)), (10, Wanted::Int(3))],
];

#[test]
fn rows_of_integers_refused_in_turn(rt: HostRuntime) -> Result<(), Fail> {
    let rows: &[Row] = &[
        (
            ONE_ANOTHER,
            9,
            128,
            Wanted::Error(AmlCause::Depth, 56),
            UNCHANGED,
            0,
        ),
        (ONE_ANOTHER, 9, 127, Wanted::OutOfSteps, UNCHANGED, 0),
        (
            ONE_ANOTHER,
            11,
            128,
            Wanted::Error(AmlCause::Depth, 44),
            UNCHANGED,
            0,
        ),
        (DIVIDED, 9, 7, Wanted::Int(3), UNCHANGED, 0),
        (DIVIDED, 9, 6, Wanted::OutOfSteps, UNCHANGED, 0),
        (DIVIDED_INTO_NAMES, 11, 5, Wanted::Nothing, QUOTIENT_LAST, 2),
        (
            DIVIDED_INTO_NAMES,
            11,
            4,
            Wanted::OutOfSteps,
            QUOTIENT_LAST,
            1,
        ),
        (
            DIVIDED_INTO_NAMES,
            11,
            3,
            Wanted::OutOfSteps,
            QUOTIENT_LAST,
            0,
        ),
        (
            NOT_STORED,
            10,
            2,
            Wanted::Error(AmlCause::Outside, 50),
            STILL_ONE,
            0,
        ),
    ];
    each_is_evaluated(&rt, rt.alloc(), rows)?;
    Ok(())
}

/// Name (BUF0, Buffer (16) {}), Method (MAIN) {Store (Zero, Local0) While (LLess (Local0, 16))
/// {Store (Local0, Index (BUF0, Local0)) Increment (Local0)} Return (BUF0)}.
const FILLED: &[u8] = b"\x08BUF0\x11\x03\x0a\x10\x14\x1fMAIN\x00\x70\x00\x60\
    \xa2\x10\x95\x60\x0a\x10\x70\x60\x88BUF0\x60\x00\x75\x60\xa4BUF0";

/// BUF0 behind each byte that is written; the first one is zero already.
const BYTES: &[State] = &[
    &[(9, Wanted::Buf(&[0; 16]))],
    &[(
        9,
        Wanted::Buf(&[0, 1, 0, 0, 0, 0, 0, 0, 0, 0, 0, 0, 0, 0, 0, 0]),
    )],
    &[(
        9,
        Wanted::Buf(&[0, 1, 2, 0, 0, 0, 0, 0, 0, 0, 0, 0, 0, 0, 0, 0]),
    )],
    &[(
        9,
        Wanted::Buf(&[0, 1, 2, 3, 0, 0, 0, 0, 0, 0, 0, 0, 0, 0, 0, 0]),
    )],
    &[(
        9,
        Wanted::Buf(&[0, 1, 2, 3, 4, 0, 0, 0, 0, 0, 0, 0, 0, 0, 0, 0]),
    )],
    &[(
        9,
        Wanted::Buf(&[0, 1, 2, 3, 4, 5, 0, 0, 0, 0, 0, 0, 0, 0, 0, 0]),
    )],
    &[(
        9,
        Wanted::Buf(&[0, 1, 2, 3, 4, 5, 6, 0, 0, 0, 0, 0, 0, 0, 0, 0]),
    )],
    &[(
        9,
        Wanted::Buf(&[0, 1, 2, 3, 4, 5, 6, 7, 0, 0, 0, 0, 0, 0, 0, 0]),
    )],
    &[(
        9,
        Wanted::Buf(&[0, 1, 2, 3, 4, 5, 6, 7, 8, 0, 0, 0, 0, 0, 0, 0]),
    )],
    &[(
        9,
        Wanted::Buf(&[0, 1, 2, 3, 4, 5, 6, 7, 8, 9, 0, 0, 0, 0, 0, 0]),
    )],
    &[(
        9,
        Wanted::Buf(&[0, 1, 2, 3, 4, 5, 6, 7, 8, 9, 10, 0, 0, 0, 0, 0]),
    )],
    &[(
        9,
        Wanted::Buf(&[0, 1, 2, 3, 4, 5, 6, 7, 8, 9, 10, 11, 0, 0, 0, 0]),
    )],
    &[(
        9,
        Wanted::Buf(&[0, 1, 2, 3, 4, 5, 6, 7, 8, 9, 10, 11, 12, 0, 0, 0]),
    )],
    &[(
        9,
        Wanted::Buf(&[0, 1, 2, 3, 4, 5, 6, 7, 8, 9, 10, 11, 12, 13, 0, 0]),
    )],
    &[(
        9,
        Wanted::Buf(&[0, 1, 2, 3, 4, 5, 6, 7, 8, 9, 10, 11, 12, 13, 14, 0]),
    )],
    &[(9, Wanted::Buf(ALL))],
];

const ALL: &[u8] = &[0, 1, 2, 3, 4, 5, 6, 7, 8, 9, 10, 11, 12, 13, 14, 15];

#[test]
fn rows_of_a_filled_buffer_refused_in_turn(rt: HostRuntime) -> Result<(), Fail> {
    let rows: &[Row] = &[
        (FILLED, 10, 169, Wanted::Buf(ALL), BYTES, 15),
        (FILLED, 10, 168, Wanted::OutOfSteps, BYTES, 15),
        // a turn costs 10 steps: its test 3, the store of a byte 4 and the Increment 3; four come
        // before the first
        (FILLED, 10, 31, Wanted::OutOfSteps, BYTES, 2),
        (FILLED, 10, 30, Wanted::OutOfSteps, BYTES, 1),
    ];
    each_is_evaluated(&rt, rt.alloc(), rows)?;
    Ok(())
}

/// Method (MAIN) {Store (MAKE (One), Local0) Store (DerefOf (Index (Local0, Zero)), BUF0) Store
/// (MAKE (2), Local1) Store (DerefOf (Index (Local1, One)), STR0) Return (DerefOf (Index (Local1,
/// Zero)))}, Name (CNT0, Zero), Name (BUF0, Buffer (2) {}), Name (STR0, "ab"), Method (MAKE, 1)
/// {Add (CNT0, Arg0, CNT0) Return (Package (3) {Buffer (2) {1, 2}, "xy", Package (1) {7}})}.
const CALLED: &[u8] = b"\x14\x2fMAIN\x00\x70MAKE\x01\x60\x70\x83\x88\x60\x00\x00BUF0\
    \x70MAKE\x0a\x02\x61\x70\x83\x88\x61\x01\x00STR0\xa4\x83\x88\x61\x00\x00\
    \x08CNT0\x00\x08BUF0\x11\x03\x0a\x02\x08STR0\x0dab\x00\
    \x14\x23MAKE\x01\x72CNT0\x68CNT0\
    \xa4\x12\x11\x03\x11\x05\x0a\x02\x01\x02\x0dxy\x00\x12\x04\x01\x0a\x07";

/// CNT0, BUF0 and STR0 behind each store into one of them.
const STORED: &[State] = &[
    &[
        (10, Wanted::Int(0)),
        (11, Wanted::Buf(&[0, 0])),
        (12, Wanted::Str(b"ab")),
    ],
    &[
        (10, Wanted::Int(1)),
        (11, Wanted::Buf(&[0, 0])),
        (12, Wanted::Str(b"ab")),
    ],
    &[
        (10, Wanted::Int(1)),
        (11, Wanted::Buf(&[1, 2])),
        (12, Wanted::Str(b"ab")),
    ],
    &[
        (10, Wanted::Int(3)),
        (11, Wanted::Buf(&[1, 2])),
        (12, Wanted::Str(b"ab")),
    ],
    &[
        (10, Wanted::Int(3)),
        (11, Wanted::Buf(&[1, 2])),
        (12, Wanted::Str(b"xy")),
    ],
];

/// A call of MAKE costs 8 steps with its argument, of which the store into CNT0 is the sixth.
#[test]
fn rows_of_calls_and_packages_refused_in_turn(rt: HostRuntime) -> Result<(), Fail> {
    let rows: &[Row] = &[
        (CALLED, 9, 37, Wanted::Buf(&[1, 2]), STORED, 4),
        (CALLED, 9, 36, Wanted::OutOfSteps, STORED, 4),
        (CALLED, 9, 32, Wanted::OutOfSteps, STORED, 4),
        (CALLED, 9, 31, Wanted::OutOfSteps, STORED, 3),
        (CALLED, 9, 23, Wanted::OutOfSteps, STORED, 3),
        (CALLED, 9, 22, Wanted::OutOfSteps, STORED, 2),
        (CALLED, 9, 16, Wanted::OutOfSteps, STORED, 2),
        (CALLED, 9, 15, Wanted::OutOfSteps, STORED, 1),
        (CALLED, 9, 7, Wanted::OutOfSteps, STORED, 1),
        (CALLED, 9, 6, Wanted::OutOfSteps, STORED, 0),
    ];
    each_is_evaluated(&rt, rt.alloc(), rows)?;
    Ok(())
}

/// Name (STR0, "ab"), Method (MAIN) {Concatenate (STR0, "", STR0) Return (STR0)}.
const JOINED: &[u8] = b"\x08STR0\x0dab\x00\x14\x16MAIN\x00\x73STR0\x0d\x00STR0\xa4STR0";

/// Name (STR0, "ab"), Method (MAIN) {Concatenate (STR0, "c", STR0)}, which is longer than what
/// STR0 may hold.
const LONGER: &[u8] = b"\x08STR0\x0dab\x00\x14\x12MAIN\x00\x73STR0\x0dc\x00STR0";

/// Name (STR0, "ab"), Method (MAIN) {Store (Concatenate ("x", "y"), STR0)
/// Store (Concatenate ("p", "q"), STR0)}.
const STORED_TWICE: &[u8] = b"\x08STR0\x0dab\x00\x14\x20MAIN\x00\
    \x70\x73\x0dx\x00\x0dy\x00\x00STR0\x70\x73\x0dp\x00\x0dq\x00\x00STR0";

const STILL_AB: &[State] = &[&[(9, Wanted::Str(b"ab"))]];

const FIRST_AB: &[State] = &[
    &[(9, Wanted::Str(b"ab"))],
    &[(9, Wanted::Str(b"xy"))],
    &[(9, Wanted::Str(b"pq"))],
];

#[test]
fn rows_of_strings_refused_in_turn(rt: HostRuntime) -> Result<(), Fail> {
    let rows: &[Row] = &[
        (JOINED, 10, 6, Wanted::Str(b"ab"), STILL_AB, 0),
        (JOINED, 10, 5, Wanted::OutOfSteps, STILL_AB, 0),
        (
            LONGER,
            10,
            4,
            Wanted::Error(AmlCause::Kind, 60),
            STILL_AB,
            0,
        ),
        (LONGER, 10, 3, Wanted::OutOfSteps, STILL_AB, 0),
        (STORED_TWICE, 10, 10, Wanted::Nothing, FIRST_AB, 2),
        (STORED_TWICE, 10, 9, Wanted::OutOfSteps, FIRST_AB, 1),
        (STORED_TWICE, 10, 4, Wanted::OutOfSteps, FIRST_AB, 0),
    ];
    each_is_evaluated(&rt, rt.alloc(), rows)?;
    Ok(())
}
