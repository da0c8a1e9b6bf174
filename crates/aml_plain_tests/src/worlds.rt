// Evaluations over a world that refuses behind so many calls, and over one of ones. Accesses were
// worked out by hand (ACPI 6.5, 5.5.2.4 and 19.6, Field, IndexField).

use crate::outcomes::{Wanted, ends, first_names, outcome_in};
use acpi_samples::{HOST, table_of};
use aml_meaning::Outcome;
use aml_namespace::{LoadFault, Namespace};
use aml_paths::ObjectId;
use aml_regions::{Access, AllOnes, Event, Refusing, RegisterFile, RegistersFault, World};
use std::alloc::Global;
use std::process::Abort;
use std::test::Fail;

/// An access of a port of one byte.
#[derive(Clone, Copy, Debug, PartialEq, Eq)]
enum Port {
    /// By its address, with what was answered.
    Read(u64, u64),
    /// By its address, with what it was given.
    Written(u64, u64),
}

/// The access of a port that an event is.
fn port_of(event: &Event) -> Option<Port> {
    match event {
        Event::Read(access, value) if is_port(access) => Some(Port::Read(access.address, *value)),
        Event::Written(access, value) if is_port(access) => {
            Some(Port::Written(access.address, *value))
        }
        _ => None,
    }
}

fn is_port(access: &Access) -> bool {
    access.space == 1 && access.width == 8
}

/// Whether events are just these accesses.
fn are_ports(events: &[Event], ports: &[Port]) -> bool {
    if events.len() != ports.len() {
        return false;
    }
    for (event, port) in events.iter().zip(ports) {
        if port_of(event) != Some(*port) {
            return false;
        }
    }
    true
}

/// OperationRegion (GPIO, SystemIO, 0x60, 4), Field (GPIO, ByteAcc, NoLock, Preserve) {, 4, FLD0,
/// 8}, Method (MAIN) {Store (0xab, FLD0)}, which is object 11.
const PRESERVED: &[u8] = b"\x5b\x80GPIO\x01\x0a\x60\x0a\x04\x5b\x81\x0dGPIO\x01\x00\x04FLD0\x08\
    \x14\x0dMAIN\x00\x70\x0a\xabFLD0";

/// OperationRegion (RTCR, SystemIO, 0x70, 2), Field (RTCR, ByteAcc, NoLock, Preserve) {IDX0, 8,
/// DAT0, 8}, IndexField (IDX0, DAT0, ByteAcc, NoLock, Preserve) {, 20, RTC0, 4}, Method (MAIN)
/// {Store (3, RTC0)}, which is object 13.
const INDEXED: &[u8] = b"\x5b\x80RTCR\x01\x0a\x70\x0a\x02\x5b\x81\x10RTCR\x01IDX0\x08DAT0\x08\
    \x5b\x86\x11IDX0DAT0\x01\x00\x14RTC0\x04\x14\x0dMAIN\x00\x70\x0a\x03RTC0";

/// A module, the number of its method, registers, and the accesses of its evaluation, which takes 7
/// steps.
type Row = (&'static [u8], usize, &'static [u8], &'static [Port]);

const ROWS: &[Row] = &[
    (
        PRESERVED,
        11,
        b"io 60 1527",
        &[
            Port::Read(0x60, 0x15),
            Port::Written(0x60, 0xb5),
            Port::Read(0x61, 0x27),
            Port::Written(0x61, 0x2a),
        ],
    ),
    (
        INDEXED,
        13,
        b"io 71 5a",
        &[
            Port::Written(0x70, 2),
            Port::Read(0x71, 0x5a),
            Port::Written(0x70, 2),
            Port::Written(0x71, 0x3a),
        ],
    ),
];

/// The outcome of a method of a module over a world.
fn outcome_over<W: World>(
    rt: &impl Abort,
    alloc: Global,
    module: &[u8],
    number: usize,
    world: &mut W,
) -> Result<Outcome, LoadFault> {
    let table = table_of(alloc, *b"DSDT", 2, module)?;
    let namespace = Namespace::load(alloc, &[&table], HOST)?;
    assert!(rt; namespace.method(ObjectId(number)).is_some());
    let mut names = first_names(alloc, &namespace)?;
    outcome_in(alloc, &namespace, ObjectId(number), &mut names, world, 7)
}

/// The registers that a text sets.
fn registers(alloc: Global, text: &[u8]) -> Result<RegisterFile, LoadFault> {
    match RegisterFile::read_text(alloc, text) {
        Ok(file) => Ok(file),
        Err(RegistersFault::NoMemory) => Err(LoadFault::NoMemory),
        Err(_) => Ok(RegisterFile::new(alloc)),
    }
}

/// Whether an evaluation in a world that answers so many calls makes just these accesses: wants
/// memory behind them, and one refusal is counted, or makes all.
fn is_right(
    ended: &Result<Outcome, LoadFault>,
    events: &[Event],
    refusals: u64,
    all: &[Port],
    passes: usize,
) -> bool {
    if passes < all.len() {
        let is_refused = matches!(ended, Err(LoadFault::NoMemory)) && refusals == 1;
        return is_refused && are_ports(events, &all[..passes]);
    }
    match ended {
        Ok(found) => ends(found, Wanted::Nothing) && refusals == 0 && are_ports(events, all),
        Err(_) => false,
    }
}

/// The same of a row.
fn is_refused_behind(
    rt: &impl Abort,
    alloc: Global,
    row: Row,
    passes: usize,
) -> Result<bool, LoadFault> {
    let (module, number, text, accesses) = row;
    let mut world = Refusing::new(registers(alloc, text)?, passes as u64);
    let ended = outcome_over(rt, alloc, module, number, &mut world);
    let made = world.inner().events();
    Ok(is_right(&ended, made, world.refusals(), accesses, passes))
}

/// The same behind each of the first calls and behind all.
fn is_refused_behind_each(rt: &impl Abort, alloc: Global, row: Row) -> Result<bool, LoadFault> {
    for passes in 0..5 {
        if !is_refused_behind(rt, alloc, row, passes)? {
            return Ok(false);
        }
    }
    Ok(true)
}

#[test]
fn refused_calls_leave_the_first_accesses(rt: HostRuntime) -> Result<(), Fail> {
    for row in ROWS {
        assert!(rt; is_refused_behind_each(&rt, rt.alloc(), *row)?, "{row:?}");
    }
    Ok(())
}

#[test]
fn bits_beside_a_field_stay_ones(rt: HostRuntime) -> Result<(), Fail> {
    let mut world = AllOnes::new(rt.alloc());
    let ended = outcome_over(&rt, rt.alloc(), PRESERVED, 11, &mut world)?;
    let accesses = [
        Port::Read(0x60, 0xff),
        Port::Written(0x60, 0xbf),
        Port::Read(0x61, 0xff),
        Port::Written(0x61, 0xfa),
    ];
    assert!(rt; ends(&ended, Wanted::Nothing) && are_ports(world.events(), &accesses));
    Ok(())
}
