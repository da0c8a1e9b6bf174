// Worlds that answer accesses: the register file, one of ones alone, and one that refuses every
// call. Expected values were worked out by hand.

ghost use Rattle.std.specs.Prelude.{◌<◌, ◌^◌};
ghost use Rattle.aml_regions.specs.Worlds.{IsUnit};

use aml_contents::Names;
use aml_paths::{NoMemory, ObjectId};
use aml_regions::{Access, AllOnes, Event, Refusing, RegisterFile, RegistersFault, World};
use std::test::Fail;

/// An event, but of a Sleep only whether it left other contents.
#[derive(Clone, Copy, Debug, PartialEq, Eq)]
enum Call {
    Read(Access, u64),
    Written(Access, u64),
    Notified(ObjectId, u64),
    Slept(u64, bool),
    Stalled(u64),
}

fn call_of(event: &Event) -> Call {
    match event {
        Event::Read(access, value) => Call::Read(*access, *value),
        Event::Written(access, value) => Call::Written(*access, *value),
        Event::Notified(object, value) => Call::Notified(*object, *value),
        Event::Slept(milliseconds, left) => Call::Slept(*milliseconds, left.is_some()),
        Event::Stalled(microseconds) => Call::Stalled(*microseconds),
    }
}

/// Whether events are just these.
fn are_calls(events: &[Event], calls: &[Call]) -> bool {
    for (event, call) in events.iter().zip(calls) {
        if call_of(event) != *call {
            return false;
        }
    }
    events.len() == calls.len()
}

/// A value written to a unit and read back, in any world.
fn written_and_read<W: World>(world: &mut W, access: Access, value: u64) -> Result<u64, NoMemory>
    requires unit { IsUnit access }
    requires fits { value < 2 ^ access.width }
{
    world.write(access, value)?;
    world.read(access)
}

/// The last unit of eight bytes in system memory.
const LAST_WIDE: Access = Access {
    space: 0,
    address: 0xffff_ffff_ffff_fff8,
    width: 64,
};

/// The last byte of system memory.
const LAST_BYTE: Access = Access {
    space: 0,
    address: 0xffff_ffff_ffff_ffff,
    width: 8,
};

/// The same byte of system I/O.
const OTHER_SPACE: Access = Access {
    space: 1,
    address: 0xffff_ffff_ffff_ffff,
    width: 8,
};

/// Two bytes in the midst of the last eight.
const WITHIN: Access = Access {
    space: 0,
    address: 0xffff_ffff_ffff_fffb,
    width: 16,
};

#[test]
fn bytes_that_were_never_set_are_zero(rt: HostRuntime) -> Result<(), Fail> {
    let mut file = RegisterFile::new(rt.alloc());
    let found = file.read(LAST_WIDE)?;
    assert_eq!(rt; (file.byte(0, 0), found, file.refusals()), (0, 0, 0));
    assert!(rt; are_calls(file.events(), &[Call::Read(LAST_WIDE, 0)]));
    Ok(())
}

/// What units that overlap give, before and behind a write of some of their bytes.
fn overlapping(file: &mut RegisterFile) -> Result<[u64; 6], NoMemory> {
    let back = written_and_read(file, LAST_WIDE, 0x8877_6655_4433_2211)?;
    let byte = file.read(LAST_BYTE)?;
    let within = file.read(WITHIN)?;
    let changed = written_and_read(file, WITHIN, 0xabcd)?;
    let wide = file.read(LAST_WIDE)?;
    let other = file.read(OTHER_SPACE)?;
    Ok([back, byte, within, changed, wide, other])
}

#[test]
fn widths_overlap_lowest_byte_first(rt: HostRuntime) -> Result<(), Fail> {
    let mut file = RegisterFile::new(rt.alloc());
    let found = overlapping(&mut file)?;
    let wanted = [
        0x8877_6655_4433_2211,
        0x88,
        0x5544,
        0xabcd,
        0x8877_66ab_cd33_2211,
        0,
    ];
    assert_eq!(rt; (found, file.events().len()), (wanted, 8));
    Ok(())
}

/// Makes a call of each kind but a read.
fn call_each(file: &mut RegisterFile, names: &mut Names) -> Result<(), NoMemory> {
    file.notify(ObjectId(3), 0x80)?;
    file.sleep(20, names)?;
    file.stall(50)?;
    file.write(LAST_BYTE, 7)
}

#[test]
fn each_call_makes_its_event(rt: HostRuntime) -> Result<(), Fail> {
    let mut file = RegisterFile::new(rt.alloc());
    let mut names = Names::new(rt.alloc());
    call_each(&mut file, &mut names)?;
    let log = [
        Call::Notified(ObjectId(3), 0x80),
        Call::Slept(20, false),
        Call::Stalled(50),
        Call::Written(LAST_BYTE, 7),
    ];
    assert!(rt; are_calls(file.events(), &log));
    Ok(())
}

#[test]
fn refusals_are_counted(rt: HostRuntime) -> Result<(), Fail> {
    let mut world = Refusing::new(AllOnes::new(rt.alloc()), 0);
    let mut names = Names::new(rt.alloc());
    let is_written = written_and_read(&mut world, LAST_BYTE, 1).is_ok();
    let is_slept = world.sleep(1, &mut names).is_ok();
    assert_eq!(rt; (is_written, is_slept, world.refusals()), (false, false, 2));
    Ok(())
}

#[test]
fn a_noted_sleep_keeps_what_it_left(rt: HostRuntime) -> Result<(), Fail> {
    let mut file = RegisterFile::new(rt.alloc());
    file.note_sleep(3, Some(Names::new(rt.alloc())))?;
    file.note_sleep(4, None)?;
    let log = [Call::Slept(3, true), Call::Slept(4, false)];
    assert!(rt; are_calls(file.events(), &log));
    Ok(())
}

/// What units give that are written first, or not.
fn ones(world: &mut AllOnes) -> Result<[u64; 3], NoMemory> {
    let byte = written_and_read(world, LAST_BYTE, 0)?;
    let within = written_and_read(world, WITHIN, 7)?;
    Ok([byte, within, world.read(LAST_WIDE)?])
}

#[test]
fn each_bit_is_one(rt: HostRuntime) -> Result<(), Fail> {
    let mut world = AllOnes::new(rt.alloc());
    let read = ones(&mut world)?;
    let log = [
        Call::Written(LAST_BYTE, 0),
        Call::Read(LAST_BYTE, 0xff),
        Call::Written(WITHIN, 7),
        Call::Read(WITHIN, 0xffff),
        Call::Read(LAST_WIDE, u64::MAX),
    ];
    assert_eq!(rt; (read, world.refusals()), ([0xff, 0xffff, u64::MAX], 0));
    assert!(rt; are_calls(world.events(), &log));
    Ok(())
}

#[test]
fn faults_of_register_texts_have_their_numbers(rt: HostRuntime) -> Result<(), Fail> {
    let bad = RegistersFault::BadRegs { line: 7 };
    assert_eq!(rt; bad.text(), "E511 BadRegs");
    assert_eq!(rt; RegistersFault::NoMemory.text(), "E524 NoMemory");
    Ok(())
}
