// What names hold behind a Sleep at which others put other contents in place (ACPI 6.5, 19.6,
// Sleep). Rows were worked out by hand.

ghost use Rattle.std.specs.Prelude.{◌≡◌, IfOk};
ghost use Rattle.aml_contents.specs.Held.{content_kinds};
ghost use Rattle.aml_regions.specs.EventViews.{events_of};
ghost use Rattle.aml_regions.specs.Worlds.{counted};

use crate::outcomes::{Wanted, ends, first_names, gives, outcome_in};
use acpi_samples::{HOST, method_of, table_of};
use aml_contents::Names;
use aml_meaning::Outcome;
use aml_namespace::{LoadFault, Namespace};
use aml_paths::{NoMemory, ObjectId};
use aml_regions::{Access, Event, RegisterFile, World};
use aml_values::{Bytes, Element, Package, Value};
use std::alloc::{AllocError, Global};
use std::process::Abort;
use std::test::Fail;

/// What a name holds behind a Sleep.
#[derive(Clone, Copy, Debug)]
enum Content {
    Int(u64),
    Buf(&'static [u8]),
    Str(&'static [u8]),
    /// A package of one integer.
    Pkg(u64),
}

/// What names hold behind a Sleep, by the numbers of their objects.
type Left = &'static [(usize, Content)];

/// A world in which names hold these contents behind each Sleep, all others what they held.
#[derive(Drop)]
struct Others {
    alloc: Global,
    left: Left,
    file: RegisterFile,
    refused: u64,
}

/// A content as a value.
fn value_of(alloc: Global, content: Content) -> Result<Value, AllocError> {
    match content {
        Content::Int(number) => Ok(Value::Int(number)),
        Content::Buf(bytes) => Ok(Value::Buf(Bytes::new(bytes.to_vec(alloc)?))),
        Content::Str(bytes) => Ok(Value::Str(Bytes::new(bytes.to_vec(alloc)?))),
        Content::Pkg(number) => {
            let mut elements = Vec::new(alloc);
            elements.push(Element::Value(Value::Int(number)))?;
            match Package::new(elements) {
                Ok(package) => Ok(Value::Pkg(package)),
                Err(_) => Err(AllocError),
            }
        }
    }
}

/// Names in which some hold other contents of their kinds.
fn changed(alloc: Global, names: &Names, left: Left) -> Result<Names, AllocError>
    ensures { IfOk result (λ made. content_kinds made ≡ content_kinds names.now) }
{
    let mut made = match names.copy(alloc) {
        Ok(made) => made,
        Err(NoMemory) => return Err(AllocError),
    };
    for (number, content) in left {
        let value = value_of(alloc, *content)?;
        let _ = made.set(ObjectId(*number), value);
    }
    Ok(made)
}

impl Others {
    /// Counts a refusal.
    fn refuse(&mut self) -> NoMemory
        ensures { self.new ≡ record self.old { refused = counted self.old.refused } }
    {
        self.refused = self.refused.saturating_add(1);
        NoMemory
    }
}

impl World for Others {
    ghost log = { λ it. record {
      events = events_of it.file.events.items;
      refusals = it.refused;
    } };

    fn read(&mut self, access: Access) -> Result<u64, NoMemory> {
        match self.file.read(access) {
            Ok(value) => Ok(value),
            Err(NoMemory) => Err(self.refuse()),
        }
    }

    fn write(&mut self, access: Access, value: u64) -> Result<(), NoMemory> {
        match self.file.write(access, value) {
            Ok(()) => Ok(()),
            Err(NoMemory) => Err(self.refuse()),
        }
    }

    fn notify(&mut self, object: ObjectId, value: u64) -> Result<(), NoMemory> {
        match self.file.notify(object, value) {
            Ok(()) => Ok(()),
            Err(NoMemory) => Err(self.refuse()),
        }
    }

    fn sleep(&mut self, milliseconds: u64, names: &mut Names) -> Result<(), NoMemory> {
        let Ok(made) = changed(self.alloc, names, self.left) else {
            return Err(self.refuse());
        };
        let Ok(noted) = made.copy(self.alloc) else {
            return Err(self.refuse());
        };
        let Ok(()) = self.file.note_sleep(milliseconds, Some(noted)) else {
            return Err(self.refuse());
        };
        *names = made;
        Ok(())
    }

    fn stall(&mut self, microseconds: u64) -> Result<(), NoMemory> {
        match self.file.stall(microseconds) {
            Ok(()) => Ok(()),
            Err(NoMemory) => Err(self.refuse()),
        }
    }
}

/// How many Sleeps stand in a log, each with contents that it left.
fn sleeps(events: &[Event]) -> usize {
    let mut found = 0usize;
    for event in events.iter() {
        if let Event::Slept(_, Some(_)) = event {
            found = found.saturating_add(1);
        }
    }
    found
}

/// Behind the method MAIN, which is object 9: Name (INT0, 5), Name (BUF0, Buffer (2) {1, 2}), Name
/// (STR0, "ab"), Name (PKG0, Package (1) {One}), CreateByteField (BUF0, 0, FLD0), Method (SLP0)
/// {Sleep (One) Return (INT0)}, Method (SLP1) {Sleep (One) Return (BUF0)}.
const DEFINITIONS: &[u8] = b"\x08INT0\x0a\x05\x08BUF0\x11\x05\x0a\x02\x01\x02\x08STR0\x0dab\x00\
    \x08PKG0\x12\x03\x01\x01\x8cBUF0\x00FLD0\x14\x0eSLP0\x00\x5b\x22\x01\xa4INT0\
    \x14\x0eSLP1\x00\x5b\x22\x01\xa4BUF0";

/// What all of them hold behind a Sleep, and what one does.
const ALL: Left = &[
    (10, Content::Int(7)),
    (11, Content::Buf(&[3, 4])),
    (12, Content::Str(b"cd")),
    (13, Content::Pkg(0)),
];

const ONE: Left = &[(10, Content::Int(7))];

/// MAIN's body, what names hold behind a Sleep, the steps, how MAIN ends, and how many Sleeps it
/// makes.
type Row = (&'static [u8], Left, u64, Wanted, usize);

const ROWS: &[Row] = &[
    // Return (INT0) Sleep (One)
    (b"\xa4INT0\x5b\x22\x01", ALL, 2, Wanted::Int(5), 0),
    // Sleep (One) Return (INT0), (STR0), (DerefOf (Index (BUF0, One))), (DerefOf (Index (PKG0,
    // Zero))), (FLD0)
    (b"\x5b\x22\x01\xa4INT0", ALL, 5, Wanted::Int(7), 1),
    (b"\x5b\x22\x01\xa4STR0", ALL, 5, Wanted::Str(b"cd"), 1),
    (
        b"\x5b\x22\x01\xa4\x83\x88BUF0\x01\x00",
        ALL,
        8,
        Wanted::Int(4),
        1,
    ),
    (
        b"\x5b\x22\x01\xa4\x83\x88PKG0\x00\x00",
        ALL,
        8,
        Wanted::Int(0),
        1,
    ),
    (b"\x5b\x22\x01\xa4FLD0", ALL, 5, Wanted::Int(3), 1),
    // the same where one name alone holds something else
    (b"\x5b\x22\x01\xa4INT0", ONE, 5, Wanted::Int(7), 1),
    (b"\x5b\x22\x01\xa4STR0", ONE, 5, Wanted::Str(b"ab"), 1),
    (b"\x5b\x22\x01\xa4BUF0", ONE, 5, Wanted::Buf(&[1, 2]), 1),
    // and where none does
    (b"\x5b\x22\x01\xa4INT0", &[], 5, Wanted::Int(5), 1),
    // Store (INT0, Local0) Sleep (One) Return (Local0)
    (
        b"\x70INT0\x60\x5b\x22\x01\xa4\x60",
        ALL,
        8,
        Wanted::Int(5),
        1,
    ),
    // Name (OWN0, One) Sleep (One) Return (OWN0)
    (
        b"\x08OWN0\x01\x5b\x22\x01\xa4OWN0",
        ALL,
        7,
        Wanted::Int(1),
        1,
    ),
    // Sleep (One) Increment (INT0) Return (INT0)
    (b"\x5b\x22\x01\x75INT0\xa4INT0", ALL, 8, Wanted::Int(8), 1),
    // Increment (INT0) Sleep (One) Return (INT0)
    (b"\x75INT0\x5b\x22\x01\xa4INT0", ALL, 8, Wanted::Int(7), 1),
    // Return (Add (INT0, SLP0 ())): the first operand has its value of before
    (b"\xa4\x72INT0SLP0\x00", ALL, 9, Wanted::Int(12), 1),
    // Return (LEqual (BUF0, SLP1 ())), Return (LEqual (BUF0, BUF0)) behind SLP1 ()
    (b"\xa4\x93BUF0SLP1", ALL, 9, Wanted::Int(0), 1),
    (b"SLP1\xa4\x93BUF0BUF0", ALL, 10, Wanted::Int(u64::MAX), 1),
    // SLP0 () Return (INT0)
    (b"SLP0\xa4INT0", ALL, 8, Wanted::Int(7), 1),
    // While (LLess (INT0, 6)) {Sleep (One)} Return (INT0)
    (
        b"\xa2\x0b\x95INT0\x0a\x06\x5b\x22\x01\xa4INT0",
        ALL,
        12,
        Wanted::Int(7),
        1,
    ),
    // Sleep (One) Sleep (One) Return (INT0)
    (
        b"\x5b\x22\x01\x5b\x22\x01\xa4INT0",
        ALL,
        8,
        Wanted::Int(7),
        2,
    ),
    // Sleep (One) with a step less than it takes
    (b"\x5b\x22\x01\xa4INT0", ALL, 2, Wanted::OutOfSteps, 0),
];

/// A table of MAIN with this body and of the definitions.
fn table_with(alloc: Global, body: &[u8]) -> Result<Vec<u8>, AllocError> {
    let mut module = method_of(alloc, 0, body)?;
    module.extend_from_slice(DEFINITIONS)?;
    table_of(alloc, *b"DSDT", 2, &module)
}

/// Whether an evaluation ends as it is wanted to; or memory is wanted, and BUF0 holds what it held
/// before the Sleep, where there was none.
fn is_right(
    ended: &Result<Outcome, LoadFault>,
    names: &Names,
    events: &[Event],
    wanted: Wanted,
    made: usize,
) -> bool {
    let slept = sleeps(events);
    match ended {
        Ok(found) => ends(found, wanted) && slept == made,
        Err(_) if slept == 0 => match names.get(ObjectId(11)) {
            Some(value) => gives(value, Wanted::Buf(&[1, 2])),
            None => false,
        },
        Err(_) => true,
    }
}

/// A row is evaluated, or memory is wanted.
fn is_evaluated(rt: &impl Abort, alloc: Global, row: Row) -> Result<(), LoadFault> {
    let (body, left, fuel, wanted, made) = row;
    let table = table_with(alloc, body)?;
    let namespace = Namespace::load(alloc, &[&table], HOST)?;
    assert!(rt; namespace.method(ObjectId(9)).is_some());
    let mut names = first_names(alloc, &namespace)?;
    let mut world = Others {
        alloc,
        left,
        file: RegisterFile::new(alloc),
        refused: 0,
    };
    let ended = outcome_in(alloc, &namespace, ObjectId(9), &mut names, &mut world, fuel);
    let is_wanted = is_right(&ended, &names, world.file.events(), wanted, made);
    assert!(rt; is_wanted, "{body:?} {fuel} {wanted:?}");
    ended.map(|_| ())
}

#[test]
fn rows_of_sleeps_refused_in_turn(rt: HostRuntime) -> Result<(), Fail> {
    for row in ROWS {
        match is_evaluated(&rt, rt.alloc(), *row) {
            Err(LoadFault::NoMemory) => is_evaluated(&rt, rt.alloc(), *row)?,
            told => told?,
        }
    }
    Ok(())
}
