// A world of bytes, which keeps its log.

ghost use Rattle.std.specs.Prelude.{◌≡◌, ◌<◌, ◌^◌, [], None, OnOk, OnErr, IfOk, IfErr};
ghost use Rattle.std.specs.Option.{option_map};
ghost use Rattle.aml_regions.specs.Bytes.{unit_of, with_unit, SameBytes};
ghost use Rattle.aml_contents.specs.Held.{content_kinds};
ghost use Rattle.aml_contents.specs.Held as held;
ghost use Rattle.aml_regions.specs.Events.{Event, Read, Written, Notified, Slept, Stalled};
ghost use Rattle.aml_regions.specs.EventViews.{event_of, events_of};
ghost use Rattle.aml_regions.specs.Registers.{contents};
ghost use Rattle.aml_regions.specs.Text.{FailsToSet, LineFails, LineSets, TextSets, WordsFail, WordsSet, words_of};
ghost use Rattle.aml_regions.specs.Worlds.{IsUnit, MakesEvent, MakesSleep, CountsRefusal};

use crate::access::Access;
use crate::bytes::{byte, make_room, put_run, put_unit, unit};
use crate::event::Event;
use crate::fault::RegistersFault;
use crate::log::{make, refuse};
use crate::text::{read_address, space_named, split_once, three_words};
use crate::world::World;
use aml_contents::Names;
use aml_paths::{NoMemory, ObjectId};
use hex::FromHexError;
use std::alloc::Global;
use std::collections::BTreeMap;

/// A world of bytes, by space and address, 0 where none was set. Memory is taken for bytes that
/// were set, wherever they stand, and for the log.
#[derive(Drop)]
pub struct RegisterFile {
    pub(crate) bytes: BTreeMap<(u8, u64), u8>,
    pub(crate) events: Vec<Event>,
    pub(crate) refusals: u64,
}

impl RegisterFile {
    /// No byte is set, and nothing has happened.
    pub fn new(alloc: Global) -> RegisterFile
        ensures bytes { SameBytes (λ _ _. 0) (contents result) }
        ensures log { result.events.items ≡ [] }
        ensures refusals { result.refusals ≡ 0 }
    {
        RegisterFile {
            bytes: BTreeMap::new(alloc),
            events: Vec::new(alloc),
            refusals: 0,
        }
    }

    /// The byte at an address of a space.
    pub fn byte(&self, space: u8, address: u64) -> u8
        ensures { result ≡ contents self.now space address }
    {
        byte(&self.bytes, space, address)
    }

    /// The events of the calls that were not refused, in order.
    pub fn events(&self) -> &[Event]
        ensures { result.now ≡ self.now.events.items }
    {
        &self.events
    }

    /// How many calls were refused.
    pub fn refusals(&self) -> u64
        ensures { result ≡ self.now.refusals }
    {
        self.refusals
    }

    /// The register file that a text sets. A line `SPACE ADDRESS BYTES` sets bytes from an address
    /// of a space on: a space is `mem`, `io`, `pci`, `ec` or `cmos`, the others are hex without
    /// prefix. Empty lines and lines from `#` on count for nothing, and a later line wins.
    ///
    /// Faults: E511 at the first line that has another form, or bytes past the last address; want
    /// of memory.
    pub fn read_text(alloc: Global, text: &[u8]) -> Result<RegisterFile, RegistersFault>
        ensures bytes { IfOk result (λ file. TextSets text.now (contents file)) }
        ensures log { IfOk result (λ file. file.events.items ≡ []) }
        ensures refusals { IfOk result (λ file. file.refusals ≡ 0) }
        ensures fault { IfErr result (FailsToSet text.now) }
    {
        let mut file = RegisterFile::new(alloc);
        let mut rest = text;
        let mut number = 1;
        while let Some((line, behind)) = split_once(rest, b'\n') {
            file.read_line(alloc, line, number)?;
            rest = behind;
            number += 1;
        }
        file.read_line(alloc, rest, number)?;
        Ok(file)
    }

    // Sets what a line sets, if it counts.
    fn read_line(&mut self, alloc: Global, line: &[u8], number: usize) -> Result<(), RegistersFault>
        ensures set { OnOk result (LineSets line.now (contents self.old) (contents self.new)) }
        ensures log { self.new.events ≡ self.old.events }
        ensures refusals { self.new.refusals ≡ self.old.refusals }
        ensures fault { IfErr result (LineFails line.now number) }
    {
        match line.first() {
            None => Ok(()),
            Some(b'#') => Ok(()),
            Some(_) => self.set_line(alloc, line, number),
        }
    }

    // Sets what the words of a line set.
    fn set_line(&mut self, alloc: Global, line: &[u8], number: usize) -> Result<(), RegistersFault>
        ensures set { OnOk result
            (WordsSet (words_of line.now) (contents self.old) (contents self.new)) }
        ensures log { self.new.events ≡ self.old.events }
        ensures refusals { self.new.refusals ≡ self.old.refusals }
        ensures fault { IfErr result (WordsFail (words_of line.now) number) }
    {
        let bad = RegistersFault::BadRegs { line: number };
        let Some((name, place, text)) = three_words(line) else {
            return Err(bad);
        };
        let Some(space) = space_named(name) else {
            return Err(bad);
        };
        let Some(address) = read_address(place) else {
            return Err(bad);
        };
        let run = match hex::decode(alloc, text) {
            Ok(run) => run,
            Err(FromHexError::OutOfMemory) => return Err(RegistersFault::NoMemory),
            Err(_) => return Err(bad),
        };
        if run.is_empty() || run.len() as u64 - 1 > u64::MAX - address {
            return Err(bad);
        }
        match put_run(&mut self.bytes, space, address, &run) {
            Ok(()) => Ok(()),
            Err(NoMemory) => Err(RegistersFault::NoMemory),
        }
    }

    /// Tells of a Sleep behind which data names hold what these names hold; or as they did before.
    pub fn note_sleep(&mut self, milliseconds: u64, left: Option<Names>) -> Result<(), NoMemory>
        ensures event { MakesEvent result (λ _. Slept milliseconds (option_map held.contents left))
            (events_of self.old.events.items) (events_of self.new.events.items) }
        ensures refusal { CountsRefusal result self.old.refusals self.new.refusals }
        ensures kept { self.new.bytes ≡ self.old.bytes }
    {
        self.make(Event::Slept(milliseconds, left))
    }

    // Makes an event, or counts a refusal.
    fn make(&mut self, event: Event) -> Result<(), NoMemory>
        ensures event { MakesEvent result (λ _. event_of event)
            (events_of self.old.events.items) (events_of self.new.events.items) }
        ensures refusal { CountsRefusal result self.old.refusals self.new.refusals }
        ensures kept { self.new.bytes ≡ self.old.bytes }
    {
        make(&mut self.events, &mut self.refusals, event)
    }
}

impl World for RegisterFile {
    ghost log = { λ file. record {
      events = events_of file.events.items;
      refusals = file.refusals;
    } };

    fn read(&mut self, access: Access) -> Result<u64, NoMemory>
        requires { IsUnit access }
        ensures fits { IfOk result (λ value. value < 2 ^ access.width) }
        ensures event { MakesEvent result (Read access)
            (events_of self.old.events.items) (events_of self.new.events.items) }
        ensures refusal { CountsRefusal result self.old.refusals self.new.refusals }
        ensures value { IfOk result (λ value. value ≡ unit_of (contents self.old) access) }
        ensures kept { SameBytes (contents self.old) (contents self.new) }
    {
        let value = unit(&self.bytes, access);
        self.make(Event::Read(access, value))?;
        Ok(value)
    }

    fn write(&mut self, access: Access, value: u64) -> Result<(), NoMemory>
        requires unit { IsUnit access }
        requires fits { value < 2 ^ access.width }
        ensures event { MakesEvent result (λ _. Written access value)
            (events_of self.old.events.items) (events_of self.new.events.items) }
        ensures refusal { CountsRefusal result self.old.refusals self.new.refusals }
        ensures put { OnOk result
            (SameBytes (with_unit (contents self.old) access value) (contents self.new)) }
        ensures kept { OnErr result (SameBytes (contents self.old) (contents self.new)) }
    {
        let Ok(()) = make_room(&mut self.bytes, access) else {
            return Err(refuse(&mut self.refusals));
        };
        self.make(Event::Written(access, value))?;
        put_unit(&mut self.bytes, access, value)
    }

    fn notify(&mut self, object: ObjectId, value: u64) -> Result<(), NoMemory>
        ensures event { MakesEvent result (λ _. Notified object value)
            (events_of self.old.events.items) (events_of self.new.events.items) }
        ensures refusal { CountsRefusal result self.old.refusals self.new.refusals }
        ensures kept { SameBytes (contents self.old) (contents self.new) }
    {
        self.make(Event::Notified(object, value))
    }

    fn sleep(&mut self, milliseconds: u64, names: &mut Names) -> Result<(), NoMemory>
        ensures event { MakesSleep result milliseconds (held.contents names.old)
            (held.contents names.new)
            (events_of self.old.events.items) (events_of self.new.events.items) }
        ensures kinds { content_kinds names.new ≡ content_kinds names.old }
        ensures refusal { CountsRefusal result self.old.refusals self.new.refusals }
        ensures untouched { MakesEvent result (λ _. Slept milliseconds None)
            (events_of self.old.events.items) (events_of self.new.events.items) }
        ensures kept { SameBytes (contents self.old) (contents self.new) }
    {
        let _ = names;
        self.note_sleep(milliseconds, None)
    }

    fn stall(&mut self, microseconds: u64) -> Result<(), NoMemory>
        ensures event { MakesEvent result (λ _. Stalled microseconds)
            (events_of self.old.events.items) (events_of self.new.events.items) }
        ensures refusal { CountsRefusal result self.old.refusals self.new.refusals }
        ensures kept { SameBytes (contents self.old) (contents self.new) }
    {
        self.make(Event::Stalled(microseconds))
    }
}
