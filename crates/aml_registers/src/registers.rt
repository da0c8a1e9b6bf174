// Registers as a text sets them.

ghost use Rattle.std.specs.Prelude.{◌≡◌, ◌<◌, ◌^◌, ◌∷◌, [], IfErr, IfOk, map, vec_items};
ghost use Rattle.aml_contents.specs.Held.{content_kinds};
ghost use Rattle.aml_contents.specs.Held as held;
ghost use Rattle.aml_regions.specs.Bytes.{SameBytes};
ghost use Rattle.aml_regions.specs.EventViews.{events_of};
ghost use Rattle.aml_regions.specs.Events.{Event, Read, Written, Notified, Stalled};
ghost use Rattle.aml_regions.specs.Registers.{contents};
ghost use Rattle.aml_regions.specs.Text.{FailsToSet, TextSets};
ghost use Rattle.aml_regions.specs.Worlds.{IsUnit, MakesEvent, MakesSleep, CountsRefusal};
ghost use Rattle.aml_registers.specs.Answers.{AnswerByText, HoldByText, start_of};

use aml_contents::Names;
use aml_paths::{NoMemory, ObjectId};
use aml_regions::{Access, Event, RegisterFile, RegistersFault, World};
use std::alloc::Global;

/// Registers as a text sets them. Each read is answered with what the text and the writes before it
/// left there; the log says so of itself, since it begins with the text.
#[derive(Drop)]
pub struct Registers {
    text: Vec<u8>,
    file: RegisterFile,
    ghost holds: { HoldByText text.items (events_of file.events.items) (contents file) },
    ghost answers: { AnswerByText text.items (events_of file.events.items) },
}

impl Registers {
    /// Registers of which none is set: those of the empty text. Nothing has happened.
    pub fn new(alloc: Global) -> Registers
        ensures bytes { SameBytes (λ _ _. 0) (contents result.file) }
        ensures text { TextSets result.text.items (contents result.file) }
        ensures log { result.file.events.items ≡ [] }
        ensures refusals { result.file.refusals ≡ 0 }
    {
        Registers {
            text: Vec::new(alloc),
            file: RegisterFile::new(alloc),
        }
    }

    /// The registers that a text sets (`RegisterFile::read_text`); nothing has happened.
    ///
    /// Faults: E511 at the first bad line; want of memory.
    pub fn read_text(alloc: Global, text: Vec<u8>) -> Result<Registers, RegistersFault>
        ensures bytes { IfOk result (λ r. TextSets (vec_items text) (contents r.file)) }
        ensures text { IfOk result (λ r. TextSets r.text.items (contents r.file)) }
        ensures log { IfOk result (λ r. r.file.events.items ≡ []) }
        ensures refusals { IfOk result (λ r. r.file.refusals ≡ 0) }
        ensures fault { IfErr result (FailsToSet (vec_items text)) }
    {
        let file = RegisterFile::read_text(alloc, text.as_slice())?;
        Ok(Registers { text, file })
    }

    /// What has happened, in order.
    pub fn events(&self) -> &[Event]
        ensures { result.now ≡ self.now.file.events.items }
    {
        self.file.events()
    }
}

impl World for Registers {
    ghost log = { λ r. record {
      events = start_of r.text.items ∷ events_of r.file.events.items;
      refusals = r.file.refusals;
    } };

    fn read(&mut self, access: Access) -> Result<u64, NoMemory> {
        self.file.read(access)
    }

    fn write(&mut self, access: Access, value: u64) -> Result<(), NoMemory> {
        self.file.write(access, value)
    }

    fn notify(&mut self, object: ObjectId, value: u64) -> Result<(), NoMemory> {
        self.file.notify(object, value)
    }

    fn sleep(&mut self, milliseconds: u64, names: &mut Names) -> Result<(), NoMemory> {
        self.file.sleep(milliseconds, names)
    }

    fn stall(&mut self, microseconds: u64) -> Result<(), NoMemory> {
        self.file.stall(microseconds)
    }
}
