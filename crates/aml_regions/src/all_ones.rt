// A world in which each bit is one.

ghost use Rattle.std.specs.Prelude.{◌≡◌, ◌<◌, ◌-◌, ◌^◌, [], None, IfOk};
ghost use Rattle.aml_contents.specs.Held.{contents, content_kinds};
ghost use Rattle.aml_regions.specs.Events.{Read, Written, Notified, Slept, Stalled};
ghost use Rattle.aml_regions.specs.EventViews.{event_of, events_of};
ghost use Rattle.aml_regions.specs.Worlds.{IsUnit, MakesEvent, MakesSleep, CountsRefusal};

use crate::access::Access;
use crate::event::Event;
use crate::log::make;
use crate::world::World;
use aml_contents::Names;
use aml_paths::{NoMemory, ObjectId};
use std::alloc::Global;

/// A world in which each bit of each unit is one, whatever is written. It keeps its log.
#[derive(Drop)]
pub struct AllOnes {
    pub(crate) events: Vec<Event>,
    pub(crate) refusals: u64,
}

impl AllOnes {
    /// Nothing has happened.
    pub fn new(alloc: Global) -> AllOnes
        ensures log { result.events.items ≡ [] }
        ensures refusals { result.refusals ≡ 0 }
    {
        AllOnes {
            events: Vec::new(alloc),
            refusals: 0,
        }
    }

    /// The events of the calls that were not refused, in order.
    pub fn events(&self) -> &[Event]
        ensures { result.now ≡ self.now.events.items }
    {
        &self.events
    }

    /// How many calls were refused.
    pub fn refusals(&self) -> u64
        ensures { result ≡ self.now.refusals }
    {
        self.refusals
    }

    // Makes an event, or counts a refusal.
    fn make(&mut self, event: Event) -> Result<(), NoMemory>
        ensures event { MakesEvent result (λ _. event_of event)
            (events_of self.old.events.items) (events_of self.new.events.items) }
        ensures refusal { CountsRefusal result self.old.refusals self.new.refusals }
    {
        make(&mut self.events, &mut self.refusals, event)
    }
}

/// The greatest number of so many bits.
fn ones(access: Access) -> u64
    requires { IsUnit access }
    ensures { result ≡ 2 ^ access.width - 1 }
{
    match access.width {
        8 => 0xff,
        16 => 0xffff,
        32 => 0xffff_ffff,
        _ => u64::MAX,
    }
}

impl World for AllOnes {
    ghost log = { λ world. record {
      events = events_of world.events.items;
      refusals = world.refusals;
    } };

    fn read(&mut self, access: Access) -> Result<u64, NoMemory>
        requires { IsUnit access }
        ensures fits { IfOk result (λ value. value < 2 ^ access.width) }
        ensures event { MakesEvent result (Read access)
            (events_of self.old.events.items) (events_of self.new.events.items) }
        ensures refusal { CountsRefusal result self.old.refusals self.new.refusals }
        ensures ones { IfOk result (λ value. value ≡ 2 ^ access.width - 1) }
    {
        let value = ones(access);
        self.make(Event::Read(access, value))?;
        Ok(value)
    }

    fn write(&mut self, access: Access, value: u64) -> Result<(), NoMemory>
        requires unit { IsUnit access }
        requires fits { value < 2 ^ access.width }
        ensures event { MakesEvent result (λ _. Written access value)
            (events_of self.old.events.items) (events_of self.new.events.items) }
        ensures refusal { CountsRefusal result self.old.refusals self.new.refusals }
    {
        self.make(Event::Written(access, value))
    }

    fn notify(&mut self, object: ObjectId, value: u64) -> Result<(), NoMemory>
        ensures event { MakesEvent result (λ _. Notified object value)
            (events_of self.old.events.items) (events_of self.new.events.items) }
        ensures refusal { CountsRefusal result self.old.refusals self.new.refusals }
    {
        self.make(Event::Notified(object, value))
    }

    fn sleep(&mut self, milliseconds: u64, names: &mut Names) -> Result<(), NoMemory>
        ensures event { MakesSleep result milliseconds (contents names.old) (contents names.new)
            (events_of self.old.events.items) (events_of self.new.events.items) }
        ensures kinds { content_kinds names.new ≡ content_kinds names.old }
        ensures refusal { CountsRefusal result self.old.refusals self.new.refusals }
        ensures untouched { MakesEvent result (λ _. Slept milliseconds None)
            (events_of self.old.events.items) (events_of self.new.events.items) }
    {
        let _ = names;
        self.make(Event::Slept(milliseconds, None))
    }

    fn stall(&mut self, microseconds: u64) -> Result<(), NoMemory>
        ensures event { MakesEvent result (λ _. Stalled microseconds)
            (events_of self.old.events.items) (events_of self.new.events.items) }
        ensures refusal { CountsRefusal result self.old.refusals self.new.refusals }
    {
        self.make(Event::Stalled(microseconds))
    }
}
