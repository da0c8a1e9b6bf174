// What others do as a world: whoever sleeps has registers alone, and at each Sleep the next method
// runs.

ghost use Rattle.std.specs.Prelude.{◌≡◌, ◌<◌, ◌^◌, IfOk, OnErr, OnOk};
ghost use Rattle.std.specs.Option.{option_map};
ghost use Rattle.aml_contents.specs.Held.{contents, content_kinds};
ghost use Rattle.aml_interp.specs.Sleeping.{IsSetAside, LeavesTurn, TakesTurn, log_mine};
ghost use Rattle.aml_regions.specs.EventViews.{events_of};
ghost use Rattle.aml_regions.specs.Events.{Notified, Read, Stalled, Written};
ghost use Rattle.aml_regions.specs.Worlds.{CountsRefusal, IsUnit, MakesEvent, MakesSleep, counted};

use super::Others;
use aml_contents::Names;
use aml_paths::{NoMemory, ObjectId};
use aml_regions::{Access, World};
use std::alloc::Global;

impl Others<'_> {
    /// Counts a refusal.
    fn refuse(&mut self) -> NoMemory
        ensures mine { self.new.mine ≡ self.old.mine }
        ensures aside { IsSetAside self.old self.new }
        ensures refused { self.new.refused ≡ counted self.old.refused }
    {
        self.refused = self.refused.saturating_add(1);
        NoMemory
    }
}

impl World for Others<'_> {
    ghost log = { log_mine };

    fn read(&mut self, access: Access) -> Result<u64, NoMemory>
        requires { IsUnit access }
        ensures fits { IfOk result (λ value. value < 2 ^ access.width) }
        ensures event { MakesEvent result (Read access)
            (log_mine self.old).events (log_mine self.new).events }
        ensures refusal { CountsRefusal result
            (log_mine self.old).refusals (log_mine self.new).refusals }
        ensures aside { IsSetAside self.old self.new }
    {
        match self.mine.read(access) {
            Ok(value) => Ok(value),
            Err(NoMemory) => Err(self.refuse()),
        }
    }

    fn write(&mut self, access: Access, value: u64) -> Result<(), NoMemory>
        requires unit { IsUnit access }
        requires fits { value < 2 ^ access.width }
        ensures event { MakesEvent result (λ _. Written access value)
            (log_mine self.old).events (log_mine self.new).events }
        ensures refusal { CountsRefusal result
            (log_mine self.old).refusals (log_mine self.new).refusals }
        ensures aside { IsSetAside self.old self.new }
    {
        match self.mine.write(access, value) {
            Ok(()) => Ok(()),
            Err(NoMemory) => Err(self.refuse()),
        }
    }

    fn notify(&mut self, object: ObjectId, value: u64) -> Result<(), NoMemory>
        ensures event { MakesEvent result (λ _. Notified object value)
            (log_mine self.old).events (log_mine self.new).events }
        ensures refusal { CountsRefusal result
            (log_mine self.old).refusals (log_mine self.new).refusals }
        ensures aside { IsSetAside self.old self.new }
    {
        match self.mine.notify(object, value) {
            Ok(()) => Ok(()),
            Err(NoMemory) => Err(self.refuse()),
        }
    }

    fn sleep(&mut self, milliseconds: u64, names: &mut Names) -> Result<(), NoMemory>
        ensures event { MakesSleep result milliseconds (contents names.old) (contents names.new)
            (log_mine self.old).events (log_mine self.new).events }
        ensures kinds { content_kinds names.new ≡ content_kinds names.old }
        ensures refusal { CountsRefusal result
            (log_mine self.old).refusals (log_mine self.new).refusals }
        ensures turn { OnOk result
            (TakesTurn milliseconds self.old self.new names.old names.new) }
        ensures checked { self.new.checked ≡ self.old.checked }
        ensures methods { self.new.methods ≡ self.old.methods }
        ensures next { OnErr result (self.new.slept ≡ self.old.slept) }
        ensures cut { OnErr result (LeavesTurn self.old self.new names.old) }
    {
        let Ok(turned) = self.turn(self.slept, names) else {
            return Err(self.refuse());
        };
        let Ok(noted) = noted(self.alloc, &turned) else {
            return Err(self.refuse());
        };
        let Ok(()) = self.mine.note_sleep(milliseconds, noted) else {
            return Err(self.refuse());
        };
        if let Some(left) = turned {
            *names = left;
        }
        self.slept = self.slept.saturating_add(1);
        Ok(())
    }

    fn stall(&mut self, microseconds: u64) -> Result<(), NoMemory>
        ensures event { MakesEvent result (λ _. Stalled microseconds)
            (log_mine self.old).events (log_mine self.new).events }
        ensures refusal { CountsRefusal result
            (log_mine self.old).refusals (log_mine self.new).refusals }
        ensures aside { IsSetAside self.old self.new }
    {
        match self.mine.stall(microseconds) {
            Ok(()) => Ok(()),
            Err(NoMemory) => Err(self.refuse()),
        }
    }
}

/// A copy of what a turn left, for the log.
fn noted(alloc: Global, turned: &Option<Names>) -> Result<Option<Names>, NoMemory>
    ensures { IfOk result (λ made. option_map contents made ≡ option_map contents turned.now) }
{
    match turned {
        Some(left) => {
            let made = left.copy(alloc)?;
            Ok(Some(made))
        }
        None => Ok(None),
    }
}
