// A world that refuses.

ghost use Rattle.std.specs.Prelude.{◌≡◌, ◌<◌, ◌^◌, ◌-◌, IfOk, MatchResult};
ghost use Rattle.aml_contents.specs.Held.{contents, content_kinds};
ghost use Rattle.aml_regions.specs.Events.{Read, Written, Notified, Stalled};
ghost use Rattle.aml_regions.specs.Worlds.{IsUnit, MakesEvent, MakesSleep, CountsRefusal, PassesOn};

use crate::access::Access;
use crate::log::refuse;
use crate::world::World;
use aml_contents::Names;
use aml_paths::{NoMemory, ObjectId};

/// A world that passes so many calls on to another, and refuses each further one.
#[derive(Drop)]
pub struct Refusing<W: World> {
    inner: W,
    passes: u64,
    refusals: u64,
}

impl<W: World> Refusing<W> {
    /// Passes so many calls on to this world.
    pub fn new(inner: W, passes: u64) -> Refusing<W>
        ensures inner { result.inner ≡ inner }
        ensures passes { result.passes ≡ passes }
        ensures refusals { result.refusals ≡ 0 }
    {
        Refusing {
            inner,
            passes,
            refusals: 0,
        }
    }

    /// The world to which calls are passed on.
    pub fn inner(&self) -> &W
        ensures { result.now ≡ self.now.inner }
    {
        &self.inner
    }

    /// How many calls were refused, here or there.
    pub fn refusals(&self) -> u64
        ensures { result ≡ self.now.refusals }
    {
        self.refusals
    }

    // Takes one pass, where one is left; and else counts a refusal.
    fn pass(&mut self) -> Result<(), NoMemory>
        ensures inner { self.new.inner ≡ self.old.inner }
        ensures taken { MatchResult result (λ _. 0 < self.old.passes) (λ _. self.old.passes ≡ 0) }
        ensures left { self.new.passes ≡ self.old.passes - 1 }
        ensures refusal { CountsRefusal result self.old.refusals self.new.refusals }
    {
        if self.passes == 0 {
            return Err(refuse(&mut self.refusals));
        }
        self.passes -= 1;
        Ok(())
    }

    // Counts the refusal of a call that was passed on.
    fn told<T>(&mut self, answer: Result<T, NoMemory>) -> Result<T, NoMemory>
        ensures inner { self.new.inner ≡ self.old.inner }
        ensures same { result ≡ answer }
        ensures passes { self.new.passes ≡ self.old.passes }
        ensures refusal { CountsRefusal result self.old.refusals self.new.refusals }
    {
        match answer {
            Ok(value) => Ok(value),
            Err(NoMemory) => Err(refuse(&mut self.refusals)),
        }
    }
}

impl<W: World> World for Refusing<W> {
    ghost log = { λ world. record {
      events = (W.log world.inner).events;
      refusals = world.refusals;
    } };

    fn read(&mut self, access: Access) -> Result<u64, NoMemory>
        requires { IsUnit access }
        ensures fits { IfOk result (λ value. value < 2 ^ access.width) }
        ensures event { MakesEvent result (Read access)
            (W.log self.old.inner).events (W.log self.new.inner).events }
        ensures refusal { CountsRefusal result self.old.refusals self.new.refusals }
        ensures passes { PassesOn result self.old.passes self.new.passes
            (W.log self.old.inner).refusals (W.log self.new.inner).refusals }
    {
        self.pass()?;
        let answer = self.inner.read(access);
        self.told(answer)
    }

    fn write(&mut self, access: Access, value: u64) -> Result<(), NoMemory>
        requires unit { IsUnit access }
        requires fits { value < 2 ^ access.width }
        ensures event { MakesEvent result (λ _. Written access value)
            (W.log self.old.inner).events (W.log self.new.inner).events }
        ensures refusal { CountsRefusal result self.old.refusals self.new.refusals }
        ensures passes { PassesOn result self.old.passes self.new.passes
            (W.log self.old.inner).refusals (W.log self.new.inner).refusals }
    {
        self.pass()?;
        let answer = self.inner.write(access, value);
        self.told(answer)
    }

    fn notify(&mut self, object: ObjectId, value: u64) -> Result<(), NoMemory>
        ensures event { MakesEvent result (λ _. Notified object value)
            (W.log self.old.inner).events (W.log self.new.inner).events }
        ensures refusal { CountsRefusal result self.old.refusals self.new.refusals }
        ensures passes { PassesOn result self.old.passes self.new.passes
            (W.log self.old.inner).refusals (W.log self.new.inner).refusals }
    {
        self.pass()?;
        let answer = self.inner.notify(object, value);
        self.told(answer)
    }

    fn sleep(&mut self, milliseconds: u64, names: &mut Names) -> Result<(), NoMemory>
        ensures event { MakesSleep result milliseconds (contents names.old) (contents names.new)
            (W.log self.old.inner).events (W.log self.new.inner).events }
        ensures kinds { content_kinds names.new ≡ content_kinds names.old }
        ensures refusal { CountsRefusal result self.old.refusals self.new.refusals }
        ensures passes { PassesOn result self.old.passes self.new.passes
            (W.log self.old.inner).refusals (W.log self.new.inner).refusals }
    {
        self.pass()?;
        let answer = self.inner.sleep(milliseconds, names);
        self.told(answer)
    }

    fn stall(&mut self, microseconds: u64) -> Result<(), NoMemory>
        ensures event { MakesEvent result (λ _. Stalled microseconds)
            (W.log self.old.inner).events (W.log self.new.inner).events }
        ensures refusal { CountsRefusal result self.old.refusals self.new.refusals }
        ensures passes { PassesOn result self.old.passes self.new.passes
            (W.log self.old.inner).refusals (W.log self.new.inner).refusals }
    {
        self.pass()?;
        let answer = self.inner.stall(microseconds);
        self.told(answer)
    }
}
