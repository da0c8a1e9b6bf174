// Who answers an evaluation's accesses.

ghost use Rattle.std.specs.Prelude.{◌≡◌, ◌<◌, ◌^◌, IfOk};
ghost use Rattle.aml_contents.specs.Held.{contents, content_kinds};
ghost use Rattle.aml_regions.specs.Events.{Log, Read, Written, Notified, Stalled};
ghost use Rattle.aml_regions.specs.Worlds.{IsUnit, MakesEvent, MakesSleep, CountsRefusal};

use crate::access::Access;
use aml_contents::Names;
use aml_paths::{NoMemory, ObjectId};

/// Who answers the accesses of operation regions, and keeps what happens. Each call adds its one
/// event to the log; or it is refused for want of memory, which is counted, and changes nothing
/// else.
pub trait World {
    ghost log: { Self → Log };

    /// The unit's value.
    fn read(&mut self, access: Access) -> Result<u64, NoMemory>
        requires { IsUnit access }
        ensures fits { IfOk result (λ value. value < 2 ^ access.width) }
        ensures event { MakesEvent result (Read access)
            (log self.old).events (log self.new).events }
        ensures refusal { CountsRefusal result (log self.old).refusals (log self.new).refusals };

    /// Gives the unit a value.
    fn write(&mut self, access: Access, value: u64) -> Result<(), NoMemory>
        requires unit { IsUnit access }
        requires fits { value < 2 ^ access.width }
        ensures event { MakesEvent result (λ _. Written access value)
            (log self.old).events (log self.new).events }
        ensures refusal { CountsRefusal result (log self.old).refusals (log self.new).refusals };

    /// Tells of a Notify of an object.
    fn notify(&mut self, object: ObjectId, value: u64) -> Result<(), NoMemory>
        ensures event { MakesEvent result (λ _. Notified object value)
            (log self.old).events (log self.new).events }
        ensures refusal { CountsRefusal result (log self.old).refusals (log self.new).refusals };

    /// Tells of a Sleep. Others run meanwhile, and may put other contents into the data names, each
    /// of its name's kind.
    fn sleep(&mut self, milliseconds: u64, names: &mut Names) -> Result<(), NoMemory>
        ensures event { MakesSleep result milliseconds (contents names.old) (contents names.new)
            (log self.old).events (log self.new).events }
        ensures kinds { content_kinds names.new ≡ content_kinds names.old }
        ensures refusal { CountsRefusal result (log self.old).refusals (log self.new).refusals };

    /// Tells of a Stall.
    fn stall(&mut self, microseconds: u64) -> Result<(), NoMemory>
        ensures event { MakesEvent result (λ _. Stalled microseconds)
            (log self.old).events (log self.new).events }
        ensures refusal { CountsRefusal result (log self.old).refusals (log self.new).refusals };
}
