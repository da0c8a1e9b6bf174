// A world of one unit of a region, which counts its calls in place of a log: what it takes comes
// again in the same order, so the count tells it. Calls on it are not inlined, as those of a world
// that someone else wrote would not be.

ghost use Rattle.std.specs.Prelude.{◌≡◌, ◌<◌, false};
ghost use Rattle.aml_regions.specs.Worlds.{counted};
ghost use Rattle.acpi_loops.specs.Turns.{log_of, turn_of};

use aml_contents::Names;
use aml_paths::{NoMemory, ObjectId};
use aml_regions::{Access, World};

/// The unit: 16 bits at the region's first address.
const UNIT: Access = Access {
    space: 0,
    address: 0x10,
    width: 16,
};

/// What it holds when it is read.
const ANSWER: u64 = 0xa55a;

/// A world that takes a read of the unit, again and again, and nothing else; if it is written too,
/// a write of one value behind each read. The two are types of their own, so that calls on one are
/// compiled apart.
#[derive(Drop)]
pub struct Unit<const WRITTEN: bool> {
    pub written: u64,
    pub turns: u64,
    pub is_read: bool,
    pub refused: u64,
}

impl<const WRITTEN: bool> Unit<WRITTEN> {
    /// Nothing has happened.
    pub fn new(written: u64) -> Unit<WRITTEN>
        ensures { result ≡ record { written = written; turns = 0; is_read = false; refused = 0 } }
    {
        Unit {
            written,
            turns: 0,
            is_read: false,
            refused: 0,
        }
    }
}

/// Counts a refusal.
fn refuse(refused: &mut u64) -> NoMemory
    ensures { refused.new ≡ counted refused.old }
{
    *refused = refused.saturating_add(1);
    NoMemory
}

impl<const WRITTEN: bool> World for Unit<WRITTEN> {
    ghost log = { λ it. record {
      events = log_of it.is_read it.turns (turn_of WRITTEN it.written);
      refusals = it.refused;
    } };

    #[inline(never)]
    fn read(&mut self, access: Access) -> Result<u64, NoMemory> {
        if access != UNIT || self.is_read || self.turns == u64::MAX {
            return Err(refuse(&mut self.refused));
        }
        if WRITTEN {
            self.is_read = true;
        } else {
            self.turns += 1;
        }
        Ok(ANSWER)
    }

    #[inline(never)]
    fn write(&mut self, access: Access, value: u64) -> Result<(), NoMemory> {
        let comes = WRITTEN && self.is_read && self.turns < u64::MAX;
        if access != UNIT || value != self.written || !comes {
            return Err(refuse(&mut self.refused));
        }
        self.is_read = false;
        self.turns += 1;
        Ok(())
    }

    fn notify(&mut self, _object: ObjectId, _value: u64) -> Result<(), NoMemory> {
        Err(refuse(&mut self.refused))
    }

    fn sleep(&mut self, _milliseconds: u64, _names: &mut Names) -> Result<(), NoMemory> {
        Err(refuse(&mut self.refused))
    }

    fn stall(&mut self, _microseconds: u64) -> Result<(), NoMemory> {
        Err(refuse(&mut self.refused))
    }
}
