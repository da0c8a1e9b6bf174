// One call on a world, as others see it.

use crate::access::Access;
use aml_contents::Names;
use aml_paths::ObjectId;

/// What others see of an evaluation: one call on its world.
#[derive(Drop)]
pub enum Event {
    /// A read, with what was answered.
    Read(Access, u64),
    /// A write of a value.
    Written(Access, u64),
    /// A Notify of an object with a value (ACPI 6.5, 19.6, Notify).
    Notified(ObjectId, u64),
    /// A Sleep of so many milliseconds (ACPI 6.5, 19.6, Sleep), and what data names hold behind it,
    /// where others changed them meanwhile.
    Slept(u64, Option<Names>),
    /// A Stall of so many microseconds (ACPI 6.5, 19.6, Stall).
    Stalled(u64),
}
