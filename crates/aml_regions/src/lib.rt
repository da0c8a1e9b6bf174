//! Accesses of operation regions, who answers them, and the events that others see (ACPI 6.5,
//! 5.5.2.4).
//!
//! Rooms: `world` is who answers accesses, with the `log` of events that it keeps: `registers` is
//! one of bytes, `all_ones` one whose bits are one, `refusing` one that refuses. `access` has one
//! access, `event` what others see of a call, `field` where the bits of a field stand; `text` reads
//! a register file, `fault` says why none can be read, `bytes` has what it sets; `law` is the law
//! of units.
#![tactic(auto)]

mod access;
mod all_ones;
mod bytes;
mod event;
mod fault;
mod field;
mod law;
mod log;
mod refusing;
mod registers;
mod text;
mod world;

pub use access::Access;
pub use all_ones::AllOnes;
pub use event::Event;
pub use fault::RegistersFault;
pub use field::{
    AnyField, BankedField, FieldLayout, IndexedField, OtherBits, RegionField, UnitWidth,
};
pub use law::reads_what_was_written;
pub use refusing::Refusing;
pub use registers::RegisterFile;
pub use world::World;
