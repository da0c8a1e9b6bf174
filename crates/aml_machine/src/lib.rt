//! What a running method has and changes: its frame, what names hold, and the steps that are left.
//! It knows no terms and no evaluator's errors.
//!
//! Rooms: `frame` is what a method has of its own, with `mutexes`, those that it holds; `machine`
//! the frame, what names hold and the steps; `arguments` the values that a method is called with,
//! `slots` locals and arguments, `copies` copies of what is held, `growth` a value that grows in a
//! slot, `in_place` fields of buffers that are stored into where they stand, `elements` those of
//! packages where they stand.
#![tactic(auto)]

mod arguments;
mod copies;
mod elements;
mod frame;
mod growth;
mod in_place;
mod machine;
mod mutexes;
mod slots;

pub use arguments::Arguments;
pub use copies::copied;
pub use elements::{element_in, inner};
pub use frame::Frame;
pub use growth::grow_slot;
pub use in_place::{held_by, lies_in, put_bits};
pub use machine::Machine;
pub use mutexes::Mutexes;
pub use slots::slot;
