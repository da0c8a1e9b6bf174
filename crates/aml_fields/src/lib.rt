//! Reads and writes of fields, over any world (ACPI 6.5, 5.5.2.4 and 19.6).
//!
//! Rooms: `any` reads and writes fields, however their units are reached: `region` by single
//! accesses, `index` and `bank` behind other fields. `read` gives integers, `wide` bytes, `value`
//! either, `write` takes either; `units` are the units that a field touches, with `gather` and
//! `source` for what is read of them and written to them; `bytes` and `kernel` have bits and masks.
//! `buffer` has fields of buffers. `reach`, `buffer_field` and `soundness` say what the fields of a
//! namespace are, `count` how many events they cost; `law` has the laws of events.
#![tactic(auto)]

mod any;
mod bank;
mod buffer;
mod buffer_field;
mod bytes;
mod count;
mod gather;
mod index;
mod kernel;
mod law;
mod reach;
mod read;
mod region;
mod soundness;
mod source;
mod units;
mod value;
mod wide;
mod write;

pub use buffer::{read_buffer_field, read_wide_buffer_field, write_buffer_field};
pub use buffer_field::{
    buffer_field_numbered, buffer_field_value, made_buffer_field, stored_byte, usable_buffer_field,
};
pub use bytes::BitBytes;
pub use count::{read_count, write_count};
pub use law::{events_are_made, limits_count_events};
pub use reach::field_in;
pub use read::read_integer_field;
pub use soundness::sound;
pub use source::Bits;
pub use value::read_field;
pub use wide::read_wide_field;
pub use write::write_field;
