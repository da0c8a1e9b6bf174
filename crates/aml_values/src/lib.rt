//! Values that evaluation moves (ACPI 6.5, 19.3.5). Rooms: `value`, with the elements of packages;
//! `bytes` of buffers and strings; `package`, no deeper than 64; `copies`; `same_values`.
#![tactic(auto)]

mod bytes;
mod copies;
mod package;
mod same_values;
mod value;

pub use bytes::{Bytes, MOST_BYTES};
pub use copies::copy;
pub use package::{MOST_ELEMENTS, MOST_NESTED, Package};
pub use same_values::is_same_value;
pub use value::{Element, Value};
