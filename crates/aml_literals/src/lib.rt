//! Values of literals in a method's body, read from the bytes where they stand (ACPI 6.5, 20.2.3
//! and 19.6): no tree is made. The answer is the definition's for whatever parts the grammar has
//! there.
//!
//! Rooms: `numbers`, integer literals; `data`, buffers, strings and packages.
#![tactic(auto)]

mod data;
mod numbers;

pub use data::data_value;
pub use numbers::{literal_at, literal_number};
