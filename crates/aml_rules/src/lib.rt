//! What operators make of values (ACPI 6.5, 19.6), each as its rule says. The rules stand in
//! `specs/` of aml_meaning.
//!
//! Rooms: `arithmetic` and `integers` have integers and comparisons, `equality` LEqual,
//! `conversions`, `buffers` and `elements` what is made of buffers, strings and packages, `place`
//! where an operand stands and why a rule gives no value, `law` the law.
#![tactic(auto)]

mod arithmetic;
mod buffers;
mod conversions;
mod elements;
mod equality;
mod integers;
mod law;
mod place;

pub use arithmetic::{Division, combined, compared, divided, integer, negated, transformed};
pub use buffers::{append, concatenated, size_of};
pub use conversions::{to_buffer, to_integer};
pub use elements::{ByteStore, byte_stored, element_at};
pub use equality::equal;
pub use integers::{holds, joined, transformed_bits, truth};
pub use law::integers_are_given_back;
pub use place::{Place, RuleFault};
