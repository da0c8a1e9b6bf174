//! What stands at a place of a method's body, as people are told it: an operator by its word of
//! ASL, or a name as it is spelled (ACPI 6.5, 19.6 and 20.2).
//!
//! Rooms: `operators` has how operators are called, `place` what stands at a place.
#![tactic(auto)]

mod operators;
mod place;

pub use operators::operator_name;
pub use place::push_standing;
