//! Which locals and which arguments are targets in a body, as a loop's body is judged. `specs/` of
//! aml_bounds says what a target is.
//!
//! Rooms: `targets` has the marks and the walk, `operands` which parts of an operator are targets.
#![tactic(auto)]

mod operands;
mod targets;

pub use targets::{Targets, targets_in};
