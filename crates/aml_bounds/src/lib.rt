//! Bounds on the steps of methods: how often loops turn, and how many steps a body takes at most
//! (ACPI 6.5, 19.6, While; the shapes of loops and the counting of steps are the project's own).
//!
//! Rooms: `bound` bounds the steps of a body, by its `costs`; `role` is what an operator does with
//! its parts, as far as steps go. `shape` says how often a loop turns, by what `stands` in it, and
//! `turn_count` how much of that its steps want.
#![tactic(auto)]

mod bound;
mod costs;
mod role;
mod shape;
mod stands;
mod turn_count;

pub use bound::{body_steps, steps};
pub use costs::Costs;
pub use shape::{Turns, loop_shape, number_of, turns_of};
pub use turn_count::TurnCount;
