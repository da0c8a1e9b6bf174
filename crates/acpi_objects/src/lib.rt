//! What an object of a namespace gives that a command asks for: a data name what it holds, a method
//! that is accepted what its evaluation gives.
//!
//! Rooms: `given` has what one object gives.
#![tactic(auto)]

mod given;

pub use given::{Given, gives_value, value_of};
