//! The walk over a body's terms, which judges it in place (the rules are the project's own).
//!
//! Rooms: `terms` has a function for each class of operators, blocks and loops, in rooms of its
//! own, and `body` a method from its first statement to its end. `reached` tells which statement
//! its steps become too many with.
#![tactic(auto)]

mod body;
mod reached;
mod terms;

pub use body::judge;
