//! Which methods evaluate integers alone, by what `specs/Integers` of aml_judged says of their
//! bodies.
//!
//! Rooms: `names` has what is asked of names and kinds, `walk` the walk over a body, `laws` what is
//! said of the definitions alone.
#![tactic(auto)]

mod laws;
mod names;
mod walk;

pub use laws::{calls_decide, integers_are_found, marks_decide};
pub use walk::integers_alone;
