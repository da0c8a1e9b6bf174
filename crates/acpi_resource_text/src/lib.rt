//! The texts of resource descriptors and of routes of interrupts, as they are printed.
//!
//! Rooms: `resources` prints a line for each item of a list, which `lines` makes with the `numbers`
//! of its interrupts; `route_lines` prints a line for each route; `words` has the words of both,
//! and `notes` what people are told of bytes that are no list.
#![tactic(auto)]

mod lines;
mod notes;
mod numbers;
mod resources;
mod route_lines;
mod words;

pub use notes::refusal_note;
pub use resources::list_resources;
pub use route_lines::list_routes;
