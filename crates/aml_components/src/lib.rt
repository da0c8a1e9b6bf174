//! Components of the graph of calls, and how long chains of calls are, so that a caller who asks at
//! each call searches nothing (ACPI 6.5, 19.6, Method; the limit on chains is the project's own).
//!
//! Rooms: `components` has which methods reach each other, `search` the search for that, `heights`
//! how long the longest chains are.
#![tactic(auto)]

mod components;
mod heights;
mod search;

pub use components::Components;
pub use heights::Heights;
