//! What data names hold (ACPI 6.5, 19.6, Name), and what literals in bodies do. Rooms: `names`,
//! each content of its name's kind; first contents `initial`, `first_contents`, `first_data`; their
//! kinds `first_kinds`, and by the bytes alone `data_kinds`; `bodies`, literals in bodies.
#![tactic(auto)]

mod bodies;
mod data_kinds;
mod first_contents;
mod first_data;
mod first_kinds;
mod initial;
mod names;

pub use bodies::{body_data, computed_size};
pub use first_contents::data_in;
pub use first_data::{filled, package_of};
pub use names::Names;
