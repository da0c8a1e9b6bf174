//! The names that a method's body makes itself, for one call (ACPI 6.5, 5.3 and 5.5.2).
//!
//! Rooms: `own_names` has the names in order of definition and what a segment means at a place,
//! `law` the law that they are the grammar's.
#![tactic(auto)]

mod law;
mod own_names;

pub use law::{one_count_serves, own_names_are_the_grammars};
pub use own_names::{OwnName, OwnNames};
