//! Tables as compilers write them today: each `If (Zero)` round a table's Externals made a Scope of
//! no name (ACPI 6.5, 19.6.46 and 20.2.5).
//!
//! A module holds definitions alone, so an If in it is refused. An If whose test is Zero never
//! runs, and `iasl` puts one round all Externals of a table. Made a Scope of no name, which is one
//! byte, it holds the same Externals at the same places.
#![tactic(auto)]

mod dead_if;
mod extent;
mod laws;
mod open;
mod step;
mod table;

pub use laws::{
    dead_ifs_are_scopes, no_dead_if_is_left, opcodes_alone_change, opening_is_done_once,
    tables_stay,
};
pub use table::{is_dead_if, open_dead_externals};
