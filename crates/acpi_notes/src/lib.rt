//! What people are told of a fault beside its line: the file, what was wanted there and what was
//! found.
//!
//! Rooms: `label` says how a file is called; `load` tells of tables that cannot be loaded,
//! `definitions` of a definition that was refused, `tree` of AML that cannot be read, `table` of
//! files that are no table; `command` tells of words, `near` of a path that is no method's; `help`
//! has what each command and option is.
#![tactic(auto)]

mod command;
mod definitions;
mod help;
mod label;
mod load;
mod near;
mod table;
mod tree;

pub use command::{
    argument_note, count_note, greatest_note, line_note, registers_note, signatures_note,
};
pub use help::{Help, help_of};
pub use label::{file_label, label_of};
pub use load::{Files, load_note};
pub use near::object_note;
pub use table::{WantedTable, table_note};
pub use tree::{TreePlace, tree_note};
