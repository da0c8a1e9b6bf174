//! The texts of values, outcomes, causes of faults, tables and names, as they are printed.
//!
//! Rooms: `values`, `outcome`, `events` and `verdict` have what evaluations and verdicts say,
//! `cause` the numbers and names of refusals; `tables`, `table`, `table_lines` and `structures`
//! have what tables say; `names` and `path` the names of a namespace; `items` prints one text
//! behind the other, `escaped` text between quotes, `writing` writes them out.
#![tactic(auto)]

mod cause;
mod escaped;
mod events;
mod items;
mod names;
mod outcome;
mod path;
mod structures;
mod table;
mod table_lines;
mod tables;
mod values;
mod verdict;
mod writing;

pub use cause::cause_text;
pub use events::list_events;
pub use names::list_names;
pub use outcome::list_evaluation;
pub use table::Table;
pub use tables::list_tables;
pub use values::list_value;
pub use verdict::{VerdictLine, list_refusal, list_verdict};
pub use writing::{RunFault, put};
