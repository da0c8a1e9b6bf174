//! Where the files of a command come from, which tables they are, how what is wrong is told, and
//! how a command ends: the disk, and the lines of standard input (`source`, `disk`, `input`,
//! `hex_lines`, `inputs`), a file's table (`any_table`), faults and their lines (`fault`,
//! `fault_line`), and `status`.
#![tactic(auto)]

mod any_table;
mod disk;
mod fault;
mod fault_line;
mod hex_lines;
mod input;
mod inputs;
mod source;
mod status;

pub use any_table::read_any_table;
pub use disk::Disk;
pub use fault::{Fault, FaultCause, Where};
pub use fault_line::list_fault;
pub use hex_lines::{HexLines, Lines};
pub use input::{End, INPUT_LIMIT, Input, read_input};
pub use inputs::{InputNames, Inputs};
pub use source::{Source, SourceFault, read_within_limit};
pub use status::Status;
