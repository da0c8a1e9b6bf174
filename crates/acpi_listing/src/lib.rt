//! What `acpicheck` does: its commands, over any reader, writer and source of files. `program` and
//! `command_line` run them; `files`, `names`, `verify`, `eval`, `resources` and `routing` are the
//! commands, `objects` what the last two ask for; `load`, `madt`, `regs` and `signed` are what they
//! read, `tell` what people are told, `stop` why a command ends.
#![tactic(auto)]

mod command_line;
mod eval;
mod files;
mod load;
mod madt;
mod names;
mod objects;
mod program;
mod regs;
mod resources;
mod routing;
mod signed;
mod stop;
mod tell;
mod verify;

pub use command_line::run_program;
pub use program::{run, run_words};
