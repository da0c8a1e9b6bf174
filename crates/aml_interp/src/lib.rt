//! Evaluation of methods that the verifier accepted, straight from the bytes of their tables: no
//! tree is made, and no AML error is told, since none is met (the rules and the meaning are the
//! project's own; ACPI 6.5, 5.5.2 and 19.6).
//!
//! Rooms: `evaluation` has the evaluation, `headline` the laws of what it means that a method was
//! accepted, `others` a world at whose Sleeps such methods run.
#![tactic(auto)]

mod evaluation;
mod headline;
mod others;

pub use evaluation::evaluate;
pub use headline::{accepted_methods_are_done, tables_begin_well};
pub use others::Others;
