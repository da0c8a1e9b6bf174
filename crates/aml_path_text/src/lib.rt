//! The paths of a namespace, as they are printed: `\` and their segments, joined by `.` (the form
//! is the project's own; the segments ACPI 6.5, 20.2.2).
#![tactic(auto)]

mod path;

pub use path::push_path;
