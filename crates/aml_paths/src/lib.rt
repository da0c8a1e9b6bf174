//! Absolute paths, what names spell and name among them, and scopes (ACPI 6.5, 5.3).
//!
//! Rooms: `paths` has paths under their numbers, `chains` how they stand so that searches are
//! short, `place` the order in which they are looked up, `marks` what need not be looked up,
//! `resolve` what names spell and name, `printed` paths as they are printed, `scope` where names
//! stand, `memory` want of memory, `law` the law of printed paths.
#![tactic(auto)]

mod chains;
mod law;
mod marks;
mod memory;
mod paths;
mod place;
mod printed;
mod resolve;
mod scope;

pub use chains::Spot;
pub use law::printed_paths_are_read;
pub use memory::NoMemory;
pub use paths::{Paths, ROOT, Step};
pub use resolve::Lead;
pub use scope::{NamePlace, ObjectId, Scope};
