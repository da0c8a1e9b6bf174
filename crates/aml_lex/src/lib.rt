//! The lexical parts of AML, read from a place on (ACPI 6.5, 20.2.2 to 20.2.4): package lengths,
//! name strings, integer data and string data.
//!
//! The caller cuts the bytes at the end of the enclosing package. A reader answers Ok just where a
//! spelling stands at the place, and else the fault that ends it. No call takes memory.
//!
//! Rooms: `package` reads package lengths, `name_reader` name strings, which `names` has as they
//! were read, `integers` integer data, `strings` string data; `standing` reads again what is known
//! to stand at a place, `fault` says why nothing can be read, `theorems` has the laws of spellings.
#![tactic(auto)]

mod fault;
mod integers;
mod name_reader;
mod names;
mod package;
mod standing;
mod strings;
mod theorems;

pub use fault::{LexCause, LexFault};
pub use integers::integer_data;
pub use name_reader::{leads_segment, name_string};
pub use names::{NameRef, NameSeg};
pub use package::{package_end, pkg_length};
pub use standing::{bytes_between, has_byte, name_there, standing_name};
pub use strings::string_data;
pub use theorems::{
    answers_end_within, faults_stand_within, spellings_are_read, spellings_are_unique,
};
