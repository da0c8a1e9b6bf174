//! What an interrupt routing table needs to be followed: the link devices that a `_PRT` names, and
//! the resource descriptors that each one's `_CRS` gives (ACPI 6.5, 6.2.13 and 6.2.2).
//!
//! Rooms: `prt` has what an object gives whose value is taken as a `_PRT`; `devices` are the link
//! devices that it names, `links` their descriptors, one after the other, and `crs` those of one;
//! `fault` says why there are none, `notes` what people are told.
#![tactic(auto)]

mod crs;
mod devices;
mod fault;
mod links;
mod notes;
mod prt;

pub use fault::{LinkFault, LinkRefusal};
pub use notes::{entry_note, link_text, source_text};
pub use prt::{Prt, prt_of};
