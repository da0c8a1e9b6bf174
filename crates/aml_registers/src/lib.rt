//! Registers as a text sets them, whose events answer for what they held.
//!
//! Rooms: `registers` has registers as their text sets them, and a world over them.
#![tactic(auto)]

mod registers;

pub use registers::Registers;
