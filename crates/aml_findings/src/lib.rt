//! What a rule finds where it refuses, and what it wanted there, for people; and what is known
//! around a body, which is looked into for it.
//!
//! Rooms: `around` says what is known around a body, and what whoever judges has to answer; he is
//! told what is found. `finding` is what a rule found and what it wanted; `finds` has what each
//! rule finds, `faults` what is wrong with a field, and `lacks` what a loop lacks. No rule stands
//! here, and none asks for what is found.
#![tactic(auto)]

mod around;
pub mod faults;
mod finding;
pub mod finds;
pub mod lacks;

pub use around::{Around, Made, Seen};
pub use finding::{Change, FieldFault, Finding, Found, LoopLack, NumberedSlot, Sort, Wanted};
