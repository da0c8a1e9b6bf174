//! Terms where they lie in the bytes of a method's body (ACPI 6.5, 20.2.5): no tree is made.
//!
//! Rooms: `places` has where parts end, and what stands behind them.
#![tactic(auto)]

mod places;

pub use places::{has_else, name_end, package, past_else, target_at, text_end};
