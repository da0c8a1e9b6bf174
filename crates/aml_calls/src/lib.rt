//! Who calls whom: the order in which methods stand behind those that they call, and whether one
//! reaches another (ACPI 6.5, 19.6, Method; the limit on chains of calls is the project's own).
//!
//! Rooms: `calls` has who calls whom, so that no list of pairs is searched, `order` the order of
//! methods, `reach` chains from one method to another, `law` the law of chains.
#![tactic(auto)]

mod calls;
mod law;
mod order;
mod reach;

pub use calls::{Calls, Pair, places_of, room_above, room_for};
pub use law::chains_are_counted;
pub use order::call_order;
pub use reach::reaches;
