//! Resource descriptors (ACPI 6.5, 6.4), and where devices' interrupts go (6.2.13).
//!
//! Rooms: `reader` reads lists of descriptors: `head` how one begins, `form` which one its tag
//! names, `body` what it says; `item`, `signal` and `numbers` are what it says, `fault` why it
//! cannot be read. `routing` follows a `_PRT`, of which `mapping` reads the elements and `link` and
//! `links` the link devices; `route` and `isa_numbers` are where interrupts go, `route_fault` why
//! there are no routes. `law` has the laws of lists of items.
#![tactic(auto)]

mod body;
mod fault;
mod form;
mod head;
mod isa_numbers;
mod item;
mod law;
mod link;
mod links;
mod mapping;
mod numbers;
mod reader;
mod route;
mod route_fault;
mod routing;
mod signal;

pub use fault::{ResourceCause, ResourceFault, ResourceRefusal};
pub use item::{AddressWidth, Item};
pub use law::{items_are_spelled, refusals_are_first};
pub use link::has_irq;
pub use mapping::{EntryFault, entry_fault};
pub use numbers::Numbers;
pub use reader::items;
pub use route::{GlobalInterrupt, Pin, Route};
pub use route_fault::{RouteCause, RouteFault, RouteRefusal};
pub use routing::routes;
pub use signal::{Polarity, Sharing, Signal, Trigger};
