//! What a verifier knows of a method's frame at a place, without a value: kinds, with packages'
//! shapes by their numbers, environments that are copied without memory, the mutexes that are held,
//! and the exits that count. `specs/` of aml_judged says what they mean.
//!
//! Rooms: `known` has kinds and their joins, `slots` the locals or the arguments, `env` what is
//! known at a place, `locks` which mutexes are held, `exits` what is known where a loop or a method
//! is left, `accepted` what a caller sees of a method.
#![tactic(auto)]

mod accepted;
mod env;
mod exits;
mod known;
mod locks;
mod shapes;
mod slots;
mod stop;

pub use accepted::{Accepted, Yield};
pub use env::Env;
pub use exits::Exits;
pub use known::{ElementKnown, Known, ShapeNumber};
pub use locks::{Held, Locks, Taking};
pub use shapes::Shapes;
pub use slots::{Slot, are_within, join_slots, kind_at, lower, set_kind, widen};
pub use stop::Stop;
