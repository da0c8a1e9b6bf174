//! Kinds by which values are judged before evaluation. Rooms: `kind`; `shape` of packages, no
//! deeper than they are; `kind_copies`; `same_kinds`; `joins`, and kinds within others; `fitting`,
//! which values are of a kind; `law`.
#![tactic(auto)]

mod fitting;
mod joins;
mod kind;
mod kind_copies;
mod law;
mod same_kinds;
mod shape;

pub use fitting::fits;
pub use joins::{is_within, join, join_elements};
pub use kind::{ElementKind, Kind};
pub use kind_copies::copy_kind;
pub use law::{fits_what_it_lies_within, join_associates, join_commutes, join_stays};
pub use same_kinds::{element_kinds_match, is_same_kind};
pub use shape::Shape;
