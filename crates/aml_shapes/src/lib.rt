//! The shapes of packages, each kept once under a number of its own. Rooms: `table`, with `key` by
//! which a shape is found, `kept`, and `joined`, the join of all its places; `numbering`, a table
//! that grows or one that stays; `walk` over the terms of data; `literals` in bodies, data `names`;
//! `law`.
#![tactic(auto)]

mod joined;
mod kept;
mod key;
mod law;
mod literals;
mod names;
mod numbering;
mod table;
mod walk;

pub use law::{kinds_stay, tables_keep_on};
pub use names::shared_kinds;
pub use table::ShapeTable;
