//! What stands under the paths of a namespace (ACPI 6.5, 5.3): objects as plain data, and what
//! names name among them.
//!
//! Rooms: what an object is is in `object`, the width of integers in `width`; what stands under
//! which path in `objects`, what stands there before any definition in `predefined`, one path more
//! in `enter`, by where definitions stand in `here`; what names name in `look_up`, and found for
//! all objects in `settle`; all methods and paths in `listed`. `fault` has the refusals of a load.
#![tactic(auto)]

pub mod enter;
mod fault;
mod here;
mod listed;
mod look_up;
mod object;
mod objects;
pub mod predefined;
mod settle;
mod width;

pub use fault::{LoadCause, LoadFault, LoadRefusal, table_fault, tree_fault};
pub use here::Here;
pub use object::{
    AccessType, Content, CreatedField, CreatedFieldSize, DataName, Entry, Field, FieldRule, Method,
    Object, Reference, Region, Source, Through, UpdateRule,
};
pub use objects::Objects;
pub use width::Width;
