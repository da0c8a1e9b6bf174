//! The namespace that tables' definitions make (ACPI 6.5, 5.3).
//!
//! Rooms: what definitions make is in `made`, `fields` and `define`, and what data is told to be in
//! `content`; loading in `load` and `namespace`; what names of a body mean in `link`, and how many
//! terms they take in `inside`. `law` has the laws.
#![tactic(auto)]

mod content;
mod define;
mod fields;
mod inside;
mod law;
mod link;
mod load;
mod made;
mod namespace;

pub use aml_objects::{
    AccessType, Content, CreatedField, CreatedFieldSize, DataName, Entry, Field, FieldRule,
    LoadCause, LoadFault, LoadRefusal, Method, Object, Reference, Region, Source, Through,
    UpdateRule, Width,
};
pub use aml_own_names::{OwnName, OwnNames};
pub use aml_paths::{NamePlace, NoMemory, ObjectId, Scope};
pub use content::content_in;
pub use law::{definitions_stay, faults_stand_within, links_count, paths_are_distinct};
pub use link::Link;
pub use namespace::{Host, Namespace};
