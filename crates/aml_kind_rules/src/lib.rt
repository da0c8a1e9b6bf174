//! The kinds of what operators give, by the kinds of their operands (the kinds are the project's
//! own), each as its rule in `specs/KindRules` of aml_judged says. A rule asks its operands in the
//! order of their evaluation, and tells the first cause.
//!
//! Rooms: `integers` has what integers give, `numbers` how great that is, `sizes` what is converted
//! or put together and what has a size, `elements` what stands at an index, `fields` fields and
//! fields of buffers, `names` what names take, `refused` a cause at a place.
#![tactic(auto)]

mod elements;
mod fields;
mod integers;
mod names;
mod numbers;
mod refused;
mod sizes;

pub use elements::{byte_written_kind, led_kind};
pub use fields::{buffer_field_stored_kind, field_kind, given_kind, lies_inside, source_kind};
pub use integers::{
    DivisionKinds, combined_kind, compared_kind, divided_kind, integer_kind, negated_kind,
    transformed_kind,
};
pub use names::{may_replace, notice_kind};
pub use sizes::{concatenated_kind, converted_kind, interface_kind, size_kind};
