//! What the terms of a body do by names, and what they tell a world, once their operands are
//! values, which evaluators share.
//!
//! Rooms: `contents`, `slots`, `own_name` and `target` are what is read by a name and stored;
//! `operand` what asks for no value; `define`, `field` and `buffer_field` fields; `mutex` and
//! `notice` what is taken and what a world is told. Where a body stands, rules over values and
//! operands that stand are aml_scene.
#![tactic(auto)]

pub mod buffer_field;
pub mod contents;
pub mod define;
pub mod field;
pub mod mutex;
pub mod notice;
pub mod operand;
pub mod own_name;
pub mod slots;
pub mod target;
