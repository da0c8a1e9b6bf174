//! Plain evaluation: a method's body by its terms, with a number of steps, errors included.
//!
//! Rooms: `method` and `body` are an evaluation's beginning and end, `eval` the cycle over terms,
//! each function one form of the meaning; `setting` where a body stands and what may be called;
//! `callee` the body of a method that is called; what reads terms beside the cycle are `form`,
//! `data`, `define`, `index`, `mutex`, `operand`, `standing` and `quiet`. What terms do once their
//! operands are values is aml_scene and aml_acts.
#![tactic(auto)]

mod body;
mod callee;
mod data;
mod define;
mod eval;
mod form;
mod index;
mod method;
mod mutex;
mod operand;
mod quiet;
mod setting;
mod standing;

pub use method::{evaluate_plain, evaluate_tree};
