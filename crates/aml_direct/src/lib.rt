//! Evaluation straight from the bytes: a method's body where it lies in its table, with a number of
//! steps, errors included. No tree is made.
//!
//! Rooms: `body` is an evaluation's beginning and end, `eval` the cycle over terms, each function
//! one form of the meaning; what reads terms beside the cycle are `computed`, `data`, `define`,
//! `index`, `mutex`, `operand`, `past`, `placed`, `quiet` and `standing`. Where a body stands and
//! what may be called from it is aml_quick's, what terms do once their operands are values
//! aml_scene and aml_acts.
#![tactic(auto)]

mod body;
mod computed;
mod data;
mod define;
mod eval;
mod index;
mod mutex;
mod operand;
mod past;
mod placed;
mod quiet;
mod standing;

pub use body::evaluate_direct;
