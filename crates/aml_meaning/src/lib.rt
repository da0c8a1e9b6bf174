//! What AML means: the text that a reader must believe (ACPI 6.5, 5.5.2 and 19.6).
//!
//! The meaning itself stands in `specs/`: `State` (values, frames, states), `Parts` (what an
//! evaluation is made of), `Meaning` (what each operator means), `Definitions` (what a Name or a
//! CreateField form at the top of a body makes), `Whole` (a method's body) and `Runs` (what an
//! evaluator's answer says of it). `docs/MEANING.md` tells the same in plain words.
//!
//! Rooms of the code, which has the words that both evaluators and the verifier share: `action` the
//! kinds of meaning, `definition` what operators make at the top of a body, `buffer_field` and
//! `mutex` what a running method has of each, `error` why an evaluation stops, `outcome` how it
//! ends, `law` the laws of the meaning.
#![tactic(auto)]

mod action;
mod buffer_field;
mod definition;
mod error;
mod law;
mod mutex;
mod outcome;

pub use action::{Action, Arithmetic, Bitwise, Comparison, Conversion, Pause, action_of};
pub use buffer_field::BufferField;
pub use definition::{Definition, definition_of};
pub use error::{AmlCause, AmlError};
pub use law::{
    calls_keep_the_frame, done_is_stable, lists_are_in_order, quiet_terms_keep, reads_are_answered,
    set_bits_are_found, sleeps_are_answered, terms_take_a_step,
};
pub use mutex::TakenMutex;
pub use outcome::Outcome;
