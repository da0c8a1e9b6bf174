// How an evaluation ends.

use crate::error::AmlError;
use aml_values::Value;

/// How an evaluation ends.
#[derive(Drop)]
pub enum Outcome {
    /// The body ended: with a Return's value, or without.
    Done(Option<Value>),
    AmlError(AmlError),
    OutOfSteps,
}
