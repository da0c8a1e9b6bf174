// What a caller sees of a method.

use crate::known::Known;

/// Whether a term has a value, and of which kind.
#[derive(Clone, Copy, Debug, PartialEq, Eq)]
pub enum Yield {
    Always(Known),
    Sometimes(Known),
    Never,
}

/// An accepted method.
#[derive(Debug, Drop)]
pub struct Accepted {
    /// The kinds of its arguments.
    pub args: Vec<Known>,
    /// What a call gives.
    pub result: Yield,
    /// How many steps it takes at most, below 2 to the power 63.
    pub bound: u64,
    /// The least level of a mutex that it takes, or a method that it calls, if they take any.
    pub least: Option<u8>,
}
