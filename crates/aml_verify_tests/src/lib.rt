//! Tests of the verifier, over the public calls of its crate alone.
#![tactic(auto)]

#[cfg(test)]
mod keeping;
#[cfg(test)]
mod verdicts;
