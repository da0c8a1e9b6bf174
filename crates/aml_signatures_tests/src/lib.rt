//! Tests of signatures, over the public calls of their crate alone.
#![tactic(auto)]

#[cfg(test)]
mod signatures;
