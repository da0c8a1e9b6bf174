//! Tests of integers at once: that there is an answer, of which no clause speaks.
#![tactic(auto)]

#[cfg(test)]
mod answers;
#[cfg(test)]
mod scenes;
