//! Tests of bounds on loops and calls, over the public calls of their crate alone.
#![tactic(auto)]

#[cfg(test)]
mod calls;
#[cfg(test)]
mod components;
#[cfg(test)]
mod graphs;
#[cfg(test)]
mod heights;
#[cfg(test)]
mod loops;
#[cfg(test)]
mod step_counts;
