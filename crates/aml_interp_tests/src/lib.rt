//! Tests of the evaluation of accepted methods, over the public calls of its crate alone.
#![tactic(auto)]

#[cfg(test)]
mod methods;
#[cfg(test)]
mod others;
#[cfg(test)]
mod rows;
#[cfg(test)]
mod worlds;
