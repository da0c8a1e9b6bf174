//! Tests of values, kinds, the contents of names and the rules over values.
#![tactic(auto)]

#[cfg(test)]
mod contents;
#[cfg(test)]
mod kinds;
#[cfg(test)]
mod rules;
