//! Tests of lexical parts, operators and trees, over the public calls of their crates alone.
#![tactic(auto)]

#[cfg(test)]
mod lexing;
#[cfg(test)]
mod operators;
#[cfg(test)]
mod tree;
